// Sums of the cells at each place, where they stand.
ghost use Rattle.std.specs.Prelude.{◌≡◌, ◌<◌, ◌≤◌, ◌+◌, ◌==◌, if◌then◌else◌, ℕ, [], ◌∷◌, ◌++◌, length, take, drop, All};
ghost use Rattle.std.specs.List.Sorted.{IsNonDecreasingBy};
ghost use Rattle.matrix_cells.specs.Cells.{AreSums};

use crate::values_at_places::Cell;
use residue_words::Modulus;

/// Puts the sums at each place that aren't 0 to the front of the cells, which ascend by places. The answer is how many those
/// are; what stands behind them is of no use.
pub fn sum_cells(cells: &mut [Cell], modulus: Modulus) -> usize
    requires residues { All (λ c. c.val < modulus) cells.old }
    requires sorted { IsNonDecreasingBy (λ c. c.place) cells.old }
    ensures few { result ≤ length cells.new }
    ensures sums { AreSums modulus cells.old (take result cells.new) }
{
    let mut kept = 0;
    let mut sum = Cell { place: 0, val: 0 };
    for k in 0..cells.len() {
        let cell = cells[k];
        if cell.place != sum.place {
            kept = keep_nonzero(cells, kept, sum);
            sum = Cell {
                place: cell.place,
                val: 0,
            };
        }
        sum.val = modulus.add(sum.val, cell.val);
    }
    keep_nonzero(cells, kept, sum)
}

// Puts a sum behind the first `kept` cells, if it isn't 0. The answer is how many are kept then.
fn keep_nonzero(cells: &mut [Cell], kept: usize, sum: Cell) -> usize
    requires room { 0 < sum.val → kept < length cells.old }
    ensures many { result ≡ (if sum.val == 0 then kept else kept + 1) }
    ensures kept { take result cells.new ≡ (if sum.val == 0 then take kept cells.old else take kept cells.old
        ++ sum ∷ []) }
    ensures behind { (k : ℕ) → result ≤ k → drop k cells.new ≡ drop k cells.old }
{
    if sum.val == 0 {
        return kept;
    }
    cells[kept] = sum;
    kept + 1
}
