// Which rows are pivots' rows.
ghost use Rattle.std.specs.Prelude.{◌≡◌, ◌≢◌, ◌<◌, ◌≤◌, ℕ, length, slice_index, IfOk};
ghost use Rattle.std.specs.List.{Contains};
ghost use Rattle.std.specs.Option.{MatchOption};
ghost use Rattle.row_space.specs.Factors.{row_at};
ghost use Rattle.sparse_rows.specs.Columns.{IsAbsent, IsAt};
ghost use Rattle.sparse_rows.specs.Rows.{AreRising, LARGEST_SIZE};
ghost use Rattle.triangular_solve.specs.Reduced.{IsPivotRow};
ghost use Rattle.schur_rows.specs.PivotNumbers.{AreNumbersOf, HasNumbers, IsRowOfPair};

use crate::row_reducer::RowReducer;
use pivot_table::Pair;
use std::alloc::{AllocError, Global};

// Stands at each row that is no pivot's.
const NONE: u32 = u32::MAX;

// The rows of a triangle's matrix that have an entry, with the numbers of the pairs that they belong to: 8 bytes a row.
#[derive(Debug, Drop)]
pub struct PivotNumbers {
    // Ascending.
    rows: Vec<u32>,
    numbers: Vec<u32>,
}

impl PivotNumbers {
    // In time proportional to the height, and to the pairs times a logarithm.
    pub(crate) fn of(alloc: Global, reducer: &RowReducer) -> Result<PivotNumbers, AllocError>
        ensures { IfOk result (HasNumbers reducer.now.pairs) }
    {
        // The call tells how high a matrix is.
        reducer.rows().is_sound();
        let rows = reducer.rows().filled(alloc)?;
        let numbers = numbers_of(alloc, &rows, reducer.pairs())?;
        Ok(PivotNumbers { rows, numbers })
    }

    // How many rows have an entry.
    pub(crate) fn len(&self) -> usize {
        self.rows.len()
    }

    // The number of the pair to which the row belongs, if there is one, in time at most logarithmic in the rows.
    pub(crate) fn find(&self, i: u32, pairs: &[Pair]) -> Option<u32>
        requires { HasNumbers pairs.now self.now }
        ensures { MatchOption result (¬ IsPivotRow pairs.now i) (IsRowOfPair pairs.now i) }
    {
        // The contract alone needs the pairs.
        let _ = pairs;
        let Some(t) = place_of(&self.rows, i) else {
            return None;
        };
        let number = self.numbers[t];
        if number == NONE { None } else { Some(number) }
    }
}

// Of each of these ascending rows the number of its pair, or NONE.
fn numbers_of(alloc: Global, rows: &[u32], pairs: &[Pair]) -> Result<Vec<u32>, AllocError>
    requires rising { AreRising rows.now }
    requires few { length pairs.now ≤ LARGEST_SIZE }
    requires known { (k : ℕ) → k < length pairs.now → Contains rows.now (row_at pairs.now k) }
    requires apart { (k t : ℕ) → k < t → t < length pairs.now → row_at pairs.now k ≢ row_at pairs.now t }
    ensures { IfOk result (λ numbers. AreNumbersOf pairs.now rows.now (length pairs.now) numbers.items) }
{
    let mut numbers = vec![in alloc; NONE; rows.len()]?;
    for k in 0..pairs.len() {
        if let Some(t) = place_of(rows, pairs[k].row) {
            numbers[t] = k as u32;
        }
    }
    Ok(numbers)
}

// The place of a row or column among these ascending ones, if it is one of them. Where none before it is missing it stands at its own
// number.
pub(crate) fn place_of(rows: &[u32], i: u32) -> Option<usize>
    requires { AreRising rows.now }
    ensures { MatchOption result (IsAbsent rows.now i) (IsAt rows.now i) }
{
    let own = i as usize;
    if own < rows.len() && rows[own] == i {
        return Some(own);
    }
    match rows.binary_search(&i) {
        Ok(place) => Some(place),
        Err(_) => None,
    }
}
