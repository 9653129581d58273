// From a solution to the reduced one.
ghost use Rattle.std.specs.Prelude.{◌≡◌, ◌<◌, ◌-◌, ◌%◌, ℕ, List, length, slice_index};
ghost use Rattle.residue_words.specs.Matrix.{Matrix, IsVector, row};
ghost use Rattle.sparse_rows.specs.Stored.{IsSparse, spread};
ghost use Rattle.row_space.specs.Kernel.{EndsAt, IsKernel};
ghost use Rattle.row_space.specs.Solution.{IsReducedSolution, IsSolution};
ghost use Rattle.kernel_solve.specs.Substituted.{AddsTimes};

use residue_words::Modulus;
use sparse_rows::Rows;

// Makes a solution the reduced one, by the kernel basis: its rows are taken away from it so often that it is 0 where they end.
pub(crate) fn reduce(null: &Rows, x: &mut [u64])
    requires { IsVector null.now.modulus null.now.matrix.width x.old }
    ensures vector { IsVector null.now.modulus null.now.matrix.width x.new }
    ensures reduced { (A : Matrix) (b : List ℕ) → IsKernel null.now.modulus A null.now.matrix →
        IsSolution null.now.modulus A b x.old → IsReducedSolution null.now.modulus A b x.new }
{
    // The proof wants that a modulus is above 0.
    null.is_sound();
    for k in 0..null.height() {
        clear_end(null, k, x);
    }
}

// Takes row k, whose last entry is 1, away from x so often that x is 0 where it ends.
fn clear_end(null: &Rows, k: u32, x: &mut [u64])
    requires row { k < null.now.matrix.height }
    requires vector { IsVector null.now.modulus null.now.matrix.width x.old }
    ensures vector { IsVector null.now.modulus null.now.matrix.width x.new }
    ensures adds { (end : ℕ) → EndsAt null.now.matrix.width (row null.now.matrix k) end →
        AddsTimes null.now.modulus ((null.now.modulus - slice_index x.old end) % null.now.modulus)
        (row null.now.matrix k) x.old x.new }
{
    let modulus = null.modulus();
    let cols = null.cols(k);
    if cols.is_empty() {
        return;
    }
    let end = cols[cols.len() - 1] as usize;
    let factor = modulus.neg(x[end]);
    add_multiple(&modulus, factor, cols, null.vals(k), x);
}

// Adds a multiple of the row that stands in these columns and values.
pub(crate) fn add_multiple(modulus: &Modulus, by: u64, cols: &[u32], vals: &[u64], x: &mut [u64])
    requires factor { by < modulus.now }
    requires sparse { IsSparse modulus.now (length x.old) cols.now vals.now }
    requires vector { IsVector modulus.now (length x.old) x.old }
    ensures vector { IsVector modulus.now (length x.old) x.new }
    ensures adds { AddsTimes modulus.now by (spread (length x.old) cols.now vals.now) x.old x.new }
{
    for k in 0..cols.len() {
        let j = cols[k] as usize;
        x[j] = modulus.add(x[j], modulus.mul(by, vals[k]));
    }
}
