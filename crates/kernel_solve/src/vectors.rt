// Vectors with a place for each entry, zeros too, beside the matrices of one column and of one row.
ghost use Rattle.std.specs.Prelude.{◌≡◌, ◌≢◌, ◌<◌, ◌≤◌, ℕ, length, slice_index, IfOk};
ghost use Rattle.std.specs.Option.{MatchOption};
ghost use Rattle.residue_words.specs.Matrix.{IsMatrix, IsVector, row};
ghost use Rattle.sparse_rows.specs.Rows.{LARGEST_SIZE};
ghost use Rattle.kernel_solve.specs.Column.{column};
ghost use Rattle.kernel_solve.specs.Refuted.{IsFirstNonzero, AreZeroBehind};

use crate::inverses::one_row;
use residue_words::Modulus;
use sparse_rows::{LARGEST_SIZE, Rows, Sparse};
use std::alloc::{AllocError, Global};

// The entries of a column.
pub(crate) fn entries_of(alloc: Global, b: &Rows) -> Result<Vec<u64>, AllocError>
    requires { b.now.matrix.width ≡ 1 }
    ensures { IfOk result (λ side. side.items ≡ column b.now.matrix) }
{
    // The proof wants that b is a matrix of residues.
    b.is_sound();
    b.times(alloc, &[1])
}

// The column of these entries.
pub(crate) fn column_of(alloc: Global, entries: &[u64], p: Modulus) -> Result<Rows, AllocError>
    requires small { length entries.now ≤ LARGEST_SIZE }
    requires residues { IsVector p (length entries.now) entries.now }
    ensures modulus { IfOk result (λ x. x.modulus ≡ p) }
    ensures sound { IfOk result (λ x. IsMatrix x.modulus x.matrix) }
    ensures height { IfOk result (λ x. x.matrix.height ≡ length entries.now) }
    ensures width { IfOk result (λ x. x.matrix.width ≡ 1) }
    ensures entries { IfOk result (λ x. column x.matrix ≡ entries.now) }
{
    let row = row_of(alloc, entries, p)?;
    let x = row.transpose(alloc)?;
    // The proof wants that it is a matrix of residues.
    x.is_sound();
    Ok(x)
}

// The row of these entries.
pub(crate) fn row_of(alloc: Global, entries: &[u64], p: Modulus) -> Result<Rows, AllocError>
    requires small { length entries.now ≤ LARGEST_SIZE }
    requires residues { IsVector p (length entries.now) entries.now }
    ensures modulus { IfOk result (λ y. y.modulus ≡ p) }
    ensures sound { IfOk result (λ y. IsMatrix y.modulus y.matrix) }
    ensures height { IfOk result (λ y. y.matrix.height ≡ 1) }
    ensures width { IfOk result (λ y. y.matrix.width ≡ length entries.now) }
    ensures row { IfOk result (λ y. row y.matrix 0 ≡ entries.now) }
{
    let sparse = sparse_of(alloc, entries, p)?;
    one_row(alloc, &sparse)
}

// The row of these entries by those that aren't 0.
fn sparse_of(alloc: Global, entries: &[u64], p: Modulus) -> Result<Sparse, AllocError>
    requires small { length entries.now ≤ LARGEST_SIZE }
    requires residues { IsVector p (length entries.now) entries.now }
    ensures modulus { IfOk result (λ row. row.modulus ≡ p) }
    ensures row { IfOk result (λ row. row.row ≡ entries.now) }
{
    let n = entries.len() as u32;
    let mut row = Sparse::new(alloc, n, p);
    for j in 0..n {
        let value = entries[j as usize];
        if value != 0 {
            row.push(j, value)?;
        }
    }
    Ok(row)
}

// The place of the first entry that isn't 0.
pub(crate) fn first_nonzero(entries: &[u64]) -> Option<usize>
    ensures { MatchOption result (AreZeroBehind entries.now 0) (IsFirstNonzero entries.now) }
{
    for k in 0..entries.len() {
        if entries[k] != 0 {
            return Some(k);
        }
    }
    None
}
