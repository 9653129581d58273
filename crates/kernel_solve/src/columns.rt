// The columns of a form: where no row leads, and what stands in one.
ghost use Rattle.std.specs.Prelude.{◌≡◌, ◌<◌, ◌↔◌, length, slice_index, IfOk, IsTrue};
ghost use Rattle.residue_words.specs.Matrix.{entry};
ghost use Rattle.kernel_solve.specs.Column.{column_at};

use sparse_rows::{Rows, Sparse};
use std::alloc::{AllocError, Global};

// Whether there is a lead k, and it is j.
pub(crate) fn stands_at(leads: &[u32], k: usize, j: u32) -> bool
    ensures { IsTrue result ↔ ((k < length leads.now) × (slice_index leads.now k ≡ j)) }
{
    k < leads.len() && leads[k] == j
}

// Column j, in the time of a search in each row.
pub(crate) fn column_at(alloc: Global, rows: &Rows, j: u32) -> Result<Sparse, AllocError>
    ensures modulus { IfOk result (λ column. column.modulus ≡ rows.now.modulus) }
    ensures row { IfOk result (λ column. column.row ≡ column_at rows.now.matrix j) }
{
    let mut column = Sparse::new(alloc, rows.height(), rows.modulus());
    for i in 0..rows.height() {
        let value = entry_of(rows, i, j);
        if value != 0 {
            column.push(i, value)?;
        }
    }
    Ok(column)
}

// The entry at row i and column j.
pub(crate) fn entry_of(rows: &Rows, i: u32, j: u32) -> u64
    requires { i < rows.now.matrix.height }
    ensures { result ≡ entry rows.now.matrix i j }
{
    match rows.cols(i).binary_search(&j) {
        Ok(k) => rows.vals(i)[k],
        Err(_) => 0,
    }
}
