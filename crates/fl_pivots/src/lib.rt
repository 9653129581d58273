//! The first structural pivots of a sparse matrix: for each column at which a row begins, the sparsest of these rows.
//!
//! A row begins at the column of its first nonzero entry. No chain of the rows that are chosen leads back to an earlier column,
//! so they are triangular as they stand. The selection is that of Faugère and Lachartre, 'Parallel Gaussian Elimination for
//! Gröbner bases computations in finite fields', PASCO 2010.
#![tactic(auto)]

mod beginning;
mod sparsest;

ghost use Rattle.std.specs.Prelude.{◌≡◌, [], IfOk, OnOk};
ghost use Rattle.fl_pivots.specs.Beginnings.{AreBeginnings, AreSorted};
ghost use Rattle.pivot_table.specs.Leftmost.{IsLeftmost};

use beginning::{Beginning, beginnings};
use pivot_table::{Book, Pair};
use sparse_rows::Rows;
use sparsest::by_table;
use std::alloc::{AllocError, Global};

/// The leftmost pairs, by ascending columns: for each column at which a row begins, the row with the fewest entries among those
/// that begin there, and of these the lowest. It takes time by the rows that have an entry and by the width, 8 bytes a column, which
/// are up to 32 bytes an entry, and 8 bytes a pair; where the matrix is wide (`Rows::is_wide`), time for sorting these rows and 12
/// bytes for each of them, so a great width costs nothing.
pub fn leftmost<'a>(alloc: Global, rows: &'a Rows) -> Result<Book<'a>, AllocError>
    ensures rows { IfOk result (λ book. book.rows ≡ rows.now) }
    ensures pairs { IfOk result (λ book. IsLeftmost rows.now.matrix book.pairs) }
{
    if rows.is_wide() {
        return by_sorting(alloc, rows);
    }
    by_table(alloc, rows)
}

// The leftmost pairs by sorting where the rows begin.
fn by_sorting<'a>(alloc: Global, rows: &'a Rows) -> Result<Book<'a>, AllocError>
    ensures rows { IfOk result (λ book. book.rows ≡ rows.now) }
    ensures pairs { IfOk result (λ book. IsLeftmost rows.now.matrix book.pairs) }
{
    let mut beginnings = beginnings(alloc, rows)?;
    beginnings.sort_unstable();
    let mut book = Book::empty(alloc, rows)?;
    take_first(&beginnings, &mut book)?;
    Ok(book)
}

// Takes the first row of each column into the book, which has no pair yet.
fn take_first(beginnings: &[Beginning], book: &mut Book) -> Result<(), AllocError>
    requires beginnings { AreBeginnings book.old.rows.matrix book.old.rows.matrix.height beginnings.now }
    requires sorted { AreSorted beginnings.now }
    requires none { book.old.pairs ≡ [] }
    ensures rows { book.new.rows ≡ book.old.rows }
    ensures pairs { OnOk result (IsLeftmost book.old.rows.matrix book.new.pairs) }
{
    // The contract of this call bounds the columns.
    book.rows().is_sound();
    // Each column before `next` at which a row begins has its pair.
    let mut next = 0;
    for beginning in beginnings {
        if beginning.column >= next {
            book.reserve(1)?;
            book.push(Pair {
                row: beginning.row,
                col: beginning.column,
            });
            next = beginning.column + 1;
        }
    }
    Ok(())
}
