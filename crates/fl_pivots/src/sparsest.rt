// The leftmost pairs by a table of the columns.
ghost use Rattle.std.specs.Prelude.{◌≡◌, [], IfOk, OnOk};
ghost use Rattle.fl_pivots.specs.Sparsest.{AreSparsest};
ghost use Rattle.pivot_table.specs.Leftmost.{IsLeftmost};

use crate::beginning::Beginning;
use pivot_table::{Book, Pair};
use sparse_rows::Rows;
use std::alloc::{AllocError, Global};

// The weight where no row begins, more than any row has.
const NONE: u32 = u32::MAX;

// Of the rows that begin at a column one with the fewest entries, and of these the lowest: how many they are, and which row it is.
#[derive(Clone, Copy, Debug, Drop)]
pub(crate) struct Sparsest {
    pub(crate) weight: u32,
    pub(crate) row: u32,
}

// The leftmost pairs, in time by the rows that have an entry and by the width, and 8 bytes a column.
pub(crate) fn by_table<'a>(alloc: Global, rows: &'a Rows) -> Result<Book<'a>, AllocError>
    ensures rows { IfOk result (λ book. book.rows ≡ rows.now) }
    ensures pairs { IfOk result (λ book. IsLeftmost rows.now.matrix book.pairs) }
{
    let table = sparsest_rows(alloc, rows)?;
    let mut book = Book::empty(alloc, rows)?;
    take_sparsest(&table, &mut book)?;
    Ok(book)
}

// The sparsest row of each column.
fn sparsest_rows(alloc: Global, rows: &Rows) -> Result<Vec<Sparsest>, AllocError>
    ensures { IfOk result (λ table. AreSparsest rows.now.matrix rows.now.matrix.height table.items) }
{
    // The contract of this call tells that the rows are a matrix, and bounds its sizes.
    rows.is_sound();
    let none = Sparsest {
        weight: NONE,
        row: 0,
    };
    let mut table = vec![in alloc; none; rows.width() as usize]?;
    let mut from = 0;
    while let Some(i) = rows.next_filled(from) {
        let beginning = Beginning::of(rows, i);
        let column = beginning.column as usize;
        // Of rows with as many entries the first stays.
        if beginning.weight < table[column].weight {
            table[column] = Sparsest {
                weight: beginning.weight,
                row: i,
            };
        }
        from = i + 1;
    }
    Ok(table)
}

// Takes the sparsest row of each column into the book, which has no pair yet.
fn take_sparsest(table: &[Sparsest], book: &mut Book) -> Result<(), AllocError>
    requires table { AreSparsest book.old.rows.matrix book.old.rows.matrix.height table.now }
    requires none { book.old.pairs ≡ [] }
    ensures rows { book.new.rows ≡ book.old.rows }
    ensures pairs { OnOk result (IsLeftmost book.old.rows.matrix book.new.pairs) }
{
    // The contract of this call bounds the columns.
    book.rows().is_sound();
    for column in 0..table.len() {
        let sparsest = table[column];
        if sparsest.weight < NONE {
            book.reserve(1)?;
            book.push(Pair {
                row: sparsest.row,
                col: column as u32,
            });
        }
    }
    Ok(())
}
