// The search of a matrix that has many more columns than entries: over the columns that have one.
ghost use Rattle.std.specs.Prelude.{◌≡◌, ◌<◌, ◌≤◌, [], length, slice_index, IfOk};
ghost use Rattle.std.specs.List.{Contains};
ghost use Rattle.pivot_table.specs.Greedy.{IsGreedy};
ghost use Rattle.pivot_table.specs.History.{StartsWith};
ghost use Rattle.sparse_rows.specs.Rows.{AreEnough, AreRising, narrowed, LARGEST_SIZE};
ghost use Rattle.optimistic_search.specs.Renamed.{AreInside, renamed};
ghost use Rattle.pivot_table.specs.Book.{HasRoom};

use crate::greedy::search_greedily;
use pivot_table::Book;
use residue_words::plain::Pair;
use sparse_rows::Rows;
use std::alloc::{AllocError, Global};

// The place of a column among those that ascend.
fn place_among(columns: &[u32], column: u32) -> u32
    requires rising { AreRising columns.now }
    requires few { length columns.now ≤ LARGEST_SIZE }
    requires among { Contains columns.now column }
    ensures inside { result < length columns.now }
    ensures there { slice_index columns.now result ≡ column }
{
    match columns.binary_search(&column) {
        Ok(place) => place as u32,
        Err(place) => place as u32,
    }
}

// Appends the pairs of a book to an empty one of these columns alone.
fn push_narrowed(narrow: &mut Book, columns: &[u32], book: &Book)
    requires none { narrow.old.pairs ≡ [] }
    requires few { length columns.now ≤ LARGEST_SIZE }
    requires enough { AreEnough book.now.rows.matrix columns.now }
    requires matrix { narrow.old.rows.matrix ≡ narrowed book.now.rows.matrix columns.now }
    requires room { length book.now.pairs ≤ narrow.old.spare }
    ensures rows { narrow.new.rows ≡ narrow.old.rows }
    ensures pairs { renamed (slice_index columns.now) narrow.new.pairs ≡ book.now.pairs }
    ensures inside { AreInside narrow.old.rows.matrix.width narrow.new.pairs }
{
    let pairs = book.pairs();
    for k in 0..pairs.len() {
        let Pair { row, col } = pairs[k];
        let col = place_among(columns, col);
        narrow.push(Pair { row, col });
    }
}

// Appends to a book what a book of these columns alone has more.
fn push_widened(book: &mut Book, columns: &[u32], narrow: &Book)
    requires enough { AreEnough book.old.rows.matrix columns.now }
    requires matrix { narrow.now.rows.matrix ≡ narrowed book.old.rows.matrix columns.now }
    requires begins { StartsWith (renamed (slice_index columns.now) narrow.now.pairs) book.old.pairs }
    requires room { HasRoom narrow.now.rows.matrix book.old }
    ensures rows { book.new.rows ≡ book.old.rows }
    ensures pairs { book.new.pairs ≡ renamed (slice_index columns.now) narrow.now.pairs }
{
    let pairs = narrow.pairs();
    for k in book.pairs().len()..pairs.len() {
        let Pair { row, col: place } = pairs[k];
        let col = columns[place as usize];
        book.push(Pair { row, col });
    }
}

// The book of a matrix of these columns alone, with the pairs of a book of all.
fn narrowed_book<'a>(
    alloc: Global,
    narrow: &'a Rows,
    columns: &[u32],
    book: &Book,
) -> Result<Book<'a>, AllocError>
    requires few { length columns.now ≤ LARGEST_SIZE }
    requires enough { AreEnough book.now.rows.matrix columns.now }
    requires matrix { narrow.now.matrix ≡ narrowed book.now.rows.matrix columns.now }
    ensures rows { IfOk result (λ b. b.rows ≡ narrow.now) }
    ensures pairs { IfOk result (λ b. renamed (slice_index columns.now) b.pairs ≡ book.now.pairs) }
    ensures inside { IfOk result (λ b. AreInside b.rows.matrix.width b.pairs) }
{
    let mut start = Book::empty(alloc, narrow)?;
    start.reserve(book.pairs().len())?;
    push_narrowed(&mut start, columns, book);
    Ok(start)
}

// What `search_greedily` does, over these columns alone, in which all entries stand.
fn search_columns<'a>(
    alloc: Global,
    book: Book<'a>,
    columns: &[u32],
    narrow: &Rows,
) -> Result<Book<'a>, AllocError>
    requires enough { AreEnough book.rows.matrix columns.now }
    requires matrix { narrow.now.matrix ≡ narrowed book.rows.matrix columns.now }
    ensures rows { IfOk result (λ b. b.rows ≡ book.entry.rows) }
    ensures greedy { IfOk result (λ b. IsGreedy book.entry.rows.matrix book.entry.pairs b.pairs) }
{
    let mut book = book;
    let many = narrow.height().min(narrow.width()) as usize;
    book.reserve(many.saturating_sub(book.pairs().len()))?;
    let start = narrowed_book(alloc, narrow, columns, &book)?;
    let found = search_greedily(alloc, start)?;
    push_widened(&mut book, columns, &found);
    Ok(book)
}

// What `search_greedily` does, over the columns that have an entry.
fn search_narrowed(alloc: Global, book: Book) -> Result<Book, AllocError>
    ensures rows { IfOk result (λ b. b.rows ≡ book.entry.rows) }
    ensures greedy { IfOk result (λ b. IsGreedy book.entry.rows.matrix book.entry.pairs b.pairs) }
{
    let columns = book.rows().occupied(alloc)?;
    let narrow = book.rows().narrowed(alloc, &columns)?;
    search_columns(alloc, book, &columns, &narrow)
}

// Whether there are so many more columns, or rows, than entries that what several workers take for each of them doesn't pay.
pub(crate) fn has_few_entries(rows: &Rows) -> bool {
    rows.is_wide() || u64::from(rows.height()) / 4 > rows.entries()
}

// Tries the rows in ascending order, and appends those that have an alive column with the least, in memory by the entries. It
// takes all memory first.
pub(crate) fn search_by_entries(alloc: Global, book: Book) -> Result<Book, AllocError>
    ensures rows { IfOk result (λ b. b.rows ≡ book.entry.rows) }
    ensures greedy { IfOk result (λ b. IsGreedy book.entry.rows.matrix book.entry.pairs b.pairs) }
{
    if book.rows().is_wide() {
        search_narrowed(alloc, book)
    } else {
        search_greedily(alloc, book)
    }
}
