// The search of one worker: the rows in ascending order, by levels.
ghost use Rattle.std.specs.Prelude.{◌≡◌, ◌<◌, [], false, IsTrue, IfOk, IfSome};
ghost use Rattle.pivot_table.specs.Greedy.{IsGreedy, IsTried};
ghost use Rattle.pivot_table.specs.History.{Grown, StartsWith};
ghost use Rattle.pivot_walks.specs.Budget.{IsUnbounded, StaysUnbounded};
ghost use Rattle.optimistic_search.specs.Search.{IsGreedyFrom};

use pivot_table::Book;
use pivot_walks::LeveledWalk;
use residue_words::plain::Pair;
use sparse_rows::Rows;
use std::alloc::{AllocError, Global};
use std::marker::Model;

// Appends these pairs to a walk with none.
fn follow(walk: &mut LeveledWalk, pairs: &[Pair])
    requires none { walk.old.pairs ≡ [] }
    requires grown { Grown walk.old.rows.matrix pairs.now }
    ensures rows { walk.new.rows ≡ walk.old.rows }
    ensures pairs { walk.new.pairs ≡ pairs.now }
    ensures unbounded { StaysUnbounded walk.old.left walk.new.left }
{
    for k in 0..pairs.len() {
        walk.push(pairs[k]);
    }
}

// A book with a walk over its pairs by levels, by which rows are tried. Contracts see what they see of the walk.
#[derive(Drop)]
struct LeveledSearch<'a> {
    book: Book<'a>,
    walk: LeveledWalk<'a>,
}

impl<'a> Model for LeveledSearch<'a> {
    ghost use Rattle.pivot_walks.specs.Levels.{Leveled};
    ghost use Rattle.optimistic_search.specs.Search.{IsLeveled};

    ghost Value = { Leveled };

    ghost view = { λ s. record { rows = s.book.rows; pairs = s.book.pairs; left = s.walk.left } };

    ghost invariant = { λ s. IsLeveled s.book s.walk };
}

impl<'a> LeveledSearch<'a> {
    // The matrix.
    fn rows(&self) -> &'a Rows
        ensures { result.now ≡ self.now.rows }
    {
        self.book.rows()
    }

    // Whether more steps were taken than the walk may.
    fn is_spent(&self) -> bool
        ensures yes { IsTrue result → self.now.left ≡ 0 }
        ensures no { result ≡ false → 0 < self.now.left }
    {
        self.walk.is_spent()
    }

    // Tries a row: where it has an alive column, the row is appended with the least, unless the steps are spent.
    fn try_row(&mut self, row: u32)
        requires inside { row < self.old.rows.matrix.height }
        requires left { 0 < self.old.left }
        ensures rows { self.new.rows ≡ self.old.rows }
        ensures tried { 0 < self.new.left → IsTried self.old.rows.matrix row self.old.pairs self.new.pairs }
        ensures unbounded { StaysUnbounded self.old.left self.new.left }
    {
        match self.walk.least_alive(row) {
            Some(col) => {
                let pair = Pair { row, col };
                self.book.push(pair);
                self.walk.push(pair);
            }
            None => {}
        }
    }
}

// Tries each row that has an entry, in ascending order, until the steps are spent; the others are dead. Tells whether it tried all.
fn try_all(search: &mut LeveledSearch) -> bool
    ensures rows { search.new.rows ≡ search.old.rows }
    ensures greedy { IsTrue result → IsGreedy search.old.rows.matrix search.old.pairs search.new.pairs }
    ensures unbounded { IsUnbounded search.old.left → IsTrue result }
{
    let rows = search.rows();
    // The call tells how high a matrix is: the next row's number is no overflow.
    rows.is_sound();
    let mut from = 0;
    while let Some(row) = rows.next_filled(from) {
        if search.is_spent() {
            return false;
        }
        search.try_row(row);
        from = row + 1;
    }
    !search.is_spent()
}

// Tries each row in ascending order, and appends those that have an alive column with the least, until more than so many steps were
// taken. Tells whether it tried all. It takes all memory first.
fn search_by_levels(alloc: Global, book: Book, most: u64) -> Result<(Book, bool), AllocError>
    ensures rows { IfOk result (λ t. t.0.rows ≡ book.entry.rows) }
    ensures greedy { IfOk result (λ t.
        IsTrue t.1 → IsGreedy book.entry.rows.matrix book.entry.pairs t.0.pairs) }
    ensures unbounded { IfOk result (λ t. IsUnbounded most → IsTrue t.1) }
{
    let mut book = book;
    let rows = book.rows();
    let many = rows.height().min(rows.width()) as usize;
    book.reserve(many.saturating_sub(book.pairs().len()))?;
    let mut walk = LeveledWalk::new(alloc, rows, most)?;
    follow(&mut walk, book.pairs());
    let mut search = LeveledSearch { book, walk };
    let whole = try_all(&mut search);
    Ok((search.book, whole))
}

// Tries each row in ascending order, and appends those that have an alive column with the least. It takes all memory first.
pub(crate) fn search_greedily(alloc: Global, book: Book) -> Result<Book, AllocError>
    ensures rows { IfOk result (λ b. b.rows ≡ book.entry.rows) }
    ensures greedy { IfOk result (λ b. IsGreedy book.entry.rows.matrix book.entry.pairs b.pairs) }
{
    let (found, _whole) = search_by_levels(alloc, book, u64::MAX)?;
    Ok(found)
}

/// What `search` by one worker does, given up after a number of steps: on some matrices it would find long chains of pivots, which only
/// fill what they leave. A step is an entry of a pivot row that a walk looks at, or that is looked at while levels are raised. Besides
/// the steps, each row and column is gone through a few times.
///
/// None says that more than `most` steps were taken, those for the pairs that the book had among them; then the book is gone. If `most` is
/// the largest number, any may be. No clause covers the number of steps. It takes 13 bytes a column and 16 bytes a pair that there can
/// be, all before the first row.
pub fn search_within(alloc: Global, book: Book, most: u64) -> Result<Option<Book>, AllocError>
    ensures rows { IfOk result (λ o. IfSome o (λ b. b.rows ≡ book.entry.rows)) }
    ensures begins { IfOk result (λ o. IfSome o (λ b. StartsWith b.pairs book.entry.pairs)) }
    ensures greedy { IfOk result (λ o. IfSome o (IsGreedyFrom book.entry)) }
{
    let (found, whole) = search_by_levels(alloc, book, most)?;
    if !whole {
        return Ok(None);
    }
    Ok(Some(found))
}
