// The search row by row, each by a walk of its own.
ghost use Rattle.std.specs.Prelude.{◌≡◌, ◌<◌, ◌≤◌, None, length, take, IfOk};
ghost use Rattle.pivot_table.specs.Greedy.{IsGreedy, IsTried};
ghost use Rattle.pivot_table.specs.History.{Grown, HasRow, Maximal, StartsWith};
ghost use Rattle.pivot_walks.specs.Candidate.{IsCovered};
ghost use Rattle.pivot_walks.specs.Cost.{TakesItsCost};
ghost use Rattle.optimistic_search.specs.CostOfRows.{TakesCostOfRows};
ghost use Rattle.pivot_table.specs.Book.{HasRoom};

use pivot_table::Book;
use pivot_walks::{RestingWalk, Steps, Walk};
use residue_words::plain::Pair;
use sparse_rows::Rows;
use std::alloc::{AllocError, Global};
use std::marker::Model;
use std::sync::ledger::Ledger;

// Appends these pairs to a walk with the first of them.
pub(crate) fn follow(walk: &mut RestingWalk, pairs: &[Pair], first: usize)
    requires first { first ≤ length pairs.now }
    requires pairs { walk.old.pairs ≡ take first pairs.now }
    requires closed { walk.old.current ≡ None }
    requires grown { Grown walk.old.rows.matrix pairs.now }
    ensures rows { walk.new.rows ≡ walk.old.rows }
    ensures pairs { walk.new.pairs ≡ pairs.now }
    ensures closed { walk.new.current ≡ None }
{
    for k in first..pairs.len() {
        walk.push(pairs[k]);
    }
}

// A book with a walk over its pairs, by which rows are tried. Contracts see the matrix and the pairs.
#[derive(Drop)]
pub(crate) struct Search<'a, L: Ledger> {
    book: Book<'a>,
    walk: Walk<'a, L>,
}

impl<'a, L: Ledger> Model for Search<'a, L> {
    ghost use Rattle.pivot_walks.specs.Indexed.{Indexed};
    ghost use Rattle.optimistic_search.specs.Search.{IsBetweenRows};

    ghost Value = { Indexed };

    ghost view = { λ s. record { rows = s.book.rows; pairs = s.book.pairs } };

    ghost invariant = { λ s. IsBetweenRows s.book s.walk };
}

impl<'a, L: Ledger> Search<'a, L> {
    // Begins with a book that has room, and a walk over the first of its pairs.
    pub(crate) fn of(book: Book<'a>, rest: RestingWalk<'a>, first: usize) -> Search<'a, L>
        requires room { HasRoom book.rows.matrix book }
        requires rows { rest.rows ≡ book.rows }
        requires first { first ≤ length book.pairs }
        requires pairs { rest.pairs ≡ take first book.pairs }
        requires closed { rest.current ≡ None }
        ensures rows { result.rows ≡ book.entry.rows }
        ensures pairs { result.pairs ≡ book.entry.pairs }
    {
        let mut rest = rest;
        follow(&mut rest, book.pairs(), first);
        Search {
            book,
            walk: Walk::of(rest),
        }
    }

    // The matrix.
    pub(crate) fn rows(&self) -> &'a Rows
        ensures { result.now ≡ self.now.rows }
    {
        self.book.rows()
    }

    // The book, with what was found.
    pub(crate) fn found(self) -> Book<'a>
        ensures rows { result.rows ≡ self.entry.rows }
        ensures pairs { result.pairs ≡ self.entry.pairs }
    {
        self.book
    }

    // Tries a row: where it has an alive column, the row is appended with the least. A row that is in a pair, or all of whose
    // entries are in columns of pairs, takes no step.
    pub(crate) fn try_row(&mut self, row: u32, steps: &mut Steps<L>)
        requires { row < self.old.rows.matrix.height }
        ensures rows { self.new.rows ≡ self.old.rows }
        ensures tried { IsTried self.old.rows.matrix row self.old.pairs self.new.pairs }
        ensures cost { TakesItsCost self.old.rows.matrix self.old.pairs row steps.old steps.new }
        ensures known { HasRow self.old.pairs row → steps.new ≡ steps.old }
        ensures covered { IsCovered self.old.rows.matrix self.old.pairs row → steps.new ≡ steps.old }
    {
        if !self.walk.has_candidate(row) {
            return;
        }
        self.walk.begin(row, steps);
        match self.walk.least_alive() {
            Some(col) => {
                let pair = Pair { row, col };
                self.book.push(pair);
                self.walk.extend(pair, steps);
            }
            None => self.walk.end(),
        }
    }
}

// Tries each row in ascending order.
fn try_all<L: Ledger>(search: &mut Search<'_, L>, steps: &mut Steps<L>)
    ensures rows { search.new.rows ≡ search.old.rows }
    ensures greedy { IsGreedy search.old.rows.matrix search.old.pairs search.new.pairs }
    ensures cost { TakesCostOfRows search.old.rows.matrix search.new.pairs search.old.rows.matrix.height
        steps.old steps.new }
{
    for row in 0..search.rows().height() {
        search.try_row(row, steps);
    }
}

// Takes all memory first.
fn search_with<'a, L: Ledger>(
    alloc: Global,
    book: Book<'a>,
    steps: &mut Steps<L>,
) -> Result<Book<'a>, AllocError>
    ensures rows { IfOk result (λ b. b.rows ≡ book.entry.rows) }
    ensures greedy { IfOk result (λ b. IsGreedy book.entry.rows.matrix book.entry.pairs b.pairs) }
    ensures cost { IfOk result (λ b. TakesCostOfRows book.entry.rows.matrix b.pairs
        book.entry.rows.matrix.height steps.old steps.new) }
{
    let mut book = book;
    let rows = book.rows();
    let many = rows.height().min(rows.width()) as usize;
    book.reserve(many.saturating_sub(book.pairs().len()))?;
    let rest = RestingWalk::new(alloc, rows)?;
    let mut search = Search::<L>::of(book, rest, 0);
    try_all(&mut search, steps);
    Ok(search.found())
}

/// What `search` with one worker does, by a walk from each row alone: the rows are tried in ascending order, and each that has an
/// alive column is appended with the least. Nothing is alive afterwards.
///
/// It is kept to compare with, and takes two to five times as long as `search`. It counts its steps: they are at most the costs of all
/// rows in the list that it leaves, and that they are no fewer isn't claimed, since a row that is tried in a shorter list costs less. It
/// takes 9 bytes a column and 16 bytes a pair that there can be, all before the first row.
pub fn search_by_walk<'a, L: Ledger>(
    alloc: Global,
    book: Book<'a>,
    steps: &mut Steps<L>,
) -> Result<Book<'a>, AllocError>
    ensures rows { IfOk result (λ b. b.rows ≡ book.entry.rows) }
    ensures greedy { IfOk result (λ b. IsGreedy book.entry.rows.matrix book.entry.pairs b.pairs) }
    ensures begins { IfOk result (λ b. StartsWith b.pairs book.entry.pairs) }
    ensures maximal { IfOk result (λ b. Maximal book.entry.rows.matrix b.pairs) }
    ensures cost { IfOk result (λ b. TakesCostOfRows book.entry.rows.matrix b.pairs
        book.entry.rows.matrix.height steps.old steps.new) }
{
    search_with(alloc, book, steps)
}
