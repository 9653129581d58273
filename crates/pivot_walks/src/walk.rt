// The walk from one row.
ghost use Rattle.std.specs.Prelude.{◌≡◌, ◌≢◌, ◌<◌, ◌≤◌, ◌+◌, ◌++◌, ◌∷◌, ◌↔◌, ℕ, [], length, take, false, IsTrue, IsSome, Some, None, IfOk};
ghost use Rattle.std.specs.List.{Contains};
ghost use Rattle.pivot_table.specs.History.{Alive, Dead, HasCol, HasRow, Nonzero, row_weight};
ghost use Rattle.pivot_walks.specs.Candidate.{HasCandidate};
ghost use Rattle.pivot_walks.specs.Cost.{TakesItsCost, TakesTheRise};
ghost use Rattle.pivot_walks.specs.Indexed.{IsNewPair, LeadsTo};
ghost use Rattle.pivot_walks.specs.MarkedColumns.{AreAscending, Grows};
ghost use Rattle.pivot_walks.specs.Reached.{PivotalAreMarked, ArePassed, AreReached, HasWalked, IsFollowed, IsUnderWay};
ghost use Rattle.pivot_walks.specs.Spent.{TakesForColumns, TakesForRow, spent_for, weight_at};
ghost use Rattle.pivot_walks.specs.Walked.{IsLeastAlive, OfOpenRow, extended};

use crate::counted_marks::CountedMarks;
use crate::indexed_pairs::IndexedPairs;
use crate::resting_walk::RestingWalk;
use crate::steps::Steps;
use residue_words::plain::Pair;
use sparse_rows::Rows;
use std::alloc::{AllocError, Global};
use std::marker::Model;
use std::sync::ledger::Ledger;

// Marks column j where it is pivotal, for a step in any case.
fn begin_one<L: Ledger>(
    pivots: &IndexedPairs,
    marks: &mut CountedMarks<L>,
    j: u32,
    steps: &mut Steps<L>,
)
    requires inside { j < pivots.now.rows.matrix.width }
    requires width { marks.old.width ≡ pivots.now.rows.matrix.width }
    ensures width { marks.new.width ≡ marks.old.width }
    ensures grows { Grows (λ i. (i ≡ j) × HasCol pivots.now.pairs j) marks.old.list marks.new.list }
    ensures has { HasCol pivots.now.pairs j → Contains marks.new.list j }
    ensures steps { steps.new ≡ steps.old + 1 }
{
    match pivots.find(j) {
        Some(_row) => marks.add(j, steps),
        None => steps.tick(),
    }
}

// Marks what column c leads to in a step.
fn take_up<L: Ledger>(
    pivots: &IndexedPairs,
    marks: &mut CountedMarks<L>,
    c: u32,
    steps: &mut Steps<L>,
)
    requires inside { c < pivots.now.rows.matrix.width }
    requires width { marks.old.width ≡ pivots.now.rows.matrix.width }
    ensures width { marks.new.width ≡ marks.old.width }
    ensures grows { Grows (LeadsTo pivots.now c) marks.old.list marks.new.list }
    ensures all { IsFollowed pivots.now c marks.new.list }
    ensures cost { steps.new ≤ steps.old + weight_at pivots.now.rows.matrix pivots.now.pairs c }
{
    if let Some(row) = pivots.find(c) {
        marks.add_all(pivots.rows().cols(row), steps);
    }
}

// Marks the pivotal columns of the row's support.
fn begin_at<L: Ledger>(
    pivots: &IndexedPairs,
    marks: &mut CountedMarks<L>,
    row: u32,
    steps: &mut Steps<L>,
)
    requires inside { row < pivots.now.rows.matrix.height }
    requires width { marks.old.width ≡ pivots.now.rows.matrix.width }
    requires none { marks.old.list ≡ [] }
    ensures width { marks.new.width ≡ marks.old.width }
    ensures reached { AreReached pivots.now.rows.matrix pivots.now.pairs row marks.new.list }
    ensures begun { PivotalAreMarked pivots.now.rows.matrix pivots.now.pairs row marks.new.list }
    ensures steps { steps.new ≡ steps.old + row_weight pivots.now.rows.matrix row }
{
    let cols = pivots.rows().cols(row);
    for k in 0..cols.len() {
        begin_one(pivots, marks, cols[k], steps);
    }
}

// Takes up the marked columns from place `taken` on, until nothing is left to take up or all of the row's support is marked.
// Answers how many columns of the support are marked in front of the first that isn't.
fn go_on<L: Ledger>(
    pivots: &IndexedPairs,
    marks: &mut CountedMarks<L>,
    row: u32,
    taken: usize,
    passed: usize,
    steps: &mut Steps<L>,
) -> usize
    requires inside { row < pivots.now.rows.matrix.height }
    requires fresh { ¬ HasRow pivots.now.pairs row }
    requires width { marks.old.width ≡ pivots.now.rows.matrix.width }
    requires way { IsUnderWay pivots.now.rows.matrix pivots.now.pairs row taken marks.old.list }
    requires passes { ArePassed pivots.now.rows.matrix row passed marks.old.list }
    requires within { passed ≤ row_weight pivots.now.rows.matrix row }
    ensures width { marks.new.width ≡ marks.old.width }
    ensures settled { HasWalked pivots.now.rows.matrix pivots.now.pairs row marks.new.list result }
    ensures cost { TakesForColumns pivots.now (take taken marks.old.list) marks.new.list steps.old steps.new }
{
    let cols = pivots.rows().cols(row);
    let mut passed = marks.pass_over(cols, passed);
    let mut taken = taken;
    while passed < cols.len() && taken < marks.len() {
        let c = marks.at(taken);
        take_up(pivots, marks, c, steps);
        taken += 1;
        passed = marks.pass_over(cols, passed);
    }
    passed
}

// Whether column j stands in these ascending columns.
fn is_in(cols: &[u32], j: u32) -> bool
    requires { AreAscending cols.now }
    ensures { IsTrue result ↔ Contains cols.now j }
{
    cols.binary_search(&j).is_ok()
}

// Appends a pair of another row, and marks what the row reaches by it at once. Answers how many of the marked columns are taken up.
fn meet<L: Ledger>(
    pivots: &mut IndexedPairs,
    marks: &mut CountedMarks<L>,
    row: u32,
    pair: Pair,
    steps: &mut Steps<L>,
) -> usize
    requires width { marks.old.width ≡ pivots.old.rows.matrix.width }
    requires row { row < pivots.old.rows.matrix.height }
    requires way { IsUnderWay pivots.old.rows.matrix pivots.old.pairs row
        (length marks.old.list) marks.old.list }
    requires pair { IsNewPair pivots.old pair }
    ensures rows { pivots.new.rows ≡ pivots.old.rows }
    ensures pairs { pivots.new.pairs ≡ pivots.old.pairs ++ pair ∷ [] }
    ensures width { marks.new.width ≡ marks.old.width }
    ensures kept { (j : ℕ) → Contains marks.old.list j → Contains marks.new.list j }
    ensures way { IsUnderWay pivots.old.rows.matrix (pivots.old.pairs ++ pair ∷ []) row
        result marks.new.list }
    ensures cost { steps.new + spent_for pivots.old marks.old.list
        ≤ steps.old + spent_for pivots.new (take result marks.new.list) }
{
    let rows = pivots.rows();
    pivots.push(pair);
    if marks.has(pair.col) {
        let taken = marks.len();
        marks.add_all(rows.cols(pair.row), steps);
        return taken;
    }
    if is_in(rows.cols(row), pair.col) {
        marks.mark(pair.col, steps);
        let taken = marks.len();
        marks.add_others(rows.cols(pair.row), pair.col, steps);
        return taken;
    }
    marks.len()
}

// Appends a pair of another row and carries the walk of the row on. Answers as `go_on`.
fn carry_on<L: Ledger>(
    pivots: &mut IndexedPairs,
    marks: &mut CountedMarks<L>,
    row: u32,
    pair: Pair,
    passed: usize,
    steps: &mut Steps<L>,
) -> usize
    requires width { marks.old.width ≡ pivots.old.rows.matrix.width }
    requires settled { HasWalked pivots.old.rows.matrix pivots.old.pairs row marks.old.list passed }
    requires pair { IsNewPair pivots.old pair }
    requires other { pair.row ≢ row }
    ensures rows { pivots.new.rows ≡ pivots.old.rows }
    ensures pairs { pivots.new.pairs ≡ pivots.old.pairs ++ pair ∷ [] }
    ensures width { marks.new.width ≡ marks.old.width }
    ensures settled { HasWalked pivots.new.rows.matrix pivots.new.pairs row marks.new.list result }
    ensures cost { TakesForRow pivots.old pair row steps.old steps.new }
{
    if passed == pivots.rows().cols(row).len() {
        pivots.push(pair);
        return passed;
    }
    let taken = meet(pivots, marks, row, pair, steps);
    let place = go_on(pivots, marks, row, taken, passed, steps);
    // No column is marked twice.
    marks.is_sound();
    place
}

/// A list of pivots, and the walk from a row: which columns are alive for the row in the list.
///
/// The walk marks what the row reaches by steps from a pivotal column to the columns of its pivot's row, and what is in the row's
/// support and never marked is alive. A pair that comes later carries the walk on: what was walked stays. The walk ends as soon as
/// no entry of the row is left alive.
///
/// Each mark is paid for by a step of the ledger `L`, so no walk goes by steps of another.
///
/// It takes 9 bytes a column and 8 bytes a pair that there can be, and nothing while it walks.
#[derive(Debug, Drop)]
pub struct Walk<'a, L: Ledger> {
    pivots: IndexedPairs<'a>,
    marks: CountedMarks<L>,
    passed: usize,
    current: Option<u32>,
}

impl<'a, L: Ledger> Model for Walk<'a, L> {
    ghost use Rattle.pivot_walks.specs.MarkedColumns.{HasWidthOf};
    ghost use Rattle.pivot_walks.specs.Reached.{IsWalk};
    ghost use Rattle.pivot_walks.specs.Walked.{Walked};

    ghost Value = { Walked };

    ghost view = { λ w. record { rows = w.pivots.rows; pairs = w.pivots.pairs; current = w.current } };

    ghost invariant = { λ w. HasWidthOf w.pivots w.marks × IsWalk w.pivots w.marks.list w.passed w.current };
}

impl<'a, L: Ledger> Walk<'a, L> {
    /// A walk over this matrix, with no pair and no open row.
    pub fn new(alloc: Global, rows: &'a Rows) -> Result<Self, AllocError>
        ensures { IfOk result (λ w. w ≡ record { rows = rows.now; pairs = []; current = None }) }
    {
        let rest = RestingWalk::new(alloc, rows)?;
        Ok(Walk::of(rest))
    }

    /// The walk, counted by the ledger from now on. It takes no memory.
    pub fn of(rest: RestingWalk<'a>) -> Walk<'a, L>
        ensures { result ≡ rest.entry }
    {
        let RestingWalk { pivots, marks } = rest;
        Walk {
            pivots,
            marks: CountedMarks::of(marks),
            passed: 0,
            current: None,
        }
    }

    /// Closes the open row, if there is one, and ends the ledger's count.
    pub fn rested(self) -> RestingWalk<'a>
        ensures { result ≡ record self.entry { current = None } }
    {
        RestingWalk {
            pivots: self.pivots,
            marks: self.marks.cleared(),
        }
    }

    /// Whether the row may have an alive column: it is in no pair, and has an entry in a column of none. If not, it is dead
    /// without a walk.
    pub fn has_candidate(&self, row: u32) -> bool
        requires { row < self.now.rows.matrix.height }
        ensures yes { IsTrue result → HasCandidate self.now.rows.matrix self.now.pairs row }
        ensures no { result ≡ false → Dead self.now.rows.matrix self.now.pairs row }
    {
        self.pivots.has_candidate(row)
    }

    /// Opens a row that is in no pair, and walks from it. It takes at most a step for each entry of the row and of the pivot rows
    /// that it reaches.
    pub fn begin(&mut self, row: u32, steps: &mut Steps<L>)
        requires closed { self.old.current ≡ None }
        requires inside { row < self.old.rows.matrix.height }
        requires fresh { ¬ HasRow self.old.pairs row }
        ensures walk { self.new ≡ record self.old { current = Some row } }
        ensures cost { TakesItsCost self.old.rows.matrix self.old.pairs row steps.old steps.new }
    {
        begin_at(&self.pivots, &mut self.marks, row, steps);
        self.passed = go_on(&self.pivots, &mut self.marks, row, 0, 0, steps);
        // No column is marked twice.
        self.marks.is_sound();
        self.current = Some(row);
    }

    /// Appends a pair, in a row and a column of its own, and carries the walk of the open row on: it takes at most as many steps
    /// as the entries that the row reaches besides. A pair of the open row closes it, without a step.
    pub fn extend(&mut self, pair: Pair, steps: &mut Steps<L>)
        requires inside { Nonzero self.old.rows.matrix pair.row pair.col }
        requires fresh_row { ¬ HasRow self.old.pairs pair.row }
        requires fresh_col { ¬ HasCol self.old.pairs pair.col }
        ensures walk { self.new ≡ extended self.old pair }
        ensures carried { TakesTheRise self.old self.new steps.old steps.new }
        ensures none { self.new.current ≡ None → steps.new ≡ steps.old }
    {
        match self.current {
            Some(row) => {
                if pair.row == row {
                    self.pivots.push(pair);
                    self.marks.clear();
                    self.current = None;
                } else {
                    self.passed = carry_on(
                        &mut self.pivots,
                        &mut self.marks,
                        row,
                        pair,
                        self.passed,
                        steps,
                    );
                }
            }
            None => self.pivots.push(pair),
        }
    }

    /// The least column that is alive for the open row; None where the row is dead. It takes constant time.
    pub fn least_alive(&self) -> Option<u32>
        requires { IsSome self.now.current }
        ensures { OfOpenRow self.now (λ r. IsLeastAlive self.now.rows.matrix self.now.pairs r result) }
    {
        let row = self.current?;
        let cols = self.pivots.rows().cols(row);
        if self.passed < cols.len() {
            Some(cols[self.passed])
        } else {
            None
        }
    }

    /// Whether the column is alive for the open row, in logarithmic time.
    pub fn is_alive(&self, col: u32) -> bool
        requires current { IsSome self.now.current }
        requires inside { col < self.now.rows.matrix.width }
        ensures { OfOpenRow self.now (λ r. IsTrue result ↔ Alive self.now.rows.matrix self.now.pairs r col) }
    {
        match self.current {
            Some(row) => is_in(self.pivots.rows().cols(row), col) && !self.marks.has(col),
            None => false,
        }
    }

    /// Closes the open row, if there is one; the pairs stay.
    pub fn end(&mut self)
        ensures { self.new ≡ record self.old { current = None } }
    {
        self.marks.clear();
        self.current = None;
    }
}
