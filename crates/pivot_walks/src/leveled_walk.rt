// The least alive column by levels: a walk leaves out the columns whose level is above that of every candidate.
ghost use Rattle.std.specs.Prelude.{◌≡◌, ◌<◌, ◌≤◌, ◌++◌, ◌∷◌, ℕ, [], length, slice_index, IsTrue, IfNone, IfOk, IfSome, false};
ghost use Rattle.std.specs.List.{Contains};
ghost use Rattle.pivot_table.specs.History.{Alive, Dead, Grown, HasCol, HasRow, LeastAlive, row_weight};
ghost use Rattle.pivot_walks.specs.Budget.{StaysUnbounded};
ghost use Rattle.pivot_walks.specs.Indexed.{IsAliveAt, LeadsTo};
ghost use Rattle.pivot_walks.specs.Levels.{AreLevels, AreLimitsOf, BeginsLow, FreeAreLow, IsLow, IsOut, LowPivotalAreMarked, LowAreTaken, limits};
ghost use Rattle.sparse_rows.specs.Rows.{AreBelow};
ghost use Rattle.pivot_walks.specs.MarkedColumns.{AllBetween, Grows};
ghost use Rattle.pivot_walks.specs.Reached.{AreReached};

use crate::budget::Budget;
use crate::indexed_pairs::IndexedPairs;
use crate::levels::Levels;
use crate::marked_columns::MarkedColumns;
use crate::raising::raise_all;
use residue_words::plain::Pair;
use sparse_rows::Rows;
use std::alloc::{AllocError, Global};
use std::marker::Model;

// The place of the first of these columns that no step leads to and that is in no pair.
fn sure_place(pivots: &IndexedPairs, levels: &Levels, cols: &[u32]) -> usize
    requires cols { AreBelow pivots.now.rows.matrix.width cols.now }
    requires long { length levels.now ≡ pivots.now.rows.matrix.width }
    ensures high { result ≤ length cols.now }
    ensures free { result < length cols.now → ¬ HasCol pivots.now.pairs (slice_index cols.now result) }
    ensures lowest { result < length cols.now → slice_index levels.now (slice_index cols.now result) ≡ 0 }
{
    for k in 0..cols.len() {
        if levels.at(cols[k]) == 0 && pivots.is_free(cols[k]) {
            return k;
        }
    }
    cols.len()
}

// The level of a column that is in no pair; 0 at the others.
fn level_of(pivots: &IndexedPairs, levels: &Levels, c: u32) -> u32
    requires inside { c < pivots.now.rows.matrix.width }
    requires long { length levels.now ≡ pivots.now.rows.matrix.width }
    ensures { (¬ HasCol pivots.now.pairs c) → slice_index levels.now c ≤ result }
{
    if pivots.is_free(c) { levels.at(c) } else { 0 }
}

// The highest level among those of the first columns that are in no pair.
fn highest(pivots: &IndexedPairs, levels: &Levels, cols: &[u32], end: usize) -> u32
    requires cols { AreBelow pivots.now.rows.matrix.width cols.now }
    requires long { length levels.now ≡ pivots.now.rows.matrix.width }
    requires end { end ≤ length cols.now }
    ensures { FreeAreLow pivots.now.pairs (IsLow levels.now result) cols.now end }
{
    let mut most = 0;
    for k in 0..end {
        most = level_of(pivots, levels, cols[k]).max(most);
    }
    most
}

// Marks column j, if it isn't yet and its level is at most the bound.
fn add_low(levels: &Levels, marks: &mut MarkedColumns, j: u32, bound: u32)
    requires inside { j < marks.old.width }
    requires long { length levels.now ≡ marks.old.width }
    ensures width { marks.new.width ≡ marks.old.width }
    ensures grows { Grows (λ i. i ≡ j) marks.old.list marks.new.list }
    ensures has { IsLow levels.now bound j → Contains marks.new.list j }
{
    if levels.at(j) <= bound {
        marks.add(j);
    }
}

// Marks those of these columns whose level is at most the bound.
fn add_all_low(levels: &Levels, marks: &mut MarkedColumns, cols: &[u32], bound: u32)
    requires inside { AreBelow marks.old.width cols.now }
    requires long { length levels.now ≡ marks.old.width }
    ensures width { marks.new.width ≡ marks.old.width }
    ensures grows { Grows (Contains cols.now) marks.old.list marks.new.list }
    ensures all { (j : ℕ) → Contains cols.now j → IsLow levels.now bound j → Contains marks.new.list j }
{
    for k in 0..cols.len() {
        add_low(levels, marks, cols[k], bound);
    }
}

// Marks column j where it is pivotal and its level is at most the bound.
fn begin_one(pivots: &IndexedPairs, levels: &Levels, marks: &mut MarkedColumns, j: u32, bound: u32)
    requires inside { j < pivots.now.rows.matrix.width }
    requires width { marks.old.width ≡ pivots.now.rows.matrix.width }
    requires long { length levels.now ≡ pivots.now.rows.matrix.width }
    ensures width { marks.new.width ≡ marks.old.width }
    ensures grows { Grows (λ i. (i ≡ j) × HasCol pivots.now.pairs j) marks.old.list marks.new.list }
    ensures has { HasCol pivots.now.pairs j → IsLow levels.now bound j → Contains marks.new.list j }
{
    if let Some(_row) = pivots.find(j) {
        add_low(levels, marks, j, bound);
    }
}

// Marks the pivotal columns of the row's support whose level is at most the bound.
fn begin_at(pivots: &IndexedPairs, levels: &Levels, marks: &mut MarkedColumns, row: u32, bound: u32)
    requires inside { row < pivots.now.rows.matrix.height }
    requires width { marks.old.width ≡ pivots.now.rows.matrix.width }
    requires long { length levels.now ≡ pivots.now.rows.matrix.width }
    requires none { marks.old.list ≡ [] }
    ensures width { marks.new.width ≡ marks.old.width }
    ensures reached { AreReached pivots.now.rows.matrix pivots.now.pairs row marks.new.list }
    ensures begun { LowPivotalAreMarked pivots.now row (IsLow levels.now bound) marks.new.list }
{
    let cols = pivots.rows().cols(row);
    for k in 0..cols.len() {
        begin_one(pivots, levels, marks, cols[k], bound);
    }
}

// Marks what column c leads to in a step, up to the bound's level.
fn take_up(
    pivots: &IndexedPairs,
    levels: &Levels,
    marks: &mut MarkedColumns,
    c: u32,
    bound: u32,
    budget: &mut Budget,
)
    requires inside { c < pivots.now.rows.matrix.width }
    requires width { marks.old.width ≡ pivots.now.rows.matrix.width }
    requires long { length levels.now ≡ pivots.now.rows.matrix.width }
    ensures width { marks.new.width ≡ marks.old.width }
    ensures grows { Grows (LeadsTo pivots.now c) marks.old.list marks.new.list }
    ensures all { LowAreTaken pivots.now c (IsLow levels.now bound) marks.new.list }
    ensures unbounded { StaysUnbounded budget.old budget.new }
{
    if let Some(row) = pivots.find(c) {
        let cols = pivots.rows().cols(row);
        budget.spend(cols.len());
        add_all_low(levels, marks, cols, bound);
    }
}

// Whether column c is neither marked nor in a pair.
fn is_left(pivots: &IndexedPairs, marks: &MarkedColumns, c: u32) -> bool
    requires inside { c < pivots.now.rows.matrix.width }
    requires width { marks.now.width ≡ pivots.now.rows.matrix.width }
    ensures unmarked { IsTrue result → ¬ Contains marks.now.list c }
    ensures free { IsTrue result → ¬ HasCol pivots.now.pairs c }
    ensures no { result ≡ false → IsOut pivots.now.pairs marks.now.list c }
{
    if marks.has(c) {
        return false;
    }
    pivots.is_free(c)
}

// The place of the first of these columns, from `from` on and before `end`, that is neither marked nor in a pair; else `end`.
fn pass_over(
    pivots: &IndexedPairs,
    marks: &MarkedColumns,
    cols: &[u32],
    from: usize,
    end: usize,
) -> usize
    requires cols { AreBelow pivots.now.rows.matrix.width cols.now }
    requires width { marks.now.width ≡ pivots.now.rows.matrix.width }
    requires from { from ≤ end }
    requires end { end ≤ length cols.now }
    ensures low { from ≤ result }
    ensures high { result ≤ end }
    ensures passed { AllBetween (IsOut pivots.now.pairs marks.now.list) cols.now from result }
    ensures unmarked { result < end → ¬ Contains marks.now.list (slice_index cols.now result) }
    ensures free { result < end → ¬ HasCol pivots.now.pairs (slice_index cols.now result) }
{
    let mut at = from;
    while at < end {
        if is_left(pivots, marks, cols[at]) {
            return at;
        }
        at += 1;
    }
    at
}

// Where a walk stops: above this level, and at this place of the row's support if no candidate stands before it.
#[derive(Clone, Copy)]
struct Stop {
    level: u32,
    place: usize,
}

// Takes up the marked columns until nothing is left to take up, no candidate before the walk's stop is left, or the steps are spent.
// Answers the place of the first candidate, or that of the stop.
fn go_on(
    pivots: &IndexedPairs,
    levels: &Levels,
    marks: &mut MarkedColumns,
    row: u32,
    stop: Stop,
    budget: &mut Budget,
) -> usize
    requires inside { row < pivots.now.rows.matrix.height }
    requires fresh { ¬ HasRow pivots.now.pairs row }
    requires width { marks.old.width ≡ pivots.now.rows.matrix.width }
    requires stop { AreLimitsOf pivots.now row (limits levels.now stop.level stop.place) }
    requires begins { BeginsLow pivots.now row (IsLow levels.now stop.level) marks.old.list }
    ensures width { marks.new.width ≡ marks.old.width }
    ensures before { (k : ℕ) → k < result → ¬ IsAliveAt pivots.now row k }
    ensures there { 0 < budget.new → result < stop.place → IsAliveAt pivots.now row result }
    ensures within { result ≤ stop.place }
    ensures unbounded { StaysUnbounded budget.old budget.new }
{
    let cols = pivots.rows().cols(row);
    let mut passed = pass_over(pivots, marks, cols, 0, stop.place);
    let mut taken = 0;
    while passed < stop.place && taken < marks.len() {
        if budget.is_spent() {
            return passed;
        }
        let c = marks.at(taken);
        take_up(pivots, levels, marks, c, stop.level, budget);
        taken += 1;
        passed = pass_over(pivots, marks, cols, passed, stop.place);
    }
    passed
}

// The place in the row's support of its first alive column, or the support's length, unless the steps are spent.
fn first_alive(
    pivots: &IndexedPairs,
    levels: &Levels,
    marks: &mut MarkedColumns,
    row: u32,
    budget: &mut Budget,
) -> usize
    requires inside { row < pivots.now.rows.matrix.height }
    requires fresh { ¬ HasRow pivots.now.pairs row }
    requires width { marks.old.width ≡ pivots.now.rows.matrix.width }
    requires levels { AreLevels pivots.now.rows.matrix pivots.now.pairs levels.now }
    requires none { marks.old.list ≡ [] }
    ensures width { marks.new.width ≡ marks.old.width }
    ensures before { (k : ℕ) → k < result → ¬ IsAliveAt pivots.now row k }
    ensures there { 0 < budget.new → result < row_weight pivots.now.rows.matrix row →
        IsAliveAt pivots.now row result }
    ensures within { result ≤ row_weight pivots.now.rows.matrix row }
    ensures unbounded { StaysUnbounded budget.old budget.new }
{
    let cols = pivots.rows().cols(row);
    let place = sure_place(pivots, levels, cols);
    let level = highest(pivots, levels, cols, place);
    begin_at(pivots, levels, marks, row, level);
    go_on(pivots, levels, marks, row, Stop { level, place }, budget)
}

/// Pairs of a matrix, with the level of each column: the longest path of steps that leads to it. A column that no step leads to is
/// alive without a walk, and a path to a column goes over lower levels only. Each entry of a pivot row that is looked at is a step.
/// Contracts see the matrix, the pairs, and how many more steps may be taken; once they are spent, nothing is known of the rows.
///
/// It takes 13 bytes a column and 8 bytes a pair that there can be.
#[derive(Drop)]
pub struct LeveledWalk<'a> {
    pivots: IndexedPairs<'a>,
    marks: MarkedColumns,
    levels: Levels,
    budget: Budget,
}

impl<'a> Model for LeveledWalk<'a> {
    ghost use Rattle.pivot_walks.specs.Levels.{IsAtRest, Leveled};

    ghost Value = { Leveled };

    ghost view = { λ l. record { rows = l.pivots.rows; pairs = l.pivots.pairs; left = l.budget } };

    ghost invariant = { λ l. IsAtRest l.pivots l.marks l.levels l.budget };
}

impl<'a> LeveledWalk<'a> {
    /// No pair, and a budget of this many steps; the largest number stands for any. It takes all memory that it wants.
    pub fn new(alloc: Global, rows: &'a Rows, most: u64) -> Result<Self, AllocError>
        ensures rows { IfOk result (λ l. l.rows ≡ rows.now) }
        ensures pairs { IfOk result (λ l. l.pairs ≡ []) }
        ensures unbounded { IfOk result (λ l. StaysUnbounded most l.left) }
    {
        Ok(LeveledWalk {
            pivots: IndexedPairs::new(alloc, rows)?,
            marks: MarkedColumns::new(alloc, rows.width())?,
            levels: Levels::new(alloc, rows.width())?,
            budget: Budget::of(most),
        })
    }

    /// Whether more steps were taken than the budget has.
    pub fn is_spent(&self) -> bool
        ensures yes { IsTrue result → self.now.left ≡ 0 }
        ensures no { result ≡ false → 0 < self.now.left }
    {
        self.budget.is_spent()
    }

    /// The least alive column of a row; None where it is dead, or the steps are spent.
    pub fn least_alive(&mut self, row: u32) -> Option<u32>
        requires inside { row < self.old.rows.matrix.height }
        requires left { 0 < self.old.left }
        ensures rows { self.new.rows ≡ self.old.rows }
        ensures pairs { self.new.pairs ≡ self.old.pairs }
        ensures some { IfSome result (LeastAlive self.old.rows.matrix self.old.pairs row) }
        ensures none { IfNone result (0 < self.new.left → Dead self.old.rows.matrix self.old.pairs row) }
        ensures unbounded { StaysUnbounded self.old.left self.new.left }
    {
        if !self.pivots.has_candidate(row) {
            return None;
        }
        let cols = self.pivots.rows().cols(row);
        let at = first_alive(
            &self.pivots,
            &self.levels,
            &mut self.marks,
            row,
            &mut self.budget,
        );
        self.marks.clear();
        if self.budget.is_spent() {
            return None;
        }
        if at >= cols.len() {
            return None;
        }
        Some(cols[at])
    }

    /// Appends a pair that is alive to a list that is grown, and raises the levels that it puts too low.
    pub fn push(&mut self, pair: Pair)
        requires grown { Grown self.old.rows.matrix self.old.pairs }
        requires alive { Alive self.old.rows.matrix self.old.pairs pair.row pair.col }
        ensures rows { self.new.rows ≡ self.old.rows }
        ensures pairs { self.new.pairs ≡ self.old.pairs ++ pair ∷ [] }
        ensures unbounded { StaysUnbounded self.old.left self.new.left }
    {
        self.pivots.push(pair);
        if self.budget.is_spent() {
            return;
        }
        self.marks.mark(pair.col);
        raise_all(
            &self.pivots,
            &mut self.levels,
            &mut self.marks,
            &mut self.budget,
        );
    }
}
