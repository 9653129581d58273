// Marked columns that are paid for by steps.
ghost use Rattle.std.specs.Prelude.{◌≡◌, ◌<◌, ◌≤◌, ◌+◌, ◌++◌, ◌∷◌, [], length, slice_index, ℕ, IsTrue, ◌↔◌};
ghost use Rattle.std.specs.List.{Contains};
ghost use Rattle.sparse_rows.specs.Rows.{AreBelow, AreDistinct};
ghost use Rattle.pivot_walks.specs.MarkedColumns.{AllBetween, Grows};

use crate::marked_columns::MarkedColumns;
use crate::steps::Steps;
use std::marker::{Model, PhantomData};
use std::sync::ledger::Ledger;

// Columns that are marked, in the order in which they were: each mark takes a step of the one ledger L. Marks go to another ledger
// only when there are none. Contracts see what they see of marked columns.
#[derive(Debug, Drop)]
pub(crate) struct CountedMarks<L: Ledger> {
    marks: MarkedColumns,
    ledger: PhantomData<L>,
}

impl<L: Ledger> Model for CountedMarks<L> {
    ghost use Rattle.pivot_walks.specs.MarkedColumns.{Marked};

    ghost Value = { Marked };

    ghost view = { λ m. m.marks };
}

impl<L: Ledger> CountedMarks<L> {
    // No column is marked yet.
    pub(crate) fn of(marks: MarkedColumns) -> CountedMarks<L>
        requires { marks.list ≡ [] }
        ensures { result ≡ marks }
    {
        CountedMarks {
            marks,
            ledger: PhantomData,
        }
    }

    // Marks no column, for another ledger.
    pub(crate) fn cleared(self) -> MarkedColumns
        ensures width { result.width ≡ self.width }
        ensures list { result.list ≡ [] }
    {
        let mut marks = self.marks;
        marks.clear();
        marks
    }

    // Whether column j is marked.
    pub(crate) fn has(&self, j: u32) -> bool
        requires { j < self.now.width }
        ensures { IsTrue result ↔ Contains self.now.list j }
    {
        self.marks.has(j)
    }

    // How many columns are marked.
    pub(crate) fn len(&self) -> usize
        ensures value { result ≡ length self.now.list }
        ensures bound { result ≤ self.now.width }
    {
        self.marks.len()
    }

    // The law of its marks, for proofs: it does nothing.
    #[inline(always)]
    pub(crate) fn is_sound(&self)
        ensures { AreDistinct self.now.list }
    {
        self.marks.is_sound();
    }

    // The k-th marked column.
    pub(crate) fn at(&self, k: usize) -> u32
        requires { k < length self.now.list }
        ensures value { result ≡ slice_index self.now.list k }
        ensures inside { result < self.now.width }
    {
        self.marks.at(k)
    }

    // The place of the first of these columns, from place `from` on, that isn't marked, or their number.
    pub(crate) fn pass_over(&self, cols: &[u32], from: usize) -> usize
        requires cols { AreBelow self.now.width cols.now }
        requires from { from ≤ length cols.now }
        ensures low { from ≤ result }
        ensures high { result ≤ length cols.now }
        ensures passed { AllBetween (Contains self.now.list) cols.now from result }
        ensures next { result < length cols.now → ¬ Contains self.now.list (slice_index cols.now result) }
    {
        self.marks.pass_over(cols, from)
    }

    // Marks column j, which isn't marked, for a step.
    pub(crate) fn mark(&mut self, j: u32, steps: &mut Steps<L>)
        requires column { j < self.old.width }
        requires fresh { ¬ Contains self.old.list j }
        ensures width { self.new.width ≡ self.old.width }
        ensures list { self.new.list ≡ self.old.list ++ j ∷ [] }
        ensures steps { steps.new ≡ steps.old + 1 }
    {
        steps.tick();
        self.marks.mark(j);
    }

    // Marks column j, if it isn't yet, for a step in any case.
    pub(crate) fn add(&mut self, j: u32, steps: &mut Steps<L>)
        requires { j < self.old.width }
        ensures width { self.new.width ≡ self.old.width }
        ensures grows { Grows (λ i. i ≡ j) self.old.list self.new.list }
        ensures has { Contains self.new.list j }
        ensures steps { steps.new ≡ steps.old + 1 }
    {
        steps.tick();
        self.marks.add(j);
    }

    // Takes up each of these columns: marks it, if it isn't yet.
    pub(crate) fn add_all(&mut self, cols: &[u32], steps: &mut Steps<L>)
        requires { AreBelow self.old.width cols.now }
        ensures width { self.new.width ≡ self.old.width }
        ensures grows { Grows (Contains cols.now) self.old.list self.new.list }
        ensures all { (j : ℕ) → Contains cols.now j → Contains self.new.list j }
        ensures steps { steps.new ≡ steps.old + length cols.now }
    {
        for k in 0..cols.len() {
            self.add(cols[k], steps);
        }
    }

    // Takes up column j, unless it is c, which is marked.
    fn add_other(&mut self, j: u32, c: u32, steps: &mut Steps<L>)
        requires inside { j < self.old.width }
        requires marked { Contains self.old.list c }
        ensures width { self.new.width ≡ self.old.width }
        ensures grows { Grows (λ i. i ≡ j) self.old.list self.new.list }
        ensures has { Contains self.new.list j }
        ensures steps { steps.new ≤ steps.old + 1 }
        ensures free { j ≡ c → steps.new ≡ steps.old }
    {
        if j != c {
            self.add(j, steps);
        }
    }

    // Takes up each of these columns but c, which is marked.
    pub(crate) fn add_others(&mut self, cols: &[u32], c: u32, steps: &mut Steps<L>)
        requires inside { AreBelow self.old.width cols.now }
        requires marked { Contains self.old.list c }
        ensures width { self.new.width ≡ self.old.width }
        ensures grows { Grows (Contains cols.now) self.old.list self.new.list }
        ensures all { (j : ℕ) → Contains cols.now j → Contains self.new.list j }
        ensures steps { Contains cols.now c → steps.new + 1 ≤ steps.old + length cols.now }
    {
        for k in 0..cols.len() {
            self.add_other(cols[k], c, steps);
        }
    }

    // Marks no column, in time proportional to those that were marked.
    pub(crate) fn clear(&mut self)
        ensures width { self.new.width ≡ self.old.width }
        ensures list { self.new.list ≡ [] }
    {
        self.marks.clear();
    }
}
