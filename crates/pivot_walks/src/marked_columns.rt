// Marked columns.
ghost use Rattle.std.specs.Prelude.{◌≡◌, ◌<◌, ◌≤◌, ◌+◌, ◌++◌, ◌∷◌, [], length, slice_index, IsTrue, ◌↔◌, IfOk, MatchOption};
ghost use Rattle.std.specs.List.{Contains};
ghost use Rattle.sparse_rows.specs.Rows.{AreBelow, AreDistinct};
ghost use Rattle.pivot_walks.specs.MarkedColumns.{AllBetween, AreNone, Grows, LosesLast};

use std::alloc::{AllocError, Global};
use std::marker::Model;

// Columns that are marked, in the order in which they were. Contracts see the number of columns and the list of the marked ones.
// It takes 5 bytes a column.
#[derive(Debug, Drop)]
pub(crate) struct MarkedColumns {
    flags: Vec<bool>,
    list: Vec<u32>,
}

impl Model for MarkedColumns {
    ghost use Rattle.std.specs.Prelude.{length, vec_capacity};
    ghost use Rattle.pivot_walks.specs.MarkedColumns.{Marked, AreFlagsOf};

    ghost Value = { Marked };

    ghost view = { λ m. record { width = length m.flags.items; list = m.list.items } };

    ghost invariant = { λ m. AreFlagsOf m.flags.items m.list.items (vec_capacity m.list) };
}

impl MarkedColumns {
    // No column of n is marked.
    pub(crate) fn new(alloc: Global, n: u32) -> Result<MarkedColumns, AllocError>
        ensures width { IfOk result (λ m. m.width ≡ n) }
        ensures list { IfOk result (λ m. m.list ≡ []) }
    {
        Ok(MarkedColumns {
            flags: vec![in alloc; false; n as usize]?,
            list: Vec::with_capacity(alloc, n as usize)?,
        })
    }

    // Whether column j is marked.
    pub(crate) fn has(&self, j: u32) -> bool
        requires { j < self.now.width }
        ensures { IsTrue result ↔ Contains self.now.list j }
    {
        self.flags[j as usize]
    }

    // How many columns are marked.
    pub(crate) fn len(&self) -> usize
        ensures value { result ≡ length self.now.list }
        ensures bound { result ≤ self.now.width }
    {
        self.list.len()
    }

    // The law of its marks, for proofs: it does nothing.
    #[inline(always)]
    pub(crate) fn is_sound(&self)
        ensures { AreDistinct self.now.list }
    {
        self.list.len();
    }

    // The k-th marked column.
    pub(crate) fn at(&self, k: usize) -> u32
        requires { k < length self.now.list }
        ensures value { result ≡ slice_index self.now.list k }
        ensures inside { result < self.now.width }
    {
        self.list[k]
    }

    // Marks column j, which isn't marked.
    pub(crate) fn mark(&mut self, j: u32)
        requires column { j < self.old.width }
        requires fresh { ¬ Contains self.old.list j }
        ensures width { self.new.width ≡ self.old.width }
        ensures list { self.new.list ≡ self.old.list ++ j ∷ [] }
    {
        self.flags[j as usize] = true;
        self.list.push_reserved(j);
    }

    // Marks column j, if it isn't yet.
    pub(crate) fn add(&mut self, j: u32)
        requires { j < self.old.width }
        ensures width { self.new.width ≡ self.old.width }
        ensures grows { Grows (λ i. i ≡ j) self.old.list self.new.list }
        ensures has { Contains self.new.list j }
        ensures few { length self.new.list ≤ length self.old.list + 1 }
    {
        if !self.has(j) {
            self.mark(j);
        }
    }

    // The place of the first of these columns, from place `from` on, that isn't marked, or their number.
    pub(crate) fn pass_over(&self, cols: &[u32], from: usize) -> usize
        requires cols { AreBelow self.now.width cols.now }
        requires from { from ≤ length cols.now }
        ensures low { from ≤ result }
        ensures high { result ≤ length cols.now }
        ensures passed { AllBetween (Contains self.now.list) cols.now from result }
        ensures next { result < length cols.now → ¬ Contains self.now.list (slice_index cols.now result) }
    {
        let mut at = from;
        while at < cols.len() {
            if !self.has(cols[at]) {
                return at;
            }
            at += 1;
        }
        at
    }

    // Takes the mark off the column that was marked last.
    pub(crate) fn pop(&mut self) -> Option<u32>
        ensures width { self.new.width ≡ self.old.width }
        ensures last { MatchOption result (AreNone self.old self.new) (LosesLast self.old self.new) }
    {
        let j = self.list.pop()?;
        self.flags[j as usize] = false;
        Some(j)
    }

    // Marks no column, in time proportional to those that were marked.
    pub(crate) fn clear(&mut self)
        ensures width { self.new.width ≡ self.old.width }
        ensures list { self.new.list ≡ [] }
    {
        while let Some(_column) = self.pop() {}
    }
}
