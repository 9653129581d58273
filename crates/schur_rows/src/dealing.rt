// Who makes what is left of rows that are dealt out in parts.
ghost use Rattle.std.specs.Prelude.{IfOk};
ghost use Rattle.schur_rows.specs.Parts.{AreDealtRows, IsPartTo};

use crate::dealt_rows::DealtRows;
use crate::round::SchurRows;
use crate::row_ranges::part_by_caller;
use crate::workers::left_by_stages;
use crew::{Alone, Crew, Threaded};
use std::alloc::{AllocError, Global};
use std::thread::Threads;

/// Who makes what is left of rows that are dealt out in parts: the threads of a runtime, or the caller alone, for however many
/// workers they were dealt.
pub trait Dealing: Crew {
    /// What is left of all rows of a deal.
    fn left_of(&self, alloc: Global, deal: DealtRows) -> Result<SchurRows, AllocError>
        requires able { Self.can_work }
        requires deal { AreDealtRows deal }
        ensures { IfOk result (IsPartTo deal.entry.pass.reducer.now deal.entry.pass.with_coefficients
            deal.entry.from deal.entry.to) };
}

impl Dealing for Alone {
    fn left_of(&self, alloc: Global, deal: DealtRows) -> Result<SchurRows, AllocError> {
        part_by_caller(alloc, deal.pass, deal.from, deal.to)
    }
}

impl<'a, R: Threads + Sync> Dealing for Threaded<'a, R> {
    fn left_of(&self, alloc: Global, deal: DealtRows) -> Result<SchurRows, AllocError> {
        left_by_stages(self.runtime, alloc, deal)
    }
}
