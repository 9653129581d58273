// The work that an elimination splits, by threads or by the caller alone.
ghost use Rattle.std.specs.Prelude.{◌<◌, ◌≤◌, length, IfOk};
ghost use Rattle.dense_finish.specs.Block.{AreLastRowsOf, IsBlock};
ghost use Rattle.dense_rows.specs.Rows.{AreVectors};
ghost use Rattle.dense_panels.specs.Panel.{PanelReducesEach};
ghost use Rattle.dense_finish.specs.Pivots.{CanGoOn, FindsPanel, panel_stage};
ghost use Rattle.sparse_rows.specs.Rows.{AreBelow, AreOccupied};

use crate::block::{block_of, shared_block};
use crate::left_room::LeftRoom;
use crate::panel_step::PanelStep;
use crate::pivots::Pivots;
use crew::{Alone, Crew, Threaded};
use dense_panels::{PanelWithUnits, Reducing};
use dense_rows::Dense;
use sparse_rows::Rows;
use std::alloc::{AllocError, Global};
use std::thread::Threads;

/// A crew that eliminates densely, whichever way residues are kept. This crate implements it for both crews that there are.
pub trait Finishing: Crew + Helping<u32> + Helping<u64> {}

impl Finishing for Alone {}

impl<'a, R: Threads + Sync> Finishing for Threaded<'a, R> {}

/// A crew that helps to eliminate rows of these residues. It is implemented for 32 and for 64 bits one by one, over generic functions: a
/// bound of an `impl` of a trait is assumed of one thread alone.
pub trait Helping<W: Reducing>: Crew {
    /// The entries of these rows at the columns that have one, made by so many workers.
    fn make_block(
        &self,
        alloc: Global,
        rows: &Rows,
        filled_rows: &[u32],
        columns: &[u32],
        workers: usize,
    ) -> Result<Vec<Dense<W>>, AllocError>
        requires able { Self.can_work }
        requires modulus { W.serves rows.now.modulus }
        requires rows { AreBelow rows.now.matrix.height filled_rows.now }
        requires columns { AreOccupied rows.now.matrix columns.now }
        ensures { IfOk result (λ block.
            IsBlock rows.now.modulus rows.now.matrix filled_rows.now columns.now block.items) };

    /// Takes the panel's pivots out of its own rows from the first on, and finds those of these rows, while the panel's are taken out of
    /// the other rows.
    fn find_beside(
        &self,
        step: &PanelStep<W>,
        pivots: &mut Pivots,
        own: &mut [Dense<W>],
        others: &mut [Dense<W>],
        left: &mut LeftRoom,
    ) -> Result<PanelWithUnits<W>, AllocError>
        requires able { Self.can_work }
        requires modulus { W.serves step.now.elimination.now.p }
        requires several { 2 ≤ step.now.elimination.now.workers }
        requires some { 0 < length others.old }
        requires rows { AreLastRowsOf own.old step.now.rows }
        requires ready { CanGoOn step.now.elimination.now.p step.now.elimination.now.columns.now
            (panel_stage pivots.old step.now.found own.old step.now.rows.start) }
        requires others { AreVectors step.now.elimination.now.p step.now.found.panel.width others.old }
        ensures own { IfOk result (λ next. FindsPanel step.now.elimination.now.p
            step.now.elimination.now.columns.now
            (panel_stage pivots.old step.now.found own.old step.now.rows.start)
            (panel_stage pivots.new next own.new step.now.rows.end)) }
        ensures others { IfOk result (λ _.
            PanelReducesEach step.now.elimination.now.p step.now.found.panel others.old others.new) };
}

impl Helping<u32> for Alone {
    fn make_block(
        &self,
        alloc: Global,
        rows: &Rows,
        filled_rows: &[u32],
        columns: &[u32],
        _workers: usize,
    ) -> Result<Vec<Dense<u32>>, AllocError> {
        block_of(alloc, rows, filled_rows, columns)
    }

    fn find_beside(
        &self,
        step: &PanelStep<u32>,
        pivots: &mut Pivots,
        own: &mut [Dense<u32>],
        others: &mut [Dense<u32>],
        _left: &mut LeftRoom,
    ) -> Result<PanelWithUnits<u32>, AllocError> {
        step.find_alone(pivots, own, others)
    }
}

impl Helping<u64> for Alone {
    fn make_block(
        &self,
        alloc: Global,
        rows: &Rows,
        filled_rows: &[u32],
        columns: &[u32],
        _workers: usize,
    ) -> Result<Vec<Dense<u64>>, AllocError> {
        block_of(alloc, rows, filled_rows, columns)
    }

    fn find_beside(
        &self,
        step: &PanelStep<u64>,
        pivots: &mut Pivots,
        own: &mut [Dense<u64>],
        others: &mut [Dense<u64>],
        _left: &mut LeftRoom,
    ) -> Result<PanelWithUnits<u64>, AllocError> {
        step.find_alone(pivots, own, others)
    }
}

impl<'a, R: Threads + Sync> Helping<u32> for Threaded<'a, R> {
    fn make_block(
        &self,
        alloc: Global,
        rows: &Rows,
        filled_rows: &[u32],
        columns: &[u32],
        workers: usize,
    ) -> Result<Vec<Dense<u32>>, AllocError> {
        shared_block(self.runtime, alloc, rows, filled_rows, columns, workers)
    }

    fn find_beside(
        &self,
        step: &PanelStep<u32>,
        pivots: &mut Pivots,
        own: &mut [Dense<u32>],
        others: &mut [Dense<u32>],
        left: &mut LeftRoom,
    ) -> Result<PanelWithUnits<u32>, AllocError> {
        step.find_beside(self.runtime, pivots, own, others, left)
    }
}

impl<'a, R: Threads + Sync> Helping<u64> for Threaded<'a, R> {
    fn make_block(
        &self,
        alloc: Global,
        rows: &Rows,
        filled_rows: &[u32],
        columns: &[u32],
        workers: usize,
    ) -> Result<Vec<Dense<u64>>, AllocError> {
        shared_block(self.runtime, alloc, rows, filled_rows, columns, workers)
    }

    fn find_beside(
        &self,
        step: &PanelStep<u64>,
        pivots: &mut Pivots,
        own: &mut [Dense<u64>],
        others: &mut [Dense<u64>],
        left: &mut LeftRoom,
    ) -> Result<PanelWithUnits<u64>, AllocError> {
        step.find_beside(self.runtime, pivots, own, others, left)
    }
}
