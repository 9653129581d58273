// The factors of a matrix by dense elimination.
ghost use Rattle.std.specs.Prelude.{◌<◌, ◌≤◌, length, IfOk, OnOk};
ghost use Rattle.residue_words.specs.Matrix.{IsVector};
ghost use Rattle.residue_words.specs.Residues.{IsPrime};
ghost use Rattle.sparse_rows.specs.Rows.{AreBelow, AreRising, LARGEST_SIZE};
ghost use Rattle.dense_finish.specs.Block.{AreLastRowsOf, AreRowsOf, IsDense};
ghost use Rattle.dense_rows.specs.Rows.{AreVectors};
ghost use Rattle.dense_panels.specs.Pieces.{AreNewShares};
ghost use Rattle.dense_rows.specs.Dense.{IsFirstFree, IsPivotOf, KeepsCoefficients};
ghost use Rattle.dense_finish.specs.Factors.{IsFactored};
ghost use Rattle.dense_finish.specs.Pivots.{AddsPivot, AreEliminated, AreFound, CanGoOn, EliminatesBlock, FindsPanel, FindsPart, HasReached, IsPanelFrom, KeepsPivots, KeepsSplit, SplitBy, count, pivot_at, panel_stage, stage};

use crate::block::Block;
use crate::factors::{Factors, factors_of};
use crate::left_room::LeftRoom;
use crate::panel_step::PanelStep;
use crate::pivots::Pivots;
use crate::split_work::Helping;
use crew::Threaded;
use dense_panels::{Panel, PanelWithUnits, PieceTaker, Reducing, Share, Shares, zeros_before};
use dense_rows::{Dense, PANEL, Residue};
use residue_words::{LANE_BOUND, Modulus};
use sparse_rows::Rows;
use std::alloc::{AllocError, Global};
use std::thread::Threads;

// How many of a panel's rows are reduced by one another one by one, before their pivots are taken out of the others at once.
const PART: usize = 16;

/// What stays the same during an elimination: the columns of the matrix that the block's stand for and the matrix's width, the modulus,
/// and the number of workers.
#[derive(Clone, Copy)]
pub struct Elimination<'a> {
    pub(crate) alloc: Global,
    pub(crate) columns: &'a [u32],
    width: u32,
    pub(crate) p: Modulus,
    pub(crate) workers: usize,
    ghost some: { 1 ≤ workers },
    ghost few: { length columns.now ≤ LARGEST_SIZE },
    ghost inside: { AreBelow width columns.now },
    ghost rising: { AreRising columns.now },
    ghost narrow: { width ≤ LARGEST_SIZE },
}

/// The rows of a block from `start` on and before `end`.
#[derive(Clone, Copy)]
pub struct RowRange {
    pub(crate) start: usize,
    pub(crate) end: usize,
}

/// Factors of a matrix, by so many workers, at least one: the same for every number of them.
///
/// The rows and columns that have an entry make a dense block, of 4 bytes a place where the modulus is below 2^31 and of 8 elsewhere.
/// It is eliminated row by row, in panels: the pivots of some rows are taken out of all rows behind them at once, by the workers.
/// The time is that of a dense elimination of the block, less where its rank is small.
pub fn finish<R: Threads + Sync>(
    rt: &R,
    alloc: Global,
    rows: &Rows,
    workers: u32,
) -> Result<Factors, AllocError>
    requires some { 1 ≤ workers }
    ensures { IfOk result (IsFactored rows.now.modulus rows.now.matrix) }
{
    let crew = Threaded::of(rt);
    if rows.modulus().p() < LANE_BOUND {
        finish_in::<Threaded<R>, u32>(&crew, alloc, rows, workers as usize)
    } else {
        finish_in::<Threaded<R>, u64>(&crew, alloc, rows, workers as usize)
    }
}

// The same with the residues kept so.
fn finish_in<C: Helping<W>, W: Reducing>(
    crew: &C,
    alloc: Global,
    rows: &Rows,
    workers: usize,
) -> Result<Factors, AllocError>
    requires able { C.can_work }
    requires modulus { W.serves rows.now.modulus }
    requires some { 1 ≤ workers }
    ensures { IfOk result (IsFactored rows.now.modulus rows.now.matrix) }
{
    let mut block = Block::<W>::of(crew, alloc, rows, workers)?;
    let mut left = LeftRoom::of(alloc, &block)?;
    let pivots = block.eliminate(crew, alloc, workers, &mut left)?;
    factors_of(alloc, &block, pivots, left)
}

impl<W: Reducing> Block<W> {
    // Eliminates the block by so many workers: what is left are the coefficients of its rows at the pivots. Meanwhile the memory for the
    // left factor is written to.
    pub(crate) fn eliminate<C: Helping<W>>(
        &mut self,
        crew: &C,
        alloc: Global,
        workers: usize,
        left: &mut LeftRoom,
    ) -> Result<Pivots, AllocError>
        requires able { C.can_work }
        requires modulus { W.serves self.old.modulus }
        requires some { 1 ≤ workers }
        requires dense { IsDense self.old }
        ensures { IfOk result (EliminatesBlock self.old self.new) }
    {
        let elimination = Elimination {
            alloc,
            columns: &self.columns,
            width: self.width,
            p: self.p,
            workers,
        };
        elimination.eliminate(crew, &mut self.entries, left)
    }
}

impl<'a> Elimination<'a> {
    // Eliminates a block, panel by panel.
    fn eliminate<C: Helping<W>, W: Reducing>(
        &self,
        crew: &C,
        block: &mut [Dense<W>],
        left: &mut LeftRoom,
    ) -> Result<Pivots, AllocError>
        requires able { C.can_work }
        requires modulus { W.serves self.now.p }
        requires low { length block.old ≤ LARGEST_SIZE }
        requires residues { AreVectors self.now.p (length self.now.columns.now) block.old }
        ensures found { IfOk result
            (AreFound self.now.p self.now.columns.now self.now.width (length block.old)) }
        ensures eliminated { IfOk result (λ pivots.
            AreEliminated self.now.p (length self.now.columns.now) (length block.old) pivots block.new) }
        ensures split { IsPrime self.now.p → IfOk result (λ pivots.
            SplitBy self.now.p self.now.columns.now pivots block.old block.new) }
    {
        let mut pivots = Pivots::new(self.alloc, block.len(), self.columns, self.width, &self.p)?;
        let mut found = PanelWithUnits::none(self.alloc, self.columns.len());
        let mut done = 0;
        while done < block.len() {
            let end = self.panel_end(done, block.len());
            let step = PanelStep {
                elimination: &*self,
                found,
                rows: RowRange { start: done, end },
            };
            found = step.run(crew, &mut pivots, block, left)?;
            done = end;
        }
        Ok(pivots)
    }

    // Where a panel ends that begins at this row of so many. With several workers the first has few rows, since until its pivots are
    // found there is nothing for the others to do.
    fn panel_end(&self, start: usize, height: usize) -> usize
        requires some { start < height }
        requires low { height ≤ LARGEST_SIZE }
        ensures some { start < result }
        ensures inside { result ≤ height }
    {
        let most = if start == 0 && self.workers > 1 {
            PART
        } else {
            PANEL
        };
        height.min(start + most)
    }

    // A share for the worker that finds pivots, and one for each that helps, of the rows in the queue at which the taker stands.
    pub(crate) fn shares_of<'q, W: Residue>(
        &self,
        mut taker: PieceTaker<'q, W>,
    ) -> Result<Shares<'q, W>, AllocError>
        requires { 2 ≤ self.now.workers }
        ensures { IfOk result (AreNewShares taker.entry) }
    {
        // In a list too, as the borrow checker covers no closure that is lent a share itself.
        let own = Share::several(self.alloc, &mut taker, 1)?;
        let helpers = (self.workers - 1).min(taker.count());
        let others = Share::several(self.alloc, &mut taker, helpers)?;
        Ok(Shares { own, others })
    }

    // Takes a panel's pivots out of the last rows, and finds those of these rows.
    pub(crate) fn reduce_and_find<W: Reducing>(
        &self,
        found: &PanelWithUnits<W>,
        rows: RowRange,
        pivots: &mut Pivots,
        block: &mut [Dense<W>],
    ) -> Result<PanelWithUnits<W>, AllocError>
        requires modulus { W.serves self.now.p }
        requires rows { AreLastRowsOf block.old rows }
        requires ready { CanGoOn self.now.p self.now.columns.now
            (panel_stage pivots.old found.now block.old rows.start) }
        ensures { IfOk result (λ next. FindsPanel self.now.p self.now.columns.now
            (panel_stage pivots.old found.now block.old rows.start)
            (panel_stage pivots.new next block.new rows.end)) }
    {
        found.reduce_behind(block, rows.start, &self.p);
        let mut next = self.find_parts(rows, pivots, block)?;
        next.first = zeros_before(&next.units, self.columns.len());
        Ok(next)
    }

    // Finds the pivots of these rows, some rows at a time.
    fn find_parts<W: Reducing>(
        &self,
        rows: RowRange,
        pivots: &mut Pivots,
        block: &mut [Dense<W>],
    ) -> Result<PanelWithUnits<W>, AllocError>
        requires modulus { W.serves self.now.p }
        requires rows { AreRowsOf block.old rows }
        requires ready { HasReached self.now.p self.now.columns.now (stage pivots.old block.old rows.start) }
        ensures { IfOk result (λ found. FindsPart self.now.p self.now.columns.now
            (stage pivots.old block.old rows.start) (panel_stage pivots.new found block.new rows.end)) }
    {
        let mut found = PanelWithUnits::none(self.alloc, self.columns.len());
        let mut done = rows.start;
        while done < rows.end {
            let part = RowRange {
                start: done,
                end: rows.end.min(done + PART),
            };
            let more = self.find_part(part, pivots, block)?;
            found.join(more, &self.p)?;
            done = part.end;
        }
        Ok(found)
    }

    // Finds the pivots of these rows one by one, and takes them out of the rows behind.
    fn find_part<W: Reducing>(
        &self,
        rows: RowRange,
        pivots: &mut Pivots,
        block: &mut [Dense<W>],
    ) -> Result<PanelWithUnits<W>, AllocError>
        requires modulus { W.serves self.now.p }
        requires rows { AreRowsOf block.old rows }
        requires ready { HasReached self.now.p self.now.columns.now (stage pivots.old block.old rows.start) }
        ensures { IfOk result (λ found. FindsPart self.now.p self.now.columns.now
            (stage pivots.old block.old rows.start) (panel_stage pivots.new found block.new rows.end)) }
    {
        let panel = self.find_pivots(rows, pivots, block)?;
        let found = PanelWithUnits::of(self.alloc, panel, &self.p)?;
        found.reduce_behind(block, rows.end, &self.p);
        Ok(found)
    }

    // Finds the pivots of these rows, each reduced by those before it.
    fn find_pivots<W: Residue>(
        &self,
        rows: RowRange,
        pivots: &mut Pivots,
        block: &mut [Dense<W>],
    ) -> Result<Panel<W>, AllocError>
        requires modulus { W.serves self.now.p }
        requires rows { AreRowsOf block.old rows }
        requires ready { HasReached self.now.p self.now.columns.now (stage pivots.old block.old rows.start) }
        ensures found { IfOk result (λ _.
            AreFound self.now.p self.now.columns.now pivots.old.u.matrix.width rows.end pivots.new) }
        ensures eliminated { IfOk result (λ _.
            AreEliminated self.now.p (length self.now.columns.now) rows.end pivots.new block.new) }
        ensures panel { IfOk result
            (IsPanelFrom self.now.p self.now.columns.now (count pivots.old) pivots.new) }
        ensures kept { IfOk result (λ _. KeepsPivots self.now.columns.now pivots.old pivots.new) }
        ensures split { IsPrime self.now.p → IfOk result (λ _. KeepsSplit self.now.p self.now.columns.now
            (stage pivots.old block.old rows.start) (stage pivots.new block.new rows.end)) }
    {
        let mut panel = Panel::new(self.alloc, self.columns.len());
        for i in rows.start..rows.end {
            panel.reduce(&mut block[i], &self.p);
            if let Some(c) = block[i].first_free(&pivots.taken) {
                let pivot = self.take_pivot(&mut block[i], i as u32, c, pivots)?;
                panel.push(c as u32, pivot)?;
            }
        }
        Ok(panel)
    }

    // Makes what is left of row i, from its entry at column c on, the next pivot's row: the row itself keeps its coefficients
    // alone.
    fn take_pivot<W: Residue>(
        &self,
        row: &mut Dense<W>,
        i: u32,
        c: usize,
        pivots: &mut Pivots,
    ) -> Result<Dense<W>, AllocError>
        requires modulus { W.serves self.now.p }
        requires row { i < LARGEST_SIZE }
        requires residues { IsVector self.now.p (length self.now.columns.now) row.old }
        requires first { IsFirstFree row.old pivots.old.taken.items c }
        requires found { AreFound self.now.p self.now.columns.now pivots.old.u.matrix.width i pivots.old }
        requires inside { AreBelow pivots.old.u.matrix.width self.now.columns.now }
        ensures pivot { IfOk result (IsPivotOf self.now.p c pivots.old.taken.items row.old) }
        ensures added { IfOk result (λ pivot.
            AddsPivot self.now.columns.now (pivot_at i c pivot) pivots.old pivots.new) }
        ensures kept { OnOk result (KeepsCoefficients self.now.p c pivots.old.taken.items row.old row.new) }
    {
        let pivot = row.pivot_row(self.alloc, c, &pivots.taken, &self.p)?;
        row.keep_coefficients(c, &pivots.taken, &self.p);
        pivots.push(self, i, c, &pivot)?;
        Ok(pivot)
    }
}
