// One step of an elimination by panels.
ghost use Rattle.std.specs.Prelude.{◌<◌, ◌≤◌, All, length, IfOk};
ghost use Rattle.dense_finish.specs.Block.{AreLastRowsOf, AreRowsOf};
ghost use Rattle.dense_rows.specs.Rows.{AreVectors};
ghost use Rattle.dense_panels.specs.Panel.{PanelReducesEach};
ghost use Rattle.dense_panels.specs.Pieces.{AreReducedBy, AreReducedByAll, HasReducible, HaveReducible};
ghost use Rattle.dense_finish.specs.Pivots.{CanGoOn, FindsPanel, panel_stage};

use crate::elimination::{Elimination, RowRange};
use crate::left_room::LeftRoom;
use crate::pivots::Pivots;
use crate::reduced_pieces::with_pieces;
use crate::split_work::Helping;
use dense_panels::{PanelWithUnits, Piece, PieceTaker, Reducing, Shares, put_pieces, queue_of};
use dense_rows::{Dense, PANEL, Residue};
use std::alloc::AllocError;
use std::thread::{Threads, join_mut};

// For how many rows ahead the memory of the left factor is written to. In the last panels a worker has less to do than the one who writes
// to a panel's share of it: so it is written to while they take long.
const AHEAD: usize = 16 * PANEL;

/// The panel whose pivots were found last, which are taken out of the rows behind them, and the first of these rows, in which the next
/// pivots are found.
#[derive(Drop)]
pub struct PanelStep<'a, W: Residue> {
    pub(crate) elimination: &'a Elimination<'a>,
    pub(crate) found: PanelWithUnits<W>,
    pub(crate) rows: RowRange,
}

impl<'a, W: Reducing> PanelStep<'a, W> {
    // Takes the panel's pivots out of the block's rows from the first of these on, and finds those of these rows. Meanwhile the memory for
    // the left factor is written to.
    pub(crate) fn run<C: Helping<W>>(
        &self,
        crew: &C,
        pivots: &mut Pivots,
        block: &mut [Dense<W>],
        left: &mut LeftRoom,
    ) -> Result<PanelWithUnits<W>, AllocError>
        requires able { C.can_work }
        requires modulus { W.serves self.now.elimination.now.p }
        requires rows { AreRowsOf block.old self.now.rows }
        requires ready { CanGoOn self.now.elimination.now.p self.now.elimination.now.columns.now
            (panel_stage pivots.old self.now.found block.old self.now.rows.start) }
        ensures { IfOk result (λ next. FindsPanel self.now.elimination.now.p
            self.now.elimination.now.columns.now
            (panel_stage pivots.old self.now.found block.old self.now.rows.start)
            (panel_stage pivots.new next block.new self.now.rows.end)) }
    {
        let ahead = (block.len() - self.rows.start).min(AHEAD);
        left.expect(ahead, pivots.rows.len());
        let next = self.find(crew, pivots, block, left)?;
        left.count(self.rows.end - self.rows.start, pivots.rows.len());
        Ok(next)
    }

    // The same, by the caller alone or with the others' help.
    fn find<C: Helping<W>>(
        &self,
        crew: &C,
        pivots: &mut Pivots,
        block: &mut [Dense<W>],
        left: &mut LeftRoom,
    ) -> Result<PanelWithUnits<W>, AllocError>
        requires able { C.can_work }
        requires modulus { W.serves self.now.elimination.now.p }
        requires rows { AreRowsOf block.old self.now.rows }
        requires ready { CanGoOn self.now.elimination.now.p self.now.elimination.now.columns.now
            (panel_stage pivots.old self.now.found block.old self.now.rows.start) }
        ensures { IfOk result (λ next. FindsPanel self.now.elimination.now.p
            self.now.elimination.now.columns.now
            (panel_stage pivots.old self.now.found block.old self.now.rows.start)
            (panel_stage pivots.new next block.new self.now.rows.end)) }
    {
        let (own, others) = block.split_at_mut(self.rows.end);
        if self.elimination.workers == 1 || self.found.is_empty() || others.is_empty() {
            return self.find_alone(pivots, own, others);
        }
        crew.find_beside(self, pivots, own, others, left)
    }

    // Takes the panel's pivots out of the other rows, then out of its own rows from the first on, and finds those of these rows.
    pub(crate) fn find_alone(
        &self,
        pivots: &mut Pivots,
        own: &mut [Dense<W>],
        others: &mut [Dense<W>],
    ) -> Result<PanelWithUnits<W>, AllocError>
        requires modulus { W.serves self.now.elimination.now.p }
        requires rows { AreLastRowsOf own.old self.now.rows }
        requires ready { CanGoOn self.now.elimination.now.p self.now.elimination.now.columns.now
            (panel_stage pivots.old self.now.found own.old self.now.rows.start) }
        requires others { AreVectors self.now.elimination.now.p self.now.found.panel.width others.old }
        ensures own { IfOk result (λ next. FindsPanel self.now.elimination.now.p
            self.now.elimination.now.columns.now
            (panel_stage pivots.old self.now.found own.old self.now.rows.start)
            (panel_stage pivots.new next own.new self.now.rows.end)) }
        ensures others { PanelReducesEach self.now.elimination.now.p self.now.found.panel
            others.old others.new }
    {
        self.found.reduce_behind(others, 0, &self.elimination.p);
        self.elimination
            .reduce_and_find(&self.found, self.rows, pivots, own)
    }

    // The same while the other workers take the panel's pivots out of the other rows, piece by piece, as this one does when it has found
    // those of its own.
    pub(crate) fn find_beside<R: Threads + Sync>(
        &self,
        rt: &R,
        pivots: &mut Pivots,
        own: &mut [Dense<W>],
        others: &mut [Dense<W>],
        left: &mut LeftRoom,
    ) -> Result<PanelWithUnits<W>, AllocError>
        requires modulus { W.serves self.now.elimination.now.p }
        requires several { 2 ≤ self.now.elimination.now.workers }
        requires some { 0 < length others.old }
        requires rows { AreLastRowsOf own.old self.now.rows }
        requires ready { CanGoOn self.now.elimination.now.p self.now.elimination.now.columns.now
            (panel_stage pivots.old self.now.found own.old self.now.rows.start) }
        requires others { AreVectors self.now.elimination.now.p self.now.found.panel.width others.old }
        ensures own { IfOk result (λ next. FindsPanel self.now.elimination.now.p
            self.now.elimination.now.columns.now
            (panel_stage pivots.old self.now.found own.old self.now.rows.start)
            (panel_stage pivots.new next own.new self.now.rows.end)) }
        ensures others { IfOk result (λ _.
            PanelReducesEach self.now.elimination.now.p self.now.found.panel others.old others.new) }
    {
        let (queue, pass) = queue_of(self.elimination.alloc, others)?;
        let shares = self.elimination.shares_of(PieceTaker::new(&queue, pass))?;
        let (next, pieces) = self.find_and_reduce(rt, pivots, own, shares, left)?;
        put_pieces(pieces, others)?;
        Ok(next)
    }

    // The same where the workers have shares of the other rows: what is left of these are the pieces.
    fn find_and_reduce<R: Threads + Sync>(
        &self,
        rt: &R,
        pivots: &mut Pivots,
        own: &mut [Dense<W>],
        shares: Shares<W>,
        left: &mut LeftRoom,
    ) -> Result<(PanelWithUnits<W>, Vec<Piece<W>>), AllocError>
        requires modulus { W.serves self.now.elimination.now.p }
        requires rows { AreLastRowsOf own.old self.now.rows }
        requires ready { CanGoOn self.now.elimination.now.p self.now.elimination.now.columns.now
            (panel_stage pivots.old self.now.found own.old self.now.rows.start) }
        requires others { HaveReducible self.now.elimination.now.p self.now.found shares }
        ensures own { IfOk result (λ made. FindsPanel self.now.elimination.now.p
            self.now.elimination.now.columns.now
            (panel_stage pivots.old self.now.found own.old self.now.rows.start)
            (panel_stage pivots.new made.0 own.new self.now.rows.end)) }
        ensures others { IfOk result (λ made.
            AreReducedByAll self.now.elimination.now.p self.now.found.panel shares.entry made.1) }
    {
        let Shares {
            own: mut own_share,
            mut others,
        } = shares;
        let mut find = || -> (Result<PanelWithUnits<W>, AllocError>, Vec<Piece<W>>)
            requires { W.serves self.now.elimination.now.p
                × All (HasReducible self.now.elimination.now.p self.now.found) own_share.items
                × AreLastRowsOf own.now self.now.rows
                × CanGoOn self.now.elimination.now.p self.now.elimination.now.columns.now
                (panel_stage pivots.now self.now.found own.now self.now.rows.start) }
            ensures { AreReducedBy self.entry.now.elimination.now.p self.entry.now.found.panel
                own_share.entry.items result.1
                × IfOk result.0 (λ next. FindsPanel self.entry.now.elimination.now.p
                self.entry.now.elimination.now.columns.now
                (panel_stage pivots.entry.now self.entry.now.found own.entry.now self.entry.now.rows.start)
                (panel_stage pivots.exit.now next own.exit.now self.entry.now.rows.end)) }
        {
            let next = self
                .elimination
                .reduce_and_find(&self.found, self.rows, pivots, own);
            let pieces = self.elimination.pieces_by(rt, &self.found, &mut own_share);
            (next, pieces)
        };
        let mut help = || -> Vec<Piece<W>>
            requires { W.serves self.now.elimination.now.p
                × All (HasReducible self.now.elimination.now.p self.now.found) others.items }
            ensures { AreReducedBy self.entry.now.elimination.now.p self.entry.now.found.panel
                others.entry.items result }
        {
            self.elimination
                .pieces_and_left(rt, &self.found, &mut others, left)
        };
        let (more, (next, pieces)) = join_mut(rt, &mut help, &mut find);
        with_pieces(next, pieces, more)
    }
}
