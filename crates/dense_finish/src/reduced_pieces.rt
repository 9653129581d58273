// The rows behind a panel, reduced by several workers: piece by piece, as they become free.
ghost use Rattle.std.specs.Prelude.{◌≡◌, ◌++◌, All, Ok, IfOk, IfSome};
ghost use Rattle.dense_panels.specs.Panel.{PanelReducesEach};
ghost use Rattle.dense_panels.specs.Pieces.{AreReducedBy, AreReducible, HasReducible, IsReducedPiece, KeepShares, KeepsShare};

use crate::elimination::Elimination;
use crate::left_room::LeftRoom;
use dense_panels::{PanelWithUnits, Piece, PieceTaker, Reducing, Share, gathered};
use dense_rows::{Dense, Residue};
use rayon::prelude::par_for_each_mut;
use std::alloc::AllocError;
use std::mem::replace;
use std::thread::{Threads, join_mut};

// What was found, if anything, with these pieces and more in one list.
pub(crate) fn with_pieces<W: Residue>(
    found: Result<PanelWithUnits<W>, AllocError>,
    mut pieces: Vec<Piece<W>>,
    mut more: Vec<Piece<W>>,
) -> Result<(PanelWithUnits<W>, Vec<Piece<W>>), AllocError>
    ensures found { IfOk result (λ made. found ≡ Ok made.0) }
    ensures pieces { IfOk result (λ made. made.1.items ≡ pieces.items ++ more.items) }
{
    let found = found?;
    pieces.append(&mut more)?;
    Ok((found, pieces))
}

impl<'a> Elimination<'a> {
    // The pieces that these workers reduce, while one more thread writes to the memory of the left factor, if there is any. It is begun in
    // any case: what a new thread begins first is often put on its own processor and waits there for it, while another has nothing to do.
    pub(crate) fn pieces_and_left<R: Threads + Sync, W: Reducing>(
        &self,
        rt: &R,
        found: &PanelWithUnits<W>,
        shares: &mut Vec<Share<W>>,
        left: &mut LeftRoom,
    ) -> Vec<Piece<W>>
        requires modulus { W.serves self.now.p }
        requires ready { All (HasReducible self.now.p found.now) shares.old.items }
        ensures { AreReducedBy self.now.p found.now.panel shares.old.items result }
    {
        // In a list of its own, as the borrow checker covers no closure that is lent its caller's.
        let mut own = replace(shares, Vec::new(self.alloc));
        let mut write = || left.write();
        let mut reduce = || -> Vec<Piece<W>>
            requires { W.serves self.now.p × All (HasReducible self.now.p found.now) own.items }
            ensures { AreReducedBy self.entry.now.p found.entry.now.panel own.entry.items result }
        { self.pieces_by(rt, found, &mut own) };
        let (_, pieces) = join_mut(rt, &mut write, &mut reduce);
        pieces
    }

    // The pieces that these workers reduce. Those that there is no memory for in one list are missed in the end.
    pub(crate) fn pieces_by<R: Threads + Sync, W: Reducing>(
        &self,
        rt: &R,
        found: &PanelWithUnits<W>,
        shares: &mut Vec<Share<W>>,
    ) -> Vec<Piece<W>>
        requires modulus { W.serves self.now.p }
        requires ready { All (HasReducible self.now.p found.now) shares.old.items }
        ensures { AreReducedBy self.now.p found.now.panel shares.old.items result }
    {
        let mut own = replace(shares, Vec::new(self.alloc));
        self.reduce_shares(rt, found, own.as_mut_slice());
        gathered(self.alloc, own)
    }

    // Runs these workers, in threads of their own where there are as many processors; else some share a thread, and the later ones of
    // these find what the others left.
    fn reduce_shares<R: Threads + Sync, W: Reducing>(
        &self,
        rt: &R,
        found: &PanelWithUnits<W>,
        shares: &mut [Share<W>],
    )
        requires modulus { W.serves self.now.p }
        requires ready { All (HasReducible self.now.p found.now) shares.old }
        ensures { KeepShares self.now.p found.now.panel shares.old shares.new }
    {
        par_for_each_mut(
            rt,
            shares,
            |_: usize, share: &mut Share<W>|
                requires { W.serves self.now.p × HasReducible self.now.p found.now share.now }
                ensures { KeepsShare self.entry.now.p found.entry.now.panel share.entry.now share.exit.now }
            { self.reduce_share(found, share) },
        );
    }

    // Takes pieces from the queue as long as there are any, and the panel's pivots out of their rows.
    fn reduce_share<W: Reducing>(&self, found: &PanelWithUnits<W>, share: &mut Share<W>)
        requires modulus { W.serves self.now.p }
        requires ready { HasReducible self.now.p found.now share.old }
        ensures { KeepsShare self.now.p found.now.panel share.old share.new }
    {
        // No worker can take more.
        for _ in 0..share.taker.count() {
            let Some(piece) = self.next_piece(found, &mut share.taker) else {
                return;
            };
            // There is room.
            let _ = share.pieces.push(piece);
        }
    }

    // The next piece, if there is one, with the panel's pivots taken out of its rows.
    fn next_piece<W: Reducing>(
        &self,
        found: &PanelWithUnits<W>,
        taker: &mut PieceTaker<W>,
    ) -> Option<Piece<W>>
        requires modulus { W.serves self.now.p }
        requires ready { AreReducible self.now.p found.now taker.old }
        ensures same { taker.new ≡ taker.old }
        ensures piece { IfSome result (IsReducedPiece self.now.p found.now.panel taker.old) }
    {
        let mut piece = taker.take()?;
        self.take_out(found, &mut piece.rows);
        Some(piece)
    }

    // Takes a panel's pivots out of each row.
    fn take_out<W: Reducing>(&self, found: &PanelWithUnits<W>, rows: &mut [Dense<W>])
        requires modulus { W.serves self.now.p }
        requires ready { AreReducible self.now.p found.now rows.old }
        ensures { PanelReducesEach self.now.p found.now.panel rows.old rows.new }
    {
        W::take_out(&found.panel, &found.units, found.first, rows, &self.p);
    }
}
