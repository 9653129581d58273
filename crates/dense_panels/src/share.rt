// What one worker reduces of the rows behind a panel.
ghost use Rattle.std.specs.Prelude.{◌≡◌, [], All, IfOk};
ghost use Rattle.dense_panels.specs.Pieces.{ArePiecesOf, new_share};

use crate::piece_taker::PieceTaker;
use crate::pieces::Piece;
use dense_rows::Residue;
use std::alloc::{AllocError, Global};
use std::marker::Model;

/// A worker at a queue of pieces, and those that it took there and reduced. Contracts see it as a `ShareOf`.
#[derive(Drop)]
pub struct Share<'q, W: Residue> {
    /// The worker at the queue.
    pub taker: PieceTaker<'q, W>,
    /// The pieces that it took, with room for all.
    pub pieces: Vec<Piece<W>>,
}

impl<'q, W: Residue> Model for Share<'q, W> {
    ghost use Rattle.dense_panels.specs.Pieces.{ShareOf};

    ghost Value = { ShareOf };

    ghost view = { λ share. record { known = share.taker; pieces = share.pieces.items } };
}

impl<'q, W: Residue> Share<'q, W> {
    // A worker more, with room for all pieces, so that none wants memory for them.
    fn of(alloc: Global, taker: &mut PieceTaker<'q, W>) -> Result<Share<'q, W>, AllocError>
        ensures same { taker.new ≡ taker.old }
        ensures share { IfOk result (λ share. share ≡ new_share taker.old) }
    {
        let pieces = Vec::with_capacity(alloc, taker.count())?;
        Ok(Share {
            taker: taker.another(),
            pieces,
        })
    }

    /// So many more.
    pub fn several(
        alloc: Global,
        taker: &mut PieceTaker<'q, W>,
        count: usize,
    ) -> Result<Vec<Share<'q, W>>, AllocError>
        ensures same { taker.new ≡ taker.old }
        ensures shares { IfOk result (λ shares. All (λ share. share ≡ new_share taker.old) shares.items) }
    {
        let mut shares = Vec::with_capacity(alloc, count)?;
        for _ in 0..count {
            shares.push(Share::of(alloc, taker)?)?;
        }
        Ok(shares)
    }
}

/// The share of a worker that has other work first, and those of the workers that help it. Contracts see them as `SharesOf`.
#[derive(Drop)]
pub struct Shares<'q, W: Residue> {
    /// The share of the worker with other work, alone in a list.
    pub own: Vec<Share<'q, W>>,
    /// The shares of the others.
    pub others: Vec<Share<'q, W>>,
}

impl<'q, W: Residue> Model for Shares<'q, W> {
    ghost use Rattle.dense_panels.specs.Pieces.{SharesOf};

    ghost Value = { SharesOf };

    ghost view = { λ shares. record { own = shares.own.items; others = shares.others.items } };
}

/// The pieces of all these shares, as far as there is memory for a list of them.
pub fn gathered<W: Residue>(alloc: Global, shares: Vec<Share<W>>) -> Vec<Piece<W>>
    ensures { ArePiecesOf shares.entry.items result.items }
{
    let mut shares = shares;
    let mut pieces = Vec::new(alloc);
    while let Some(mut share) = shares.pop() {
        let _ = pieces.append(&mut share.pieces);
    }
    pieces
}
