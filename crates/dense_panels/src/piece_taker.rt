// A worker at a queue of pieces, which takes one after another.
ghost use Rattle.std.specs.Prelude.{◌≡◌, IfSome};
ghost use Rattle.crossbeam_queue.specs.Passes.{view, IsPassOf};
ghost use Rattle.dense_panels.specs.Pieces.{IsPieceOf};

use crate::pieces::Piece;
use crate::shared_pieces::{Another, Known, PieceQueue, TakenPiece};
use crossbeam_queue::Pass;
use crossbeam_queue::protocol::Free;
use dense_rows::Residue;
use std::marker::Model;

/// A worker at such a queue. Contracts see the rows that were put.
#[derive(Drop)]
pub struct PieceTaker<'q, W: Residue> {
    queue: &'q PieceQueue<W>,
    pass: Pass<Piece<W>, Known>,
}

impl<'q, W: Residue> Model for PieceTaker<'q, W> {
    ghost use Rattle.std.specs.Prelude.{List, ℕ};
    ghost use Rattle.crossbeam_queue.specs.Passes.{IsPassOf};

    ghost Value = { List (List ℕ) };

    ghost view = { λ t. t.pass.me.0.client.rows };

    ghost invariant = { λ t. IsPassOf t.queue.now t.pass };
}

impl<'q, W: Residue> PieceTaker<'q, W> {
    /// The worker with this pass.
    pub fn new(queue: &'q PieceQueue<W>, pass: Pass<Piece<W>, Known>) -> PieceTaker<'q, W>
        requires { IsPassOf queue.now pass }
        ensures { result ≡ (view pass).rows }
    {
        PieceTaker { queue, pass }
    }

    // One more worker.
    pub(crate) fn another(&mut self) -> PieceTaker<'q, W>
        ensures same { self.new ≡ self.old }
        ensures other { result ≡ self.old }
    {
        PieceTaker {
            queue: self.queue,
            pass: self.queue.another::<Another>(&mut self.pass),
        }
    }

    /// How many pieces were put.
    pub fn count(&self) -> usize {
        self.queue.capacity()
    }

    /// The next piece, if there is one. Where the queue isn't empty, an attempt fails only because another worker took a piece, and no
    /// more are taken than there are.
    pub fn take(&mut self) -> Option<Piece<W>>
        ensures same { self.new ≡ self.old }
        ensures piece { IfSome result (IsPieceOf self.old) }
    {
        for _ in 0..=self.count() {
            if self.is_done() {
                return None;
            }
            let piece = self.try_take();
            if piece.is_some() {
                return piece;
            }
        }
        None
    }

    // Whether the queue is empty.
    fn is_done(&mut self) -> bool
        ensures { self.new ≡ self.old }
    {
        self.queue.is_empty_as::<Free>(&mut self.pass)
    }

    // One attempt to take a piece.
    fn try_take(&mut self) -> Option<Piece<W>>
        ensures same { self.new ≡ self.old }
        ensures piece { IfSome result (IsPieceOf self.old) }
    {
        self.queue.try_pop_as::<TakenPiece>(&mut self.pass)
    }
}
