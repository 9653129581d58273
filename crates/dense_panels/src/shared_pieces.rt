// The rows behind a panel in a queue, from which workers take them piece by piece.
ghost use Rattle.std.specs.Prelude.{◌≡◌, ◌<◌, length, IfOk};
ghost use Rattle.crossbeam_queue.specs.Passes.{view, IsPassOf};

use crate::pieces::{Piece, count_of_pieces, rows_of_next};
use crossbeam_queue::protocol::{Outcome, Protocol, Split};
use crossbeam_queue::{Pass, RuledArrayQueue};
use dense_rows::{Dense, Residue};
use std::alloc::{AllocError, Global};
use std::collections::LinkedList;
use std::mem::replace;

/// What a worker knows of the pieces: the rows that were put, one piece behind the other, and whether no other worker knows of them.
/// No value of it is made.
pub struct Known {
    alone: bool,
    rows: LinkedList<LinkedList<u64>>,
}

/// The rule of the queue: what it holds are pieces of the rows that all workers know.
pub struct SameRows;

impl<W: Residue> Protocol<Piece<W>, Known> for SameRows {
    ghost use Rattle.std.specs.Prelude.{true, []};
    ghost use Rattle.dense_panels.specs.SharedPieces.{ArePieces, known};

    ghost holds = { ArePieces };

    ghost first = { known true [] };
}

// One worker is made two.
pub(crate) struct Another;

impl Split<Known> for Another {
    ghost use Rattle.std.specs.Prelude.{false};
    ghost use Rattle.dense_panels.specs.SharedPieces.{known};

    ghost left = { λ v. known false v.rows };

    ghost right = { λ v. known false v.rows };
}

// A piece is put behind the others by one who is alone.
struct PutPiece;

impl<W: Residue> Outcome<Piece<W>, Known> for PutPiece {
    ghost use Rattle.std.specs.Prelude.{◌≡◌, ◌++◌};
    ghost use Rattle.dense_panels.specs.SharedPieces.{known};

    ghost then = { λ v x w. w ≡ known v.alone (v.rows ++ x.rows) };
}

// A piece is taken.
pub(crate) struct TakenPiece;

impl<W: Residue> Outcome<Piece<W>, Known> for TakenPiece {
    ghost use Rattle.std.specs.Prelude.{◌≡◌};
    ghost use Rattle.dense_panels.specs.Pieces.{IsPieceOf};

    ghost then = { λ v x w. (w ≡ v) × IsPieceOf v.rows x };
}

/// A queue of pieces under that rule.
pub type PieceQueue<W> = RuledArrayQueue<Piece<W>, Known, SameRows>;

/// Moves the rows, piece by piece, into a queue, and gives what its first worker knows. Rows without an entry stay in their place.
pub fn queue_of<W: Residue>(
    alloc: Global,
    rows: &mut [Dense<W>],
) -> Result<(PieceQueue<W>, Pass<Piece<W>, Known>), AllocError>
    requires some { 0 < length rows.old }
    ensures pass { IfOk result (λ made. IsPassOf made.0 made.1) }
    ensures rows { IfOk result (λ made. (view made.1).rows ≡ rows.old) }
    ensures long { length rows.new ≡ length rows.old }
{
    let (queue, mut pass) = PieceQueue::<W>::ruled(alloc, count_of_pieces(rows.len()))?;
    let mut at = 0;
    while at < rows.len() {
        let end = at + rows_of_next(rows.len() - at);
        let piece = moved_piece(alloc, at, &mut rows[at..end])?;
        // There is room for each piece.
        if queue.try_push_as::<PutPiece>(&mut pass, piece).is_err() {
            return Err(AllocError);
        }
        at = end;
    }
    Ok((queue, pass))
}

// Moves these rows into a piece that has this place.
fn moved_piece<W: Residue>(
    alloc: Global,
    start: usize,
    rows: &mut [Dense<W>],
) -> Result<Piece<W>, AllocError>
    ensures start { IfOk result (λ piece. piece.start ≡ start) }
    ensures rows { IfOk result (λ piece. piece.rows ≡ rows.old) }
    ensures long { length rows.new ≡ length rows.old }
{
    let mut moved = Vec::with_capacity(alloc, rows.len())?;
    for t in 0..rows.len() {
        moved.push(replace(&mut rows[t], Dense::none(alloc)))?;
    }
    Ok(Piece { start, rows: moved })
}
