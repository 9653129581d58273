// Some rows of a block, one behind the other, as a worker takes them.
ghost use Rattle.std.specs.Prelude.{◌<◌, ◌≤◌, All, length, OnOk};
ghost use Rattle.dense_panels.specs.Pieces.{ArePut, LiesIn};

use dense_rows::{Dense, Residue, TILE_ROWS};
use std::alloc::AllocError;
use std::cmp::Reverse;
use std::marker::Model;

// How many rows a worker takes at a time, at most: as many as the products take at once (`BLOCK_ROWS`), so that a panel's tile is copied
// half as often as with pieces of 16. Measured, four workers took up to a tenth less time, and no less where other programs ran.
const MOST_ROWS: usize = 32;

// And at least, where there are so many, so that a tile is not copied for the sake of few rows.
const LEAST_ROWS: usize = 16;

// Between these, a piece has one of so many equal shares of the rows left.
const SHARES: usize = 16;

/// Some rows one behind the other, and the place of the first of them in a block. Contracts see them as `RowsFrom`.
#[derive(Drop)]
pub struct Piece<W: Residue> {
    /// The place of the first row.
    pub start: usize,
    /// The rows.
    pub rows: Vec<Dense<W>>,
}

impl<W: Residue> Model for Piece<W> {
    ghost use Rattle.dense_panels.specs.Pieces.{RowsFrom};

    ghost Value = { RowsFrom };

    ghost view = { λ piece. record { start = piece.start; rows = piece.rows.items } };
}

// How many rows the next piece has where so many are left: as many as the products take, and fewer towards the end, so that no worker
// waits long for another at the end of a panel. They are a multiple of `TILE_ROWS`, as the products take rows, but for the last piece.
pub(crate) fn rows_of_next(left: usize) -> usize
    requires some { 0 < left }
    ensures some { 0 < result }
    ensures inside { result ≤ left }
{
    let share = left / (SHARES * TILE_ROWS) * TILE_ROWS;
    share.max(LEAST_ROWS).min(MOST_ROWS).min(left)
}

// In how many pieces so many rows are dealt.
pub(crate) fn count_of_pieces(height: usize) -> usize
    requires { 0 < height }
    ensures { 1 ≤ result }
{
    let mut left = height;
    let mut count = 0;
    while left > 0 {
        left -= rows_of_next(left);
        count += 1;
    }
    count
}

/// Puts the rows of these pieces in their places. A piece is missing only where memory was wanted.
pub fn put_pieces<W: Residue>(
    mut pieces: Vec<Piece<W>>,
    rows: &mut [Dense<W>],
) -> Result<(), AllocError>
    requires { All (LiesIn (length rows.old)) pieces.items }
    ensures { OnOk result (ArePut pieces.items rows.new) }
{
    // By descending places, so that the next one comes off the end.
    pieces.sort_unstable_by_key(|piece| Reverse(piece.start));
    let mut at = 0;
    while let Some(mut piece) = pieces.pop() {
        if piece.start != at {
            return Err(AllocError);
        }
        let end = at + piece.rows.len();
        rows[at..end].swap_with_slice(&mut piece.rows);
        at = end;
    }
    if at < rows.len() {
        Err(AllocError)
    } else {
        Ok(())
    }
}
