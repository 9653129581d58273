// Factors of a matrix.
ghost use Rattle.std.specs.Prelude.{◌≡◌, ◌<◌, ◌≤◌, ◌-◌, ℕ, length, slice_index, IfOk, OnOk};
ghost use Rattle.residue_words.specs.Matrix.{IsMatrix};
ghost use Rattle.sparse_rows.specs.Rows.{AreRising, with_zeros, LARGEST_SIZE};
ghost use Rattle.dense_finish.specs.Block.{IsDense};
ghost use Rattle.dense_finish.specs.Factors.{IsLeftFactor};
ghost use Rattle.dense_finish.specs.Pivots.{AreBlockFactors, StandIn};

use crate::block::Block;
use crate::left_room::LeftRoom;
use crate::pivots::Pivots;
use crate::right_factor::RightFactor;
use crate::row_room::RowRoom;
use dense_rows::Residue;
use residue_words::plain::Pair;
use sparse_rows::{List, Rows};
use std::alloc::{AllocError, Global};

/// Factors of a matrix A of m rows and n columns: `l` of m rows and as many columns as there are pivots, and `u` of as many rows and n columns.
/// For a prime modulus they are valid: A = L U, and the k-th pivot's row of L has its last nonzero entry at k, its column of U too.
#[derive(Debug, Drop)]
pub struct Factors {
    /// The row and the column of each pivot, in order.
    pub pivots: List<Pair>,
    /// The left factor.
    pub l: Rows,
    /// The right factor.
    pub u: Rows,
}

// The factors that an eliminated block with these pivots gives. The left one is put into this room.
pub(crate) fn factors_of<W: Residue>(
    alloc: Global,
    block: &Block<W>,
    pivots: Pivots,
    room: LeftRoom,
) -> Result<Factors, AllocError>
    requires dense { IsDense block.now }
    requires pivots { StandIn block.now pivots }
    ensures { IfOk result (AreBlockFactors block.now pivots) }
{
    let l = left_factor(alloc, block, &pivots, room)?;
    let RightFactor { pivots, u } = pivots.into_right_factor(alloc, block)?;
    Ok(Factors { pivots, l, u })
}

// The left factor: at each of the block's rows the coefficients that it holds at the pivots' columns, which are zeros behind the
// pivots of the rows up to it, and zeros at the others. They are put into this room.
fn left_factor<W: Residue>(
    alloc: Global,
    block: &Block<W>,
    pivots: &Pivots,
    room: LeftRoom,
) -> Result<Rows, AllocError>
    requires dense { IsDense block.now }
    requires pivots { StandIn block.now pivots.now }
    ensures modulus { IfOk result (λ left. left.modulus ≡ block.now.modulus) }
    ensures residues { IfOk result (λ left. IsMatrix block.now.modulus left.matrix) }
    ensures left { IfOk result (λ left. IsLeftFactor block.now.height block.now.rows
        pivots.now.columns.items block.now.entries left.matrix) }
{
    let width = pivots.columns.len() as u32;
    let room = room.into_entries();
    let mut left = Rows::in_room(alloc, block.p, width, block.height, room)?;
    let mut row_room = RowRoom::new(alloc, width, &block.p)?;
    let mut count = 0;
    for t in 0..block.rows.len() {
        pad(&mut left, block.rows[t])?;
        count = count_up_to(t, &pivots.rows, count);
        row_room.append_to(&mut left, &block.entries[t], &pivots.columns[..count])?;
    }
    pad(&mut left, block.height)?;
    Ok(left)
}

// How many of these ascending rows come up to row t, of which so many come before it.
fn count_up_to(t: usize, rows: &[u32], before: usize) -> usize
    requires rising { AreRising rows.now }
    requires inside { before ≤ length rows.now }
    requires rest { (k : ℕ) → before ≤ k → k < length rows.now → t ≤ slice_index rows.now k }
    ensures inside { result ≤ length rows.now }
    ensures rest { (k : ℕ) → result ≤ k → k < length rows.now → t < slice_index rows.now k }
{
    if before < rows.len() && rows[before] as usize == t {
        before + 1
    } else {
        before
    }
}

// Appends rows of zeros until the matrix has this height.
fn pad(rows: &mut Rows, height: u32) -> Result<(), AllocError>
    requires low { rows.old.matrix.height ≤ height }
    requires small { height ≤ LARGEST_SIZE }
    ensures modulus { rows.new.modulus ≡ rows.old.modulus }
    ensures matrix { OnOk result (
        rows.new.matrix ≡ with_zeros rows.old.matrix (height - rows.old.matrix.height)) }
{
    rows.append_zeros(height - rows.height())
}
