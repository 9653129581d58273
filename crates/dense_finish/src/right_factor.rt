// The right factor of a matrix alone.
ghost use Rattle.std.specs.Prelude.{◌≤◌, IfOk};
ghost use Rattle.dense_finish.specs.Factors.{IsRightFactored};

use crate::block::Block;
use crate::left_room::LeftRoom;
use crate::pivots::Pivots;
use crate::split_work::{Finishing, Helping};
use dense_panels::Reducing;
use dense_rows::Residue;
use residue_words::LANE_BOUND;
use residue_words::plain::Pair;
use sparse_rows::{List, Rows};
use std::alloc::{AllocError, Global};

/// The pivots and the right factor of a matrix, as `Factors` have them.
#[derive(Debug, Drop)]
pub struct RightFactor {
    /// The row and the column of each pivot, in order.
    pub pivots: List<Pair>,
    /// The right factor.
    pub u: Rows,
}

/// The pivots and the right factor that `finish` gives, by so many workers, at least one, in less memory: the matrix is given up once
/// its dense block is made, and no left factor is. They are the same for every number of workers and for every crew; a caller alone
/// takes the time of one worker, whatever their number. An error only where memory runs out.
pub fn finish_right<C: Finishing>(
    crew: &C,
    alloc: Global,
    rows: Rows,
    workers: u32,
) -> Result<RightFactor, AllocError>
    requires able { C.can_work }
    requires some { 1 ≤ workers }
    ensures { IfOk result (IsRightFactored rows.modulus rows.matrix) }
{
    if rows.modulus().p() < LANE_BOUND {
        finish_right_in::<C, u32>(crew, alloc, rows, workers as usize)
    } else {
        finish_right_in::<C, u64>(crew, alloc, rows, workers as usize)
    }
}

// The same with the residues kept so.
fn finish_right_in<C: Helping<W>, W: Reducing>(
    crew: &C,
    alloc: Global,
    rows: Rows,
    workers: usize,
) -> Result<RightFactor, AllocError>
    requires able { C.can_work }
    requires modulus { W.serves rows.modulus }
    requires some { 1 ≤ workers }
    ensures { IfOk result (IsRightFactored rows.modulus rows.matrix) }
{
    let mut block = Block::<W>::of(crew, alloc, &rows, workers)?;
    drop(rows);
    let mut left = LeftRoom::none(alloc);
    let pivots = block.eliminate(crew, alloc, workers, &mut left)?;
    pivots.into_right_factor(alloc, &block)
}

impl Pivots {
    ghost use Rattle.dense_finish.specs.Pivots.{IsRightFactorOf, StandIn};

    // Their rows of U, with their places in the matrix.
    pub(crate) fn into_right_factor<W: Residue>(
        self,
        alloc: Global,
        block: &Block<W>,
    ) -> Result<RightFactor, AllocError>
        requires { StandIn block.now self }
        ensures { IfOk result (IsRightFactorOf block.now self) }
    {
        let places = self.places(alloc, &block.rows, &block.columns)?;
        let Pivots { u, .. } = self;
        Ok(RightFactor { pivots: places, u })
    }
}
