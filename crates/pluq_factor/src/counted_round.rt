// A round of the rank.
ghost use Rattle.std.specs.Prelude.{◌≤◌, IfOk, IfSome};
ghost use Rattle.pluq_factor.specs.Counted.{IsCountedRound};

use crate::eliminating::Eliminating;
use crate::measured::Measured;
use crate::occupancy::Occupancy;
use crate::plan::{FewPivots, few_pivots};
use crate::policy::leaves_much;
use crate::rest::{Rest, rest_of};
use crate::round::Round;
use std::alloc::{AllocError, Global};

// How a round goes about its matrix.
#[derive(Clone, Copy, Debug)]
pub(crate) struct Manner {
    // Whether it searches for pivots beside the leftmost ones.
    pub(crate) searches: bool,
    // Whether it is given up if its pivots leave so much that another order is worth trying.
    pub(crate) gives_up: bool,
}

// How many pivots a round has found, what they leave, and whether the next round searches.
#[derive(Debug, Drop)]
pub(crate) struct CountedRound {
    pub(crate) count: u32,
    pub(crate) rest: Rest,
    pub(crate) searches: bool,
}

// One round; None if there is no pivot, or it is given up.
pub(crate) fn count_round<C: Eliminating>(
    crew: &C,
    alloc: Global,
    matrix: &Measured,
    manner: Manner,
    workers: u32,
) -> Result<Option<CountedRound>, AllocError>
    requires able { C.can_work }
    requires some { 1 ≤ workers }
    ensures { IfOk result (λ r. IfSome r (IsCountedRound matrix.now.rows)) }
{
    let pivots = few_pivots(alloc, &matrix.rows, manner.searches)?;
    counted_by(crew, alloc, &pivots, &matrix.occupancy, manner, workers)
}

// The round of these pivots of a matrix of this occupancy; None if there are none, or it is given up.
fn counted_by<C: Eliminating>(
    crew: &C,
    alloc: Global,
    pivots: &FewPivots,
    occupancy: &Occupancy,
    manner: Manner,
    workers: u32,
) -> Result<Option<CountedRound>, AllocError>
    requires able { C.can_work }
    requires some { 1 ≤ workers }
    ensures { IfOk result (λ r. IfSome r (IsCountedRound pivots.now.triangle.rows)) }
{
    // The calls' contracts tell that the entries are residues, and that the pivots are triangular.
    pivots.triangle.rows().is_sound();
    pivots.triangle.is_sound();
    if pivots.triangle.pairs().is_empty() {
        return Ok(None);
    }
    let count = pivots.triangle.pairs().len() as u32;
    let round = Round::of(alloc, &pivots.triangle, occupancy, workers)?;
    if manner.gives_up && leaves_much(&round, pivots.searches) {
        return Ok(None);
    }
    let rest = rest_of(crew, alloc, &round, workers)?;
    Ok(Some(CountedRound {
        count,
        rest,
        searches: pivots.searches,
    }))
}
