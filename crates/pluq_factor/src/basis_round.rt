// A round of a basis of the row space.
ghost use Rattle.std.specs.Prelude.{◌<◌, ◌≤◌, IfOk, IfSome};
ghost use Rattle.pluq_factor.specs.Reordered.{IsOutcome, IsReordered};
ghost use Rattle.pluq_factor.specs.RoundPivots.{IsBasisRound};

use crate::eliminating::Eliminating;
use crate::measured::Measured;
use crate::occupancy::Occupancy;
use crate::plan::all_pivots;
use crate::policy::is_worth_reordering;
use crate::reordered::Reordered;
use crate::rest::{Rest, rest_of};
use crate::round::Round;
use crate::round_pivots::rows_at_pivots;
use sparse_rows::Rows;
use std::alloc::{AllocError, Global};
use triangular_solve::Triangle;

// The rows of a round's pivots, and what these leave.
#[derive(Debug, Drop)]
pub(crate) struct BasisRound {
    pub(crate) top: Rows,
    pub(crate) rest: Rest,
}

// How many rounds there may still be, and how often one may be given up for another order of the columns.
#[derive(Clone, Copy, Debug)]
pub(crate) struct Bounds {
    pub(crate) rounds: u32,
    pub(crate) orders: u32,
}

// What comes of a round.
#[derive(Debug, Drop)]
pub(crate) enum Outcome {
    // It is taken.
    Taken(BasisRound),
    // It is given up, since pivots leave less of the matrix in another order of its columns.
    GivenUp(Reordered),
    // There is none, or no pivot.
    Nothing,
}

// The next round within these bounds.
pub(crate) fn take_basis_round<C: Eliminating>(
    crew: &C,
    alloc: Global,
    matrix: &Measured,
    workers: u32,
    bounds: Bounds,
) -> Result<Outcome, AllocError>
    requires able { C.can_work }
    requires some { 1 ≤ workers }
    ensures { IfOk result (IsOutcome matrix.now.rows bounds) }
{
    if bounds.rounds == 0 {
        return Ok(Outcome::Nothing);
    }
    let triangle = all_pivots(alloc, &matrix.rows)?;
    if triangle.pairs().is_empty() {
        return Ok(Outcome::Nothing);
    }
    let round = Round::of(alloc, &triangle, &matrix.occupancy, workers)?;
    if 0 < bounds.orders && is_worth_reordering(&round) {
        let lighter = lighter_order(alloc, matrix, round.left(), workers)?;
        if let Some(reordered) = lighter {
            return Ok(Outcome::GivenUp(reordered));
        }
    }
    let taken = basis_round(crew, alloc, &round, workers)?;
    Ok(Outcome::Taken(taken))
}

// The matrix with its rarest columns first, if pivots leave less of it than so many entries then.
fn lighter_order(
    alloc: Global,
    matrix: &Measured,
    left: Option<u64>,
    workers: u32,
) -> Result<Option<Reordered>, AllocError>
    ensures { IfOk result (λ r. IfSome r (λ other.
        IsReordered matrix.now.rows other.matrix.rows other.places.items)) }
{
    if matrix.rows.is_wide() {
        return Ok(None);
    }
    let reordered = Reordered::of(alloc, &matrix.rows)?;
    let is_lighter = leaves_less(alloc, &reordered.matrix, left, workers)?;
    Ok(if is_lighter { Some(reordered) } else { None })
}

// Whether pivots leave fewer entries of a matrix than so many, by samples.
fn leaves_less(
    alloc: Global,
    matrix: &Measured,
    than: Option<u64>,
    workers: u32,
) -> Result<bool, AllocError> {
    let triangle = all_pivots(alloc, &matrix.rows)?;
    let round = Round::of(alloc, &triangle, &matrix.occupancy, workers)?;
    match (round.left(), than) {
        (Some(left), Some(most)) => Ok(left < most),
        _ => Ok(false),
    }
}

// What the pivots of a round give.
fn basis_round<C: Eliminating>(
    crew: &C,
    alloc: Global,
    round: &Round,
    workers: u32,
) -> Result<BasisRound, AllocError>
    requires able { C.can_work }
    requires some { 1 ≤ workers }
    ensures { IfOk result (IsBasisRound round.now.reducer.rows) }
{
    // The calls' contracts tell that the entries are residues, and that the pivots are triangular.
    round.reducer.rows().is_sound();
    round.reducer.triangle().is_sound();
    let rest = rest_of(crew, alloc, round, workers)?;
    let top = rows_at_pivots(alloc, round.reducer.triangle())?;
    Ok(BasisRound { top, rest })
}
