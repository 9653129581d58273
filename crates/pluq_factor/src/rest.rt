// What the pivots of a round leave.
ghost use Rattle.std.specs.Prelude.{◌≤◌, IfOk};
ghost use Rattle.pluq_factor.specs.RoundPivots.{IsRestOf};

use crate::eliminating::Eliminating;
use crate::occupancy::Occupancy;
use crate::policy::is_basis_cheaper;
use crate::round::Round;
use schur_rows::{complement, rest_basis};
use sparse_rows::Rows;
use std::alloc::{AllocError, Global};
use triangular_solve::Triangle;

// What the pivots of a round leave.
#[derive(Debug, Drop)]
pub(crate) enum Rest {
    // The complement.
    Stored(Rows),
    // A basis of its row space; the complement was never stored.
    Basis(Rows),
}

impl Rest {
    // What these pivots of a matrix of this occupancy leave.
    pub(crate) fn of<C: Eliminating>(
        crew: &C,
        alloc: Global,
        triangle: &Triangle,
        occupancy: &Occupancy,
        workers: u32,
    ) -> Result<Rest, AllocError>
        requires able { C.can_work }
        requires some { 1 ≤ workers }
        ensures { IfOk result (IsRestOf triangle.now) }
    {
        let round = Round::of(alloc, triangle, occupancy, workers)?;
        rest_of(crew, alloc, &round, workers)
    }
}

// What the pivots of a round leave, in the way that the policy tells.
pub(crate) fn rest_of<C: Eliminating>(
    crew: &C,
    alloc: Global,
    round: &Round,
    workers: u32,
) -> Result<Rest, AllocError>
    requires able { C.can_work }
    requires some { 1 ≤ workers }
    ensures { IfOk result (IsRestOf round.now.reducer) }
{
    if is_basis_cheaper(round) {
        let basis = rest_basis(crew, alloc, &round.reducer, workers)?;
        return Ok(Rest::Basis(basis));
    }
    let rows = complement(crew, alloc, &round.reducer, workers)?;
    Ok(Rest::Stored(rows))
}
