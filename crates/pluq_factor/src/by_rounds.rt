// Factors by rounds.
ghost use Rattle.std.specs.Prelude.{◌≡◌, ◌≤◌, ◌+◌, ◌++◌, IfOk};
ghost use Rattle.residue_words.specs.Residues.{IsPrime};
ghost use Rattle.sparse_rows.specs.Rows.{LARGEST_SIZE, above};
ghost use Rattle.pluq_factor.specs.Joined.{JoinRound, EmptyWhereMany, FitsRoundAbove, JoinsWhereFew, pivot_count, top_of};
ghost use Rattle.pluq_factor.specs.Rounds.{AreFactorsOf, AreWithoutPivots};
ghost use Rattle.pluq_factor.specs.Staged.{Staged};

use crate::plan::Plan;
use crate::round_pivots::{RoundPivots, Top, listed, take_round};
use dense_finish::{Factors, finish};
use optimistic_search::Gate;
use pivot_table::Pair;
use residue_words::Modulus;
use schur_rows::SchurRows;
use sparse_rows::{List, Rows};
use std::alloc::{AllocError, Global};
use std::thread::Threads;

/// Factors of a matrix, by a plan of at least one worker: valid ones for a prime modulus, and then the pivots of each round stand one
/// after another and those of the dense finish behind them. For a modulus that is not prime they are some matrices of their sizes.
///
/// Each round works on the complement that the one before left, and the first that finds no pivot ends them; with no round there
/// is the dense finish alone. One complement is held at a time, with the coefficients and the pivots' rows of those before it.
pub fn factor<R: Threads + Sync, G: Gate>(
    rt: &R,
    alloc: Global,
    rows: &Rows,
    plan: Plan,
    gate: &G,
) -> Result<Factors, AllocError>
    requires some { 1 ≤ plan.workers }
    ensures factors { IfOk result (AreFactorsOf rows.now.modulus rows.now.matrix) }
    ensures staged { IfOk result (λ f. IsPrime rows.now.modulus →
        Staged rows.now.modulus rows.now.matrix plan.workers plan.rounds f.pivots) }
{
    let copy = rows.copy(alloc)?;
    factor_from(rt, alloc, copy, plan.workers, plan.rounds, gate)
}

// Factors of the matrix by so many rounds and the finish. It is given up before the next round begins.
fn factor_from<R: Threads + Sync, G: Gate>(
    rt: &R,
    alloc: Global,
    rows: Rows,
    workers: u32,
    rounds: u32,
    gate: &G,
) -> Result<Factors, AllocError>
    requires some { 1 ≤ workers }
    ensures factors { IfOk result (AreFactorsOf rows.modulus rows.matrix) }
    ensures staged { IfOk result (λ f. IsPrime rows.modulus →
        Staged rows.modulus rows.matrix workers rounds f.pivots) }
{
    let Some(round) = take_round(rt, alloc, &rows, workers, rounds, gate)? else {
        return finish(rt, alloc, &rows, workers);
    };
    drop(rows);
    let (top, rest) = parted(round);
    let below = factor_from(rt, alloc, rest, workers, rounds - 1, gate)?;
    with_below(alloc, top, &below)
}

// What a round gives the factors, and what it leaves.
fn parted(round: RoundPivots) -> (Top, Rows)
    ensures top { result.0 ≡ top_of round }
    ensures rest { result.1 ≡ round.left.rows }
{
    let RoundPivots { pivots, top, left } = round;
    let SchurRows { rows, coefficients } = left;
    let top = Top {
        pivots,
        rows: top,
        coefficients,
    };
    (top, rows)
}

// The factors with those of what the round left; without a pivot where there would be more than the matrix has rows, which a prime
// modulus excludes.
fn with_below(alloc: Global, top: Top, below: &Factors) -> Result<Factors, AllocError>
    requires { FitsRoundAbove top below.now }
    ensures { IfOk result (λ f. JoinsWhereFew top below.now f × EmptyWhereMany top below.now f) }
{
    let height = top.coefficients.height();
    if top.pivots.items().len() + below.pivots.items().len() > height as usize {
        return no_factors(alloc, top.rows.modulus(), height, top.rows.width());
    }
    join(alloc, top, below)
}

// The pairs of both lists.
fn both(alloc: Global, first: &[Pair], second: &[Pair]) -> Result<List<Pair>, AllocError>
    ensures { IfOk result (λ list. list ≡ first.now ++ second.now) }
{
    let mut list = listed(alloc, first)?;
    for pair in second {
        list.push(*pair)?;
    }
    Ok(list)
}

// The factors without a pivot, of the sizes for such a matrix.
fn no_factors(alloc: Global, p: Modulus, height: u32, width: u32) -> Result<Factors, AllocError>
    requires height { height ≤ LARGEST_SIZE }
    requires width { width ≤ LARGEST_SIZE }
    ensures { IfOk result (AreWithoutPivots p height width) }
{
    let mut l = Rows::with_room(alloc, p, 0, height, 0)?;
    l.append_zeros(height)?;
    Ok(Factors {
        pivots: List::new(alloc),
        l,
        u: Rows::with_room(alloc, p, width, 0, 0)?,
    })
}

// The factors of both.
fn join(alloc: Global, top: Top, below: &Factors) -> Result<Factors, AllocError>
    requires together { FitsRoundAbove top below.now }
    requires few { pivot_count top below.now ≤ LARGEST_SIZE }
    ensures { IfOk result (JoinRound top below.now) }
{
    let pivots = both(alloc, top.pivots.items(), below.pivots.items())?;
    let l = top.coefficients.beside(alloc, &below.l)?;
    let u = stacked(top, &below.u)?;
    Ok(Factors { pivots, l, u })
}

// The rows of a round's pivots with those of the rounds below.
fn stacked(top: Top, below: &Rows) -> Result<Rows, AllocError>
    requires modulus { top.rows.modulus ≡ below.now.modulus }
    requires width { top.rows.matrix.width ≡ below.now.matrix.width }
    requires height { top.rows.matrix.height + below.now.matrix.height ≤ LARGEST_SIZE }
    ensures modulus { IfOk result (λ u. u.modulus ≡ top.rows.modulus) }
    ensures matrix { IfOk result (λ u. u.matrix ≡ above top.rows.matrix below.now.matrix) }
{
    let Top { mut rows, .. } = top;
    rows.append_all(below)?;
    Ok(rows)
}
