// What one round takes out of a matrix.
ghost use Rattle.std.specs.Prelude.{◌≡◌, ◌<◌, ◌≤◌, [], IfOk};
ghost use Rattle.std.specs.Option.{MatchOption};
ghost use Rattle.pivot_table.specs.Selected.{Selected};
ghost use Rattle.pluq_factor.specs.RoundPivots.{IsRoundTaken};
ghost use Rattle.pluq_factor.specs.Staged.{AreAnyStaged};
ghost use Rattle.schur_rows.specs.Round.{pivot_rows};

use crate::plan::{rows_of, select_pivots};
use optimistic_search::Gate;
use pivot_table::Pair;
use schur_rows::{SchurRows, schur};
use sparse_rows::{List, Rows};
use std::alloc::{AllocError, Global};
use std::thread::Threads;
use triangular_solve::Triangle;

// The pivots of a round, their rows, and what they leave, with the coefficients.
#[derive(Debug, Drop)]
pub(crate) struct RoundPivots {
    pub(crate) pivots: List<Pair>,
    pub(crate) top: Rows,
    pub(crate) left: SchurRows,
}

// What a round gives the factors: its pivots, their rows, and the coefficients of all rows at them.
#[derive(Debug, Drop)]
pub(crate) struct Top {
    pub(crate) pivots: List<Pair>,
    pub(crate) rows: Rows,
    pub(crate) coefficients: Rows,
}

// The next of so many rounds, with the coefficients; None where there is none or no pivot.
pub(crate) fn take_round<R: Threads + Sync, G: Gate>(
    rt: &R,
    alloc: Global,
    rows: &Rows,
    workers: u32,
    rounds: u32,
    gate: &G,
) -> Result<Option<RoundPivots>, AllocError>
    requires some { 1 ≤ workers }
    ensures { IfOk result (λ r. MatchOption r (AreAnyStaged rows.now workers rounds)
        (λ round. (0 < rounds) × IsRoundTaken rows.now workers round)) }
{
    // The call's contract tells that the entries are residues.
    rows.is_sound();
    if rounds == 0 {
        return Ok(None);
    }
    let triangle = select_pivots(rt, alloc, rows, workers, gate)?;
    round_by(rt, alloc, &triangle, workers)
}

// What these pivots take out, with the coefficients; None where there are none.
fn round_by<R: Threads + Sync>(
    rt: &R,
    alloc: Global,
    triangle: &Triangle,
    workers: u32,
) -> Result<Option<RoundPivots>, AllocError>
    requires some { 1 ≤ workers }
    requires selected { Selected triangle.now.rows.matrix workers triangle.now.pairs }
    ensures { IfOk result (λ r. MatchOption r (Selected triangle.now.rows.matrix workers [])
        (IsRoundTaken triangle.now.rows workers)) }
{
    // The call's contract tells that the entries are residues.
    triangle.rows().is_sound();
    if triangle.pairs().is_empty() {
        return Ok(None);
    }
    let left = schur(rt, alloc, triangle, workers)?;
    let top = rows_at_pivots(alloc, triangle)?;
    let pivots = listed(alloc, triangle.pairs())?;
    Ok(Some(RoundPivots { pivots, top, left }))
}

// The rows of the pivots, in their order.
pub(crate) fn rows_at_pivots(alloc: Global, triangle: &Triangle) -> Result<Rows, AllocError>
    ensures modulus { IfOk result (λ top. top.modulus ≡ triangle.now.rows.modulus) }
    ensures matrix { IfOk result (λ top.
        top.matrix ≡ pivot_rows triangle.now.rows.matrix triangle.now.pairs) }
{
    let rows = triangle.rows();
    // The call's contract tells how high a matrix is.
    rows.is_sound();
    let numbers = rows_of(alloc, triangle.pairs())?;
    rows.select(alloc, &numbers)
}

// The pairs as a list.
pub(crate) fn listed(alloc: Global, pairs: &[Pair]) -> Result<List<Pair>, AllocError>
    ensures { IfOk result (λ list. list ≡ pairs.now) }
{
    let mut list = List::new(alloc);
    for pair in pairs {
        list.push(*pair)?;
    }
    Ok(list)
}
