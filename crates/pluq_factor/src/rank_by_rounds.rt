// The rank by rounds.
ghost use Rattle.std.specs.Prelude.{◌≡◌, ◌≤◌, ◌+◌, ◌-◌, min, IfOk};
ghost use Rattle.residue_words.specs.Residues.{IsPrime};
ghost use Rattle.row_space.specs.Echelon.{HasRank};
ghost use Rattle.weight_order.specs.Keeping.{KeepsRank};
ghost use Rattle.pluq_factor.specs.Counted.{IsBoundedRank};

use crate::counted_round::{CountedRound, Manner, count_round};
use crate::eliminating::Eliminating;
use crate::measured::Measured;
use crate::occupancy::Occupancy;
use crate::plan::Plan;
use crate::policy::{is_block, is_dense, is_full, may_repeat};
use crate::rest::Rest;
use dense_finish::finish_right;
use sparse_rows::Rows;
use std::alloc::{AllocError, Global};
use weight_order::{RowOrder, by_front, by_weight, without_multiples};

// So many rounds at most, whatever they leave.
const MOST_ROUNDS: u32 = 64;

// The first round is given up for another order if it leaves much.
const FIRST: Manner = Manner {
    searches: true,
    gives_up: true,
};

/// The rank of a matrix modulo a prime, by a plan of at least one worker; modulo another number, some number that is no more than its
/// height and width.
///
/// If the plan has no round the matrix is eliminated densely. Else there are as many rounds as pay, up to 64: each puts what is left in
/// order of weight (`weight_order::by_weight`), which also turns it so that it isn't wide, takes the leftmost pivots and those that a
/// search finds within three steps an entry, counts them, and keeps the complement alone. If the first round would leave much more than the
/// matrix has, it begins anew in the order of a front (`weight_order::by_front`). After a search that found none or was
/// broken off no later round searches. Of what is left with two rows a column or more, rows that are multiples of others are dropped
/// (`weight_order::without_multiples`). The rounds end when nothing is left, or when a fifth of what is left isn't 0: that is
/// eliminated densely, or taken chunk by chunk into a dense basis if this takes less memory. A matrix of some size that is a tenth
/// full from the start is eliminated densely at once. The workers share complements and dense eliminations; the search, short as it is,
/// is one worker's, since several walk without levels and find pivots that leave more.
///
/// Beside the matrix there are at most three copies of what a round works on and what it leaves. The pivots are those of Bouillaguet,
/// Delaplace and Voge, PASCO 2017; the order of columns by weight is a form of Markowitz's rule.
pub fn rank<C: Eliminating>(
    crew: &C,
    alloc: Global,
    rows: &Rows,
    plan: Plan,
) -> Result<u32, AllocError>
    requires able { C.can_work }
    requires some { 1 ≤ plan.workers }
    ensures rank { IfOk result (λ r. IsPrime rows.now.modulus → HasRank rows.now.modulus rows.now.matrix r) }
    ensures at_most_height { IfOk result (λ r. r ≤ rows.now.matrix.height) }
    ensures at_most_width { IfOk result (λ r. r ≤ rows.now.matrix.width) }
{
    if plan.rounds == 0 {
        let copy = rows.copy(alloc)?;
        let rank = dense_rank(crew, alloc, copy, plan.workers)?;
        return Ok(rank);
    }
    let ordered = by_weight(alloc, rows, RowOrder::LastFirst)?;
    let rank = rank_in_order(crew, alloc, ordered, plan.workers)?;
    Ok(rank)
}

// The rank of a matrix that stands in order of weight.
fn rank_in_order<C: Eliminating>(
    crew: &C,
    alloc: Global,
    rows: Rows,
    workers: u32,
) -> Result<u32, AllocError>
    requires able { C.can_work }
    requires some { 1 ≤ workers }
    ensures { IfOk result (IsBoundedRank rows) }
{
    let matrix = Measured::of(alloc, rows)?;
    if is_full(&matrix.occupancy) {
        let Measured { rows, .. } = matrix;
        return dense_rank(crew, alloc, rows, workers);
    }
    rank_from(crew, alloc, matrix, FIRST, workers, MOST_ROUNDS)
}

// The rank by so many rounds and the finish, the first of them in this manner. The matrix is given up before the next round begins.
fn rank_from<C: Eliminating>(
    crew: &C,
    alloc: Global,
    matrix: Measured,
    manner: Manner,
    workers: u32,
    rounds: u32,
) -> Result<u32, AllocError>
    requires able { C.can_work }
    requires some { 1 ≤ workers }
    ensures { IfOk result (IsBoundedRank matrix.rows) }
{
    // The law's contract: the rank of the complement gives that of the matrix.
    schur_rows::round_rank();
    if rounds == 0 || is_dense(&matrix.occupancy) {
        return finished_rank(crew, alloc, matrix, workers);
    }
    let Some(round) = count_round(crew, alloc, &matrix, manner, workers)? else {
        if manner.gives_up {
            let again = in_front_order(alloc, matrix)?;
            let rank = rank_from(crew, alloc, again, later(true), workers, rounds - 1)?;
            return Ok(rank);
        }
        return finished_rank(crew, alloc, matrix, workers);
    };
    let most = matrix.rows.height().min(matrix.rows.width());
    drop(matrix);
    let CountedRound {
        count,
        rest,
        searches,
    } = round;
    match rest {
        Rest::Basis(basis) => Ok(with_count(count, basis.height(), most)),
        Rest::Stored(rows) => {
            let rest = in_order(alloc, rows)?;
            let below = rank_from(crew, alloc, rest, later(searches), workers, rounds - 1)?;
            Ok(with_count(count, below, most))
        }
    }
}

// The manner of a later round.
fn later(searches: bool) -> Manner {
    Manner {
        searches,
        gives_up: false,
    }
}

// The matrix in the order in which a front comes to its columns and rows.
fn in_front_order(alloc: Global, matrix: Measured) -> Result<Measured, AllocError>
    ensures { IfOk result (λ m. KeepsRank matrix.rows m.rows) }
{
    let ordered = by_front(alloc, &matrix.rows)?;
    drop(matrix);
    Measured::of(alloc, ordered)
}

// The pivots and the rank of what they leave, together, of a matrix whose rank is at most `most`.
fn with_count(count: u32, below: u32, most: u32) -> u32
    requires { count ≤ most }
    ensures { result ≡ count + min below (most - count) }
{
    // Less only if the modulus isn't prime.
    count + below.min(most - count)
}

// The rows in order of weight, without multiples if many may be some.
fn in_order(alloc: Global, rows: Rows) -> Result<Measured, AllocError>
    ensures { IfOk result (λ m. KeepsRank rows m.rows) }
{
    let distinct = distinct_rows(alloc, rows)?;
    let ordered = by_weight(alloc, &distinct, RowOrder::Kept)?;
    drop(distinct);
    Measured::of(alloc, ordered)
}

// The rows without multiples, if there are so many that many may be some.
fn distinct_rows(alloc: Global, rows: Rows) -> Result<Rows, AllocError>
    ensures { IfOk result (KeepsRank rows) }
{
    // The contract of this call tells that the rows are a matrix of residues.
    rows.is_sound();
    let occupancy = Occupancy::of(alloc, &rows)?;
    if !may_repeat(&occupancy) {
        return Ok(rows);
    }
    let distinct = without_multiples(alloc, rows)?;
    Ok(distinct)
}

// The rank without a round, of a matrix that nobody wants any more.
fn finished_rank<C: Eliminating>(
    crew: &C,
    alloc: Global,
    matrix: Measured,
    workers: u32,
) -> Result<u32, AllocError>
    requires able { C.can_work }
    requires some { 1 ≤ workers }
    ensures { IfOk result (IsBoundedRank matrix.rows) }
{
    let Measured { rows, occupancy } = matrix;
    if is_block(&occupancy) {
        dense_rank(crew, alloc, rows, workers)
    } else {
        rank_of_form(alloc, &rows)
    }
}

// The rank as the number of rows of the echelon form.
fn rank_of_form(alloc: Global, rows: &Rows) -> Result<u32, AllocError>
    ensures { IfOk result (IsBoundedRank rows.now) }
{
    let rank = echelon_form::rank(alloc, rows)?;
    Ok(rank)
}

// The rank as the number of pivots of a dense elimination.
fn dense_rank<C: Eliminating>(
    crew: &C,
    alloc: Global,
    rows: Rows,
    workers: u32,
) -> Result<u32, AllocError>
    requires able { C.can_work }
    requires some { 1 ≤ workers }
    ensures { IfOk result (IsBoundedRank rows) }
{
    // The law's contract: the rank is the number of the pivots of factors.
    row_space::factors_give_rank();
    // The calls' contracts tell that the entries are residues, and how many rows and columns there are at most.
    rows.is_sound();
    let right = finish_right(crew, alloc, rows, workers)?;
    let rank = right.pivots.items().len() as u32;
    Ok(rank)
}
