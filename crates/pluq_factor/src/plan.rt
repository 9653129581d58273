// How a matrix is taken apart.
ghost use Rattle.std.specs.Prelude.{◌≡◌, ◌≤◌, ◌⊎◌, length, map, IfOk};
ghost use Rattle.pluq_factor.specs.RoundPivots.{AreSelected};

use fl_pivots::leftmost;
use optimistic_search::{Gate, search, search_alone, search_within};
use pivot_table::{Book, Pair};
use schur_rows::mean_reduced;
use sparse_rows::Rows;
use std::alloc::{AllocError, Global};
use std::thread::Threads;
use triangular_solve::Triangle;

/// By how many workers, and in how many structural rounds at most.
#[derive(Clone, Copy, Debug)]
pub struct Plan {
    /// At least one.
    pub workers: u32,
    /// Each round works on what the one before left; none where 0.
    pub rounds: u32,
}

// Matrices of fewer entries are not worth a second search.
const WORTH_COMPARING: u64 = 1 << 12;

// How many rows are reduced to see what two lists of pivots leave.
const SAMPLES: u32 = 32;

// The pivots of one round, in triangular order: those that the workers find. What several find depends on their turns; if it leaves
// more than what one worker finds, that is taken, so that several need little more memory than one.
pub(crate) fn select_pivots<'a, R: Threads + Sync, G: Gate>(
    rt: &R,
    alloc: Global,
    rows: &'a Rows,
    workers: u32,
    gate: &G,
) -> Result<Triangle<'a>, AllocError>
    requires some { 1 ≤ workers }
    ensures { IfOk result (AreSelected rows.now workers) }
{
    let found = found_by(rt, alloc, rows, workers, gate)?;
    if workers == 1 || rows.entries() < WORTH_COMPARING {
        return Ok(found);
    }
    let of_one = found_by(rt, alloc, rows, 1, gate)?;
    better_of(alloc, found, of_one)
}

// Of two lists of pivots the one that leaves less by samples, or the first.
fn better_of<'a>(
    alloc: Global,
    first: Triangle<'a>,
    second: Triangle<'a>,
) -> Result<Triangle<'a>, AllocError>
    ensures { IfOk result (λ better. (better ≡ first.entry) ⊎ (better ≡ second.entry)) }
{
    let worse = leaves_more(alloc, &first, &second)?;
    if worse { Ok(second) } else { Ok(first) }
}

// The pivots that so many workers find.
fn found_by<'a, R: Threads + Sync, G: Gate>(
    rt: &R,
    alloc: Global,
    rows: &'a Rows,
    workers: u32,
    gate: &G,
) -> Result<Triangle<'a>, AllocError>
    requires some { 1 ≤ workers }
    ensures { IfOk result (AreSelected rows.now workers) }
{
    let book = search(rt, alloc, leftmost(alloc, rows)?, workers, gate)?;
    let triangle = Triangle::of(alloc, &book)?;
    Ok(triangle)
}

// Whether these pivots leave more of the rows than others, with the coefficients, by samples.
fn leaves_more(alloc: Global, pivots: &Triangle, others: &Triangle) -> Result<bool, AllocError> {
    let left = mean_reduced(alloc, pivots, SAMPLES)?;
    let by_others = mean_reduced(alloc, others, SAMPLES)?;
    Ok(by_others < left)
}

// A search takes so many steps an entry at most: what takes more are long chains of pivots, which fill what they leave.
const STEPS_AN_ENTRY: u64 = 3;

// Pivots of a round in triangular order, and whether a search was worth its time.
#[derive(Debug, Drop)]
pub(crate) struct FewPivots<'a> {
    pub(crate) triangle: Triangle<'a>,
    pub(crate) searches: bool,
}

// The leftmost pivots, and those that a search of one worker finds in few steps, if there is to be one.
pub(crate) fn few_pivots<'a>(
    alloc: Global,
    rows: &'a Rows,
    searches: bool,
) -> Result<FewPivots<'a>, AllocError>
    ensures { IfOk result (λ f. f.triangle.rows ≡ rows.now) }
{
    let first = leftmost(alloc, rows)?;
    if !searches {
        return found(alloc, &first, false);
    }
    let few = first.pairs().len();
    let most = rows.entries().saturating_mul(STEPS_AN_ENTRY);
    match search_within(alloc, first, most)? {
        Some(book) => found(alloc, &book, few < book.pairs().len()),
        None => found(alloc, &leftmost(alloc, rows)?, false),
    }
}

// The pairs of a book in triangular order.
fn found<'a>(alloc: Global, book: &Book<'a>, searches: bool) -> Result<FewPivots<'a>, AllocError>
    ensures { IfOk result (λ f. f.triangle.rows ≡ book.now.rows) }
{
    let triangle = Triangle::of(alloc, book)?;
    Ok(FewPivots { triangle, searches })
}

// Pivots of a round in triangular order, to which none can be added: the leftmost ones, and those that one worker finds by levels.
pub(crate) fn all_pivots<'a>(alloc: Global, rows: &'a Rows) -> Result<Triangle<'a>, AllocError>
    ensures { IfOk result (λ t. t.rows ≡ rows.now) }
{
    let book = search_alone(alloc, leftmost(alloc, rows)?)?;
    let triangle = Triangle::of(alloc, &book)?;
    Ok(triangle)
}

// The rows of the pairs.
pub(crate) fn rows_of(alloc: Global, pairs: &[Pair]) -> Result<Vec<u32>, AllocError>
    ensures { IfOk result (λ rows. rows.items ≡ map (λ q. q.row) pairs.now) }
{
    pairs.iter().map(|q| q.row).collect(alloc)
}
