// The rank of a matrix, and the structural rounds that lead to it.
ghost use Rattle.std.specs.Prelude.{◌≡◌, ◌≤◌};

use crate::timing::{now, say, since};
use crew::Threaded;
use fl_pivots::leftmost;
use optimistic_search::{Open, search_counted};
use pluq_factor::{Plan, rank};
use schur_rows::{RowReducer, complement};
use sparse_rows::Rows;
use std::alloc::{AllocError, Global};
use std::io;
use std::thread::Threads;
use std::time::Clock;
use triangular_solve::Triangle;

// Says how long the whole rank takes, and the rank; and then of each of so many rounds, at least one, how long its pivots take and how
// many they are, how long the complement takes, and of what size it is and how many entries it has.
pub(crate) fn time_rounds<R: Threads + Sync + Clock + Print>(
    rt: &R,
    alloc: Global,
    rows: &Rows,
    plan: Plan,
) -> io::Result<()>
    requires some { 1 ≤ plan.workers }
{
    time_rank(rt, alloc, rows, plan)?;
    let mut rest = time_round(rt, alloc, rows, plan.workers)?;
    for _round in 1..plan.rounds {
        rest = time_round(rt, alloc, &rest, plan.workers)?;
    }
    Ok(())
}

// Says how long the rank takes, and the rank.
fn time_rank<R: Threads + Sync + Clock + Print>(
    rt: &R,
    alloc: Global,
    rows: &Rows,
    plan: Plan,
) -> io::Result<()>
    requires some { 1 ≤ plan.workers }
{
    let start = now(rt);
    let rank = rank(&Threaded::of(rt), alloc, rows, plan)?;
    let time = since(rt, start);
    say(rt, time, &[Some(u128::from(rank))])
}

// Takes one round, and says how long that takes. One worker finds its pivots, so that they are the same for every number of workers.
fn time_round<R: Threads + Sync + Clock + Print>(
    rt: &R,
    alloc: Global,
    rows: &Rows,
    workers: u32,
) -> io::Result<Rows>
    requires some { 1 ≤ workers }
{
    let start = now(rt);
    let triangle = pivots(rt, alloc, rows)?;
    let search = since(rt, start);
    time_complement(rt, alloc, &triangle, workers, search)
}

// Takes what pivots leave that took so long, and says what there is to say of the round.
fn time_complement<R: Threads + Sync + Clock + Print>(
    rt: &R,
    alloc: Global,
    triangle: &Triangle<'_>,
    workers: u32,
    search: Option<u128>,
) -> io::Result<Rows>
    requires some { 1 ≤ workers }
{
    let start = now(rt);
    let rest = left(rt, alloc, triangle, workers)?;
    let elimination = since(rt, start);
    say_round(
        rt,
        alloc,
        [search, elimination],
        triangle.pairs().len(),
        &rest,
    )?;
    Ok(rest)
}

// What pivots leave.
fn left<R: Threads + Sync>(
    rt: &R,
    alloc: Global,
    triangle: &Triangle<'_>,
    workers: u32,
) -> Result<Rows, AllocError>
    requires some { 1 ≤ workers }
{
    let reducer = RowReducer::of(alloc, triangle, workers)?;
    complement(&Threaded::of(rt), alloc, &reducer, workers)
}

// Says how long a round's search and its complement took, how many pivots it found, and how many rows, columns and entries it left.
fn say_round<R: Print>(
    rt: &R,
    alloc: Global,
    [search, elimination]: [Option<u128>; 2],
    found: usize,
    rest: &Rows,
) -> io::Result<()> {
    let height = rest.filled(alloc)?.len() as u128;
    let width = rest.occupied(alloc)?.len() as u128;
    let entries = u128::from(rest.entries());
    let found = Some(found as u128);
    say(
        rt,
        search,
        &[found, elimination, Some(height), Some(width), Some(entries)],
    )
}

// The pivots of a round in triangular order.
fn pivots<'a, R: Threads + Sync>(
    rt: &R,
    alloc: Global,
    rows: &'a Rows,
) -> Result<Triangle<'a>, AllocError> {
    let (book, _steps) = search_counted(rt, alloc, leftmost(alloc, rows)?, 1, &Open)?;
    Triangle::of(alloc, &book)
}
