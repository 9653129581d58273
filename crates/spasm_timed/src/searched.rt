// The structural pivots of a matrix, found in several ways.
ghost use Rattle.std.specs.Prelude.{◌≡◌, ◌<◌, ◌≤◌};

use crate::counts::Counts;
use crate::timing::{now, say, since};
use fl_pivots::leftmost;
use optimistic_search::{Open, Steps, search, search_by_walk, search_counted};
use pivot_table::Book;
use sparse_rows::Rows;
use std::alloc::{AllocError, Global};
use std::io;
use std::marker::Brand;
use std::sync::ledger::{Blank, Ledger};
use std::thread::Threads;
use std::time::Clock;
use triangular_solve::Triangle;

// Says how long the leftmost pivots, the search by so many workers and the triangular order take, and how many pivots the first two
// find.
pub(crate) fn time_pivots<R: Threads + Sync + Clock + Print>(
    rt: &R,
    alloc: Global,
    rows: &Rows,
    workers: u32,
) -> io::Result<()>
    requires some { 1 ≤ workers }
{
    let start = now(rt);
    let book = leftmost(alloc, rows)?;
    let begun = since(rt, start);
    time_search(rt, alloc, book, workers, begun)
}

// The same with the leftmost pivots, which took so long.
fn time_search<R: Threads + Sync + Clock + Print>(
    rt: &R,
    alloc: Global,
    book: Book<'_>,
    workers: u32,
    begun: Option<u128>,
) -> io::Result<()>
    requires some { 1 ≤ workers }
{
    let first = Some(book.pairs().len() as u128);
    let start = now(rt);
    let book = search(rt, alloc, book, workers, &Open)?;
    let searched = since(rt, start);
    let ordered = time_order(rt, alloc, &book)?;
    let all = Some(book.pairs().len() as u128);
    say(rt, begun, &[first, searched, all, ordered])
}

// How many microseconds the triangular order of pivots takes.
fn time_order<R: Clock>(
    rt: &R,
    alloc: Global,
    book: &Book<'_>,
) -> Result<Option<u128>, AllocError> {
    let start = now(rt);
    let _triangle = Triangle::of(alloc, book)?;
    Ok(since(rt, start))
}

// Says how long the search on a board by so many workers takes, how many pivots there are then, how many steps it takes, how often a
// worker was overtaken, and how many claims failed.
pub(crate) fn time_board<R: Threads + Sync + Clock + Print>(
    rt: &R,
    alloc: Global,
    rows: &Rows,
    workers: u32,
) -> io::Result<()>
    requires some { 1 ≤ workers }
{
    let counts = Counts::zero();
    let (time, all, steps) = on_board(rt, alloc, rows, workers, &counts)?;
    let failed = failed_claims(rows.height(), workers, counts.claimed());
    let (all, steps) = (Some(all as u128), Some(u128::from(steps)));
    let overtaken = Some(u128::from(counts.overtaken()));
    say(rt, time, &[all, steps, overtaken, Some(u128::from(failed))])
}

// How many microseconds the search on a board takes, how many pivots there are then, and how many steps it takes.
fn on_board<R: Threads + Sync + Clock>(
    rt: &R,
    alloc: Global,
    rows: &Rows,
    workers: u32,
    counts: &Counts,
) -> Result<(Option<u128>, usize, u64), AllocError>
    requires some { 1 ≤ workers }
{
    let book = leftmost(alloc, rows)?;
    let start = now(rt);
    let (book, steps) = search_counted(rt, alloc, book, workers, counts)?;
    let time = since(rt, start);
    Ok((time, book.pairs().len(), steps))
}

// How many claims failed where so many succeeded: each worker claims each row once.
fn failed_claims(height: u32, workers: u32, claimed: u64) -> u64 {
    (u64::from(height) * u64::from(workers)).saturating_sub(claimed)
}

// Says how long a search takes that walks from each row, how many pivots there are then, and how many steps it takes.
pub(crate) fn time_walks<R: Clock + Print>(rt: &R, alloc: Global, rows: &Rows) -> io::Result<()> {
    let start = now(rt);
    let (all, steps) = walked::<Brand>(alloc, rows, Blank::new(1))?;
    let time = since(rt, start);
    say(rt, time, &[Some(all as u128), Some(u128::from(steps))])
}

// How many pivots a search finds that walks from each row, and how many steps it takes.
fn walked<L: Ledger>(alloc: Global, rows: &Rows, blank: Blank) -> Result<(usize, u64), AllocError>
    requires name { blank.name ≡ L.name }
    requires parts { blank.parts ≡ L.parts }
    requires some { 0 < blank.parts }
{
    let mut steps = Steps::<L>::new(blank);
    let book = search_by_walk(alloc, leftmost(alloc, rows)?, &mut steps)?;
    Ok((book.pairs().len(), steps.count()))
}
