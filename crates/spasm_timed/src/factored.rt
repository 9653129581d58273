// The factors of a matrix.
ghost use Rattle.std.specs.Prelude.{◌≤◌};

use crate::timing::{now, say, since};
use dense_finish::finish;
use sparse_rows::Rows;
use std::alloc::Global;
use std::io;
use std::thread::Threads;
use std::time::Clock;

// Says how long the factors take by so many workers, and the rank.
pub(crate) fn time_factors<R: Threads + Sync + Clock + Print>(
    rt: &R,
    alloc: Global,
    rows: &Rows,
    workers: u32,
) -> io::Result<()>
    requires some { 1 ≤ workers }
{
    let start = now(rt);
    let factors = finish(rt, alloc, rows, workers)?;
    let time = since(rt, start);
    say(rt, time, &[Some(factors.pivots.items().len() as u128)])
}
