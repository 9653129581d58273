// How full what a round leaves is, by samples.
ghost use Rattle.std.specs.Prelude.{◌≡◌, ◌<◌, ◌≤◌};
ghost use Rattle.triangular_solve.specs.Reduced.{HasSizesOf, workspace_of};
ghost use Rattle.schur_rows.specs.PivotNumbers.{HasNumbers};

use crate::pivot_numbers::PivotNumbers;
use crate::row_ranges::next_without_pivot;
use crate::row_reducer::RowReducer;
use std::alloc::{AllocError, Global};
use triangular_solve::{Reduced, Triangle, Work};

// How many rows are reduced to see how much room they take.
const SAMPLES: u32 = 16;

// Room for more entries than these isn't asked for at once: 192 MB.
const MOST: u64 = 1 << 24;

/// How many entries the pivots leave of a row, on average of so many rows: these are spread over the matrix, have an entry and are
/// no pivot's. No clause covers the number.
pub fn mean_rest(alloc: Global, reducer: &RowReducer, samples: u32) -> Result<u64, AllocError>
    requires { 1 ≤ samples }
{
    let pivot_rows = PivotNumbers::of(alloc, reducer)?;
    mean_of(alloc, reducer, &pivot_rows, samples, false)
}

/// How many entries the pivots leave of a row and how many coefficients it takes, together, on average of so many rows, chosen as for
/// `mean_rest`. No clause covers the number.
pub fn mean_reduced(alloc: Global, triangle: &Triangle, samples: u32) -> Result<u64, AllocError>
    requires { 1 ≤ samples }
{
    let reducer = RowReducer::by_walks(triangle);
    let pivot_rows = PivotNumbers::of(alloc, &reducer)?;
    mean_of(alloc, &reducer, &pivot_rows, samples, true)
}

// Room for the entries that the pivots leave in all: for twice as many as samples tell, so that it is seldom too small and what is left
// isn't moved, while room that stays empty costs nothing; and for no more than `MOST`, whatever the samples say.
pub(crate) fn total_left(
    alloc: Global,
    reducer: &RowReducer,
    pivot_rows: &PivotNumbers,
) -> Result<u64, AllocError>
    requires { HasNumbers reducer.now.pairs pivot_rows.now }
{
    let mean = mean_of(alloc, reducer, pivot_rows, SAMPLES, false)?;
    let others = pivot_rows.len().saturating_sub(reducer.pairs().len()) as u64;
    let total = mean.saturating_add(1).saturating_mul(others);
    Ok(total.saturating_mul(2).min(MOST))
}

// The mean where the pivots' rows are known, with the coefficients if they are wanted.
fn mean_of(
    alloc: Global,
    reducer: &RowReducer,
    pivot_rows: &PivotNumbers,
    samples: u32,
    with_coefficients: bool,
) -> Result<u64, AllocError>
    requires some { 1 ≤ samples }
    requires numbers { HasNumbers reducer.now.pairs pivot_rows.now }
{
    let height = reducer.rows().height();
    let mut work = reducer.work(alloc)?;
    let mut reduced = reducer.room(alloc);
    let mut sum: u64 = 0;
    for k in 0..samples {
        let from = begin_of(k, samples, height);
        if let Some(i) = next_without_pivot(reducer, pivot_rows, from) {
            let entries = entries_left(
                alloc,
                reducer,
                i,
                with_coefficients,
                &mut work,
                &mut reduced,
            )?;
            sum = sum.saturating_add(entries as u64);
        }
    }
    Ok(sum / u64::from(samples))
}

// From which row on the k-th of so many samples is taken.
fn begin_of(k: u32, samples: u32, height: u32) -> u32
    requires { k < samples }
{
    (u64::from(k) * u64::from(height) / u64::from(samples)) as u32
}

// How many entries are left of row i, and coefficients if they are wanted; they stand in `reduced`.
fn entries_left(
    alloc: Global,
    reducer: &RowReducer,
    i: u32,
    with_coefficients: bool,
    work: &mut Work,
    reduced: &mut Reduced,
) -> Result<usize, AllocError>
    requires row { i < reducer.now.rows.matrix.height }
    requires work { work.old ≡ workspace_of reducer.now }
    requires sizes { HasSizesOf reducer.now reduced.old }
    ensures work { work.new ≡ work.old }
    ensures sizes { HasSizesOf reducer.now reduced.new }
{
    let rows = reducer.rows();
    // The call's contract tells that the entries are residues.
    rows.is_sound();
    if with_coefficients {
        reducer.reduce(alloc, rows.cols(i), rows.vals(i), work, reduced)?;
    } else {
        reducer.rest(alloc, rows.cols(i), rows.vals(i), work, &mut reduced.rest)?;
    }
    Ok(entries_of(reduced))
}

// How many entries both rows have.
fn entries_of(reduced: &Reduced) -> usize {
    let rest = reduced.rest.cols().len();
    rest.saturating_add(reduced.coefficients.cols().len())
}
