// A round whose pivots are found.
ghost use Rattle.std.specs.Prelude.{◌≡◌, IfOk};

use crate::occupancy::Occupancy;
use crate::policy::{SAMPLES, is_worth_sampling};
use schur_rows::{RowReducer, mean_rest};
use std::alloc::{AllocError, Global};
use triangular_solve::Triangle;

// The pivots of a round, and how much they leave.
#[derive(Debug, Drop)]
pub(crate) struct Round<'t, 'a> {
    pub(crate) reducer: RowReducer<'t, 'a>,
    // How many entries the matrix has.
    pub(crate) entries: u64,
    // How many rows and columns are left that have an entry before the round.
    pub(crate) rows: u64,
    pub(crate) columns: u64,
    // How many entries are left of a row, on average of samples, if these are worth their time.
    pub(crate) mean: Option<u64>,
}

impl<'t, 'a> Round<'t, 'a> {
    // The round of these pivots of a matrix of this occupancy, by so many workers.
    pub(crate) fn of(
        alloc: Global,
        triangle: &'t Triangle<'a>,
        occupancy: &Occupancy,
        workers: u32,
    ) -> Result<Round<'t, 'a>, AllocError>
        ensures { IfOk result (λ r. r.reducer ≡ triangle.now) }
    {
        let reducer = RowReducer::of(alloc, triangle, workers)?;
        let pivots = reducer.pairs().len() as u64;
        let mean = sampled_mean(alloc, &reducer)?;
        Ok(Round {
            reducer,
            entries: occupancy.entries,
            rows: occupancy.rows.saturating_sub(pivots),
            columns: occupancy.columns.saturating_sub(pivots),
            mean,
        })
    }

    // How many entries are left, by samples, if these are worth their time.
    pub(crate) fn left(&self) -> Option<u64> {
        let mean = self.mean?;
        Some(mean.saturating_mul(self.rows))
    }
}

// How many entries are left of a row, on average of samples, if these are worth their time.
fn sampled_mean(alloc: Global, reducer: &RowReducer) -> Result<Option<u64>, AllocError> {
    if !is_worth_sampling(reducer.rows()) {
        return Ok(None);
    }
    let mean = mean_rest(alloc, reducer, SAMPLES)?;
    Ok(Some(mean))
}
