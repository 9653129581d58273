// Whether flat rows are cheaper than walks, by samples.
ghost use Rattle.std.specs.Prelude.{◌≡◌, IfOk};

use crate::row_entries::RowEntries;
use crate::triangle::Triangle;
use crate::work::Work;
use std::alloc::{AllocError, Global};

// How many rows are reduced to see what it costs.
const SAMPLES: u64 = 32;

// Making an entry of a flat row takes the time in which a walk meets so many entries.
const MET_AN_ENTRY: u64 = 6;

// Making a flat row without entries takes the time in which a walk meets so many.
const MET_A_ROW: u64 = 8;

// Flat rows may have so many times the entries of the matrix and one for each pivot.
const TIMES_THE_MATRIX: u64 = 16;

// What walks from all rows would meet, and how many entries flat rows would have.
#[derive(Clone, Copy, Debug)]
pub(crate) struct FlatEstimate {
    met: u64,
    flat: u64,
    pivots: u64,
    entries: u64,
}

impl FlatEstimate {
    // By rows spread over the matrix. A flat row has about as many entries as a row that is reduced.
    pub(crate) fn of(alloc: Global, triangle: &Triangle) -> Result<FlatEstimate, AllocError> {
        let rows = triangle.rows();
        let height = u64::from(rows.height());
        let pivots = triangle.pairs().len() as u64;
        let filled = height.min(rows.entries());
        let others = filled.saturating_sub(pivots).max(1);
        let mut work = Work::new(alloc, triangle)?;
        let mut met: u64 = 0;
        let mut left: u64 = 0;
        for k in 0..SAMPLES {
            let from = (k * height / SAMPLES) as u32;
            if let Some(i) = rows.next_filled(from) {
                let row = RowEntries {
                    cols: rows.cols(i),
                    vals: rows.vals(i),
                };
                let counts = work.count(alloc, triangle.pivot_rows(), row)?;
                met = met.saturating_add(counts.met);
                left = left.saturating_add(counts.left);
            }
        }
        Ok(FlatEstimate {
            met: met.saturating_mul(filled) / SAMPLES,
            flat: (left.saturating_mul(filled) / SAMPLES / others).saturating_mul(pivots),
            pivots,
            entries: rows.entries(),
        })
    }

    // Whether flat rows are cheaper, which one worker makes, while so many would share the walks; and small enough.
    pub(crate) fn is_cheaper(&self, workers: u32) -> bool {
        let rows = self.pivots.saturating_mul(MET_A_ROW);
        let entries = self.flat.saturating_mul(MET_AN_ENTRY);
        self.met_by_each(workers) >= rows.saturating_add(entries) && self.flat <= self.most(workers)
    }

    // How many entries flat rows may have before they are given up.
    pub(crate) fn most(&self, workers: u32) -> u64 {
        let matrix = self.entries.saturating_add(self.pivots);
        let by_each = self.met_by_each(workers) / 4;
        matrix.saturating_mul(TIMES_THE_MATRIX).min(by_each)
    }

    // How many entries each of so many workers would meet by walks.
    fn met_by_each(&self, workers: u32) -> u64 {
        self.met / u64::from(workers.max(1))
    }
}
