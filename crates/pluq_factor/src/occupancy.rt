// How many rows and columns of a matrix have an entry.
use sparse_rows::Rows;
use std::alloc::{AllocError, Global};

// The rows and columns that have an entry, and the entries: what the policy knows of a matrix.
#[derive(Clone, Copy, Debug)]
pub(crate) struct Occupancy {
    pub(crate) rows: u64,
    pub(crate) columns: u64,
    pub(crate) entries: u64,
}

impl Occupancy {
    // In time and memory by the entries.
    pub(crate) fn of(alloc: Global, rows: &Rows) -> Result<Occupancy, AllocError> {
        let filled = rows.filled(alloc)?;
        let occupied = rows.occupied(alloc)?;
        Ok(Occupancy {
            rows: filled.len() as u64,
            columns: occupied.len() as u64,
            entries: rows.entries(),
        })
    }

    // The places of the block that these rows and columns make.
    pub(crate) fn places(&self) -> u64 {
        self.rows.saturating_mul(self.columns)
    }
}
