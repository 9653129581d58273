// A matrix that was measured.
ghost use Rattle.std.specs.Prelude.{◌≡◌, IfOk};

use crate::occupancy::Occupancy;
use sparse_rows::Rows;
use std::alloc::{AllocError, Global};

// A matrix with its occupancy, so that all that is decided on it goes over it once.
#[derive(Debug, Drop)]
pub(crate) struct Measured {
    pub(crate) rows: Rows,
    pub(crate) occupancy: Occupancy,
}

impl Measured {
    pub(crate) fn of(alloc: Global, rows: Rows) -> Result<Measured, AllocError>
        ensures { IfOk result (λ m. m.rows ≡ rows) }
    {
        let occupancy = Occupancy::of(alloc, &rows)?;
        Ok(Measured { rows, occupancy })
    }
}
