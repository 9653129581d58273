// One kept row.
ghost use Rattle.std.specs.Prelude.{◌≡◌, ◌<◌, ◌≤◌, ◌+◌, ◌++◌, length, slice_index, IfOk};
ghost use Rattle.residue_words.specs.Matrix.{zeros};
ghost use Rattle.sparse_rows.specs.Rows.{support, LARGEST_SIZE};
ghost use Rattle.lead_rows.specs.Led.{IsTailOf};

use sparse_rows::Sparse;
use std::alloc::{AllocError, Global};

// A row whose first entry is 1 and stands at `lead`: what follows it.
#[derive(Debug, Drop)]
pub(crate) struct Led {
    pub lead: u32,
    pub tail: Sparse,
}

impl Led {
    // A row that is not 0, divided by its first entry.
    pub(crate) fn divided(alloc: Global, row: &Sparse) -> Result<Led, AllocError>
        requires { 0 < length (support row.now.row) }
        ensures lead { IfOk result (λ led. led.lead ≡ slice_index (support row.now.row) 0) }
        ensures modulus { IfOk result (λ led. led.tail.modulus ≡ row.now.modulus) }
        ensures tail { IfOk result (λ led. IsTailOf row.now.modulus row.now.row led.lead led.tail.row) }
    {
        let cols = row.cols();
        let vals = row.vals();
        let modulus = row.modulus();
        let factor = modulus.inv(vals[0]);
        let mut tail = Sparse::new(alloc, row.width(), modulus);
        for k in 1..cols.len() {
            let value = modulus.mul(factor, vals[k]);
            // Modulo a number that is no prime, a product may be 0 where neither factor is.
            if value > 0 {
                tail.push(cols[k], value)?;
            }
        }
        Ok(Led {
            lead: cols[0],
            tail,
        })
    }

    // The row behind so many columns more, where it is 0.
    pub(crate) fn behind_zeros(&self, alloc: Global, count: u32) -> Result<Led, AllocError>
        requires width { count + length self.now.tail.row ≤ LARGEST_SIZE }
        requires lead { self.now.lead < length self.now.tail.row }
        ensures lead { IfOk result (λ led. led.lead ≡ count + self.now.lead) }
        ensures modulus { IfOk result (λ led. led.tail.modulus ≡ self.now.tail.modulus) }
        ensures tail { IfOk result (λ led. led.tail.row ≡ zeros count ++ self.now.tail.row) }
    {
        let (cols, vals) = (self.tail.cols(), self.tail.vals());
        let width = count + self.tail.width();
        let mut tail = Sparse::with_room(alloc, width, self.tail.modulus(), cols.len())?;
        for k in 0..cols.len() {
            tail.push(count + cols[k], vals[k])?;
        }
        Ok(Led {
            lead: count + self.lead,
            tail,
        })
    }
}
