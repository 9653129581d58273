// How many entries rows and columns have.
ghost use Rattle.std.specs.Prelude.{IfOk};
ghost use Rattle.sparse_rows.specs.Rows.{AreWeights, transposed};

use crate::rows::Rows;
use matrix_cells::stores_every_row;
use std::alloc::{AllocError, Global};

impl Rows {
    /// The rows that have an entry, ascending, each behind how many it has: in time by the height where each row is stored, else by
    /// the rows that have an entry.
    pub fn row_weights(&self, alloc: Global) -> Result<Vec<(u32, u32)>, AllocError>
        ensures { IfOk result (λ weights. AreWeights self.now.matrix weights.items) }
    {
        let mut weights = Vec::new(alloc);
        // The proof that i + 1 is no overflow wants to know how high a matrix is.
        self.is_sound();
        let mut from = 0;
        while let Some(i) = self.next_filled(from) {
            weights.push((self.cols(i).len() as u32, i))?;
            from = i + 1;
        }
        Ok(weights)
    }

    /// The columns in which some row has an entry, ascending, each behind how many have one: in time by the entries and the width,
    /// and 8 bytes a column. Where only the rows that have an entry are stored, or the columns are many more than the entries, they
    /// are counted in the transposed matrix.
    pub fn column_weights(&self, alloc: Global) -> Result<Vec<(u32, u32)>, AllocError>
        ensures { IfOk result (λ weights. AreWeights (transposed self.now.matrix) weights.items) }
    {
        if self.every_row && stores_every_row(self.width(), self.entries() as usize) {
            return self.stored.column_weights(alloc);
        }
        let columns = self.transpose(alloc)?;
        columns.row_weights(alloc)
    }
}
