// Matrices that C passes.
ghost use Rattle.std.specs.Prelude.{◌≡◌, ◌<◌, ◌+◌, length, IfNone, IfOk, IfSome, IsFalse, IsTrue};
ghost use Rattle.spasm_c.specs.Given.{EntryFits, IsBefore, IsInOrder, IsSoundInput, given_matrix};

use residue_words::{MODULUS_BOUND, Modulus};
use sparse_rows::{LARGEST_SIZE, Rows, RowsBuilder};
use std::alloc::{AllocError, Global};

/// A matrix as C passes it, by three arrays of one length: the entries in any order, of which those at one place are added up.
#[derive(Drop)]
#[repr(C)]
pub struct Given<'a> {
    /// The row of each entry, from 0.
    pub rows: &'a [u32],
    /// The column of each, from 0.
    pub columns: &'a [u32],
    /// The value of each, below the modulus.
    pub values: &'a [u64],
    /// How many rows the matrix has, at most 2^31.
    pub height: u32,
    /// How many columns, at most 2^31.
    pub width: u32,
    /// The modulus, from 2 to 2^48 - 1.
    pub modulus: u64,
}

impl Given<'_> {
    // The matrix; `None` if the arrays aren't sound. Entries in order are copied as they stand; others are sorted.
    pub(crate) fn matrix(&self, alloc: Global) -> Result<Option<Rows>, AllocError>
        ensures none { IfOk result (λ found. IfNone found (¬ IsSoundInput self.now)) }
        ensures sound { IfOk result (λ found. IfSome found (λ _. IsSoundInput self.now)) }
        ensures some { IfOk result (λ found. IfSome found (λ rows. rows ≡ record {
          modulus = self.now.modulus;
          matrix = given_matrix self.now;
        })) }
    {
        if !self.is_sound() {
            return Ok(None);
        }
        let rows = if self.is_in_order() {
            self.copied(alloc)?
        } else {
            self.summed(alloc)?
        };
        Ok(Some(rows))
    }

    // Whether the arrays have one length, and modulus, sizes and entries are in range.
    fn is_sound(&self) -> bool
        ensures yes { IsTrue result → IsSoundInput self.now }
        ensures no { IsFalse result → ¬ IsSoundInput self.now }
    {
        if self.columns.len() != self.rows.len() || self.values.len() != self.rows.len() {
            return false;
        }
        if self.modulus < 2 || self.modulus >= MODULUS_BOUND {
            return false;
        }
        if self.height > LARGEST_SIZE || self.width > LARGEST_SIZE {
            return false;
        }
        // Without an early exit, so that vector registers can take several entries at once.
        let mut sound = true;
        for k in 0..self.rows.len() {
            let fits = self.fits(k);
            sound = sound && fits;
        }
        sound
    }

    // Whether this entry lies inside.
    fn fits(&self, k: usize) -> bool
        requires row { k < length self.now.rows.now }
        requires column { k < length self.now.columns.now }
        requires value { k < length self.now.values.now }
        ensures yes { IsTrue result → EntryFits self.now k }
        ensures no { IsFalse result → ¬ EntryFits self.now k }
    {
        let (row, column, value) = (self.rows[k], self.columns[k], self.values[k]);
        row < self.height && column < self.width && value < self.modulus
    }

    // Whether the entries ascend by rows and, within a row, by columns, and none is 0.
    fn is_in_order(&self) -> bool
        requires { IsSoundInput self.now }
        ensures { IsTrue result → IsInOrder self.now }
    {
        if self.rows.is_empty() {
            return true;
        }
        // Without an early exit, as above.
        let mut ordered = self.values[0] != 0;
        for k in 1..self.rows.len() {
            let (before, nonzero) = (self.is_before_next(k - 1), self.values[k] != 0);
            ordered = ordered && before && nonzero;
        }
        ordered
    }

    // Whether this entry stands before the next.
    fn is_before_next(&self, k: usize) -> bool
        requires sound { IsSoundInput self.now }
        requires inside { k + 1 < length self.now.rows.now }
        ensures { IsTrue result → IsBefore self.now k (k + 1) }
    {
        let (row, next_row) = (self.rows[k], self.rows[k + 1]);
        let (column, next_column) = (self.columns[k], self.columns[k + 1]);
        row < next_row || (row == next_row && column < next_column)
    }

    // The matrix of entries in order.
    fn copied(&self, alloc: Global) -> Result<Rows, AllocError>
        requires sound { IsSoundInput self.now }
        requires order { IsInOrder self.now }
        ensures { IfOk result (λ rows. rows ≡ record {
          modulus = self.now.modulus;
          matrix = given_matrix self.now;
        }) }
    {
        let rows = Rows::from_entries_in_order(
            alloc,
            Modulus::new(self.modulus),
            self.height,
            self.width,
            self.rows,
            self.columns,
            self.values,
        )?;
        Ok(rows)
    }

    // The matrix of entries in any order.
    fn summed(&self, alloc: Global) -> Result<Rows, AllocError>
        requires { IsSoundInput self.now }
        ensures { IfOk result (λ rows. rows ≡ record {
          modulus = self.now.modulus;
          matrix = given_matrix self.now;
        }) }
    {
        let modulus = Modulus::new(self.modulus);
        let mut builder = RowsBuilder::new(alloc, self.height, self.width, modulus)?;
        for k in 0..self.rows.len() {
            builder.push(self.rows[k], self.columns[k], self.values[k])?;
        }
        let rows = builder.finish()?;
        Ok(rows)
    }
}
