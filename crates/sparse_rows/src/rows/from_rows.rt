// What is made of a matrix: others of its rows and columns, and its product with a column.
ghost use Rattle.column_lists.specs.declared.sizes.TheConstants.{LARGEST_SIZE};
ghost use Rattle.std.specs.Prelude.{◌≡◌, ◌<◌, ◌≤◌, ◌+◌, ◌-◌, ◌*◌, ◌%◌, ℕ, [], ◌++◌, length, false, if◌then◌else◌, slice_index, All, IfOk, OnOk};
ghost use Rattle.residue_words.specs.Matrix.{IsVector, apply, entry, row};
ghost use Rattle.residue_words.specs.Residues.{sum_below};
ghost use Rattle.column_lists.specs.Columns.{GoTo};
ghost use Rattle.sparse_rows.specs.Placed.{AgreeBelow, IsZeroBetween, HasRowAt};
ghost use Rattle.sparse_rows.specs.Rows.{AreEnough, AreEnoughInSomeOrder, beside, narrowed, selected, transposed, widened, with_zeros};
ghost use Rattle.column_lists.specs.Numbers.{AreRising};
ghost use Rattle.sparse_rows.specs.Stored.{with_row};

use crate::filled_in_either::FilledInEither;
use crate::rows::Rows;
use crate::sparse::Sparse;
use crate::stored_rows::StoredRows;
use matrix_cells::stores_every_row;
use std::alloc::{AllocError, Global};

impl Rows {
    /// These columns alone, which ascend and lie below the width, where all entries stand in them: in time by the entries, times a
    /// logarithm of how many columns are named, and the height.
    pub fn narrowed(&self, alloc: Global, columns: &[u32]) -> Result<Rows, AllocError>
        requires { AreEnough self.now.matrix columns.now }
        ensures modulus { IfOk result (λ rows. rows.modulus ≡ self.now.modulus) }
        ensures matrix { IfOk result (λ rows. rows.matrix ≡ narrowed self.now.matrix columns.now) }
    {
        // The proof wants that the stored rows are residues.
        self.stored.modulus();
        Ok(Rows {
            height: self.height,
            stored: self.stored.narrowed(alloc, columns)?,
            every_row: self.every_row,
            rows: Vec::from_slice(alloc, &self.rows)?,
        })
    }

    /// The matrix of this width that has the columns of this one at these columns, which ascend, and zeros elsewhere: in time
    /// by the entries and the height.
    pub fn widened(&self, alloc: Global, width: u32, columns: &[u32]) -> Result<Rows, AllocError>
        requires width { width ≤ LARGEST_SIZE }
        requires many { length columns.now ≡ self.now.matrix.width }
        requires rising { AreRising columns.now }
        requires below { (k : ℕ) → k < length columns.now → slice_index columns.now k < width }
        ensures modulus { IfOk result (λ rows. rows.modulus ≡ self.now.modulus) }
        ensures matrix { IfOk result (λ rows. rows.matrix ≡ widened self.now.matrix width columns.now) }
    {
        // The proof wants that the stored rows are residues.
        self.stored.modulus();
        Ok(Rows {
            height: self.height,
            stored: self.stored.widened(alloc, width, columns)?,
            every_row: self.every_row,
            rows: Vec::from_slice(alloc, &self.rows)?,
        })
    }

    /// The transposed matrix, in time proportional to the entries, the width and the height.
    pub fn transpose(&self, alloc: Global) -> Result<Rows, AllocError>
        ensures modulus { IfOk result (λ rows. rows.modulus ≡ self.now.modulus) }
        ensures matrix { IfOk result (λ rows. rows.matrix ≡ transposed self.now.matrix) }
    {
        // The proof wants that the stored rows are residues.
        self.stored.modulus();
        let width = self.stored.width();
        if stores_every_row(width, self.stored.entries() as usize) {
            let stored = self.stored.transpose(alloc)?;
            return Ok(Rows {
                height: width,
                stored: with_columns(alloc, stored, self.every_row, self.height, &self.rows)?,
                every_row: true,
                rows: Vec::new(alloc),
            });
        }
        let columns = self.stored.occupied(alloc)?;
        let stored = self.stored.narrowed(alloc, &columns)?.transpose(alloc)?;
        Ok(Rows {
            height: width,
            stored: with_columns(alloc, stored, self.every_row, self.height, &self.rows)?,
            every_row: false,
            rows: columns,
        })
    }

    /// The columns of these numbers as rows, in this order, where all entries stand in them: what transposing and then selecting give,
    /// in time proportional to the entries, the width and the height. Where each row is stored and the columns aren't many more than
    /// the entries, each entry is moved once.
    pub fn transpose_select(&self, alloc: Global, columns: &[u32]) -> Result<Rows, AllocError>
        requires many { length columns.now ≤ LARGEST_SIZE }
        requires columns { AreEnoughInSomeOrder self.now.matrix columns.now }
        ensures modulus { IfOk result (λ rows. rows.modulus ≡ self.now.modulus) }
        ensures matrix { IfOk result (λ rows. rows.matrix ≡ selected (transposed self.now.matrix) columns.now) }
    {
        if self.every_row && stores_every_row(self.width(), self.entries() as usize) {
            return Ok(Rows {
                height: columns.len() as u32,
                stored: self.stored.transpose_select(alloc, columns)?,
                every_row: true,
                rows: Vec::new(alloc),
            });
        }
        self.transpose(alloc)?.select(alloc, columns)
    }

    /// The rows of this matrix, each continued by the row of `right`: in time by the entries, times a logarithm of the rows that
    /// have an entry where those alone are stored, and by the height where each row is.
    pub fn beside(&self, alloc: Global, right: &Rows) -> Result<Rows, AllocError>
        requires heights { self.now.matrix.height ≡ right.now.matrix.height }
        requires moduli { self.now.modulus ≡ right.now.modulus }
        requires widths { self.now.matrix.width + right.now.matrix.width ≤ LARGEST_SIZE }
        ensures modulus { IfOk result (λ rows. rows.modulus ≡ self.now.modulus) }
        ensures matrix { IfOk result (λ rows. rows.matrix ≡ beside self.now.matrix right.now.matrix) }
    {
        // The call tells that `right` is a matrix of residues, and how high a matrix is.
        right.is_sound();
        let mut rows = self.room_beside(alloc, right)?;
        let mut row = Sparse::new(alloc, rows.width(), self.modulus());
        let mut filled = FilledInEither::of(self, right);
        while let Some(i) = filled.next_row() {
            self.row_beside(i, right, &mut row)?;
            rows.append_at(i, &row)?;
        }
        rows.append_zeros(self.height() - rows.height())?;
        Ok(rows)
    }

    /// The rows that are named, in that order.
    pub fn select(&self, alloc: Global, rows: &[u32]) -> Result<Rows, AllocError>
        requires many { length rows.now ≤ LARGEST_SIZE }
        requires inside { All (λ i. i < self.now.matrix.height) rows.now }
        ensures modulus { IfOk result (λ made. made.modulus ≡ self.now.modulus) }
        ensures matrix { IfOk result (λ made. made.matrix ≡ selected self.now.matrix rows.now) }
    {
        let room = self.entries_of(rows);
        let mut made = Rows::with_room(
            alloc,
            self.modulus(),
            self.width(),
            rows.len() as u32,
            room,
        )?;
        for i in rows {
            made.append_entries(self.cols(*i), self.vals(*i))?;
        }
        Ok(made)
    }

    /// The product with a column x.
    pub fn times(&self, alloc: Global, x: &[u64]) -> Result<Vec<u64>, AllocError>
        requires { IsVector self.now.modulus self.now.matrix.width x.now }
        ensures { IfOk result (λ y. y.items ≡ apply self.now.modulus self.now.matrix x.now) }
    {
        let mut y = Vec::with_capacity(alloc, self.height() as usize)?;
        for i in 0..self.height() {
            y.push(self.row_times(i, x))?;
        }
        Ok(y)
    }

    /// An equal matrix.
    pub fn copy(&self, alloc: Global) -> Result<Rows, AllocError>
        ensures { IfOk result (λ rows. rows ≡ self.now) }
    {
        Ok(Rows {
            height: self.height,
            stored: self.stored.copy(alloc)?,
            every_row: self.every_row,
            rows: Vec::from_slice(alloc, &self.rows)?,
        })
    }

    // How many entries these rows have together.
    fn entries_of(&self, rows: &[u32]) -> usize
        requires { All (λ i. i < self.now.matrix.height) rows.now }
    {
        let mut sum: usize = 0;
        for i in rows {
            sum = sum.saturating_add(self.cols(*i).len());
        }
        sum
    }

    // The matrix with no row that is as wide as both, and room for the rows and entries of both side by side.
    fn room_beside(&self, alloc: Global, right: &Rows) -> Result<Rows, AllocError>
        requires { self.now.matrix.width + right.now.matrix.width ≤ LARGEST_SIZE }
        ensures modulus { IfOk result (λ rows. rows.modulus ≡ self.now.modulus) }
        ensures matrix { IfOk result (λ rows. rows.matrix ≡ record {
          height = 0;
          width = self.now.matrix.width + right.now.matrix.width;
          rows = [];
        }) }
    {
        let width = self.width() + right.width();
        let entries = self.entries().saturating_add(right.entries()) as usize;
        Rows::with_room(alloc, self.modulus(), width, self.height(), entries)
    }

    // Appends rows of zeros up to row i, and this row there.
    fn append_at(&mut self, i: u32, row: &Sparse) -> Result<(), AllocError>
        requires low { self.old.matrix.height ≤ i }
        requires small { i < LARGEST_SIZE }
        requires modulus { row.now.modulus ≡ self.old.modulus }
        requires width { length row.now.row ≡ self.old.matrix.width }
        ensures modulus { self.new.modulus ≡ self.old.modulus }
        ensures matrix { OnOk result (self.new.matrix ≡
            with_row (with_zeros self.old.matrix (i - self.old.matrix.height)) row.now.row) }
    {
        self.append_zeros(i - self.height())?;
        self.append(row)
    }

    // Makes `to` the row i of this matrix, continued by that of `right`.
    fn row_beside(&self, i: u32, right: &Rows, to: &mut Sparse) -> Result<(), AllocError>
        requires row { i < self.now.matrix.height }
        requires heights { self.now.matrix.height ≡ right.now.matrix.height }
        requires moduli { self.now.modulus ≡ right.now.modulus }
        requires widths { self.now.matrix.width + right.now.matrix.width ≤ LARGEST_SIZE }
        requires modulus { to.old.modulus ≡ self.now.modulus }
        requires length { length to.old.row ≡ self.now.matrix.width + right.now.matrix.width }
        ensures modulus { to.new.modulus ≡ to.old.modulus }
        ensures length { length to.new.row ≡ length to.old.row }
        ensures row { OnOk result (to.new.row ≡ row self.now.matrix i ++ row right.now.matrix i) }
    {
        // The proof wants that both are matrices of residues.
        self.is_sound();
        right.is_sound();
        to.clear();
        self.copy_shifted(i, 0, to)?;
        right.copy_shifted(i, self.width(), to)?;
        Ok(())
    }

    // Sets the entries of `to` from `by` on to those of row i: `to` is 0 there and behind.
    fn copy_shifted(&self, i: u32, by: u32, to: &mut Sparse) -> Result<(), AllocError>
        requires row { i < self.now.matrix.height }
        requires modulus { to.old.modulus ≡ self.now.modulus }
        requires width { by + self.now.matrix.width ≤ length to.old.row }
        requires narrow { by + self.now.matrix.width ≤ LARGEST_SIZE }
        requires behind { IsZeroBetween by (length to.old.row) to.old.row }
        ensures modulus { to.new.modulus ≡ to.old.modulus }
        ensures length { length to.new.row ≡ length to.old.row }
        ensures before { OnOk result (AgreeBelow by to.old.row to.new.row) }
        ensures inside { OnOk result (HasRowAt by self.now.matrix i to.new.row) }
        ensures after { OnOk result (IsZeroBetween (by + self.now.matrix.width)
            (length to.old.row) to.new.row) }
    {
        self.is_sound();
        let cols = self.cols(i);
        let vals = self.vals(i);
        for k in 0..cols.len() {
            to.push(by + cols[k], vals[k])?;
        }
        Ok(())
    }

    // The product of row i with a column x.
    fn row_times(&self, i: u32, x: &[u64]) -> u64
        requires row { i < self.now.matrix.height }
        requires column { IsVector self.now.modulus self.now.matrix.width x.now }
        ensures { result ≡ sum_below self.now.matrix.width
            (λ j. entry self.now.matrix i j * slice_index x.now j) % self.now.modulus }
    {
        let modulus = self.modulus();
        let cols = self.cols(i);
        let vals = self.vals(i);
        let mut sum = 0;
        for k in 0..cols.len() {
            let product = modulus.mul(vals[k], x[cols[k] as usize]);
            sum = modulus.add(sum, product);
        }
        sum
    }
}

// The matrix itself, or, where not every row was stored, with its columns moved to where those rows belong.
fn with_columns(
    alloc: Global,
    stored: StoredRows,
    every_row: bool,
    height: u32,
    rows: &[u32],
) -> Result<StoredRows, AllocError>
    requires height { height ≤ LARGEST_SIZE }
    requires rows { every_row ≡ false → GoTo stored.matrix.width height rows.now }
    ensures modulus { IfOk result (λ made. made.modulus ≡ stored.modulus) }
    ensures matrix { IfOk result (λ made. made.matrix
        ≡ (if every_row then stored.matrix else widened stored.matrix height rows.now)) }
{
    if every_row {
        Ok(stored)
    } else {
        stored.widened(alloc, height, rows)
    }
}
