// Rows one after another: of each the columns of its entries and their values.
ghost use Rattle.residue_words.specs.declared.modulus.TheConstants.{MODULUS_BOUND};
ghost use Rattle.column_lists.specs.declared.sizes.TheConstants.{LARGEST_SIZE};
ghost use Rattle.std.specs.Prelude.{◌≡◌, ◌<◌, ◌≤◌, ◌+◌, ◌^◌, ℕ, [], length, slice_index, All, IfOk, OnErr, OnOk};
ghost use Rattle.std.specs.Option.{MatchOption};
ghost use Rattle.residue_words.specs.Matrix.{IsMatrix, row};
ghost use Rattle.matrix_cells.specs.Cells.{AreEntries, IsWithin, place_of, weight};
ghost use Rattle.sparse_rows.specs.Cells.{matrix_of_cells};
ghost use Rattle.sparse_rows.specs.Rows.{above, AreEnough, AreEnoughInSomeOrder, AreOccupied, AreWeights, AreZeroFrom, IsNextFilled, entry_count, matrix_by, narrowed, nonzeros, selected, support, transposed, widened, with_zeros};
ghost use Rattle.column_lists.specs.Numbers.{AreBelow, AreRising};
ghost use Rattle.sparse_rows.specs.Stored.{IsSparse, IsStored, spread, stored_matrix, with_row, with_sparse_row};

use crate::entry_room::{EntryRoom, write_behind};
use column_lists::{
    RowParts, all_starts, append_starts, by_parts, counts, named_columns, occurring, part,
    places_among, starts_in_order,
};
use matrix_cells::{Cell, OrderedCells, columns, row_starts, values};
use residue_words::Modulus;
use std::alloc::{AllocError, Global};
use std::marker::Model;

// Rows one after another, each by the columns with a nonzero entry, ascending, and the entries there. It takes 12 bytes an entry
// and 8 bytes a row.
#[derive(Debug, Drop)]
pub(crate) struct StoredRows {
    modulus: Modulus,
    width: u32,
    starts: Vec<usize>,
    cols: Vec<u32>,
    vals: Vec<u64>,
}

impl Model for StoredRows {
    ghost use Rattle.sparse_rows.specs.Rows.{ResidueMatrix};
    ghost use Rattle.sparse_rows.specs.Stored.{IsStored, stored_matrix};

    ghost Value = { ResidueMatrix };

    ghost view = { λ r. record {
      modulus = r.modulus;
      matrix = stored_matrix r.width r.starts.items r.cols.items r.vals.items;
    } };

    ghost invariant = { λ r. IsStored r.modulus r.width r.starts.items r.cols.items r.vals.items };
}

impl StoredRows {
    // The matrix with no row, and room for these rows, with the entries in this memory.
    pub(crate) fn in_room(
        alloc: Global,
        modulus: Modulus,
        width: u32,
        height: u32,
        mut room: EntryRoom,
    ) -> Result<StoredRows, AllocError>
        requires width_small { width ≤ LARGEST_SIZE }
        requires height_small { height ≤ LARGEST_SIZE }
        ensures modulus { IfOk result (λ rows. rows.modulus ≡ modulus) }
        ensures matrix { IfOk result (λ rows. rows.matrix ≡ record { height = 0; width = width; rows = [] }) }
    {
        // The call tells the range of the modulus.
        modulus.is_sound();
        let mut starts = Vec::with_capacity(alloc, height as usize + 1)?;
        starts.push(0)?;
        room.cols.clear();
        room.vals.clear();
        Ok(StoredRows {
            modulus,
            width,
            starts,
            cols: room.cols,
            vals: room.vals,
        })
    }

    // Appends the row that these columns and values stand for. After an `Err` the matrix is as before.
    pub(crate) fn append_slices(&mut self, cols: &[u32], vals: &[u64]) -> Result<(), AllocError>
        requires height_small { self.old.matrix.height < LARGEST_SIZE }
        requires sparse { IsSparse self.old.modulus self.old.matrix.width cols.now vals.now }
        ensures modulus { self.new.modulus ≡ self.old.modulus }
        ensures matrix { OnOk result (self.new.matrix ≡ with_sparse_row self.old.matrix cols.now vals.now) }
        ensures err { OnErr result (self.new.matrix ≡ self.old.matrix) }
    {
        self.starts.reserve(1)?;
        self.vals.reserve(vals.len())?;
        self.cols.extend_from_slice(cols)?;
        self.vals.extend_from_slice(vals)?;
        self.starts.push(self.cols.len())?;
        Ok(())
    }

    // Appends the rows of another matrix, block by block. Where memory is wanted the matrix is as before.
    pub(crate) fn append_all(&mut self, from: &StoredRows) -> Result<(), AllocError>
        requires modulus { self.old.modulus ≡ from.now.modulus }
        requires width { self.old.matrix.width ≡ from.now.matrix.width }
        requires height_small { self.old.matrix.height + from.now.matrix.height ≤ LARGEST_SIZE }
        ensures modulus { self.new.modulus ≡ self.old.modulus }
        ensures matrix { OnOk result (self.new.matrix ≡ above self.old.matrix from.now.matrix) }
        ensures err { OnErr result (self.new.matrix ≡ self.old.matrix) }
    {
        self.cols.reserve(from.cols.len())?;
        self.vals.reserve(from.vals.len())?;
        append_starts(&mut self.starts, &from.starts, self.cols.len())?;
        self.cols.extend_from_slice(&from.cols)?;
        self.vals.extend_from_slice(&from.vals)?;
        Ok(())
    }

    // Writes to the memory of so many more entries, as far as there is room, before they are appended.
    pub(crate) fn write_ahead(&mut self, entries: usize)
        ensures { self.new ≡ self.old }
    {
        write_behind(&mut self.cols, entries, 0);
        write_behind(&mut self.vals, entries, 0);
    }

    // Appends this many rows of zeros. Where memory is wanted the matrix is as before.
    pub(crate) fn append_zeros(&mut self, count: u32) -> Result<(), AllocError>
        requires height_small { self.old.matrix.height + count ≤ LARGEST_SIZE }
        ensures modulus { self.new.modulus ≡ self.old.modulus }
        ensures matrix { OnOk result (self.new.matrix ≡ with_zeros self.old.matrix count) }
        ensures err { OnErr result (self.new.matrix ≡ self.old.matrix) }
    {
        let rows = self.starts.len() + count as usize;
        self.starts.resize(rows, self.cols.len())?;
        Ok(())
    }

    // The matrix with these entries, which ascend by places. It takes 12 bytes an entry and 8 bytes a row.
    pub(crate) fn from_cells(
        alloc: Global,
        modulus: Modulus,
        height: u32,
        width: u32,
        cells: &[Cell],
    ) -> Result<StoredRows, AllocError>
        requires height_small { height ≤ LARGEST_SIZE }
        requires width_small { width ≤ LARGEST_SIZE }
        requires within { All (IsWithin height width) cells.now }
        requires entries { AreEntries modulus cells.now }
        ensures modulus { IfOk result (λ rows. rows.modulus ≡ modulus) }
        ensures matrix { IfOk result (λ rows. rows.matrix ≡ matrix_of_cells height width cells.now) }
    {
        // The call tells the range of the modulus.
        modulus.is_sound();
        Ok(StoredRows {
            modulus,
            width,
            starts: row_starts(alloc, height, cells)?,
            cols: columns(alloc, cells)?,
            vals: values(alloc, cells)?,
        })
    }

    // The same of entries that are kept as rows, none of which is copied.
    pub(crate) fn from_ordered(
        modulus: Modulus,
        height: u32,
        width: u32,
        cells: OrderedCells,
    ) -> Result<StoredRows, AllocError>
        requires height_small { height ≤ LARGEST_SIZE }
        requires width_small { width ≤ LARGEST_SIZE }
        requires within { All (IsWithin height width) cells }
        requires entries { AreEntries modulus cells }
        ensures modulus { IfOk result (λ rows. rows.modulus ≡ modulus) }
        ensures matrix { IfOk result (λ rows. rows.matrix ≡ matrix_of_cells height width cells) }
    {
        // The call tells the range of the modulus.
        modulus.is_sound();
        let parts = cells.into_rows(height)?;
        Ok(StoredRows {
            modulus,
            width,
            starts: parts.starts,
            cols: parts.cols,
            vals: parts.vals,
        })
    }

    // The rows that begin at these places, with these columns and values.
    pub(crate) fn of_parts(modulus: Modulus, width: u32, parts: RowParts) -> StoredRows
        requires { IsStored modulus width parts.starts.items parts.cols.items parts.vals.items }
        ensures modulus { result.modulus ≡ modulus }
        ensures matrix { result.matrix
            ≡ stored_matrix width parts.starts.items parts.cols.items parts.vals.items }
    {
        StoredRows {
            modulus,
            width,
            starts: parts.starts,
            cols: parts.cols,
            vals: parts.vals,
        }
    }

    // How many rows the matrix has.
    pub(crate) fn height(&self) -> u32
        ensures value { result ≡ self.now.matrix.height }
        ensures bound { result ≤ LARGEST_SIZE }
        ensures sound { IsMatrix self.now.modulus self.now.matrix }
    {
        (self.starts.len() - 1) as u32
    }

    // How many columns the matrix has.
    pub(crate) fn width(&self) -> u32
        ensures value { result ≡ self.now.matrix.width }
        ensures bound { result ≤ LARGEST_SIZE }
    {
        self.width
    }

    // The modulus of the residues.
    pub(crate) fn modulus(&self) -> Modulus
        ensures value { result ≡ self.now.modulus }
        ensures two_or_more { 2 ≤ result }
        ensures in_range { result < MODULUS_BOUND }
        ensures sound { IsMatrix self.now.modulus self.now.matrix }
    {
        self.modulus
    }

    // How many entries are not 0.
    pub(crate) fn entries(&self) -> u64
        ensures { result ≡ entry_count self.now.matrix }
    {
        self.cols.len() as u64
    }

    // The columns of the nonzero entries of row i, ascending.
    pub(crate) fn cols(&self, i: u32) -> &[u32]
        requires { i < self.now.matrix.height }
        ensures support { result.now ≡ support (row self.now.matrix i) }
        ensures same_length { length result.now ≡ length (nonzeros (row self.now.matrix i)) }
        ensures below_width { AreBelow self.now.matrix.width result.now }
        ensures ascending { AreRising result.now }
    {
        part(&self.cols, &self.starts, i as usize)
    }

    // The nonzero entries of row i, by ascending columns.
    pub(crate) fn vals(&self, i: u32) -> &[u64]
        requires { i < self.now.matrix.height }
        ensures values { result.now ≡ nonzeros (row self.now.matrix i) }
        ensures same_length { length result.now ≡ length (support (row self.now.matrix i)) }
        ensures positive { (k : ℕ) → k < length result.now → 0 < slice_index result.now k }
        ensures residues { (k : ℕ) → k < length result.now → slice_index result.now k < self.now.modulus }
    {
        part(&self.vals, &self.starts, i as usize)
    }

    // The first row from `from` on that has an entry, if there is one. It takes no memory.
    pub(crate) fn next_filled(&self, from: u32) -> Option<u32>
        ensures { MatchOption result (AreZeroFrom self.now.matrix from) (IsNextFilled self.now.matrix from) }
    {
        for i in from..self.height() {
            if !self.cols(i).is_empty() {
                return Some(i);
            }
        }
        None
    }

    // The columns in which some row has an entry, ascending: in time and memory by the entries, times a logarithm where the
    // matrix is much wider than it has entries.
    pub(crate) fn occupied(&self, alloc: Global) -> Result<Vec<u32>, AllocError>
        ensures { IfOk result (λ columns. AreOccupied self.now.matrix columns.items) }
    {
        occurring(alloc, self.width, &self.cols)
    }

    // The columns in which some row has an entry, ascending, each behind how many have one: in time by the entries and the width, and
    // 8 bytes a column.
    pub(crate) fn column_weights(&self, alloc: Global) -> Result<Vec<(u32, u32)>, AllocError>
        ensures { IfOk result (λ weights. AreWeights (transposed self.now.matrix) weights.items) }
    {
        // The contract of this call bounds how many rows have an entry in a column.
        self.height();
        let counts = counts(alloc, self.width, &self.cols)?;
        let mut weights = Vec::new(alloc);
        for j in 0..self.width {
            let count = counts[j as usize];
            if count != 0 {
                weights.push((count as u32, j))?;
            }
        }
        Ok(weights)
    }

    // These columns alone, where all entries stand in them: in time by the entries, times a logarithm of how many columns
    // are named, and the height.
    pub(crate) fn narrowed(&self, alloc: Global, columns: &[u32]) -> Result<StoredRows, AllocError>
        requires { AreEnough self.now.matrix columns.now }
        ensures modulus { IfOk result (λ rows. rows.modulus ≡ self.now.modulus) }
        ensures matrix { IfOk result (λ rows. rows.matrix ≡ narrowed self.now.matrix columns.now) }
    {
        Ok(StoredRows {
            modulus: self.modulus,
            width: columns.len() as u32,
            starts: Vec::from_slice(alloc, &self.starts)?,
            cols: places_among(alloc, columns, &self.cols)?,
            vals: Vec::from_slice(alloc, &self.vals)?,
        })
    }

    // The matrix of this width that has the columns of this one at these columns, which ascend, and zeros elsewhere: in time
    // by the entries and the height.
    pub(crate) fn widened(
        &self,
        alloc: Global,
        width: u32,
        columns: &[u32],
    ) -> Result<StoredRows, AllocError>
        requires width { width ≤ LARGEST_SIZE }
        requires many { length columns.now ≡ self.now.matrix.width }
        requires rising { AreRising columns.now }
        requires below { (k : ℕ) → k < length columns.now → slice_index columns.now k < width }
        ensures modulus { IfOk result (λ rows. rows.modulus ≡ self.now.modulus) }
        ensures matrix { IfOk result (λ rows. rows.matrix ≡ widened self.now.matrix width columns.now) }
    {
        Ok(StoredRows {
            modulus: self.modulus,
            width,
            starts: Vec::from_slice(alloc, &self.starts)?,
            cols: named_columns(alloc, columns, &self.cols)?,
            vals: Vec::from_slice(alloc, &self.vals)?,
        })
    }

    // The transposed matrix, in time proportional to the entries, the width and the height.
    pub(crate) fn transpose(&self, alloc: Global) -> Result<StoredRows, AllocError>
        ensures modulus { IfOk result (λ rows. rows.modulus ≡ self.now.modulus) }
        ensures matrix { IfOk result (λ rows. rows.matrix ≡ transposed self.now.matrix) }
    {
        let parts = all_starts(alloc, self.width, &self.cols)?;
        let turned = by_parts(alloc, &self.starts, &self.cols, &self.vals, parts)?;
        Ok(StoredRows {
            modulus: self.modulus,
            width: self.height(),
            starts: turned.starts,
            cols: turned.cols,
            vals: turned.vals,
        })
    }

    // These columns as rows, in this order, where all entries stand in them: in time proportional to the entries, the width and the
    // height.
    pub(crate) fn transpose_select(
        &self,
        alloc: Global,
        columns: &[u32],
    ) -> Result<StoredRows, AllocError>
        requires many { length columns.now ≤ LARGEST_SIZE }
        requires columns { AreEnoughInSomeOrder self.now.matrix columns.now }
        ensures modulus { IfOk result (λ rows. rows.modulus ≡ self.now.modulus) }
        ensures matrix { IfOk result (λ rows. rows.matrix ≡ selected (transposed self.now.matrix) columns.now) }
    {
        let parts = starts_in_order(alloc, self.width, columns, &self.cols)?;
        let turned = by_parts(alloc, &self.starts, &self.cols, &self.vals, parts)?;
        Ok(StoredRows {
            modulus: self.modulus,
            width: self.height(),
            starts: turned.starts,
            cols: turned.cols,
            vals: turned.vals,
        })
    }

    // An equal matrix.
    pub(crate) fn copy(&self, alloc: Global) -> Result<StoredRows, AllocError>
        ensures { IfOk result (λ rows. rows ≡ self.now) }
    {
        Ok(StoredRows {
            modulus: self.modulus,
            width: self.width,
            starts: Vec::from_slice(alloc, &self.starts)?,
            cols: Vec::from_slice(alloc, &self.cols)?,
            vals: Vec::from_slice(alloc, &self.vals)?,
        })
    }
}
