// A matrix as compressed rows.
ghost use Rattle.residue_words.specs.declared.modulus.TheConstants.{MODULUS_BOUND};
ghost use Rattle.column_lists.specs.declared.sizes.TheConstants.{LARGEST_SIZE};
ghost use Rattle.std.specs.Prelude.{◌≡◌, ◌<◌, ◌≤◌, ◌+◌, ◌-◌, ◌/◌, ◌↔◌, ℕ, [], ◌++◌, length, slice_index, IfOk, IsTrue, OnErr, OnOk};
ghost use Rattle.std.specs.Option.{MatchOption};
ghost use Rattle.residue_words.specs.Matrix.{IsMatrix, row};
ghost use Rattle.matrix_cells.specs.Cells.{place_of};
ghost use Rattle.sparse_rows.specs.Rows.{above, AppendsFirst, AreFilled, AreOccupied, AreZeroFrom, IsNextFilled, entry_count, nonzeros, row_triples, support, triples_of, with_zeros};
ghost use Rattle.column_lists.specs.Numbers.{AreBelow, AreRising};
ghost use Rattle.sparse_rows.specs.Stored.{IsSparse, with_row, with_sparse_row};

mod from_entries;
mod from_rows;
mod weights;

use crate::entry_room::EntryRoom;
use crate::sparse::Sparse;
use crate::stored_rows::StoredRows;
use column_lists::{first_from, place_of};
use matrix_cells::stores_every_row;
use residue_words::Modulus;
use std::alloc::{AllocError, Global};
use std::marker::Model;

/// A matrix of residues as compressed rows: of each row the columns with a nonzero entry, ascending, and the entries there.
/// Contracts see the plain matrix with its modulus. It takes 12 bytes an entry and 8 bytes a row; where the rows are many more
/// than the entries, 12 bytes for each row that has an entry, and none for the others.
#[derive(Debug, Drop)]
pub struct Rows {
    height: u32,
    stored: StoredRows,
    // Whether each row is stored; else those that have an entry are, and `rows` says which they are.
    every_row: bool,
    rows: Vec<u32>,
}

impl Model for Rows {
    ghost use Rattle.sparse_rows.specs.Rows.{ResidueMatrix};
    ghost use Rattle.sparse_rows.specs.Placed.{IsPlaced, placed};

    ghost Value = { ResidueMatrix };

    ghost view = { λ r. record {
      modulus = r.stored.modulus;
      matrix = placed r.every_row r.height r.rows.items r.stored.matrix;
    } };

    ghost invariant = { λ r. IsPlaced r.every_row r.height r.rows.items r.stored.matrix };
}

impl Rows {
    /// The matrix with no row, and room for these rows and entries.
    pub fn with_room(
        alloc: Global,
        modulus: Modulus,
        width: u32,
        height: u32,
        entries: usize,
    ) -> Result<Rows, AllocError>
        requires width_small { width ≤ LARGEST_SIZE }
        requires height_small { height ≤ LARGEST_SIZE }
        ensures modulus { IfOk result (λ rows. rows.modulus ≡ modulus) }
        ensures matrix { IfOk result (λ rows. rows.matrix ≡ record { height = 0; width = width; rows = [] }) }
    {
        Rows::in_room(
            alloc,
            modulus,
            width,
            height,
            EntryRoom::new(alloc, entries)?,
        )
    }

    /// The matrix with no row, and room for these rows, with the entries in this memory.
    pub fn in_room(
        alloc: Global,
        modulus: Modulus,
        width: u32,
        height: u32,
        room: EntryRoom,
    ) -> Result<Rows, AllocError>
        requires width_small { width ≤ LARGEST_SIZE }
        requires height_small { height ≤ LARGEST_SIZE }
        ensures modulus { IfOk result (λ rows. rows.modulus ≡ modulus) }
        ensures matrix { IfOk result (λ rows. rows.matrix ≡ record { height = 0; width = width; rows = [] }) }
    {
        let every_row = stores_every_row(height, room.entries);
        let rows = if every_row { height } else { 0 };
        Ok(Rows {
            height: 0,
            stored: StoredRows::in_room(alloc, modulus, width, rows, room)?,
            every_row,
            rows: Vec::new(alloc),
        })
    }

    /// Writes to the memory of so many more entries, as far as there is room, before they are appended. The system gives memory page by
    /// page as it is first written to: so who appends them later need not wait for it.
    pub fn write_ahead(&mut self, entries: usize)
        ensures { self.new ≡ self.old }
    {
        self.stored.write_ahead(entries);
    }

    /// Appends the row with these values at these columns, in the time of one copy of them; none is 0. Where memory is wanted the
    /// matrix is as before.
    pub fn append_entries(&mut self, cols: &[u32], vals: &[u64]) -> Result<(), AllocError>
        requires height_small { self.old.matrix.height < LARGEST_SIZE }
        requires sparse { IsSparse self.old.modulus self.old.matrix.width cols.now vals.now }
        ensures modulus { self.new.modulus ≡ self.old.modulus }
        ensures matrix { OnOk result (self.new.matrix ≡ with_sparse_row self.old.matrix cols.now vals.now) }
        ensures err { OnErr result (self.new.matrix ≡ self.old.matrix) }
    {
        // The call tells that the stored rows are a matrix of residues.
        self.stored.modulus();
        if self.every_row {
            self.stored.append_slices(cols, vals)?;
            self.height += 1;
            return Ok(());
        }
        if cols.is_empty() {
            self.height += 1;
            return Ok(());
        }
        self.rows.reserve(1)?;
        self.stored.append_slices(cols, vals)?;
        self.rows.push(self.height)?;
        self.height += 1;
        Ok(())
    }

    /// Appends a row. Where memory is wanted the matrix is as before.
    pub fn append(&mut self, row: &Sparse) -> Result<(), AllocError>
        requires height_small { self.old.matrix.height < LARGEST_SIZE }
        requires modulus { row.now.modulus ≡ self.old.modulus }
        requires width { length row.now.row ≡ self.old.matrix.width }
        ensures modulus { self.new.modulus ≡ self.old.modulus }
        ensures matrix { OnOk result (self.new.matrix ≡ with_row self.old.matrix row.now.row) }
        ensures err { OnErr result (self.new.matrix ≡ self.old.matrix) }
    {
        self.append_entries(row.cols(), row.vals())
    }

    /// Appends the rows of another matrix, in the time of its entries and, where each of its rows is stored, its height: where each
    /// row of both is stored, the blocks are copied. Out of memory, some first rows may have been appended.
    pub fn append_all(&mut self, from: &Rows) -> Result<(), AllocError>
        requires modulus { self.old.modulus ≡ from.now.modulus }
        requires width { self.old.matrix.width ≡ from.now.matrix.width }
        requires height_small { self.old.matrix.height + from.now.matrix.height ≤ LARGEST_SIZE }
        ensures modulus { self.new.modulus ≡ self.old.modulus }
        ensures matrix { OnOk result (self.new.matrix ≡ above self.old.matrix from.now.matrix) }
        ensures err { OnErr result (AppendsFirst from.now.matrix self.old.matrix self.new.matrix) }
    {
        if self.every_row && from.every_row {
            self.stored.append_all(&from.stored)?;
            self.height += from.height;
            return Ok(());
        }
        self.append_filled(from)
    }

    // The same row by row, where rows without an entry cost nothing.
    fn append_filled(&mut self, from: &Rows) -> Result<(), AllocError>
        requires modulus { self.old.modulus ≡ from.now.modulus }
        requires width { self.old.matrix.width ≡ from.now.matrix.width }
        requires height_small { self.old.matrix.height + from.now.matrix.height ≤ LARGEST_SIZE }
        ensures modulus { self.new.modulus ≡ self.old.modulus }
        ensures matrix { OnOk result (self.new.matrix ≡ above self.old.matrix from.now.matrix) }
        ensures err { OnErr result (AppendsFirst from.now.matrix self.old.matrix self.new.matrix) }
    {
        // The call tells that `from` is a matrix of residues.
        let height = from.height();
        let mut next = 0;
        while let Some(i) = from.next_filled(next) {
            self.append_zeros(i - next)?;
            self.append_entries(from.cols(i), from.vals(i))?;
            next = i + 1;
        }
        self.append_zeros(height - next)?;
        Ok(())
    }

    /// Appends this many rows of zeros. Where memory is wanted the matrix is as before.
    pub fn append_zeros(&mut self, count: u32) -> Result<(), AllocError>
        requires height_small { self.old.matrix.height + count ≤ LARGEST_SIZE }
        ensures modulus { self.new.modulus ≡ self.old.modulus }
        ensures matrix { OnOk result (self.new.matrix ≡ with_zeros self.old.matrix count) }
        ensures err { OnErr result (self.new.matrix ≡ self.old.matrix) }
    {
        // The call tells that the stored rows are a matrix of residues.
        self.stored.modulus();
        if self.every_row {
            self.stored.append_zeros(count)?;
            self.height += count;
            return Ok(());
        }
        self.height += count;
        Ok(())
    }

    /// The law of its sizes, its modulus and its entries, for proofs: it does nothing.
    #[inline(always)]
    pub fn is_sound(&self)
        ensures height { self.now.matrix.height ≤ LARGEST_SIZE }
        ensures width { self.now.matrix.width ≤ LARGEST_SIZE }
        ensures two_or_more { 2 ≤ self.now.modulus }
        ensures in_range { self.now.modulus < MODULUS_BOUND }
        ensures entries { IsMatrix self.now.modulus self.now.matrix }
    {
        self.height();
        self.width();
        self.modulus();
    }

    /// How many rows the matrix has.
    pub fn height(&self) -> u32
        ensures value { result ≡ self.now.matrix.height }
        ensures bound { result ≤ LARGEST_SIZE }
        ensures sound { IsMatrix self.now.modulus self.now.matrix }
    {
        // The proof wants what the modulus says of the stored rows.
        self.stored.modulus();
        self.height
    }

    /// How many columns the matrix has.
    pub fn width(&self) -> u32
        ensures value { result ≡ self.now.matrix.width }
        ensures bound { result ≤ LARGEST_SIZE }
    {
        self.stored.width()
    }

    /// The modulus of the residues.
    pub fn modulus(&self) -> Modulus
        ensures value { result ≡ self.now.modulus }
        ensures two_or_more { 2 ≤ result }
        ensures in_range { result < MODULUS_BOUND }
        ensures sound { IsMatrix self.now.modulus self.now.matrix }
    {
        self.stored.modulus()
    }

    /// How many entries are not 0.
    pub fn entries(&self) -> u64
        ensures { result ≡ entry_count self.now.matrix }
    {
        self.stored.entries()
    }

    /// Whether a fourth of its columns are more than its entries, so that it pays to number anew those that have one. It takes constant
    /// time.
    pub fn is_wide(&self) -> bool
        ensures { IsTrue result ↔ entry_count self.now.matrix < self.now.matrix.width / 4 }
    {
        u64::from(self.width()) / 4 > self.entries()
    }

    /// The columns of the nonzero entries of row i, ascending.
    pub fn cols(&self, i: u32) -> &[u32]
        requires { i < self.now.matrix.height }
        ensures support { result.now ≡ support (row self.now.matrix i) }
        ensures same_length { length result.now ≡ length (nonzeros (row self.now.matrix i)) }
        ensures below_width { AreBelow self.now.matrix.width result.now }
        ensures ascending { AreRising result.now }
    {
        if self.every_row {
            return self.stored.cols(i);
        }
        match place_of(&self.rows, i) {
            Some(place) => self.stored.cols(place as u32),
            None => &[],
        }
    }

    /// The nonzero entries of row i, by ascending columns.
    pub fn vals(&self, i: u32) -> &[u64]
        requires { i < self.now.matrix.height }
        ensures values { result.now ≡ nonzeros (row self.now.matrix i) }
        ensures same_length { length result.now ≡ length (support (row self.now.matrix i)) }
        ensures positive { (k : ℕ) → k < length result.now → 0 < slice_index result.now k }
        ensures residues { (k : ℕ) → k < length result.now → slice_index result.now k < self.now.modulus }
    {
        if self.every_row {
            return self.stored.vals(i);
        }
        match place_of(&self.rows, i) {
            Some(place) => self.stored.vals(place as u32),
            None => &[],
        }
    }

    /// The first row from `from` on that has an entry, if there is one. It takes no memory.
    pub fn next_filled(&self, from: u32) -> Option<u32>
        ensures { MatchOption result (AreZeroFrom self.now.matrix from) (IsNextFilled self.now.matrix from) }
    {
        if self.every_row {
            return self.stored.next_filled(from);
        }
        let place = first_from(&self.rows, from);
        if place < self.rows.len() {
            Some(self.rows[place])
        } else {
            None
        }
    }

    /// The rows that have an entry, ascending.
    pub fn filled(&self, alloc: Global) -> Result<Vec<u32>, AllocError>
        ensures { IfOk result (λ rows. AreFilled self.now.matrix rows.items) }
    {
        let mut filled = Vec::new(alloc);
        // The proof that i + 1 is no overflow wants to know how high a matrix is.
        self.is_sound();
        let mut from = 0;
        while let Some(i) = self.next_filled(from) {
            filled.push(i)?;
            from = i + 1;
        }
        Ok(filled)
    }

    /// The columns in which some row has an entry, ascending: in time and memory by the entries, times a logarithm where the
    /// matrix is much wider than it has entries.
    pub fn occupied(&self, alloc: Global) -> Result<Vec<u32>, AllocError>
        ensures { IfOk result (λ columns. AreOccupied self.now.matrix columns.items) }
    {
        self.stored.occupied(alloc)
    }

    /// The nonzero entries, row by row and by ascending columns: of each the row, the column and the residue.
    pub fn triples(&self, alloc: Global) -> Result<Vec<(u32, u32, u64)>, AllocError>
        ensures { IfOk result (λ triples. triples.items ≡ triples_of self.now.matrix) }
    {
        let mut triples = Vec::with_capacity(alloc, self.entries() as usize)?;
        // The proof that i + 1 is no overflow wants to know how high a matrix is.
        self.is_sound();
        let mut from = 0;
        while let Some(i) = self.next_filled(from) {
            self.list_row(i, &mut triples)?;
            from = i + 1;
        }
        Ok(triples)
    }

    // Appends the entries of row i.
    fn list_row(&self, i: u32, triples: &mut Vec<(u32, u32, u64)>) -> Result<(), AllocError>
        requires { i < self.now.matrix.height }
        ensures { OnOk result (triples.new.items ≡ triples.old.items
            ++ row_triples i (support (row self.now.matrix i)) (nonzeros (row self.now.matrix i))) }
    {
        let cols = self.cols(i);
        let vals = self.vals(i);
        for k in 0..cols.len() {
            triples.push((i, cols[k], vals[k]))?;
        }
        Ok(())
    }
}
