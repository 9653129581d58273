// Matrices made of their entries.
ghost use Rattle.column_lists.specs.declared.sizes.TheConstants.{LARGEST_SIZE};
ghost use Rattle.std.specs.Prelude.{◌≡◌, ◌<◌, ◌≤◌, ◌+◌, ◌-◌, ◌*◌, ℕ, length, false, map, slice_index, All, IfNone, IfOk, IfSome};
ghost use Rattle.residue_words.specs.Matrix.{row};
ghost use Rattle.matrix_cells.specs.Cells.{AreEntries, IsWithin, place_of};
ghost use Rattle.sparse_rows.specs.Cells.{matrix_of_cells};
ghost use Rattle.sparse_rows.specs.Rows.{AllFit, FitsMatrix, built, identity, listed_triples, triple};

use crate::builder::RowsBuilder;
use crate::rows::Rows;
use crate::sparse::Sparse;
use crate::stored_rows::StoredRows;
use column_lists::{LARGEST_SIZE, RowParts, occurring, place_of, places_among};
use matrix_cells::{
    Cell, OrderedCells, listed, renumbered, row_numbers, starts_of, stores_every_row,
};
use residue_words::Modulus;
use std::alloc::{AllocError, Global};

impl Rows {
    /// The matrix of m rows and n columns that is built of these values, each a row, a column and a residue, in any order:
    /// at each place stands the sum modulo p.
    pub fn from_triples(
        alloc: Global,
        m: u32,
        n: u32,
        p: &Modulus,
        triples: &[(u32, u32, u64)],
    ) -> Result<Rows, AllocError>
        requires height { m ≤ LARGEST_SIZE }
        requires width { n ≤ LARGEST_SIZE }
        requires inside { All (FitsMatrix m n p.now) triples.now }
        ensures modulus { IfOk result (λ rows. rows.modulus ≡ p.now) }
        ensures matrix { IfOk result (λ rows. rows.matrix ≡ built p.now m n (map triple triples.now)) }
    {
        let mut builder = RowsBuilder::new(alloc, m, n, *p)?;
        for (i, j, v) in triples {
            builder.push(*i, *j, *v)?;
        }
        builder.finish()
    }

    /// The same of values that may lie anywhere: `None` where a size is above `LARGEST_SIZE`, a place is outside or a value is no
    /// residue.
    pub fn checked_from_triples(
        alloc: Global,
        m: u32,
        n: u32,
        p: &Modulus,
        triples: &[(u32, u32, u64)],
    ) -> Result<Option<Rows>, AllocError>
        ensures none { IfOk result (λ found. IfNone found (¬ AllFit m n p.now triples.now)) }
        ensures fits { IfOk result (λ found. IfSome found (λ _. AllFit m n p.now triples.now)) }
        ensures some { IfOk result (λ found. IfSome found (λ rows. rows ≡ record {
          modulus = p.now;
          matrix = built p.now m n (map triple triples.now);
        })) }
    {
        if m > LARGEST_SIZE || n > LARGEST_SIZE {
            return Ok(None);
        }
        let modulus = p.p();
        for (i, j, v) in triples {
            if *i >= m || *j >= n || *v >= modulus {
                return Ok(None);
            }
        }
        let rows = Rows::from_triples(alloc, m, n, p, triples)?;
        Ok(Some(rows))
    }

    /// The same of entries in three lists that ascend strictly by rows and, within a row, by columns, none of which is 0. Where each row
    /// is stored, columns and values are copied as they stand, in the time of one copy and a pass over the rows.
    pub fn from_entries_in_order(
        alloc: Global,
        p: Modulus,
        m: u32,
        n: u32,
        rows: &[u32],
        columns: &[u32],
        values: &[u64],
    ) -> Result<Rows, AllocError>
        requires height { m ≤ LARGEST_SIZE }
        requires width { n ≤ LARGEST_SIZE }
        requires columns { length columns.now ≡ length rows.now }
        requires values { length values.now ≡ length rows.now }
        requires inside { (k : ℕ) → k < length rows.now → FitsMatrix m n p
            (slice_index rows.now k, slice_index columns.now k, slice_index values.now k) }
        requires positive { (k : ℕ) → k < length rows.now → 0 < slice_index values.now k }
        requires order { (k : ℕ) → k + 1 < length rows.now →
            place_of (slice_index rows.now k) (slice_index columns.now k)
            < place_of (slice_index rows.now (k + 1)) (slice_index columns.now (k + 1)) }
        ensures modulus { IfOk result (λ made. made.modulus ≡ p) }
        ensures matrix { IfOk result (λ made. made.matrix
            ≡ built p m n (listed_triples rows.now columns.now values.now)) }
    {
        p.is_sound();
        if !stores_every_row(m, rows.len()) {
            let cells = listed(alloc, rows, columns, values)?;
            return Rows::from_cells(alloc, p, m, n, &cells);
        }
        let parts = RowParts {
            starts: starts_of(alloc, m, rows)?,
            cols: Vec::from_slice(alloc, columns)?,
            vals: Vec::from_slice(alloc, values)?,
        };
        Ok(Rows {
            height: m,
            stored: StoredRows::of_parts(p, n, parts),
            every_row: true,
            rows: Vec::new(alloc),
        })
    }

    // The matrix with these entries, which ascend by places. It takes 12 bytes an entry and 8 bytes a row.
    pub(crate) fn from_cells(
        alloc: Global,
        modulus: Modulus,
        height: u32,
        width: u32,
        cells: &[Cell],
    ) -> Result<Rows, AllocError>
        requires height_small { height ≤ LARGEST_SIZE }
        requires width_small { width ≤ LARGEST_SIZE }
        requires within { All (IsWithin height width) cells.now }
        requires entries { AreEntries modulus cells.now }
        ensures modulus { IfOk result (λ rows. rows.modulus ≡ modulus) }
        ensures matrix { IfOk result (λ rows. rows.matrix ≡ matrix_of_cells height width cells.now) }
    {
        if stores_every_row(height, cells.len()) {
            return Ok(Rows {
                height,
                stored: StoredRows::from_cells(alloc, modulus, height, width, cells)?,
                every_row: true,
                rows: Vec::new(alloc),
            });
        }
        let numbers = row_numbers(alloc, cells)?;
        let rows = occurring(alloc, height, &numbers)?;
        let places = places_among(alloc, &rows, &numbers)?;
        let cells = renumbered(alloc, &places, cells)?;
        Ok(Rows {
            height,
            stored: StoredRows::from_cells(alloc, modulus, rows.len() as u32, width, &cells)?,
            every_row: false,
            rows,
        })
    }

    // The same of entries that are kept as rows, none of which is copied. Each row is stored.
    pub(crate) fn from_ordered(
        alloc: Global,
        modulus: Modulus,
        height: u32,
        width: u32,
        cells: OrderedCells,
    ) -> Result<Rows, AllocError>
        requires height_small { height ≤ LARGEST_SIZE }
        requires width_small { width ≤ LARGEST_SIZE }
        requires within { All (IsWithin height width) cells }
        requires entries { AreEntries modulus cells }
        ensures modulus { IfOk result (λ rows. rows.modulus ≡ modulus) }
        ensures matrix { IfOk result (λ rows. rows.matrix ≡ matrix_of_cells height width cells) }
    {
        Ok(Rows {
            height,
            stored: StoredRows::from_ordered(modulus, height, width, cells)?,
            every_row: true,
            rows: Vec::new(alloc),
        })
    }

    /// The identity matrix of n rows.
    pub fn identity(alloc: Global, n: u32, p: &Modulus) -> Result<Rows, AllocError>
        requires { n ≤ LARGEST_SIZE }
        ensures modulus { IfOk result (λ rows. rows.modulus ≡ p.now) }
        ensures matrix { IfOk result (λ rows. rows.matrix ≡ identity n) }
    {
        let mut rows = Rows::with_room(alloc, *p, n, n, n as usize)?;
        let mut row = Sparse::new(alloc, n, *p);
        for i in 0..n {
            row.clear();
            row.push(i, 1)?;
            rows.append(&row)?;
        }
        Ok(rows)
    }
}
