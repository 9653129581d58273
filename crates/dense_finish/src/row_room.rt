// Rows of a left factor.
ghost use Rattle.std.specs.Prelude.{◌≡◌, ◌<◌, ◌≤◌, ℕ, false, length, slice_index, IfOk, OnOk};
ghost use Rattle.std.specs.List.{range_with_len};
ghost use Rattle.residue_words.specs.Matrix.{IsVector};
ghost use Rattle.sparse_rows.specs.Rows.{AreBelow, LARGEST_SIZE};
ghost use Rattle.dense_rows.specs.Dense.{AppendsGathered};
ghost use Rattle.dense_finish.specs.RowRoom.{ServesRows};

use dense_rows::{Dense, Residue};
use residue_words::Modulus;
use sparse_rows::{Rows, Sparse};
use std::alloc::{AllocError, Global};

// What the rows of a left factor are made in, one after another.
#[derive(Drop)]
pub(crate) struct RowRoom {
    // 0, 1, 2, ..: as many as the factor has columns.
    pub places: Vec<u32>,
    // As many numbers.
    pub values: Vec<u64>,
    // For a row with an entry that is 0.
    pub sparse: Sparse,
}

impl RowRoom {
    // Room for rows of so many residues.
    pub(crate) fn new(alloc: Global, width: u32, p: &Modulus) -> Result<RowRoom, AllocError>
        ensures { IfOk result (ServesRows p.now width) }
    {
        let mut values = Vec::with_capacity(alloc, width as usize)?;
        values.resize(width as usize, 0)?;
        Ok(RowRoom {
            places: numbers_below(alloc, width)?,
            values,
            sparse: Sparse::new(alloc, width, *p),
        })
    }

    // Appends the row's entries at these columns, one beside the other.
    pub(crate) fn append_to<W: Residue>(
        &mut self,
        left: &mut Rows,
        row: &Dense<W>,
        columns: &[u32],
    ) -> Result<(), AllocError>
        requires low { left.old.matrix.height < LARGEST_SIZE }
        requires room { ServesRows left.old.modulus left.old.matrix.width self.old }
        requires residues { IsVector left.old.modulus (length row.now) row.now }
        requires inside { AreBelow (length row.now) columns.now }
        requires few { length columns.now ≤ LARGEST_SIZE }
        requires narrow { length columns.now ≤ left.old.matrix.width }
        ensures room { OnOk result (ServesRows left.old.modulus left.old.matrix.width self.new) }
        ensures row { OnOk result (AppendsGathered columns.now row.now left.old left.new) }
    {
        let count = columns.len();
        if write_coefficients(row, columns, &self.places[..count], &mut self.values) {
            return append_gathered(&mut self.sparse, left, row, columns);
        }
        left.append_entries(&self.places[..count], &self.values[..count])
    }
}

// The same entry by entry, in a sparse row, since some are 0.
fn append_gathered<W: Residue>(
    sparse: &mut Sparse,
    left: &mut Rows,
    row: &Dense<W>,
    columns: &[u32],
) -> Result<(), AllocError>
    requires low { left.old.matrix.height < LARGEST_SIZE }
    requires modulus { sparse.old.modulus ≡ left.old.modulus }
    requires long { length sparse.old.row ≡ left.old.matrix.width }
    requires residues { IsVector left.old.modulus (length row.now) row.now }
    requires inside { AreBelow (length row.now) columns.now }
    requires few { length columns.now ≤ LARGEST_SIZE }
    requires narrow { length columns.now ≤ left.old.matrix.width }
    ensures modulus { OnOk result (sparse.new.modulus ≡ left.old.modulus) }
    ensures long { OnOk result (length sparse.new.row ≡ left.old.matrix.width) }
    ensures row { OnOk result (AppendsGathered columns.now row.now left.old left.new) }
{
    sparse.clear();
    row.gather(columns, sparse)?;
    left.append(sparse)
}

// Writes the row's entries at these columns to the first values, and tells whether one of them is 0. The columns are often the
// first ones, in order, as where all rows are full: then the entries are read in one run. `places` are 0, 1, 2, .., as many.
fn write_coefficients<W: Residue>(
    row: &Dense<W>,
    columns: &[u32],
    places: &[u32],
    to: &mut [u64],
) -> bool
    requires inside { AreBelow (length row.now) columns.now }
    requires room { length columns.now ≤ length to.old }
    requires many { length places.now ≡ length columns.now }
    requires places { (k : ℕ) → k < length places.now → slice_index places.now k ≡ k }
    ensures long { length to.new ≡ length to.old }
    ensures entries { (k : ℕ) → k < length columns.now
        → slice_index to.new k ≡ slice_index row.now (slice_index columns.now k) }
    ensures positive { result ≡ false → (k : ℕ) → k < length columns.now → 0 < slice_index to.new k }
{
    if columns == places {
        return row.write_first(columns.len(), to);
    }
    row.write_at(columns, to)
}

// 0, 1, 2, .., so many.
fn numbers_below(alloc: Global, n: u32) -> Result<Vec<u32>, AllocError>
    ensures { IfOk result (λ numbers. numbers.items ≡ range_with_len 0 n) }
{
    let mut numbers = Vec::with_capacity(alloc, n as usize)?;
    for k in 0..n {
        numbers.push(k)?;
    }
    Ok(numbers)
}
