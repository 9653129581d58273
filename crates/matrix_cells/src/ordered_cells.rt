// Cells that ascend by places, as the rows that they will be.
ghost use Rattle.std.specs.Prelude.{ℕ, ◌≡◌, ◌<◌, ◌≤◌, ◌+◌, ◌-◌, ◌++◌, ◌∷◌, [], true, length, map, replicate, slice_index, All, IfOk, IfSome, OnErr, OnOk};
ghost use Rattle.column_lists.specs.declared.sizes.TheConstants.{LARGEST_SIZE};
ghost use Rattle.matrix_cells.specs.Cells.{HaveRisingPlaces, AreCuts, AreSums, IsRowOfPart, column_of, in_rows, place_of, row_of, without_zeros};

use crate::room::{make_room, stores_every_row};
use crate::values_at_places::{Cell, place_of};
use column_lists::RowParts;
use residue_words::Modulus;
use std::alloc::{AllocError, Global};
use std::marker::Model;

/// Cells that ascend strictly by places: of each its column and its value, and where the rows begin up to that of the last cell. It takes
/// 12 bytes a cell and 8 bytes a row, and has room for a quarter more cells. Contracts see the list of the cells.
#[derive(Debug, Drop)]
pub struct OrderedCells {
    starts: Vec<usize>,
    cols: Vec<u32>,
    vals: Vec<u64>,
    // Each cell lies before this place.
    next: u64,
    // Whether no value is 0.
    nonzero: bool,
}

impl Model for OrderedCells {
    ghost use Rattle.std.specs.Prelude.{List};
    ghost use Rattle.matrix_cells.specs.declared.values_at_places.Cell.{Cell};
    ghost use Rattle.matrix_cells.specs.Cells.{AreOrdered, ordered_cells};

    ghost Value = { List Cell };

    ghost view = { λ o. ordered_cells o.starts.items o.cols.items o.vals.items };

    ghost invariant = { λ o. AreOrdered o.starts.items o.cols.items o.vals.items o.next o.nonzero };
}

impl OrderedCells {
    /// No cell. It takes no memory.
    pub fn new(alloc: Global) -> OrderedCells
        ensures { result ≡ [] }
    {
        OrderedCells {
            starts: Vec::new(alloc),
            cols: Vec::new(alloc),
            vals: Vec::new(alloc),
            next: 0,
            nonzero: true,
        }
    }

    /// The sums at each place that aren't 0, of cells in so many rows; `None` if the cells don't ascend by places. There is room for as many
    /// sums as cells at first.
    ///
    /// The error is out of memory.
    pub fn sums_of(
        alloc: Global,
        modulus: Modulus,
        height: u32,
        cells: &[Cell],
    ) -> Result<Option<OrderedCells>, AllocError>
        requires small { height ≤ LARGEST_SIZE }
        requires within { All (λ c. row_of c < height) cells.now }
        requires residues { All (λ c. c.val < modulus) cells.now }
        ensures { IfOk result (λ found. IfSome found (λ sums. AreSums modulus cells.now sums)) }
    {
        let mut sums = OrderedCells::with_room(alloc, height, cells.len())?;
        let mut sum = Cell { place: 0, val: 0 };
        for k in 0..cells.len() {
            let cell = cells[k];
            if cell.place < sum.place {
                return Ok(None);
            }
            if cell.place > sum.place {
                sums.push_nonzero(sum.row(), sum.column(), sum.val)?;
                sum = Cell {
                    place: cell.place,
                    val: 0,
                };
            }
            sum.val = modulus.add(sum.val, cell.val);
        }
        sums.push_nonzero(sum.row(), sum.column(), sum.val)?;
        Ok(Some(sums))
    }

    // No cell, and room for so many in these rows.
    fn with_room(alloc: Global, height: u32, cells: usize) -> Result<OrderedCells, AllocError>
        ensures { IfOk result (λ made. made ≡ []) }
    {
        Ok(OrderedCells {
            starts: Vec::with_capacity(alloc, height as usize + 1)?,
            cols: Vec::with_capacity(alloc, cells)?,
            vals: Vec::with_capacity(alloc, cells)?,
            next: 0,
            nonzero: true,
        })
    }

    /// Whether the place lies behind all cells, and not so far down that the rows up to it would take more memory than the cells.
    #[inline(always)]
    pub fn takes(&self, i: u32, j: u32) -> bool
        ensures { result ≡ true → All (λ c. c.place < place_of i j) self.now }
    {
        self.next <= place_of(i, j) && stores_every_row(i, self.cols.len())
    }

    /// Appends a cell at row i and column j, in constant time on average.
    ///
    /// The error is out of memory: the cells are then as before.
    #[inline(always)]
    pub fn push(&mut self, i: u32, j: u32, v: u64) -> Result<(), AllocError>
        requires row { i < LARGEST_SIZE }
        requires behind { All (λ c. c.place < place_of i j) self.old }
        ensures ok { OnOk result (self.new ≡ self.old ++ record { place = place_of i j; val = v } ∷ []) }
        ensures err { OnErr result (self.new ≡ self.old) }
    {
        let next = place_of(i, j) + 1;
        let nonzero = self.nonzero && v != 0;
        make_room(&mut self.cols)?;
        make_room(&mut self.vals)?;
        begin_rows(&mut self.starts, i, self.cols.len())?;
        self.cols.push(j)?;
        self.vals.push(v)?;
        self.next = next;
        self.nonzero = nonzero;
        Ok(())
    }

    /// The law of their order, for proofs: it does nothing.
    #[inline(always)]
    pub fn is_sound(&self)
        ensures { HaveRisingPlaces self.now }
    {
        // A proof knows the invariant if a field is used.
        let _ = &self.starts;
    }

    /// Whether the rows of a matrix of this height are few enough for each to be stored.
    pub fn are_stored(&self, height: u32) -> bool {
        stores_every_row(height, self.cols.len())
    }

    /// The same without those whose value is 0: if there are such, in time by all cells and rows, and as much memory again.
    ///
    /// The error is out of memory.
    pub fn without_zeros(self, alloc: Global) -> Result<OrderedCells, AllocError>
        requires { All (λ c. row_of c < LARGEST_SIZE) self }
        ensures { IfOk result (λ kept. kept ≡ without_zeros self) }
    {
        if self.nonzero {
            return Ok(self);
        }
        let mut kept = OrderedCells::new(alloc);
        let mut row = 0;
        for k in 0..self.cols.len() {
            row = row_at(&self.starts, row, k);
            kept.push_nonzero(row as u32, self.cols[k], self.vals[k])?;
        }
        Ok(kept)
    }

    // Appends a cell at row i and column j, if its value isn't 0.
    #[inline(always)]
    fn push_nonzero(&mut self, i: u32, j: u32, v: u64) -> Result<(), AllocError>
        requires row { i < LARGEST_SIZE }
        requires behind { All (λ c. c.place < place_of i j) self.old }
        ensures zero { v ≡ 0 → OnOk result (self.new ≡ self.old) }
        ensures nonzero { 0 < v → OnOk result (self.new ≡ self.old
            ++ record { place = place_of i j; val = v } ∷ []) }
    {
        if v == 0 {
            return Ok(());
        }
        self.push(i, j, v)
    }

    /// Their columns and values, without room for more, and where rows 0, 1, .., height - 1 begin.
    ///
    /// The error is out of memory: it takes 8 bytes a row.
    pub fn into_rows(self, height: u32) -> Result<RowParts, AllocError>
        requires { All (λ c. row_of c < height) self }
        ensures starts { IfOk result (λ parts. AreCuts height self parts.starts.items) }
        ensures cols { IfOk result (λ parts. parts.cols.items ≡ map column_of self) }
        ensures vals { IfOk result (λ parts. parts.vals.items ≡ map (λ c. c.val) self) }
    {
        let OrderedCells {
            mut starts,
            mut cols,
            mut vals,
            next: _,
            nonzero: _,
        } = self;
        starts.resize(height as usize + 1, cols.len())?;
        cols.shrink_to_fit();
        vals.shrink_to_fit();
        Ok(RowParts { starts, cols, vals })
    }

    /// These cells one by one, and others behind them.
    ///
    /// The error is out of memory: it takes 16 bytes a cell.
    pub fn into_cells(self, alloc: Global, others: Vec<Cell>) -> Result<Vec<Cell>, AllocError>
        ensures { IfOk result (λ cells. cells.items ≡ self ++ others.items) }
    {
        if self.cols.is_empty() {
            return Ok(others);
        }
        let mut cells = Vec::with_capacity(alloc, self.cols.len().saturating_add(others.len()))?;
        let mut row = 0;
        for k in 0..self.cols.len() {
            row = row_at(&self.starts, row, k);
            cells.push(Cell::new(row as u32, self.cols[k], self.vals[k]))?;
        }
        cells.extend_from_slice(&others)?;
        Ok(cells)
    }
}

/// Where rows 0, 1, .., height - 1 begin, and where the last ends, if the items of a list stand in these rows.
///
/// The error is out of memory: it takes 8 bytes a row.
pub fn starts_of(alloc: Global, height: u32, rows: &[u32]) -> Result<Vec<usize>, AllocError>
    requires below { (k : ℕ) → k < length rows.now → slice_index rows.now k < height }
    requires ascending { (k t : ℕ) → k ≤ t → t < length rows.now →
        slice_index rows.now k ≤ slice_index rows.now t }
    ensures { IfOk result (λ starts. AreCuts height (in_rows rows.now) starts.items) }
{
    let mut starts = Vec::with_capacity(alloc, height as usize + 1)?;
    for k in 0..rows.len() {
        begin_rows(&mut starts, rows[k], k)?;
    }
    starts.resize(height as usize + 1, rows.len())?;
    Ok(starts)
}

// Lets the rows up to row i begin at this place, as far as they haven't begun.
#[inline(always)]
fn begin_rows(starts: &mut Vec<usize>, i: u32, at: usize) -> Result<(), AllocError>
    requires { length starts.old.items ≤ i + 1 }
    ensures ok { OnOk result (starts.new.items
        ≡ starts.old.items ++ replicate (i + 1 - length starts.old.items) at) }
    ensures err { OnErr result (starts.new.items ≡ starts.old.items) }
{
    if starts.len() <= i as usize {
        starts.resize(i as usize + 1, at)?;
    }
    Ok(())
}

// The row of item k, where an earlier row or this one is known to begin before it.
fn row_at(starts: &[usize], from: usize, k: usize) -> usize
    requires begun { from < length starts.now }
    requires before { slice_index starts.now from ≤ k }
    ensures { IsRowOfPart starts.now k result }
{
    let mut row = from;
    while row + 1 < starts.len() && starts[row + 1] <= k {
        row += 1;
    }
    row
}
