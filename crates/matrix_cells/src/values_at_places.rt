// What is pushed: a value at a place, in one word beside it.
ghost use Rattle.std.specs.Prelude.{◌≡◌, length, map, All, IfOk, ◌<◌, ◌≤◌, ◌^◌};
ghost use Rattle.matrix_cells.specs.Cells.{AreCuts, IsByRows, column_of, listed_cells, place_of, renumbered, row_of};

use std::alloc::{AllocError, Global};

// How many places a row has.
const PLACES: u64 = 4_294_967_296;

/// A value at a place: places count row after row, 2^32 to each, so cells in the order of their places stand by rows and,
/// within a row, by columns.
#[derive(Clone, Copy, Debug)]
pub struct Cell {
    /// The place.
    pub place: u64,
    /// The value.
    pub val: u64,
}

/// The place of row i and column j.
#[inline(always)]
pub fn place_of(i: u32, j: u32) -> u64
    ensures { result ≡ place_of i j }
{
    i as u64 * PLACES + j as u64
}

impl Cell {
    /// The value at row i and column j.
    pub fn new(i: u32, j: u32, val: u64) -> Cell
        ensures place { result.place ≡ place_of i j }
        ensures val { result.val ≡ val }
    {
        Cell {
            place: place_of(i, j),
            val,
        }
    }

    /// The row.
    pub fn row(&self) -> u32
        ensures { result ≡ row_of self.now }
    {
        (self.place / PLACES) as u32
    }

    /// The column.
    pub fn column(&self) -> u32
        ensures { result ≡ column_of self.now }
    {
        (self.place % PLACES) as u32
    }
}

/// Where the cells of rows 0, 1, .., height - 1 begin, and where those of the last end. The cells ascend by rows.
///
/// The error is out of memory: it takes 8 bytes a row.
pub fn row_starts(alloc: Global, height: u32, cells: &[Cell]) -> Result<Vec<usize>, AllocError>
    requires within { All (λ c. row_of c < height) cells.now }
    requires by_rows { IsByRows cells.now }
    ensures { IfOk result (λ starts. AreCuts height cells.now starts.items) }
{
    let mut starts = Vec::with_capacity(alloc, height as usize + 1)?;
    for k in 0..cells.len() {
        starts.resize(cells[k].row() as usize + 1, k)?;
    }
    starts.resize(height as usize + 1, cells.len())?;
    Ok(starts)
}

/// The cells that three lists have at one place after another.
///
/// The error is out of memory: it takes 16 bytes a cell.
pub fn listed(
    alloc: Global,
    rows: &[u32],
    columns: &[u32],
    values: &[u64],
) -> Result<Vec<Cell>, AllocError>
    requires columns { length columns.now ≡ length rows.now }
    requires values { length values.now ≡ length rows.now }
    ensures { IfOk result (λ cells. cells.items ≡ listed_cells rows.now columns.now values.now) }
{
    let mut cells = Vec::with_capacity(alloc, rows.len())?;
    for k in 0..rows.len() {
        cells.push(Cell::new(rows[k], columns[k], values[k]))?;
    }
    Ok(cells)
}

/// The columns of the cells.
///
/// The error is out of memory: it takes 4 bytes a cell.
pub fn columns(alloc: Global, cells: &[Cell]) -> Result<Vec<u32>, AllocError>
    ensures { IfOk result (λ columns. columns.items ≡ map column_of cells.now) }
{
    let mut columns = Vec::with_capacity(alloc, cells.len())?;
    for cell in cells {
        columns.push(cell.column())?;
    }
    Ok(columns)
}

/// The values of the cells.
///
/// The error is out of memory: it takes 8 bytes a cell.
pub fn values(alloc: Global, cells: &[Cell]) -> Result<Vec<u64>, AllocError>
    ensures { IfOk result (λ values. values.items ≡ map (λ c. c.val) cells.now) }
{
    let mut values = Vec::with_capacity(alloc, cells.len())?;
    for cell in cells {
        values.push(cell.val)?;
    }
    Ok(values)
}

/// The rows of the cells.
///
/// The error is out of memory: it takes 4 bytes a cell.
pub fn row_numbers(alloc: Global, cells: &[Cell]) -> Result<Vec<u32>, AllocError>
    ensures { IfOk result (λ rows. rows.items ≡ map row_of cells.now) }
{
    let mut rows = Vec::with_capacity(alloc, cells.len())?;
    for cell in cells {
        rows.push(cell.row())?;
    }
    Ok(rows)
}

/// The cells in these rows.
///
/// The error is out of memory: it takes 16 bytes a cell.
pub fn renumbered(alloc: Global, rows: &[u32], cells: &[Cell]) -> Result<Vec<Cell>, AllocError>
    requires { length rows.now ≡ length cells.now }
    ensures { IfOk result (λ made. made.items ≡ renumbered rows.now cells.now) }
{
    let mut made = Vec::with_capacity(alloc, cells.len())?;
    for k in 0..cells.len() {
        made.push(Cell::new(rows[k], cells[k].column(), cells[k].val))?;
    }
    Ok(made)
}
