// The columns in which some of several rows has an entry.
ghost use Rattle.std.specs.Prelude.{◌≡◌, ◌<◌, ◌≤◌, ℕ, length, map, IfOk};
ghost use Rattle.row_space.specs.Factors.{row_at};
ghost use Rattle.sparse_rows.specs.ColumnSet.{AllZero};
ghost use Rattle.sparse_rows.specs.Rows.{AreBelow, AreOccupied, selected, LARGEST_SIZE};
ghost use Rattle.triangular_solve.specs.ColumnMarks.{AreMarksOf, ListsMarks, MarksColumns};

use pivot_table::Pair;
use sparse_rows::{ColumnSet, Rows};
use std::alloc::{AllocError, Global};

// The columns in which some row of the pairs has an entry, ascending. It takes a bit for each column of the matrix, or where the matrix
// is wide a copy of these rows.
pub(crate) fn occupied_columns(
    alloc: Global,
    rows: &Rows,
    pairs: &[Pair],
) -> Result<Vec<u32>, AllocError>
    requires few { length pairs.now ≤ LARGEST_SIZE }
    requires inside { (k : ℕ) → k < length pairs.now → row_at pairs.now k < rows.now.matrix.height }
    ensures { IfOk result (λ columns. AreOccupied
        (selected rows.now.matrix (map (λ q. q.row) pairs.now)) columns.items) }
{
    if rows.is_wide() {
        return columns_of_copy(alloc, rows, pairs);
    }
    marked_columns(alloc, rows, pairs)
}

// The same by a copy of the rows.
fn columns_of_copy(alloc: Global, rows: &Rows, pairs: &[Pair]) -> Result<Vec<u32>, AllocError>
    requires few { length pairs.now ≤ LARGEST_SIZE }
    requires inside { (k : ℕ) → k < length pairs.now → row_at pairs.now k < rows.now.matrix.height }
    ensures { IfOk result (λ columns. AreOccupied
        (selected rows.now.matrix (map (λ q. q.row) pairs.now)) columns.items) }
{
    rows.select(alloc, &row_numbers(alloc, pairs)?)?
        .occupied(alloc)
}

// The rows of the pairs, by their numbers.
fn row_numbers(alloc: Global, pairs: &[Pair]) -> Result<Vec<u32>, AllocError>
    ensures { IfOk result (λ numbers. numbers.items ≡ map (λ q. q.row) pairs.now) }
{
    pairs.iter().map(|pair| pair.row).collect(alloc)
}

// The same by marks.
fn marked_columns(alloc: Global, rows: &Rows, pairs: &[Pair]) -> Result<Vec<u32>, AllocError>
    requires inside { (k : ℕ) → k < length pairs.now → row_at pairs.now k < rows.now.matrix.height }
    ensures { IfOk result (λ columns. AreOccupied
        (selected rows.now.matrix (map (λ q. q.row) pairs.now)) columns.items) }
{
    let mut marks = ColumnSet::new(alloc, rows.width())?;
    mark_rows(rows, pairs, &mut marks);
    take_marks(alloc, &mut marks)
}

// Marks the columns of the pairs' rows; none is marked yet.
fn mark_rows(rows: &Rows, pairs: &[Pair], marks: &mut ColumnSet)
    requires inside { (k : ℕ) → k < length pairs.now → row_at pairs.now k < rows.now.matrix.height }
    requires width { length marks.old ≡ rows.now.matrix.width }
    requires none { AllZero marks.old }
    ensures { AreMarksOf rows.now.matrix pairs.now (length pairs.now) marks.new }
{
    // The contract of this call tells that the rows are a matrix.
    rows.is_sound();
    for k in 0..pairs.len() {
        mark(rows.cols(pairs[k].row), marks);
    }
}

// Marks these columns.
fn mark(cols: &[u32], marks: &mut ColumnSet)
    requires { AreBelow (length marks.old) cols.now }
    ensures { MarksColumns cols.now marks.old marks.new }
{
    for column in cols {
        marks.mark(*column);
    }
}

// The columns that are marked, ascending.
fn take_marks(alloc: Global, marks: &mut ColumnSet) -> Result<Vec<u32>, AllocError>
    ensures { IfOk result (λ columns. ListsMarks marks.old columns.items) }
{
    let mut columns = Vec::new(alloc);
    while let Some(column) = marks.pop() {
        columns.push(column)?;
    }
    Ok(columns)
}
