// Matrices whose columns stand in order of weight, and back.
ghost use Rattle.std.specs.Prelude.{◌≡◌, ◌≤◌, length, IfOk, IsPermutation};
ghost use Rattle.std.specs.List.{range_with_len};
ghost use Rattle.sparse_rows.specs.Rows.{narrowed, LARGEST_SIZE, AreBelow, AreDistinct, AreEnoughInSomeOrder};
ghost use Rattle.pluq_factor.specs.Reordered.{ArePlacesOf, IsReordered};

use crate::measured::Measured;
use sparse_rows::Rows;
use std::alloc::{AllocError, Global};

// A matrix with its rarest columns first, and where in it each column of the given one stands.
#[derive(Debug, Drop)]
pub(crate) struct Reordered {
    pub(crate) matrix: Measured,
    pub(crate) places: Vec<u32>,
}

impl Reordered {
    // In time by the entries and, times a logarithm, the width; and memory for two such matrices, with 12 bytes a column.
    pub(crate) fn of(alloc: Global, rows: &Rows) -> Result<Reordered, AllocError>
        ensures { IfOk result (λ r. IsReordered rows.now r.matrix.rows r.places.items) }
    {
        // The contract of this call tells that the rows are a matrix of residues, and how wide it is.
        rows.is_sound();
        let order = rarest_first(alloc, rows)?;
        let places = places_of(alloc, &order)?;
        let reordered = columns_in_order(alloc, rows, &order)?;
        Ok(Reordered {
            matrix: Measured::of(alloc, reordered)?,
            places,
        })
    }
}

// The columns, those with the fewest entries first, and those without an entry last.
fn rarest_first(alloc: Global, rows: &Rows) -> Result<Vec<u32>, AllocError>
    ensures { IfOk result (λ order. IsPermutation (range_with_len 0 rows.now.matrix.width) order.items) }
{
    let weights = weights(alloc, rows)?;
    let mut order = numbers_below(alloc, rows.width())?;
    order.sort_unstable_by_key(|column| key(&weights, *column));
    Ok(order)
}

// How many entries each column has; the most where it has none.
fn weights(alloc: Global, rows: &Rows) -> Result<Vec<u32>, AllocError> {
    let mut weights = vec![in alloc; u32::MAX; rows.width() as usize]?;
    for (weight, column) in &rows.column_weights(alloc)? {
        if (*column as usize) < weights.len() {
            weights[*column as usize] = *weight;
        }
    }
    Ok(weights)
}

// A column's weight in the upper half of a word, and its number in the lower.
fn key(weights: &[u32], column: u32) -> u64 {
    let weight = if (column as usize) < weights.len() {
        weights[column as usize]
    } else {
        u32::MAX
    };
    u64::from(weight) * 0x1_0000_0000 + u64::from(column)
}

// 0, 1, 2, .., so many.
fn numbers_below(alloc: Global, n: u32) -> Result<Vec<u32>, AllocError>
    ensures { IfOk result (λ numbers. numbers.items ≡ range_with_len 0 n) }
{
    let mut numbers = Vec::with_capacity(alloc, n as usize)?;
    for k in 0..n {
        numbers.push(k)?;
    }
    Ok(numbers)
}

// Where each number stands among these, which are those below their count in some order.
fn places_of(alloc: Global, order: &[u32]) -> Result<Vec<u32>, AllocError>
    requires few { length order.now ≤ LARGEST_SIZE }
    requires below { AreBelow (length order.now) order.now }
    requires distinct { AreDistinct order.now }
    ensures { IfOk result (λ places. ArePlacesOf order.now places.items) }
{
    let mut places = vec![in alloc; 0; order.len()]?;
    for k in 0..order.len() {
        places[order[k] as usize] = k as u32;
    }
    Ok(places)
}

// The matrix whose columns are these, among them all that have an entry.
pub(crate) fn columns_in_order(
    alloc: Global,
    rows: &Rows,
    columns: &[u32],
) -> Result<Rows, AllocError>
    requires few { length columns.now ≤ LARGEST_SIZE }
    requires columns { AreEnoughInSomeOrder rows.now.matrix columns.now }
    ensures modulus { IfOk result (λ made. made.modulus ≡ rows.now.modulus) }
    ensures matrix { IfOk result (λ made. made.matrix ≡ narrowed rows.now.matrix columns.now) }
{
    rows.transpose_select(alloc, columns)?.transpose(alloc)
}
