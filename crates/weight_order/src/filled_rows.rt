// The rows that have an entry, in the orders in which they are taken.
ghost use Rattle.std.specs.Prelude.{◌≡◌, ◌/◌, ◌^◌, map, IfOk, IsPermutation};
ghost use Rattle.weight_order.specs.Shape.{ArePlacedWeights, IsRarestFirst};

use std::alloc::{AllocError, Global};

/// In which order the rows of a matrix by weight stand.
#[derive(Clone, Copy, Debug, PartialEq, Eq)]
pub enum RowOrder {
    /// As they stood; if the matrix is transposed, its columns from the first to the last.
    Kept,
    /// From the last to the first.
    LastFirst,
}

impl RowOrder {
    // Ascending rows in this order.
    pub(crate) fn of(self, mut rows: Vec<u32>) -> Vec<u32>
        ensures { IsPermutation rows.items result.items }
    {
        match self {
            RowOrder::Kept => rows,
            RowOrder::LastFirst => {
                rows.reverse();
                rows
            }
        }
    }
}

// The rows that stand behind these weights, the rarest first, those of equal weight by ascending numbers.
pub(crate) fn rarest_first(
    alloc: Global,
    mut weights: Vec<(u32, u32)>,
) -> Result<Vec<u32>, AllocError>
    ensures { IfOk result (λ order. IsRarestFirst weights.items order.items) }
{
    weights.sort_unstable();
    numbers(alloc, &weights)
}

// The same, but those of equal weight by their places.
pub(crate) fn rarest_first_by(
    alloc: Global,
    weights: &[(u32, u32)],
    places: &[u32],
) -> Result<Vec<u32>, AllocError>
    ensures { IfOk result (λ order. IsRarestFirst weights.now order.items) }
{
    let mut placed = placed(alloc, weights, places)?;
    placed.sort_unstable();
    placed_numbers(alloc, &placed)
}

// The weights, each followed by the place of its row.
fn placed(
    alloc: Global,
    weights: &[(u32, u32)],
    places: &[u32],
) -> Result<Vec<(u64, u32)>, AllocError>
    ensures { IfOk result (λ placed. ArePlacedWeights weights.now placed.items) }
{
    let mut placed = Vec::with_capacity(alloc, weights.len())?;
    for (weight, row) in weights {
        placed.push((placed_weight(*weight, place_in(places, *row)), *row))?;
    }
    Ok(placed)
}

// A weight in the upper half of a word, and a place in the lower.
fn placed_weight(weight: u32, place: u32) -> u64
    ensures { result / 2 ^ 32 ≡ weight }
{
    u64::from(weight) * 0x1_0000_0000 + u64::from(place)
}

// The place of a row; the last if it has none.
fn place_in(places: &[u32], row: u32) -> u32 {
    if (row as usize) < places.len() {
        places[row as usize]
    } else {
        u32::MAX
    }
}

// Which rows these are.
fn placed_numbers(alloc: Global, placed: &[(u64, u32)]) -> Result<Vec<u32>, AllocError>
    ensures { IfOk result (λ numbers. numbers.items ≡ map (λ w. w.1) placed.now) }
{
    let mut numbers = Vec::with_capacity(alloc, placed.len())?;
    for (_, placed_row) in placed {
        numbers.push(*placed_row)?;
    }
    Ok(numbers)
}

// Rows by their places.
pub(crate) fn by_places(
    alloc: Global,
    mut rows: Vec<u32>,
    places: &[u32],
) -> Result<Vec<u32>, AllocError>
    ensures { IfOk result (λ order. IsPermutation rows.items order.items) }
{
    rows.sort_unstable_by_key(|row| place_in(places, *row));
    Ok(rows)
}

// Which rows these are.
pub(crate) fn numbers(alloc: Global, weights: &[(u32, u32)]) -> Result<Vec<u32>, AllocError>
    ensures { IfOk result (λ numbers. numbers.items ≡ map (λ w. w.1) weights.now) }
{
    let mut numbers = Vec::with_capacity(alloc, weights.len())?;
    for (_, row) in weights {
        numbers.push(*row)?;
    }
    Ok(numbers)
}
