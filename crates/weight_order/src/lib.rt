//! For each matrix one of the same rank, with its rarest columns first; and the laws by which the rank is the same.
#![tactic(auto)]

mod filled_rows;
mod front;
mod in_order;
mod multiples;
mod open_rows;
mod waiting_rows;

ghost use Rattle.std.specs.Prelude.{◌≡◌, ◌≤◌, length, IfOk};
ghost use Rattle.sparse_rows.specs.Rows.{AreOccupied, AreWeights, selected, transposed};
ghost use Rattle.weight_order.specs.Example.{IsTurnedExample};
ghost use Rattle.weight_order.specs.Keeping.{AreFilledInSomeOrder, KeepsRank};
ghost use Rattle.weight_order.specs.Laws.{SelectingKeepsRank, SelectingKeepsSpan, TransposingKeepsRank};
ghost use Rattle.weight_order.specs.Multiples.{HasSpanningRows};
ghost use Rattle.weight_order.specs.Shape.{HasColumnsByWeight, HasFewFilled, HasFewRisingRows, HasRarestFirst};
ghost use Rattle.weight_order.specs.Turned.{HasFilledRows};

pub use filled_rows::RowOrder;
use filled_rows::{by_places, numbers, rarest_first, rarest_first_by};
use front::FrontPlaces;
use in_order::rearranged;
use multiples::distinct;
use sparse_rows::Rows;
use std::alloc::{AllocError, Global};

/// A matrix of the same rank that has its rarest columns first, and no row or column without an entry. If more columns than rows
/// have an entry, it is transposed. Then its columns stand by how many entries they have, the fewest first, those with as many by
/// ascending numbers; and its rows in the given order.
///
/// Few rows are changed by pivots in rare columns, so that what they leave stays sparse (Markowitz, The elimination form of the
/// inverse and its application to linear programming, 1957). It takes time by the entries, times a logarithm of the rows and
/// columns that have one; and memory for one such matrix beside the given one, two if it is transposed, or three if it has many more
/// rows or columns than entries. Rows and columns without an entry cost nothing then.
pub fn by_weight(alloc: Global, rows: &Rows, order: RowOrder) -> Result<Rows, AllocError>
    ensures rank { IfOk result (KeepsRank rows.now) }
    ensures shape { IfOk result (λ made. HasRarestFirst made.matrix) }
{
    if rows.is_wide() {
        let columns = columns_of_wide(alloc, rows)?;
        return from_columns(alloc, columns, order);
    }
    by_counted_weight(alloc, rows, order)
}

/// What `by_weight` makes, with the columns of equal weight and the rows in the order in which a front that grows over the matrix comes to
/// them, which doesn't hang on their numbers: a row all of whose columns but one are settled settles the last one, and if there is none, a
/// column is made free near the front. Boundary maps of complexes, in whatever order their cells stand, so have about as many leftmost
/// pivots as their rank is, and what these leave stays sparse; but the front costs more than the weights.
///
/// This is the inactivation of decoders (Shokrollahi and Luby, Raptor codes, 2011), and the coreduction of complexes (Mrozek and Batko,
/// Coreduction homology algorithm, 2009). Beside what `by_weight` takes, it takes time by the entries and, for each column that is made free,
/// 64 rows of each column of one row; and memory for two such matrices, 24 bytes a row and 13 a column.
pub fn by_front(alloc: Global, rows: &Rows) -> Result<Rows, AllocError>
    ensures rank { IfOk result (KeepsRank rows.now) }
    ensures shape { IfOk result (λ made. HasRarestFirst made.matrix) }
{
    let ordered = by_weight(alloc, rows, RowOrder::Kept)?;
    in_front_order(alloc, ordered)
}

/// The rows that have an entry, from the last to the first. They have the same row space.
pub fn last_first(alloc: Global, rows: &Rows) -> Result<Rows, AllocError>
    ensures { IfOk result (HasFilledRows rows.now) }
{
    // The contracts of these calls tell that the rows are a matrix of residues, and bound their number.
    rows.is_sound();
    let mut order = rows.filled(alloc)?;
    order.reverse();
    let turned = rows.select(alloc, &order)?;
    Ok(turned)
}

/// The matrix without rows that are a multiple of one before them, if there are any, and then also without rows of zeros; else the matrix
/// as it is. It takes time by the entries, and memory of up to 48 bytes for each row that has an entry, beside the matrix that is
/// made. Multiples may stay if more than 64 rows have hashes that are close. Of a modulus that isn't prime, rows may go that are no
/// multiple.
pub fn without_multiples(alloc: Global, rows: Rows) -> Result<Rows, AllocError>
    ensures { IfOk result (HasSpanningRows rows) }
{
    // The contracts of these calls tell that the rows are a matrix of residues, and bound their number.
    rows.is_sound();
    let filled = rows.filled(alloc)?;
    let kept = distinct(alloc, &rows, &filled)?;
    if kept.len() == filled.len() {
        return Ok(rows);
    }
    let distinct_rows = rows.select(alloc, &kept)?;
    Ok(distinct_rows)
}

/// For a prime modulus a matrix and its transpose have the same rank.
pub fn transposing_keeps_rank()
    ensures { TransposingKeepsRank }
{}

/// Rows that are picked in any order, among them each one that has an entry, have the same row space.
pub fn selecting_keeps_span()
    ensures { SelectingKeepsSpan }
{}

/// Rows that are picked so have the same rank.
pub fn selecting_keeps_rank()
    ensures { SelectingKeepsRank }
{}

/// A matrix of 3 x 3 modulo 7 and its transpose both have rank 2.
pub fn example_is_turned()
    ensures { IsTurnedExample }
{}

// The matrix by weight, where the columns aren't many more than the entries: the entries in each are counted.
fn by_counted_weight(alloc: Global, rows: &Rows, order: RowOrder) -> Result<Rows, AllocError>
    ensures rank { IfOk result (KeepsRank rows.now) }
    ensures shape { IfOk result (λ made. HasRarestFirst made.matrix) }
{
    // The contract of this call tells that the rows are a matrix of residues.
    rows.is_sound();
    let weights = rows.column_weights(alloc)?;
    let filled = rows.filled(alloc)?;
    if weights.len() > filled.len() {
        let columns = rows_as_columns(alloc, rows, numbers(alloc, &weights)?)?;
        return from_columns(alloc, columns, order);
    }
    with_rarest_first(alloc, rows, weights, order.of(filled), &[])
}

// A matrix by weight in the order of a front.
fn in_front_order(alloc: Global, rows: Rows) -> Result<Rows, AllocError>
    requires { HasRarestFirst rows.matrix }
    ensures rank { IfOk result (KeepsRank rows) }
    ensures shape { IfOk result (λ made. HasRarestFirst made.matrix) }
{
    // The contract of this call tells that the rows are a matrix of residues.
    rows.is_sound();
    let places = FrontPlaces::of(alloc, &rows)?;
    let weights = rows.column_weights(alloc)?;
    let filled = rows.filled(alloc)?;
    // In fact there are no more columns, but the test is shorter than what would tell it.
    if filled.len() < weights.len() {
        return Ok(rows);
    }
    let order = by_places(alloc, filled, &places.rows)?;
    let made = with_rarest_first(alloc, &rows, weights, order, &places.columns)?;
    Ok(made)
}

// The columns that have an entry, the rarest first, whose weights are given, those of equal weight by their places; and the rows that have
// one, which are as many or more.
fn with_rarest_first(
    alloc: Global,
    rows: &Rows,
    weights: Vec<(u32, u32)>,
    order: Vec<u32>,
    places: &[u32],
) -> Result<Rows, AllocError>
    requires weights { AreWeights (transposed rows.now.matrix) weights.items }
    requires order { AreFilledInSomeOrder rows.now.matrix order.items }
    requires few { length weights.items ≤ length order.items }
    ensures rank { IfOk result (KeepsRank rows.now) }
    ensures shape { IfOk result (λ made. HasRarestFirst made.matrix) }
{
    // The contract of this call tells that the rows are a matrix of residues, and bounds its sizes.
    rows.is_sound();
    let columns = rarest_first_by(alloc, &weights, places)?;
    let made = rearranged(alloc, rows, &order, &columns)?;
    Ok(made)
}

// Columns as rows, and which of their columns have an entry, ascending.
#[derive(Drop)]
struct Turned {
    columns: Rows,
    occupied: Vec<u32>,
}

// What will be the columns, as rows, where the columns are many more than the entries, so that to count in each takes too long: those
// that have an entry, the rarest first; or the rows, if fewer of them have one.
fn columns_of_wide(alloc: Global, rows: &Rows) -> Result<Turned, AllocError>
    ensures { IfOk result (λ made. HasColumnsByWeight rows.now made.columns made.occupied.items) }
{
    let occupied = rows.occupied(alloc)?;
    let filled = rows.filled(alloc)?;
    if occupied.len() > filled.len() {
        return rows_as_columns(alloc, rows, occupied);
    }
    // The contract of this call tells that the rows are a matrix of residues.
    rows.is_sound();
    let columns = rows.transpose(alloc)?;
    rows_as_columns(alloc, &columns, filled)
}

// The rows that have an entry, the rarest first, and which columns have one, which are as many or more.
fn rows_as_columns(alloc: Global, rows: &Rows, occupied: Vec<u32>) -> Result<Turned, AllocError>
    requires occupied { AreOccupied rows.now.matrix occupied.items }
    requires few { HasFewFilled rows.now.matrix (length occupied.items) }
    ensures { IfOk result (λ made. HasColumnsByWeight rows.now made.columns made.occupied.items) }
{
    // The contract of this call tells that the rows are a matrix of residues.
    rows.is_sound();
    let order = rarest_first(alloc, rows.row_weights(alloc)?)?;
    Ok(Turned {
        columns: rows_in_order(alloc, rows, &order)?,
        occupied,
    })
}

// The matrix with these columns, of which the rows that have an entry stand in the given order.
fn from_columns(alloc: Global, turned: Turned, order: RowOrder) -> Result<Rows, AllocError>
    requires shape { HasFewRisingRows turned.columns.matrix }
    requires occupied { AreOccupied turned.columns.matrix turned.occupied.items }
    ensures rank { IfOk result (KeepsRank turned.columns) }
    ensures shape { IfOk result (λ made. HasRarestFirst made.matrix) }
{
    // The contract of this call tells that the columns are a matrix of residues.
    turned.columns.is_sound();
    let order = order.of(turned.occupied);
    columns_in_order(alloc, &turned.columns, &order)
}

// The rows that have an entry, in this order.
fn rows_in_order(alloc: Global, rows: &Rows, order: &[u32]) -> Result<Rows, AllocError>
    requires { AreFilledInSomeOrder rows.now.matrix order.now }
    ensures rank { IfOk result (KeepsRank rows.now) }
    ensures rows { IfOk result (λ made. made.matrix ≡ selected rows.now.matrix order.now) }
{
    // The contracts of these calls tell that the rows are a matrix of residues, and bound their number.
    rows.is_sound();
    let picked = rows.select(alloc, order)?;
    Ok(picked)
}

// The columns that have an entry as rows, in this order.
fn columns_in_order(alloc: Global, rows: &Rows, order: &[u32]) -> Result<Rows, AllocError>
    requires { AreFilledInSomeOrder (transposed rows.now.matrix) order.now }
    ensures rank { IfOk result (KeepsRank rows.now) }
    ensures rows { IfOk result (λ made. made.matrix ≡ selected (transposed rows.now.matrix) order.now) }
{
    // The contract of this call tells that the rows are a matrix of residues, and bounds the number of columns.
    rows.is_sound();
    let turned = rows.transpose_select(alloc, order)?;
    Ok(turned)
}
