// A basis of what a round leaves, made chunk by chunk, without storing it.
ghost use Rattle.std.specs.Prelude.{◌≡◌, ◌<◌, ◌≤◌, ◌↔◌, ◌+◌, ℕ, length, slice_index, Contains, IfOk, IsTrue};
ghost use Rattle.sparse_rows.specs.Rows.{LARGEST_SIZE, AreRising, above};
ghost use Rattle.schur_rows.specs.PivotNumbers.{HasNumbers};
ghost use Rattle.schur_rows.specs.RestBasis.{IsBasisOf, IsBasisOfBoth, IsBasisWith, IsFullFor, IsRestBasis, HasColumnsLeft};

use crate::chunk_size::{CHUNK, ChunkSize, Gain, NO_CHUNK, lacks_few};
use crate::dealing::Dealing;
use crate::pivot_numbers::{PivotNumbers, place_of};
use crate::reduction_pass::ReductionPass;
use crate::round::SchurRows;
use crate::row_ranges::end_of;
use crate::row_reducer::RowReducer;
use crate::sampling::total_left;
use crate::workers::left_between;
use crew::Alone;
use dense_finish::{Finishing, RightFactor, finish_right};
use echelon_form::Echelon;
use sparse_rows::Rows;
use std::alloc::{AllocError, Global};
use weight_order::last_first;

/// Independent rows with the row space of what the pivots of a triangle leave of its matrix, for a prime modulus, by so many
/// workers, at least one. For a modulus that is not prime they are some rows of its width, no more than it has.
///
/// What is left is never stored whole. The rows are reduced chunk by chunk; each chunk is put below the basis of those before it,
/// and both are eliminated densely (`dense_finish::finish_right`): the right factor is the next basis. Once it has a row for each column
/// that is left, the rows behind are not reduced; a chunk is not eliminated if the basis has a row for each column in which one of the
/// two has an entry.
///
/// The memory is that of the basis and of a chunk, which has some 2^22 to 2^24 places in the columns that are left. While rows are
/// independent a chunk has little more rows than the basis lacks. After many that were not it has four times the rows of the basis, if
/// the columns are few, so that eliminating the basis again takes an eighth of the time; after a chunk that gave none, twice its rows.
pub fn rest_basis<C: Dealing + Finishing>(
    crew: &C,
    alloc: Global,
    reducer: &RowReducer,
    workers: u32,
) -> Result<Rows, AllocError>
    requires able { C.can_work }
    requires some { 1 ≤ workers }
    ensures { IfOk result (IsRestBasis reducer.now) }
{
    rest_basis_by(crew, alloc, reducer, workers, CHUNK)
}

/// The same, by at least one worker too, in chunks of this size. Larger ones take more memory, 4 bytes a place where the modulus is
/// below 2^31 and else 8, and eliminate the basis again less often.
pub fn rest_basis_by<C: Dealing + Finishing>(
    crew: &C,
    alloc: Global,
    reducer: &RowReducer,
    workers: u32,
    size: ChunkSize,
) -> Result<Rows, AllocError>
    requires able { C.can_work }
    requires some { 1 ≤ workers }
    ensures { IfOk result (IsRestBasis reducer.now) }
{
    let pivot_rows = PivotNumbers::of(alloc, reducer)?;
    let pass = ReductionPass {
        reducer,
        pivot_rows: &pivot_rows,
        with_coefficients: false,
        total: total_left(alloc, reducer, &pivot_rows)?,
    };
    basis_of(crew, alloc, pass, workers, size)
}

// The same by a pass.
fn basis_of<C: Dealing + Finishing>(
    crew: &C,
    alloc: Global,
    pass: ReductionPass,
    workers: u32,
    size: ChunkSize,
) -> Result<Rows, AllocError>
    requires able { C.can_work }
    requires some { 1 ≤ workers }
    requires numbers { HasNumbers pass.reducer.now.pairs pass.pivot_rows.now }
    ensures { IfOk result (IsRestBasis pass.entry.reducer.now) }
{
    let rows = pass.reducer.rows();
    let height = rows.height();
    // The call's contract tells that the pivots are triangular.
    pass.reducer.is_sound();
    let columns = columns_left(alloc, pass.reducer)?;
    let mut basis = Rows::with_room(alloc, rows.modulus(), rows.width(), 0, 0)?;
    let mut last = NO_CHUNK;
    let mut from = 0;
    // A basis with a row for each column that is left has the row space of all rows.
    while from < height && (basis.height() as usize) < columns {
        let before = basis.height();
        let count = size.rows_below(before, columns, last);
        let to = end_of(pass.reducer, pass.pivot_rows, from, count);
        let left = left_between(crew, alloc, pass, workers, from, to)?;
        basis = basis_with(crew, alloc, basis, left, workers)?;
        let gained = basis.height().saturating_sub(before);
        last = Gain {
            rows: count,
            gained,
        };
        from = to;
    }
    Ok(basis)
}

// How many columns may have an entry in what is left.
fn columns_left(alloc: Global, reducer: &RowReducer) -> Result<usize, AllocError>
    ensures { IfOk result (HasColumnsLeft reducer.now.rows.matrix reducer.now.pairs) }
{
    let pivots = reducer.pairs().len();
    let occupied = reducer.rows().occupied(alloc)?.len();
    Ok(occupied.saturating_sub(pivots))
}

// The rows below those of a basis, which are the rows alone where the basis has none.
fn stacked(basis: Rows, below: Rows) -> Result<Rows, AllocError>
    requires modulus { below.modulus ≡ basis.modulus }
    requires width { below.matrix.width ≡ basis.matrix.width }
    requires height { basis.matrix.height + below.matrix.height ≤ LARGEST_SIZE }
    ensures modulus { IfOk result (λ rows. rows.modulus ≡ basis.modulus) }
    ensures matrix { IfOk result (λ rows. rows.matrix ≡ above basis.matrix below.matrix) }
{
    if basis.height() == 0 {
        return Ok(below);
    }
    let mut rows = basis;
    rows.append_all(&below)?;
    Ok(rows)
}

// Whether independent rows are as many as the columns in which they or the rows below have an entry, so that these are combinations of
// them; in time by the entries, and for those below only where the rows fill their own columns.
fn is_full_for(alloc: Global, below: &Rows, basis: &Rows) -> Result<bool, AllocError>
    ensures { IfOk result (λ full. IsTrue full → IsFullFor below.now.matrix basis.now.matrix) }
{
    let columns = basis.occupied(alloc)?;
    if columns.len() > basis.height() as usize {
        return Ok(false);
    }
    let others = below.occupied(alloc)?;
    Ok(are_among(&others, &columns))
}

// Whether each of these columns is among the others, which ascend.
fn are_among(columns: &[u32], others: &[u32]) -> bool
    requires { AreRising others.now }
    ensures { IsTrue result ↔ ((k : ℕ) → k < length columns.now →
        Contains others.now (slice_index columns.now k)) }
{
    for k in 0..columns.len() {
        if place_of(others, columns[k]).is_none() {
            return false;
        }
    }
    true
}

// A basis of the rows of a basis and of these, which are left of the rows behind.
fn basis_with<C: Finishing>(
    crew: &C,
    alloc: Global,
    basis: Rows,
    left: SchurRows,
    workers: u32,
) -> Result<Rows, AllocError>
    requires able { C.can_work }
    requires some { 1 ≤ workers }
    requires modulus { left.rows.modulus ≡ basis.modulus }
    requires width { left.rows.matrix.width ≡ basis.matrix.width }
    requires height { basis.matrix.height + left.rows.matrix.height ≤ LARGEST_SIZE }
    ensures { IfOk result (IsBasisWith left basis) }
{
    let below = left.into_rows();
    let full = is_full_for(alloc, &below, &basis)?;
    if full {
        return Ok(basis);
    }
    let nearly = is_nearly_full(alloc, &basis)?;
    if nearly {
        return by_form(alloc, basis, below);
    }
    by_factors(crew, alloc, basis, below, workers)
}

// Whether independent rows are nearly as many as the columns in which they have an entry.
fn is_nearly_full(alloc: Global, basis: &Rows) -> Result<bool, AllocError> {
    let columns = basis.occupied(alloc)?;
    Ok(lacks_few(basis.height(), columns.len()))
}

// A basis of the rows of two matrices by their reduced echelon form.
fn by_form(alloc: Global, basis: Rows, below: Rows) -> Result<Rows, AllocError>
    requires modulus { below.modulus ≡ basis.modulus }
    requires width { below.matrix.width ≡ basis.matrix.width }
    requires height { basis.matrix.height + below.matrix.height ≤ LARGEST_SIZE }
    ensures { IfOk result (IsBasisOfBoth basis below) }
{
    // From the last to the first, so that each is reduced by rows that are.
    let turned = last_first(alloc, &basis)?;
    drop(basis);
    let both = stacked(turned, below)?;
    reduced_basis(alloc, both)
}

// A basis of the rows of two matrices by a right factor.
fn by_factors<C: Finishing>(
    crew: &C,
    alloc: Global,
    basis: Rows,
    below: Rows,
    workers: u32,
) -> Result<Rows, AllocError>
    requires able { C.can_work }
    requires some { 1 ≤ workers }
    requires modulus { below.modulus ≡ basis.modulus }
    requires width { below.matrix.width ≡ basis.matrix.width }
    requires height { basis.matrix.height + below.matrix.height ≤ LARGEST_SIZE }
    ensures { IfOk result (IsBasisOfBoth basis below) }
{
    let both = stacked(basis, below)?;
    let RightFactor { u, .. } = finish_right(crew, alloc, both, workers)?;
    Ok(u)
}

// The reduced echelon form of these rows, by their entries: a row whose columns are those of leads costs no more than the form has
// entries in these rows.
fn reduced_basis(alloc: Global, rows: Rows) -> Result<Rows, AllocError>
    ensures { IfOk result (IsBasisOf rows) }
{
    let form = Echelon::made_by(&Alone, alloc, &rows, 1)?;
    let basis = form.into_rows();
    // It has no more rows, but if the modulus isn't prime.
    if basis.height() > rows.height() {
        return Ok(rows);
    }
    Ok(basis)
}
