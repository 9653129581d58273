// What the library answers of matrices that C passes; `None` if they aren't sound.
ghost use Rattle.std.specs.Prelude.{◌≡◌, IfNone, IfOk, IfSome};
ghost use Rattle.pivot_table.specs.Selected.{Selected};
ghost use Rattle.spasm_c.specs.Asked.{ArePivotsOf, IsInvertedBy, IsKernelOf, IsLeftKernelOf, IsRankOf, IsRrefOf};
ghost use Rattle.spasm_c.specs.Asked.{IsSolvedBy, IsSquare, IsSystem};
ghost use Rattle.spasm_c.specs.Given.{IsSoundInput};

use crate::given::Given;
use fl_pivots::leftmost;
use optimistic_search::search_alone;
use pivot_table::Pair;
use sparse_rows::LARGEST_SIZE;
use spasm_lib::{Inverse, Rows, Solution, Team, inverse, kernel, left_kernel, rank, rref, solve};
use std::alloc::{AllocError, Global};
use triangular_solve::Triangle;

// The rank.
pub(crate) fn rank_of(alloc: Global, a: &Given<'_>) -> Result<Option<u32>, AllocError>
    ensures none { IfOk result (λ found. IfNone found (¬ IsSoundInput a.now)) }
    ensures some { IfOk result (λ found. IfSome found (IsRankOf a.now)) }
{
    let Some(matrix) = a.matrix(alloc)? else {
        return Ok(None);
    };
    let found = rank(Team::alone(alloc), &matrix)?;
    Ok(Some(found))
}

// The reduced row echelon form.
pub(crate) fn rref_of(alloc: Global, a: &Given<'_>) -> Result<Option<Rows>, AllocError>
    ensures none { IfOk result (λ found. IfNone found (¬ IsSoundInput a.now)) }
    ensures some { IfOk result (λ found. IfSome found (IsRrefOf a.now)) }
{
    let Some(matrix) = a.matrix(alloc)? else {
        return Ok(None);
    };
    let found = rref(Team::alone(alloc), &matrix)?;
    Ok(Some(found))
}

// The kernel basis.
pub(crate) fn kernel_of(alloc: Global, a: &Given<'_>) -> Result<Option<Rows>, AllocError>
    ensures none { IfOk result (λ found. IfNone found (¬ IsSoundInput a.now)) }
    ensures some { IfOk result (λ found. IfSome found (IsKernelOf a.now)) }
{
    let Some(matrix) = a.matrix(alloc)? else {
        return Ok(None);
    };
    let found = kernel(Team::alone(alloc), &matrix)?;
    Ok(Some(found))
}

// The basis of the left kernel.
pub(crate) fn left_kernel_of(alloc: Global, a: &Given<'_>) -> Result<Option<Rows>, AllocError>
    ensures none { IfOk result (λ found. IfNone found (¬ IsSoundInput a.now)) }
    ensures some { IfOk result (λ found. IfSome found (IsLeftKernelOf a.now)) }
{
    let Some(matrix) = a.matrix(alloc)? else {
        return Ok(None);
    };
    let found = left_kernel(Team::alone(alloc), &matrix)?;
    Ok(Some(found))
}

// What there is to say of A x = b.
pub(crate) fn solution_of(
    alloc: Global,
    a: &Given<'_>,
    b: &Given<'_>,
) -> Result<Option<Solution>, AllocError>
    ensures none { IfOk result (λ found. IfNone found (¬ IsSystem a.now b.now)) }
    ensures some { IfOk result (λ found. IfSome found (IsSolvedBy a.now b.now)) }
{
    if a.modulus != b.modulus || a.height != b.height || b.width != 1 {
        return Ok(None);
    }
    if a.height >= LARGEST_SIZE || a.width >= LARGEST_SIZE {
        return Ok(None);
    }
    let Some(matrix) = a.matrix(alloc)? else {
        return Ok(None);
    };
    let Some(side) = b.matrix(alloc)? else {
        return Ok(None);
    };
    let found = solve(Team::alone(alloc), &matrix, &side)?;
    Ok(Some(found))
}

// What there is to say of the inverse.
pub(crate) fn inversion_of(alloc: Global, a: &Given<'_>) -> Result<Option<Inverse>, AllocError>
    ensures none { IfOk result (λ found. IfNone found (¬ IsSquare a.now)) }
    ensures some { IfOk result (λ found. IfSome found (IsInvertedBy a.now)) }
{
    if a.height != a.width || a.width > LARGEST_SIZE / 2 {
        return Ok(None);
    }
    let Some(matrix) = a.matrix(alloc)? else {
        return Ok(None);
    };
    let found = inverse(Team::alone(alloc), &matrix)?;
    Ok(Some(found))
}

// The pivots that one worker selects.
pub(crate) fn pivots_of(alloc: Global, a: &Given<'_>) -> Result<Option<Vec<Pair>>, AllocError>
    ensures none { IfOk result (λ found. IfNone found (¬ IsSoundInput a.now)) }
    ensures some { IfOk result (λ found. IfSome found (λ pairs. ArePivotsOf a.now pairs.items)) }
{
    let Some(matrix) = a.matrix(alloc)? else {
        return Ok(None);
    };
    let found = selected(alloc, &matrix)?;
    Ok(Some(found))
}

// The same of a matrix, as `spasm_lib::pivots` finds them with one worker.
fn selected(alloc: Global, a: &Rows) -> Result<Vec<Pair>, AllocError>
    ensures { IfOk result (λ pairs. Selected a.now.matrix 1 pairs.items) }
{
    let first = leftmost(alloc, a)?;
    let book = search_alone(alloc, first)?;
    let triangle = Triangle::of(alloc, &book)?;
    let pairs = Vec::from_slice(alloc, triangle.pairs())?;
    Ok(pairs)
}
