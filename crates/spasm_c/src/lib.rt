//! The library for C. Each export answers for a matrix that C passes as arrays, by the caller alone, and starts no thread; its contract
//! is that of the call of `spasm_lib` that it makes.
//!
//! An answer that is a matrix is written to the caller's arrays if they are long enough, and else it is told how long they have to be: a
//! second call computes it again. Where the status isn't a good one, and isn't `SPASM_NO_ROOM`, nothing is written.
#![tactic(auto)]

mod asked;
mod given;
mod places;
mod room;
mod status;

ghost use Rattle.std.specs.Prelude.{◌≡◌, ◌≢◌, ◌<◌};
ghost use Rattle.spasm_c.specs.Asked.{IsInversionAnswerOf, IsSystemAnswerOf, ArePivotsOf, IsInverseOf, IsKernelOf, IsLeftKernelOf};
ghost use Rattle.spasm_c.specs.Asked.{IsNullVectorOf, IsRankOf, IsRefutationOf, IsRrefOf, IsSolutionOf, IsSquare, IsSystem};
ghost use Rattle.spasm_c.specs.Filled.{HoldsMatrix, IsRoomKept, LacksMatrix};
ghost use Rattle.spasm_c.specs.Given.{IsSoundInput};
ghost use Rattle.spasm_c.specs.Placed.{ArePlacesKept, HoldsPlaces, LacksPlaces};
ghost use Rattle.spasm_c.specs.declared.status.TheConstants.{SPASM_BAD_INPUT, SPASM_NO_ROOM, SPASM_OK};
ghost use Rattle.spasm_c.specs.declared.status.TheConstants.{SPASM_REFUTED, SPASM_SINGULAR};

use asked::{inversion_of, kernel_of, left_kernel_of, pivots_of, rank_of, rref_of, solution_of};
pub use given::Given;
pub use places::Places;
pub use room::Room;
use spasm_lib::{Inverse, Solution};
pub use status::{
    SPASM_BAD_INPUT, SPASM_NO_MEMORY, SPASM_NO_ROOM, SPASM_OK, SPASM_REFUTED, SPASM_SINGULAR,
};
use std::alloc::Global;

/// The library's version: the major one times 10000, the minor one times 100, and the patch.
#[unsafe(no_mangle)]
pub extern "C" fn spasm_version() -> u32
    ensures { result ≡ 10000 }
{
    10000
}

/// The rank of a matrix, modulo a prime; the cheapest of the calls. Modulo another number it is some number that is no more than the height
/// and the width.
#[unsafe(no_mangle)]
pub extern "C" fn spasm_rank(alloc: Global, a: &Given<'_>, rank: &mut u32) -> u32
    ensures rank { result ≡ SPASM_OK → IsRankOf a.now rank.new }
    ensures refused { result ≡ SPASM_BAD_INPUT → ¬ IsSoundInput a.now }
    ensures kept { result ≢ SPASM_OK → rank.new ≡ rank.old }
{
    match rank_of(alloc, a) {
        Ok(Some(found)) => {
            *rank = found;
            SPASM_OK
        }
        Ok(None) => SPASM_BAD_INPUT,
        Err(_) => SPASM_NO_MEMORY,
    }
}

/// The reduced row echelon form of a matrix, modulo a prime: as many rows as the rank r, and no more than r + r (width - r) entries. Modulo
/// another number it is some rows of the matrix's width.
#[unsafe(no_mangle)]
pub extern "C" fn spasm_rref(alloc: Global, a: &Given<'_>, form: &mut Room<'_>) -> u32
    ensures form { result ≡ SPASM_OK → HoldsMatrix (IsRrefOf a.now) form.new }
    ensures room { result ≡ SPASM_NO_ROOM → LacksMatrix (IsRrefOf a.now) form.old form.new }
    ensures refused { result ≡ SPASM_BAD_INPUT → ¬ IsSoundInput a.now }
    ensures kept { result ≢ SPASM_OK → result ≢ SPASM_NO_ROOM → IsRoomKept form.old form.new }
{
    match rref_of(alloc, a) {
        Ok(Some(found)) => form.fill(alloc, &found, SPASM_OK),
        Ok(None) => SPASM_BAD_INPUT,
        Err(_) => SPASM_NO_MEMORY,
    }
}

/// The basis of the kernel in its reduced form, modulo a prime: a row for each column where no row of the echelon form leads, with no more
/// entries than the rank and one more.
#[unsafe(no_mangle)]
pub extern "C" fn spasm_kernel(alloc: Global, a: &Given<'_>, basis: &mut Room<'_>) -> u32
    ensures basis { result ≡ SPASM_OK → HoldsMatrix (IsKernelOf a.now) basis.new }
    ensures room { result ≡ SPASM_NO_ROOM → LacksMatrix (IsKernelOf a.now) basis.old basis.new }
    ensures refused { result ≡ SPASM_BAD_INPUT → ¬ IsSoundInput a.now }
    ensures kept { result ≢ SPASM_OK → result ≢ SPASM_NO_ROOM → IsRoomKept basis.old basis.new }
{
    match kernel_of(alloc, a) {
        Ok(Some(found)) => basis.fill(alloc, &found, SPASM_OK),
        Ok(None) => SPASM_BAD_INPUT,
        Err(_) => SPASM_NO_MEMORY,
    }
}

/// The basis of the left kernel, modulo a prime: the kernel basis of the transposed matrix.
#[unsafe(no_mangle)]
pub extern "C" fn spasm_left_kernel(alloc: Global, a: &Given<'_>, basis: &mut Room<'_>) -> u32
    ensures basis { result ≡ SPASM_OK → HoldsMatrix (IsLeftKernelOf a.now) basis.new }
    ensures room { result ≡ SPASM_NO_ROOM → LacksMatrix (IsLeftKernelOf a.now) basis.old basis.new }
    ensures refused { result ≡ SPASM_BAD_INPUT → ¬ IsSoundInput a.now }
    ensures kept { result ≢ SPASM_OK → result ≢ SPASM_NO_ROOM → IsRoomKept basis.old basis.new }
{
    match left_kernel_of(alloc, a) {
        Ok(Some(found)) => basis.fill(alloc, &found, SPASM_OK),
        Ok(None) => SPASM_BAD_INPUT,
        Err(_) => SPASM_NO_MEMORY,
    }
}

/// The reduced solution of A x = b as a column, or, with `SPASM_REFUTED`, the row that refutes the system; modulo a prime. Both matrices have
/// one modulus, and fewer than 2^31 rows and columns; the second is a column as long as the first is high.
#[unsafe(no_mangle)]
pub extern "C" fn spasm_solve(
    alloc: Global,
    a: &Given<'_>,
    b: &Given<'_>,
    answer: &mut Room<'_>,
) -> u32
    ensures solution { result ≡ SPASM_OK → HoldsMatrix (IsSolutionOf a.now b.now) answer.new }
    ensures refutation { result ≡ SPASM_REFUTED → HoldsMatrix (IsRefutationOf a.now b.now) answer.new }
    ensures room { result ≡ SPASM_NO_ROOM → LacksMatrix (IsSystemAnswerOf a.now b.now) answer.old answer.new }
    ensures refused { result ≡ SPASM_BAD_INPUT → ¬ IsSystem a.now b.now }
    ensures kept { SPASM_REFUTED < result → result ≢ SPASM_NO_ROOM → IsRoomKept answer.old answer.new }
{
    match solution_of(alloc, a, b) {
        Ok(Some(Solution::Found(x))) => answer.fill(alloc, &x, SPASM_OK),
        Ok(Some(Solution::Refuted(y))) => answer.fill(alloc, &y, SPASM_REFUTED),
        Ok(None) => SPASM_BAD_INPUT,
        Err(_) => SPASM_NO_MEMORY,
    }
}

/// The inverse of a square matrix of at most 2^30 rows, or, with `SPASM_SINGULAR`, a null vector as a row; modulo a prime.
#[unsafe(no_mangle)]
pub extern "C" fn spasm_inverse(alloc: Global, a: &Given<'_>, answer: &mut Room<'_>) -> u32
    ensures inverse { result ≡ SPASM_OK → HoldsMatrix (IsInverseOf a.now) answer.new }
    ensures singular { result ≡ SPASM_SINGULAR → HoldsMatrix (IsNullVectorOf a.now) answer.new }
    ensures room { result ≡ SPASM_NO_ROOM → LacksMatrix (IsInversionAnswerOf a.now) answer.old answer.new }
    ensures refused { result ≡ SPASM_BAD_INPUT → ¬ IsSquare a.now }
    ensures kept { SPASM_SINGULAR < result → result ≢ SPASM_NO_ROOM → IsRoomKept answer.old answer.new }
{
    match inversion_of(alloc, a) {
        Ok(Some(Inverse::Found(b))) => answer.fill(alloc, &b, SPASM_OK),
        Ok(Some(Inverse::Singular(v))) => answer.fill(alloc, &v, SPASM_SINGULAR),
        Ok(None) => SPASM_BAD_INPUT,
        Err(_) => SPASM_NO_MEMORY,
    }
}

/// Structural pivots of a matrix, those that one worker finds, in an order in which they are triangular. No arithmetic is done, so the
/// modulus need not be prime.
#[unsafe(no_mangle)]
pub extern "C" fn spasm_pivots(alloc: Global, a: &Given<'_>, pivots: &mut Places<'_>) -> u32
    ensures pivots { result ≡ SPASM_OK → HoldsPlaces (ArePivotsOf a.now) pivots.new }
    ensures room { result ≡ SPASM_NO_ROOM → LacksPlaces (ArePivotsOf a.now) pivots.old pivots.new }
    ensures refused { result ≡ SPASM_BAD_INPUT → ¬ IsSoundInput a.now }
    ensures kept { result ≢ SPASM_OK → result ≢ SPASM_NO_ROOM → ArePlacesKept pivots.old pivots.new }
{
    match pivots_of(alloc, a) {
        Ok(Some(pairs)) => pivots.fill(alloc, &pairs),
        Ok(None) => SPASM_BAD_INPUT,
        Err(_) => SPASM_NO_MEMORY,
    }
}

#[cfg(test)]
mod tests;
