// Rank, echelon form and kernels.
ghost use Rattle.std.specs.Prelude.{◌≡◌, ◌≤◌, IfOk};
ghost use Rattle.residue_words.specs.Residues.{IsPrime};
ghost use Rattle.residue_words.specs.Matrix.{IsMatrix};
ghost use Rattle.row_space.specs.Echelon.{HasRank, IsRref};
ghost use Rattle.row_space.specs.Kernel.{IsKernel};
ghost use Rattle.sparse_rows.specs.Rows.{transposed};

use crate::team::Team;
use pluq_factor::Eliminating;
use sparse_rows::Rows;
use std::alloc::AllocError;

/// The rank of a matrix, modulo a prime.
///
/// Modulo another number it is some number that is no more than the height and the width. The pivots of the rounds are counted, and no
/// coefficients are kept: it is the cheapest of the calls, in time and in memory.
///
/// ```
/// let rank = spasm_lib::rank(Team::of(&rt, rt.alloc()), &rows)?;
/// ```
pub fn rank<C: Eliminating, G>(team: Team<'_, C, G>, a: &Rows) -> Result<u32, AllocError>
    requires able { C.can_work }
    requires some { 1 ≤ team.workers }
    ensures rank { IfOk result (λ r. IsPrime a.now.modulus → HasRank a.now.modulus a.now.matrix r) }
    ensures at_most_height { IfOk result (λ r. r ≤ a.now.matrix.height) }
    ensures at_most_width { IfOk result (λ r. r ≤ a.now.matrix.width) }
{
    let rank = pluq_factor::rank(&team.crew, team.alloc, a, team.plan())?;
    Ok(rank)
}

/// The reduced row echelon form of a matrix, modulo a prime: as many rows as the rank, of the matrix's width.
///
/// It is the same for every team. Modulo another number it is some rows of that width, no more than it has columns. Time and memory are
/// those of the entries that elimination makes; the form itself may be much fuller than the matrix.
///
/// ```
/// let form = spasm_lib::rref(team, &rows)?;
/// println!(rt; "rank {}", form.height())?;
/// ```
pub fn rref<C: Eliminating, G>(team: Team<'_, C, G>, a: &Rows) -> Result<Rows, AllocError>
    requires able { C.can_work }
    requires some { 1 ≤ team.workers }
    ensures modulus { IfOk result (λ e. e.modulus ≡ a.now.modulus) }
    ensures sound { IfOk result (λ e. IsMatrix e.modulus e.matrix) }
    ensures width { IfOk result (λ e. e.matrix.width ≡ a.now.matrix.width) }
    ensures short { IfOk result (λ e. e.matrix.height ≤ a.now.matrix.width) }
    ensures rref { IfOk result (λ e. IsPrime a.now.modulus → IsRref a.now.modulus a.now.matrix e.matrix) }
{
    let form = team.form(a)?;
    Ok(form.into_rows())
}

/// The basis of the kernel of a matrix in its reduced form, modulo a prime: rows v with A v = 0, one for each column where no row of the
/// echelon form leads, so as many as the width is more than the rank.
///
/// Modulo another number it is some rows of that width, no more than there are columns. Beyond the echelon form it takes time and memory
/// by the entries of the basis.
///
/// ```
/// let basis = spasm_lib::kernel(team, &rows)?;
/// for i in 0..basis.height() {
///     println!(rt; "columns {:?}, values {:?}", basis.cols(i), basis.vals(i))?;
/// }
/// ```
pub fn kernel<C: Eliminating, G>(team: Team<'_, C, G>, a: &Rows) -> Result<Rows, AllocError>
    requires able { C.can_work }
    requires some { 1 ≤ team.workers }
    ensures modulus { IfOk result (λ k. k.modulus ≡ a.now.modulus) }
    ensures sound { IfOk result (λ k. IsMatrix k.modulus k.matrix) }
    ensures width { IfOk result (λ k. k.matrix.width ≡ a.now.matrix.width) }
    ensures short { IfOk result (λ k. k.matrix.height ≤ a.now.matrix.width) }
    ensures kernel { IfOk result (λ k. IsPrime a.now.modulus → IsKernel a.now.modulus a.now.matrix k.matrix) }
{
    let form = team.form(a)?;
    let basis = kernel_solve::kernel(team.alloc, &form)?;
    Ok(basis)
}

/// The basis of the left kernel of a matrix, modulo a prime: rows y with y A = 0, the kernel basis of the transposed matrix.
///
/// Modulo another number it is some rows as wide as the matrix is high. It takes a transposed copy, and is else as `kernel`.
///
/// ```
/// let relations = spasm_lib::left_kernel(team, &rows)?;
/// ```
pub fn left_kernel<C: Eliminating, G>(team: Team<'_, C, G>, a: &Rows) -> Result<Rows, AllocError>
    requires able { C.can_work }
    requires some { 1 ≤ team.workers }
    ensures modulus { IfOk result (λ k. k.modulus ≡ a.now.modulus) }
    ensures sound { IfOk result (λ k. IsMatrix k.modulus k.matrix) }
    ensures width { IfOk result (λ k. k.matrix.width ≡ a.now.matrix.height) }
    ensures short { IfOk result (λ k. k.matrix.height ≤ a.now.matrix.height) }
    ensures kernel { IfOk result (λ k.
        IsPrime a.now.modulus → IsKernel a.now.modulus (transposed a.now.matrix) k.matrix) }
{
    let columns = a.transpose(team.alloc)?;
    let form = team.form(&columns)?;
    drop(columns);
    let basis = kernel_solve::kernel(team.alloc, &form)?;
    Ok(basis)
}
