// Systems of equations.
ghost use Rattle.std.specs.Prelude.{◌≡◌, ◌<◌, ◌≤◌, ℕ, List, IfOk};
ghost use Rattle.residue_words.specs.Residues.{IsPrime};
ghost use Rattle.residue_words.specs.Matrix.{IsMatrix, row};
ghost use Rattle.row_space.specs.Solution.{IsRefutingCombination, IsSolution};
ghost use Rattle.sparse_rows.specs.Rows.{LARGEST_SIZE};
ghost use Rattle.kernel_solve.specs.Column.{column};
ghost use Rattle.kernel_solve.specs.Found.{HasShape};
ghost use Rattle.spasm_lib.specs.Solved.{AnswersSystem, HasShapeOfRow, HasSolutionShape, IsSolved};

use crate::outcome::Solution;
use crate::team::Team;
use kernel_solve::{Found, refuting_system, solution};
use pluq_factor::Eliminating;
use residue_words::Modulus;
use sparse_rows::Rows;
use std::alloc::{AllocError, Global};

/// The reduced solution of A x = b for a column b as long as A is high, or, if there is none, the row that refutes the system; modulo a
/// prime. Both matrices have one modulus, and fewer than 2^31 rows and columns.
///
/// Modulo another number it is some column or row of that size. It takes the echelon form of [A | b], and if there is no solution that of
/// the system for the refuting row too. For many right-hand sides of one matrix `prepare` is the cheaper way.
///
/// ```
/// match spasm_lib::solve(team, &a, &b)? {
///     Solution::Found(x) => println!(rt; "x has {} entries that are not 0", x.entries())?,
///     Solution::Refuted(y) => println!(rt; "rows {:?} refute it", y.cols(0))?,
/// }
/// ```
pub fn solve<C: Eliminating, G>(
    team: Team<'_, C, G>,
    a: &Rows,
    b: &Rows,
) -> Result<Solution, AllocError>
    requires able { C.can_work }
    requires some { 1 ≤ team.workers }
    requires moduli { a.now.modulus ≡ b.now.modulus }
    requires heights { a.now.matrix.height ≡ b.now.matrix.height }
    requires column { b.now.matrix.width ≡ 1 }
    requires height { a.now.matrix.height < LARGEST_SIZE }
    requires width { a.now.matrix.width < LARGEST_SIZE }
    ensures shape { IfOk result (HasSolutionShape a.now.modulus a.now.matrix) }
    ensures solved { IfOk result (λ found. IsPrime a.now.modulus →
        IsSolved a.now.modulus a.now.matrix (column b.now.matrix) found) }
{
    // The calls' contracts tell that the entries are residues.
    a.is_sound();
    b.is_sound();
    match told_by(&team, a.beside(team.alloc, b)?)? {
        Found::Solution(x) => Ok(Solution::Found(x)),
        Found::Inconsistent => {
            let y = refutation(&team, a, b)?;
            Ok(Solution::Refuted(y))
        }
    }
}

// What the echelon form of a system [A | b] tells of A x = b. The system is let go once its form is made.
fn told_by<C: Eliminating, G>(team: &Team<'_, C, G>, system: Rows) -> Result<Found, AllocError>
    requires able { C.can_work }
    requires some { 1 ≤ team.now.workers }
    requires width { 1 ≤ system.matrix.width }
    ensures shape { IfOk result (HasShape system.modulus system.matrix.width) }
    ensures tells { IfOk result (AnswersSystem system.modulus system.matrix) }
{
    let form = team.form(&system)?;
    drop(system);
    let found = solution(team.alloc, &form)?;
    Ok(found)
}

// The refuting combination of A x = b, as a row, if there is no solution. For a modulus that isn't prime there may be no combination
// either, and then it is a row of zeros.
fn refutation<C: Eliminating, G>(
    team: &Team<'_, C, G>,
    a: &Rows,
    b: &Rows,
) -> Result<Rows, AllocError>
    requires able { C.can_work }
    requires some { 1 ≤ team.now.workers }
    requires moduli { a.now.modulus ≡ b.now.modulus }
    requires heights { a.now.matrix.height ≡ b.now.matrix.height }
    requires column { b.now.matrix.width ≡ 1 }
    requires height { a.now.matrix.height < LARGEST_SIZE }
    requires width { a.now.matrix.width < LARGEST_SIZE }
    ensures shape { IfOk result (HasShapeOfRow a.now.modulus a.now.matrix.height) }
    ensures refutes { IfOk result (λ y. IsPrime a.now.modulus
        → ((x : List ℕ) → ¬ IsSolution a.now.modulus a.now.matrix (column b.now.matrix) x)
        → IsRefutingCombination a.now.modulus a.now.matrix (column b.now.matrix) (row y.matrix 0)) }
{
    // The entries of both are residues. The laws: if A x = b has no solution the refuting system has one, and it refutes.
    a.is_sound();
    b.is_sound();
    row_space::refuting_is_solvable();
    row_space::refuting_system_refutes();
    match told_by(team, refuting_system(team.alloc, a, b)?)? {
        Found::Solution(y) => {
            let row = y.transpose(team.alloc)?;
            row.is_sound();
            Ok(row)
        }
        Found::Inconsistent => {
            let none = zero_row(team.alloc, a.modulus(), a.height())?;
            Ok(none)
        }
    }
}

// A row of zeros.
fn zero_row(alloc: Global, p: Modulus, width: u32) -> Result<Rows, AllocError>
    requires { width ≤ LARGEST_SIZE }
    ensures { IfOk result (HasShapeOfRow p width) }
{
    let mut row = Rows::with_room(alloc, p, width, 1, 0)?;
    row.append_zeros(1)?;
    row.is_sound();
    Ok(row)
}
