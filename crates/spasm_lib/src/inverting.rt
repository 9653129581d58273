// Inverses.
ghost use Rattle.std.specs.Prelude.{◌≡◌, ◌≤◌, ◌*◌, IfOk, IfSome};
ghost use Rattle.residue_words.specs.Residues.{IsPrime};
ghost use Rattle.sparse_rows.specs.Rows.{LARGEST_SIZE};
ghost use Rattle.kernel_solve.specs.Inverted.{IsSquareOf, TellsInverse};
ghost use Rattle.spasm_lib.specs.Inversion.{HasInversionShape, IsInversion};

use crate::outcome::Inverse;
use crate::team::Team;
use kernel_solve::{doubled, inverse_in, null_row};
use pluq_factor::Eliminating;
use sparse_rows::Rows;
use std::alloc::AllocError;

/// The inverse of a square matrix of at most 2^30 rows, or, if there is none, a null vector; modulo a prime.
///
/// Modulo another number it is some matrix of that size, or some row. It is read off the echelon form of [A | I], and if there is no inverse
/// off that of A. A matrix of fewer entries than rows is found singular before any of that.
///
/// ```
/// match spasm_lib::inverse(team, &a)? {
///     Inverse::Found(b) => println!(rt; "the inverse has {} entries that are not 0", b.entries())?,
///     Inverse::Singular(v) => println!(rt; "columns {:?} are dependent", v.cols(0))?,
/// }
/// ```
pub fn inverse<C: Eliminating, G>(team: Team<'_, C, G>, a: &Rows) -> Result<Inverse, AllocError>
    requires able { C.can_work }
    requires some { 1 ≤ team.workers }
    requires square { a.now.matrix.height ≡ a.now.matrix.width }
    requires small { 2 * a.now.matrix.width ≤ LARGEST_SIZE }
    ensures shape { IfOk result (HasInversionShape a.now.modulus a.now.matrix.width) }
    ensures inversion { IfOk result (λ found. IsPrime a.now.modulus →
        IsInversion a.now.modulus a.now.matrix found) }
{
    // The law's contract: a matrix that takes a vector other than zero to zero has no inverse.
    row_space::inverse_excludes_null();
    match inverse_of(&team, a)? {
        Some(b) => Ok(Inverse::Found(b)),
        None => {
            let form = team.form(a)?;
            let v = null_row(team.alloc, &form)?;
            Ok(Inverse::Singular(v))
        }
    }
}

// The inverse of a matrix, if there is one.
fn inverse_of<C: Eliminating, G>(
    team: &Team<'_, C, G>,
    a: &Rows,
) -> Result<Option<Rows>, AllocError>
    requires able { C.can_work }
    requires some { 1 ≤ team.now.workers }
    requires square { a.now.matrix.height ≡ a.now.matrix.width }
    requires small { 2 * a.now.matrix.width ≤ LARGEST_SIZE }
    ensures shape { IfOk result (λ found. IfSome found (IsSquareOf a.now.modulus a.now.matrix.width)) }
    ensures tells { IfOk result (λ found. IsPrime a.now.modulus →
        TellsInverse a.now.modulus a.now.matrix found) }
{
    // The call's contract tells that the entries are residues.
    a.is_sound();
    let Some(both) = doubled(team.alloc, a)? else {
        return Ok(None);
    };
    let form = team.form(&both)?;
    drop(both);
    let found = inverse_in(team.alloc, &form, a.width())?;
    Ok(found)
}
