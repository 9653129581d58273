// A matrix prepared for many right-hand sides.
ghost use Rattle.std.specs.Prelude.{◌≤◌, IfOk};
ghost use Rattle.kernel_solve.specs.Prepared.{IsPreparedFor};

use crate::team::Team;
use crew::Threaded;
use kernel_solve::{Prepared, kernel};
use optimistic_search::Gate;
use pluq_factor::{factor, form_of_basis};
use sparse_rows::Rows;
use std::alloc::AllocError;
use std::thread::Threads;

/// A matrix prepared for any number of right-hand sides, modulo a prime: eliminated once, so that `Prepared::answer` takes products and
/// substitutions alone. It replies with the reduced solution, or the row that refutes the system.
///
/// It keeps factors of the matrix, its kernel basis, which is that of its right factor, and that of the transposed matrix.
///
/// ```
/// let prepared = spasm_lib::prepare(team, &a)?;
/// match prepared.answer(rt.alloc(), &b)? {
///     Reply::Solution(x) => println!(rt; "x has {} entries that are not 0", x.entries())?,
///     Reply::Refuted(y) => println!(rt; "rows {:?} refute it", y.cols(0))?,
/// }
/// ```
pub fn prepare<R: Threads + Sync, G: Gate>(
    team: Team<'_, Threaded<'_, R>, G>,
    a: &Rows,
) -> Result<Prepared, AllocError>
    requires some { 1 ≤ team.workers }
    ensures { IfOk result (IsPreparedFor a.now.modulus a.now.matrix) }
{
    // The call's contract tells that the entries are residues.
    a.is_sound();
    let factors = factor(team.crew.runtime, team.alloc, a, team.plan(), team.gate)?;
    let rows_form = form_of_basis(&team.crew, team.alloc, &factors.u, team.workers)?;
    let null = kernel(team.alloc, &rows_form)?;
    drop(rows_form);
    let columns = a.transpose(team.alloc)?;
    let columns_form = team.form(&columns)?;
    drop(columns);
    let relations = kernel(team.alloc, &columns_form)?;
    let prepared = Prepared::by_factors(team.alloc, factors, null, relations)?;
    Ok(prepared)
}
