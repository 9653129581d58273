// Structural pivots.
ghost use Rattle.std.specs.Prelude.{◌≤◌, IfOk};
ghost use Rattle.pivot_table.specs.Selected.{Selected};

use crate::team::Team;
use crew::Threaded;
use fl_pivots::leftmost;
use optimistic_search::{Gate, search};
use pivot_table::Pair;
use sparse_rows::Rows;
use std::alloc::AllocError;
use std::thread::Threads;
use triangular_solve::Triangle;

/// Structural pivots of a matrix: places of entries, in an order in which they are triangular, to which none can be added. The leftmost
/// entry of each column that has one is among them. Rows and columns count from 0.
///
/// No arithmetic is done, so the modulus need not be prime, and the number of them is a lower bound of the rank modulo a prime. One worker
/// always finds the same list; which pivots several find depends on their threads. In time of a search in the matrix for each row.
///
/// ```
/// let pivots = spasm_lib::pivots(team, &rows)?;
/// println!(rt; "the rank is at least {}", pivots.len())?;
/// ```
pub fn pivots<R: Threads + Sync, G: Gate>(
    team: Team<'_, Threaded<'_, R>, G>,
    a: &Rows,
) -> Result<Vec<Pair>, AllocError>
    requires some { 1 ≤ team.workers }
    ensures { IfOk result (λ pairs. Selected a.now.matrix team.entry.workers pairs.items) }
{
    let rt = team.crew.runtime;
    let first = leftmost(team.alloc, a)?;
    let book = search(rt, team.alloc, first, team.workers, team.gate)?;
    let triangle = Triangle::of(team.alloc, &book)?;
    let pairs = Vec::from_slice(team.alloc, triangle.pairs())?;
    Ok(pairs)
}
