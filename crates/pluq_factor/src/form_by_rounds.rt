// The echelon form by rounds.
ghost use Rattle.std.specs.Prelude.{◌≡◌, ◌≤◌, IfOk};
ghost use Rattle.echelon_form.specs.Form.{IsFormOf};

use crate::basis::row_basis;
use crate::eliminating::Eliminating;
use crate::occupancy::Occupancy;
use crate::plan::Plan;
use crate::policy::is_block;
use echelon_form::{Echelon, Settling};
use sparse_rows::Rows;
use std::alloc::{AllocError, Global};
use weight_order::last_first;

/// The reduced row echelon form of a matrix, the same for every plan, of at least one worker. For a modulus that is not prime it is
/// some rows of that width.
///
/// It is the form of the basis of the row space that the rounds and their finish give (`row_basis`), so the rows that depend on
/// others are eliminated by structural pivots and densely. With no round it is that of a dense elimination where the matrix is
/// small and dense, and else its rows are eliminated one after another, in time and memory of the entries that this makes.
pub fn form<C: Eliminating>(
    crew: &C,
    alloc: Global,
    rows: &Rows,
    plan: Plan,
) -> Result<Echelon, AllocError>
    requires able { C.can_work }
    requires some { 1 ≤ plan.workers }
    ensures { IfOk result (IsFormOf rows.now.modulus rows.now.matrix) }
{
    if plan.rounds == 0 && !is_block(&Occupancy::of(alloc, rows)?) {
        return Echelon::made_by(crew, alloc, rows, plan.workers);
    }
    let basis = row_basis(crew, alloc, rows, plan)?;
    let turned = last_first(alloc, &basis)?;
    drop(basis);
    Echelon::made_by(crew, alloc, &turned, plan.workers)
}

/// The reduced row echelon form of rows that stand as rounds or factors give them, by so many workers, at least one. For a modulus
/// that is not prime it is some rows of that width.
///
/// The rows are taken from the last to the first: a pivot's row is met by rows that are reduced already, where from the first to
/// the last each would fill up and be reduced again.
pub fn form_of_basis<C: Settling>(
    crew: &C,
    alloc: Global,
    basis: &Rows,
    workers: u32,
) -> Result<Echelon, AllocError>
    requires able { C.can_work }
    requires some { 1 ≤ workers }
    ensures { IfOk result (IsFormOf basis.now.modulus basis.now.matrix) }
{
    let turned = last_first(alloc, basis)?;
    Echelon::made_by(crew, alloc, &turned, workers)
}
