// Systems of equations.
ghost use Rattle.std.specs.Prelude.{◌≡◌, ◌<◌, ◌≤◌, ◌+◌, ◌-◌, ◌↔◌, ℕ, length, slice_index, slice_set, IfOk, OnOk, IsTrue};
ghost use Rattle.residue_words.specs.Residues.{IsPrime};
ghost use Rattle.residue_words.specs.Matrix.{Matrix, IsMatrix, zeros};
ghost use Rattle.sparse_rows.specs.Rows.{LARGEST_SIZE, beside};
ghost use Rattle.sparse_rows.specs.Stored.{with_row};
ghost use Rattle.row_space.specs.Solution.{refuting_rows, refuting_side};
ghost use Rattle.echelon_form.specs.Form.{IsFormOf};
ghost use Rattle.kernel_solve.specs.Column.{column, column_matrix};
ghost use Rattle.kernel_solve.specs.Found.{Answers, HasShape};
ghost use Rattle.kernel_solve.specs.ReadOff.{IsAtLeads};
ghost use Rattle.kernel_solve.specs.Refuted.{AreZeroBehind};

use crate::columns::column_at;
use echelon_form::Echelon;
use sparse_rows::{Rows, RowsBuilder, Sparse};
use std::alloc::{AllocError, Global};

/// What the form of [A | b] tells of A x = b.
#[derive(Debug, Drop)]
pub enum Found {
    /// The reduced solution, as a column.
    Solution(Rows),
    /// There is no solution.
    Inconsistent,
}

/// The reduced solution of A x = b by the form of [A | b], or that there is no solution. It reads the last column alone,
/// in the time of a search in each row of the form.
pub fn solution(alloc: Global, form: &Echelon) -> Result<Found, AllocError>
    requires { 1 ≤ form.now.matrix.width }
    ensures shape { IfOk result (λ found. HasShape form.now.modulus form.now.matrix.width found) }
    ensures answers { IfOk result (λ found. (p : ℕ) (A B : Matrix) → IsPrime p → IsMatrix p A → IsMatrix p B
        → A.height ≡ B.height → B.width ≡ 1 → IsFormOf p (beside A B) form.now
        → Answers p A (column B) found) }
{
    let leads = form.leads();
    let last = form.rows().width() - 1;
    if ends_at(leads, last) {
        return Ok(Found::Inconsistent);
    }
    let side = column_at(alloc, form.rows(), last)?;
    let x = at_leads(alloc, &side, leads, last)?;
    Ok(Found::Solution(x))
}

// The column of n entries that are those of `side` at the leads, and 0 elsewhere. Behind as many entries as there are leads
// `side` is 0.
pub(crate) fn at_leads(
    alloc: Global,
    side: &Sparse,
    leads: &[u32],
    n: u32,
) -> Result<Rows, AllocError>
    requires small { n ≤ LARGEST_SIZE }
    requires few { length leads.now ≤ length side.now.row }
    requires behind { AreZeroBehind side.now.row (length leads.now) }
    requires inside { (k : ℕ) → k < length leads.now → slice_index leads.now k < n }
    requires rising { (k t : ℕ) → k < t → t < length leads.now
        → slice_index leads.now k < slice_index leads.now t }
    ensures modulus { IfOk result (λ x. x.modulus ≡ side.now.modulus) }
    ensures sound { IfOk result (λ x. IsMatrix x.modulus x.matrix) }
    ensures height { IfOk result (λ x. x.matrix.height ≡ n) }
    ensures width { IfOk result (λ x. x.matrix.width ≡ 1) }
    ensures entries { IfOk result (λ x. IsAtLeads leads.now side.now.row (column x.matrix)) }
{
    let mut entries = RowsBuilder::new(alloc, n, 1, side.modulus())?;
    let rows = side.cols();
    let values = side.vals();
    for k in 0..rows.len() {
        entries.push(leads[rows[k] as usize], 0, values[k])?;
    }
    let x = entries.finish()?;
    Ok(x)
}

/// The system of equations for a row combination that refutes A x = b, right-hand sides in the last column: where
/// A x = b has no solution, its reduced solution y has y A = 0 and y b = 1. It is [A | b] with the row (0, .., 0, 1)
/// below, transposed, in time proportional to the entries and the sizes.
pub fn refuting_system(alloc: Global, a: &Rows, b: &Rows) -> Result<Rows, AllocError>
    requires column { b.now.matrix.width ≡ 1 }
    requires heights { a.now.matrix.height ≡ b.now.matrix.height }
    requires moduli { a.now.modulus ≡ b.now.modulus }
    requires height { a.now.matrix.height < LARGEST_SIZE }
    requires width { a.now.matrix.width < LARGEST_SIZE }
    ensures modulus { IfOk result (λ rows. rows.modulus ≡ a.now.modulus) }
    ensures matrix { IfOk result (λ rows. rows.matrix ≡ beside
        (refuting_rows a.now.matrix (column b.now.matrix))
        (column_matrix (refuting_side a.now.matrix.width))) }
{
    // The call's contract tells that the entries are residues.
    a.is_sound();
    let mut system = a.beside(alloc, b)?;
    append_one(alloc, a.width(), &mut system)?;
    system.transpose(alloc)
}

// Appends the row with a 1 in this column.
fn append_one(alloc: Global, j: u32, to: &mut Rows) -> Result<(), AllocError>
    requires column { j < to.old.matrix.width }
    requires height { to.old.matrix.height < LARGEST_SIZE }
    ensures modulus { to.new.modulus ≡ to.old.modulus }
    ensures matrix { OnOk result (to.new.matrix
        ≡ with_row to.old.matrix (slice_set (zeros to.old.matrix.width) j 1)) }
{
    let mut row = Sparse::new(alloc, to.width(), to.modulus());
    row.push(j, 1)?;
    to.append(&row)
}

// Whether this is the last of the leads.
fn ends_at(leads: &[u32], column: u32) -> bool
    ensures { IsTrue result
        ↔ ((0 < length leads.now) × (slice_index leads.now (length leads.now - 1) ≡ column)) }
{
    !leads.is_empty() && leads[leads.len() - 1] == column
}
