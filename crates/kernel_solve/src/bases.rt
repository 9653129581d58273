// Kernel bases.
ghost use Rattle.std.specs.Prelude.{◌≡◌, ◌<◌, ◌≤◌, ◌+◌, ℕ, [], length, slice_index, IfOk, OnOk};
ghost use Rattle.residue_words.specs.Residues.{IsPrime};
ghost use Rattle.residue_words.specs.Matrix.{Matrix, IsMatrix};
ghost use Rattle.sparse_rows.specs.Rows.{transposed};
ghost use Rattle.sparse_rows.specs.Stored.{IsSparse, spread};
ghost use Rattle.row_space.specs.Kernel.{IsKernel};
ghost use Rattle.echelon_form.specs.Form.{IsFormOf};
ghost use Rattle.kernel_solve.specs.ReadOff.{AreReadOff, IsBasisRow, IsFree};

use crate::columns::stands_at;
use echelon_form::Echelon;
use sparse_rows::{Rows, Sparse};
use std::alloc::{AllocError, Global};
use std::thread::Threads;

/// The kernel basis in its reduced form of the matrix that this is the form of: a row for each free column, which is a
/// column where no row leads, in ascending order (textbook). The row for f has a 1 at f and, at the lead of each row, the
/// negative of that row's entry in column f. Beyond the form it takes time proportional to the entries of the form and
/// the basis, and to the width.
pub fn kernel(alloc: Global, form: &Echelon) -> Result<Rows, AllocError>
    ensures modulus { IfOk result (λ rows. rows.modulus ≡ form.now.modulus) }
    ensures sound { IfOk result (λ rows. IsMatrix rows.modulus rows.matrix) }
    ensures width { IfOk result (λ rows. rows.matrix.width ≡ form.now.matrix.width) }
    ensures height { IfOk result (λ rows.
        rows.matrix.height + form.now.matrix.height ≡ form.now.matrix.width) }
    ensures kernel { IfOk result (λ rows. (p : ℕ) (A : Matrix) → IsPrime p → IsFormOf p A form.now
        → IsKernel p A rows.matrix) }
{
    let mut basis = room_for_basis(alloc, form)?;
    let columns = form.rows().transpose(alloc)?;
    append_basis(alloc, form, &columns, &mut basis)?;
    Ok(basis)
}

// Appends the rows of the basis to no row; the columns of the form stand as rows.
fn append_basis(
    alloc: Global,
    form: &Echelon,
    columns: &Rows,
    basis: &mut Rows,
) -> Result<(), AllocError>
    requires columns { columns.now.matrix ≡ transposed form.now.matrix }
    requires modulus { basis.old.modulus ≡ form.now.modulus }
    requires none { basis.old.matrix ≡ record { height = 0; width = form.now.matrix.width; rows = [] } }
    ensures { OnOk result (AreReadOff form.now basis.new) }
{
    let leads = form.leads();
    let width = form.rows().width();
    let mut row = Sparse::new(alloc, width, form.rows().modulus());
    let mut next = 0;
    for f in 0..width {
        if stands_at(leads, next, f) {
            next += 1;
        } else {
            row.clear();
            write_basis_row(columns.cols(f), columns.vals(f), leads, f, &mut row)?;
            basis.append(&row)?;
        }
    }
    Ok(())
}

// No row yet, with room for the basis of a form.
fn room_for_basis(alloc: Global, form: &Echelon) -> Result<Rows, AllocError>
    ensures modulus { IfOk result (λ basis. basis.modulus ≡ form.now.modulus) }
    ensures matrix { IfOk result (λ basis. basis.matrix ≡ record {
      height = 0;
      width = form.now.matrix.width;
      rows = [];
    }) }
{
    let rows = form.rows();
    let leads = form.leads();
    let height = rows.width() - form.rank();
    let entries = (rows.entries() as usize)
        .saturating_sub(leads.len())
        .saturating_add(height as usize);
    ask_for_room(alloc, height, entries)?;
    Rows::with_room(alloc, rows.modulus(), rows.width(), height, entries)
}

// Asks for the memory of a matrix of so many rows and entries in one piece, and gives it back. A basis that the machine
// can't hold is so refused before it is begun: in parts the system may grant more than it has, and end the program.
fn ask_for_room(alloc: Global, rows: u32, entries: usize) -> Result<(), AllocError> {
    let words = entries
        .saturating_add(entries / 2)
        .saturating_add(rows as usize);
    let room: Vec<u64> = Vec::with_capacity(alloc, words)?;
    drop(room);
    Ok(())
}

// Sets a zero row to the basis row of a free column f of a form, where these rows, led before f, have these values.
pub(crate) fn write_basis_row(
    rows: &[u32],
    values: &[u64],
    leads: &[u32],
    f: u32,
    to: &mut Sparse,
) -> Result<(), AllocError>
    requires column { IsSparse to.old.modulus (length leads.now) rows.now values.now }
    requires rising { (k t : ℕ) → k < t → t < length leads.now
        → slice_index leads.now k < slice_index leads.now t }
    requires leads { (k : ℕ) → k < length leads.now → slice_index leads.now k < length to.old.row }
    requires before { (k : ℕ) → k < length rows.now → slice_index leads.now (slice_index rows.now k) < f }
    requires free { IsFree leads.now f }
    requires inside { f < length to.old.row }
    requires zero { (j : ℕ) → j < length to.old.row → slice_index to.old.row j ≡ 0 }
    ensures modulus { to.new.modulus ≡ to.old.modulus }
    ensures length { length to.new.row ≡ length to.old.row }
    ensures row { OnOk result (IsBasisRow to.new.modulus leads.now
        (spread (length leads.now) rows.now values.now) f to.new.row) }
{
    let modulus = to.modulus();
    for k in 0..rows.len() {
        to.push(leads[rows[k] as usize], modulus.neg(values[k]))?;
    }
    to.push(f, 1)?;
    Ok(())
}

// The kernel basis of a matrix.
pub(crate) fn kernel_of<R: Threads + Sync>(
    rt: &R,
    alloc: Global,
    a: &Rows,
    workers: u32,
) -> Result<Rows, AllocError>
    requires some { 1 ≤ workers }
    ensures modulus { IfOk result (λ rows. rows.modulus ≡ a.now.modulus) }
    ensures width { IfOk result (λ rows. rows.matrix.width ≡ a.now.matrix.width) }
    ensures kernel { IfOk result (λ rows. IsPrime a.now.modulus
        → IsKernel a.now.modulus a.now.matrix rows.matrix) }
{
    let form = Echelon::of(rt, alloc, a, workers)?;
    kernel(alloc, &form)
}

/// The plain form of `spasm_lib::left_kernel`: the kernel basis of the transposed matrix, whose rows y are those with y A = 0.
pub fn left_kernel<R: Threads + Sync>(
    rt: &R,
    alloc: Global,
    a: &Rows,
    workers: u32,
) -> Result<Rows, AllocError>
    requires some { 1 ≤ workers }
    ensures modulus { IfOk result (λ rows. rows.modulus ≡ a.now.modulus) }
    ensures sound { IfOk result (λ rows. IsMatrix rows.modulus rows.matrix) }
    ensures width { IfOk result (λ rows. rows.matrix.width ≡ a.now.matrix.height) }
    ensures height { IfOk result (λ rows. rows.matrix.height ≤ a.now.matrix.height) }
    ensures kernel { IfOk result (λ rows. IsPrime a.now.modulus
        → IsKernel a.now.modulus (transposed a.now.matrix) rows.matrix) }
{
    let columns = a.transpose(alloc)?;
    let form = Echelon::of(rt, alloc, &columns, workers)?;
    drop(columns);
    kernel(alloc, &form)
}
