// Inverses.
ghost use Rattle.std.specs.Prelude.{◌≡◌, ◌<◌, ◌≤◌, ◌+◌, ◌*◌, ◌-◌, ◌↔◌, ℕ, length, slice_index, IfOk, IfSome, OnOk, IsTrue};
ghost use Rattle.residue_words.specs.Residues.{IsPrime};
ghost use Rattle.residue_words.specs.Matrix.{Matrix, IsMatrix, entry, list_of, row, zeros};
ghost use Rattle.sparse_rows.specs.Rows.{LARGEST_SIZE, beside, identity, matrix_by};
ghost use Rattle.row_space.specs.Kernel.{IsKernel};
ghost use Rattle.echelon_form.specs.Form.{IsFormOf};
ghost use Rattle.kernel_solve.specs.Inverted.{HasInverseShape, Inverts, IsDoubled, IsSquareOf, TellsInverse};
ghost use Rattle.kernel_solve.specs.ReadOff.{IsFree};

use crate::bases::write_basis_row;
use crate::columns::column_at;
use crate::outcome::Inverse;
use echelon_form::Echelon;
use sparse_rows::{Rows, Sparse};
use std::alloc::{AllocError, Global};
use std::thread::Threads;

/// The plain form of `spasm_lib::inverse`: the inverse of a square matrix A of at most 2^30 rows, or the first row of its kernel basis.
/// It is read off the echelon form of [A | I] (the method of Gauss and Jordan), and where A has no inverse off that of A. A caller who makes
/// the forms by another way calls `doubled`, `inverse_in` and `null_row`.
pub fn inverse<R: Threads + Sync>(
    rt: &R,
    alloc: Global,
    a: &Rows,
    workers: u32,
) -> Result<Inverse, AllocError>
    requires square { a.now.matrix.height ≡ a.now.matrix.width }
    requires small { 2 * a.now.matrix.width ≤ LARGEST_SIZE }
    requires some { 1 ≤ workers }
    ensures shape { IfOk result (λ found. HasInverseShape a.now.modulus a.now.matrix.width found) }
    ensures inverse { IfOk result (λ found.
        IsPrime a.now.modulus → Inverts a.now.modulus a.now.matrix found) }
{
    match inverse_of(rt, alloc, a, workers)? {
        Some(b) => Ok(Inverse::Of(b)),
        None => {
            let form = Echelon::of(rt, alloc, a, workers)?;
            let v = null_row(alloc, &form)?;
            Ok(Inverse::Singular(v))
        }
    }
}

// The inverse, if there is one.
fn inverse_of<R: Threads + Sync>(
    rt: &R,
    alloc: Global,
    a: &Rows,
    workers: u32,
) -> Result<Option<Rows>, AllocError>
    requires square { a.now.matrix.height ≡ a.now.matrix.width }
    requires small { 2 * a.now.matrix.width ≤ LARGEST_SIZE }
    requires some { 1 ≤ workers }
    ensures shape { IfOk result (λ found. IfSome found (IsSquareOf a.now.modulus a.now.matrix.width)) }
    ensures tells { IfOk result (λ found. IsPrime a.now.modulus →
        TellsInverse a.now.modulus a.now.matrix found) }
{
    // The call's contract tells that the entries are residues.
    a.is_sound();
    let Some(both) = doubled(alloc, a)? else {
        return Ok(None);
    };
    let form = Echelon::of(rt, alloc, &both, workers)?;
    drop(both);
    inverse_in(alloc, &form, a.width())
}

/// [A | I] for a square matrix A of at most 2^30 rows; None just where A has fewer entries than rows, and so no inverse for
/// a prime modulus. In time proportional to the entries and the rows.
pub fn doubled(alloc: Global, a: &Rows) -> Result<Option<Rows>, AllocError>
    requires square { a.now.matrix.height ≡ a.now.matrix.width }
    requires small { 2 * a.now.matrix.width ≤ LARGEST_SIZE }
    ensures { IfOk result (IsDoubled a.now) }
{
    // With fewer entries than rows there is a row of zeros: no I of 2^30 rows is made for a matrix of few entries.
    if a.entries() < u64::from(a.height()) {
        return Ok(None);
    }
    let identity = Rows::identity(alloc, a.width(), &a.modulus())?;
    let both = a.beside(alloc, &identity)?;
    Ok(Some(both))
}

/// The inverse of a matrix A of n rows and columns by the form of [A | I], if there is one. Beyond the form it takes time
/// proportional to its entries.
pub fn inverse_in(alloc: Global, form: &Echelon, n: u32) -> Result<Option<Rows>, AllocError>
    requires { form.now.matrix.width ≡ n + n }
    ensures shape { IfOk result (λ found. IfSome found (IsSquareOf form.now.modulus n)) }
    ensures tells { IfOk result (λ found. (p : ℕ) (A : Matrix) → IsPrime p → IsMatrix p A → A.height ≡ n →
        A.width ≡ n
        → IsFormOf p (beside A (identity n)) form.now → TellsInverse p A found) }
{
    // The calls' contracts tell how wide a matrix of residues is.
    form.rows().is_sound();
    form.is_sound();
    if fills(form.leads(), n) {
        let half = right_half(alloc, form.rows(), n)?;
        return Ok(Some(half));
    }
    Ok(None)
}

// Whether these are n leads, all of them below n: the last is.
fn fills(leads: &[u32], n: u32) -> bool
    ensures { IsTrue result ↔ ((length leads.now ≡ n) × (0 < n → slice_index leads.now (n - 1) < n)) }
{
    leads.len() == n as usize && (n == 0 || leads[n as usize - 1] < n)
}

// The matrix of n rows of 2 n entries from column n on.
fn right_half(alloc: Global, rows: &Rows, n: u32) -> Result<Rows, AllocError>
    requires small { 2 * n ≤ LARGEST_SIZE }
    requires height { rows.now.matrix.height ≡ n }
    requires width { rows.now.matrix.width ≡ n + n }
    ensures modulus { IfOk result (λ half. half.modulus ≡ rows.now.modulus) }
    ensures matrix { IfOk result (λ half.
        half.matrix ≡ matrix_by n n (λ i j. entry rows.now.matrix i (n + j))) }
{
    let mut half = Rows::with_room(alloc, rows.modulus(), n, n, rows.entries() as usize)?;
    let mut row = Sparse::new(alloc, n, rows.modulus());
    for i in 0..n {
        row.clear();
        copy_right_half(rows, i, n, &mut row)?;
        half.append(&row)?;
    }
    Ok(half)
}

// Sets a zero row of n entries to row i from column n on.
fn copy_right_half(rows: &Rows, i: u32, n: u32, to: &mut Sparse) -> Result<(), AllocError>
    requires row { i < rows.now.matrix.height }
    requires modulus { to.old.modulus ≡ rows.now.modulus }
    requires width { rows.now.matrix.width ≡ n + n }
    requires long { length to.old.row ≡ n }
    requires zero { (j : ℕ) → j < length to.old.row → slice_index to.old.row j ≡ 0 }
    ensures modulus { to.new.modulus ≡ to.old.modulus }
    ensures length { length to.new.row ≡ n }
    ensures row { OnOk result (to.new.row ≡ list_of n (λ j. entry rows.now.matrix i (n + j))) }
{
    let cols = rows.cols(i);
    let vals = rows.vals(i);
    for k in 0..cols.len() {
        if n <= cols[k] {
            to.push(cols[k] - n, vals[k])?;
        }
    }
    Ok(())
}

/// The first row of the kernel basis of the matrix that this is the form of, as a matrix; a zero row where there is none.
/// Beyond the form it takes the time of a search in each of its rows.
pub fn null_row(alloc: Global, form: &Echelon) -> Result<Rows, AllocError>
    ensures modulus { IfOk result (λ v. v.modulus ≡ form.now.modulus) }
    ensures sound { IfOk result (λ v. IsMatrix v.modulus v.matrix) }
    ensures height { IfOk result (λ v. v.matrix.height ≡ 1) }
    ensures width { IfOk result (λ v. v.matrix.width ≡ form.now.matrix.width) }
    ensures first { IfOk result (λ v. (p : ℕ) (A : Matrix) → IsPrime p → IsFormOf p A form.now
        → (K : Matrix) × IsKernel p A K × (0 < K.height → row v.matrix 0 ≡ row K 0)) }
    ensures none { IfOk result (λ v. form.now.matrix.height ≡ form.now.matrix.width
        → row v.matrix 0 ≡ zeros form.now.matrix.width) }
{
    // The call's contract tells how wide a matrix is.
    form.rows().is_sound();
    let first = first_basis_row(alloc, form)?;
    one_row(alloc, &first)
}

// The first row of the kernel basis that belongs to a form; a zero row where there is none.
fn first_basis_row(alloc: Global, form: &Echelon) -> Result<Sparse, AllocError>
    ensures modulus { IfOk result (λ v. v.modulus ≡ form.now.modulus) }
    ensures length { IfOk result (λ v. length v.row ≡ form.now.matrix.width) }
    ensures first { IfOk result (λ v. (p : ℕ) (A : Matrix) → IsPrime p → IsFormOf p A form.now
        → (K : Matrix) × IsKernel p A K × (0 < K.height → v.row ≡ row K 0)) }
    ensures none { IfOk result (λ v. form.now.matrix.height ≡ form.now.matrix.width
        → v.row ≡ zeros form.now.matrix.width) }
{
    let rows = form.rows();
    let leads = form.leads();
    let mut first = Sparse::new(alloc, rows.width(), rows.modulus());
    let f = first_free(leads);
    if rows.width() <= f {
        return Ok(first);
    }
    let column = column_at(alloc, rows, f)?;
    write_basis_row(column.cols(), column.vals(), leads, f, &mut first)?;
    Ok(first)
}

// The first free column: all before it are leads.
fn first_free(leads: &[u32]) -> u32
    requires small { length leads.now ≤ LARGEST_SIZE }
    requires rising { (k t : ℕ) → k < t → t < length leads.now
        → slice_index leads.now k < slice_index leads.now t }
    ensures few { result ≤ length leads.now }
    ensures before { (k : ℕ) → k < result → slice_index leads.now k ≡ k }
    ensures free { IsFree leads.now result }
{
    for k in 0..leads.len() {
        if leads[k] != k as u32 {
            return k as u32;
        }
    }
    leads.len() as u32
}

// The matrix with the row v alone.
pub(crate) fn one_row(alloc: Global, v: &Sparse) -> Result<Rows, AllocError>
    requires { length v.now.row ≤ LARGEST_SIZE }
    ensures modulus { IfOk result (λ rows. rows.modulus ≡ v.now.modulus) }
    ensures sound { IfOk result (λ rows. IsMatrix rows.modulus rows.matrix) }
    ensures height { IfOk result (λ rows. rows.matrix.height ≡ 1) }
    ensures width { IfOk result (λ rows. rows.matrix.width ≡ length v.now.row) }
    ensures row { IfOk result (λ rows. row rows.matrix 0 ≡ v.now.row) }
{
    let entries = v.cols().len();
    let mut rows = Rows::with_room(alloc, v.modulus(), v.width(), 1, entries)?;
    rows.append(v)?;
    Ok(rows)
}
