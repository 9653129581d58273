// Whether a certificate's last matrix shows the echelon form, or the kernel basis.
ghost use Rattle.std.specs.Prelude.{◌≡◌, ◌<◌, ◌≤◌, ◌↔◌, length, All, IfOk, IsTrue};
ghost use Rattle.row_space.specs.Factors.{ShowsKernel, ShowsRref};
ghost use Rattle.sparse_rows.specs.Rows.{LARGEST_SIZE, AreBelow, matrix_by, selected, transposed};
ghost use Rattle.cert_checker.specs.OuterOnes.{AreSingle};
ghost use Rattle.cert_checker.specs.Product.{IsProduct};

use crate::outer_ones::{Side, are_single, outer_ones};
use crate::product::is_product;
use residue_words::Modulus;
use sparse_rows::{LARGEST_SIZE, Rows};
use std::alloc::{AllocError, Global};

// Whether E has the reduced form, and U is what its columns at the leads make of E.
pub(crate) fn shows_rref(alloc: Global, u: &Rows, e: &Rows) -> Result<bool, AllocError>
    requires { e.now.modulus ≡ u.now.modulus }
    ensures { IfOk result (λ yes. IsTrue yes ↔ ShowsRref u.now.modulus u.now.matrix e.now.matrix) }
{
    // The proof wants that both are matrices of residues.
    u.is_sound();
    e.is_sound();
    if e.height() != u.height() {
        return Ok(false);
    }
    if e.width() != u.width() {
        return Ok(false);
    }
    let Some(leads) = outer_ones(alloc, e, Side::Left)? else {
        return Ok(false);
    };
    let single = are_single_columns(alloc, e, &leads)?;
    if !single {
        return Ok(false);
    }
    let at_leads = columns_of(alloc, u, &leads)?;
    is_product(alloc, u, &at_leads, e)
}

// Whether each of the columns that are named has one entry alone.
fn are_single_columns(alloc: Global, e: &Rows, named: &[u32]) -> Result<bool, AllocError>
    requires { AreBelow e.now.matrix.width named.now }
    ensures { IfOk result (λ yes. IsTrue yes ↔ AreSingle (transposed e.now.matrix) named.now) }
{
    let columns = e.transpose(alloc)?;
    Ok(are_single(&columns, named))
}

// The columns that are named, in their order.
fn columns_of(alloc: Global, u: &Rows, named: &[u32]) -> Result<Rows, AllocError>
    requires many { length named.now ≤ LARGEST_SIZE }
    requires inside { All (λ j. j < u.now.matrix.width) named.now }
    ensures modulus { IfOk result (λ part. part.modulus ≡ u.now.modulus) }
    ensures matrix { IfOk result (λ part.
        part.matrix ≡ transposed (selected (transposed u.now.matrix) named.now)) }
{
    let columns = u.transpose(alloc)?;
    let part = columns.select(alloc, named)?;
    part.transpose(alloc)
}

// Whether K has the reduced form, as many rows as A's width exceeds the rank, and A times each row of K is 0.
pub(crate) fn shows_kernel(alloc: Global, a: &Rows, rank: u32, k: &Rows) -> Result<bool, AllocError>
    requires { k.now.modulus ≡ a.now.modulus }
    ensures { IfOk result (λ yes. IsTrue yes ↔ ShowsKernel a.now.modulus a.now.matrix rank k.now.matrix) }
{
    // The proof wants that both are matrices of residues.
    a.is_sound();
    k.is_sound();
    if u64::from(k.height()) + u64::from(rank) != u64::from(a.width()) {
        return Ok(false);
    }
    if k.width() != a.width() {
        return Ok(false);
    }
    let Some(ends) = outer_ones(alloc, k, Side::Right)? else {
        return Ok(false);
    };
    let columns = k.transpose(alloc)?;
    if !are_single(&columns, &ends) {
        return Ok(false);
    }
    is_zero_product(alloc, a, &columns)
}

// Whether the product of two matrices is 0.
fn is_zero_product(alloc: Global, y: &Rows, b: &Rows) -> Result<bool, AllocError>
    requires inner { y.now.matrix.width ≡ b.now.matrix.height }
    requires modulus { y.now.modulus ≡ b.now.modulus }
    ensures { IfOk result (λ yes. IsTrue yes ↔ IsProduct b.now.modulus
        (matrix_by y.now.matrix.height b.now.matrix.width (λ i j. 0)) y.now.matrix b.now.matrix) }
{
    let nothing = zero_matrix(alloc, &b.modulus(), y.height(), b.width())?;
    is_product(alloc, &nothing, y, b)
}

// The matrix of zeros, which takes no memory by its sizes.
fn zero_matrix(alloc: Global, p: &Modulus, height: u32, width: u32) -> Result<Rows, AllocError>
    requires height { height ≤ LARGEST_SIZE }
    requires width { width ≤ LARGEST_SIZE }
    ensures modulus { IfOk result (λ rows. rows.modulus ≡ p.now) }
    ensures matrix { IfOk result (λ rows. rows.matrix ≡ matrix_by height width (λ i j. 0)) }
{
    let mut rows = Rows::with_room(alloc, *p, width, height, 0)?;
    rows.append_zeros(height)?;
    Ok(rows)
}
