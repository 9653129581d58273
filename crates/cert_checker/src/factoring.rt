// Whether matrices are factors of a matrix with these pivots.
ghost use Rattle.std.specs.Prelude.{◌≡◌, ◌↔◌, length, map, IfOk, IsTrue};
ghost use Rattle.row_space.specs.Factors.{AreFactors};
ghost use Rattle.sparse_rows.specs.Rows.{transposed};
ghost use Rattle.cert_checker.specs.Diagonal.{EndAt};
ghost use Rattle.cert_checker.specs.Factoring.{AreOfSizes};

use crate::diagonal::{are_below, are_last};
use crate::product::is_product;
use residue_words::plain::Pair;
use sparse_rows::Rows;
use std::alloc::{AllocError, Global};

// Whether L and U are factors of A with these pivots.
//
// The k-th pivot's row of L and its column of U end at k. So no row and no column stands twice among the pivots.
pub(crate) fn are_factors(
    alloc: Global,
    a: &Rows,
    pivots: &[Pair],
    l: &Rows,
    u: &Rows,
) -> Result<bool, AllocError>
    requires left { l.now.modulus ≡ a.now.modulus }
    requires right { u.now.modulus ≡ a.now.modulus }
    ensures { IfOk result (λ yes. IsTrue yes
        ↔ AreFactors a.now.modulus a.now.matrix pivots.now l.now.matrix u.now.matrix) }
{
    // The proof wants that all three are matrices of residues.
    a.is_sound();
    l.is_sound();
    u.is_sound();
    if !are_of_sizes(a, pivots.len(), l, u) {
        return Ok(false);
    }
    let left = end_at_rows(alloc, l, pivots)?;
    if !left {
        return Ok(false);
    }
    let right = end_at_columns(alloc, u, pivots)?;
    if !right {
        return Ok(false);
    }
    is_product(alloc, a, l, u)
}

// Whether the k-th pivot's row of L is there and ends at k, for each k.
fn end_at_rows(alloc: Global, l: &Rows, pivots: &[Pair]) -> Result<bool, AllocError>
    requires { l.now.matrix.width ≡ length pivots.now }
    ensures { IfOk result (λ yes. IsTrue yes ↔ EndAt l.now.matrix (map (λ q. q.row) pivots.now)) }
{
    let rows = rows_of(alloc, pivots)?;
    if !are_below(l.height(), &rows) {
        return Ok(false);
    }
    Ok(are_last(l, &rows))
}

// Whether the k-th pivot's column of U is there and ends at k, for each k.
fn end_at_columns(alloc: Global, u: &Rows, pivots: &[Pair]) -> Result<bool, AllocError>
    requires { u.now.matrix.height ≡ length pivots.now }
    ensures { IfOk result (λ yes. IsTrue yes
        ↔ EndAt (transposed u.now.matrix) (map (λ q. q.col) pivots.now)) }
{
    let cols = cols_of(alloc, pivots)?;
    if !are_below(u.width(), &cols) {
        return Ok(false);
    }
    let columns = u.transpose(alloc)?;
    Ok(are_last(&columns, &cols))
}

// Whether the sizes are those of factors of A with this many pivots.
fn are_of_sizes(a: &Rows, count: usize, l: &Rows, u: &Rows) -> bool
    ensures { IsTrue result ↔ AreOfSizes a.now.matrix count l.now.matrix u.now.matrix }
{
    if l.height() != a.height() {
        return false;
    }
    if l.width() as usize != count {
        return false;
    }
    if u.height() as usize != count {
        return false;
    }
    if u.width() != a.width() {
        return false;
    }
    true
}

// The rows of the pivots.
fn rows_of(alloc: Global, pivots: &[Pair]) -> Result<Vec<u32>, AllocError>
    ensures { IfOk result (λ rows. rows.items ≡ map (λ q. q.row) pivots.now) }
{
    pivots.iter().map(|pivot| pivot.row).collect(alloc)
}

// The columns of the pivots.
fn cols_of(alloc: Global, pivots: &[Pair]) -> Result<Vec<u32>, AllocError>
    ensures { IfOk result (λ cols. cols.items ≡ map (λ q. q.col) pivots.now) }
{
    pivots.iter().map(|pivot| pivot.col).collect(alloc)
}
