// Triangular systems by factors with pivots, solved by substitution (textbook).
ghost use Rattle.std.specs.Prelude.{◌≡◌, ◌≢◌, ◌<◌, ◌*◌, ◌%◌, ℕ, length, slice_index, IfOk};
ghost use Rattle.residue_words.specs.Residues.{IsPrime};
ghost use Rattle.residue_words.specs.Matrix.{IsVector, dot, entry, row};
ghost use Rattle.row_space.specs.Factors.{col_at, row_at};
ghost use Rattle.kernel_solve.specs.Substituted.{InvertEach, IsLower, IsUpper, left_pivot, right_pivot};

use crate::columns::entry_of;
use residue_words::plain::Pair;
use sparse_rows::Rows;
use std::alloc::{AllocError, Global};

// The z that L z = b asks for at the pivots' rows.
pub(crate) fn forward(
    alloc: Global,
    left: &Rows,
    pivots: &[Pair],
    inverses: &[u64],
    side: &[u64],
) -> Result<Vec<u64>, AllocError>
    requires width { left.now.matrix.width ≡ length pivots.now }
    requires pivots { (k : ℕ) → k < length pivots.now → row_at pivots.now k < left.now.matrix.height }
    requires inverses { IsVector left.now.modulus (length pivots.now) inverses.now }
    requires side { IsVector left.now.modulus left.now.matrix.height side.now }
    ensures vector { IfOk result (λ z. IsVector left.now.modulus left.now.matrix.width z.items) }
    ensures solves { IfOk result (λ z. IsLower left.now.modulus left.now.matrix pivots.now inverses.now →
        (k : ℕ) → k < length pivots.now →
        dot left.now.modulus left.now.matrix.width (row left.now.matrix (row_at pivots.now k)) z.items
        ≡ slice_index side.now (row_at pivots.now k)) }
{
    // The proof wants that a modulus is above 0.
    left.is_sound();
    let mut z = vec![in alloc; 0; left.width() as usize]?;
    for k in 0..pivots.len() {
        let i = pivots[k].row;
        settle(left, i, k, inverses[k], side[i as usize], z.as_mut_slice());
    }
    Ok(z)
}

// An x with U x = z, which is 0 off the pivots' columns.
pub(crate) fn back(
    alloc: Global,
    right: &Rows,
    pivots: &[Pair],
    inverses: &[u64],
    side: &[u64],
) -> Result<Vec<u64>, AllocError>
    requires height { right.now.matrix.height ≡ length pivots.now }
    requires pivots { (k : ℕ) → k < length pivots.now → col_at pivots.now k < right.now.matrix.width }
    requires inverses { IsVector right.now.modulus (length pivots.now) inverses.now }
    requires side { IsVector right.now.modulus (length pivots.now) side.now }
    ensures vector { IfOk result (λ x. IsVector right.now.modulus right.now.matrix.width x.items) }
    ensures solves { IfOk result (λ x. IsUpper right.now.modulus right.now.matrix pivots.now inverses.now →
        (k : ℕ) → k < length pivots.now →
        dot right.now.modulus right.now.matrix.width (row right.now.matrix k) x.items
        ≡ slice_index side.now k) }
{
    // The proof wants that a modulus is above 0, and how high a matrix is.
    right.is_sound();
    let mut x = vec![in alloc; 0; right.width() as usize]?;
    for k in (0..pivots.len()).rev() {
        let j = pivots[k].col as usize;
        settle(right, k as u32, j, inverses[k], side[k], x.as_mut_slice());
    }
    Ok(x)
}

// Sets x at column j, where it is 0, so that row i of the matrix times x is b: `inverse` is that of the entry there.
fn settle(rows: &Rows, i: u32, j: usize, inverse: u64, b: u64, x: &mut [u64])
    requires row { i < rows.now.matrix.height }
    requires column { j < rows.now.matrix.width }
    requires inverse { inverse < rows.now.modulus }
    requires side { b < rows.now.modulus }
    requires vector { IsVector rows.now.modulus rows.now.matrix.width x.old }
    ensures vector { IsVector rows.now.modulus rows.now.matrix.width x.new }
    ensures others { (t : ℕ) → t ≢ j → slice_index x.new t ≡ slice_index x.old t }
    ensures solves { slice_index x.old j ≡ 0 → (entry rows.now.matrix i j * inverse) % rows.now.modulus ≡ 1
        → dot rows.now.modulus rows.now.matrix.width (row rows.now.matrix i) x.new ≡ b }
{
    let modulus = rows.modulus();
    let rest = modulus.sub(b, row_times(rows, i, x));
    x[j] = modulus.mul(rest, inverse);
}

// The product of row i with a column x, reduced once.
fn row_times(rows: &Rows, i: u32, x: &[u64]) -> u64
    requires row { i < rows.now.matrix.height }
    requires column { IsVector rows.now.modulus rows.now.matrix.width x.now }
    ensures value { result ≡ dot rows.now.modulus rows.now.matrix.width (row rows.now.matrix i) x.now }
    ensures residue { result < rows.now.modulus }
{
    // The proof wants to know how wide a matrix is.
    rows.is_sound();
    let p = u128::from(rows.modulus().p());
    let cols = rows.cols(i);
    let vals = rows.vals(i);
    // No more than 2^31 products below 2^96.
    let mut sum: u128 = 0;
    for k in 0..cols.len() {
        sum += u128::from(vals[k]) * u128::from(x[cols[k] as usize]);
    }
    (sum % p) as u64
}

// The inverses of the pivots' entries in L, and of those in U.
pub(crate) fn inverses(
    alloc: Global,
    left: &Rows,
    right: &Rows,
    pivots: &[Pair],
) -> Result<(Vec<u64>, Vec<u64>), AllocError>
    requires width { left.now.matrix.width ≡ length pivots.now }
    requires height { right.now.matrix.height ≡ length pivots.now }
    requires pivots { (k : ℕ) → k < length pivots.now → row_at pivots.now k < left.now.matrix.height }
    ensures left { IfOk result (λ both. InvertEach left.now.modulus (length pivots.now)
        (left_pivot left.now.matrix pivots.now) both.0.items) }
    ensures right { IfOk result (λ both. InvertEach right.now.modulus (length pivots.now)
        (right_pivot right.now.matrix pivots.now) both.1.items) }
{
    // The proof wants to know how wide a matrix is.
    left.is_sound();
    let mut in_left = Vec::with_capacity(alloc, pivots.len())?;
    let mut in_right = Vec::with_capacity(alloc, pivots.len())?;
    for k in 0..pivots.len() {
        in_left.push(inverse_at(left, pivots[k].row, k as u32))?;
        in_right.push(inverse_at(right, k as u32, pivots[k].col))?;
    }
    Ok((in_left, in_right))
}

// The inverse of the entry at row i and column j, and 0 where that is 0.
fn inverse_at(rows: &Rows, i: u32, j: u32) -> u64
    requires { i < rows.now.matrix.height }
    ensures residue { result < rows.now.modulus }
    ensures inverse { IsPrime rows.now.modulus → entry rows.now.matrix i j ≢ 0
        → (entry rows.now.matrix i j * result) % rows.now.modulus ≡ 1 }
{
    // The proof wants that the entries are residues.
    let modulus = rows.modulus();
    let value = entry_of(rows, i, j);
    if value == 0 { 0 } else { modulus.inv(value) }
}
