// Whether a matrix is the product of two.
//
// A row of sums that is 0 takes what the combination exceeds a row by. Where it then is 0 at all columns that were touched, it is
// as before, and serves the next row; else the answer is known. So nothing is ever cleared.
ghost use Rattle.std.specs.Prelude.{◌≡◌, ◌<◌, ◌+◌, ◌-◌, ◌*◌, ◌%◌, ◌↔◌, ℕ, length, slice_index, Contains, IfOk, IsTrue};
ghost use Rattle.residue_words.specs.Matrix.{IsVector, entry};
ghost use Rattle.sparse_rows.specs.ColumnSet.{AllZero};
ghost use Rattle.sparse_rows.specs.Rows.{AreRising};
ghost use Rattle.sparse_rows.specs.Stored.{IsSparse, entry_at};
ghost use Rattle.cert_checker.specs.Product.{AreAllIn, FitAsProduct, IsCombined, IsProduct, IsZeroAlong, IsZeroAt, combined_at};

use residue_words::Modulus;
use sparse_rows::{FilledInEither, Rows};
use std::alloc::{AllocError, Global};

// Whether V = Y B. Where B has few entries for its width, the product is taken over the columns alone in which B has some.
pub(crate) fn is_product(alloc: Global, v: &Rows, y: &Rows, b: &Rows) -> Result<bool, AllocError>
    requires { FitAsProduct v.now y.now b.now }
    ensures { IfOk result (λ yes. IsTrue yes
        ↔ IsProduct b.now.modulus v.now.matrix y.now.matrix b.now.matrix) }
{
    // The proof wants that all three are matrices of residues.
    v.is_sound();
    y.is_sound();
    b.is_sound();
    if u64::from(b.width()) / 4 <= b.entries() {
        return is_narrow_product(alloc, v, y, b);
    }
    let columns = b.occupied(alloc)?;
    let touched = v.occupied(alloc)?;
    if !are_all_in(&touched, &columns) {
        return Ok(false);
    }
    let narrow_v = v.narrowed(alloc, &columns)?;
    let narrow_b = b.narrowed(alloc, &columns)?;
    let product = is_narrow_product(alloc, &narrow_v, y, &narrow_b)?;
    Ok(product)
}

// Whether V = Y B, with memory for each column.
fn is_narrow_product(alloc: Global, v: &Rows, y: &Rows, b: &Rows) -> Result<bool, AllocError>
    requires { FitAsProduct v.now y.now b.now }
    ensures { IfOk result (λ yes. IsTrue yes
        ↔ IsProduct b.now.modulus v.now.matrix y.now.matrix b.now.matrix) }
{
    let mut sums = vec![in alloc; 0; b.width() as usize]?;
    Ok(are_rows_of_product(&mut sums, v, y, b))
}

// Whether each row of V is that of Y B. The sums are 0. Rows without an entry in V and in Y are passed over.
fn are_rows_of_product(sums: &mut [u64], v: &Rows, y: &Rows, b: &Rows) -> bool
    requires fit { FitAsProduct v.now y.now b.now }
    requires width { length sums.old ≡ b.now.matrix.width }
    requires zero { AllZero sums.old }
    ensures { IsTrue result ↔ IsProduct b.now.modulus v.now.matrix y.now.matrix b.now.matrix }
{
    // The proof wants that these are matrices of residues, and how high they are.
    v.is_sound();
    y.is_sound();
    let mut filled = FilledInEither::of(v, y);
    while let Some(i) = filled.next_row() {
        if !is_row_of_product(sums, v, y, b, i) {
            return false;
        }
    }
    true
}

// Whether row i of V is that of Y B. The sums are 0, and stay so where it is.
fn is_row_of_product(sums: &mut [u64], v: &Rows, y: &Rows, b: &Rows, i: u32) -> bool
    requires fit { FitAsProduct v.now y.now b.now }
    requires row { i < v.now.matrix.height }
    requires width { length sums.old ≡ b.now.matrix.width }
    requires zero { AllZero sums.old }
    ensures len { length sums.new ≡ length sums.old }
    ensures zero { IsTrue result → AllZero sums.new }
    ensures combined { IsTrue result
        ↔ IsCombined b.now.modulus (entry v.now.matrix i) (entry y.now.matrix i) b.now.matrix }
{
    // The proof wants that all three are matrices of residues.
    v.is_sound();
    y.is_sound();
    let p = b.modulus();
    take_off(&p, sums, v.cols(i), v.vals(i));
    add_rows(&p, sums, y.cols(i), y.vals(i), b);
    if !is_zero_at(sums, v.cols(i)) {
        return false;
    }
    is_zero_along(sums, y.cols(i), b)
}

// Takes off the row that stands in these columns and values.
fn take_off(p: &Modulus, sums: &mut [u64], cols: &[u32], vals: &[u64])
    requires sparse { IsSparse p.now (length sums.old) cols.now vals.now }
    requires residues { IsVector p.now (length sums.old) sums.old }
    ensures residues { IsVector p.now (length sums.old) sums.new }
    ensures sums { (j : ℕ) → j < length sums.old →
        slice_index sums.new j ≡ (slice_index sums.old j
        + (p.now - 1) * entry_at cols.now vals.now j) % p.now }
{
    for k in 0..cols.len() {
        let j = cols[k] as usize;
        sums[j] = p.sub(sums[j], vals[k]);
    }
}

// Adds a multiple of the row that stands in these columns and values.
fn add_multiple(p: &Modulus, sums: &mut [u64], by: u64, cols: &[u32], vals: &[u64])
    requires sparse { IsSparse p.now (length sums.old) cols.now vals.now }
    requires residues { IsVector p.now (length sums.old) sums.old }
    requires factor { by < p.now }
    ensures residues { IsVector p.now (length sums.old) sums.new }
    ensures sums { (j : ℕ) → j < length sums.old →
        slice_index sums.new j ≡ (slice_index sums.old j + by * entry_at cols.now vals.now j) % p.now }
{
    for k in 0..cols.len() {
        let j = cols[k] as usize;
        let product = p.mul(by, vals[k]);
        sums[j] = sum_modulo(sums[j], product, p);
    }
}

// The residue of the sum of two residues. A difference that wraps is above the sum; this takes no branch, which would be missed
// at random and take longer than the rest.
fn sum_modulo(a: u64, b: u64, p: &Modulus) -> u64
    requires left { a < p.now }
    requires right { b < p.now }
    ensures value { result ≡ (a + b) % p.now }
    ensures residue { result < p.now }
{
    let p = p.p();
    let sum = a + b;
    sum.min(sum.wrapping_sub(p))
}

// Adds the combination of the rows of B with the coefficients that stand in these columns and values.
fn add_rows(p: &Modulus, sums: &mut [u64], cols: &[u32], vals: &[u64], b: &Rows)
    requires sparse { IsSparse p.now b.now.matrix.height cols.now vals.now }
    requires residues { IsVector p.now b.now.matrix.width sums.old }
    requires modulus { b.now.modulus ≡ p.now }
    ensures residues { IsVector p.now b.now.matrix.width sums.new }
    ensures sums { (j : ℕ) → j < b.now.matrix.width →
        slice_index sums.new j ≡ (slice_index sums.old j
        + combined_at (entry_at cols.now vals.now) b.now.matrix j) % p.now }
{
    // The proof wants that B is a matrix of residues, and that p is not 0.
    p.is_sound();
    b.is_sound();
    for k in 0..cols.len() {
        add_multiple(p, sums, vals[k], b.cols(cols[k]), b.vals(cols[k]));
    }
}

// Whether the sums are 0 at these columns.
fn is_zero_at(sums: &[u64], cols: &[u32]) -> bool
    requires { (q : ℕ) → q < length cols.now → slice_index cols.now q < length sums.now }
    ensures { IsTrue result ↔ IsZeroAt sums.now cols.now }
{
    for q in 0..cols.len() {
        if sums[cols[q] as usize] != 0 {
            return false;
        }
    }
    true
}

// Whether the sums are 0 along these rows of B.
fn is_zero_along(sums: &[u64], rows: &[u32], b: &Rows) -> bool
    requires width { length sums.now ≡ b.now.matrix.width }
    requires below { (k : ℕ) → k < length rows.now → slice_index rows.now k < b.now.matrix.height }
    ensures { IsTrue result ↔ IsZeroAlong sums.now rows.now b.now.matrix }
{
    // The proof wants that B is a matrix of residues.
    b.is_sound();
    for k in 0..rows.len() {
        if !is_zero_at(sums, b.cols(rows[k])) {
            return false;
        }
    }
    true
}

// Whether each of these numbers is among those that ascend.
fn are_all_in(numbers: &[u32], rising: &[u32]) -> bool
    requires { AreRising rising.now }
    ensures { IsTrue result ↔ AreAllIn rising.now numbers.now }
{
    for k in 0..numbers.len() {
        if !is_in(numbers[k], rising) {
            return false;
        }
    }
    true
}

// Whether a number is among those that ascend.
fn is_in(number: u32, rising: &[u32]) -> bool
    requires { AreRising rising.now }
    ensures { IsTrue result ↔ Contains rising.now number }
{
    match rising.binary_search(&number) {
        Ok(_) => true,
        Err(_) => false,
    }
}
