//! The rank by plain elimination: the definition's own program, which faster code is compared with by tests.
#![tactic(auto)]

ghost use Rattle.std.specs.Prelude.{◌≡◌, ◌≢◌, ◌<◌, ◌+◌, ◌*◌, ◌%◌, ℕ, List, [], ◌∷◌, ◌++◌, length, slice_index, IfOk, IfSome, MatchOption};
ghost use Rattle.residue_words.specs.Matrix.{IsMatrix, IsVector, entry, row};
ghost use Rattle.residue_words.specs.Residues.{IsPrime};
ghost use Rattle.row_space.specs.Echelon.{HasRank};
ghost use Rattle.row_space.specs.Rows.{DiffersBy, HasSteps};
ghost use Rattle.plain_elimination.specs.Plain.{AreKept, PassesRow, StartsAt, lists, plain_matrix, steps};

use residue_words::Modulus;
use sparse_rows::Rows;
use std::alloc::{AllocError, Global};

/// The rows of a matrix as plain rows.
///
/// Takes memory for each place of the matrix, and fails where it isn't given.
pub fn plain_rows(alloc: Global, rows: &Rows) -> Result<Vec<Vec<u64>>, AllocError>
    ensures { IfOk result (λ plain. plain_matrix rows.now.matrix.width plain.items ≡ rows.now.matrix) }
{
    let height = rows.height();
    let mut plain = Vec::with_capacity(alloc, height as usize)?;
    for i in 0..height {
        plain.push(plain_row(alloc, rows, i)?)?;
    }
    Ok(plain)
}

// Row i as a plain row.
fn plain_row(alloc: Global, rows: &Rows, i: u32) -> Result<Vec<u64>, AllocError>
    requires inside { i < rows.now.matrix.height }
    requires sound { IsMatrix rows.now.modulus rows.now.matrix }
    ensures { IfOk result (λ plain. plain.items ≡ row rows.now.matrix i) }
{
    let mut plain = vec![in alloc; 0; rows.width() as usize]?;
    let cols = rows.cols(i);
    let vals = rows.vals(i);
    for k in 0..cols.len() {
        plain[cols[k] as usize] = vals[k];
    }
    Ok(plain)
}

// The place of the first entry that isn't 0.
fn first_nonzero(row: &[u64]) -> Option<usize>
    ensures { MatchOption result
        ((j : ℕ) → j < length row.now → slice_index row.now j ≡ 0) (StartsAt row.now) }
{
    for (j, a) in row.iter().enumerate() {
        if *a != 0 {
            return Some(j);
        }
    }
    None
}

// Takes a times the kept row from the row.
fn subtract_multiple(p: &Modulus, row: &mut [u64], a: u64, kept: &[u64])
    requires row { IsVector p.now (length row.old) row.old }
    requires kept { IsVector p.now (length row.old) kept.now }
    requires factor { a < p.now }
    ensures vector { IsVector p.now (length row.old) row.new }
    ensures value { (j : ℕ) → j < length row.old
        → slice_index row.old j ≡ (slice_index row.new j + a * slice_index kept.now j) % p.now }
{
    for j in 0..row.len() {
        row[j] = p.sub(row[j], p.mul(a, kept[j]));
    }
}

// Multiplies the row by a.
fn scale(p: &Modulus, row: &mut [u64], a: u64)
    requires row { IsVector p.now (length row.old) row.old }
    requires factor { a < p.now }
    ensures vector { IsVector p.now (length row.old) row.new }
    ensures value { (j : ℕ) → j < length row.old
        → slice_index row.new j ≡ (a * slice_index row.old j) % p.now }
{
    for j in 0..row.len() {
        row[j] = p.mul(a, row[j]);
    }
}

// Takes multiples of the kept rows from the row, one after the other, so that it becomes 0 at their leads.
fn reduce(p: &Modulus, row: &mut [u64], kept: &[Vec<u64>], leads: &[usize])
    requires row { IsVector p.now (length row.old) row.old }
    requires kept { AreKept p.now (length row.old) (lists kept.now) leads.now }
    ensures vector { IsVector p.now (length row.old) row.new }
    ensures value { IsPrime p.now → DiffersBy p.now (plain_matrix (length row.old) kept.now) row.old row.new }
    ensures cleared { let A = plain_matrix (length row.old) kept.now in
        IsPrime p.now → HasSteps A.height A.width (entry A) (slice_index leads.now)
        → (k : ℕ) → k < length leads.now → slice_index row.new (slice_index leads.now k) ≡ 0 }
{
    for k in 0..kept.len() {
        let a = row[leads[k]];
        if a != 0 {
            subtract_multiple(p, row, a, &kept[k]);
        }
    }
}

// Reduces the row by the kept rows. Where something is left, scales it so that its first nonzero entry is 1, and says where this stands.
fn reduce_and_scale(
    p: &Modulus,
    row: &mut [u64],
    kept: &[Vec<u64>],
    leads: &[usize],
) -> Option<usize>
    requires row { IsVector p.now (length row.old) row.old }
    requires kept { AreKept p.now (length row.old) (lists kept.now) leads.now }
    ensures vector { IsVector p.now (length row.old) row.new }
    ensures lead { IfSome result (λ j. j < length row.old) }
    ensures reduced { MatchOption result
        (PassesRow p.now (length row.old) row.old (steps kept.now leads.now) (steps kept.now leads.now))
        (λ j. PassesRow p.now (length row.old) row.old (steps kept.now leads.now)
        (record { kept = lists kept.now ++ row.new ∷ []; leads = leads.now ++ j ∷ [] })) }
{
    reduce(p, row, kept, leads);
    let lead = first_nonzero(row)?;
    let a = p.inv(row[lead]);
    scale(p, row, a);
    Some(lead)
}

// Keeps what the kept rows leave of the row, if anything.
fn keep(
    p: &Modulus,
    kept: &mut Vec<Vec<u64>>,
    leads: &mut Vec<usize>,
    mut row: Vec<u64>,
) -> Result<(), AllocError>
    requires row { IsVector p.now (length row.items) row.items }
    requires kept { AreKept p.now (length row.items) (lists kept.old.items) leads.old.items }
    ensures kept { IfOk result (λ _.
        AreKept p.now (length row.items) (lists kept.new.items) leads.new.items) }
    ensures reduced { IfOk result (λ _. PassesRow p.now (length row.items) row.items
        (steps kept.old.items leads.old.items) (steps kept.new.items leads.new.items)) }
{
    if let Some(lead) = reduce_and_scale(p, &mut row, kept, leads) {
        kept.push(row)?;
        leads.push(lead)?;
    }
    Ok(())
}

/// The rank of the matrix with these rows of `width` residues, by elimination: each row is reduced by the rows kept so far, and kept
/// where something is left, scaled so that its first nonzero entry is 1.
///
/// The rows are changed in place and let go at the end. Takes memory for the list of those that are kept, and fails where it isn't given.
/// For a modulus that isn't prime the answer means nothing. O(rows * rank * width).
pub fn rank_of(
    alloc: Global,
    p: &Modulus,
    width: usize,
    rows: Vec<Vec<u64>>,
) -> Result<usize, AllocError>
    requires { IsMatrix p.now (plain_matrix width rows.items) }
    ensures { IfOk result (λ r. IsPrime p.now → HasRank p.now (plain_matrix width rows.items) r) }
{
    let most = width.min(rows.len());
    let mut kept = Vec::with_capacity(alloc, most)?;
    let mut leads = Vec::with_capacity(alloc, most)?;
    for row in rows {
        keep(p, &mut kept, &mut leads, row)?;
    }
    // The laws' contracts: there is an echelon form, and independent rows of one space are as many.
    row_space::rref_exists();
    row_space::span_fixes_height();
    Ok(kept.len())
}
