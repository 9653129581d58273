// Rows that are no multiple of one before them.
ghost use Rattle.std.specs.Prelude.{◌≡◌, ◌<◌, ◌*◌, ◌/◌, ◌^◌, ℕ, [], length, slice_index, All, IfNone, IfOk, IsTrue, OnOk};
ghost use Rattle.residue_words.specs.Matrix.{row};
ghost use Rattle.residue_words.specs.Residues.{IsPrime};
ghost use Rattle.sparse_rows.specs.Rows.{AreFilled, IsFilled};
ghost use Rattle.weight_order.specs.Multiples.{AddsUnlessRepeated, AreRepresentatives, AreProportional, IsMultiple, IsRepeated};

use residue_words::Modulus;
use sparse_rows::Rows;
use std::alloc::{AllocError, Global};

// A row is looked for in so many seats; if all are taken, the first is given up, and multiples of the row that loses it may stay.
const MOST_STEPS: usize = 64;

// Odd numbers with bits in no order: 2^64 by the golden ratio, and a factor of David Stafford's mixers.
const COLUMN_FACTOR: u64 = 0x9E37_79B9_7F4A_7C15;

const HASH_FACTOR: u64 = 0xBF58_476D_1CE4_E5B9;

// Of these filled rows, which ascend, those that are no multiple of one before them: in time by their entries, and memory of 32 bytes a
// row and 4 for each that is kept.
pub(crate) fn distinct(alloc: Global, rows: &Rows, filled: &[u32]) -> Result<Vec<u32>, AllocError>
    requires { AreFilled rows.now.matrix filled.now }
    ensures { IfOk result (λ kept. AreRepresentatives rows.now filled.now kept.items) }
{
    // The contract of this call tells that the rows are a matrix of residues.
    rows.is_sound();
    let mut kept = KeptRows::with_room(alloc, filled.len())?;
    for i in filled {
        kept.add(rows, *i)?;
    }
    Ok(kept.numbers)
}

// A seat of the table of kept rows.
#[derive(Clone, Copy, Debug)]
struct Seat {
    hash: u64,
    // Which of the kept rows has this hash; beyond them if none sits here.
    place: usize,
}

const FREE: Seat = Seat {
    hash: 0,
    place: usize::MAX,
};

// The rows kept so far, and where each is found by its hash. The table only proposes rows: the entries decide.
#[derive(Debug, Drop)]
struct KeptRows {
    numbers: Vec<u32>,
    seats: Vec<Seat>,
}

impl KeptRows {
    // No row, with two seats for each of so many.
    fn with_room(alloc: Global, count: usize) -> Result<KeptRows, AllocError>
        ensures { IfOk result (λ k. k.numbers.items ≡ []) }
    {
        Ok(KeptRows {
            numbers: Vec::new(alloc),
            seats: vec![in alloc; FREE; count.saturating_mul(2)]?,
        })
    }

    // Keeps row i, unless it is a multiple of one that is kept.
    fn add(&mut self, rows: &Rows, i: u32) -> Result<(), AllocError>
        requires row { i < rows.now.matrix.height }
        requires filled { IsFilled rows.now.matrix i }
        requires inside { All (λ k. k < rows.now.matrix.height) self.old.numbers.items }
        ensures { OnOk result (AddsUnlessRepeated rows.now i self.old.numbers.items self.new.numbers.items) }
    {
        let hash = direction_hash(rows, i);
        let Some(at) = self.seat_for(rows, i, hash) else {
            return Ok(());
        };
        if at < self.seats.len() {
            self.seats[at] = Seat {
                hash,
                place: self.numbers.len(),
            };
        }
        self.numbers.push(i)?;
        Ok(())
    }

    // The seat for row i of this hash, if there is one; None if the row is a multiple of one that is kept.
    fn seat_for(&self, rows: &Rows, i: u32, hash: u64) -> Option<usize>
        requires row { i < rows.now.matrix.height }
        requires filled { IsFilled rows.now.matrix i }
        requires inside { All (λ k. k < rows.now.matrix.height) self.now.numbers.items }
        ensures { IfNone result (IsRepeated rows.now self.now.numbers.items i) }
    {
        let first = high_half(hash, self.seats.len() as u64) as usize;
        for at in first..self.seats.len().min(first.saturating_add(MOST_STEPS)) {
            let seat = self.seats[at];
            if self.numbers.len() <= seat.place {
                return Some(at);
            }
            if seat.hash == hash && is_multiple(rows, i, self.numbers[seat.place]) {
                return None;
            }
        }
        Some(first)
    }
}

// Whether row i, which is filled, is a multiple of row k modulo a prime.
fn is_multiple(rows: &Rows, i: u32, k: u32) -> bool
    requires row { i < rows.now.matrix.height }
    requires filled { IsFilled rows.now.matrix i }
    requires other { k < rows.now.matrix.height }
    ensures { IsTrue result → IsPrime rows.now.modulus →
        IsMultiple rows.now.modulus rows.now.matrix.width
        (row rows.now.matrix i) (row rows.now.matrix k) }
{
    rows.cols(i) == rows.cols(k) && are_proportional(&rows.modulus(), rows.vals(i), rows.vals(k))
}

// Whether the one's values by the other's first are the other's by the one's first; none is 0.
fn are_proportional(p: &Modulus, values: &[u64], others: &[u64]) -> bool
    requires some { 0 < length values.now }
    requires long { length values.now ≡ length others.now }
    requires residues { (t : ℕ) → t < length values.now → slice_index values.now t < p.now }
    requires other_residues { (t : ℕ) → t < length others.now → slice_index others.now t < p.now }
    requires positive { 0 < slice_index others.now 0 }
    ensures { IsTrue result → AreProportional p.now values.now others.now }
{
    let first = values[0];
    let other_first = others[0];
    for t in 0..values.len() {
        if p.mul(values[t], other_first) != p.mul(others[t], first) {
            return false;
        }
    }
    true
}

// A hash of row i, which is filled, that its multiples have too: of its columns, and of its values by the inverse of the first.
fn direction_hash(rows: &Rows, i: u32) -> u64
    requires row { i < rows.now.matrix.height }
    requires filled { IsFilled rows.now.matrix i }
{
    let p = rows.modulus();
    let cols = rows.cols(i);
    let vals = rows.vals(i);
    let by = p.inv(vals[0]);
    let mut hash = 0;
    for k in 0..cols.len() {
        let entry = u64::from(cols[k]).wrapping_mul(COLUMN_FACTOR) ^ p.mul(by, vals[k]);
        hash = mixed(hash, entry);
    }
    mixed(hash, 0)
}

// The hash of what came before and of one word more.
fn mixed(hash: u64, word: u64) -> u64 {
    let product = (hash ^ word).wrapping_mul(HASH_FACTOR);
    product ^ (product >> 32)
}

// The high 64 bits of a product.
fn high_half(a: u64, b: u64) -> u64
    ensures { result ≡ a * b / 2 ^ 64 }
{
    (u128::from(a) * u128::from(b) >> 64) as u64
}
