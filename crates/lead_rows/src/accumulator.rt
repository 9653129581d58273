// A dense row of sums, and where in it something may stand.
ghost use Rattle.std.specs.Prelude.{◌≡◌, ◌<◌, ◌≤◌, ◌⊎◌, ◌+◌, ◌*◌, ◌/◌, ◌%◌, ◌^◌, length, slice_index, slice_set, IfOk, OnOk, IfSome, IfNone, IsTrue, ◌↔◌};
ghost use Rattle.residue_words.specs.Matrix.{IsVector, zeros};
ghost use Rattle.residue_words.specs.declared.shoup.TheConstants.{LANE_BOUND};
ghost use Rattle.sparse_rows.specs.ColumnSet.{AllZero, TakesFirst};
ghost use Rattle.sparse_rows.specs.Stored.{IsSparse};
ghost use Rattle.sparse_rows.specs.Rows.{AddsAt, AddsMultiple, LARGEST_SIZE};
ghost use Rattle.lead_rows.specs.Accumulator.{AddsBelow, IsAlike, limit_of};
ghost use Rattle.lead_rows.specs.Scattered.{IsScattered};

use residue_words::{LANE_BOUND, Modulus};
use sparse_rows::{ColumnSet, Sparse};
use std::alloc::{AllocError, Global};
use std::marker::Model;

// No limit is above this, so that twice the limit fits 64 bits.
const ROOM: u64 = 0x8000_0000_0000_0000;

/// A row of sums by column, to which multiples of sparse rows are added, and which gives out its entries in order. Contracts
/// see the row of their residues with the modulus.
///
/// It takes 8 bytes and a bit a column. Each call of `Leads` leaves it zero, and so does `drain`, so one serves any number of rows.
///
/// Sums are reduced late: modulo p below 2^31 products are added as they are, and a multiple of p near 2^63 is taken away
/// once a sum reaches it; what is given out is reduced then.
#[derive(Debug, Drop)]
pub struct Accumulator {
    modulus: Modulus,
    // A multiple of the modulus that each sum is below.
    limit: u64,
    sums: Vec<u64>,
    // Each column whose sum is not 0, and some whose sum has become 0.
    touched: ColumnSet,
}

impl Model for Accumulator {
    ghost use Rattle.sparse_rows.specs.Rows.{ResidueRow};
    ghost use Rattle.lead_rows.specs.Accumulator.{IsAccumulator, residues_of};

    ghost Value = { ResidueRow };

    ghost view = { λ a. record { modulus = a.modulus; row = residues_of a.modulus a.sums.items } };

    ghost invariant = { λ a. IsAccumulator a.modulus a.limit a.sums.items a.touched };
}

impl Accumulator {
    /// The zero row of n entries.
    pub fn new(alloc: Global, n: u32, p: &Modulus) -> Result<Accumulator, AllocError>
        ensures { IfOk result (λ made. made ≡ record { modulus = p.now; row = zeros n }) }
    {
        Ok(Accumulator {
            modulus: *p,
            limit: limit(p.p()),
            sums: vec![in alloc; 0; n as usize]?,
            touched: ColumnSet::new(alloc, n)?,
        })
    }

    /// How many columns it has.
    pub fn width(&self) -> u32
        requires { length self.now.row ≤ LARGEST_SIZE }
        ensures { result ≡ length self.now.row }
    {
        self.sums.len() as u32
    }

    /// The modulus.
    pub fn modulus(&self) -> Modulus
        ensures { result ≡ self.now.modulus }
    {
        self.modulus
    }

    /// Adds v at column j.
    pub fn add(&mut self, j: u32, v: u64)
        requires column { j < length self.old.row }
        requires below { v < limit_of self.old.modulus }
        ensures { AddsAt j v self.old self.new }
    {
        if add_below(&mut self.sums, j, v, self.limit) {
            self.touched.mark(j);
        }
    }

    // Adds a multiple of a row by its products: of a small p more than 2^30 of them make no sum reach the limit.
    fn add_products(&mut self, by: u64, cols: &[u32], vals: &[u64])
        requires small { self.old.modulus < LANE_BOUND }
        requires residues { IsVector self.old.modulus (length self.old.row) self.old.row }
        requires row { IsScattered self.old.modulus (length self.old.row) cols.now vals.now }
        requires factor { by < self.old.modulus }
        ensures { AddsMultiple by cols.now vals.now self.old self.new }
    {
        for k in 0..cols.len() {
            self.add(cols[k], by * vals[k]);
        }
    }

    // Adds a multiple of a row by the residues of its products.
    fn add_residues(&mut self, by: u64, cols: &[u32], vals: &[u64])
        requires residues { IsVector self.old.modulus (length self.old.row) self.old.row }
        requires row { IsScattered self.old.modulus (length self.old.row) cols.now vals.now }
        requires factor { by < self.old.modulus }
        ensures { AddsMultiple by cols.now vals.now self.old self.new }
    {
        let modulus = self.modulus;
        for k in 0..cols.len() {
            self.add(cols[k], modulus.mul(by, vals[k]));
        }
    }

    /// Adds a multiple of the row that stands in these columns and values, in time proportional to its entries.
    pub fn add_multiple(&mut self, by: u64, cols: &[u32], vals: &[u64])
        requires sparse { IsSparse self.old.modulus (length self.old.row) cols.now vals.now }
        requires factor { by < self.old.modulus }
        ensures { AddsMultiple by cols.now vals.now self.old self.new }
    {
        self.add_scattered(by, cols, vals);
    }

    /// The same where the columns and values stand in any order.
    pub fn add_scattered(&mut self, by: u64, cols: &[u32], vals: &[u64])
        requires row { IsScattered self.old.modulus (length self.old.row) cols.now vals.now }
        requires factor { by < self.old.modulus }
        ensures { AddsMultiple by cols.now vals.now self.old self.new }
    {
        if self.modulus.p() < LANE_BOUND {
            self.add_products(by, cols, vals);
        } else {
            self.add_residues(by, cols, vals);
        }
    }

    /// Takes the first entry that is not 0, with its column.
    pub fn pop(&mut self) -> Option<(u32, u64)>
        ensures modulus { self.new.modulus ≡ self.old.modulus }
        ensures some { IfSome result (λ taken. TakesFirst self.old.row self.new.row taken.0 taken.1) }
        ensures none { IfNone result ((self.new ≡ self.old) × AllZero self.old.row) }
    {
        while let Some(column) = self.touched.pop() {
            let value = residue_of(&self.modulus, self.limit, self.sums[column as usize]);
            self.sums[column as usize] = 0;
            if value != 0 {
                return Some((column, value));
            }
        }
        None
    }

    /// Appends its entries, which are taken from it, to a zero row. The time is that of the columns touched, and a step for each
    /// 4096 columns. Where memory is wanted, some of them may be gone: `clear` then makes it the zero row.
    pub fn drain(&mut self, row: &mut Sparse) -> Result<(), AllocError>
        requires vector { IsVector self.old.modulus (length self.old.row) self.old.row }
        requires modulus { row.old.modulus ≡ self.old.modulus }
        requires none { row.old.row ≡ zeros (length self.old.row) }
        ensures sums { IsAlike self.old self.new }
        ensures row { IsAlike row.old row.new }
        ensures ok { OnOk result (row.new.row ≡ self.old.row) }
        ensures empty { OnOk result (self.new.row ≡ zeros (length self.old.row)) }
    {
        while let Some((column, value)) = self.pop() {
            row.push(column, value)?;
        }
        Ok(())
    }

    /// Takes all entries, and answers how many there were.
    pub fn count(&mut self) -> u64
        ensures { IsAlike self.old self.new }
    {
        let mut count: u64 = 0;
        while self.pop().is_some() {
            count = count.saturating_add(1);
        }
        count
    }

    /// Makes it the zero row, in time proportional to the columns touched.
    pub fn clear(&mut self)
        ensures { self.new ≡ record { modulus = self.old.modulus; row = zeros (length self.old.row) } }
    {
        while let Some(column) = self.touched.pop() {
            self.sums[column as usize] = 0;
        }
    }
}

// What sums modulo p are kept below: for a small p the greatest multiple of p up to 2^63, else p.
pub(crate) fn limit(p: u64) -> u64
    requires { 2 ≤ p }
    ensures { result ≡ limit_of p }
{
    if p < LANE_BOUND { ROOM / p * p } else { p }
}

// The residue of a sum below the limit: the sum where the limit is the modulus, since by a large one it takes a division.
pub(crate) fn residue_of(p: &Modulus, limit: u64, sum: u64) -> u64
    requires { sum < limit }
    ensures value { result ≡ sum % p.now }
{
    if limit == p.p() { sum } else { p.residue(sum) }
}

// A number below twice the limit, less the limit where it is not below it. A difference that wraps is above the sum; this
// takes no branch, which would be missed at random for a large p.
fn lowered(sum: u64, limit: u64) -> u64
    requires limit { limit ≤ 2 ^ 63 }
    requires in_range { sum < 2 * limit }
    ensures below { result < limit }
    ensures same { (result ≡ sum) ⊎ (result + limit ≡ sum) }
{
    sum.min(sum.wrapping_sub(limit))
}

// Adds v at column j to sums that are kept below the limit. The answer is whether the sum was 0.
pub(crate) fn add_below(sums: &mut [u64], j: u32, v: u64, limit: u64) -> bool
    requires column { j < length sums.old }
    requires limit { limit ≤ 2 ^ 63 }
    requires sum { slice_index sums.old j < limit }
    requires value { v < limit }
    ensures zero { IsTrue result ↔ slice_index sums.old j ≡ 0 }
    ensures sums { AddsBelow limit j v sums.old sums.new }
{
    let sum = sums[j as usize];
    sums[j as usize] = lowered(sum + v, limit);
    sum == 0
}
