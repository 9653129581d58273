// Sums by column, with a list of the columns touched.
ghost use Rattle.std.specs.Prelude.{ℕ, ◌≡◌, ◌<◌, ◌≤◌, ◌+◌, ◌^◌, [], ◌∷◌, ◌++◌, if◌then◌else◌, length, slice_index, vec_len, vec_capacity, IfOk, OnErr, OnOk};
ghost use Rattle.residue_words.specs.declared.shoup.TheConstants.{LANE_BOUND};
ghost use Rattle.sparse_rows.specs.Rows.{AddsAt, AddsMultiple};
ghost use Rattle.lead_rows.specs.Accumulator.{AddsBelow, IsClear};
ghost use Rattle.lead_rows.specs.Scattered.{IsScattered, IsTouched, ListsBehind};

use crate::accumulator::{add_below, limit, residue_of};
use residue_words::{LANE_BOUND, Modulus};
use std::alloc::{AllocError, Global};
use std::marker::Model;

/// A row of residues by column, which gives out its entries in any order: so none is looked for, as an `Accumulator` does. Its sums
/// are reduced late, as those of an `Accumulator` are. It takes 8 bytes a column, and 4 bytes for each that is touched and for each of a
/// row that is added.
#[derive(Drop)]
pub struct TouchedSums {
    modulus: Modulus,
    // A multiple of the modulus that each sum is below.
    limit: u64,
    sums: Vec<u64>,
    // Each column whose sum is not 0, and some whose sum has become 0.
    touched: Vec<u32>,
}

impl Model for TouchedSums {
    ghost use Rattle.sparse_rows.specs.Rows.{ResidueRow};
    ghost use Rattle.lead_rows.specs.Accumulator.{residues_of};
    ghost use Rattle.lead_rows.specs.Scattered.{IsTouched};

    ghost Value = { ResidueRow };

    ghost view = { λ s. record { modulus = s.modulus; row = residues_of s.modulus s.sums.items } };

    ghost invariant = { λ s. IsTouched s.modulus s.limit s.sums.items s.touched.items };
}

impl TouchedSums {
    /// The zero row of n entries.
    pub fn new(alloc: Global, n: u32, p: Modulus) -> Result<TouchedSums, AllocError>
        ensures { IfOk result (IsClear p n) }
    {
        Ok(TouchedSums {
            modulus: p,
            limit: limit(p.p()),
            sums: vec![in alloc; 0; n as usize]?,
            touched: Vec::new(alloc),
        })
    }

    /// Adds v at column j.
    pub fn add(&mut self, j: u32, v: u64) -> Result<(), AllocError>
        requires column { j < length self.old.row }
        requires residue { v < self.old.modulus }
        ensures { OnOk result (AddsAt j v self.old self.new) }
    {
        self.touched.reserve(1)?;
        add_touched(&mut self.sums, &mut self.touched, j, v, self.limit);
        Ok(())
    }

    // Adds a multiple of a row by its products, as an `Accumulator` does. There is room for all columns before the first is touched,
    // so that nothing fails entry by entry.
    fn add_products(&mut self, by: u64, cols: &[u32], vals: &[u64]) -> Result<(), AllocError>
        requires small { self.old.modulus < LANE_BOUND }
        requires row { IsScattered self.old.modulus (length self.old.row) cols.now vals.now }
        requires factor { by < self.old.modulus }
        ensures { OnOk result (AddsMultiple by cols.now vals.now self.old self.new) }
    {
        self.touched.reserve(cols.len())?;
        for k in 0..cols.len() {
            let product = by * vals[k];
            add_touched(
                &mut self.sums,
                &mut self.touched,
                cols[k],
                product,
                self.limit,
            );
        }
        Ok(())
    }

    // Adds a multiple of a row by the residues of its products.
    fn add_residues(&mut self, by: u64, cols: &[u32], vals: &[u64]) -> Result<(), AllocError>
        requires row { IsScattered self.old.modulus (length self.old.row) cols.now vals.now }
        requires factor { by < self.old.modulus }
        ensures { OnOk result (AddsMultiple by cols.now vals.now self.old self.new) }
    {
        self.touched.reserve(cols.len())?;
        let modulus = self.modulus;
        for k in 0..cols.len() {
            let product = modulus.mul(by, vals[k]);
            add_touched(
                &mut self.sums,
                &mut self.touched,
                cols[k],
                product,
                self.limit,
            );
        }
        Ok(())
    }

    /// Adds a multiple of the row that stands in these columns and values.
    pub fn add_multiple(&mut self, by: u64, cols: &[u32], vals: &[u64]) -> Result<(), AllocError>
        requires row { IsScattered self.old.modulus (length self.old.row) cols.now vals.now }
        requires factor { by < self.old.modulus }
        ensures { OnOk result (AddsMultiple by cols.now vals.now self.old self.new) }
    {
        if self.modulus.p() < LANE_BOUND {
            self.add_products(by, cols, vals)
        } else {
            self.add_residues(by, cols, vals)
        }
    }

    /// Appends the columns and values of the row, which is taken from it, to these lists.
    pub fn drain_behind(
        &mut self,
        cols: &mut Vec<u32>,
        vals: &mut Vec<u64>,
    ) -> Result<(), AllocError>
        ensures clear { OnOk result (IsClear self.old.modulus (length self.old.row) self.new) }
        ensures listed { OnOk result
            (ListsBehind self.old cols.old.items vals.old.items cols.new.items vals.new.items) }
        ensures kept { OnErr result ((cols.new.items ≡ cols.old.items) × (vals.new.items ≡ vals.old.items)) }
    {
        cols.reserve(self.touched.len())?;
        vals.reserve(self.touched.len())?;
        while let Some(column) = self.touched.pop() {
            let value = residue_of(&self.modulus, self.limit, self.sums[column as usize]);
            self.sums[column as usize] = 0;
            push_if(cols, column, value != 0);
            push_if(vals, value, value != 0);
        }
        Ok(())
    }
}

// Adds v at column j to sums that are kept below the limit, and lists the column if its sum was 0.
fn add_touched(sums: &mut Vec<u64>, touched: &mut Vec<u32>, j: u32, v: u64, limit: u64)
    requires column { j < length sums.old.items }
    requires limit { limit ≤ 2 ^ 63 }
    requires sum { slice_index sums.old.items j < limit }
    requires value { v < limit }
    requires room { vec_len touched.old < vec_capacity touched.old }
    ensures sums { AddsBelow limit j v sums.old.items sums.new.items }
    ensures touched { (p : ℕ) → IsTouched p limit sums.old.items touched.old.items
        → IsTouched p limit sums.new.items touched.new.items }
    ensures len { vec_len touched.new ≤ vec_len touched.old + 1 }
    ensures capacity { vec_capacity touched.new ≡ vec_capacity touched.old }
{
    let first = add_below(sums, j, v, limit);
    push_if(touched, j, first);
}

// Appends an item if it is to stay. It is written behind the list in any case: a branch would be missed at random.
fn push_if<T: Copy>(list: &mut Vec<T>, item: T, stays: bool)
    requires { vec_len list.old < vec_capacity list.old }
    ensures items { list.new.items ≡ (if stays then list.old.items ++ item ∷ [] else list.old.items) }
    ensures len { vec_len list.new ≤ vec_len list.old + 1 }
    ensures capacity { vec_capacity list.new ≡ vec_capacity list.old }
{
    list.push_reserved(item);
    if !stays {
        let _ = list.take_last();
    }
}
