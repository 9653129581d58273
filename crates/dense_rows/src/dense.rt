// One dense row.
ghost use Rattle.std.specs.Prelude.{◌≡◌, ◌≢◌, ◌<◌, ◌≤◌, ◌+◌, ◌-◌, ℕ, [], drop, length, map, slice_index, slice_set, false, IfOk, OnOk, IfSome, IfNone};
ghost use Rattle.residue_words.specs.Matrix.{IsVector, zeros};
ghost use Rattle.sparse_rows.specs.Rows.{AreRising, LARGEST_SIZE, AreBelow};
ghost use Rattle.dense_rows.specs.Dense.{AreEntriesAt, ClearsTaken, Gathers, HasNoPivot, IsZeroAtFree, IsCleared, IsFirstFree, IsPivotOf, KeepsCoefficients, Scatters, TakesOut};
ghost use Rattle.dense_rows.specs.Multiples.{IsChangedFrom, plus_at, plus_multiple};
ghost use Rattle.dense_rows.specs.Products.{IsWritten};
ghost use Rattle.dense_rows.specs.declared.products.TheConstants.{PANEL};
ghost use Rattle.residue_words.specs.declared.shoup.TheConstants.{LANE_BOUND};

use crate::products::{Columns, PANEL, write_lanes};
use crate::residue::Residue;
use residue_words::Modulus;
use sparse_rows::Sparse;
use std::alloc::{AllocError, Global};
use std::marker::Model;
use std::simd::prelude::*;

// How many entries are looked at at once where the first of some kind is sought: so many that vectors serve, and few where the
// block with the first is gone through one by one.
const SCAN_BLOCK: usize = 64;

/// A row of residues, zeros too. Contracts see the list of the residues.
#[derive(Drop)]
pub struct Dense<W: Residue> {
    places: Vec<W>,
}

impl<W: Residue> Model for Dense<W> {
    ghost use Rattle.std.specs.Prelude.{List, ℕ, map};

    ghost Value = { List ℕ };

    ghost view = { λ d. map W.value d.places.items };
}

impl<W: Residue> Dense<W> {
    /// n zeros.
    pub fn zeros(alloc: Global, n: usize, p: &Modulus) -> Result<Dense<W>, AllocError>
        requires { W.serves p.now }
        ensures row { IfOk result (λ row. row ≡ zeros n) }
        ensures vector { IfOk result (IsVector p.now n) }
    {
        // The call's contract tells the range of the modulus.
        p.is_sound();
        let mut places = Vec::with_capacity(alloc, n)?;
        places.resize(n, W::of(0, p))?;
        Ok(Dense { places })
    }

    /// A row of no residues, which takes no memory.
    pub fn none(alloc: Global) -> Dense<W>
        ensures { result ≡ [] }
    {
        Dense {
            places: Vec::new(alloc),
        }
    }

    /// The entries, at the block's columns, of the row that `cols` and `vals` stand for.
    pub fn of_entries(
        alloc: Global,
        cols: &[u32],
        vals: &[u64],
        columns: &[u32],
        p: &Modulus,
    ) -> Result<Dense<W>, AllocError>
        requires modulus { W.serves p.now }
        requires long { length vals.now ≡ length cols.now }
        requires residues { (k : ℕ) → k < length vals.now → slice_index vals.now k < p.now }
        requires ascending { AreRising cols.now }
        requires rising { AreRising columns.now }
        requires known { (k : ℕ) → k < length cols.now → (j : ℕ) × (j < length columns.now)
            × (slice_index columns.now j ≡ slice_index cols.now k) }
        ensures vector { IfOk result (IsVector p.now (length columns.now)) }
        ensures entries { IfOk result (AreEntriesAt cols.now vals.now columns.now) }
    {
        // A full row has an entry at each column, in order.
        if cols.len() == columns.len() {
            return Dense::of_residues(alloc, vals, p);
        }
        let mut row = Dense::zeros(alloc, columns.len(), p)?;
        let mut near = 0;
        for k in 0..cols.len() {
            let j = place_of(columns, cols[k], near);
            row.set(j, vals[k], p);
            near = j + 1;
        }
        Ok(row)
    }

    // These residues. There is room for all, so that vectors serve.
    fn of_residues(alloc: Global, vals: &[u64], p: &Modulus) -> Result<Dense<W>, AllocError>
        requires modulus { W.serves p.now }
        requires residues { (k : ℕ) → k < length vals.now → slice_index vals.now k < p.now }
        ensures { IfOk result (λ row. row ≡ vals.now) }
    {
        let mut places = Vec::with_capacity(alloc, vals.len())?;
        for k in 0..vals.len() {
            places.push_reserved(W::of(vals[k], p));
        }
        Ok(Dense { places })
    }

    /// How many residues.
    pub fn len(&self) -> usize
        ensures { result ≡ length self.now }
    {
        self.places.len()
    }

    /// The residue at j.
    pub fn get(&self, j: usize) -> u64
        requires { j < length self.now }
        ensures { result ≡ slice_index self.now j }
    {
        self.places[j].get()
    }

    /// Sets the residue at j.
    pub fn set(&mut self, j: usize, v: u64, p: &Modulus)
        requires modulus { W.serves p.now }
        requires inside { j < length self.old }
        requires residue { v < p.now }
        ensures { self.new ≡ slice_set self.old j v }
    {
        self.places[j] = W::of(v, p);
    }

    /// Adds a y, where y is 0 before `from`.
    pub fn add_multiple(&mut self, a: u64, y: &Dense<W>, from: usize, p: &Modulus)
        requires modulus { W.serves p.now }
        requires factor { a < p.now }
        requires inside { from ≤ length self.old }
        requires residues { IsVector p.now (length self.old) self.old }
        requires multiple { IsVector p.now (length self.old) y.now }
        requires before { (j : ℕ) → j < from → slice_index y.now j ≡ 0 }
        ensures { self.new ≡ plus_multiple p.now a self.old y.now }
    {
        self.add_behind(a, y, from, p);
    }

    // Adds a y from column `from` on.
    fn add_behind(&mut self, a: u64, y: &Dense<W>, from: usize, p: &Modulus)
        requires modulus { W.serves p.now }
        requires factor { a < p.now }
        requires inside { from ≤ length self.old }
        requires residues { IsVector p.now (length self.old) self.old }
        requires multiple { IsVector p.now (length self.old) y.now }
        ensures { IsChangedFrom (plus_at p.now a self.old y.now) self.old from self.new }
    {
        W::add_multiple(&mut self.places[from..], a, &y.places[from..], p);
    }

    /// Takes a pivot's row out as often as this row has it, but for the pivot's column, where the coefficient stays.
    pub fn take_out(&mut self, column: usize, pivot: &Dense<W>, p: &Modulus)
        requires modulus { W.serves p.now }
        requires inside { column < length self.old }
        requires residues { IsVector p.now (length self.old) self.old }
        requires pivot { IsVector p.now (length self.old) pivot.now }
        requires before { (j : ℕ) → j < column → slice_index pivot.now j ≡ 0 }
        ensures { TakesOut p.now column pivot.now self.old self.new }
    {
        let a = self.get(column);
        if a != 0 {
            self.add_multiple(p.neg(a), pivot, column, p);
            self.set(column, a, p);
        }
    }

    /// The first free column with an entry that is not 0.
    pub fn first_free(&self, taken: &[bool]) -> Option<usize>
        requires { length taken.now ≡ length self.now }
        ensures some { IfSome result (IsFirstFree self.now taken.now) }
        ensures none { IfNone result (IsZeroAtFree taken.now self.now) }
    {
        for j in self.free_blocks(taken)..taken.len() {
            if !taken[j] && self.get(j) != 0 {
                return Some(j);
            }
        }
        None
    }

    // How many columns the blocks take that come before one with a free column where an entry is not 0.
    fn free_blocks(&self, taken: &[bool]) -> usize
        requires { length taken.now ≡ length self.now }
        ensures within { result ≤ length self.now }
        ensures zeros { (j : ℕ) → j < result → HasNoPivot taken.now j → slice_index self.now j ≡ 0 }
    {
        let mut at = 0;
        while taken.len() - at >= SCAN_BLOCK {
            if self.has_free_entry(taken, at, at + SCAN_BLOCK) {
                return at;
            }
            at += SCAN_BLOCK;
        }
        at
    }

    // Whether an entry from `start` on and before `end` is not 0 at a free column. It looks at all of them, by vectors.
    fn has_free_entry(&self, taken: &[bool], start: usize, end: usize) -> bool
        requires marks { length taken.now ≡ length self.now }
        requires inside { end ≤ length self.now }
        ensures { result ≡ false → (j : ℕ) → start ≤ j → j < end
            → HasNoPivot taken.now j → slice_index self.now j ≡ 0 }
    {
        let mut any = false;
        for j in start..end {
            any |= !taken[j] & (self.get(j) != 0);
        }
        any
    }

    /// The pivot's row that this row gives: its entries at the free columns, divided by the first, which stands at c.
    pub fn pivot_row(
        &self,
        alloc: Global,
        c: usize,
        taken: &[bool],
        p: &Modulus,
    ) -> Result<Dense<W>, AllocError>
        requires modulus { W.serves p.now }
        requires residues { IsVector p.now (length self.now) self.now }
        requires marks { length taken.now ≡ length self.now }
        requires first { IsFirstFree self.now taken.now c }
        ensures { IfOk result (IsPivotOf p.now c taken.now self.now) }
    {
        let factor = p.inv(self.get(c));
        let mut pivot = Dense::zeros(alloc, self.len(), p)?;
        pivot.add_behind(factor, self, c, p);
        pivot.set(c, 1, p);
        pivot.clear_taken(c + 1, taken, p);
        Ok(pivot)
    }

    // Clears the pivots' columns from `from` on. Where there are none, vectors tell it.
    fn clear_taken(&mut self, from: usize, taken: &[bool], p: &Modulus)
        requires modulus { W.serves p.now }
        requires some { 0 < p.now }
        requires residues { IsVector p.now (length self.old) self.old }
        requires marks { length taken.now ≡ length self.old }
        ensures { ClearsTaken p.now from taken.now self.old self.new }
    {
        if !has_pivot(taken, from) {
            return;
        }
        for j in from..taken.len() {
            if taken[j] {
                self.set(j, 0, p);
            }
        }
    }

    /// Clears the free columns behind c.
    pub fn keep_coefficients(&mut self, c: usize, taken: &[bool], p: &Modulus)
        requires modulus { W.serves p.now }
        requires residues { IsVector p.now (length self.old) self.old }
        requires marks { length taken.now ≡ length self.old }
        requires first { IsFirstFree self.old taken.now c }
        ensures { KeepsCoefficients p.now c taken.now self.old self.new }
    {
        if has_pivot(taken, c + 1) {
            self.clear_each_free(c, taken, p);
        } else {
            self.clear_behind(c + 1, p);
        }
    }

    // The same column by column.
    fn clear_each_free(&mut self, c: usize, taken: &[bool], p: &Modulus)
        requires modulus { W.serves p.now }
        requires residues { IsVector p.now (length self.old) self.old }
        requires marks { length taken.now ≡ length self.old }
        requires first { IsFirstFree self.old taken.now c }
        ensures { KeepsCoefficients p.now c taken.now self.old self.new }
    {
        for j in c + 1..taken.len() {
            if !taken[j] {
                self.set(j, 0, p);
            }
        }
    }

    // Clears all columns from `from` on.
    fn clear_behind(&mut self, from: usize, p: &Modulus)
        requires modulus { W.serves p.now }
        requires some { 0 < p.now }
        requires inside { from ≤ length self.old }
        ensures { IsChangedFrom (λ _. 0) self.old from self.new }
    {
        clear_all(&mut self.places[from..], p);
    }

    /// The entries at these columns, and zeros behind them.
    pub fn entries_at(&self, columns: &[u32]) -> [u64; PANEL]
        requires inside { AreBelow (length self.now) columns.now }
        requires few { length columns.now ≤ PANEL }
        ensures entries { (k : ℕ) → k < length columns.now
            → slice_index result k ≡ slice_index self.now (slice_index columns.now k) }
        ensures rest { (k : ℕ) → length columns.now ≤ k → slice_index result k ≡ 0 }
    {
        let mut entries = [0u64; PANEL];
        for k in 0..columns.len() {
            entries[k] = self.get(columns[k] as usize);
        }
        entries
    }

    /// Clears these columns.
    pub fn clear(&mut self, columns: &[u32], p: &Modulus)
        requires modulus { W.serves p.now }
        requires residues { IsVector p.now (length self.old) self.old }
        requires inside { AreBelow (length self.old) columns.now }
        ensures { IsCleared p.now (length columns.now) (slice_index columns.now) self.old self.new }
    {
        for k in 0..columns.len() {
            self.set(columns[k] as usize, 0, p);
        }
    }

    /// How many of the first `limit` entries come before one that is not 0.
    pub fn leading_zeros(&self, limit: usize) -> usize
        requires inside { limit ≤ length self.now }
        ensures within { result ≤ limit }
        ensures zeros { (j : ℕ) → j < result → slice_index self.now j ≡ 0 }
        ensures nonzero { result < limit → slice_index self.now result ≢ 0 }
    {
        for j in self.zero_blocks(limit)..limit {
            if self.get(j) != 0 {
                return j;
            }
        }
        limit
    }

    // How many of the first `limit` entries the blocks take that come before one with an entry that is not 0.
    fn zero_blocks(&self, limit: usize) -> usize
        requires inside { limit ≤ length self.now }
        ensures within { result ≤ limit }
        ensures zeros { (j : ℕ) → j < result → slice_index self.now j ≡ 0 }
    {
        let mut at = 0;
        while limit - at >= SCAN_BLOCK {
            if self.has_entry(at, at + SCAN_BLOCK) {
                return at;
            }
            at += SCAN_BLOCK;
        }
        at
    }

    // Whether an entry from `start` on and before `end` is not 0. It looks at all of them, by vectors.
    fn has_entry(&self, start: usize, end: usize) -> bool
        requires inside { end ≤ length self.now }
        ensures { result ≡ false → (j : ℕ) → start ≤ j → j < end → slice_index self.now j ≡ 0 }
    {
        let mut any = false;
        for j in start..end {
            any |= self.get(j) != 0;
        }
        any
    }

    /// Whether an entry from `start` on is 0. It looks at all of them, by vectors.
    pub fn has_zero(&self, start: usize) -> bool
        ensures { result ≡ false → (j : ℕ) → start ≤ j → j < length self.now → 0 < slice_index self.now j }
    {
        let mut any = false;
        for j in start..self.places.len() {
            any |= self.get(j) == 0;
        }
        any
    }

    /// The entries from `from` on.
    pub fn entries_from(&self, alloc: Global, from: usize) -> Result<Vec<u64>, AllocError>
        requires { from ≤ length self.now }
        ensures { IfOk result (λ entries. entries.items ≡ drop from self.now) }
    {
        // As a slice, which no push can move, so that vectors serve.
        let places = &self.places[from..];
        let mut entries = Vec::with_capacity(alloc, places.len())?;
        for k in 0..places.len() {
            entries.push_reserved(places[k].get());
        }
        Ok(entries)
    }

    /// Writes the entries at these columns to the first places of `to`, and tells whether one of them is 0.
    pub fn write_at(&self, columns: &[u32], to: &mut [u64]) -> bool
        requires inside { AreBelow (length self.now) columns.now }
        requires room { length columns.now ≤ length to.old }
        ensures long { length to.new ≡ length to.old }
        ensures entries { (k : ℕ) → k < length columns.now
            → slice_index to.new k ≡ slice_index self.now (slice_index columns.now k) }
        ensures positive { result ≡ false → (k : ℕ) → k < length columns.now → 0 < slice_index to.new k }
    {
        write_named(&self.places, columns, to)
    }

    /// Writes the first entries, so many, to the first places of `to`, and tells whether one of them is 0.
    pub fn write_first(&self, count: usize, to: &mut [u64]) -> bool
        requires inside { count ≤ length self.now }
        requires room { count ≤ length to.old }
        ensures long { length to.new ≡ length to.old }
        ensures entries { (k : ℕ) → k < count → slice_index to.new k ≡ slice_index self.now k }
        ensures positive { result ≡ false → (k : ℕ) → k < count → 0 < slice_index to.new k }
    {
        write_front(&self.places[..count], to)
    }

    /// Sets the zero row `to` to the entries, the j-th at `columns[j]`. Those before `from` are 0.
    pub fn scatter(&self, columns: &[u32], from: usize, to: &mut Sparse) -> Result<(), AllocError>
        requires long { length self.now ≡ length columns.now }
        requires start { from ≤ length columns.now }
        requires before { (j : ℕ) → j < from → slice_index self.now j ≡ 0 }
        requires residues { IsVector to.old.modulus (length columns.now) self.now }
        requires zero { to.old.row ≡ zeros (length to.old.row) }
        requires inside { AreBelow (length to.old.row) columns.now }
        requires rising { AreRising columns.now }
        ensures modulus { to.new.modulus ≡ to.old.modulus }
        ensures row { OnOk result (Scatters (length to.old.row) columns.now self.now to.new.row) }
    {
        for j in from..columns.len() {
            let v = self.get(j);
            if v > 0 {
                to.push(columns[j], v)?;
            }
        }
        Ok(())
    }

    /// Sets the zero row `to` to the entries at these columns, one beside the other, and zeros behind them.
    pub fn gather(&self, columns: &[u32], to: &mut Sparse) -> Result<(), AllocError>
        requires long { length columns.now ≤ length to.old.row }
        requires few { length columns.now ≤ LARGEST_SIZE }
        requires residues { IsVector to.old.modulus (length self.now) self.now }
        requires zero { to.old.row ≡ zeros (length to.old.row) }
        requires inside { AreBelow (length self.now) columns.now }
        ensures modulus { to.new.modulus ≡ to.old.modulus }
        ensures row { OnOk result (Gathers (length to.old.row) columns.now self.now to.new.row) }
    {
        for k in 0..columns.len() {
            let v = self.get(columns[k] as usize);
            if v > 0 {
                to.push(k as u32, v)?;
            }
        }
        Ok(())
    }
}

impl Dense<u32> {
    /// The eight entries from `at` on.
    #[inline(always)]
    pub fn eight_at(&self, at: usize) -> [u32; 8]
        requires inside { at + 8 ≤ length self.now }
        ensures { (k : ℕ) → k < 8 → slice_index result k ≡ slice_index self.now (at + k) }
    {
        u32x8::from_slice(&self.places[at..]).to_array()
    }

    /// Writes residues at these columns, of which there are at most eight, from the first on.
    #[inline(always)]
    pub fn write(&mut self, columns: Columns, values: &[u32; 8], p: &Modulus)
        requires modulus { p.now < LANE_BOUND }
        requires residues { (k : ℕ) → k < 8 → slice_index values.now k < p.now }
        requires order { columns.start ≤ columns.end }
        requires narrow { columns.end ≤ columns.start + 8 }
        requires inside { columns.start + 8 ≤ length self.old }
        ensures { IsWritten columns values.now self.old self.new }
    {
        if columns.end - columns.start == 8 {
            write_lanes(&mut self.places, columns.start, u32x8::from_array(*values));
        } else {
            self.write_singly(columns, values, p);
        }
    }

    // Writes them entry by entry.
    fn write_singly(&mut self, columns: Columns, values: &[u32; 8], p: &Modulus)
        requires modulus { p.now < LANE_BOUND }
        requires residues { (k : ℕ) → k < 8 → slice_index values.now k < p.now }
        requires order { columns.start ≤ columns.end }
        requires narrow { columns.end ≤ columns.start + 8 }
        requires inside { columns.start + 8 ≤ length self.old }
        ensures { IsWritten columns values.now self.old self.new }
    {
        for j in columns.start..columns.end {
            self.set(j, u64::from(values[j - columns.start]), p);
        }
    }
}

// Makes all entries 0. They come as a slice, which no write of an entry can move, so that they are filled at once.
fn clear_all<W: Residue>(places: &mut [W], p: &Modulus)
    requires modulus { W.serves p.now }
    requires some { 0 < p.now }
    ensures { (k : ℕ) → k < length places.old → slice_index (map W.value places.new) k ≡ 0 }
{
    for k in 0..places.len() {
        places[k] = W::of(0, p);
    }
}

// Writes residues as numbers to the first places of `to`, and tells whether one of them is 0. They come as slices, which no write
// of a number can move, so that vectors serve.
fn write_front<W: Residue>(residues: &[W], to: &mut [u64]) -> bool
    requires room { length residues.now ≤ length to.old }
    ensures long { length to.new ≡ length to.old }
    ensures written { (k : ℕ) → k < length residues.now
        → slice_index to.new k ≡ slice_index (map W.value residues.now) k }
    ensures positive { result ≡ false → (k : ℕ) → k < length residues.now → 0 < slice_index to.new k }
{
    let mut any = false;
    for k in 0..residues.len() {
        let v = residues[k].get();
        to[k] = v;
        any |= v == 0;
    }
    any
}

// Writes those in these places to the first ones of `to`, and tells whether one of them is 0.
fn write_named<W: Residue>(residues: &[W], places: &[u32], to: &mut [u64]) -> bool
    requires inside { AreBelow (length residues.now) places.now }
    requires room { length places.now ≤ length to.old }
    ensures long { length to.new ≡ length to.old }
    ensures named { (k : ℕ) → k < length places.now
        → slice_index to.new k ≡ slice_index (map W.value residues.now) (slice_index places.now k) }
    ensures positive { result ≡ false → (k : ℕ) → k < length places.now → 0 < slice_index to.new k }
{
    let mut any = false;
    for k in 0..places.len() {
        let v = residues[places[k] as usize].get();
        to[k] = v;
        any |= v == 0;
    }
    any
}

// Whether a pivot stands at one of the columns from `from` on. It looks at all of them, which takes less time than to stop at the
// first, since there is none as a rule.
fn has_pivot(taken: &[bool], from: usize) -> bool
    ensures { result ≡ false → (j : ℕ) → from ≤ j → HasNoPivot taken.now j }
{
    let mut any = false;
    for j in from..taken.len() {
        any |= taken[j];
    }
    any
}

// Where a column stands among these: at `near`, as in a full stretch of a row, or elsewhere.
fn place_of(columns: &[u32], column: u32, near: usize) -> usize
    requires rising { AreRising columns.now }
    requires known { (j : ℕ) × (j < length columns.now) × (slice_index columns.now j ≡ column) }
    ensures inside { result < length columns.now }
    ensures there { slice_index columns.now result ≡ column }
{
    if near < columns.len() && columns[near] == column {
        return near;
    }
    match columns.binary_search(&column) {
        Ok(j) => j,
        Err(j) => j,
    }
}
