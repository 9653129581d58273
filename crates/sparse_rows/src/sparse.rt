// One row by its nonzero entries.
ghost use Rattle.residue_words.specs.declared.modulus.TheConstants.{MODULUS_BOUND};
ghost use Rattle.std.specs.Prelude.{◌≡◌, ◌<◌, ◌≤◌, ◌^◌, ℕ, length, slice_index, slice_set, IfOk, OnOk, OnErr};
ghost use Rattle.residue_words.specs.Matrix.{IsVector, zeros};
ghost use Rattle.column_lists.specs.Numbers.{AreBelow, AreRising};
ghost use Rattle.sparse_rows.specs.Rows.{nonzeros, support};

use residue_words::Modulus;
use std::alloc::{AllocError, Global};
use std::marker::Model;

/// A row of residues by its nonzero entries: their columns, ascending, and their values. Contracts see the plain row with
/// its modulus. It takes 12 bytes an entry.
#[derive(Debug, Drop)]
pub struct Sparse {
    modulus: Modulus,
    width: u32,
    cols: Vec<u32>,
    vals: Vec<u64>,
}

impl Model for Sparse {
    ghost use Rattle.std.specs.Prelude.{◌≤◌, ◌<◌, ◌^◌};
    ghost use Rattle.residue_words.specs.declared.modulus.TheConstants.{MODULUS_BOUND};
    ghost use Rattle.sparse_rows.specs.Rows.{ResidueRow};
    ghost use Rattle.sparse_rows.specs.Stored.{IsSparse, spread};

    ghost Value = { ResidueRow };

    ghost view = { λ r. record { modulus = r.modulus; row = spread r.width r.cols.items r.vals.items } };

    ghost invariant = { λ r. (IsSparse r.modulus r.width r.cols.items r.vals.items) × (2 ≤ r.modulus)
        × (r.modulus < MODULUS_BOUND) };
}

impl Sparse {
    /// The zero row of n entries, which takes no memory.
    pub fn new(alloc: Global, n: u32, p: Modulus) -> Self
        ensures modulus { result.modulus ≡ p }
        ensures row { result.row ≡ zeros n }
    {
        // The call tells the range of the modulus.
        p.is_sound();
        Sparse {
            modulus: p,
            width: n,
            cols: Vec::new(alloc),
            vals: Vec::new(alloc),
        }
    }

    /// The same with room for so many entries, so that they aren't moved as they become more.
    pub fn with_room(alloc: Global, n: u32, p: Modulus, entries: usize) -> Result<Self, AllocError>
        ensures modulus { IfOk result (λ row. row.modulus ≡ p) }
        ensures row { IfOk result (λ row. row.row ≡ zeros n) }
    {
        // The call tells the range of the modulus.
        p.is_sound();
        Ok(Sparse {
            modulus: p,
            width: n,
            cols: Vec::with_capacity(alloc, entries)?,
            vals: Vec::with_capacity(alloc, entries)?,
        })
    }

    /// Sets the entry at column j, behind which and at which all entries are 0.
    pub fn push(&mut self, j: u32, v: u64) -> Result<(), AllocError>
        requires column { j < length self.old.row }
        requires behind { (k : ℕ) → j ≤ k → k < length self.old.row → slice_index self.old.row k ≡ 0 }
        requires positive { 0 < v }
        requires residue { v < self.old.modulus }
        ensures modulus { self.new.modulus ≡ self.old.modulus }
        ensures ok { OnOk result (self.new.row ≡ slice_set self.old.row j v) }
        ensures err { OnErr result (self.new.row ≡ self.old.row) }
    {
        self.vals.reserve(1)?;
        self.cols.push(j)?;
        self.vals.push(v)?;
        Ok(())
    }

    /// Makes it the zero row; the memory stays for the next entries.
    pub fn clear(&mut self)
        ensures modulus { self.new.modulus ≡ self.old.modulus }
        ensures row { self.new.row ≡ zeros (length self.old.row) }
    {
        self.cols.clear();
        self.vals.clear();
    }

    /// The law of its modulus and its entries, for proofs: it does nothing.
    #[inline(always)]
    pub fn is_sound(&self)
        ensures two_or_more { 2 ≤ self.now.modulus }
        ensures in_range { self.now.modulus < MODULUS_BOUND }
        ensures entries { IsVector self.now.modulus (length self.now.row) self.now.row }
    {
        self.modulus();
        self.width();
    }

    /// How many entries the row has, zeros too.
    pub fn width(&self) -> u32
        ensures value { result ≡ length self.now.row }
        ensures sound { IsVector self.now.modulus result self.now.row }
    {
        self.width
    }

    /// The modulus.
    pub fn modulus(&self) -> Modulus
        ensures value { result ≡ self.now.modulus }
        ensures two_or_more { 2 ≤ result }
        ensures in_range { result < MODULUS_BOUND }
    {
        self.modulus
    }

    /// The columns of the nonzero entries, ascending.
    pub fn cols(&self) -> &[u32]
        ensures support { result.now ≡ support self.now.row }
        ensures same_length { length result.now ≡ length (nonzeros self.now.row) }
        ensures below_width { AreBelow (length self.now.row) result.now }
        ensures ascending { AreRising result.now }
    {
        self.cols.as_slice()
    }

    /// The nonzero entries, by ascending columns.
    pub fn vals(&self) -> &[u64]
        ensures values { result.now ≡ nonzeros self.now.row }
        ensures same_length { length result.now ≡ length (support self.now.row) }
        ensures positive { (k : ℕ) → k < length result.now → 0 < slice_index result.now k }
        ensures residues { (k : ℕ) → k < length result.now → slice_index result.now k < self.now.modulus }
    {
        self.vals.as_slice()
    }
}
