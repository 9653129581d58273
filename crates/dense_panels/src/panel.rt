// The pivots of one panel, and what they leave of other rows.
ghost use Rattle.std.specs.Prelude.{◌≡◌, ◌<◌, ◌≤◌, ◌↔◌, ℕ, length, IfOk, OnOk, IsTrue};
ghost use Rattle.residue_words.specs.Matrix.{IsVector};
ghost use Rattle.dense_rows.specs.Rows.{AreVectors, block_row, entry_of};
ghost use Rattle.dense_panels.specs.Panel.{ArePivots, PanelReduces, PanelReducesEach, joined_panel, no_pivots, with_pivot};
ghost use Rattle.dense_panels.specs.Units.{AreUnits, AreUnitRows};
ghost use Rattle.residue_words.specs.declared.shoup.TheConstants.{LANE_BOUND};

use crate::reducing::Reducing;
use dense_rows::{BLOCK_ROWS, Columns, Dense, Folding, PANEL, Residue, TILE_COLUMNS, add_products};
use residue_words::Modulus;
use std::alloc::{AllocError, Global};
use std::marker::Model;

/// The columns of some pivots, and their rows, of so many entries: each row is 1 at its column, and 0 before it and at the
/// columns of the pivots before. Contracts see these as `PanelRows`.
#[derive(Drop)]
pub struct Panel<W: Residue> {
    width: usize,
    columns: Vec<u32>,
    rows: Vec<Dense<W>>,
}

impl<W: Residue> Model for Panel<W> {
    ghost use Rattle.dense_panels.specs.Panel.{PanelRows};

    ghost Value = { PanelRows };

    ghost view = { λ p. record { width = p.width; columns = p.columns.items; rows = p.rows.items } };
}

impl<W: Residue> Panel<W> {
    /// No pivots of rows of so many entries.
    pub fn new(alloc: Global, width: usize) -> Panel<W>
        ensures { result ≡ no_pivots width }
    {
        Panel {
            width,
            columns: Vec::new(alloc),
            rows: Vec::new(alloc),
        }
    }

    /// Puts a pivot behind the others.
    pub fn push(&mut self, column: u32, row: Dense<W>) -> Result<(), AllocError>
        ensures width { self.new.width ≡ self.old.width }
        ensures pivot { OnOk result (self.new ≡ with_pivot self.old column row) }
    {
        self.columns.push(column)?;
        self.rows.push(row)?;
        Ok(())
    }

    // Puts other pivots behind these.
    pub(crate) fn append(&mut self, mut more: Panel<W>) -> Result<(), AllocError>
        ensures { OnOk result (self.new ≡ joined_panel self.old more) }
    {
        self.columns.append(&mut more.columns)?;
        self.rows.append(&mut more.rows)?;
        Ok(())
    }

    // Whether there is no pivot.
    pub(crate) fn is_empty(&self) -> bool
        ensures { IsTrue result ↔ (length self.now.columns ≡ 0) }
    {
        self.columns.is_empty()
    }

    /// Takes the pivots out of a row.
    pub fn reduce(&self, row: &mut Dense<W>, p: &Modulus)
        requires modulus { W.serves p.now }
        requires residues { IsVector p.now self.now.width row.old }
        requires pivots { ArePivots p.now self.now }
        ensures { PanelReduces p.now self.now row.old row.new }
    {
        for k in 0..self.columns.len() {
            row.take_out(self.columns[k] as usize, &self.rows[k], p);
        }
    }

    // Takes the pivots out of each row.
    pub(crate) fn reduce_each(&self, rows: &mut [Dense<W>], p: &Modulus)
        requires modulus { W.serves p.now }
        requires residues { AreVectors p.now self.now.width rows.old }
        requires pivots { ArePivots p.now self.now }
        ensures { PanelReducesEach p.now self.now rows.old rows.new }
    {
        for k in 0..rows.len() {
            self.reduce(&mut rows[k], p);
        }
    }

    // The unit rows at the pivots' columns.
    fn unit_rows(&self, alloc: Global, p: &Modulus) -> Result<Vec<Dense<W>>, AllocError>
        requires modulus { W.serves p.now }
        requires pivots { ArePivots p.now self.now }
        ensures { IfOk result (λ units. AreUnitRows p.now self.now units.items) }
    {
        // The call's contract tells the range of the modulus.
        p.is_sound();
        let mut units = Vec::with_capacity(alloc, self.columns.len())?;
        for k in 0..self.columns.len() {
            let mut row = Dense::zeros(alloc, self.width, p)?;
            row.set(self.columns[k] as usize, 1, p);
            units.push(row)?;
        }
        Ok(units)
    }
}

impl<W: Reducing> Panel<W> {
    // What the pivots leave of the unit rows at their columns, and how many columns come before the first entry of these rows.
    pub(crate) fn units(
        &self,
        alloc: Global,
        p: &Modulus,
    ) -> Result<(Vec<Dense<W>>, usize), AllocError>
        requires modulus { W.serves p.now }
        requires pivots { ArePivots p.now self.now }
        ensures { IfOk result (λ units. AreUnits p.now self.now units.1 units.0.items) }
    {
        let mut units = self.unit_rows(alloc, p)?;
        self.reduce_each(&mut units, p);
        let first = zeros_before(&units, self.width);
        Ok((units, first))
    }

    // Takes the pivots, if any, out of the rows from `from` on, by the units.
    pub(crate) fn reduce_behind(
        &self,
        units: &[Dense<W>],
        first: usize,
        rows: &mut [Dense<W>],
        from: usize,
        p: &Modulus,
    )
        requires modulus { W.serves p.now }
        requires inside { from ≤ length rows.old }
        requires residues { AreVectors p.now self.now.width rows.old }
        requires pivots { ArePivots p.now self.now }
        requires units { AreUnits p.now self.now first units.now }
        ensures long { length rows.new ≡ length rows.old }
        ensures before { (t : ℕ) → t < from → block_row rows.new t ≡ block_row rows.old t }
        ensures behind { (t : ℕ) → from ≤ t → t < length rows.old
            → PanelReduces p.now self.now (block_row rows.old t) (block_row rows.new t) }
    {
        if self.is_empty() {
            return;
        }
        W::take_out(self, units, first, &mut rows[from..], p);
    }
}

impl Panel<u32> {
    // Takes the pivots out of each row by products with the reduced unit rows, some rows at a time.
    pub(crate) fn reduce_by_products(
        &self,
        units: &[Dense<u32>],
        from: usize,
        rows: &mut [Dense<u32>],
        p: &Modulus,
    )
        requires modulus { p.now < LANE_BOUND }
        requires residues { AreVectors p.now self.now.width rows.old }
        requires pivots { ArePivots p.now self.now }
        requires units { AreUnits p.now self.now from units.now }
        ensures { PanelReducesEach p.now self.now rows.old rows.new }
    {
        if self.columns.len() > PANEL || self.width < TILE_COLUMNS {
            self.reduce_each(rows, p);
        } else {
            self.reduce_blocks(units, from, rows, p);
        }
    }

    // The same for a panel of at least a tile's width.
    fn reduce_blocks(&self, units: &[Dense<u32>], from: usize, rows: &mut [Dense<u32>], p: &Modulus)
        requires modulus { p.now < LANE_BOUND }
        requires residues { AreVectors p.now self.now.width rows.old }
        requires pivots { ArePivots p.now self.now }
        requires units { AreUnits p.now self.now from units.now }
        requires few { length self.now.columns ≤ PANEL }
        requires wide { TILE_COLUMNS ≤ self.now.width }
        ensures { PanelReducesEach p.now self.now rows.old rows.new }
    {
        let folding = Folding::of(p);
        let mut at = 0;
        while at < rows.len() {
            let end = rows.len().min(at + BLOCK_ROWS);
            self.reduce_block(units, from, &mut rows[at..end], &folding);
            at = end;
        }
    }

    // Takes the pivots out of the rows of a block.
    fn reduce_block(
        &self,
        units: &[Dense<u32>],
        from: usize,
        rows: &mut [Dense<u32>],
        folding: &Folding,
    )
        requires few_rows { length rows.old ≤ BLOCK_ROWS }
        requires residues { AreVectors folding.now.p self.now.width rows.old }
        requires pivots { ArePivots folding.now.p self.now }
        requires units { AreUnits folding.now.p self.now from units.now }
        requires few { length self.now.columns ≤ PANEL }
        requires wide { TILE_COLUMNS ≤ self.now.width }
        ensures { PanelReducesEach folding.now.p self.now rows.old rows.new }
    {
        // The call's contract tells the range of the modulus.
        folding.p.is_sound();
        let mut by = [[0u64; PANEL]; BLOCK_ROWS];
        for t in 0..rows.len() {
            by[t] = rows[t].entries_at(&self.columns);
            rows[t].clear(&self.columns, &folding.p);
        }
        let columns = Columns {
            start: from,
            end: self.width,
        };
        add_products(rows, &by, units, columns, folding);
    }
}

/// How many columns come before the first in which one of these rows is not 0.
pub fn zeros_before<W: Residue>(rows: &[Dense<W>], width: usize) -> usize
    requires wide { (k : ℕ) → k < length rows.now → length (block_row rows.now k) ≡ width }
    ensures within { result ≤ width }
    ensures zeros { (k j : ℕ) → k < length rows.now → j < result → entry_of rows.now k j ≡ 0 }
{
    let mut before = width;
    for k in 0..rows.len() {
        before = rows[k].leading_zeros(before);
    }
    before
}
