// How a panel's pivots are taken out of rows.
ghost use Rattle.dense_rows.specs.Rows.{AreVectors};
ghost use Rattle.dense_panels.specs.Panel.{ArePivots, PanelReducesEach};
ghost use Rattle.dense_panels.specs.Units.{AreUnits};

use crate::panel::Panel;
use dense_rows::{Dense, Residue};
use residue_words::Modulus;

/// A residue of whose rows a panel's pivots are taken out: in 32 bits by products of blocks, in 64 bits row by row.
pub trait Reducing: Residue {
    /// Takes the pivots out of each row. The units are what the panel leaves of the unit rows at its columns.
    fn take_out(
        panel: &Panel<Self>,
        units: &[Dense<Self>],
        from: usize,
        rows: &mut [Dense<Self>],
        p: &Modulus,
    )
        requires modulus { Self.serves p.now }
        requires residues { AreVectors p.now panel.now.width rows.old }
        requires pivots { ArePivots p.now panel.now }
        requires units { AreUnits p.now panel.now from units.now }
        ensures { PanelReducesEach p.now panel.now rows.old rows.new };
}

impl Reducing for u64 {
    fn take_out(
        panel: &Panel<u64>,
        _units: &[Dense<u64>],
        _from: usize,
        rows: &mut [Dense<u64>],
        p: &Modulus,
    ) {
        panel.reduce_each(rows, p);
    }
}

impl Reducing for u32 {
    fn take_out(
        panel: &Panel<u32>,
        units: &[Dense<u32>],
        from: usize,
        rows: &mut [Dense<u32>],
        p: &Modulus,
    ) {
        panel.reduce_by_products(units, from, rows, p);
    }
}
