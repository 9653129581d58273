// The pivots of a panel with what they leave of unit rows.
ghost use Rattle.std.specs.Prelude.{◌≡◌, ◌<◌, ◌≤◌, ℕ, length, IfOk, OnOk};
ghost use Rattle.dense_rows.specs.Rows.{block_row};
ghost use Rattle.dense_panels.specs.Panel.{ArePivots, PanelReduces, joined_panel};
ghost use Rattle.dense_panels.specs.Pieces.{AreReducible};
ghost use Rattle.dense_panels.specs.Units.{HasUnits, nothing_found};

use crate::panel::Panel;
use crate::reducing::Reducing;
use dense_rows::{Dense, Residue};
use residue_words::Modulus;
use std::alloc::{AllocError, Global};
use std::marker::Model;

/// A panel's pivots, and what they leave of the unit rows at their columns, which is 0 before column `first`. Contracts see these
/// as `FoundPanel`.
#[derive(Drop)]
pub struct PanelWithUnits<W: Residue> {
    /// The pivots.
    pub panel: Panel<W>,
    /// What they leave of the unit rows.
    pub units: Vec<Dense<W>>,
    /// How many columns come before the first entry of these.
    pub first: usize,
}

impl<W: Residue> Model for PanelWithUnits<W> {
    ghost use Rattle.dense_panels.specs.Units.{FoundPanel};

    ghost Value = { FoundPanel };

    ghost view = { λ f. record { panel = f.panel; units = f.units.items; first = f.first } };
}

impl<W: Residue> PanelWithUnits<W> {
    /// No pivots of rows of so many entries.
    pub fn none(alloc: Global, width: usize) -> PanelWithUnits<W>
        ensures { result ≡ nothing_found width }
    {
        PanelWithUnits {
            panel: Panel::new(alloc, width),
            units: Vec::new(alloc),
            first: 0,
        }
    }
}

impl<W: Reducing> PanelWithUnits<W> {
    /// A panel with what its pivots leave of the unit rows.
    pub fn of(alloc: Global, panel: Panel<W>, p: &Modulus) -> Result<PanelWithUnits<W>, AllocError>
        requires modulus { W.serves p.now }
        requires pivots { ArePivots p.now panel }
        ensures panel { IfOk result (λ found. found.panel ≡ panel) }
        ensures units { IfOk result (HasUnits p.now) }
    {
        let (units, first) = panel.units(alloc, p)?;
        Ok(PanelWithUnits {
            panel,
            units,
            first,
        })
    }

    /// Whether there is no pivot.
    pub fn is_empty(&self) -> bool {
        self.panel.is_empty()
    }

    /// Takes the pivots out of the rows from `from` on.
    pub fn reduce_behind(&self, rows: &mut [Dense<W>], from: usize, p: &Modulus)
        requires modulus { W.serves p.now }
        requires inside { from ≤ length rows.old }
        requires ready { AreReducible p.now self.now rows.old }
        ensures long { length rows.new ≡ length rows.old }
        ensures before { (t : ℕ) → t < from → block_row rows.new t ≡ block_row rows.old t }
        ensures behind { (t : ℕ) → from ≤ t → t < length rows.old
            → PanelReduces p.now self.now.panel (block_row rows.old t) (block_row rows.new t) }
    {
        self.panel
            .reduce_behind(&self.units, self.first, rows, from, p);
    }

    /// Puts other pivots of the same rows behind these. Where their units begin is not looked for.
    pub fn join(&mut self, mut more: PanelWithUnits<W>, p: &Modulus) -> Result<(), AllocError>
        requires modulus { W.serves p.now }
        requires wide { more.panel.width ≡ self.old.panel.width }
        requires pivots { ArePivots p.now self.old.panel }
        requires units { HasUnits p.now self.old }
        requires more_pivots { ArePivots p.now more.panel }
        requires more_units { HasUnits p.now more }
        ensures panel { OnOk result (self.new.panel ≡ joined_panel self.old.panel more.panel) }
        ensures units { OnOk result (HasUnits p.now self.new) }
    {
        more.reduce_behind(&mut self.units, 0, p);
        self.units.append(&mut more.units)?;
        self.panel.append(more.panel)?;
        self.first = 0;
        Ok(())
    }
}
