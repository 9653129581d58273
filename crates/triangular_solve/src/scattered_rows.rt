// Rows whose entries stand in any order.
ghost use Rattle.std.specs.Prelude.{◌≡◌, ◌<◌, ◌≤◌, [], length, IfOk, OnOk};
ghost use Rattle.residue_words.specs.Matrix.{IsMatrix, row};
ghost use Rattle.sparse_rows.specs.Stored.{spread, with_row};
ghost use Rattle.lead_rows.specs.Accumulator.{IsClear};
ghost use Rattle.lead_rows.specs.Scattered.{IsScattered};

use lead_rows::TouchedSums;
use residue_words::Modulus;
use std::alloc::{AllocError, Global};
use std::marker::Model;

// Rows one after another, each by the columns of its nonzero entries, in any order, and the entries there. It takes 12 bytes an entry
// and 8 bytes a row.
#[derive(Debug, Drop)]
pub(crate) struct ScatteredRows {
    modulus: Modulus,
    width: u32,
    starts: Vec<usize>,
    cols: Vec<u32>,
    vals: Vec<u64>,
}

impl Model for ScatteredRows {
    ghost use Rattle.sparse_rows.specs.Rows.{ResidueMatrix};
    ghost use Rattle.sparse_rows.specs.Stored.{stored_matrix};
    ghost use Rattle.triangular_solve.specs.ScatteredRows.{AreScattered};

    ghost Value = { ResidueMatrix };

    ghost view = { λ r. record {
      modulus = r.modulus;
      matrix = stored_matrix r.width r.starts.items r.cols.items r.vals.items;
    } };

    ghost invariant = { λ r. AreScattered r.modulus r.width r.starts.items r.cols.items r.vals.items };
}

impl ScatteredRows {
    // The matrix with no row, and room for so many and for so many entries.
    pub(crate) fn with_room(
        alloc: Global,
        modulus: Modulus,
        width: u32,
        height: u32,
        entries: usize,
    ) -> Result<ScatteredRows, AllocError>
        ensures modulus { IfOk result (λ rows. rows.modulus ≡ modulus) }
        ensures matrix { IfOk result (λ rows. rows.matrix ≡ record { height = 0; width = width; rows = [] }) }
    {
        // The call tells the range of the modulus.
        modulus.is_sound();
        let mut starts = Vec::with_capacity(alloc, height as usize + 1)?;
        starts.push(0)?;
        Ok(ScatteredRows {
            modulus,
            width,
            starts,
            cols: Vec::with_capacity(alloc, entries)?,
            vals: Vec::with_capacity(alloc, entries)?,
        })
    }

    // Appends the row of these sums, which is taken from them.
    pub(crate) fn append_sums(&mut self, sums: &mut TouchedSums) -> Result<(), AllocError>
        requires modulus { sums.old.modulus ≡ self.old.modulus }
        requires width { length sums.old.row ≡ self.old.matrix.width }
        ensures modulus { self.new.modulus ≡ self.old.modulus }
        ensures matrix { OnOk result (self.new.matrix ≡ with_row self.old.matrix sums.old.row) }
        ensures clear { OnOk result (IsClear sums.old.modulus (length sums.old.row) sums.new) }
    {
        self.starts.reserve(1)?;
        sums.drain_behind(&mut self.cols, &mut self.vals)?;
        self.starts.push_reserved(self.cols.len());
        Ok(())
    }

    // The columns and the values of row i.
    pub(crate) fn row(&self, i: u32) -> (&[u32], &[u64])
        requires { i < self.now.matrix.height }
        ensures scattered { IsScattered self.now.modulus self.now.matrix.width result.0.now result.1.now }
        ensures row { row self.now.matrix i ≡ spread self.now.matrix.width result.0.now result.1.now }
    {
        let from = self.starts[i as usize];
        let to = self.starts[i as usize + 1];
        (&self.cols[from..to], &self.vals[from..to])
    }

    // The modulus.
    pub(crate) fn modulus(&self) -> Modulus
        ensures { result ≡ self.now.modulus }
    {
        self.modulus
    }

    // How many entries the rows have.
    pub(crate) fn entries(&self) -> u64 {
        self.cols.len() as u64
    }

    // The law of the entries, for proofs: it does nothing.
    #[inline(always)]
    pub(crate) fn is_sound(&self)
        ensures { IsMatrix self.now.modulus self.now.matrix }
    {
        self.cols.len();
    }
}
