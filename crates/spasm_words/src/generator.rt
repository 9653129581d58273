// Matrices that are generated from a seed.
ghost use Rattle.std.specs.Prelude.{◌≡◌, ◌<◌, ◌≤◌, ◌+◌, ◌*◌, ◌++◌, IfOk, OnOk};
ghost use Rattle.spasm_words.specs.Generator.{AreGeneratedSo, HasSizesInRange, generated, generated_row, state_after};

use crate::random_numbers::RandomNumbers;
use residue_words::Modulus;
use sparse_rows::{Rows, RowsBuilder};
use std::alloc::{AllocError, Global};

/// The most rows, and the most columns, of a matrix that is generated.
pub const LARGEST_GENERATED: u64 = 1_000_000;

/// The most entries that are generated for a row.
pub const MOST_PER_ROW: u64 = 1_000;

/// Numbers and a matrix that are generated, worked out.
pub fn generated_example()
    ensures { AreGeneratedSo }
{}

/// What a matrix is generated from.
#[derive(Clone, Copy, Debug, PartialEq, Eq)]
pub struct Generator {
    /// The seed of the random numbers.
    pub seed: u64,
    /// How many rows there are.
    pub rows: u32,
    /// How many columns there are.
    pub cols: u32,
    /// How many entries are drawn for each row; those that fall on one place are summed.
    pub per: u32,
}

impl Generator {
    /// The matrix modulo p, in time and memory by the entries. The only error is out of memory.
    pub fn matrix(&self, alloc: Global, p: &Modulus) -> Result<Rows, AllocError>
        requires { HasSizesInRange self.now }
        ensures modulus { IfOk result (λ rows. rows.modulus ≡ p.now) }
        ensures matrix { IfOk result (λ rows. rows.matrix ≡ generated p.now self.now) }
    {
        let mut numbers = RandomNumbers::new(self.seed);
        let mut builder = RowsBuilder::new(alloc, self.rows, self.cols, *p)?;
        for i in 0..self.rows {
            self.push_row(&mut builder, &mut numbers, p.p(), i)?;
        }
        builder.finish()
    }

    // Draws the entries of row i.
    fn push_row(
        &self,
        builder: &mut RowsBuilder,
        numbers: &mut RandomNumbers,
        p: u64,
        i: u32,
    ) -> Result<(), AllocError>
        requires some { 0 < self.now.cols }
        requires cols { self.now.cols ≡ builder.old.width }
        requires row { i < builder.old.height }
        requires two_or_more { 2 ≤ p }
        requires modulus { builder.old.modulus ≡ p }
        requires state { numbers.old.state ≡ state_after self.now.seed (2 * (i * self.now.per)) }
        ensures state { OnOk result (numbers.new.state
            ≡ state_after self.now.seed (2 * ((i + 1) * self.now.per))) }
        ensures pushed { OnOk result (builder.new
            ≡ record builder.old { pushed = builder.old.pushed ++ generated_row p self.now i }) }
    {
        for _ in 0..self.per {
            let j = (numbers.next() % u64::from(self.cols)) as u32;
            let v = 1 + numbers.next() % (p - 1);
            builder.push(i, j, v)?;
        }
        Ok(())
    }
}
