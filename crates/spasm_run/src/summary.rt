// What is told of an echelon form in few numbers.
ghost use Rattle.std.specs.Prelude.{◌≡◌, ◌<◌, ◌+◌, ◌*◌, ◌%◌};
ghost use Rattle.residue_words.specs.Matrix.{entry};
ghost use Rattle.residue_words.specs.Residues.{sum_below};
ghost use Rattle.sparse_rows.specs.Rows.{entry_count};
ghost use Rattle.sms_text.specs.Writing.{Writes};
ghost use Rattle.spasm_run.specs.Summary.{place_sum, summary_text};

use crate::numbered_text::write_line;
use sms_text::{Sink, WriteFault};
use sparse_rows::Rows;

// The rank of a matrix, how many entries its echelon form has, and their sum, each weighted by its place.
#[derive(Clone, Copy, Debug)]
pub(crate) struct Summary {
    // The rank.
    pub(crate) rank: u64,
    // How many entries are not 0.
    pub(crate) entries: u64,
    // The sum of i j v over the entries v, their rows and columns counted from 1, modulo the modulus.
    pub(crate) sum: u64,
}

impl Summary {
    // What is told of these rows of an echelon form.
    pub(crate) fn of(form: &Rows) -> Summary
        ensures rank { result.rank ≡ form.now.matrix.height }
        ensures entries { result.entries ≡ entry_count form.now.matrix }
        ensures sum { result.sum ≡ place_sum form.now.modulus form.now.matrix }
    {
        Summary {
            rank: u64::from(form.height()),
            entries: form.entries(),
            sum: place_sum(form),
        }
    }

    // Writes a line for each number. It takes no memory.
    pub(crate) fn write<K: Sink>(&self, out: &mut K) -> Result<(), WriteFault>
        ensures { Writes result (summary_text self.now.rank self.now.entries self.now.sum)
            (K.state out.old) (K.state out.new) }
    {
        write_line(out, "rank ", self.rank)?;
        write_line(out, "entries ", self.entries)?;
        write_line(out, "sum ", self.sum)
    }
}

// The sum of i j v over the entries v, their rows and columns counted from 1.
fn place_sum(rows: &Rows) -> u64
    ensures { result ≡ place_sum rows.now.modulus rows.now.matrix }
{
    let p = rows.modulus();
    let mut sum = 0;
    for i in 0..rows.height() {
        let weight = p.residue(u64::from(i) + 1);
        sum = p.add(sum, p.mul(weight, row_sum(rows, i)));
    }
    sum
}

// The sum of j v over the entries v of row i, their columns counted from 1.
fn row_sum(rows: &Rows, i: u32) -> u64
    requires { i < rows.now.matrix.height }
    ensures value { result
        ≡ sum_below rows.now.matrix.width (λ j. (j + 1) * entry rows.now.matrix i j) % rows.now.modulus }
    ensures residue { result < rows.now.modulus }
{
    let p = rows.modulus();
    let cols = rows.cols(i);
    let vals = rows.vals(i);
    let mut sum = 0;
    for k in 0..cols.len() {
        let weight = p.residue(u64::from(cols[k]) + 1);
        sum = p.add(sum, p.mul(weight, vals[k]));
    }
    sum
}
