// Whether rows end at their own numbers.
ghost use Rattle.std.specs.Prelude.{◌≡◌, ◌<◌, ◌↔◌, ℕ, length, slice_index, IsTrue};
ghost use Rattle.residue_words.specs.Matrix.{entry};
ghost use Rattle.sparse_rows.specs.Rows.{AreBelow};
ghost use Rattle.cert_checker.specs.Diagonal.{AreLast, LastAt};

use sparse_rows::Rows;

// Whether row i has its last nonzero entry at column k.
fn is_last_at(rows: &Rows, i: u32, k: u32) -> bool
    requires row { i < rows.now.matrix.height }
    requires column { k < rows.now.matrix.width }
    ensures { IsTrue result ↔ LastAt rows.now.matrix.width (entry rows.now.matrix i) k }
{
    // The proof wants that it is a matrix of residues.
    rows.is_sound();
    let cols = rows.cols(i);
    if cols.len() == 0 {
        return false;
    }
    cols[cols.len() - 1] == k
}

// Whether the k-th of the rows that are named has its last nonzero entry at column k, for each k.
pub(crate) fn are_last(rows: &Rows, named: &[u32]) -> bool
    requires width { rows.now.matrix.width ≡ length named.now }
    requires below { AreBelow rows.now.matrix.height named.now }
    ensures { IsTrue result ↔ AreLast rows.now.matrix named.now }
{
    // The proof that a number of rows fits 32 bits wants to know how wide a matrix is.
    rows.is_sound();
    for k in 0..named.len() {
        if !is_last_at(rows, named[k], k as u32) {
            return false;
        }
    }
    true
}

// Whether each of these numbers is below n.
pub(crate) fn are_below(n: u32, numbers: &[u32]) -> bool
    ensures { IsTrue result ↔ AreBelow n numbers.now }
{
    for k in 0..numbers.len() {
        if numbers[k] >= n {
            return false;
        }
    }
    true
}
