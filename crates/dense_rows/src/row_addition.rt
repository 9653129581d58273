// A multiple of one row added to another.
ghost use Rattle.std.specs.Prelude.{◌≡◌, ◌<◌, ℕ, length, slice_index};
ghost use Rattle.dense_rows.specs.Multiples.{plus_multiple};
ghost use Rattle.residue_words.specs.declared.shoup.TheConstants.{LANE_BOUND};

use crate::lane_addition::{add_multiple_32, add_multiple_64};
use residue_words::{LANE_BOUND, Modulus};

/// Makes each `out[k]` the residue of `out[k] + a y[k]`. It takes no memory.
///
/// Modulo a number below `LANE_BOUND` it works on eight entries at a time by vectors, and the last few one by one, with the products of `Shoup` (V. Shoup's
/// method, as in his library NTL) and one division a call; modulo a larger number it goes entry by entry, as [`axpy_plainly`] does.
pub fn axpy(out: &mut [u64], a: u64, y: &[u64], p: &Modulus)
    requires lengths { length y.now ≡ length out.old }
    requires factor { a < p.now }
    requires out_residues { (k : ℕ) → k < length out.old → slice_index out.old k < p.now }
    requires residues { (k : ℕ) → k < length y.now → slice_index y.now k < p.now }
    ensures { out.new ≡ plus_multiple p.now a out.old y.now }
{
    if p.p() < LANE_BOUND {
        add_multiple_64(out, a, y, p);
    } else {
        axpy_plainly(out, a, y, p);
    }
}

/// The same for residues kept in 32 bits, modulo a number below `LANE_BOUND`: by lanes, as [`axpy`] goes there, and without its widening and
/// narrowing. It takes no memory.
pub fn axpy_narrow(out: &mut [u32], a: u64, y: &[u32], p: &Modulus)
    requires in_range { p.now < LANE_BOUND }
    requires lengths { length y.now ≡ length out.old }
    requires factor { a < p.now }
    requires out_residues { (k : ℕ) → k < length out.old → slice_index out.old k < p.now }
    requires residues { (k : ℕ) → k < length y.now → slice_index y.now k < p.now }
    ensures { out.new ≡ plus_multiple p.now a out.old y.now }
{
    add_multiple_32(out, a, y, p);
}

/// The same by one product and one sum an entry, for any modulus. It takes no memory.
pub fn axpy_plainly(out: &mut [u64], a: u64, y: &[u64], p: &Modulus)
    requires lengths { length y.now ≡ length out.old }
    requires factor { a < p.now }
    requires out_residues { (k : ℕ) → k < length out.old → slice_index out.old k < p.now }
    requires residues { (k : ℕ) → k < length y.now → slice_index y.now k < p.now }
    ensures { out.new ≡ plus_multiple p.now a out.old y.now }
{
    for k in 0..out.len() {
        out[k] = p.add(out[k], p.mul(a, y[k]));
    }
}
