// How dense rows keep residues.
ghost use Rattle.std.specs.Prelude.{◌≡◌, ◌<◌, ℕ, length, map, slice_index};
ghost use Rattle.residue_words.specs.Matrix.{list_of};
ghost use Rattle.residue_words.specs.declared.shoup.TheConstants.{LANE_BOUND};
ghost use Rattle.dense_rows.specs.Multiples.{plus_at};

use crate::row_addition::{axpy, axpy_narrow};
use residue_words::Modulus;
use std::marker::{Send, Sync};

/// A residue as dense rows keep it: in 32 bits, for a modulus below 2^31, or in 64 bits.
pub trait Residue: Copy + Send + Sync {
    /// The residue that it stands for.
    ghost value: { Self → ℕ };

    /// The moduli that it serves.
    ghost serves: { ℕ → Type 0 };

    /// The residue v.
    fn of(v: u64, p: &Modulus) -> Self
        requires modulus { serves p.now }
        requires residue { v < p.now }
        ensures { value result ≡ v };

    /// The residue as a number.
    fn get(self) -> u64
        ensures { result ≡ value self };

    /// Makes each `out[k]` the residue of `out[k] + a y[k]`.
    fn add_multiple(out: &mut [Self], a: u64, y: &[Self], p: &Modulus)
        requires modulus { serves p.now }
        requires lengths { length y.now ≡ length out.old }
        requires factor { a < p.now }
        requires out_residues { (k : ℕ) → k < length out.old → slice_index (map value out.old) k < p.now }
        requires residues { (k : ℕ) → k < length y.now → slice_index (map value y.now) k < p.now }
        ensures { map value out.new ≡
            list_of (length out.old) (plus_at p.now a (map value out.old) (map value y.now)) };
}

impl Residue for u64 {
    ghost value = { λ x. x };

    ghost serves = { λ p. p ≡ p };

    fn of(v: u64, _p: &Modulus) -> u64 {
        v
    }

    fn get(self) -> u64 {
        self
    }

    fn add_multiple(out: &mut [u64], a: u64, y: &[u64], p: &Modulus) {
        axpy(out, a, y, p);
    }
}

impl Residue for u32 {
    ghost use Rattle.residue_words.specs.declared.shoup.TheConstants.{LANE_BOUND};

    ghost value = { λ x. x };

    ghost serves = { λ p. p < LANE_BOUND };

    fn of(v: u64, _p: &Modulus) -> u32 {
        v as u32
    }

    fn get(self) -> u64 {
        u64::from(self)
    }

    fn add_multiple(out: &mut [u32], a: u64, y: &[u32], p: &Modulus) {
        axpy_narrow(out, a, y, p);
    }
}
