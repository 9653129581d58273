// A residue prepared for products with vectors of lanes, for a modulus below 2^31.
ghost use Rattle.residue_words.specs.Shoup.{prepared};
ghost use Rattle.residue_words.specs.declared.shoup.TheConstants.{LANE_BOUND};
ghost use Rattle.std.specs.Prelude.{◌≡◌, ◌<◌, ◌+◌, ◌*◌, ◌/◌, ◌%◌, ℕ, slice_index};

use residue_words::{Modulus, Shoup};
use std::simd::prelude::*;

// The residues of lanes below 2p: the least of x and x - p, which wraps to a large number where x is a residue.
#[inline(always)]
fn residues(x: u32x8, p: u32) -> u32x8
    requires in_range { p < LANE_BOUND }
    requires lanes { (k : ℕ) → k < 8 → slice_index x k < 2 * p }
    ensures { (k : ℕ) → k < 8 → slice_index result k ≡ slice_index x k % p }
{
    x.simd_min(x - u32x8::splat(p))
}

// The quotients by 2^32 of the lanes' products with a number.
#[inline(always)]
fn high_halves(y: u32x8, by: u32) -> u32x8
    ensures { (k : ℕ) → k < 8 → slice_index result k ≡ by * slice_index y k / 4294967296 }
{
    ((y.cast::<u64>() * u64x8::splat(u64::from(by))) >> 32).cast::<u32>()
}

// A residue prepared for products with single numbers and with vectors.
#[derive(Clone, Copy)]
pub(crate) struct Multiplier {
    single: Shoup,
    factor: u32,
    quotient: u32,
    p: u32,
    ghost same: { single ≡ prepared factor p },
    ghost residue: { factor < p },
    ghost in_range: { p < LANE_BOUND },
    ghost quotient_of: { quotient ≡ factor * 4294967296 / p },
}

impl Multiplier {
    // The residue a modulo p, prepared by one division.
    pub(crate) fn of(a: u64, p: &Modulus) -> Multiplier
        requires residue { a < p.now }
        requires in_range { p.now < LANE_BOUND }
        ensures factor { result.factor ≡ a }
        ensures modulus { result.p ≡ p.now }
    {
        let single = Shoup::of(a, p);
        Multiplier {
            single,
            factor: a as u32,
            quotient: single.quotient() as u32,
            p: p.p() as u32,
        }
    }

    // The residue of x and a multiple of y.
    pub(crate) fn sum(&self, x: u64, y: u64) -> u64
        requires residue { x < self.now.p }
        requires in_range { y < LANE_BOUND }
        ensures { result ≡ (x + self.now.factor * y) % self.now.p }
    {
        let p = u64::from(self.p);
        let sum = x + self.single.times(y);
        if sum < p { sum } else { sum - p }
    }

    // The residues of the lanes' multiples. The differences wrap, and the true ones are below 2p.
    #[inline(always)]
    fn products(&self, y: u32x8) -> u32x8
        ensures { (k : ℕ) → k < 8 → slice_index result k ≡ self.now.factor * slice_index y k % self.now.p }
    {
        let estimates = high_halves(y, self.quotient);
        residues(
            y * u32x8::splat(self.factor) - estimates * u32x8::splat(self.p),
            self.p,
        )
    }

    // The residues of the lanes of x and multiples of those of y.
    #[inline(always)]
    pub(crate) fn sums(&self, x: u32x8, y: u32x8) -> u32x8
        requires { (k : ℕ) → k < 8 → slice_index x k < self.now.p }
        ensures { (k : ℕ) → k < 8 →
            slice_index result k ≡ (slice_index x k + self.now.factor * slice_index y k) % self.now.p }
    {
        residues(x + self.products(y), self.p)
    }
}
