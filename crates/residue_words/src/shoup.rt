// Products of one residue with many numbers.
ghost use Rattle.residue_words.specs.declared.shoup.TheConstants.{LANE_BOUND};
ghost use Rattle.residue_words.specs.Shoup.{Prepared, prepared};
ghost use Rattle.std.specs.Prelude.{◌≡◌, ◌<◌, ◌*◌, ◌/◌, ◌%◌};

use crate::modulus::Modulus;
use std::marker::Model;

/// The bound of what a lane of 32 bits takes with one bit to spare, 2^31: a modulus and a factor of prepared products are below it.
pub const LANE_BOUND: u64 = 0x8000_0000;

/// A residue a modulo p, prepared for products with many numbers, each by two products, a shift and no division.
///
/// By V. Shoup's method, as his library NTL has it: with a' the quotient of a 2^32 by p, and q that of a' y by 2^32, the number a y - q p is a y
/// modulo p and below 2p. The modulus has to be below 2^31.
/// Contracts see the factor and the modulus, as `Prepared`.
#[derive(Clone, Copy, Debug)]
pub struct Shoup {
    factor: u64,
    quotient: u64,
    p: u64,
}

impl Model for Shoup {
    ghost use Rattle.residue_words.specs.declared.shoup.TheConstants.{LANE_BOUND};
    ghost use Rattle.residue_words.specs.Shoup.{Prepared};
    ghost use Rattle.std.specs.Prelude.{◌≡◌, ◌<◌, ◌*◌, ◌/◌};

    ghost Value = { Prepared };

    ghost view = { λ s. record { factor = s.factor; modulus = s.p } };

    ghost invariant = { λ s. (s.factor < s.p) × (s.p < LANE_BOUND)
        × (s.quotient ≡ s.factor * 4294967296 / s.p) };

    ghost inverse = { λ v. record {
      factor = v.factor;
      quotient = v.factor * 4294967296 / v.modulus;
      p = v.modulus;
    } };

    ghost inverse_ok = { λ s h. Prim.rw (← h.2) };
}

impl Shoup {
    /// The residue a modulo p, prepared by one division.
    pub fn of(a: u64, p: &Modulus) -> Shoup
        requires residue { a < p.now }
        requires in_range { p.now < LANE_BOUND }
        ensures { result ≡ prepared a p.now }
    {
        let p = p.p();
        Shoup {
            factor: a,
            quotient: (a << 32) / p,
            p,
        }
    }

    /// The quotient of 2^32 times the factor by the modulus, for those who multiply many numbers at once.
    pub fn quotient(&self) -> u64
        ensures value { result ≡ self.now.factor * 4294967296 / self.now.modulus }
        ensures in_range { result < 4294967296 }
    {
        self.quotient
    }

    /// The residue of the factor times y.
    pub fn times(&self, y: u64) -> u64
        requires { y < LANE_BOUND }
        ensures value { result ≡ (self.now.factor * y) % self.now.modulus }
        ensures residue { result < self.now.modulus }
    {
        let p = self.p;
        let estimate = (self.quotient * y) >> 32;
        let rest = self.factor * y - estimate * p;
        if rest < p { rest } else { rest - p }
    }
}
