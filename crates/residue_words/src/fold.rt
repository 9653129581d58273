// Decimal digits folded modulo p.
ghost use Rattle.residue_words.specs.Fold.{IsFold};
ghost use Rattle.residue_words.specs.declared.modulus.TheConstants.{MODULUS_BOUND};
ghost use Rattle.std.specs.Prelude.{◌≡◌, ◌≢◌, ◌<◌, ◌≤◌, ◌+◌, ◌*◌, ◌%◌, ◌^◌, ◌↔◌, ℕ, IsTrue};

use crate::modulus::Modulus;
use std::marker::Model;

// Ten times a number below this, and a digit, fit 64 bits.
const ROOM: u64 = 0x1000_0000_0000_0000;

// A number below ROOM that is equal modulo p, and is 0 only where `kept` is.
fn lowered(kept: u64, p: u64) -> u64
    requires nonzero { p ≢ 0 }
    requires in_range { p < MODULUS_BOUND }
    ensures same { result % p ≡ kept % p }
    ensures room { result < 2 ^ 60 }
    ensures zero { kept ≡ 0 → result ≡ 0 }
    ensures nonzero { result ≡ 0 → kept ≡ 0 }
{
    if kept < ROOM {
        return kept;
    }
    let rest = kept % p;
    if rest == 0 { p } else { rest }
}

/// The residue modulo p of a decimal number of any length, digit by digit.
///
/// Most digits cost no division: the number is reduced once in 19 digits, and then about once in 4 to 18.
/// Contracts say which whole number n the digits so far make, by `IsFold p n fold`.
#[derive(Clone, Copy, Debug)]
pub struct Fold {
    p: u64,
    kept: u64,
}

impl Model for Fold {
    ghost use Rattle.residue_words.specs.Fold.{Folded};
    ghost use Rattle.residue_words.specs.declared.modulus.TheConstants.{MODULUS_BOUND};
    ghost use Rattle.std.specs.Prelude.{◌<◌, ◌≤◌, ◌^◌};

    ghost Value = { Folded };

    ghost view = { λ f. record { modulus = f.p; kept = f.kept } };

    ghost invariant = { λ f. (2 ≤ f.p) × (f.p < MODULUS_BOUND) };

    ghost inverse = { λ v. record { p = v.modulus; kept = v.kept } };
}

impl Fold {
    /// No digits yet: the number 0.
    pub fn new(p: &Modulus) -> Self
        ensures { IsFold p.now 0 result }
    {
        Fold { p: p.p(), kept: 0 }
    }

    /// Takes the next digit, 0 to 9.
    pub fn push_digit(&mut self, d: u8)
        requires { d ≤ 9 }
        ensures { (p n : ℕ) → IsFold p n self.old → IsFold p (10 * n + d) self.new }
    {
        self.kept = 10 * lowered(self.kept, self.p) + u64::from(d);
    }

    /// The residue of the number that the digits so far make.
    pub fn value(&self) -> u64
        ensures residue { (p n : ℕ) → IsFold p n self.now → result ≡ n % p }
        ensures in_range { (p n : ℕ) → IsFold p n self.now → result < p }
    {
        self.kept % self.p
    }

    /// Whether the number itself is 0, which no other multiple of p is.
    pub fn is_zero_integer(&self) -> bool
        ensures { (p n : ℕ) → IsFold p n self.now → IsTrue result ↔ (n ≡ 0) }
    {
        self.kept == 0
    }
}
