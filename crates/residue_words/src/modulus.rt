// Residues modulo p.
ghost use Rattle.residue_words.specs.declared.modulus.TheConstants.{MODULUS_BOUND};
ghost use Rattle.residue_words.specs.Reciprocal.{reciprocal};
ghost use Rattle.residue_words.specs.Residues.{IsPrime, inverse};
ghost use Rattle.std.specs.Prelude.{◌≡◌, ◌≢◌, ◌<◌, ◌≤◌, ◌+◌, ◌-◌, ◌*◌, ◌/◌, ◌%◌, ◌^◌, ℕ};

use std::marker::Model;

/// The bound of a modulus, 2^48: each is below it.
pub const MODULUS_BOUND: u64 = 0x1_0000_0000_0000;

// The products of residues below this fit 64 bits.
const NARROW: u64 = 0x1_0000_0000;

// The quotient of 2^64, or for a wide p of 2^96, by p: a product's quotient by p is, but for 1 or 2, the high half of the
// product's high 64 bits times this.
fn reciprocal_of(p: u64) -> u64
    requires { 2 ≤ p }
    ensures { result ≡ reciprocal p }
{
    if p <= NARROW {
        ((1u128 << 64) / u128::from(p)) as u64
    } else {
        ((1u128 << 96) / u128::from(p)) as u64
    }
}

// The high 64 bits of a product.
fn high_half(a: u64, b: u64) -> u64
    ensures { result ≡ a * b / 2 ^ 64 }
{
    (u128::from(a) * u128::from(b) >> 64) as u64
}

// The residue of a product below 2^64.
fn narrow_residue(product: u64, p: u64, reciprocal_of_p: u64) -> u64
    requires nonzero { p ≢ 0 }
    requires quotient { reciprocal_of_p ≡ 2 ^ 64 / p }
    ensures { result ≡ product % p }
{
    let quotient = high_half(product, reciprocal_of_p);
    let rest = product - quotient * p;
    if rest < p { rest } else { rest - p }
}

// The residue of a product below 2^96, for p above 2^32.
fn wide_residue(product: u128, p: u64, reciprocal_of_p: u64) -> u64
    requires large { 2 ^ 32 < p }
    requires in_range { p < MODULUS_BOUND }
    requires product_in_range { product < 2 ^ 96 }
    requires quotient { reciprocal_of_p ≡ 2 ^ 96 / p }
    ensures { result ≡ product % p }
{
    let high = (product >> 32) as u64;
    let quotient = high_half(high, reciprocal_of_p);
    let rest = (product - u128::from(quotient) * u128::from(p)) as u64;
    if rest < p {
        rest
    } else if rest - p < p {
        rest - p
    } else {
        rest - p - p
    }
}

/// A modulus p with `2 <= p < 2^48`, prime by the user's premise. Contracts see the number p.
#[derive(Clone, Copy, Debug)]
pub struct Modulus {
    p: u64,
    reciprocal_of_p: u64,
}

impl Model for Modulus {
    ghost Value = { ℕ };

    ghost view = { λ m. m.p };

    ghost invariant = { λ m. (2 ≤ m.p) × (m.p < MODULUS_BOUND) × (m.reciprocal_of_p ≡ reciprocal m.p) };

    ghost inverse = { λ n. record { p = n; reciprocal_of_p = reciprocal n } };

    ghost inverse_ok = { λ m h. Prim.rw (← h.2) };
}

impl Modulus {
    /// The modulus p, of which nothing but its range is asked.
    pub fn new(p: u64) -> Self
        requires two_or_more { 2 ≤ p }
        requires in_range { p < MODULUS_BOUND }
        ensures { result ≡ p }
    {
        Modulus {
            p,
            reciprocal_of_p: reciprocal_of(p),
        }
    }

    /// The number that the modulus was made of.
    pub fn p(&self) -> u64
        ensures value { result ≡ self.now }
        ensures two_or_more { 2 ≤ result }
        ensures in_range { result < MODULUS_BOUND }
    {
        self.p
    }

    /// The law of its range, for proofs: it does nothing.
    #[inline(always)]
    pub fn is_sound(&self)
        ensures two_or_more { 2 ≤ self.now }
        ensures in_range { self.now < MODULUS_BOUND }
    {
        self.p();
    }

    /// The residue of a + b.
    pub fn add(&self, a: u64, b: u64) -> u64
        requires left { a < self.now }
        requires right { b < self.now }
        ensures value { result ≡ (a + b) % self.now }
        ensures residue { result < self.now }
    {
        let p = self.p;
        let sum = a + b;
        if sum < p { sum } else { sum - p }
    }

    /// The residue of a - b.
    pub fn sub(&self, a: u64, b: u64) -> u64
        requires left { a < self.now }
        requires right { b < self.now }
        ensures value { result ≡ (a + (self.now - b)) % self.now }
        ensures residue { result < self.now }
    {
        if b <= a { a - b } else { a + (self.p - b) }
    }

    /// The residue of -a.
    pub fn neg(&self, a: u64) -> u64
        requires { a < self.now }
        ensures value { result ≡ (self.now - a) % self.now }
        ensures residue { result < self.now }
    {
        if a == 0 { 0 } else { self.p - a }
    }

    /// The residue of a b, by two or three products and no division.
    pub fn mul(&self, a: u64, b: u64) -> u64
        requires left { a < self.now }
        requires right { b < self.now }
        ensures value { result ≡ (a * b) % self.now }
        ensures residue { result < self.now }
    {
        if self.p <= NARROW {
            narrow_residue(a * b, self.p, self.reciprocal_of_p)
        } else {
            wide_residue(u128::from(a) * u128::from(b), self.p, self.reciprocal_of_p)
        }
    }

    /// The residue of a number: for a modulus up to 2^32 by two products and no division.
    pub fn residue(&self, a: u64) -> u64
        ensures value { result ≡ a % self.now }
        ensures residue { result < self.now }
    {
        if self.p <= NARROW {
            narrow_residue(a, self.p, self.reciprocal_of_p)
        } else {
            a % self.p
        }
    }

    /// The inverse of a, by Euclid's algorithm: 0 where there is none, which a prime p leaves only to 0.
    /// Takes a number of steps proportional to the digits of p.
    pub fn inv(&self, a: u64) -> u64
        requires nonzero { a ≢ 0 }
        requires residue { a < self.now }
        ensures value { result ≡ inverse self.now a }
        ensures inverse { IsPrime self.now → (a * result) % self.now ≡ 1 }
        ensures in_range { result < self.now }
    {
        let p = self.p;
        let mut before = p;
        let mut rest = a;
        let mut factor_before = 0;
        let mut factor = 1;
        // a times factor is rest, or where this is set -rest; a times factor_before is before with the other sign.
        let mut negative = false;
        while rest > 1 {
            let quotient = before / rest;
            let next_rest = before % rest;
            let next_factor = factor_before + quotient * factor;
            before = rest;
            rest = next_rest;
            factor_before = factor;
            factor = next_factor;
            negative = !negative;
        }
        if rest == 0 {
            return 0;
        }
        if negative { p - factor } else { factor }
    }
}
