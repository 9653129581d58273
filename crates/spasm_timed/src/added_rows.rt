// Multiples of rows added by lanes and plainly.
ghost use Rattle.std.specs.Prelude.{◌≡◌, ◌<◌, ◌≤◌, ℕ, length, slice_index};

use crate::timing::{now, say, since};
use dense_finish::{axpy, axpy_plainly};
use residue_words::Modulus;
use std::io;
use std::time::Clock;

// How many entries a row has, and how often a multiple is added.
const SIZE: usize = 2000;

const ROUNDS: u32 = 20000;

const FACTOR: u64 = 1234567890;

// Says how long the rounds take by lanes, and plainly.
pub(crate) fn time_additions<R: Clock + Print>(rt: &R) -> io::Result<()> {
    let mut out = [0u64; SIZE];
    let mut y = [0u64; SIZE];
    let p = Modulus::new(2147483647);
    fill(&mut y, 2, p.p());
    fill(&mut out, 1, p.p());
    let start = now(rt);
    by_lanes(&mut out, FACTOR, &y, &p);
    let lanes = since(rt, start);
    fill(&mut out, 1, p.p());
    let start = now(rt);
    plainly(&mut out, FACTOR, &y, &p);
    let plain = since(rt, start);
    say(rt, lanes, &[plain])
}

// Residues of a simple generator.
fn fill(out: &mut [u64], seed: u64, p: u64)
    requires { 2 ≤ p }
    ensures { (k : ℕ) → k < length out.old → slice_index out.new k < p }
{
    let mut x = seed;
    for k in 0..out.len() {
        x = x
            .wrapping_mul(6364136223846793005)
            .wrapping_add(1442695040888963407);
        out[k] = (x >> 20) % p;
    }
}

#[inline(never)]
fn by_lanes(out: &mut [u64], a: u64, y: &[u64], p: &Modulus)
    requires lengths { length y.now ≡ length out.old }
    requires factor { a < p.now }
    requires out_residues { (k : ℕ) → k < length out.old → slice_index out.old k < p.now }
    requires residues { (k : ℕ) → k < length y.now → slice_index y.now k < p.now }
{
    for _round in 0..ROUNDS {
        axpy(out, a, y, p);
    }
}

#[inline(never)]
fn plainly(out: &mut [u64], a: u64, y: &[u64], p: &Modulus)
    requires lengths { length y.now ≡ length out.old }
    requires factor { a < p.now }
    requires out_residues { (k : ℕ) → k < length out.old → slice_index out.old k < p.now }
    requires residues { (k : ℕ) → k < length y.now → slice_index y.now k < p.now }
{
    for _round in 0..ROUNDS {
        axpy_plainly(out, a, y, p);
    }
}
