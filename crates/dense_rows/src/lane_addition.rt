// Multiples of rows added by vectors of lanes, for a modulus below 2^31.
ghost use Rattle.dense_rows.specs.Multiples.{IsAddedBelow, plus_at, plus_multiple};
ghost use Rattle.residue_words.specs.declared.shoup.TheConstants.{LANE_BOUND};
ghost use Rattle.std.specs.Prelude.{◌≡◌, ◌<◌, ◌≤◌, ◌+◌, ℕ, length, slice_index};

use crate::multiplier::Multiplier;
use residue_words::Modulus;
use std::simd::prelude::*;

// Adds a multiple of y to all of `out` but the last few entries, and returns how many entries come before those.
fn add_vectors_32(out: &mut [u32], by: &Multiplier, y: &[u32]) -> usize
    requires lengths { length y.now ≡ length out.old }
    requires residues { (k : ℕ) → k < length out.old → slice_index out.old k < by.now.p }
    ensures within { result ≤ length out.old }
    ensures added { IsAddedBelow (plus_at by.now.p by.now.factor out.old y.now) out.old result out.new }
{
    let mut at = 0;
    while out.len() - at >= 8 {
        let sums = by.sums(u32x8::from_slice(&out[at..]), u32x8::from_slice(&y[at..]));
        sums.copy_to_slice(&mut out[at..]);
        at += 8;
    }
    at
}

// Adds a multiple of y to `out` entry by entry.
fn add_singly_32(out: &mut [u32], by: &Multiplier, y: &[u32])
    requires lengths { length y.now ≡ length out.old }
    requires out_residues { (k : ℕ) → k < length out.old → slice_index out.old k < by.now.p }
    requires residues { (k : ℕ) → k < length y.now → slice_index y.now k < by.now.p }
    ensures { IsAddedBelow (plus_at by.now.p by.now.factor out.old y.now) out.old (length out.old) out.new }
{
    for k in 0..out.len() {
        out[k] = by.sum(u64::from(out[k]), u64::from(y[k])) as u32;
    }
}

// Makes each `out[k]` the residue of `out[k] + a y[k]`, of residues in 32 bits.
pub(crate) fn add_multiple_32(out: &mut [u32], a: u64, y: &[u32], p: &Modulus)
    requires in_range { p.now < LANE_BOUND }
    requires lengths { length y.now ≡ length out.old }
    requires factor { a < p.now }
    requires out_residues { (k : ℕ) → k < length out.old → slice_index out.old k < p.now }
    requires residues { (k : ℕ) → k < length y.now → slice_index y.now k < p.now }
    ensures { out.new ≡ plus_multiple p.now a out.old y.now }
{
    let by = Multiplier::of(a, p);
    let done = add_vectors_32(out, &by, y);
    add_singly_32(&mut out[done..], &by, &y[done..]);
}

// The eight entries from `at` on, in 32 bits.
#[inline(always)]
fn narrowed(xs: &[u64], at: usize) -> u32x8
    requires room { at + 8 ≤ length xs.now }
    requires small { (k : ℕ) → k < length xs.now → slice_index xs.now k < 4294967296 }
    ensures { (k : ℕ) → k < 8 → slice_index result k ≡ slice_index xs.now (at + k) }
{
    u64x8::from_slice(&xs[at..]).cast::<u32>()
}

// Adds a multiple of y to all of `out` but the last few entries, and returns how many entries come before those.
fn add_vectors_64(out: &mut [u64], by: &Multiplier, y: &[u64]) -> usize
    requires lengths { length y.now ≡ length out.old }
    requires out_residues { (k : ℕ) → k < length out.old → slice_index out.old k < by.now.p }
    requires residues { (k : ℕ) → k < length y.now → slice_index y.now k < by.now.p }
    ensures within { result ≤ length out.old }
    ensures added { IsAddedBelow (plus_at by.now.p by.now.factor out.old y.now) out.old result out.new }
{
    let mut at = 0;
    while out.len() - at >= 8 {
        let sums = by.sums(narrowed(out, at), narrowed(y, at));
        sums.cast::<u64>().copy_to_slice(&mut out[at..]);
        at += 8;
    }
    at
}

// Adds a multiple of y to `out` entry by entry.
fn add_singly_64(out: &mut [u64], by: &Multiplier, y: &[u64])
    requires lengths { length y.now ≡ length out.old }
    requires out_residues { (k : ℕ) → k < length out.old → slice_index out.old k < by.now.p }
    requires residues { (k : ℕ) → k < length y.now → slice_index y.now k < by.now.p }
    ensures { IsAddedBelow (plus_at by.now.p by.now.factor out.old y.now) out.old (length out.old) out.new }
{
    for k in 0..out.len() {
        out[k] = by.sum(out[k], y[k]);
    }
}

// Makes each `out[k]` the residue of `out[k] + a y[k]`, of residues in 64 bits.
pub(crate) fn add_multiple_64(out: &mut [u64], a: u64, y: &[u64], p: &Modulus)
    requires in_range { p.now < LANE_BOUND }
    requires lengths { length y.now ≡ length out.old }
    requires factor { a < p.now }
    requires out_residues { (k : ℕ) → k < length out.old → slice_index out.old k < p.now }
    requires residues { (k : ℕ) → k < length y.now → slice_index y.now k < p.now }
    ensures { out.new ≡ plus_multiple p.now a out.old y.now }
{
    let by = Multiplier::of(a, p);
    let done = add_vectors_64(out, &by, y);
    add_singly_64(&mut out[done..], &by, &y[done..]);
}
