// The ways to add a multiple of a row, against values from outside and one another.
ghost use Rattle.residue_words.specs.declared.modulus.TheConstants.{MODULUS_BOUND};
ghost use Rattle.residue_words.specs.declared.shoup.TheConstants.{LANE_BOUND};
ghost use Rattle.std.specs.Prelude.{◌≡◌, ◌<◌, ◌≤◌, ℕ, length, slice_index, IsTrue};

use dense_finish::{axpy, axpy_narrow, axpy_plainly};
use residue_words::{LANE_BOUND, MODULUS_BOUND, Modulus};

// Each row: p, a, the entries of `out` and of y, and the sums.
const SUMS: &[(u64, u64, &[u64], &[u64], &[u64])] = &[
    (7, 3, &[], &[], &[]),
    (7, 3, &[1, 2, 3], &[4, 5, 6], &[6, 3, 0]),
    (
        2147483647,
        2147483646,
        &[2147483646, 0, 1],
        &[2147483646, 1, 0],
        &[0, 2147483646, 1],
    ),
    (
        7,
        3,
        &[0; 37],
        &[
            0, 1, 2, 3, 4, 5, 6, 0, 1, 2, 3, 4, 5, 6, 0, 1, 2, 3, 4, 5, 6, 0, 1, 2, 3, 4, 5, 6, 0,
            1, 2, 3, 4, 5, 6, 0, 1,
        ],
        &[
            0, 3, 6, 2, 5, 1, 4, 0, 3, 6, 2, 5, 1, 4, 0, 3, 6, 2, 5, 1, 4, 0, 3, 6, 2, 5, 1, 4, 0,
            3, 6, 2, 5, 1, 4, 0, 3,
        ],
    ),
];

const MODULI: [u64; 6] = [2, 7, 42013, 2147483647, 2147483659, 281474976710597];

const LONGEST: usize = 40;

// Whether all entries are residues.
fn are_residues(row: &[u64], p: u64) -> bool
    ensures { IsTrue result → (k : ℕ) → k < length row.now → slice_index row.now k < p }
{
    for x in row {
        if *x >= p {
            return false;
        }
    }
    true
}

// Adds a multiple of y, if both rows are residues and equally long, and says whether it did.
fn add(out: &mut [u64], a: u64, y: &[u64], p: u64) -> bool {
    if p < 2 || p >= MODULUS_BOUND || a >= p || out.len() != y.len() {
        return false;
    }
    if !are_residues(out, p) || !are_residues(y, p) {
        return false;
    }
    axpy(out, a, y, &Modulus::new(p));
    true
}

// Whether a row and a multiple of y have these sums.
fn has_sums(p: u64, a: u64, row: &[u64], y: &[u64], sums: &[u64]) -> bool {
    if row.len() > LONGEST {
        return false;
    }
    let mut out = [0u64; LONGEST];
    let out = &mut out[..row.len()];
    out.copy_from_slice(row);
    add(out, a, y, p) && *out == *sums
}

#[test]
fn sums_agree_with_values_from_outside(rt: HostRuntime) {
    for (p, a, row, y, sums) in SUMS {
        assert!(rt;
            has_sums(*p, *a, row, y, sums),
            "{} entries modulo {p}",
            row.len()
        );
    }
}

// Residues of a simple generator.
fn fill(out: &mut [u64], seed: u64, p: u64)
    requires { 2 ≤ p }
    ensures { (k : ℕ) → k < length out.old → slice_index out.new k < p }
{
    let mut x = seed;
    for k in 0..out.len() {
        x = x
            .wrapping_mul(6364136223846793005)
            .wrapping_add(1442695040888963407);
        out[k] = (x >> 16) % p;
    }
}

// The same in 32 bits.
fn fill_narrow(out: &mut [u32], seed: u64, p: u64)
    requires two_or_more { 2 ≤ p }
    requires in_range { p < LANE_BOUND }
    ensures { (k : ℕ) → k < length out.old → slice_index out.new k < p }
{
    let mut x = seed;
    for k in 0..out.len() {
        x = x
            .wrapping_mul(6364136223846793005)
            .wrapping_add(1442695040888963407);
        out[k] = ((x >> 16) % p) as u32;
    }
}

// A multiple of one row of a simple generator added to another, plainly.
fn plainly(p: &Modulus, a: u64, length: usize) -> [u64; LONGEST]
    requires factor { a < p.now }
    requires short { length ≤ 40 }
{
    let mut out = [0u64; LONGEST];
    let mut y = [0u64; LONGEST];
    let row = &mut out[..length];
    let y = &mut y[..length];
    fill(row, 1, p.p());
    fill(y, 2, p.p());
    axpy_plainly(row, a, y, p);
    out
}

// The same by lanes.
fn by_lanes(p: &Modulus, a: u64, length: usize) -> [u64; LONGEST]
    requires factor { a < p.now }
    requires short { length ≤ 40 }
{
    let mut out = [0u64; LONGEST];
    let mut y = [0u64; LONGEST];
    let row = &mut out[..length];
    let y = &mut y[..length];
    fill(row, 1, p.p());
    fill(y, 2, p.p());
    axpy(row, a, y, p);
    out
}

// The same with residues kept in 32 bits.
fn in_32_bits(p: &Modulus, a: u64, length: usize) -> [u64; LONGEST]
    requires factor { a < p.now }
    requires narrow { p.now < LANE_BOUND }
    requires short { length ≤ 40 }
{
    let mut out = [0u32; LONGEST];
    let mut y = [0u32; LONGEST];
    let row = &mut out[..length];
    let y = &mut y[..length];
    fill_narrow(row, 1, p.p());
    fill_narrow(y, 2, p.p());
    axpy_narrow(row, a, y, p);
    widened(&out)
}

fn widened(row: &[u32; LONGEST]) -> [u64; LONGEST] {
    let mut wide = [0u64; LONGEST];
    for k in 0..LONGEST {
        wide[k] = u64::from(row[k]);
    }
    wide
}

// Whether all ways agree on rows of one length.
fn ways_agree(p: &Modulus, a: u64, length: usize) -> bool
    requires factor { a < p.now }
    requires short { length ≤ 40 }
{
    let sums = plainly(p, a, length);
    if by_lanes(p, a, length) != sums {
        return false;
    }
    p.p() >= LANE_BOUND || in_32_bits(p, a, length) == sums
}

// Whether they agree on rows of every length modulo p, with two factors.
fn agree_modulo(p: u64) -> bool {
    if p < 2 || p >= MODULUS_BOUND {
        return false;
    }
    let modulus = Modulus::new(p);
    for length in 0..=LONGEST {
        if !ways_agree(&modulus, p - 1, length) || !ways_agree(&modulus, p / 2, length) {
            return false;
        }
    }
    true
}

#[test]
fn all_ways_agree(rt: HostRuntime) {
    for p in &MODULI {
        assert!(rt; agree_modulo(*p), "modulo {p}");
    }
}
