// Sums of products added to rows by tiles of lanes, for a modulus below 2^31.
ghost use Rattle.dense_rows.specs.Rows.{AreVectors, block_row, entry_of};
ghost use Rattle.dense_rows.specs.Products.{AddsToEach, AreSmall, IsTile, IsWritten, columns_of, products_of, run_of, tile_products};
ghost use Rattle.dense_rows.specs.declared.products.TheConstants.{BLOCK_ROWS, PANEL, TILE_COLUMNS};
ghost use Rattle.residue_words.specs.declared.shoup.TheConstants.{LANE_BOUND};
ghost use Rattle.std.specs.Prelude.{◌≡◌, ◌<◌, ◌≤◌, ◌+◌, ◌-◌, ◌*◌, ◌%◌, ◌/◌, ℕ, length, replicate, slice_index};

use crate::dense::Dense;
use crate::multiplier::Multiplier;
use residue_words::Modulus;
use std::simd::prelude::*;

/// How many rows are searched for pivots before these are taken out of all rows behind.
pub const PANEL: usize = 64;

/// How many rows a tile has.
pub const TILE_ROWS: usize = 4;

/// How many columns a tile has.
pub const TILE_COLUMNS: usize = 8;

/// How many rows the products are added to while a tile's columns of the other factor are at hand: a multiple of a tile's rows.
pub const BLOCK_ROWS: usize = 32;

// A number in all lanes, widened. It is put into both halves of each lane and the upper ones are cleared, so that
// the compiler loads it into all lanes at once: of a number that is widened first it makes three steps, since two
// products take it.
#[inline(always)]
fn wide_splat(c: u32) -> u64x8
    ensures { result ≡ replicate 8 c }
{
    (u64x8::from_le_bytes(u32x16::splat(c).to_le_bytes()) << 32) >> 32
}

// The lanes with the products of others and a number added.
#[inline(always)]
fn plus_products(sums: u64x8, y: u64x8, c: u32) -> u64x8
    requires { (k : ℕ) → k < 8 → slice_index sums k + slice_index y k * c < 18446744073709551616 }
    ensures { (k : ℕ) → k < 8 → slice_index result k ≡ slice_index sums k + slice_index y k * c }
{
    sums + y * wide_splat(c)
}

// The lanes modulo 2^32.
#[inline(always)]
fn low_halves(x: u64x8) -> u32x8
    ensures { (k : ℕ) → k < 8 → slice_index result k ≡ slice_index x k % 4294967296 }
{
    ((x << 32) >> 32).cast::<u32>()
}

// The quotients of the lanes by 2^32.
#[inline(always)]
fn high_halves(x: u64x8) -> u32x8
    ensures { (k : ℕ) → k < 8 → slice_index result k ≡ slice_index x k / 4294967296 }
{
    (x >> 32).cast::<u32>()
}

// Some rows that stand beside one another: the first of them, and how many.
#[derive(Clone, Copy)]
pub(crate) struct Run {
    pub(crate) first: usize,
    pub(crate) count: usize,
}

/// The columns from `start` on and before `end`.
#[derive(Clone, Copy)]
pub struct Columns {
    pub start: usize,
    pub end: usize,
}

/// What makes residues of sums in 64 bits, and how many products of residues such a sum may have.
#[derive(Clone, Copy)]
pub struct Folding {
    pub p: Modulus,
    one: Multiplier,
    above: Multiplier,
    most: usize,
    ghost one_factor: { one.factor ≡ 1 },
    ghost one_modulus: { one.p ≡ p },
    ghost above_factor: { above.factor ≡ 4294967296 % p },
    ghost above_modulus: { above.p ≡ p },
    ghost some: { 1 ≤ most },
    ghost room: { most * (p * p) < 18446744073709551616 },
}

impl Folding {
    pub fn of(p: &Modulus) -> Folding
        requires in_range { p.now < LANE_BOUND }
        ensures { result.p ≡ p.now }
    {
        let modulus = p.p();
        Folding {
            p: *p,
            one: Multiplier::of(1, p),
            above: Multiplier::of(4294967296 % modulus, p),
            most: (u64::MAX / (modulus * modulus)) as usize,
        }
    }

    /// The residues of the lanes' sums.
    #[inline(always)]
    pub fn plus(&self, x: u32x8, sums: u64x8) -> u32x8
        requires { (k : ℕ) → k < 8 → slice_index x k < self.now.p }
        ensures { (k : ℕ) → k < 8 →
            slice_index result k ≡ (slice_index x k + slice_index sums k) % self.now.p }
    {
        let low = self.one.sums(x, low_halves(sums));
        self.above.sums(low, high_halves(sums))
    }
}

// Writes eight entries from `at` on.
#[inline(always)]
pub(crate) fn write_lanes(row: &mut [u32], at: usize, values: u32x8)
    requires room { at + 8 ≤ length row.old }
    ensures { IsWritten (columns_of at (at + 8)) values row.old row.new }
{
    values.copy_to_slice(&mut row[at..]);
}

// The sums of products of four rows of coefficients at the columns of a tile.
#[derive(Clone, Copy)]
struct Sums {
    first: u64x8,
    second: u64x8,
    third: u64x8,
    fourth: u64x8,
}

// The entries of a tile's row, widened.
#[inline(always)]
fn lanes(row: &[u32; TILE_COLUMNS]) -> u64x8
    ensures { (k : ℕ) → k < TILE_COLUMNS → slice_index result k ≡ slice_index row.now k }
{
    u32x8::from_array(*row).cast::<u64>()
}

// The sums of the products of four rows of coefficients, from `row` on, at the columns of a tile.
#[inline(always)]
fn sums_of(
    by: &[[u64; PANEL]; BLOCK_ROWS],
    row: usize,
    tile: &[[u32; TILE_COLUMNS]; PANEL],
    run: Run,
) -> Sums
    requires four { row + TILE_ROWS ≤ BLOCK_ROWS }
    requires small { AreSmall by.now tile.now run }
    ensures first { (k : ℕ) → k < TILE_COLUMNS → slice_index result.first k
        ≡ products_of by.now tile.now run row k }
    ensures second { (k : ℕ) → k < TILE_COLUMNS → slice_index result.second k
        ≡ products_of by.now tile.now run (row + 1) k }
    ensures third { (k : ℕ) → k < TILE_COLUMNS → slice_index result.third k
        ≡ products_of by.now tile.now run (row + 2) k }
    ensures fourth { (k : ℕ) → k < TILE_COLUMNS → slice_index result.fourth k
        ≡ products_of by.now tile.now run (row + 3) k }
{
    let mut first = u64x8::splat(0);
    let mut second = first;
    let mut third = first;
    let mut fourth = first;
    for i in 0..run.count {
        let k = run.first + i;
        let y = lanes(&tile[k]);
        first = plus_products(first, y, by[row][k] as u32);
        second = plus_products(second, y, by[row + 1][k] as u32);
        third = plus_products(third, y, by[row + 2][k] as u32);
        fourth = plus_products(fourth, y, by[row + 3][k] as u32);
    }
    Sums {
        first,
        second,
        third,
        fourth,
    }
}

// Puts the entries of the rows at the eight columns from `start` on in a tile, one row behind the other. What
// stands behind them stays, since a tile that was made for each call took as long as the entries.
fn fill_tile(rows: &[Dense<u32>], start: usize, tile: &mut [[u32; TILE_COLUMNS]; PANEL])
    requires high { length rows.now ≤ PANEL }
    requires wide { (k : ℕ) → k < length rows.now → start + TILE_COLUMNS ≤ length (block_row rows.now k) }
    requires long { length tile.old ≡ PANEL }
    ensures long { length tile.new ≡ PANEL }
    ensures filled { IsTile start rows.now tile.new }
    ensures kept { (k : ℕ) → length rows.now ≤ k → block_row tile.new k ≡ block_row tile.old k }
{
    for k in 0..rows.len() {
        tile[k] = rows[k].eight_at(start);
    }
}

// The residues of eight entries and sums.
#[inline(always)]
fn plus_sums(entries: &[u32; TILE_COLUMNS], sums: u64x8, folding: &Folding) -> [u32; TILE_COLUMNS]
    requires { (k : ℕ) → k < TILE_COLUMNS → slice_index entries.now k < folding.now.p }
    ensures { (k : ℕ) → k < TILE_COLUMNS → slice_index result k
        ≡ (slice_index entries.now k + slice_index sums k) % folding.now.p }
{
    folding.plus(u32x8::from_array(*entries), sums).to_array()
}

// Adds the sums of a run's products to the entries of so many rows at a tile's columns, four rows at a time.
fn add_run(
    entries: &mut [[u32; TILE_COLUMNS]; PANEL],
    height: usize,
    by: &[[u64; PANEL]; BLOCK_ROWS],
    tile: &[[u32; TILE_COLUMNS]; PANEL],
    run: Run,
    folding: &Folding,
)
    requires few { height ≤ BLOCK_ROWS }
    requires long { length entries.old ≡ PANEL }
    requires residues { (t l : ℕ) → t < BLOCK_ROWS → l < TILE_COLUMNS
        → entry_of entries.old t l < folding.now.p }
    requires small { AreSmall by.now tile.now run }
    ensures long { length entries.new ≡ PANEL }
    ensures residues { (t l : ℕ) → t < BLOCK_ROWS → l < TILE_COLUMNS
        → entry_of entries.new t l < folding.now.p }
    ensures added { (t l : ℕ) → t < height → l < TILE_COLUMNS → entry_of entries.new t l
        ≡ (entry_of entries.old t l + products_of by.now tile.now run t l) % folding.now.p }
{
    let mut row = 0;
    while row < height {
        let sums = sums_of(by, row, tile, run);
        let first = plus_sums(&entries[row], sums.first, folding);
        let second = plus_sums(&entries[row + 1], sums.second, folding);
        let third = plus_sums(&entries[row + 2], sums.third, folding);
        let fourth = plus_sums(&entries[row + 3], sums.fourth, folding);
        entries[row] = first;
        entries[row + 1] = second;
        entries[row + 2] = third;
        entries[row + 3] = fourth;
        row += TILE_ROWS;
    }
}

// Coefficients of the rows of a block with a tile of so many rows of residues, and what makes residues of the sums
// of their products.
#[derive(Clone, Copy)]
struct TileProduct<'a> {
    by: &'a [[u64; PANEL]; BLOCK_ROWS],
    tile: &'a [[u32; TILE_COLUMNS]; PANEL],
    height: usize,
    folding: &'a Folding,
    ghost high: { height ≤ PANEL },
    ghost long: { length tile.now ≡ PANEL },
    ghost residues: { (k l : ℕ) → k < height → l < TILE_COLUMNS → entry_of tile.now k l < folding.now.p },
    ghost coefficients: { (t k : ℕ) → t < BLOCK_ROWS → entry_of by.now t k < folding.now.p },
}

// Makes the entries those of the rows of a block at the eight columns from `start` on, with the sums of the products
// with the tile added, as many products at a time as a sum takes. The rows are read before any product, all at once:
// they lie far apart in memory, and a processor waits for many of them at a time.
fn fill_entries(
    entries: &mut [[u32; TILE_COLUMNS]; PANEL],
    rows: &[Dense<u32>],
    start: usize,
    product: &TileProduct,
)
    requires entries { length entries.old ≡ PANEL }
    requires left { (t l : ℕ) → t < BLOCK_ROWS → l < TILE_COLUMNS
        → entry_of entries.old t l < product.now.folding.now.p }
    requires few { length rows.now ≤ BLOCK_ROWS }
    requires wide { (t : ℕ) → t < length rows.now → start + TILE_COLUMNS ≤ length (block_row rows.now t) }
    requires residues { (t l : ℕ) → t < length rows.now → l < TILE_COLUMNS
        → entry_of rows.now t (start + l) < product.now.folding.now.p }
    ensures long { length entries.new ≡ PANEL }
    ensures residues { (t l : ℕ) → t < BLOCK_ROWS → l < TILE_COLUMNS
        → entry_of entries.new t l < product.now.folding.now.p }
    ensures added { (t l : ℕ) → t < length rows.now → l < TILE_COLUMNS → entry_of entries.new t l
        ≡ (entry_of rows.now t (start + l)
        + products_of product.now.by.now product.now.tile.now (run_of 0 product.now.height) t l)
        % product.now.folding.now.p }
{
    fill_tile(rows, start, entries);
    let mut first = 0;
    while first < product.height {
        let count = product.folding.most.min(product.height - first);
        let run = Run { first, count };
        add_run(
            entries,
            rows.len(),
            product.by,
            product.tile,
            run,
            product.folding,
        );
        first += count;
    }
}

// Writes the entries, row by row, at these columns, of which there are at most eight.
fn write_entries(
    rows: &mut [Dense<u32>],
    entries: &[[u32; TILE_COLUMNS]; PANEL],
    columns: Columns,
    p: &Modulus,
)
    requires modulus { p.now < LANE_BOUND }
    requires few { length rows.old ≤ PANEL }
    requires wide { (t : ℕ) → t < length rows.old
        → columns.start + TILE_COLUMNS ≤ length (block_row rows.old t) }
    requires long { length entries.now ≡ PANEL }
    requires residues { (t l : ℕ) → t < length rows.old → l < TILE_COLUMNS
        → entry_of entries.now t l < p.now }
    requires order { columns.start ≤ columns.end }
    requires narrow { columns.end ≤ columns.start + TILE_COLUMNS }
    ensures { (t : ℕ) → t < length rows.old
        → IsWritten columns (block_row entries.now t) (block_row rows.old t) (block_row rows.new t) }
{
    for t in 0..rows.len() {
        rows[t].write(columns, &entries[t], p);
    }
}

// Adds the sums of the products with a tile to the rows of a block at its columns, or at the first of them. The
// entries are room to work in, in which residues stand before and after.
fn add_columns(
    rows: &mut [Dense<u32>],
    entries: &mut [[u32; TILE_COLUMNS]; PANEL],
    columns: Columns,
    product: &TileProduct,
)
    requires few { length rows.old ≤ BLOCK_ROWS }
    requires wide { (t : ℕ) → t < length rows.old
        → columns.start + TILE_COLUMNS ≤ length (block_row rows.old t) }
    requires residues { (t l : ℕ) → t < length rows.old → l < TILE_COLUMNS
        → entry_of rows.old t (columns.start + l) < product.now.folding.now.p }
    requires entries { length entries.old ≡ PANEL }
    requires left { (t l : ℕ) → t < BLOCK_ROWS → l < TILE_COLUMNS
        → entry_of entries.old t l < product.now.folding.now.p }
    requires order { columns.start ≤ columns.end }
    requires narrow { columns.end ≤ columns.start + TILE_COLUMNS }
    ensures entries { length entries.new ≡ PANEL }
    ensures left { (t l : ℕ) → t < BLOCK_ROWS → l < TILE_COLUMNS
        → entry_of entries.new t l < product.now.folding.now.p }
    ensures added { AddsToEach product.now.folding.now.p columns
        (tile_products product.now.by.now product.now.tile.now (run_of 0 product.now.height) columns.start)
        rows.old rows.new }
{
    fill_entries(entries, rows, columns.start, product);
    write_entries(rows, entries, columns, &product.folding.p);
}

/// Adds the sums of products to the rows of a block, of entries before `columns.end`. The units are copied tile by tile, so that what
/// the sums take up lies side by side, and a tile serves all rows of the block.
pub fn add_products(
    rows: &mut [Dense<u32>],
    by: &[[u64; PANEL]; BLOCK_ROWS],
    units: &[Dense<u32>],
    columns: Columns,
    folding: &Folding,
)
    requires few { length rows.old ≤ BLOCK_ROWS }
    requires residues { AreVectors folding.now.p columns.end rows.old }
    requires high { length units.now ≤ PANEL }
    requires units { AreVectors folding.now.p columns.end units.now }
    requires coefficients { (t k : ℕ) → t < BLOCK_ROWS → entry_of by.now t k < folding.now.p }
    requires wide { TILE_COLUMNS ≤ columns.end }
    requires before { (k j : ℕ) → k < length units.now → j < columns.start → entry_of units.now k j ≡ 0 }
    ensures { AddsToEach folding.now.p (columns_of 0 columns.end)
        (products_of by.now units.now (run_of 0 (length units.now))) rows.old rows.new }
{
    let mut tile = [[0u32; TILE_COLUMNS]; PANEL];
    let mut entries = [[0u32; TILE_COLUMNS]; PANEL];
    let mut end = columns.end;
    while end > columns.start {
        let start = end.saturating_sub(TILE_COLUMNS);
        fill_tile(units, start, &mut tile);
        let product = TileProduct {
            by,
            tile: &tile,
            height: units.len(),
            folding,
        };
        add_columns(rows, &mut entries, Columns { start, end }, &product);
        end = start;
    }
}
