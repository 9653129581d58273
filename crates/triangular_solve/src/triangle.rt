// Pivots in triangular order.
ghost use Rattle.std.specs.Prelude.{◌≡◌, ◌≢◌, ◌<◌, ◌≤◌, ◌+◌, ◌-◌, ℕ, length, map, slice_index, slice_set, IfOk, IfSome, IfNone, OnOk};
ghost use Rattle.std.specs.List.Sorted.{IsPermutation};
ghost use Rattle.residue_words.specs.Residues.{IsPrime};
ghost use Rattle.sparse_rows.specs.Rows.{AreRising, LARGEST_SIZE};
ghost use Rattle.sparse_rows.specs.Stored.{IsSparse, spread};
ghost use Rattle.pivot_table.specs.Order.{IsTriangularOrder, Triangular};
ghost use Rattle.triangular_solve.specs.Listing.{AreSortedPivots, AreWaits, EachOtherPlace, EachPlaceOf, HasReady, Queued, TakesReady};
ghost use Rattle.triangular_solve.specs.PivotRows.{ArePivotRows};
ghost use Rattle.lead_rows.specs.Accumulator.{IsAlike};
ghost use Rattle.triangular_solve.specs.Reduced.{FitsReduced, FitsRest, HasSizesOf, IsReduced, IsSchurRow, reduction_of, workspace_of};
ghost use Rattle.triangular_solve.specs.Triangle.{TriangularOrderIsOne};

use crate::ascending_columns::AscendingColumns;
use crate::pivot_rows::PivotRows;
use crate::reduced::Reduced;
use crate::row_entries::RowEntries;
use crate::work::Work;
use pivot_table::{Book, Pair};
use sparse_rows::{ColumnSet, Rows, Sparse};
use std::alloc::{AllocError, Global};
use std::marker::Model;

/// Pivots of a lent matrix in triangular order: again and again the pair in whose column no other pair that is left has an
/// entry, of these the one of the least column. So the row of each pair is 0 in the columns of the pairs before it. It takes
/// 24 bytes a pair, for a copy of the pivots' rows 12 bytes an entry, and 4 bytes for each column in which they have one and each
/// column of the matrix; or where the matrix has more than 64 columns for each of the former, 12 bytes for each of these alone.
#[derive(Debug, Drop)]
pub struct Triangle<'a> {
    rows: &'a Rows,
    pairs: Vec<Pair>,
    pivots: PivotRows,
}

impl<'a> Model for Triangle<'a> {
    ghost use Rattle.pivot_table.specs.Order.{Triangular};
    ghost use Rattle.triangular_solve.specs.PivotRows.{ArePivotRows};
    ghost use Rattle.lead_rows.specs.Accumulator.{IsAlike};
    ghost use Rattle.triangular_solve.specs.Triangle.{TriangleState};

    ghost Value = { TriangleState };

    ghost view = { λ t. record { rows = t.rows.now; pairs = t.pairs.items } };

    ghost invariant = { λ t. Triangular t.rows.now.matrix t.pairs.items
        × ArePivotRows t.rows.now t.pairs.items t.pivots };
}

impl<'a> Triangle<'a> {
    /// The pairs of a book. They are sorted by columns, in time proportional to them times a logarithm, and listed by counts of the
    /// pairs that have an entry in the column of each; the least that is ready is found by marks, 4096 pairs a step. A table has the
    /// place of each column, so an entry of their rows costs constant time, and where the rows are copied a logarithm of how many
    /// its row has; where the matrix has more than 64 columns a pair there is no table, and it costs a logarithm of the columns too.
    /// Beside what is kept this takes memory by the pairs and by the entries of their rows, and a bit a column where the matrix isn't
    /// wide (`Rows::is_wide`).
    pub fn of(alloc: Global, book: &Book<'a>) -> Result<Self, AllocError>
        ensures rows { IfOk result (λ t. t.rows ≡ book.now.rows) }
        ensures order { IfOk result (λ t. IsTriangularOrder book.now.rows.matrix book.now.pairs t.pairs) }
    {
        let rows = book.rows();
        let pairs = in_order(alloc, book)?;
        Ok(Triangle {
            pivots: PivotRows::of(alloc, rows, &pairs)?,
            rows,
            pairs,
        })
    }

    /// The law of its pivots, for proofs: it does nothing.
    #[inline(always)]
    pub fn is_sound(&self)
        ensures { Triangular self.now.rows.matrix self.now.pairs }
    {
        self.pairs();
    }

    /// The pairs in this order.
    pub fn pairs(&self) -> &[Pair]
        ensures pairs { result.now ≡ self.now.pairs }
        ensures triangular { Triangular self.now.rows.matrix self.now.pairs }
    {
        self.pairs.as_slice()
    }

    /// The matrix.
    pub fn rows(&self) -> &'a Rows
        ensures { result.now ≡ self.now.rows }
    {
        self.rows
    }

    /// Two rows of zeros, as wide as the rows that a row is reduced to.
    pub fn room(&self, alloc: Global) -> Reduced
        ensures { HasSizesOf self.now result }
    {
        let modulus = self.rows.modulus();
        Reduced {
            rest: Sparse::new(alloc, self.rows.width(), modulus),
            coefficients: Sparse::new(alloc, self.pairs.len() as u32, modulus),
        }
    }

    /// Reduces the row that stands in these columns and values by the pivots to these rows, whose memory serves again. For a prime
    /// modulus it is the coefficients times the pivot rows and a rest, the Schur row, which is 0 in all pivotal columns. For
    /// others both rows are residues of the right sizes.
    ///
    /// The time is that of the entries of the pivot rows that are used, and a step for each 4096 columns in which some pivot
    /// row has an entry.
    pub fn reduce(
        &self,
        alloc: Global,
        cols: &[u32],
        vals: &[u64],
        work: &mut Work,
        reduced: &mut Reduced,
    ) -> Result<(), AllocError>
        requires row { IsSparse self.now.rows.modulus self.now.rows.matrix.width cols.now vals.now }
        requires work { work.old ≡ workspace_of self.now }
        requires sizes { HasSizesOf self.now reduced.old }
        ensures work { work.new ≡ work.old }
        ensures sizes { HasSizesOf self.now reduced.new }
        ensures fits { OnOk result (FitsReduced self.now reduced.new) }
        ensures reduced { OnOk result (IsPrime self.now.rows.modulus → IsReduced self.now.rows.modulus
            self.now.rows.matrix self.now.pairs (spread self.now.rows.matrix.width cols.now vals.now)
            (reduction_of reduced.new)) }
    {
        reduced.rest.clear();
        reduced.coefficients.clear();
        work.reduce(
            alloc,
            &self.pivots,
            RowEntries { cols, vals },
            &mut reduced.rest,
            &mut reduced.coefficients,
        )?;
        Ok(())
    }

    /// Makes `rest` what is left of the row that stands in these columns and values by the pivots; its memory serves again.
    pub fn rest_to(
        &self,
        alloc: Global,
        cols: &[u32],
        vals: &[u64],
        work: &mut Work,
        rest: &mut Sparse,
    ) -> Result<(), AllocError>
        requires row { IsSparse self.now.rows.modulus self.now.rows.matrix.width cols.now vals.now }
        requires work { work.old ≡ workspace_of self.now }
        requires rest_modulus { rest.old.modulus ≡ self.now.rows.modulus }
        requires rest_width { length rest.old.row ≡ self.now.rows.matrix.width }
        ensures work { work.new ≡ work.old }
        ensures alike { IsAlike rest.old rest.new }
        ensures fits { OnOk result (FitsRest self.now rest.new) }
        ensures rest { OnOk result (IsPrime self.now.rows.modulus → IsSchurRow self.now.rows.modulus
            self.now.rows.matrix self.now.pairs (spread self.now.rows.matrix.width cols.now vals.now)
            rest.new.row) }
    {
        rest.clear();
        work.rest(alloc, &self.pivots, RowEntries { cols, vals }, rest)?;
        Ok(())
    }

    // The pivot rows.
    pub(crate) fn pivot_rows(&self) -> &PivotRows
        ensures { ArePivotRows self.now.rows self.now.pairs result.now }
    {
        &self.pivots
    }
}

/// Pairs have at most one triangular order.
pub fn triangular_order_is_one()
    ensures { TriangularOrderIsOne }
{}

// The pairs of a book by ascending columns.
fn by_columns(alloc: Global, book: &Book) -> Result<Vec<Pair>, AllocError>
    ensures permutation { IfOk result (λ sorted. IsPermutation book.now.pairs sorted.items) }
    ensures pivots { IfOk result (λ sorted. AreSortedPivots book.now.rows.matrix sorted.items) }
{
    let mut sorted = Vec::from_slice(alloc, book.pairs())?;
    sorted.sort_unstable_by_key(|pair| pair.col);
    Ok(sorted)
}

// The pairs of a book in triangular order.
fn in_order(alloc: Global, book: &Book) -> Result<Vec<Pair>, AllocError>
    ensures { IfOk result (λ order. IsTriangularOrder book.now.rows.matrix book.now.pairs order.items) }
{
    let rows = book.rows();
    let pairs = by_columns(alloc, book)?;
    let columns = AscendingColumns::of(alloc, rows.width(), columns_of(alloc, &pairs)?)?;
    let mut waits = count_waits(alloc, rows, &pairs, &columns)?;
    let mut queue = queue_ready(alloc, &waits)?;
    let order = list_all(alloc, rows, &pairs, &columns, &mut waits, &mut queue)?;
    Ok(order)
}

// The columns of these pairs.
fn columns_of(alloc: Global, pairs: &[Pair]) -> Result<Vec<u32>, AllocError>
    ensures { IfOk result (λ columns. columns.items ≡ map (λ p. p.col) pairs.now) }
{
    pairs.iter().map(|pair| pair.col).collect(alloc)
}

// For each pair how many of the pairs have an entry in its column, itself among them.
fn count_waits(
    alloc: Global,
    rows: &Rows,
    pairs: &[Pair],
    columns: &AscendingColumns,
) -> Result<Vec<u32>, AllocError>
    requires pivots { AreSortedPivots rows.now.matrix pairs.now }
    requires few { length pairs.now ≤ LARGEST_SIZE }
    requires columns { columns.now ≡ map (λ p. p.col) pairs.now }
    ensures { IfOk result (λ waits. AreWaits rows.now.matrix pairs.now waits.items) }
{
    // The contract of this call tells that the rows are a matrix.
    rows.is_sound();
    let mut waits = vec![in alloc; 0; pairs.len()]?;
    for pair in pairs {
        raise(&mut waits, columns, rows.cols(pair.row));
    }
    Ok(waits)
}

// One more at the place of each of these columns that is pivotal.
fn raise(waits: &mut [u32], columns: &AscendingColumns, cols: &[u32])
    requires many { length waits.old ≡ length columns.now }
    requires pivotal { AreRising columns.now }
    requires rising { AreRising cols.now }
    requires small { (k : ℕ) → k < length waits.old → slice_index waits.old k < LARGEST_SIZE }
    ensures raised { EachPlaceOf columns.now cols.now
        (λ k. slice_index waits.new k ≡ slice_index waits.old k + 1) }
    ensures kept { EachOtherPlace columns.now cols.now
        (λ k. slice_index waits.new k ≡ slice_index waits.old k) }
{
    for column in cols {
        if let Some(place) = columns.find(*column) {
            waits[place as usize] += 1;
        }
    }
}

// Marks at the places at which one pair waits.
fn queue_ready(alloc: Global, waits: &[u32]) -> Result<ColumnSet, AllocError>
    requires { length waits.now ≤ LARGEST_SIZE }
    ensures { IfOk result (HasReady waits.now) }
{
    let mut queue = ColumnSet::new(alloc, waits.len() as u32)?;
    for place in 0..waits.len() {
        if waits[place] == 1 {
            queue.mark(place as u32);
        }
    }
    Ok(queue)
}

// Takes the least place at which one pair waits, and drops those before it. In fact there are none, but the test is cheaper than
// to keep account of it.
fn next_ready(waits: &[u32], queue: &mut ColumnSet) -> Option<u32>
    requires { length queue.old ≡ length waits.now }
    ensures some { IfSome result (TakesReady waits.now queue.old queue.new) }
    ensures none { IfNone result ((k : ℕ) → Queued queue.old k → slice_index waits.now k ≢ 1) }
{
    while let Some(place) = queue.pop() {
        if waits[place as usize] == 1 {
            return Some(place);
        }
    }
    None
}

// One less at the place of each of these columns that is pivotal, and the places at which one is left onto the queue.
fn lower(waits: &mut [u32], columns: &AscendingColumns, cols: &[u32], queue: &mut ColumnSet)
    requires many { length waits.old ≡ length columns.now }
    requires room { length queue.old ≡ length columns.now }
    requires pivotal { AreRising columns.now }
    requires rising { AreRising cols.now }
    requires some { EachPlaceOf columns.now cols.now (λ k. 0 < slice_index waits.old k) }

    ensures lowered { EachPlaceOf columns.now cols.now
        (λ k. slice_index waits.new k + 1 ≡ slice_index waits.old k) }
    ensures kept { EachOtherPlace columns.now cols.now
        (λ k. slice_index waits.new k ≡ slice_index waits.old k) }

    ensures room { length queue.new ≡ length queue.old }
    ensures pushed { EachPlaceOf columns.now cols.now
        (λ k. slice_index waits.new k ≡ 1 → Queued queue.new k) }
    ensures queued { (k : ℕ) → Queued queue.old k → Queued queue.new k }
{
    for column in cols {
        if let Some(place) = columns.find(*column) {
            lower_at(waits, place, queue);
        }
    }
}

// One less at a place, which comes onto the queue where one is left.
fn lower_at(waits: &mut [u32], place: u32, queue: &mut ColumnSet)
    requires place { place < length waits.old }
    requires room { place < length queue.old }
    requires some { 0 < slice_index waits.old place }
    ensures waits { waits.new ≡ slice_set waits.old place (slice_index waits.old place - 1) }
    ensures room { length queue.new ≡ length queue.old }
    ensures pushed { slice_index waits.new place ≡ 1 → Queued queue.new place }
    ensures queued { (k : ℕ) → Queued queue.old k → Queued queue.new k }
{
    waits[place as usize] -= 1;
    if waits[place as usize] == 1 {
        queue.mark(place);
    }
}

// The pairs in triangular order.
fn list_all(
    alloc: Global,
    rows: &Rows,
    pairs: &[Pair],
    columns: &AscendingColumns,
    waits: &mut [u32],
    queue: &mut ColumnSet,
) -> Result<Vec<Pair>, AllocError>
    requires pivots { AreSortedPivots rows.now.matrix pairs.now }
    requires columns { columns.now ≡ map (λ p. p.col) pairs.now }
    requires waits { AreWaits rows.now.matrix pairs.now waits.old }
    requires ready { HasReady waits.old queue.old }
    ensures { IfOk result (λ order. IsTriangularOrder rows.now.matrix pairs.now order.items) }
{
    // The contract of this call tells that the rows are a matrix.
    rows.is_sound();
    let mut order = Vec::with_capacity(alloc, pairs.len())?;
    while let Some(place) = next_ready(waits, queue) {
        let pair = pairs[place as usize];
        lower(waits, columns, rows.cols(pair.row), queue);
        order.push(pair)?;
    }
    Ok(order)
}
