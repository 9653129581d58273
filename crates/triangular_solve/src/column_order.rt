// The columns in which some pivot row has an entry, in an order of their own.
ghost use Rattle.std.specs.Prelude.{◌≡◌, ◌≢◌, ◌<◌, ◌≤◌, ◌++◌, ◌∷◌, [], ℕ, List, length, slice_index, slice_set, IfNone, IfOk, IfSome, OnOk, MatchOption};
ghost use Rattle.std.specs.List.{Contains};
ghost use Rattle.residue_words.specs.Matrix.{IsVector, zeros};
ghost use Rattle.residue_words.specs.declared.plain.Pair.{Pair as Place};
ghost use Rattle.row_space.specs.Factors.{col_at};
ghost use Rattle.sparse_rows.specs.Rows.{AreBelow, AreRising, support, LARGEST_SIZE};
ghost use Rattle.sparse_rows.specs.Stored.{IsSparse, spread};
ghost use Rattle.triangular_solve.specs.AscendingColumns.{IsPlaceOf};
ghost use Rattle.lead_rows.specs.Accumulator.{IsAlike, IsClear};
ghost use Rattle.triangular_solve.specs.PivotRows.{AppendsBefore, AreDisjointParts, HasPivotsFirst, IsOrdering, IsOrderOf, IsSplitRow, place_range};
ghost use Rattle.lead_rows.specs.Scattered.{HaveDistinctColumns};

use crate::ascending_columns::{AscendingColumns, look_up, number, search};
use lead_rows::Accumulator;
use pivot_table::Pair;
use sparse_rows::Sparse;
use std::alloc::{AllocError, Global};
use std::marker::Model;

// Stands at a column that has no place yet.
const NONE: u32 = u32::MAX;

// Columns in an order, with a way from a column to its place: first the columns of pairs, in their order, then others, ascending.
// Contracts see the columns in this order.
//
// It takes 4 bytes a column and as many for each column of the matrix, or where the matrix is far wider, 12 bytes a column.
#[derive(Debug, Drop)]
pub(crate) struct ColumnOrder {
    columns: Vec<u32>,
    // The place of each column of the matrix, if it isn't far wider.
    table: Option<Vec<u32>>,
    // Else these columns sorted, and the place of each.
    sorted: Vec<u32>,
    places: Vec<u32>,
}

impl Model for ColumnOrder {
    ghost use Rattle.std.specs.Prelude.{List, ℕ};
    ghost use Rattle.triangular_solve.specs.PivotRows.{HasLookup};

    ghost Value = { List ℕ };

    ghost view = { λ c. c.columns.items };

    ghost invariant = { λ c. HasLookup c.columns.items c.table c.sorted.items c.places.items };
}

impl ColumnOrder {
    // These columns, which ascend and have those of the pairs among them.
    pub(crate) fn of(
        alloc: Global,
        width: u32,
        pairs: &[Pair],
        columns: Vec<u32>,
    ) -> Result<Self, AllocError>
        requires width { width ≤ LARGEST_SIZE }
        requires rising { AreRising columns.items }
        requires below { AreBelow width columns.items }
        requires pivotal { (k : ℕ) → k < length pairs.now → Contains columns.items (col_at pairs.now k) }
        requires distinct { (k t : ℕ) → k < t → t < length pairs.now →
            col_at pairs.now k ≢ col_at pairs.now t }
        ensures first { IfOk result (HasPivotsFirst pairs.now) }
        ensures below { IfOk result (AreBelow width) }
        ensures all { IfOk result (λ order. (j : ℕ) → Contains columns.items j → Contains order j) }
    {
        let sorted = AscendingColumns::of(alloc, width, columns)?;
        let mut places = vec![in alloc; NONE; sorted.columns().len()]?;
        let mut columns = Vec::with_capacity(alloc, sorted.columns().len())?;
        place_pivots(&sorted, pairs, &mut places, &mut columns)?;
        place_others(sorted.columns(), &mut places, &mut columns)?;
        Ok(ColumnOrder::by_places(alloc, sorted, places, columns))
    }

    // These columns, by the places of the sorted ones. A table of the sorted ones becomes one of places.
    fn by_places(
        alloc: Global,
        sorted: AscendingColumns,
        places: Vec<u32>,
        columns: Vec<u32>,
    ) -> ColumnOrder
        requires order { IsOrderOf sorted places.items columns.items }
        ensures { result ≡ columns.items }
    {
        let (sorted, table) = sorted.into_parts();
        if let Some(mut table) = table {
            number(&mut table, &columns);
            return ColumnOrder {
                columns,
                table: Some(table),
                sorted: Vec::new(alloc),
                places: Vec::new(alloc),
            };
        }
        ColumnOrder {
            columns,
            table: None,
            sorted,
            places,
        }
    }

    // The law of the columns, for proofs: it does nothing.
    #[inline(always)]
    pub(crate) fn is_sound(&self)
        ensures { length self.now ≤ LARGEST_SIZE }
    {
        self.columns();
    }

    // The columns in this order.
    pub(crate) fn columns(&self) -> &[u32]
        ensures columns { result.now ≡ self.now }
        ensures few { length self.now ≤ LARGEST_SIZE }
    {
        self.columns.as_slice()
    }

    // The place of a column, if it has one: in one step by the table, else in time logarithmic in the columns.
    pub(crate) fn find(&self, column: u32) -> Option<u32>
        ensures { MatchOption result (¬ Contains self.now column) (IsPlaceOf self.now column) }
    {
        match &self.table {
            Some(table) => look_up(table, column),
            None => place_of(&self.sorted, &self.places, column),
        }
    }

    // Splits the row that stands in these columns and values: its entries in the columns of this order become sums at their places,
    // the others stay entries of a row.
    pub(crate) fn split(
        &self,
        cols: &[u32],
        vals: &[u64],
        sums: &mut Accumulator,
        passed: &mut Sparse,
    ) -> Result<(), AllocError>
        requires row { IsSparse sums.old.modulus (length passed.old.row) cols.now vals.now }
        requires modulus { passed.old.modulus ≡ sums.old.modulus }
        requires clear { IsClear sums.old.modulus (length self.now) sums.old }
        requires none { passed.old.row ≡ zeros (length passed.old.row) }
        requires distinct { HaveDistinctColumns self.now }
        requires below { AreBelow (length passed.old.row) self.now }
        ensures sums { IsAlike sums.old sums.new }
        ensures passed { IsAlike passed.old passed.new }
        ensures vector { IsVector sums.old.modulus (length self.now) sums.new.row }
        ensures split { OnOk result (IsSplitRow self.now (spread (length passed.old.row) cols.now vals.now)
            sums.new.row passed.new.row) }
    {
        // The call's contract tells the range of the modulus.
        passed.is_sound();
        for k in 0..cols.len() {
            match self.find(cols[k]) {
                Some(place) => sums.add(place, vals[k]),
                None => passed.push(cols[k], vals[k])?,
            }
        }
        Ok(())
    }

    // Appends to a zero row the row of which these sums and entries are left.
    pub(crate) fn join(
        &self,
        sums: &mut Accumulator,
        passed: &Sparse,
        rest: &mut Sparse,
    ) -> Result<(), AllocError>
        requires vector { IsVector sums.old.modulus (length self.now) sums.old.row }
        requires alike { IsAlike passed.now rest.old }
        requires modulus { sums.old.modulus ≡ rest.old.modulus }
        requires none { rest.old.row ≡ zeros (length rest.old.row) }
        requires distinct { HaveDistinctColumns self.now }
        requires below { AreBelow (length rest.old.row) self.now }
        requires parts { AreDisjointParts self.now sums.old.row passed.now.row }
        ensures sums { IsAlike sums.old sums.new }
        ensures rest { IsAlike rest.old rest.new }
        ensures joined { OnOk result (IsSplitRow self.now rest.new.row sums.old.row passed.now.row) }
    {
        let width = passed.width();
        let mut at = 0;
        while let Some((place, value)) = sums.pop() {
            let column = self.columns[place as usize];
            at = append_before(passed, at, column, rest)?;
            rest.push(column, value)?;
        }
        append_before(passed, at, width, rest)?;
        Ok(())
    }
}

// The place that a column has by its place among the sorted ones.
fn place_of(sorted: &[u32], places: &[u32], column: u32) -> Option<u32>
    requires rising { AreRising sorted.now }
    requires few { length sorted.now ≤ LARGEST_SIZE }
    requires long { length places.now ≡ length sorted.now }
    ensures none { IfNone result (¬ Contains sorted.now column) }
    ensures some { IfSome result (λ k.
        (at : ℕ) × IsPlaceOf sorted.now column at × (k ≡ slice_index places.now at)) }
{
    let at = search(sorted, column)?;
    Some(places[at as usize])
}

// Appends the entries of a row from place `from` on whose columns are less than `end`, and answers the place of the next.
fn append_before(row: &Sparse, from: usize, end: u32, to: &mut Sparse) -> Result<usize, AllocError>
    requires from { from ≤ length (support row.now.row) }
    requires alike { IsAlike row.now to.old }
    requires behind { (t j : ℕ) → from ≤ t → t < length (support row.now.row) →
        slice_index (support row.now.row) t ≤ j → slice_index to.old.row j ≡ 0 }
    ensures alike { IsAlike to.old to.new }
    ensures appended { IfOk result (λ at.
        AppendsBefore row.now.row (place_range from at) end to.old.row to.new.row) }
{
    let cols = row.cols();
    let vals = row.vals();
    let mut at = from;
    while at < cols.len() && cols[at] < end {
        to.push(cols[at], vals[at])?;
        at += 1;
    }
    Ok(at)
}

// Gives the next place to a column that has none.
fn append(
    sorted: &[u32],
    at: usize,
    places: &mut [u32],
    columns: &mut Vec<u32>,
) -> Result<(), AllocError>
    requires at { at < length sorted.now }
    requires few { length sorted.now ≤ LARGEST_SIZE }
    requires rising { AreRising sorted.now }
    requires ordering { IsOrdering sorted.now places.old columns.old.items }
    requires new { slice_index places.old at ≡ NONE }
    ensures ordering { OnOk result (IsOrdering sorted.now places.new columns.new.items) }
    ensures places { OnOk result (places.new ≡ slice_set places.old at (length columns.old.items)) }
    ensures columns { OnOk result (columns.new.items ≡ columns.old.items ++ slice_index sorted.now at ∷ []) }
{
    places[at] = columns.len() as u32;
    columns.push(sorted[at])?;
    Ok(())
}

// Gives the first places to the columns of the pairs.
fn place_pivots(
    sorted: &AscendingColumns,
    pairs: &[Pair],
    places: &mut [u32],
    columns: &mut Vec<u32>,
) -> Result<(), AllocError>
    requires pivotal { (k : ℕ) → k < length pairs.now → Contains sorted.now (col_at pairs.now k) }
    requires distinct { (k t : ℕ) → k < t → t < length pairs.now → col_at pairs.now k ≢ col_at pairs.now t }
    requires ordering { IsOrdering sorted.now places.old columns.old.items }
    requires none { columns.old.items ≡ [] }
    ensures ordering { OnOk result (IsOrdering sorted.now places.new columns.new.items) }
    ensures first { OnOk result (HasPivotsFirst pairs.now columns.new.items) }
    ensures many { OnOk result (length columns.new.items ≡ length pairs.now) }
{
    for k in 0..pairs.len() {
        if let Some(at) = sorted.find(pairs[k].col) {
            append(sorted.columns(), at as usize, places, columns)?;
        }
    }
    Ok(())
}

// Gives the next places to the columns that have none.
fn place_others(
    sorted: &[u32],
    places: &mut [u32],
    columns: &mut Vec<u32>,
) -> Result<(), AllocError>
    requires few { length sorted.now ≤ LARGEST_SIZE }
    requires rising { AreRising sorted.now }
    requires ordering { IsOrdering sorted.now places.old columns.old.items }
    ensures order { OnOk result (IsOrderOf sorted.now places.new columns.new.items) }
    ensures first { (qs : List Place) → HasPivotsFirst qs columns.old.items →
        length columns.old.items ≡ length qs →
        OnOk result (HasPivotsFirst qs columns.new.items) }
{
    for at in 0..sorted.len() {
        if places[at] == NONE {
            append(sorted, at, places, columns)?;
        }
    }
    Ok(())
}
