// Where ascending columns stand.
ghost use Rattle.std.specs.Prelude.{ℕ, ◌≡◌, ◌≢◌, ◌<◌, ◌≤◌, length, slice_index, IfNone, IfOk, IfSome, MatchOption};
ghost use Rattle.std.specs.List.{Contains};
ghost use Rattle.sparse_rows.specs.Rows.{AreBelow, AreRising, LARGEST_SIZE};
ghost use Rattle.lead_rows.specs.Scattered.{HaveDistinctColumns};
ghost use Rattle.triangular_solve.specs.AscendingColumns.{HasTable, IsPlaceOf, IsTable};
ghost use Rattle.triangular_solve.specs.declared.ascending_columns.TheConstants.{NONE};

use std::alloc::{AllocError, Global};
use std::marker::Model;

// Stands at each column that isn't in the list.
const NONE: u32 = u32::MAX;

// How many columns a place a table may have.
const COLUMNS_A_PLACE: usize = 64;

// Ascending columns with a way from a column to its place: a table by column, or where the matrix is far wider than they are many,
// a search by halves. Contracts see the columns.
#[derive(Debug, Drop)]
pub(crate) struct AscendingColumns {
    columns: Vec<u32>,
    table: Option<Vec<u32>>,
}

impl Model for AscendingColumns {
    ghost use Rattle.std.specs.Prelude.{List, ℕ};
    ghost use Rattle.triangular_solve.specs.AscendingColumns.{HasTable};

    ghost Value = { List ℕ };

    ghost view = { λ c. c.columns.items };

    ghost invariant = { λ c. HasTable c.columns.items c.table };
}

impl AscendingColumns {
    pub(crate) fn of(alloc: Global, width: u32, columns: Vec<u32>) -> Result<Self, AllocError>
        requires width { width ≤ LARGEST_SIZE }
        requires rising { AreRising columns.items }
        requires below { AreBelow width columns.items }
        ensures { IfOk result (λ made. made ≡ columns.items) }
    {
        let table = if width as usize / COLUMNS_A_PLACE <= columns.len() {
            Some(table_of(alloc, width, &columns)?)
        } else {
            None
        };
        Ok(AscendingColumns { columns, table })
    }

    // The columns.
    pub(crate) fn columns(&self) -> &[u32]
        ensures columns { result.now ≡ self.now }
        ensures rising { AreRising self.now }
        ensures few { length self.now ≤ LARGEST_SIZE }
    {
        self.columns.as_slice()
    }

    // The place of a column, if it has one: in constant time by the table, else in time logarithmic in the columns.
    pub(crate) fn find(&self, column: u32) -> Option<u32>
        ensures { MatchOption result (¬ Contains self.now column) (IsPlaceOf self.now column) }
    {
        match &self.table {
            Some(table) => look_up(table, column),
            None => search(&self.columns, column),
        }
    }

    // The columns, and their table if they have one.
    pub(crate) fn into_parts(self) -> (Vec<u32>, Option<Vec<u32>>)
        ensures columns { result.0.items ≡ self }
        ensures table { HasTable result.0.items result.1 }
    {
        (self.columns, self.table)
    }
}

// The place of each column.
fn table_of(alloc: Global, width: u32, columns: &[u32]) -> Result<Vec<u32>, AllocError>
    requires width { width ≤ LARGEST_SIZE }
    requires rising { AreRising columns.now }
    requires below { AreBelow width columns.now }
    ensures { IfOk result (λ table. IsTable columns.now table.items) }
{
    let mut table = vec![in alloc; NONE; width as usize]?;
    number(&mut table, columns);
    Ok(table)
}

// Gives each of these columns its place in the table, in which no others have one.
pub(crate) fn number(table: &mut [u32], columns: &[u32])
    requires few { length columns.now ≤ LARGEST_SIZE }
    requires distinct { HaveDistinctColumns columns.now }
    requires below { AreBelow (length table.old) columns.now }
    requires others { (c : ℕ) → c < length table.old → slice_index table.old c ≢ NONE →
        Contains columns.now c }
    ensures { IsTable columns.now table.new }
{
    for k in 0..columns.len() {
        table[columns[k] as usize] = k as u32;
    }
}

// The place that the table has for a column, if it has one.
pub(crate) fn look_up(table: &[u32], column: u32) -> Option<u32>
    ensures none { IfNone result (column < length table.now → slice_index table.now column ≡ NONE) }
    ensures some { IfSome result (λ k. (column < length table.now) × (k ≢ NONE)) }
    ensures value { IfSome result (λ k. k ≡ slice_index table.now column) }
{
    match table.get(column as usize) {
        Some(&place) if place != NONE => Some(place),
        _ => None,
    }
}

// The place of a column among those that ascend, if it is there.
pub(crate) fn search(columns: &[u32], column: u32) -> Option<u32>
    requires rising { AreRising columns.now }
    requires few { length columns.now ≤ LARGEST_SIZE }
    ensures { MatchOption result (¬ Contains columns.now column) (IsPlaceOf columns.now column) }
{
    match columns.binary_search(&column) {
        Ok(place) => Some(place as u32),
        Err(_) => None,
    }
}
