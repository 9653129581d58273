// The entries of a row, with its columns in another order.
ghost use Rattle.std.specs.Prelude.{◌≡◌, ◌<◌, length, map, OnOk};
ghost use Rattle.residue_words.specs.Matrix.{row};
ghost use Rattle.sparse_rows.specs.Stored.{with_row};
ghost use Rattle.sparse_rows.specs.Rows.{LARGEST_SIZE};
ghost use Rattle.lead_rows.specs.Scattered.{HaveDistinctColumns};
ghost use Rattle.triangular_solve.specs.PivotRows.{row_on};
ghost use Rattle.triangular_solve.specs.PlacedEntries.{ArePlacedEntries};

use crate::column_order::ColumnOrder;
use sparse_rows::Rows;
use std::alloc::{AllocError, Global};

// An entry of a row: at which place of an order its column stands, and its value.
#[derive(Clone, Copy, Debug, Drop)]
pub(crate) struct PlacedEntry {
    pub(crate) place: u32,
    pub(crate) value: u64,
}

// Room for one row, whose entries are put in order. It takes 28 bytes an entry.
#[derive(Debug, Drop)]
pub(crate) struct RowRoom {
    entries: Vec<PlacedEntry>,
    places: Vec<u32>,
    values: Vec<u64>,
}

impl RowRoom {
    pub(crate) fn new(alloc: Global) -> RowRoom {
        RowRoom {
            entries: Vec::new(alloc),
            places: Vec::new(alloc),
            values: Vec::new(alloc),
        }
    }

    // Appends row i to others on the columns of an order. Rows have few entries, so they are sorted.
    pub(crate) fn append_row(
        &mut self,
        rows: &Rows,
        i: u32,
        order: &ColumnOrder,
        placed: &mut Rows,
    ) -> Result<(), AllocError>
        requires inside { i < rows.now.matrix.height }
        requires distinct { HaveDistinctColumns order.now }
        requires modulus { placed.old.modulus ≡ rows.now.modulus }
        requires width { placed.old.matrix.width ≡ length order.now }
        requires height_small { placed.old.matrix.height < LARGEST_SIZE }
        ensures modulus { placed.new.modulus ≡ placed.old.modulus }
        ensures matrix { OnOk result (placed.new.matrix
            ≡ with_row placed.old.matrix (row_on rows.now.matrix order.now i)) }
    {
        // The contract of this call tells that the rows are residues.
        rows.is_sound();
        place_entries(rows, i, order, &mut self.entries)?;
        self.entries.sort_unstable_by_key(|entry| entry.place);
        part_entries(&self.entries, &mut self.places, &mut self.values)?;
        placed.append_entries(&self.places, &self.values)
    }
}

// Makes the entries those of row i that stand in columns of the order.
fn place_entries(
    rows: &Rows,
    i: u32,
    order: &ColumnOrder,
    entries: &mut Vec<PlacedEntry>,
) -> Result<(), AllocError>
    requires inside { i < rows.now.matrix.height }
    requires distinct { HaveDistinctColumns order.now }
    ensures { OnOk result (ArePlacedEntries order.now (row rows.now.matrix i) entries.new.items) }
{
    // The contract of this call tells that the rows are a matrix.
    rows.is_sound();
    let cols = rows.cols(i);
    let vals = rows.vals(i);
    entries.clear();
    entries.reserve(cols.len())?;
    for k in 0..cols.len() {
        if let Some(place) = order.find(cols[k]) {
            entries.push_reserved(PlacedEntry {
                place,
                value: vals[k],
            });
        }
    }
    Ok(())
}

// Makes the lists those of the entries' places and values.
fn part_entries(
    entries: &[PlacedEntry],
    places: &mut Vec<u32>,
    values: &mut Vec<u64>,
) -> Result<(), AllocError>
    ensures places { OnOk result (places.new.items ≡ map (λ x. x.place) entries.now) }
    ensures values { OnOk result (values.new.items ≡ map (λ x. x.value) entries.now) }
{
    places.clear();
    values.clear();
    places.reserve(entries.len())?;
    values.reserve(entries.len())?;
    for entry in entries {
        places.push_reserved(entry.place);
        values.push_reserved(entry.value);
    }
    Ok(())
}
