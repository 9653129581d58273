// The pivot rows of a triangle on the columns in which they have an entry.
ghost use Rattle.std.specs.Prelude.{◌≡◌, ◌≢◌, ◌<◌, ◌≤◌, ◌*◌, ◌%◌, ℕ, List, length, map, slice_index, slice_set, IfOk, OnOk, IfSome, IfNone};
ghost use Rattle.residue_words.specs.Residues.{IsPrime};
ghost use Rattle.residue_words.specs.Matrix.{IsVector, entry, zeros};
ghost use Rattle.row_space.specs.Factors.{row_at, col_at};
ghost use Rattle.sparse_rows.specs.ColumnSet.{AllZero};
ghost use Rattle.sparse_rows.specs.Rows.{AreBelow, AreOccupied, selected, LARGEST_SIZE};
ghost use Rattle.sparse_rows.specs.Stored.{IsSparse, spread};
ghost use Rattle.pivot_table.specs.Order.{Triangular};
ghost use Rattle.lead_rows.specs.Accumulator.{IsAlike, IsClear};
ghost use Rattle.triangular_solve.specs.PivotRows.{AreInverses, ArePivotRows, ArePlaced, AreColumnSums, AreUpper, Eliminates, HasPivotsFirst, IsEliminated, IsEliminating, row_on, rows_on};
ghost use Rattle.lead_rows.specs.Scattered.{HaveDistinctColumns};

use crate::column_marks::occupied_columns;
use crate::column_order::ColumnOrder;
use crate::placed_entries::RowRoom;
use lead_rows::Accumulator;
use pivot_table::Pair;
use sparse_rows::{Rows, Sparse};
use std::alloc::{AllocError, Global};
use std::marker::Model;

// The rows of pivots, upper triangular: their columns are numbered by an order that begins with the pivots' columns. So a row of
// sums is reduced from its first entry on, and nothing is looked up. Contracts see this matrix, and the columns for which its columns
// stand. It takes 12 bytes an entry, 16 bytes a pivot, and 4 bytes for each of its columns and each of the matrix; or where the matrix
// has more than 64 columns for each of its own, 12 bytes for each of these alone.
#[derive(Debug, Drop)]
pub(crate) struct PivotRows {
    rows: Rows,
    // The inverses of the pivots.
    inverses: Vec<u64>,
    order: ColumnOrder,
}

impl Model for PivotRows {
    ghost use Rattle.triangular_solve.specs.PivotRows.{AreInverses, ArePlaced, PlacedRows, placed_rows};

    ghost Value = { PlacedRows };

    ghost view = { λ p. placed_rows p.rows p.order };

    ghost invariant = { λ p. ArePlaced (placed_rows p.rows p.order) × AreInverses p.rows p.inverses.items };
}

impl PivotRows {
    // The rows of these pairs, in time by their entries, times a logarithm of how many a row has, and where the matrix is far wider
    // one of their columns. Beside what is kept it takes memory by their entries, and where the matrix isn't wide a bit a column.
    pub(crate) fn of(alloc: Global, rows: &Rows, pairs: &[Pair]) -> Result<Self, AllocError>
        requires { Triangular rows.now.matrix pairs.now }
        ensures { IfOk result (ArePivotRows rows.now pairs.now) }
    {
        let width = rows.width();
        let columns = occupied_columns(alloc, rows, pairs)?;
        let order = ColumnOrder::of(alloc, width, pairs, columns)?;
        let placed = place_rows(alloc, rows, pairs, &order)?;
        Ok(PivotRows {
            inverses: invert_pivots(alloc, &placed)?,
            rows: placed,
            order,
        })
    }

    // The order of the columns.
    pub(crate) fn order(&self) -> &ColumnOrder
        ensures columns { result.now ≡ self.now.columns }
        ensures few { length self.now.columns ≤ LARGEST_SIZE }
        ensures placed { ArePlaced self.now }
    {
        // The call's contract tells that there are few.
        self.order.is_sound();
        &self.order
    }

    // The rows on these columns.
    pub(crate) fn rows(&self) -> &Rows
        ensures rows { result.now ≡ self.now.rows }
        ensures placed { ArePlaced self.now }
    {
        &self.rows
    }

    // The inverse of the pivot at a place.
    pub(crate) fn inverse(&self, place: u32) -> u64
        requires { place < self.now.rows.matrix.height }
        ensures residue { result < self.now.rows.modulus }
        ensures inverse { IsPrime self.now.rows.modulus →
            (entry self.now.rows.matrix place place * result) % self.now.rows.modulus ≡ 1 }
    {
        self.inverses[place as usize]
    }

    // Takes the first sum away, if it stands at a pivot, by a multiple of the pivot's row, and answers the pivot's place with the
    // factor of its row; None where no sum at a pivot is left.
    fn eliminate_next(&self, sums: &mut Accumulator) -> Option<(u32, u64)>
        requires sums { AreColumnSums self.now sums.old }
        ensures sums { AreColumnSums self.now sums.new }
        ensures some { IfSome result (λ taken.
            Eliminates self.now sums.old.row sums.new.row taken.0 taken.1) }
        ensures none { IfNone result (IsEliminated self.now sums.new.row × (sums.new.row ≡ sums.old.row)) }
    {
        let Some((place, value)) = sums.pop() else {
            return None;
        };
        if place >= self.rows.height() {
            sums.add(place, value);
            return None;
        }
        let modulus = self.rows.modulus();
        let factor = modulus.mul(value, self.inverses[place as usize]);
        let cols = self.rows.cols(place);
        let vals = self.rows.vals(place);
        // The first entry is the pivot.
        sums.add_multiple(modulus.neg(factor), &cols[1..], &vals[1..]);
        Some((place, factor))
    }

    // Takes all sums at pivots away, and appends the factors of their rows to a zero row.
    pub(crate) fn eliminate(
        &self,
        sums: &mut Accumulator,
        coefficients: &mut Sparse,
    ) -> Result<(), AllocError>
        requires sums { AreColumnSums self.now sums.old }
        requires modulus { coefficients.old.modulus ≡ self.now.rows.modulus }
        requires none { coefficients.old.row ≡ zeros self.now.rows.matrix.height }
        ensures sums { AreColumnSums self.now sums.new }
        ensures coefficients { IsAlike coefficients.old coefficients.new }
        ensures zero { OnOk result (IsEliminated self.now sums.new.row) }
        ensures ok { OnOk result (IsEliminating self.now sums.old.row sums.new.row coefficients.new.row) }
    {
        // The call's contract tells the range of the modulus.
        coefficients.is_sound();
        while let Some((place, factor)) = self.eliminate_next(sums) {
            // Modulo a number that is no prime, the factor may be 0.
            if factor > 0 {
                coefficients.push(place, factor)?;
            }
        }
        Ok(())
    }

    // Takes all sums at pivots away.
    pub(crate) fn eliminate_all(&self, sums: &mut Accumulator)
        requires sums { AreColumnSums self.now sums.old }
        ensures sums { AreColumnSums self.now sums.new }
        ensures zero { IsEliminated self.now sums.new.row }
        ensures some { (coefficients : List ℕ)
            × IsEliminating self.now sums.old.row sums.new.row coefficients }
    {
        // The call's contract tells the range of the modulus.
        self.rows.is_sound();
        while self.eliminate_next(sums).is_some() {}
    }

    // Takes all sums at pivots away, and answers how many entries of pivot rows were met.
    pub(crate) fn count_walk(&self, sums: &mut Accumulator) -> u64
        requires sums { AreColumnSums self.now sums.old }
        ensures sums { AreColumnSums self.now sums.new }
    {
        let mut met: u64 = 0;
        while let Some((place, _)) = self.eliminate_next(sums) {
            met = met.saturating_add(self.rows.cols(place).len() as u64);
        }
        met
    }
}

// How many entries the rows of the pairs have.
fn count_entries(rows: &Rows, pairs: &[Pair]) -> usize
    requires inside { (k : ℕ) → k < length pairs.now → row_at pairs.now k < rows.now.matrix.height }
{
    let mut count: usize = 0;
    for k in 0..pairs.len() {
        count = count.saturating_add(rows.cols(pairs[k].row).len());
    }
    count
}

// The rows of the pairs, with their columns in this order.
fn place_rows(
    alloc: Global,
    rows: &Rows,
    pairs: &[Pair],
    order: &ColumnOrder,
) -> Result<Rows, AllocError>
    requires few { length pairs.now ≤ LARGEST_SIZE }
    requires inside { (k : ℕ) → k < length pairs.now → row_at pairs.now k < rows.now.matrix.height }
    requires distinct { HaveDistinctColumns order.now }
    ensures modulus { IfOk result (λ placed. placed.modulus ≡ rows.now.modulus) }
    ensures matrix { IfOk result (λ placed. placed.matrix ≡ rows_on rows.now.matrix order.now pairs.now) }
{
    let modulus = rows.modulus();
    let width = order.columns().len() as u32;
    let entries = count_entries(rows, pairs);
    let mut placed = Rows::with_room(alloc, modulus, width, pairs.len() as u32, entries)?;
    let mut room = RowRoom::new(alloc);
    for k in 0..pairs.len() {
        room.append_row(rows, pairs[k].row, order, &mut placed)?;
    }
    Ok(placed)
}

// The inverses of the diagonal.
fn invert_pivots(alloc: Global, placed: &Rows) -> Result<Vec<u64>, AllocError>
    requires { AreUpper placed.now.matrix }
    ensures { IfOk result (λ inverses. AreInverses placed.now inverses.items) }
{
    let modulus = placed.modulus();
    let mut inverses = Vec::with_capacity(alloc, placed.height() as usize)?;
    for k in 0..placed.height() {
        inverses.push(modulus.inv(placed.vals(k)[0]))?;
    }
    Ok(inverses)
}
