// Pivot rows from which all other pivots were taken away.
ghost use Rattle.std.specs.Prelude.{◌≡◌, ◌<◌, ◌≤◌, ◌+◌, ◌-◌, ◌%◌, ℕ, true, length, slice_index, IfOk, IfSome, OnOk};
ghost use Rattle.residue_words.specs.Matrix.{row, zeros};
ghost use Rattle.sparse_rows.specs.Rows.{AreBelow};
ghost use Rattle.sparse_rows.specs.Stored.{IsSparse, spread};
ghost use Rattle.lead_rows.specs.Accumulator.{IsAlike, IsClear};
ghost use Rattle.triangular_solve.specs.FlatRows.{AreAllFlat, AreFlat, IsFlatTail, IsFlatRest, IsTakenRow, TakesIn};
ghost use Rattle.triangular_solve.specs.PivotRows.{IsRoomFor};
ghost use Rattle.lead_rows.specs.Scattered.{IsScattered};

use crate::pivot_rows::PivotRows;
use crate::row_entries::RowEntries;
use crate::scattered_rows::ScatteredRows;
use lead_rows::{Accumulator, TouchedSums};
use sparse_rows::Sparse;
use std::alloc::{AllocError, Global};

// Room for so many times the entries of the pivot rows is asked for at once, so that flat rows aren't moved as they become more. What
// is never written costs nothing.
const ROOM: u64 = 16;

// But room for more entries than these isn't asked for at once: 192 MB.
const MOST_ROOM: u64 = 1 << 24;

// Pivot rows less multiples of those behind them and divided by their pivots, so that each is 1 at its own pivot and 0 at all others.
// A row is reduced by them in one pass over its own entries. It takes 12 bytes an entry and 8 bytes a pivot.
#[derive(Debug, Drop)]
pub(crate) struct FlatRows {
    // How many pivots there are.
    count: u32,
    // The rows from the last pivot back, each without its 1, on the columns of the pivot rows.
    tails: ScatteredRows,
}

impl FlatRows {
    // The flat rows of all pivots; None once they have more than so many entries. The time is that of the entries that are made,
    // times those of a pivot row.
    pub(crate) fn of(
        alloc: Global,
        pivots: &PivotRows,
        most: u64,
    ) -> Result<Option<FlatRows>, AllocError>
        ensures { IfOk result (λ r. IfSome r (AreAllFlat pivots.now)) }
    {
        let mut flat = FlatRows::none(alloc, pivots, most)?;
        if flat.append_all(alloc, pivots, most)? {
            Ok(Some(flat))
        } else {
            Ok(None)
        }
    }

    // No flat row, and room for those of all pivots, which are to have no more than so many entries.
    fn none(alloc: Global, pivots: &PivotRows, most: u64) -> Result<FlatRows, AllocError>
        ensures flat { IfOk result (AreFlat pivots.now) }
        ensures height { IfOk result (λ flat. flat.tails.matrix.height ≡ 0) }
    {
        let rows = pivots.rows();
        let count = rows.height();
        let room = rows.entries().saturating_mul(ROOM).min(most).min(MOST_ROOM) as usize;
        let tails = ScatteredRows::with_room(alloc, rows.modulus(), rows.width(), count, room)?;
        Ok(FlatRows { count, tails })
    }

    // Appends the flat rows of all pivots, unless they have more than so many entries. The answer is whether all are there.
    fn append_all(
        &mut self,
        alloc: Global,
        pivots: &PivotRows,
        most: u64,
    ) -> Result<bool, AllocError>
        requires flat { AreFlat pivots.now self.old }
        requires none { self.old.tails.matrix.height ≡ 0 }
        ensures { IfOk result (λ all. all ≡ true → AreAllFlat pivots.now self.new) }
    {
        let rows = pivots.rows();
        let mut sums = TouchedSums::new(alloc, rows.width(), rows.modulus())?;
        for k in 0..self.count {
            if self.tails.entries() > most {
                return Ok(false);
            }
            self.append_row(pivots, self.count - 1 - k, &mut sums)?;
        }
        Ok(true)
    }

    // Appends the flat row of the pivot at a place, whose followers are there. The sums are room for it.
    fn append_row(
        &mut self,
        pivots: &PivotRows,
        place: u32,
        sums: &mut TouchedSums,
    ) -> Result<(), AllocError>
        requires flat { AreFlat pivots.now self.old }
        requires next { self.old.tails.matrix.height + (place + 1) ≡ self.old.count }
        requires clear { IsClear pivots.now.rows.modulus (length pivots.now.columns) sums.old }
        ensures flat { OnOk result (AreFlat pivots.now self.new) }
        ensures height { OnOk result (self.new.tails.matrix.height ≡ self.old.tails.matrix.height + 1) }
        ensures count { self.new.count ≡ self.old.count }
        ensures clear { OnOk result (IsClear pivots.now.rows.modulus (length pivots.now.columns) sums.new) }
    {
        // The call's contract tells that the flat rows are residues.
        self.tails.is_sound();
        self.flatten(pivots, place, sums)?;
        self.tails.append_sums(sums)?;
        Ok(())
    }

    // Makes sums that are 0 the flat row of the pivot at a place but for its 1.
    fn flatten(
        &self,
        pivots: &PivotRows,
        place: u32,
        sums: &mut TouchedSums,
    ) -> Result<(), AllocError>
        requires flat { AreFlat pivots.now self.now }
        requires next { self.now.tails.matrix.height + (place + 1) ≡ self.now.count }
        requires clear { IsClear pivots.now.rows.modulus (length pivots.now.columns) sums.old }
        ensures sums { OnOk result (IsAlike sums.old sums.new) }
        ensures tail { OnOk result (IsFlatTail pivots.now place sums.new.row) }
    {
        // The call's contract tells that the flat rows are residues.
        self.tails.is_sound();
        let rows = pivots.rows();
        let modulus = rows.modulus();
        let inverse = pivots.inverse(place);
        // The first entry is the pivot.
        let cols = &rows.cols(place)[1..];
        let vals = &rows.vals(place)[1..];
        for k in 0..cols.len() {
            self.come_in(cols[k], modulus.mul(inverse, vals[k]), sums)?;
        }
        Ok(())
    }

    // Adds a value at a place to the sums of which a flat row is made, as `take_in` does.
    fn come_in(&self, place: u32, value: u64, sums: &mut TouchedSums) -> Result<(), AllocError>
        requires place { place < length sums.old.row }
        requires value { value < sums.old.modulus }
        requires modulus { self.now.tails.modulus ≡ sums.old.modulus }
        requires width { self.now.tails.matrix.width ≡ length sums.old.row }
        requires flat { self.now.count ≤ self.now.tails.matrix.height + place }
        ensures { OnOk result (TakesIn self.now place value sums.old sums.new) }
    {
        if place >= self.count {
            sums.add(place, value)?;
            return Ok(());
        }
        let (by, cols, vals) = self.taking_away(place, value);
        sums.add_multiple(by, cols, vals)?;
        Ok(())
    }

    // Adds a value at a place to the sums; where a pivot stands there, what its flat row leaves of it.
    fn take_in(&self, place: u32, value: u64, sums: &mut Accumulator)
        requires place { place < length sums.old.row }
        requires value { value < sums.old.modulus }
        requires modulus { self.now.tails.modulus ≡ sums.old.modulus }
        requires width { self.now.tails.matrix.width ≡ length sums.old.row }
        requires flat { self.now.count ≤ self.now.tails.matrix.height + place }
        ensures { TakesIn self.now place value sums.old sums.new }
    {
        if place >= self.count {
            sums.add(place, value);
            return;
        }
        let (by, cols, vals) = self.taking_away(place, value);
        sums.add_scattered(by, cols, vals);
    }

    // What takes a value at a pivot away: the factor of its flat row, and the columns and values of this row but for its 1.
    fn taking_away(&self, place: u32, value: u64) -> (u64, &[u32], &[u64])
        requires place { place < self.now.count }
        requires flat { self.now.count ≤ self.now.tails.matrix.height + place }
        requires value { value < self.now.tails.modulus }
        ensures factor { result.0 ≡ (self.now.tails.modulus - value) % self.now.tails.modulus }
        ensures residue { result.0 < self.now.tails.modulus }
        ensures scattered { IsScattered self.now.tails.modulus self.now.tails.matrix.width
            result.1.now result.2.now }
        ensures row { row self.now.tails.matrix (self.now.count - (place + 1))
            ≡ spread self.now.tails.matrix.width result.1.now result.2.now }
    {
        let (cols, vals) = self.tails.row(self.count - (place + 1));
        (self.tails.modulus().neg(value), cols, vals)
    }

    // Makes a zero row what the pivots leave of a row. What is left behind in the room is
    // to be cleared.
    pub(crate) fn rest_by(
        &self,
        pivots: &PivotRows,
        row: RowEntries<'_>,
        sums: &mut Accumulator,
        passed: &mut Sparse,
        rest: &mut Sparse,
    ) -> Result<(), AllocError>
        requires flat { AreAllFlat pivots.now self.now }
        requires row { IsSparse pivots.now.rows.modulus (length passed.old.row) row.cols.now row.vals.now }
        requires room { IsRoomFor pivots.now sums.old passed.old }
        requires below { AreBelow (length passed.old.row) pivots.now.columns }
        requires rest { rest.old
            ≡ record { modulus = passed.old.modulus; row = zeros (length passed.old.row) } }
        ensures sums { IsAlike sums.old sums.new }
        ensures passed { IsAlike passed.old passed.new }
        ensures rest { IsAlike rest.old rest.new }
        ensures left { OnOk result (IsFlatRest pivots.now
            (spread (length passed.old.row) row.entry.cols.now row.entry.vals.now)
            rest.new.row) }
    {
        self.take_row(pivots, row, sums, passed)?;
        pivots.order().join(sums, passed, rest)?;
        // The call's contract tells that the rest holds residues.
        rest.is_sound();
        Ok(())
    }

    // Splits a row: its entries in the columns of the pivot rows are taken in, the others
    // stay entries of a row.
    fn take_row(
        &self,
        pivots: &PivotRows,
        row: RowEntries<'_>,
        sums: &mut Accumulator,
        passed: &mut Sparse,
    ) -> Result<(), AllocError>
        requires flat { AreAllFlat pivots.now self.now }
        requires row { IsSparse pivots.now.rows.modulus (length passed.old.row) row.cols.now row.vals.now }
        requires room { IsRoomFor pivots.now sums.old passed.old }
        requires below { AreBelow (length passed.old.row) pivots.now.columns }
        ensures sums { IsAlike sums.old sums.new }
        ensures passed { IsAlike passed.old passed.new }
        ensures taken { OnOk result (IsTakenRow pivots.now
            (spread (length passed.old.row) row.entry.cols.now row.entry.vals.now)
            sums.new.row passed.new.row) }
    {
        // The calls' contracts tell the range of the modulus, and that the flat rows are residues.
        passed.is_sound();
        self.tails.is_sound();
        let order = pivots.order();
        let RowEntries { cols, vals } = row;
        for k in 0..cols.len() {
            match order.find(cols[k]) {
                Some(place) => self.take_in(place, vals[k], sums),
                None => passed.push(cols[k], vals[k])?,
            }
        }
        Ok(())
    }
}
