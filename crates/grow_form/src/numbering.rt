// Columns that get numbers as they come.
ghost use Rattle.std.specs.Prelude.{◌≡◌, ◌≢◌, ◌<◌, ◌≤◌, ◌+◌, ◌↔◌, true, length, slice_index, IfOk, IfNone, IfSome, OnOk};
ghost use Rattle.sparse_rows.specs.Rows.{AreBelow, LARGEST_SIZE};
ghost use Rattle.sparse_rows.specs.Stored.{IsSparse};
ghost use Rattle.grow_form.specs.Numbering.{AreUsed, ComesBehind, HasRoomFor, HaveCome, IsNumbering};
ghost use Rattle.grow_form.specs.Numbering.{IsRowAtColumns, IsRowByNumbers, no_columns, number_of, with_numbers};

use indexmap::IndexSet;
use residue_words::Modulus;
use sparse_rows::Rows;
use std::alloc::{AllocError, Global};
use std::marker::Model;

// Of r numbers the column that comes first has r - 1, the next one r - 2, and so on. It takes about 30 bytes for each column
// that has come, and nothing for the others.
#[derive(Debug, Drop)]
pub(crate) struct Numbering {
    // How many columns there are.
    width: u32,
    // How many numbers there are.
    room: u32,
    // The columns that have come, in the order in which they came.
    columns: IndexSet<u32>,
}

impl Model for Numbering {
    ghost use Rattle.grow_form.specs.Numbering.{IsNumbering, NumberedColumns, numbered};

    ghost Value = { NumberedColumns };

    ghost view = { λ n. numbered n.width n.room n.columns.keys };

    ghost invariant = { λ n. IsNumbering (numbered n.width n.room n.columns.keys) };
}

impl Numbering {
    // None of n columns has come.
    pub(crate) fn new(alloc: Global, n: u32, room: u32) -> Numbering
        requires small { n ≤ LARGEST_SIZE }
        requires room { room ≤ n }
        ensures { result ≡ no_columns n room }
    {
        Numbering {
            width: n,
            room,
            columns: IndexSet::new(alloc),
        }
    }

    // The law of the numbers, for proofs: it does nothing.
    #[inline(always)]
    pub(crate) fn is_sound(&self)
        ensures { IsNumbering self.now }
    {
        self.width();
    }

    // How many columns there are, whether they have come or not.
    pub(crate) fn width(&self) -> u32
        ensures value { result ≡ length self.now.arrivals }
        ensures sound { IsNumbering self.now }
    {
        self.width
    }

    // How many numbers to add so that this many columns can come, if there are too few.
    pub(crate) fn lacking(&self, count: usize) -> Option<u32>
        ensures none { IfNone result (HasRoomFor self.now count) }
        ensures some { IfSome result (λ more. HasRoomFor (with_numbers self.now more) count) }
        ensures within { IfSome result (λ more. more + self.now.room ≤ length self.now.arrivals) }
    {
        let wanted = self
            .columns
            .len()
            .saturating_add(count)
            .min(self.width as usize);
        if wanted <= self.room as usize {
            return None;
        }
        // At least twice as many, so that rows are seldom copied.
        let room = wanted.max(2 * self.room as usize).min(self.width as usize);
        Some(room as u32 - self.room)
    }

    // Adds so many numbers: each column's number becomes so much higher.
    pub(crate) fn add_numbers(&mut self, more: u32)
        requires { more + self.old.room ≤ length self.old.arrivals }
        ensures { self.new ≡ with_numbers self.old more }
    {
        self.room += more;
    }

    // Lets those of these columns come that haven't. If memory is refused, some of them have come.
    pub(crate) fn note(&mut self, cols: &[u32]) -> Result<(), AllocError>
        requires below { AreBelow (length self.old.arrivals) cols.now }
        requires room { HasRoomFor self.old (length cols.now) }
        ensures behind { ComesBehind self.old self.new }
        ensures come { OnOk result (HaveCome self.new cols.now) }
    {
        for k in 0..cols.len() {
            self.note_column(cols[k])?;
        }
        Ok(())
    }

    // Lets a column come, if it hasn't.
    fn note_column(&mut self, c: u32) -> Result<(), AllocError>
        requires below { c < length self.old.arrivals }
        requires room { HasRoomFor self.old 1 }
        ensures behind { ComesBehind self.old self.new }
        ensures come { OnOk result (slice_index self.new.arrivals c ≢ 0) }
        ensures few { self.new.count ≤ self.old.count + 1 }
    {
        self.columns.insert(c)?;
        Ok(())
    }

    // Whether all of these columns have come.
    pub(crate) fn have_come(&self, cols: &[u32]) -> bool
        requires { AreBelow (length self.now.arrivals) cols.now }
        ensures { (result ≡ true) ↔ HaveCome self.now cols.now }
    {
        for k in 0..cols.len() {
            if !self.columns.contains(&cols[k]) {
                return false;
            }
        }
        true
    }

    // The row of these columns and values by the numbers of the columns.
    pub(crate) fn row_by_numbers(
        &self,
        alloc: Global,
        cols: &[u32],
        vals: &[u64],
        p: &Modulus,
    ) -> Result<Rows, AllocError>
        requires sparse { IsSparse p.now (length self.now.arrivals) cols.now vals.now }
        requires come { HaveCome self.now cols.now }
        ensures { IfOk result (IsRowByNumbers self.now p.now cols.now vals.now) }
    {
        // The call tells the range of the modulus.
        p.is_sound();
        let mut triples = Vec::with_capacity(alloc, cols.len())?;
        for k in 0..cols.len() {
            triples.push((0, self.number(cols[k]), vals[k]))?;
        }
        let row = Rows::from_triples(alloc, 1, self.room, p, &triples)?;
        Ok(row)
    }

    // The number of a column that has come.
    fn number(&self, c: u32) -> u32
        requires below { c < length self.now.arrivals }
        requires come { slice_index self.now.arrivals c ≢ 0 }
        ensures { result ≡ number_of self.now c }
    {
        match self.columns.get_index_of(&c) {
            Some(place) => self.room - 1 - place as u32,
            // No column that has come is without a place.
            None => self.room,
        }
    }

    // The row of these numbers and values, moved to the columns.
    pub(crate) fn row_at_columns(
        &self,
        alloc: Global,
        numbers: &[u32],
        vals: &[u64],
        p: &Modulus,
    ) -> Result<Rows, AllocError>
        requires sparse { IsSparse p.now self.now.room numbers.now vals.now }
        requires used { AreUsed self.now numbers.now }
        ensures { IfOk result (IsRowAtColumns self.now p.now numbers.now vals.now) }
    {
        // The call tells the range of the modulus.
        p.is_sound();
        let columns = self.columns.as_slice();
        let mut triples = Vec::with_capacity(alloc, numbers.len())?;
        for k in 0..numbers.len() {
            let place = self.room - 1 - numbers[k];
            triples.push((0, columns[place as usize], vals[k]))?;
        }
        let row = Rows::from_triples(alloc, 1, self.width, p, &triples)?;
        Ok(row)
    }
}
