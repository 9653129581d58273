// Rows that are appended between questions.
ghost use Rattle.std.specs.Prelude.{◌≡◌, ◌≤◌, ◌↔◌, true, length, None, IfOk, IfSome, OnErr, OnOk};
ghost use Rattle.residue_words.specs.Matrix.{IsCombination};
ghost use Rattle.residue_words.specs.Residues.{IsPrime};
ghost use Rattle.row_space.specs.Echelon.{HasRank};
ghost use Rattle.sparse_rows.specs.Stored.{IsSparse, spread};
ghost use Rattle.sparse_rows.specs.Rows.{LARGEST_SIZE};
ghost use Rattle.lead_rows.specs.Accumulator.{IsClear};
ghost use Rattle.grow_form.specs.Growing.{AppendsRow, AreRowsOfForm, SpansRowsOf, without_rows};
ghost use Rattle.grow_form.specs.Numbering.{AreKeptByNumbers, HasRoomFor, HaveCome, seen_matrix, seen_rows};

use crate::numbering::Numbering;
use crate::reduced_form::{rows_at_columns, settled_rows};
use crew::Alone;
use echelon_form::Echelon;
use lead_rows::{Accumulator, Leads};
use residue_words::Modulus;
use sparse_rows::Rows;
use std::alloc::{AllocError, Global};
use std::marker::Model;
use std::mem::replace;

// There is room for so many columns at least.
const LEAST_ROOM: u64 = 256;

/// The row space of rows that are appended one after another. Contracts see the modulus and independent rows that span it;
/// what is asked of it, its rank, its reduced echelon form and the rows in it, are the same whichever rows these are.
///
/// Rows are kept by their leads, each at that of its columns which came last, so that a new row meets few of
/// them; they are settled only if the form is asked for.
///
/// A column takes memory only once a row with an entry there comes: about 60 bytes, and 20 more if a row was asked for. The
/// kept rows take at most 24 bytes an entry and about 90 bytes a row, and are copied whenever columns are twice as many as before.
#[derive(Debug, Drop)]
pub struct Grow {
    alloc: Global,
    // The kept rows, by the numbers of the columns.
    kept: Leads,
    numbering: Numbering,
    // The zero row, for sums by these numbers; it is made when a row is asked for.
    sums: Option<Accumulator>,
}

impl Model for Grow {
    ghost use Rattle.std.specs.Prelude.{IfSome};
    ghost use Rattle.sparse_rows.specs.Rows.{ResidueMatrix};
    ghost use Rattle.lead_rows.specs.Accumulator.{IsClear};
    ghost use Rattle.grow_form.specs.Numbering.{AreKeptByNumbers, seen_rows};

    ghost Value = { ResidueMatrix };

    ghost view = { λ g. seen_rows g.kept g.numbering };

    ghost invariant = { λ g. AreKeptByNumbers g.kept g.numbering
        × IfSome g.sums (IsClear g.kept.modulus g.kept.matrix.width) };
}

impl Grow {
    /// No row of n entries, where n is at most `LARGEST_SIZE`. It takes some kilobytes, however many columns there are.
    pub fn new(alloc: Global, n: u32, p: &Modulus) -> Result<Grow, AllocError>
        requires { n ≤ LARGEST_SIZE }
        ensures { IfOk result (λ grow. grow ≡ without_rows p.now n) }
    {
        Grow::with_room(alloc, n, p, 0)
    }

    // The same with room for so many columns that come.
    fn with_room(alloc: Global, n: u32, p: &Modulus, columns: u64) -> Result<Grow, AllocError>
        requires { n ≤ LARGEST_SIZE }
        ensures { IfOk result (λ grow. grow ≡ without_rows p.now n) }
    {
        let room = columns.max(LEAST_ROOM).min(u64::from(n)) as u32;
        Ok(Grow {
            alloc,
            kept: Leads::new(alloc, room, p)?,
            numbering: Numbering::new(alloc, n, room),
            sums: None,
        })
    }

    /// The rows of a matrix, appended one after another, where rows without an entry cost nothing.
    pub fn of(alloc: Global, rows: &Rows) -> Result<Grow, AllocError>
        ensures { IfOk result (SpansRowsOf rows.now) }
    {
        let mut grow = Grow::with_room(alloc, rows.width(), &rows.modulus(), rows.entries())?;
        // The call tells how high a matrix is: the next row's number is no overflow.
        rows.is_sound();
        let mut from = 0;
        while let Some(i) = rows.next_filled(from) {
            grow.append(rows.cols(i), rows.vals(i))?;
            from = i + 1;
        }
        Ok(grow)
    }

    /// Appends the row that stands in these columns and values, and answers whether the rank rose: false exactly where the row
    /// is a combination of those before. Where memory is wanted nothing changes.
    ///
    /// The time is that of the entries of the kept rows that are used, and a step for each 4096 columns.
    pub fn append(&mut self, cols: &[u32], vals: &[u64]) -> Result<bool, AllocError>
        requires { IsSparse self.old.modulus self.old.matrix.width cols.now vals.now }
        ensures ok { IfOk result
            (AppendsRow self.old self.new (spread self.old.matrix.width cols.now vals.now)) }
        ensures err { OnErr result (self.new ≡ self.old) }
    {
        // The calls tell what the kept rows and the numbers promise before they change and after it.
        self.kept.is_sound();
        self.numbering.is_sound();
        make_room(
            self.alloc,
            &mut self.kept,
            &mut self.numbering,
            &mut self.sums,
            cols.len(),
        )?;
        self.kept.is_sound();
        self.numbering.is_sound();
        self.numbering.note(cols)?;
        insert_row(self.alloc, &mut self.kept, &self.numbering, cols, vals)
    }

    /// Whether the row that stands in these columns and values is a combination of the rows. The time is that of the entries
    /// of the kept rows that are used, and a step for each 4096 columns; the first such call takes memory for the columns.
    pub fn contains(&mut self, cols: &[u32], vals: &[u64]) -> Result<bool, AllocError>
        requires { IsSparse self.old.modulus self.old.matrix.width cols.now vals.now }
        ensures same { self.new ≡ self.old }
        ensures found { IfOk result (λ found. (found ≡ true) ↔
            IsCombination self.old.modulus self.old.matrix (spread self.old.matrix.width cols.now vals.now)) }
    {
        // The calls tell what the kept rows and the numbers promise.
        self.kept.is_sound();
        self.numbering.is_sound();
        if !self.numbering.have_come(cols) {
            return Ok(false);
        }
        let mut sums = taken(self.alloc, &self.kept, &mut self.sums)?;
        let found = is_combination(
            self.alloc,
            &self.kept,
            &self.numbering,
            cols,
            vals,
            &mut sums,
        );
        self.sums = Some(sums);
        found
    }

    /// The reduced echelon form of the rows: for a prime modulus the one form of all rows that were appended. The
    /// kept rows are settled, eliminated anew in the order of the columns and settled again, in the time of the
    /// entries that this makes.
    pub fn form(&self) -> Result<Rows, AllocError>
        ensures { IfOk result (AreRowsOfForm self.now) }
    {
        // The call tells what the numbers promise.
        self.numbering.is_sound();
        let settled = settled_rows(self.alloc, &self.kept)?;
        let rows = rows_at_columns(self.alloc, &self.kept, &settled, &self.numbering)?;
        Ok(Echelon::made_by(&Alone, self.alloc, &rows, 1)?.into_rows())
    }

    /// How many rows the form has, for a prime modulus the rank of the rows. It takes no memory.
    pub fn rank(&self) -> u32
        ensures value { result ≡ self.now.matrix.height }
        ensures bound { result ≤ self.now.matrix.width }
        ensures rank { IsPrime self.now.modulus → HasRank self.now.modulus self.now.matrix result }
    {
        // The laws' contracts: there is an echelon form, and independent rows of one space are as many.
        row_space::rref_exists();
        row_space::span_fixes_height();
        // The call tells what the numbers promise.
        self.numbering.is_sound();
        self.kept.height()
    }
}

// Makes room for so many columns more that may come. If there were too few numbers, the rows are copied behind zeros, and the
// row for sums is given up.
fn make_room(
    alloc: Global,
    kept: &mut Leads,
    numbering: &mut Numbering,
    sums: &mut Option<Accumulator>,
    count: usize,
) -> Result<(), AllocError>
    requires by_numbers { AreKeptByNumbers kept.old numbering.old }
    requires clear { IfSome sums.old (IsClear kept.old.modulus kept.old.matrix.width) }
    ensures by_numbers { AreKeptByNumbers kept.new numbering.new }
    ensures clear { IfSome sums.new (IsClear kept.new.modulus kept.new.matrix.width) }
    ensures seen { seen_rows kept.new numbering.new ≡ seen_rows kept.old numbering.old }
    ensures room { OnOk result (HasRoomFor numbering.new count) }
{
    // The calls tell what the kept rows and the numbers promise.
    kept.is_sound();
    numbering.is_sound();
    if let Some(more) = numbering.lacking(count) {
        *kept = kept.behind_zeros(alloc, more)?;
        numbering.add_numbers(more);
        *sums = None;
    }
    Ok(())
}

// Appends a row whose columns have come, and answers whether the rank rose. Where memory is wanted nothing changes.
fn insert_row(
    alloc: Global,
    kept: &mut Leads,
    numbering: &Numbering,
    cols: &[u32],
    vals: &[u64],
) -> Result<bool, AllocError>
    requires by_numbers { AreKeptByNumbers kept.old numbering.now }
    requires sparse { IsSparse kept.old.modulus (length numbering.now.arrivals) cols.now vals.now }
    requires come { HaveCome numbering.now cols.now }
    ensures by_numbers { AreKeptByNumbers kept.new numbering.now }
    ensures modulus { kept.new.modulus ≡ kept.old.modulus }
    ensures width { kept.new.matrix.width ≡ kept.old.matrix.width }
    ensures ok { IfOk result (AppendsRow (seen_rows kept.old numbering.now)
        (seen_rows kept.new numbering.now)
        (spread (length numbering.now.arrivals) cols.now vals.now)) }
    ensures err { OnErr result (kept.new ≡ kept.old) }
{
    // The calls tell what the kept rows and the numbers promise.
    kept.is_sound();
    numbering.is_sound();
    let p = kept.modulus();
    let row = numbering.row_by_numbers(alloc, cols, vals, &p)?;
    // The call tells that the entries are residues.
    row.is_sound();
    let lead = kept.insert(row.cols(0), row.vals(0))?;
    kept.is_sound();
    Ok(lead.is_some())
}

// Whether a row whose columns have come is a combination of the kept rows.
fn is_combination(
    alloc: Global,
    kept: &Leads,
    numbering: &Numbering,
    cols: &[u32],
    vals: &[u64],
    sums: &mut Accumulator,
) -> Result<bool, AllocError>
    requires by_numbers { AreKeptByNumbers kept.now numbering.now }
    requires sparse { IsSparse kept.now.modulus (length numbering.now.arrivals) cols.now vals.now }
    requires come { HaveCome numbering.now cols.now }
    requires clear { IsClear kept.now.modulus kept.now.matrix.width sums.old }
    ensures clear { sums.new ≡ sums.old }
    ensures found { IfOk result (λ found. (found ≡ true) ↔ IsCombination kept.now.modulus
        (seen_matrix numbering.now kept.now.matrix)
        (spread (length numbering.now.arrivals) cols.now vals.now)) }
{
    // The calls tell what the kept rows and the numbers promise.
    kept.is_sound();
    numbering.is_sound();
    let p = kept.modulus();
    let row = numbering.row_by_numbers(alloc, cols, vals, &p)?;
    // The call tells that the entries are residues.
    row.is_sound();
    let rest = kept.rest_with(alloc, row.cols(0), row.vals(0), sums)?;
    Ok(rest.cols().is_empty())
}

// The zero row for sums, as long as these rows: the one that is there, or a new one.
fn taken(
    alloc: Global,
    kept: &Leads,
    sums: &mut Option<Accumulator>,
) -> Result<Accumulator, AllocError>
    requires { IfSome sums.old (IsClear kept.now.modulus kept.now.matrix.width) }
    ensures clear { IfOk result (IsClear kept.now.modulus kept.now.matrix.width) }
    ensures none { sums.new ≡ None }
{
    match replace(sums, None) {
        Some(sums) => Ok(sums),
        None => Accumulator::new(alloc, kept.width(), &kept.modulus()),
    }
}
