// The rows that are kept, and how a row is reduced by them.
ghost use Rattle.std.specs.Prelude.{◌≡◌, ◌<◌, ◌≤◌, ◌+◌, length, slice_index, IfOk, OnOk, OnErr};
ghost use Rattle.residue_words.specs.Matrix.{IsVector};
ghost use Rattle.sparse_rows.specs.ColumnSet.{AllZero};
ghost use Rattle.sparse_rows.specs.Stored.{IsSparse, spread};
ghost use Rattle.sparse_rows.specs.Rows.{LARGEST_SIZE};
ghost use Rattle.lead_rows.specs.Accumulator.{IsClear};
ghost use Rattle.lead_rows.specs.Leads.{Inserts, IsRest, IsSettled, IsSound, behind_zeros, no_rows, spread_in};
ghost use Rattle.lead_rows.specs.Led.{CanTake, Drains, Extends, IsKept, IsLed, IsNewLead, IsZeroAtLeads};
ghost use Rattle.lead_rows.specs.Led.{spread_row, with_led};

use crate::accumulator::Accumulator;
use crate::led::Led;
use residue_words::Modulus;
use sparse_rows::Sparse;
use std::alloc::{AllocError, Global};
use std::marker::Model;

// Stands at each column where no row leads.
const NONE: u32 = u32::MAX;

/// Rows with distinct leads: the first nonzero entry of each stands at its lead, and is 1. Contracts see the modulus, the
/// matrix of the rows and the list of their leads.
///
/// It takes at most 24 bytes an entry, about 90 bytes a row, and 12 bytes a column.
#[derive(Debug, Drop)]
pub struct Leads {
    alloc: Global,
    modulus: Modulus,
    width: u32,
    // The rows in the order in which they came.
    rows: Vec<Led>,
    // For each column the number of the row that leads there.
    row_at: Vec<u32>,
    accumulator: Accumulator,
}

impl Model for Leads {
    ghost use Rattle.lead_rows.specs.Leads.{KeptRows};
    ghost use Rattle.lead_rows.specs.Led.{AreParts, kept_rows};

    ghost Value = { KeptRows };

    ghost view = { λ l. kept_rows l.modulus l.width l.rows.items };

    ghost invariant = { λ l. AreParts l.modulus l.width l.rows.items l.row_at.items l.accumulator };
}

impl Leads {
    /// No row of n entries. The memory is that of the columns.
    pub fn new(alloc: Global, n: u32, p: &Modulus) -> Result<Leads, AllocError>
        requires { n ≤ LARGEST_SIZE }
        ensures { IfOk result (λ kept. kept ≡ no_rows p.now n) }
    {
        // The call's contract tells the range of the modulus.
        p.is_sound();
        Ok(Leads {
            alloc,
            modulus: *p,
            width: n,
            rows: Vec::new(alloc),
            row_at: vec![in alloc; NONE; n as usize]?,
            accumulator: Accumulator::new(alloc, n, p)?,
        })
    }

    /// The law of its rows, for proofs: it does nothing.
    #[inline(always)]
    pub fn is_sound(&self)
        ensures few { self.now.matrix.height ≤ self.now.matrix.width }
        ensures rows { IsSound self.now }
    {
        self.height();
    }

    /// How many rows are kept, which is at most the width.
    pub fn height(&self) -> u32
        ensures value { result ≡ self.now.matrix.height }
        ensures bound { result ≤ self.now.matrix.width }
        ensures sound { IsSound self.now }
    {
        self.rows.len() as u32
    }

    /// The lead of row k.
    pub fn lead(&self, k: u32) -> u32
        requires { k < self.now.matrix.height }
        ensures { result ≡ slice_index self.now.leads k }
    {
        self.rows[k as usize].lead
    }

    /// How many entries a row has, zeros too.
    pub fn width(&self) -> u32
        ensures { result ≡ self.now.matrix.width }
    {
        self.width
    }

    /// The modulus of the rows.
    pub fn modulus(&self) -> Modulus
        ensures { result ≡ self.now.modulus }
    {
        self.modulus
    }

    /// What the kept rows leave of the row that stands in these columns and values: it is 0 at every lead, and the zero row
    /// exactly where the row is a combination of them.
    ///
    /// The time is that of the entries of the kept rows that are used, and a step for each 4096 columns; the accumulator is
    /// made for this call.
    pub fn rest(&self, alloc: Global, cols: &[u32], vals: &[u64]) -> Result<Sparse, AllocError>
        requires { IsSparse self.now.modulus self.now.matrix.width cols.now vals.now }
        ensures modulus { IfOk result (λ s. s.modulus ≡ self.now.modulus) }
        ensures rest { IfOk result (λ s. IsRest self.now (spread_in self.now cols.now vals.now) s.row) }
    {
        let mut accumulator = Accumulator::new(alloc, self.width, &self.modulus)?;
        self.rest_with(alloc, cols, vals, &mut accumulator)
    }

    /// `rest` with an accumulator that serves many calls.
    pub fn rest_with(
        &self,
        alloc: Global,
        cols: &[u32],
        vals: &[u64],
        accumulator: &mut Accumulator,
    ) -> Result<Sparse, AllocError>
        requires sparse { IsSparse self.now.modulus self.now.matrix.width cols.now vals.now }
        requires clear { IsClear self.now.modulus self.now.matrix.width accumulator.old }
        ensures clear { accumulator.new ≡ accumulator.old }
        ensures modulus { IfOk result (λ s. s.modulus ≡ self.now.modulus) }
        ensures rest { IfOk result (λ s. IsRest self.now (spread_in self.now cols.now vals.now) s.row) }
    {
        let mut rest = Sparse::new(alloc, self.width, self.modulus);
        reduce(&self.rows, &self.row_at, cols, vals, accumulator, &mut rest)?;
        Ok(rest)
    }

    /// Keeps what is left of the row that stands in these columns and values, divided by its first entry, and answers the
    /// lead, the column of this entry; None where the row is a combination of the kept rows.
    ///
    /// For a prime modulus the row space is then that of the kept rows with this row.
    pub fn insert(&mut self, cols: &[u32], vals: &[u64]) -> Result<Option<u32>, AllocError>
        requires { IsSparse self.old.modulus self.old.matrix.width cols.now vals.now }
        ensures modulus { self.new.modulus ≡ self.old.modulus }
        ensures width { self.new.matrix.width ≡ self.old.matrix.width }
        ensures inserted { IfOk result (Inserts self.old self.new (spread_in self.old cols.now vals.now)) }
        ensures err { OnErr result (self.new ≡ self.old) }
    {
        let mut rest = Sparse::new(self.alloc, self.width, self.modulus);
        reduce(
            &self.rows,
            &self.row_at,
            cols,
            vals,
            &mut self.accumulator,
            &mut rest,
        )?;
        self.append(&rest)
    }

    /// The rows behind so many columns more, where they are 0: a copy.
    pub fn behind_zeros(&self, alloc: Global, count: u32) -> Result<Leads, AllocError>
        requires { count + self.now.matrix.width ≤ LARGEST_SIZE }
        ensures { IfOk result (λ kept. kept ≡ behind_zeros count self.now) }
    {
        let mut kept = Leads::new(alloc, count + self.width, &self.modulus)?;
        for k in 0..self.rows.len() {
            kept.keep(self.rows[k].behind_zeros(alloc, count)?)?;
        }
        Ok(kept)
    }

    /// Row k less a combination of the other rows, 0 at their leads. The accumulator is made for this call.
    pub fn settle(&self, alloc: Global, k: u32) -> Result<Sparse, AllocError>
        requires { k < self.now.matrix.height }
        ensures modulus { IfOk result (λ s. s.modulus ≡ self.now.modulus) }
        ensures settled { IfOk result (λ s. IsSettled self.now k s.row) }
    {
        let mut accumulator = Accumulator::new(alloc, self.width, &self.modulus)?;
        self.settle_with(alloc, k, &mut accumulator)
    }

    /// `settle` with an accumulator that serves many calls.
    pub fn settle_with(
        &self,
        alloc: Global,
        k: u32,
        accumulator: &mut Accumulator,
    ) -> Result<Sparse, AllocError>
        requires row { k < self.now.matrix.height }
        requires clear { IsClear self.now.modulus self.now.matrix.width accumulator.old }
        ensures clear { accumulator.new ≡ accumulator.old }
        ensures modulus { IfOk result (λ s. s.modulus ≡ self.now.modulus) }
        ensures settled { IfOk result (λ s. IsSettled self.now k s.row) }
    {
        let row = &self.rows[k as usize];
        let mut rest = Sparse::new(alloc, self.width, self.modulus);
        rest.push(row.lead, 1)?;
        reduce(
            &self.rows,
            &self.row_at,
            row.tail.cols(),
            row.tail.vals(),
            accumulator,
            &mut rest,
        )?;
        Ok(rest)
    }

    // Appends what is left of a row, divided by its first entry, and answers where that stands; None for the zero row.
    fn append(&mut self, rest: &Sparse) -> Result<Option<u32>, AllocError>
        requires modulus { rest.now.modulus ≡ self.old.modulus }
        requires residues { IsVector self.old.modulus self.old.matrix.width rest.now.row }
        requires zero_at_leads { IsZeroAtLeads self.old rest.now.row }
        ensures modulus { self.new.modulus ≡ self.old.modulus }
        ensures width { self.new.matrix.width ≡ self.old.matrix.width }
        ensures extends { IfOk result (Extends self.old self.new rest.now.row) }
        ensures err { OnErr result (self.new ≡ self.old) }
    {
        if rest.cols().is_empty() {
            return Ok(None);
        }
        let led = Led::divided(self.alloc, rest)?;
        let lead = led.lead;
        self.keep(led)?;
        Ok(Some(lead))
    }

    // Appends a row that leads where no other does.
    fn keep(&mut self, led: Led) -> Result<(), AllocError>
        requires led { IsLed self.old.modulus self.old.matrix.width led }
        requires alone { IsNewLead self.old led.lead }
        ensures ok { OnOk result (self.new ≡ with_led self.old led) }
        ensures err { OnErr result (self.new ≡ self.old) }
    {
        let lead = led.lead;
        let k = self.rows.len() as u32;
        self.rows.push(led)?;
        self.row_at[lead as usize] = k;
        Ok(())
    }
}

// Appends to `rest` what the rows leave of the sums, which may be changed by it.
fn drain(
    rows: &[Led],
    row_at: &[u32],
    sums: &mut Accumulator,
    rest: &mut Sparse,
) -> Result<(), AllocError>
    requires kept { IsKept sums.old.modulus (length sums.old.row) rows.now row_at.now }
    requires residues { IsVector sums.old.modulus (length sums.old.row) sums.old.row }
    requires rest { CanTake sums.old.row rest.old sums.old.modulus }
    ensures sums { (sums.new.modulus ≡ sums.old.modulus) × (length sums.new.row ≡ length sums.old.row) }
    ensures modulus { rest.new.modulus ≡ rest.old.modulus }
    ensures ok { OnOk result (Drains rows.now sums.old rest.old.row rest.new.row) }
{
    let modulus = rest.modulus();
    while let Some((c, value)) = sums.pop() {
        let k = row_at[c as usize];
        if k == NONE {
            rest.push(c, value)?;
        } else {
            let tail = &rows[k as usize].tail;
            sums.add_multiple(modulus.neg(value), tail.cols(), tail.vals());
        }
    }
    Ok(())
}

// Appends to `rest` what the rows leave of the row that stands in these columns and values. The sums are 0 before and after.
fn reduce(
    rows: &[Led],
    row_at: &[u32],
    cols: &[u32],
    vals: &[u64],
    sums: &mut Accumulator,
    rest: &mut Sparse,
) -> Result<(), AllocError>
    requires kept { IsKept sums.old.modulus (length sums.old.row) rows.now row_at.now }
    requires sparse { IsSparse sums.old.modulus (length sums.old.row) cols.now vals.now }
    requires clear { IsClear sums.old.modulus (length sums.old.row) sums.old }
    requires rest { CanTake (spread (length sums.old.row) cols.now vals.now) rest.old sums.old.modulus }
    ensures clear { sums.new ≡ sums.old }
    ensures modulus { rest.new.modulus ≡ rest.old.modulus }
    ensures ok { OnOk result (Drains rows.now
        (spread_row sums.old cols.now vals.now) rest.old.row rest.new.row) }
{
    sums.add_multiple(1, cols, vals);
    let done = drain(rows, row_at, sums, rest);
    sums.clear();
    done
}
