// The pivots that an elimination finds.
ghost use Rattle.std.specs.Prelude.{◌≡◌, ◌<◌, ◌≤◌, ℕ, length, slice_index, IfOk, OnOk};
ghost use Rattle.residue_words.specs.Matrix.{IsVector};
ghost use Rattle.sparse_rows.specs.Rows.{AreBelow, LARGEST_SIZE};
ghost use Rattle.dense_rows.specs.Dense.{AppendsScattered, CanAppend};

use crate::elimination::Elimination;
use dense_rows::{Dense, Residue};
use residue_words::Modulus;
use residue_words::plain::Pair;
use sparse_rows::{List, Rows, Sparse};
use std::alloc::{AllocError, Global};

// Room for more entries than these isn't asked for at once: 192 MB.
const MOST_ROOM: usize = 1 << 24;

// Room for the entries of so many rows at so many columns, so that they are not moved as they become more. Memory that is never
// written costs nothing.
pub(crate) fn room_for(rows: usize, columns: usize) -> usize {
    rows.saturating_mul(columns).min(MOST_ROOM)
}

/// Of each pivot its row and its column in the block, and its row of U, in the matrix's columns; and which columns of the
/// block are pivots'.
#[derive(Drop)]
pub struct Pivots {
    pub rows: Vec<u32>,
    pub columns: Vec<u32>,
    pub u: Rows,
    pub taken: Vec<bool>,
}

impl Pivots {
    ghost use Rattle.dense_finish.specs.Pivots.{AddsPivot, AreFound, ArePivotPlaces, count, pivot_at};

    // No pivot of a block of so many rows with these columns of a matrix of this width.
    pub(crate) fn new(
        alloc: Global,
        height: usize,
        columns: &[u32],
        width: u32,
        p: &Modulus,
    ) -> Result<Pivots, AllocError>
        requires { width ≤ LARGEST_SIZE }
        ensures found { IfOk result (AreFound p.now columns.now width 0) }
        ensures none { IfOk result (λ pivots. count pivots ≡ 0) }
    {
        // The call's contract tells the range of the modulus.
        p.is_sound();
        let room = room_for(height.min(columns.len()), columns.len());
        Ok(Pivots {
            rows: Vec::new(alloc),
            columns: Vec::new(alloc),
            u: Rows::with_room(alloc, *p, width, 0, room)?,
            taken: vec![in alloc; false; columns.len()]?,
        })
    }

    // Puts behind these the pivot of row i at column c, which has this row in the block, with zeros before c.
    pub(crate) fn push<W: Residue>(
        &mut self,
        elimination: &Elimination,
        i: u32,
        c: usize,
        row: &Dense<W>,
    ) -> Result<(), AllocError>
        requires row { i < LARGEST_SIZE }
        requires column { c < length elimination.now.columns.now }
        requires residues { IsVector elimination.now.p (length elimination.now.columns.now) row.now }
        requires before { (j : ℕ) → j < c → slice_index row.now j ≡ 0 }
        requires found { AreFound elimination.now.p elimination.now.columns.now self.old.u.matrix.width
            i self.old }
        requires inside { AreBelow self.old.u.matrix.width elimination.now.columns.now }
        ensures { OnOk result
            (AddsPivot elimination.now.columns.now (pivot_at i c row.now) self.old self.new) }
    {
        let columns = elimination.columns;
        append_row(
            elimination.alloc,
            &mut self.u,
            row,
            columns,
            c,
            &elimination.p,
        )?;
        self.rows.push(i)?;
        self.columns.push(c as u32)?;
        self.taken[c] = true;
        Ok(())
    }

    // The pivots' places in the matrix, whose rows and columns with entries are these.
    pub(crate) fn places(
        &self,
        alloc: Global,
        rows: &[u32],
        columns: &[u32],
    ) -> Result<List<Pair>, AllocError>
        requires long { length self.now.rows.items ≡ count self.now }
        requires rows { AreBelow (length rows.now) self.now.rows.items }
        requires columns { AreBelow (length columns.now) self.now.columns.items }
        ensures { IfOk result
            (ArePivotPlaces self.now.rows.items self.now.columns.items rows.now columns.now) }
    {
        let mut places = List::new(alloc);
        for k in 0..self.rows.len() {
            places.push(Pair {
                row: rows[self.rows[k] as usize],
                col: columns[self.columns[k] as usize],
            })?;
        }
        Ok(places)
    }
}

// Appends the row with these entries at the columns, of which those before `from` are 0.
fn append_row<W: Residue>(
    alloc: Global,
    u: &mut Rows,
    row: &Dense<W>,
    columns: &[u32],
    from: usize,
    p: &Modulus,
) -> Result<(), AllocError>
    requires { CanAppend p.now from columns.now row.now u.old }
    ensures { OnOk result (AppendsScattered columns.now row.now u.old u.new) }
{
    if row.has_zero(from) {
        append_scattered(alloc, u, row, columns, from, p)
    } else {
        append_full(alloc, u, row, columns, from)
    }
}

// The same entry by entry, since some are 0.
fn append_scattered<W: Residue>(
    alloc: Global,
    u: &mut Rows,
    row: &Dense<W>,
    columns: &[u32],
    from: usize,
    p: &Modulus,
) -> Result<(), AllocError>
    requires { CanAppend p.now from columns.now row.now u.old }
    ensures { OnOk result (AppendsScattered columns.now row.now u.old u.new) }
{
    let mut entries = Sparse::with_room(alloc, u.width(), *p, columns.len() - from)?;
    row.scatter(columns, from, &mut entries)?;
    u.append(&entries)
}

// The same at once, since none from `from` on is 0.
fn append_full<W: Residue>(
    alloc: Global,
    u: &mut Rows,
    row: &Dense<W>,
    columns: &[u32],
    from: usize,
) -> Result<(), AllocError>
    requires row { CanAppend u.old.modulus from columns.now row.now u.old }
    requires behind { (j : ℕ) → from ≤ j → j < length row.now → 0 < slice_index row.now j }
    ensures { OnOk result (AppendsScattered columns.now row.now u.old u.new) }
{
    let entries = row.entries_from(alloc, from)?;
    u.append_entries(&columns[from..], &entries)
}
