// Room for answers.
ghost use Rattle.std.specs.Prelude.{◌≡◌, ◌≢◌, ◌<◌, ◌≤◌, ◌⊎◌, length, take};
ghost use Rattle.spasm_c.specs.Filled.{IsRoomKept, IsTold, IsMatrixWritten};
ghost use Rattle.spasm_c.specs.Given.{entries};
ghost use Rattle.spasm_c.specs.declared.status.TheConstants.{SPASM_BAD_INPUT, SPASM_NO_MEMORY, SPASM_NO_ROOM};

use crate::status::{SPASM_NO_MEMORY, SPASM_NO_ROOM};
use sparse_rows::Rows;
use std::alloc::Global;

/// The caller's room for an answer, and what is told of the answer.
#[derive(Drop)]
#[repr(C)]
pub struct Room<'a> {
    /// For the row of each entry, from 0.
    pub rows: &'a mut [u32],
    /// For the column of each, from 0.
    pub columns: &'a mut [u32],
    /// For the value of each.
    pub values: &'a mut [u64],
    /// How many entries the answer has.
    pub needed: usize,
    /// How many rows it has.
    pub height: u32,
}

impl Room<'_> {
    // Writes the answer if there is room, which gives this status; else tells what is needed.
    pub(crate) fn fill(&mut self, alloc: Global, answer: &Rows, good: u32) -> u32
        requires { good < SPASM_BAD_INPUT }
        ensures status { (result ≡ good) ⊎ (SPASM_NO_MEMORY ≤ result) }
        ensures good { result ≡ good → IsMatrixWritten answer.now.matrix self.new }
        ensures room { result ≡ SPASM_NO_ROOM → IsTold answer.now.matrix self.old self.new }
        ensures other { result ≢ good → result ≢ SPASM_NO_ROOM → IsRoomKept self.old self.new }
    {
        let Ok(triples) = answer.triples(alloc) else {
            return SPASM_NO_MEMORY;
        };
        self.needed = triples.len();
        self.height = answer.height();
        let needed = triples.len();
        if self.rows.len() < needed || self.columns.len() < needed || self.values.len() < needed {
            return SPASM_NO_ROOM;
        }
        write(&triples, self.rows, self.columns, self.values);
        good
    }
}

// Writes the entries to the first places.
fn write(triples: &[(u32, u32, u64)], rows: &mut [u32], columns: &mut [u32], values: &mut [u64])
    requires rows { length triples.now ≤ length rows.old }
    requires columns { length triples.now ≤ length columns.old }
    requires values { length triples.now ≤ length values.old }
    ensures { entries (take (length triples.now) rows.new) (take (length triples.now) columns.new)
        (take (length triples.now) values.new) ≡ triples.now }
{
    for k in 0..triples.len() {
        let (row, column, value) = triples[k];
        rows[k] = row;
        columns[k] = column;
        values[k] = value;
    }
}
