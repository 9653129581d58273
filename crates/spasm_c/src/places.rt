// Room for places in a matrix.
ghost use Rattle.std.specs.Prelude.{◌≡◌, ◌≢◌, ◌≤◌, IfOk, length, map, take};
ghost use Rattle.spasm_c.specs.Placed.{ArePlacesKept, ArePlacesTold, ArePlacesWritten};
ghost use Rattle.spasm_c.specs.declared.status.TheConstants.{SPASM_BAD_INPUT, SPASM_NO_ROOM, SPASM_OK};

use crate::status::{SPASM_NO_MEMORY, SPASM_NO_ROOM, SPASM_OK};
use pivot_table::Pair;
use std::alloc::{AllocError, Global};

/// The caller's room for places, and how many there are.
#[derive(Drop)]
#[repr(C)]
pub struct Places<'a> {
    /// For the row of each, from 0.
    pub rows: &'a mut [u32],
    /// For the column of each, from 0.
    pub columns: &'a mut [u32],
    /// How many there are.
    pub needed: usize,
}

impl Places<'_> {
    // Writes the pairs if there is room, else tells what is needed.
    pub(crate) fn fill(&mut self, alloc: Global, pairs: &[Pair]) -> u32
        ensures status { result ≢ SPASM_BAD_INPUT }
        ensures ok { result ≡ SPASM_OK → ArePlacesWritten pairs.now self.new }
        ensures room { result ≡ SPASM_NO_ROOM → ArePlacesTold pairs.now self.old self.new }
        ensures other { result ≢ SPASM_OK → result ≢ SPASM_NO_ROOM → ArePlacesKept self.old self.new }
    {
        let Ok(rows) = rows_of(alloc, pairs) else {
            return SPASM_NO_MEMORY;
        };
        let Ok(columns) = columns_of(alloc, pairs) else {
            return SPASM_NO_MEMORY;
        };
        self.needed = pairs.len();
        if self.rows.len() < pairs.len() || self.columns.len() < pairs.len() {
            return SPASM_NO_ROOM;
        }
        put(&rows, self.rows);
        put(&columns, self.columns);
        SPASM_OK
    }
}

// The rows of pairs.
fn rows_of(alloc: Global, pairs: &[Pair]) -> Result<Vec<u32>, AllocError>
    ensures { IfOk result (λ rows. rows.items ≡ map (λ q. q.row) pairs.now) }
{
    pairs.iter().map(|q| q.row).collect(alloc)
}

// The columns of pairs.
fn columns_of(alloc: Global, pairs: &[Pair]) -> Result<Vec<u32>, AllocError>
    ensures { IfOk result (λ columns. columns.items ≡ map (λ q. q.col) pairs.now) }
{
    pairs.iter().map(|q| q.col).collect(alloc)
}

// Writes the numbers to the first places.
fn put(numbers: &[u32], to: &mut [u32])
    requires { length numbers.now ≤ length to.old }
    ensures { take (length numbers.now) to.new ≡ numbers.now }
{
    to[..numbers.len()].copy_from_slice(numbers);
}
