// Memory for the entries of a left factor.
use crate::block::Block;
use crate::pivots::room_for;
use dense_rows::{PANEL, Residue};
use sparse_rows::EntryRoom;
use std::alloc::{AllocError, Global};

/// Memory for the entries of a left factor, which a worker writes to while others wait: else the one that makes this factor would
/// wait for the system, page by page, longer than it takes to make it. No contract tells of it.
#[derive(Drop)]
pub struct LeftRoom {
    room: EntryRoom,
    // How many entries the rows that are done may have.
    entries: usize,
    // And those that come next.
    expected: usize,
}

impl LeftRoom {
    // None, where no left factor is wanted.
    pub(crate) fn none(alloc: Global) -> LeftRoom {
        LeftRoom {
            room: EntryRoom::none(alloc),
            entries: 0,
            expected: 0,
        }
    }

    // Room for the entries of a block's left factor. As the matrix goes by it to tell whether rows without an entry are stored, room for
    // all is asked for only where there are none.
    pub(crate) fn of<W: Residue>(alloc: Global, block: &Block<W>) -> Result<LeftRoom, AllocError> {
        let rows = block.rows.len();
        let most = if rows == block.height as usize {
            room_for(rows, rows.min(block.columns.len()))
        } else {
            rows
        };
        Ok(LeftRoom {
            room: EntryRoom::new(alloc, most)?,
            entries: 0,
            expected: 0,
        })
    }

    // Expects so many rows behind those that are done: each with an entry at so many pivots and at one of each row before it and in its
    // panel, so on average at half as many more as there are rows.
    pub(crate) fn expect(&mut self, rows: usize, pivots: usize) {
        let more = rows.saturating_add(PANEL) / 2;
        self.expected = rows.saturating_mul(pivots.saturating_add(more));
    }

    // Counts the entries of so many rows more, each at so many pivots.
    pub(crate) fn count(&mut self, rows: usize, pivots: usize) {
        self.entries = self.entries.saturating_add(rows.saturating_mul(pivots));
    }

    // Writes to the memory of the entries that were counted and that are expected.
    pub(crate) fn write(&mut self) {
        self.room.write(self.entries.saturating_add(self.expected));
    }

    // The memory itself.
    pub(crate) fn into_entries(self) -> EntryRoom {
        let LeftRoom { room, .. } = self;
        room
    }
}
