// Memory for the entries of a matrix.
ghost use Rattle.std.specs.Prelude.{◌≡◌};

use std::alloc::{AllocError, Global};

/// Memory for the entries of a matrix that isn't begun yet. It takes 12 bytes an entry, and none before it is written to.
///
/// The system gives memory page by page as it is first written to, which takes longer than the entries do. So a thread that has nothing
/// else to do may write to it before they are known.
#[derive(Debug, Drop)]
pub struct EntryRoom {
    pub(crate) entries: usize,
    pub(crate) cols: Vec<u32>,
    pub(crate) vals: Vec<u64>,
}

impl EntryRoom {
    /// Room for so many entries.
    pub fn new(alloc: Global, entries: usize) -> Result<EntryRoom, AllocError> {
        Ok(EntryRoom {
            entries,
            cols: Vec::with_capacity(alloc, entries)?,
            vals: Vec::with_capacity(alloc, entries)?,
        })
    }

    /// Room for no entry.
    pub fn none(alloc: Global) -> EntryRoom {
        EntryRoom {
            entries: 0,
            cols: Vec::new(alloc),
            vals: Vec::new(alloc),
        }
    }

    /// Writes to the memory of the first so many entries, or of all. What was written to before isn't again.
    pub fn write(&mut self, entries: usize) {
        let end = entries.min(self.entries);
        if end > self.vals.len() {
            // There is room for these, so nothing is asked for.
            let _ = self.cols.resize(end, 0);
            let _ = self.vals.resize(end, 0);
        }
    }
}

// Writes to the memory behind a list, as far as there is room for so many more items.
pub(crate) fn write_behind<T: Copy>(list: &mut Vec<T>, count: usize, value: T)
    ensures { list.new.items ≡ list.old.items }
{
    let len = list.len();
    let end = list.capacity().min(len.saturating_add(count));
    if end > len {
        // There is room for these, so nothing is asked for.
        let _ = list.resize(end, value);
        list.truncate(len);
    }
}
