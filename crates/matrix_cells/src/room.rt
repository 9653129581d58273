// How much room lists of cells and rows take.
ghost use Rattle.std.specs.Prelude.{◌≡◌, ◌<◌, vec_capacity, vec_len, OnOk};

use std::alloc::AllocError;

// How many items a list has room for at first.
const FEW: usize = 16;

/// Makes room for one item more, and where there was none for a quarter more.
///
/// The error is out of memory.
#[inline(always)]
pub fn make_room<T>(list: &mut Vec<T>) -> Result<(), AllocError>
    ensures items { list.new.items ≡ list.old.items }
    ensures room { OnOk result (vec_len list.new < vec_capacity list.new) }
{
    if list.len() == list.capacity() {
        list.reserve_exact(list.len() / 4 + FEW)?;
    }
    Ok(())
}

/// Whether a matrix of this height with so many entries stores each of its rows: where the rows are at most four times as many as
/// the entries and a few thousand. Each row then costs 8 bytes and is found at once, and the index takes less than 32 bytes an
/// entry; else only the rows that have an entry are stored, which cost 12 bytes and a search.
pub fn stores_every_row(height: u32, entries: usize) -> bool {
    height as usize / 4 <= entries.saturating_add(1024)
}
