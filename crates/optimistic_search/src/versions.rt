// The versions of a book's pairs.
ghost use Rattle.std.specs.Prelude.{◌≡◌, [], IfOk};
ghost use Rattle.pivot_table.specs.Closing.{start_at};
ghost use Rattle.optimistic_search.specs.Versions.{AreOwnPlaces, AreStarted, start_or};

use pivot_table::Starts;
use sparse_rows::Rows;
use std::alloc::{AllocError, Global};

// Room for a version of each pair that there can be: each has a row, a column and an entry of its own.
pub(crate) fn version_room(alloc: Global, rows: &Rows) -> Result<Vec<u64>, AllocError>
    ensures { IfOk result (λ v. v.items ≡ []) }
{
    let most = u64::from(rows.height().min(rows.width())).min(rows.entries());
    Vec::with_capacity(alloc, most as usize)
}

// Each place is its own version.
pub(crate) fn own_places(room: Vec<u64>, count: usize) -> Result<Vec<u64>, AllocError>
    requires { room.items ≡ [] }
    ensures { IfOk result (λ v. AreOwnPlaces count v.items) }
{
    let mut versions = room;
    for place in 0..count {
        // There is room, so nothing is asked for.
        versions.push(place as u64)?;
    }
    Ok(versions)
}

// The start at a place, or the place itself.
fn version_at(starts: &Starts, place: u64) -> u64
    ensures { result ≡ start_or place (start_at starts.now place) }
{
    match starts.at(place) {
        Some(start) => start,
        None => place,
    }
}

// The start of each published pair, and the place of each other one.
pub(crate) fn started(room: Vec<u64>, starts: &Starts, count: usize) -> Result<Vec<u64>, AllocError>
    requires { room.items ≡ [] }
    ensures { IfOk result (λ v. AreStarted starts.now count v.items) }
{
    let mut versions = room;
    for place in 0..count {
        // There is room, so nothing is asked for.
        versions.push(version_at(starts, place as u64))?;
    }
    Ok(versions)
}
