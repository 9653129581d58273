// Parts of a list, one after another.
ghost use Rattle.std.specs.Prelude.{◌≡◌, ◌<◌, ◌≤◌, ◌+◌, ◌^◌, ℕ, length, slice_index, slice_range, OnErr, OnOk};
ghost use Rattle.column_lists.specs.Parts.{AreJoined};

use std::alloc::{AllocError, Global};

/// The part at i of the items, where the parts begin at `starts`.
pub fn part<'a, T>(items: &'a [T], starts: &[usize], i: usize) -> &'a [T]
    requires inside { i + 1 < length starts.now }
    requires rising { slice_index starts.now i ≤ slice_index starts.now (i + 1) }
    requires within { slice_index starts.now (i + 1) ≤ length items.now }
    ensures { result.now ≡ slice_range items.now (slice_index starts.now i) (slice_index starts.now (i + 1)) }
{
    let from = starts[i];
    let to = starts[i + 1];
    &items[from..to]
}

/// Appends the starts of further parts, whose items come behind the first `by` items: all but the first, since it is where the
/// last part ends.
///
/// The error is out of memory: the starts are then as before.
pub fn append_starts(starts: &mut Vec<usize>, from: &[usize], by: usize) -> Result<(), AllocError>
    requires fit { (k : ℕ) → k < length from.now → by + slice_index from.now k < 2 ^ 64 }
    ensures ok { OnOk result (AreJoined by starts.old.items from.now starts.new.items) }
    ensures err { OnErr result (starts.new.items ≡ starts.old.items) }
{
    starts.reserve(from.len())?;
    for k in 1..from.len() {
        starts.push_reserved(by + from[k]);
    }
    Ok(())
}
