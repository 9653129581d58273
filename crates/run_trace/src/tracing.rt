// What a search published.
ghost use Rattle.std.specs.Prelude.{◌≡◌, ◌≤◌, IfOk, length};
ghost use Rattle.run_trace.specs.Lawful.{IsTraceOf, history_of, versions_of};
ghost use Rattle.run_trace.specs.TraceText.{HasTextSizes, HasTraceText};

use crate::publication::Publication;
use crate::trace::Trace;
use fl_pivots::leftmost;
use optimistic_search::{Gate, search_traced};
use residue_words::plain::Pair;
use sparse_rows::{List, Rows};
use std::alloc::{AllocError, Global};
use std::thread::Threads;

/// The trace of a search for structural pivots, by so many workers, at least one, that begins with the leftmost pairs: what
/// `search_traced` finds, in the order in which it was published. It is lawful, so `replay` says yes to it, and nothing can be added
/// to its pairs.
///
/// One worker's trace is a function of the matrix; which one several workers leave depends on their turns. Besides what `leftmost` and
/// `search_traced` take, it takes 16 bytes a pair, and 48 for a moment where their room grows.
pub fn trace_of<R: Threads + Sync, G: Gate>(
    rt: &R,
    alloc: Global,
    rows: &Rows,
    workers: u32,
    gate: &G,
) -> Result<Trace, AllocError>
    requires some { 1 ≤ workers }
    ensures is { IfOk result (IsTraceOf rows.now.modulus rows.now.matrix workers) }
    ensures fits { HasTextSizes rows.now.matrix → IfOk result HasTraceText }
{
    let first = leftmost(alloc, rows)?;
    let found = search_traced(rt, alloc, first, workers, gate)?;
    let publications = published(alloc, found.book.pairs(), found.versions.as_slice())?;
    Ok(Trace {
        p: rows.modulus().p(),
        publications,
    })
}

// The pairs with their versions.
fn published(
    alloc: Global,
    pairs: &[Pair],
    versions: &[u64],
) -> Result<List<Publication>, AllocError>
    requires { length versions.now ≡ length pairs.now }
    ensures history { IfOk result (λ list. history_of list ≡ pairs.now) }
    ensures versions { IfOk result (λ list. versions_of list ≡ versions.now) }
{
    let mut publications = List::new(alloc);
    for k in 0..pairs.len() {
        publications.push(Publication {
            pair: pairs[k],
            version: versions[k],
        })?;
    }
    Ok(publications)
}
