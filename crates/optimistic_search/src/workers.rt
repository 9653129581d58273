// The search, by a number of workers.
ghost use Rattle.std.specs.Prelude.{◌≡◌, ◌≤◌, IfOk, length};
ghost use Rattle.pivot_table.specs.History.{Maximal, StartsWith};
ghost use Rattle.optimistic_search.specs.Search.{IsGreedyFrom};
ghost use Rattle.optimistic_search.specs.Versions.{AreOwnPlaces, TellsStarts};

use crate::gate::Gate;
use crate::narrow::{has_few_entries, search_by_entries};
use crate::team_search::search_together;
use crate::traced::Traced;
use crate::versions::{own_places, started, version_room};
use pivot_table::Book;
use std::alloc::{AllocError, Global};
use std::thread::Threads;

/// Grows the book until no entry is alive: the search for structural pivots of Bouillaguet, Delaplace and Voge, 'Parallel Sparse
/// PLUQ Factorization modulo p', PASCO 2017.
///
/// For every number of workers, at least one, the book begins with the pairs that it had, each new pair was alive when it came, and
/// nothing is alive afterwards. One worker tries the rows in ascending order and appends each that has an alive column with the
/// least, so that what it finds is a function of the book; it doesn't call the gate. More workers go at once, on a board that they
/// share without a lock: each goes once through the rows, in cyclic order down from a row of its own, the first from row 0 and the
/// others from rows evenly apart, and takes those that no other has. What they find depends on their turns. What they should have
/// left is swept by the calling thread.
///
/// One worker keeps a level for each column, the longest path of steps that leads to it. A walk leaves out the columns whose level is
/// above that of every candidate, and a candidate of level 0 is alive without a walk. It takes 13 bytes a column and 16 bytes a pair
/// that there can be. Where the matrix is much wider than it has entries, columns without an entry cost nothing, and a copy of the
/// matrix without them is searched; rows without an entry never cost memory. More workers take 9 bytes a row and 24 bytes a pair
/// that there can be, 8 more for each of these while the board is made, and 9 bytes a column and 8 bytes a pair for each worker and
/// once besides; a matrix that is four times as wide or as high as it has entries is left to one worker. All memory is taken before
/// the first row. The book is gone where memory was refused.
pub fn search<'a, R: Threads + Sync, G: Gate>(
    rt: &R,
    alloc: Global,
    book: Book<'a>,
    workers: u32,
    gate: &G,
) -> Result<Book<'a>, AllocError>
    requires some { 1 ≤ workers }
    ensures rows { IfOk result (λ b. b.rows ≡ book.entry.rows) }
    ensures begins { IfOk result (λ b. StartsWith b.pairs book.entry.pairs) }
    ensures maximal { IfOk result (λ b. Maximal book.entry.rows.matrix b.pairs) }
    ensures greedy { workers ≡ 1 → IfOk result (IsGreedyFrom book.entry) }
{
    if workers == 1 || has_few_entries(book.rows()) {
        return search_alone(alloc, book);
    }
    let (found, _starts, _steps) = search_together(rt, alloc, book, workers, gate)?;
    Ok(found)
}

/// What `search` does by one worker, for a caller who has no threads.
pub fn search_alone(alloc: Global, book: Book) -> Result<Book, AllocError>
    ensures rows { IfOk result (λ b. b.rows ≡ book.entry.rows) }
    ensures begins { IfOk result (λ b. StartsWith b.pairs book.entry.pairs) }
    ensures maximal { IfOk result (λ b. Maximal book.entry.rows.matrix b.pairs) }
    ensures greedy { IfOk result (IsGreedyFrom book.entry) }
{
    search_by_entries(alloc, book)
}

/// What `search` does, by at least one worker, and a version for each pair: how many pairs its worker had seen when it claimed the row.
/// That is the place itself for the pairs that the book had, for those that one worker finds, and for what is swept.
///
/// Besides what `search` takes, it takes 8 bytes a pair that there can be, no more than there are entries, before the first row.
pub fn search_traced<'a, R: Threads + Sync, G: Gate>(
    rt: &R,
    alloc: Global,
    book: Book<'a>,
    workers: u32,
    gate: &G,
) -> Result<Traced<'a>, AllocError>
    requires some { 1 ≤ workers }
    ensures rows { IfOk result (λ t. t.book.rows ≡ book.entry.rows) }
    ensures begins { IfOk result (λ t. StartsWith t.book.pairs book.entry.pairs) }
    ensures maximal { IfOk result (λ t. Maximal book.entry.rows.matrix t.book.pairs) }
    ensures greedy { workers ≡ 1 → IfOk result (λ t. IsGreedyFrom book.entry t.book) }
    ensures versions { IfOk result (λ t.
        TellsStarts book.entry.rows.matrix book.entry.pairs t.book.pairs t.versions.items) }
    ensures alone { workers ≡ 1 → IfOk result (λ t.
        AreOwnPlaces (length t.book.pairs) t.versions.items) }
{
    let room = version_room(alloc, book.rows())?;
    if workers == 1 || has_few_entries(book.rows()) {
        let found = search_alone(alloc, book)?;
        let versions = own_places(room, found.pairs().len())?;
        return Ok(Traced {
            book: found,
            versions,
        });
    }
    let (found, starts, _steps) = search_together(rt, alloc, book, workers, gate)?;
    let versions = started(room, &starts, found.pairs().len())?;
    Ok(Traced {
        book: found,
        versions,
    })
}

/// What `search` does with more workers than one, for every number of workers, at least one, and every matrix, and how many steps the
/// walks took, modulo 2^64. No clause covers that number.
///
/// One worker goes on a board too, by walks, and in the order of the others: from the last row to the first, which on boundary maps is
/// sooner done and leaves less behind than the greedy list that `search` gives then.
pub fn search_counted<'a, R: Threads + Sync, G: Gate>(
    rt: &R,
    alloc: Global,
    book: Book<'a>,
    workers: u32,
    gate: &G,
) -> Result<(Book<'a>, u64), AllocError>
    requires some { 1 ≤ workers }
    ensures rows { IfOk result (λ t. t.0.rows ≡ book.entry.rows) }
    ensures begins { IfOk result (λ t. StartsWith t.0.pairs book.entry.pairs) }
    ensures maximal { IfOk result (λ t. Maximal book.entry.rows.matrix t.0.pairs) }
{
    let (found, _starts, steps) = search_together(rt, alloc, book, workers, gate)?;
    Ok((found, steps))
}
