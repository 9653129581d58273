// The search of several workers at once.
ghost use Rattle.std.specs.Prelude.{◌≡◌, ◌<◌, None, length, All, IfOk};
ghost use Rattle.pivot_table.specs.Board.{IsSeatOf};
ghost use Rattle.pivot_table.specs.History.{Maximal, StandsOrIsDead, StartsWith};
ghost use Rattle.optimistic_search.specs.Versions.{AreStartsOf};
ghost use Rattle.optimistic_search.specs.Workers.{DoneAreSettled, IsTeamOf, IsWorkerOf, with_parted};

use crate::by_walk::{Search, follow};
use crate::gate::Gate;
use crate::search_worker::{SearchWorker, first_row};
use pivot_table::{Board, Book, Closed, Marks, Seat, Starts};
use pivot_walks::{RestingWalk, Steps};
use std::alloc::{AllocError, Global};
use std::marker::Brand;
use std::sync::ledger::{Blank, Ledger};
use std::thread::{Threads, for_each_mut};

// A walk over a book's pairs, which no ledger counts yet.
fn resting_over<'a>(alloc: Global, book: &Book<'a>) -> Result<RestingWalk<'a>, AllocError>
    ensures { IfOk result (λ w. w ≡ record { rows = book.now.rows; pairs = book.now.pairs; current = None }) }
{
    let mut rest = RestingWalk::new(alloc, book.rows())?;
    follow(&mut rest, book.pairs(), 0);
    Ok(rest)
}

// The workers, each with a seat and a walk of its own.
fn prepared<'a>(
    alloc: Global,
    book: &Book<'a>,
    board: &Board<'a>,
    seat: &mut Seat,
    count: u32,
) -> Result<Vec<SearchWorker<'a>>, AllocError>
    requires seat { IsSeatOf board.now seat.old }
    requires rows { board.now.rows ≡ book.now.rows }
    requires seen { seat.old.chair.seen ≡ book.now.pairs }
    ensures seat { IsSeatOf board.now seat.new }
    ensures chair { seat.new.chair ≡ with_parted seat.old.chair seat.new.chair.parted }
    ensures workers { IfOk result (λ v. All (IsWorkerOf board.now) v.items) }
{
    let height = board.rows().height();
    let mut workers = Vec::with_capacity(alloc, count as usize)?;
    for number in 0..count {
        let rest = resting_over(alloc, book)?;
        workers.push_reserved(SearchWorker {
            seat: board.split(seat),
            walk: Some(rest),
            number,
            from: first_row(number, count, height),
            steps: 0,
        });
    }
    Ok(workers)
}

// The board of a search with its workers, and what the calling thread keeps: a seat, and a walk over the book's pairs.
#[derive(Drop)]
struct Team<'a> {
    board: Board<'a>,
    seat: Seat,
    rest: RestingWalk<'a>,
    workers: Vec<SearchWorker<'a>>,
}

// A board of the book's pairs with this many workers. It takes all memory that they need.
fn seated<'a>(alloc: Global, book: &Book<'a>, count: u32) -> Result<Team<'a>, AllocError>
    ensures { IfOk result (IsTeamOf book.now) }
{
    let (board, mut seat) = Board::new(alloc, book)?;
    let rest = resting_over(alloc, book)?;
    let workers = prepared(alloc, book, &board, &mut seat, count)?;
    Ok(Team {
        board,
        seat,
        rest,
        workers,
    })
}

// Runs the workers, each in a thread of its own where one can be made.
fn run_all<R: Threads + Sync, G: Gate>(
    rt: &R,
    board: &Board<'_>,
    gate: &G,
    workers: &mut [SearchWorker<'_>],
)
    requires { All (IsWorkerOf board.now) workers.old }
    ensures { All (IsWorkerOf board.now) workers.new }
{
    let count = workers.len();
    if count == 0 {
        return;
    }
    for_each_mut(
        rt,
        workers,
        count,
        &|_: usize, worker: &mut SearchWorker<'_>|
            requires { IsWorkerOf board.now worker.now }
            ensures { IsWorkerOf board.entry.now worker.exit.now }
        { worker.run(board, gate) },
    );
}

// Takes the workers' seats over, and lets their walks go. Tells how many steps they took, modulo 2^64.
fn join_all(board: &Board<'_>, seat: &mut Seat, workers: Vec<SearchWorker<'_>>) -> u64
    requires seat { IsSeatOf board.now seat.old }
    requires workers { All (IsWorkerOf board.now) workers.items }
    ensures { IsSeatOf board.now seat.new }
{
    let mut workers = workers;
    let mut taken = 0u64;
    while let Some(worker) = workers.pop() {
        let SearchWorker {
            seat: other,
            walk: _walk,
            number: _number,
            from: _from,
            steps,
        } = worker;
        board.join(seat, other);
        taken = taken.wrapping_add(steps);
    }
    taken
}

// Tries a row, unless it is done.
fn try_unless_done<L: Ledger>(
    search: &mut Search<'_, L>,
    row: u32,
    done: &Marks,
    steps: &mut Steps<L>,
)
    requires inside { row < search.old.rows.matrix.height }
    requires tall { length done.now ≡ search.old.rows.matrix.height }
    requires done { DoneAreSettled search.old.rows.matrix search.old.pairs done.now }
    ensures rows { search.new.rows ≡ search.old.rows }
    ensures begins { StartsWith search.new.pairs search.old.pairs }
    ensures settled { StandsOrIsDead search.old.rows.matrix search.new.pairs row }
{
    if done.is_done(row) {
        return;
    }
    search.try_row(row, steps);
}

// Tries each row that isn't done, in ascending order.
fn sweep<L: Ledger>(search: &mut Search<'_, L>, done: &Marks, steps: &mut Steps<L>)
    requires tall { length done.now ≡ search.old.rows.matrix.height }
    requires done { DoneAreSettled search.old.rows.matrix search.old.pairs done.now }
    ensures rows { search.new.rows ≡ search.old.rows }
    ensures begins { StartsWith search.new.pairs search.old.pairs }
    ensures maximal { Maximal search.old.rows.matrix search.new.pairs }
{
    for row in 0..search.rows().height() {
        try_unless_done(search, row, done, steps);
    }
}

// Grows the book by several workers, and tells the starts of what they published and how many steps were taken, modulo 2^64. It
// takes all memory before the first begins.
fn search_with<'a, R: Threads + Sync, G: Gate, L: Ledger>(
    rt: &R,
    alloc: Global,
    book: Book<'a>,
    workers: u32,
    gate: &G,
    blank: Blank,
) -> Result<(Book<'a>, Starts, u64), AllocError>
    requires name { blank.name ≡ L.name }
    requires parts { blank.parts ≡ L.parts }
    requires some { 0 < blank.parts }
    ensures rows { IfOk result (λ t. t.0.rows ≡ book.entry.rows) }
    ensures begins { IfOk result (λ t. StartsWith t.0.pairs book.entry.pairs) }
    ensures maximal { IfOk result (λ t. Maximal book.entry.rows.matrix t.0.pairs) }
    ensures starts { IfOk result (λ t.
        AreStartsOf book.entry.rows.matrix book.entry.pairs t.0.pairs t.1) }
{
    let first = book.pairs().len();
    let Team {
        board,
        mut seat,
        rest,
        workers: mut team,
    } = seated(alloc, &book, workers)?;
    run_all(rt, &board, gate, team.as_mut_slice());
    let taken = join_all(&board, &mut seat, team);
    let Closed {
        book: closed,
        done,
        starts,
    } = board.close(seat);
    let mut search = Search::<L>::of(closed, rest, first);
    let mut steps = Steps::<L>::new(blank);
    sweep(&mut search, &done, &mut steps);
    Ok((search.found(), starts, taken.wrapping_add(steps.count())))
}

// Grows the book by several workers, and tells the starts of what they published and how many steps were taken, modulo 2^64.
pub(crate) fn search_together<'a, R: Threads + Sync, G: Gate>(
    rt: &R,
    alloc: Global,
    book: Book<'a>,
    workers: u32,
    gate: &G,
) -> Result<(Book<'a>, Starts, u64), AllocError>
    ensures rows { IfOk result (λ t. t.0.rows ≡ book.entry.rows) }
    ensures begins { IfOk result (λ t. StartsWith t.0.pairs book.entry.pairs) }
    ensures maximal { IfOk result (λ t. Maximal book.entry.rows.matrix t.0.pairs) }
    ensures starts { IfOk result (λ t.
        AreStartsOf book.entry.rows.matrix book.entry.pairs t.0.pairs t.1) }
{
    search_with::<R, G, Brand>(rt, alloc, book, workers, gate, Blank::new(1))
}
