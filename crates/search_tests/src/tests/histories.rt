// A board of a small matrix.
ghost use Rattle.std.specs.Prelude.{◌≡◌, [], ◌∷◌, length, IsTrue};
ghost use Rattle.pivot_table.specs.Board.{IsSeatOf};
ghost use Rattle.pivot_table.specs.Calls.{MayFinish};
ghost use Rattle.pivot_table.specs.Core.{claiming, opened, parting, splitting};
ghost use Rattle.pivot_table.specs.Example.{pivot_example};
ghost use Rattle.pivot_table.specs.History.{pair};

use pivot_table::{Board, Book, Closed, Outcome, Pair, Seat, histories_are_worked};
use std::alloc::Global;

// The first seat takes row 1.
fn claim_first(board: &Board<'_>, first: &mut Seat) -> bool
    requires seat { IsSeatOf board.now first.old }
    requires matrix { board.now.rows.matrix ≡ pivot_example }
    requires opened { first.old.chair ≡ parting (opened (pair 0 0 ∷ [])) }
    ensures seat { IsSeatOf board.now first.new }
    ensures chair { IsTrue result → first.new.chair ≡ claiming (parting (opened (pair 0 0 ∷ []))) 1 }
{
    board.claim(first, 1)
}

// The second seat doesn't get row 1, takes row 2 and publishes it.
fn overtake(board: &Board<'_>, second: &mut Seat) -> bool
    requires seat { IsSeatOf board.now second.old }
    requires matrix { board.now.rows.matrix ≡ pivot_example }
    requires split { second.old.chair ≡ splitting (opened (pair 0 0 ∷ [])) }
    ensures seat { IsSeatOf board.now second.new }
    ensures settled { IsTrue result → MayFinish pivot_example second.new.chair }
{
    // What is least alive in the first pair.
    histories_are_worked();
    if board.claim(second, 1) || !board.claim(second, 2) {
        return false;
    }
    match board.publish(second, 1) {
        Outcome::Published(place) => place == 1,
        Outcome::Newer(_) => false,
    }
}

// The first seat is too late with row 1, which is dead then.
fn be_late(board: &Board<'_>, first: &mut Seat) -> bool
    requires seat { IsSeatOf board.now first.old }
    requires matrix { board.now.rows.matrix ≡ pivot_example }
    requires claimed { first.old.chair ≡ claiming (parting (opened (pair 0 0 ∷ []))) 1 }
    ensures seat { IsSeatOf board.now first.new }
    ensures settled { IsTrue result → MayFinish pivot_example first.new.chair }
{
    // What is least alive in the first pair, and that row 1 is dead in both.
    histories_are_worked();
    match board.publish(first, 1) {
        Outcome::Published(_) => false,
        Outcome::Newer(pair) => pair == Pair { row: 2, col: 1 },
    }
}

// Both seats go by turns.
fn by_turns(board: &Board<'_>, first: &mut Seat, second: &mut Seat) -> bool
    requires matrix { board.now.rows.matrix ≡ pivot_example }
    requires first { IsSeatOf board.now first.old × (first.old.chair ≡ parting (opened (pair 0 0 ∷ []))) }
    requires second { IsSeatOf board.now second.old
        × (second.old.chair ≡ splitting (opened (pair 0 0 ∷ []))) }
    ensures first { IsSeatOf board.now first.new × (IsTrue result → MayFinish pivot_example first.new.chair) }
    ensures second { IsSeatOf board.now second.new
        × (IsTrue result → MayFinish pivot_example second.new.chair) }
{
    if !claim_first(board, first) {
        return false;
    }
    if !overtake(board, second) {
        return false;
    }
    be_late(board, first)
}

// Lets both rows go and ends the board.
fn ended<'a>(board: Board<'a>, first: Seat, second: Seat) -> Closed<'a>
    requires matrix { board.rows.matrix ≡ pivot_example }
    requires first { IsSeatOf board first × MayFinish pivot_example first.chair }
    requires second { IsSeatOf board second × MayFinish pivot_example second.chair }
    ensures { length result.done ≡ 3 }
{
    let mut first = first;
    let mut second = second;
    board.finish_row(&mut first);
    board.finish_row(&mut second);
    board.join(&mut first, second);
    board.close(first)
}

// Whether all rows are done, and the pair (2, 1) was published behind the first, by a seat that had seen that one.
fn is_overtaken(closed: &Closed<'_>) -> bool
    requires { length closed.now.done ≡ 3 }
{
    let done = [
        closed.done.is_done(0),
        closed.done.is_done(1),
        closed.done.is_done(2),
    ];
    let starts = [
        closed.starts.at(0),
        closed.starts.at(1),
        closed.starts.at(2),
    ];
    let pairs = [Pair { row: 0, col: 0 }, Pair { row: 2, col: 1 }];
    closed.book.pairs() == pairs.as_slice() && done == [true; 3] && starts == [None, Some(1), None]
}

// Whether the calls of two seats at a board that begins with the first pair leave what they should.
pub(crate) fn are_overtaken(alloc: Global, book: &Book<'_>) -> bool
    requires matrix { book.now.rows.matrix ≡ pivot_example }
    requires pairs { book.now.pairs ≡ pair 0 0 ∷ [] }
{
    let Ok((board, mut first)) = Board::new(alloc, book) else {
        return false;
    };
    let mut second = board.split(&mut first);
    if !by_turns(&board, &mut first, &mut second) {
        return false;
    }
    is_overtaken(&ended(board, first, second))
}
