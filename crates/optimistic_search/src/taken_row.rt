// A worker's treatment of one row on a board that several workers share.
ghost use Rattle.std.specs.Prelude.{◌≡◌, ◌<◌, ◌≤◌, IfSome, IfNone, length, min};
ghost use Rattle.residue_words.specs.declared.plain.Pair.{Pair};
ghost use Rattle.pivot_table.specs.Core.{seeing};
ghost use Rattle.pivot_walks.specs.Cost.{TakesItsCost, TakesTheRise};
ghost use Rattle.optimistic_search.specs.Taking.{IsIdle, IsTrying, LetsGo, NoneIfBusy, TakesRow, others_seen};

use crate::gate::{Caller, Gate, Point};
use pivot_table::{Board, Outcome, Seat};
use pivot_walks::{Steps, Walk};
use residue_words::plain::Pair;
use std::sync::ledger::Ledger;

/// What became of a row that a worker took up.
#[derive(Clone, Copy, Debug, PartialEq, Eq)]
pub enum Taken {
    /// Another worker has it, or had it, or it is in a pair that the board began with.
    Busy,
    /// It was published at this place.
    Published(u64),
    /// It was dropped: it is dead in what the worker has seen.
    Dropped,
}

// One try: the row in hand is published or, where it is dead, let go; or one more pair is seen, and the row stays in hand.
fn try_once<G: Gate, L: Ledger>(
    board: &Board<'_>,
    seat: &mut Seat,
    walk: &mut Walk<'_, L>,
    row: u32,
    caller: &Caller<'_, G>,
    steps: &mut Steps<L>,
) -> Option<Taken>
    requires trying { IsTrying board.now seat.old walk.old row }
    ensures idle { IfSome result (λ _. IsIdle board.now seat.new walk.new) }
    ensures ended { IfSome result (λ t. LetsGo board.now.rows.matrix row seat.old.chair t seat.new.chair) }
    ensures free { IfSome result (λ _. steps.new ≡ steps.old) }
    ensures trying { IfNone result (IsTrying board.now seat.new walk.new row) }
    ensures seen { IfNone result ((q : Pair) × (seat.new.chair ≡ seeing seat.old.chair q)) }
    ensures short { IfNone result
        (length seat.old.chair.seen ≤ min board.now.rows.matrix.height board.now.rows.matrix.width) }
    ensures rise { IfNone result (TakesTheRise walk.old walk.new steps.old steps.new) }
{
    let Some(col) = walk.least_alive() else {
        board.finish_row(seat);
        walk.end();
        caller.at(Point::Dropped(row));
        return Some(Taken::Dropped);
    };
    caller.at(Point::Before(row, col, seat.seen()));
    match board.publish(seat, col) {
        Outcome::Published(place) => {
            caller.at(Point::Published(place));
            walk.extend(Pair { row, col }, steps);
            board.finish_row(seat);
            Some(Taken::Published(place))
        }
        Outcome::Newer(pair) => {
            walk.extend(pair, steps);
            caller.at(Point::Newer(pair));
            None
        }
    }
}

/// A worker's whole treatment of a row: it is published, dropped as dead, or left to the worker that has it.
///
/// The worker claims the row and walks from it in what its seat has seen. As long as a column is alive it tries to publish the least.
/// Where another worker has published meanwhile, that pair is seen, and the walk is carried on, not begun anew; so each pivot row is
/// taken up at most once. Each failed try lengthens what the seat has seen. The gate is called after the claim, before each
/// try, and after each pair that is published or seen, or when the row was dropped. It takes no memory, and waits for nobody.
pub fn take_row<G: Gate, L: Ledger>(
    board: &Board<'_>,
    seat: &mut Seat,
    walk: &mut Walk<'_, L>,
    row: u32,
    worker: u32,
    gate: &G,
    steps: &mut Steps<L>,
) -> Taken
    requires idle { IsIdle board.now seat.old walk.old }
    requires inside { row < board.now.rows.matrix.height }
    ensures idle { IsIdle board.now seat.new walk.new }
    ensures taken { TakesRow board.now.rows.matrix row seat.old.chair result seat.new.chair }
    ensures busy { NoneIfBusy result steps.old steps.new }
    ensures cost { TakesItsCost board.now.rows.matrix
        (others_seen result seat.new.chair) row steps.old steps.new }
{
    if !board.claim(seat, row) {
        return Taken::Busy;
    }
    let caller = Caller { gate, worker };
    caller.at(Point::Claimed(row));
    walk.begin(row, steps);
    loop {
        if let Some(taken) = try_once(board, seat, walk, row, &caller, steps) {
            return taken;
        }
    }
}
