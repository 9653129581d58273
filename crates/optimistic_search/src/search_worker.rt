// A worker of a search on a shared board.
ghost use Rattle.std.specs.Prelude.{◌≡◌, ◌<◌, ◌≤◌};
ghost use Rattle.optimistic_search.specs.Taking.{IsIdle};
ghost use Rattle.optimistic_search.specs.Workers.{IsWorkerOf};

use crate::gate::Gate;
use crate::taken_row::take_row;
use pivot_table::{Board, Seat};
use pivot_walks::{RestingWalk, Steps, Walk};
use std::marker::Brand;
use std::sync::ledger::{Blank, Ledger};

// What one worker has: a seat at the board, a walk over what the seat has seen (None while it goes round), its number, the row that
// it begins at, and how many steps it has taken, modulo 2^64.
#[derive(Drop)]
pub(crate) struct SearchWorker<'a> {
    pub(crate) seat: Seat,
    pub(crate) walk: Option<RestingWalk<'a>>,
    pub(crate) number: u32,
    pub(crate) from: u32,
    pub(crate) steps: u64,
}

// The row that a worker begins at: the workers begin as far apart as they can.
pub(crate) fn first_row(number: u32, workers: u32, height: u32) -> u32
    requires { number < workers }
    ensures { result ≤ height }
{
    let first = u64::from(number) * u64::from(height) / u64::from(workers);
    first.min(u64::from(height)) as u32
}

impl<'a> SearchWorker<'a> {
    // Takes a row.
    fn take_one<G: Gate, L: Ledger>(
        &mut self,
        board: &Board<'_>,
        walk: &mut Walk<'_, L>,
        row: u32,
        gate: &G,
        steps: &mut Steps<L>,
    )
        requires idle { IsIdle board.now self.old.seat walk.old }
        requires inside { row < board.now.rows.matrix.height }
        ensures idle { IsIdle board.now self.new.seat walk.new }
        ensures from { self.new.from ≡ self.old.from }
    {
        let _ = take_row(board, &mut self.seat, walk, row, self.number, gate, steps);
    }

    // Takes the rows in cyclic order from its first row down.
    fn take_rows<G: Gate, L: Ledger>(
        &mut self,
        board: &Board<'_>,
        walk: &mut Walk<'_, L>,
        gate: &G,
        steps: &mut Steps<L>,
    )
        requires from { self.old.from ≤ board.now.rows.matrix.height }
        requires idle { IsIdle board.now self.old.seat walk.old }
        ensures idle { IsIdle board.now self.new.seat walk.new }
        ensures from { self.new.from ≡ self.old.from }
    {
        let height = board.rows().height();
        let above = (self.from + 1).min(height);
        for row in (0..above).rev() {
            self.take_one(board, walk, row, gate, steps);
        }
        for row in (above..height).rev() {
            self.take_one(board, walk, row, gate, steps);
        }
    }

    // Goes once through the rows, with a count of its own.
    fn go_round<G: Gate, L: Ledger>(&mut self, board: &Board<'_>, gate: &G, blank: Blank)
        requires worker { IsWorkerOf board.now self.old }
        requires name { blank.name ≡ L.name }
        requires parts { blank.parts ≡ L.parts }
        requires some { 0 < blank.parts }
        ensures { IsWorkerOf board.now self.new }
    {
        let Some(rest) = self.walk.take() else {
            unreachable!()
        };
        let mut walk = Walk::<L>::of(rest);
        let mut steps = Steps::<L>::new(blank);
        self.take_rows(board, &mut walk, gate, &mut steps);
        self.walk = Some(walk.rested());
        self.steps = steps.count();
    }

    // Goes once through the rows.
    pub(crate) fn run<G: Gate>(&mut self, board: &Board<'_>, gate: &G)
        requires { IsWorkerOf board.now self.old }
        ensures { IsWorkerOf board.now self.new }
    {
        self.go_round::<G, Brand>(board, gate, Blank::new(1));
    }
}
