// A seat at a board.
ghost use Rattle.std.specs.Prelude.{◌≡◌, ◌≤◌, length, min, option_map};

use crate::view::View;
use std::marker::Model;

/// What one thread steps with at a board: it has seen a beginning of the history, and may have a row in hand. It can be handed to
/// another thread.
#[derive(Drop)]
pub struct Seat {
    pub(crate) token: atomic_table::Seat<(), View>,
    pub(crate) seen: u64,
    pub(crate) row: Option<u32>,
    pub(crate) start: u64,
}

impl Model for Seat {
    ghost use Rattle.std.specs.Prelude.{◌≡◌, ◌<◌, ◌≤◌, [], true, length, IfSome};
    ghost use Rattle.pivot_table.specs.Board.{SeatState};
    ghost use Rattle.pivot_table.specs.Rule.{rows_at};

    ghost Value = { SeatState };

    ghost view = { λ s. record {
      table = s.token.table_id;
      matrix = s.token.me.0.matrix;
      number = s.token.id;
      chair = s.token.me.0.chair;
    } };

    ghost invariant = { λ s. (s.seen ≡ length s.token.me.0.chair.seen) × (s.row ≡ s.token.me.0.chair.hand)
        × (s.start ≡ s.token.me.0.chair.start) × (s.token.me.0.live ≡ true)
        × (length s.token.me.0.chair.seen < rows_at s.token.me.0.matrix)
        × (s.token.me.1 ≡ []) × (s.start ≤ s.seen)
        × IfSome s.row (λ r. r < s.token.me.0.matrix.height) };
}

impl Seat {
    /// How many pairs of the history it has seen.
    pub fn seen(&self) -> u64
        ensures value { result ≡ length self.now.chair.seen }
        ensures short { length self.now.chair.seen ≤ min self.now.matrix.height self.now.matrix.width }
    {
        self.seen
    }

    /// The row in hand.
    pub fn row(&self) -> Option<u32>
        ensures { result ≡ self.now.chair.hand }
    {
        self.row
    }

    /// How many pairs it had seen when it claimed the row in hand.
    pub fn start(&self) -> Option<u64>
        ensures { result ≡ option_map (λ _. self.now.chair.start) self.now.chair.hand }
    {
        match self.row {
            Some(_) => Some(self.start),
            None => None,
        }
    }
}
