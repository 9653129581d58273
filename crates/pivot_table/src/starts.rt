// When the rows of a closed board were claimed.
ghost use Rattle.std.specs.Prelude.{◌≡◌};
ghost use Rattle.pivot_table.specs.Closing.{start_at};

use std::marker::Model;

/// How many pairs a seat had seen when it claimed the row at a place. It takes 8 bytes a pair.
#[derive(Debug, Drop)]
pub struct Starts {
    first: u64,
    starts: Vec<u64>,
}

impl Model for Starts {
    ghost use Rattle.pivot_table.specs.Closing.{StartsState};

    ghost Value = { StartsState };

    ghost view = { λ s. record { first = s.first; starts = s.starts.items } };
}

impl Starts {
    pub(crate) fn of(first: u64, starts: Vec<u64>) -> Starts
        ensures { result ≡ record { first = first; starts = starts.items } }
    {
        Starts { first, starts }
    }

    /// The start of the row at the place; None where the board did not publish it.
    pub fn at(&self, place: u64) -> Option<u64>
        ensures { result ≡ start_at self.now place }
    {
        if place < self.first {
            return None;
        }
        let k = place - self.first;
        if k < self.starts.len() as u64 {
            Some(self.starts[k as usize])
        } else {
            None
        }
    }
}
