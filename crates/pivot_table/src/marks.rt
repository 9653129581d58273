// Which rows are done.
ghost use Rattle.std.specs.Prelude.{◌≡◌, ◌<◌, false, length, slice_index_or};

use std::marker::Model;

/// Which rows are done. It takes a byte a row.
#[derive(Debug, Drop)]
pub struct Marks {
    done: Vec<bool>,
}

impl Model for Marks {
    ghost use Rattle.std.specs.Prelude.{List, Bool};

    ghost Value = { List Bool };

    ghost view = { λ m. m.done.items };
}

impl Marks {
    pub(crate) fn of(done: Vec<bool>) -> Marks
        ensures { result ≡ done.items }
    {
        Marks { done }
    }

    /// Whether the row is done.
    pub fn is_done(&self, row: u32) -> bool
        requires { row < length self.now }
        ensures { result ≡ slice_index_or self.now row false }
    {
        self.done[row as usize]
    }
}
