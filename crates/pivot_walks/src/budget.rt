// How many more steps a search may take.
ghost use Rattle.std.specs.Prelude.{◌≡◌, ◌<◌, IsTrue, false};
ghost use Rattle.pivot_walks.specs.Budget.{StaysUnbounded};

use std::marker::Model;

// How many more steps may be taken. The largest number stands for any, and stays.
#[derive(Drop)]
pub(crate) struct Budget {
    left: u64,
}

impl Model for Budget {
    ghost use Rattle.std.specs.Prelude.{ℕ};

    ghost Value = { ℕ };

    ghost view = { λ b. b.left };
}

impl Budget {
    // It is spent after more than this many steps; if that is the largest number, never.
    pub(crate) fn of(most: u64) -> Budget
        ensures { StaysUnbounded most result }
    {
        Budget {
            left: most.saturating_add(1),
        }
    }

    // Takes n steps off.
    pub(crate) fn spend(&mut self, n: usize)
        ensures { StaysUnbounded self.old self.new }
    {
        if self.left != u64::MAX {
            self.left = self.left.saturating_sub(n as u64);
        }
    }

    // Whether no step is left.
    pub(crate) fn is_spent(&self) -> bool
        ensures yes { IsTrue result → self.now ≡ 0 }
        ensures no { result ≡ false → 0 < self.now }
    {
        self.left == 0
    }
}
