// The rule of a board's table, and what its steps tell.
ghost use Rattle.std.specs.Prelude.{true};
ghost use Rattle.pivot_table.specs.Core.{opened};
ghost use Rattle.pivot_table.specs.Rule.{SpellsRun, claimed, finished, published, looked, view, old_part, new_part, joined, spent_view};

use crate::book::Book;
use crate::view::View;
use atomic_table::{Join, Play, Split, TableRule};

// Between any two steps the words and the views spell a state that a run of the core reaches.
pub(crate) struct BoardLaw;

impl<'a> TableRule<(), View, Book<'a>> for BoardLaw {
    ghost holds = { λ b. SpellsRun b.rows.matrix b.pairs };

    ghost first = { λ b. view b.rows.matrix true (opened b.pairs) };
}

pub(crate) struct Claim;

impl Play<(), View> for Claim {
    ghost then = { claimed };
}

pub(crate) struct Finish;

impl Play<(), View> for Finish {
    ghost then = { finished };
}

pub(crate) struct Publish;

impl Play<(), View> for Publish {
    ghost then = { published };
}

pub(crate) struct Look;

impl Play<(), View> for Look {
    ghost then = { looked };
}

pub(crate) struct BoardPart;

impl Split<View> for BoardPart {
    ghost left = { old_part };

    ghost right = { new_part };
}

pub(crate) struct Both;

impl Join<View> for Both {
    ghost both = { joined };

    ghost spent = { spent_view };
}
