// The rule of a desk's channel, and what its steps tell.
ghost use Rattle.std.specs.Prelude.{◌≡◌, ⊤};
ghost use Rattle.question_desk.specs.Rule.{KeepsDesk, known_first, filled, Gives, known_kept, known_new};

use crate::known_numbers::KnownNumbers;
use crate::number_or_end::NumberOrEnd;
use crossbeam_channel::protocol::{Lesson, Outcome, Protocol, Split};

pub struct DeskLaw;

impl Protocol<NumberOrEnd, KnownNumbers> for DeskLaw {
    ghost holds = { KeepsDesk };

    ghost first = { known_first };
}

// A number is put, before the first is taken.
pub(crate) struct Fill;

impl Outcome<NumberOrEnd, KnownNumbers> for Fill {
    ghost then = { λ v x w. w ≡ filled v };
}

impl Lesson<NumberOrEnd, KnownNumbers> for Fill {
    ghost fact = { λ v items. ⊤ };
}

// A number or an end is taken.
pub(crate) struct Take;

impl Outcome<NumberOrEnd, KnownNumbers> for Take {
    ghost then = { Gives };
}

impl Lesson<NumberOrEnd, KnownNumbers> for Take {
    ghost fact = { λ v items. ⊤ };
}

// An end is put.
pub(crate) struct End;

impl Outcome<NumberOrEnd, KnownNumbers> for End {
    ghost then = { λ v x w. w ≡ v };
}

impl Lesson<NumberOrEnd, KnownNumbers> for End {
    ghost fact = { λ v items. ⊤ };
}

pub(crate) struct DeskPart;

impl Split<KnownNumbers> for DeskPart {
    ghost left = { known_kept };

    ghost right = { known_new };
}
