// One who takes numbers at a desk.
use crate::known_numbers::KnownNumbers;
use crate::number_or_end::NumberOrEnd;
use crossbeam_channel::Pass;
use std::marker::Model;

/// What one thread takes numbers with: contracts see its desk, the numbers that it was given, in order, and whether it was told
/// that no number is left. It can be handed to another thread.
#[derive(Drop)]
pub struct Taker {
    pub(crate) pass: Pass<NumberOrEnd, KnownNumbers>,
}

impl Model for Taker {
    ghost use Rattle.std.specs.Prelude.{◌≡◌, false, []};
    ghost use Rattle.question_desk.specs.Desk.{TakerState};

    ghost Value = { TakerState };

    ghost view = { λ t. record {
      table = t.pass.table_id;
      keys = t.pass.me.0.of;
      count = t.pass.me.0.client.count;
      taken = t.pass.me.0.client.taken;
      drained = t.pass.me.0.client.drained;
    } };

    ghost invariant = { λ t. (t.pass.me.1 ≡ []) × (t.pass.me.0.client.fills ≡ false) };
}
