// What a pass at a desk's channel knows, for the rule. It exists in proofs alone.
ghost use Rattle.std.specs.Prelude.{ℕ, Bool, List};
ghost use Rattle.std.specs.Borrow.{ftrue};

use std::marker::Model;

// How many numbers were put into the channel, those that were taken by this pass, in order, whether it met an end, and whether
// it is the first pass while the numbers are put. No value of it is made.
pub struct KnownNumbers {
    pub ghost count: { ℕ },
    pub ghost taken: { List ℕ },
    pub ghost drained: { Bool },
    pub ghost fills: { Bool },
}

impl Model for KnownNumbers {
    ghost also_owns = { λ _. ftrue };
}
