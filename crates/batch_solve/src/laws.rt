// Examples: the contract is a fact, and the body is empty.
ghost use Rattle.batch_solve.specs.Example.{AreWorkedBatches};

/// How batches are refused, worked on small ones.
pub fn batches_are_worked()
    ensures { AreWorkedBatches }
{}
