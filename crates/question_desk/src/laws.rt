// Laws of the rule that desks are served by: each contract is a fact, and the body is empty.
ghost use Rattle.question_desk.specs.Laws.{DrainedLeavesNone, ListsShareNoNumber};

/// No two takers' lists share a number, at any moment.
pub fn lists_share_no_number()
    ensures { ListsShareNoNumber }
{}

/// Once a taker was told that no number is left, each of the desk's numbers stands in just one taker's list.
pub fn drained_leaves_none()
    ensures { DrainedLeavesNone }
{}
