//! Walks over the columns of structural pivots: which columns are alive for a row in a list of pivots.
//!
//! `Walk` marks what one row reaches, counts its steps, and is carried on as the list grows. `LeveledWalk` tells the least alive column of
//! row after row, with a level for each column and within a number of steps.
#![tactic(auto)]

mod budget;
mod counted_marks;
mod indexed_pairs;
mod leveled_walk;
mod levels;
mod marked_columns;
mod raising;
mod resting_walk;
mod steps;
mod walk;

ghost use Rattle.pivot_walks.specs.Cost.{CostIsOne, CostRises};
ghost use Rattle.pivot_walks.specs.Example.{IsWorkedCost};

pub use leveled_walk::LeveledWalk;
pub use resting_walk::RestingWalk;
pub use steps::Steps;
pub use walk::Walk;

/// Each row has one cost in each list of pairs, which doesn't fall as the list grows.
pub fn cost_is_one()
    ensures one { CostIsOne }
    ensures rises { CostRises }
{}

/// The cost worked on an example.
pub fn cost_is_worked()
    ensures { IsWorkedCost }
{}
