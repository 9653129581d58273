//! A desk at which threads take numbers, each number by just one of them.
#![tactic(auto)]

mod desk;
mod desk_rule;
mod known_numbers;
mod laws;
mod number_or_end;
mod taker;

pub use desk::Desk;
pub use laws::{drained_leaves_none, lists_share_no_number};
pub use taker::Taker;
