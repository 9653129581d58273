//! What an echelon form tells: the kernel basis, the solution of a system or that there is none, the system for what refutes
//! it, and the inverse.
//!
//! For moduli that are no primes each call is safe and gives matrices of the sizes told, and nothing else is said of
//! them.
#![tactic(auto)]

mod bases;
mod columns;
mod inverses;
mod outcome;
mod prepared;
mod reduction;
mod refutations;
mod substitution;
mod systems;
mod vectors;

ghost use Rattle.kernel_solve.specs.Example.{AreWorkedReplies};

pub use bases::{kernel, left_kernel};
pub use inverses::{doubled, inverse, inverse_in, null_row};
pub use outcome::Inverse;
pub use prepared::{Prepared, Reply};
pub use refutations::{first_hit_refutes, unsolvable_is_hit};
pub use systems::{Found, refuting_system, solution};

/// What replies are, worked on an example of 3 x 3.
pub fn replies_are_worked()
    ensures { AreWorkedReplies }
{}
