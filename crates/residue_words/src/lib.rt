//! Arithmetic modulo a number below 2^48, and decimal digits folded modulo it.
//!
//! The modulus is prime where the user says so: nothing here tests it. No call takes memory.
#![tactic(auto)]

mod fold;
mod modulus;
pub mod plain;
mod shoup;

pub use fold::Fold;
pub use modulus::{MODULUS_BOUND, Modulus};
pub use shoup::{LANE_BOUND, Shoup};
