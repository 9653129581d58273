//! Tests of the public calls that eliminate: rows added and kept by their leads, what pivots leave, plain forms of answers that
//! programs work out by rounds, and a caller alone.
#![tactic(auto)]

#[cfg(test)]
mod tests;
