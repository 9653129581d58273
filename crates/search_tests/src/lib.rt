//! Tests of the public calls of the search for pivots: histories, the leftmost pivots, and searches.
#![tactic(auto)]

#[cfg(test)]
mod tests;
