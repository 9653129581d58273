//! Tests of the programs' top calls on whole inputs, and of the words that they accept.
#![tactic(auto)]

#[cfg(test)]
mod tests;
