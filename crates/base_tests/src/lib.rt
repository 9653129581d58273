//! Tests of the public calls of the base: residues, sparse rows and their order, texts and streams.
#![tactic(auto)]

#[cfg(test)]
mod tests;
