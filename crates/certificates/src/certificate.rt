// Certificates in memory.
use crate::claim::Claim;
use residue_words::plain::Pair;
use sparse_rows::{List, Rows};

/// A claim of a matrix A, and what shows it: factors of A with their pivots. The rank that it claims is the number of pivots.
///
/// Nothing is sure of its parts: whether it is valid for A is for a checker to say. What makes one gives its matrices one modulus
/// (`AreModulo`).
#[derive(Debug, Drop)]
pub struct Certificate {
    /// The modulus that is claimed, whichever modulus the matrices are of.
    pub p: u64,
    /// The row and the column of each pivot, in order.
    pub pivots: List<Pair>,
    /// The left factor, with a column for each pivot.
    pub l: Rows,
    /// The right factor, with a row for each pivot.
    pub u: Rows,
    /// What is claimed besides the rank.
    pub claim: Claim,
}
