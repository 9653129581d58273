// What a worker published.
use residue_words::plain::Pair;

/// A pair that was published, and its version: how many pairs its worker had seen when it claimed the row.
#[derive(Clone, Copy, Debug, PartialEq, Eq)]
pub struct Publication {
    /// The row and the column, from 0.
    pub pair: Pair,
    /// How many pairs were seen.
    pub version: u64,
}
