// Traces in memory.
use crate::publication::Publication;
use sparse_rows::List;

/// What a search published, in order.
///
/// Nothing is sure of it: its modulus, its rows and columns and its versions may be any numbers. Whether it is lawful for a matrix is
/// for `replay` to say.
#[derive(Debug, Drop)]
pub struct Trace {
    /// The modulus that is claimed.
    pub p: u64,
    /// What was published, in order. It takes 16 bytes a publication.
    pub publications: List<Publication>,
}
