// A history with versions.
use pivot_table::Book;

/// What a search found, with a version for each pair: how much of the history was seen when its row was claimed.
#[derive(Debug, Drop)]
pub struct Traced<'a> {
    pub book: Book<'a>,
    pub versions: Vec<u64>,
}
