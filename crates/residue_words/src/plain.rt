// The place of an entry. The plain residues and matrices that contracts speak of stand in specs/.

/// The place of an entry of a matrix: its row and its column, from 0.
#[derive(Clone, Copy, Debug, PartialEq, Eq)]
pub struct Pair {
    /// The row, from 0.
    pub row: u32,
    /// The column, from 0.
    pub col: u32,
}
