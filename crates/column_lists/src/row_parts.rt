// Rows one after another in one list.

/// Where rows begin, one after another, and where the last ends; and the columns and values of all.
#[derive(Drop)]
pub struct RowParts {
    /// The start of each row, and the end of the last.
    pub starts: Vec<usize>,
    /// The columns of all rows.
    pub cols: Vec<u32>,
    /// The values beside them.
    pub vals: Vec<u64>,
}
