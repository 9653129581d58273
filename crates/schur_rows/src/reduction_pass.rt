// One pass over the rows of a matrix, that takes the pivots out of them.
use crate::pivot_numbers::PivotNumbers;
use crate::row_reducer::RowReducer;

// What the workers of a pass share.
#[derive(Clone, Copy, Debug)]
pub struct ReductionPass<'r, 't, 'a> {
    pub reducer: &'r RowReducer<'t, 'a>,
    pub pivot_rows: &'r PivotNumbers,
    // Whether the coefficients are kept.
    pub with_coefficients: bool,
    // About how many entries it leaves of all rows.
    pub total: u64,
}
