// A row that is lent by its nonzero entries.

// The columns of the nonzero entries, ascending, and their values.
#[derive(Clone, Copy, Debug)]
pub(crate) struct RowEntries<'a> {
    pub cols: &'a [u32],
    pub vals: &'a [u64],
}
