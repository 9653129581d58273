// How many columns of each row are open.
use sparse_rows::Rows;
use std::alloc::{AllocError, Global};

// How many columns of a row are open, these columns by exclusive or, and about how many free columns its other columns stand for.
#[derive(Clone, Copy, Debug)]
pub(crate) struct OpenRow {
    pub(crate) open: u32,
    pub(crate) columns: u32,
    pub(crate) entries: u32,
}

const NO_ROW: OpenRow = OpenRow {
    open: 0,
    columns: 0,
    entries: 0,
};

impl OpenRow {
    // A row all of whose columns are open.
    fn of(cols: &[u32]) -> OpenRow {
        let mut row = NO_ROW;
        for column in cols {
            row.open = row.open.saturating_add(1);
            row.columns ^= *column;
        }
        row
    }

    // The row after one of its open columns is settled, which stands for so many free ones.
    fn without(self, column: u32, entries: u32) -> OpenRow {
        OpenRow {
            open: self.open.saturating_sub(1),
            columns: self.columns ^ column,
            entries: self.entries.saturating_add(entries),
        }
    }
}

// The rows of a matrix. It takes 12 bytes a row.
#[derive(Drop)]
pub(crate) struct OpenRows {
    rows: Vec<OpenRow>,
}

impl OpenRows {
    // All columns are open.
    pub(crate) fn of(alloc: Global, rows: &Rows) -> Result<OpenRows, AllocError> {
        let mut open = Vec::with_capacity(alloc, rows.height() as usize)?;
        for row in 0..rows.height() {
            open.push(OpenRow::of(rows.cols(row)))?;
        }
        Ok(OpenRows { rows: open })
    }

    // A row, without an open column if there is no such row.
    pub(crate) fn at(&self, row: u32) -> OpenRow {
        if (row as usize) < self.rows.len() {
            self.rows[row as usize]
        } else {
            NO_ROW
        }
    }

    // Settles an open column of a row, which stands for so many free ones. The answer is the row after it.
    pub(crate) fn settle(&mut self, row: u32, column: u32, entries: u32) -> OpenRow {
        let now = self.at(row).without(column, entries);
        if (row as usize) < self.rows.len() {
            self.rows[row as usize] = now;
        }
        now
    }
}
