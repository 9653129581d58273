// In which order a front that grows over a matrix comes to its columns and rows.
use crate::open_rows::{OpenRow, OpenRows};
use crate::waiting_rows::WaitingRows;
use sparse_rows::Rows;
use std::alloc::{AllocError, Global};

// Of a column so many rows are looked at, to see how many of them a free column would help.
const LOOKED_AT: usize = 64;

// Where each column and each row of a matrix stands: a lower place is before a higher one.
#[derive(Drop)]
pub(crate) struct FrontPlaces {
    // From the column that is settled last to the first, so that a row that closes begins at its pivot.
    pub(crate) columns: Vec<u32>,
    // From the row that closes first to the last.
    pub(crate) rows: Vec<u32>,
}

impl FrontPlaces {
    // The places in a matrix.
    //
    // Columns are settled one after another. A row all of whose columns but one are settled closes: this column is its pivot, and is settled
    // next. If no row can close, a column is made free: of the rows with the fewest open columns, the one that would leave the fewest
    // entries is taken, and of its open columns the one that brings most other rows as near. So pivots stand in triangular order, and what
    // they leave stays sparse, since the front grows where it is. This is the inactivation of decoders (Shokrollahi and Luby, Raptor codes,
    // 2011), and the coreduction of complexes (Mrozek and Batko, Coreduction homology algorithm, 2009). The time is that of the entries.
    pub(crate) fn of(alloc: Global, rows: &Rows) -> Result<FrontPlaces, AllocError> {
        let columns = rows.transpose(alloc)?;
        let mut front = Front::new(alloc, rows)?;
        for _ in 0..columns.height() {
            let Some(next) = front.next_column(rows, &columns) else {
                break;
            };
            front.settle(&columns, next)?;
        }
        Ok(FrontPlaces {
            columns: places_back(alloc, columns.height(), &front.settled)?,
            rows: places(alloc, rows.height(), &front.closed)?,
        })
    }
}

// A column that is to be settled, and about how many free columns it then stands for.
#[derive(Clone, Copy, Debug)]
struct NextColumn {
    column: u32,
    entries: u32,
}

// How far the front is.
#[derive(Drop)]
struct Front {
    rows: OpenRows,
    waiting: WaitingRows,
    // The rows that came down to one open column, in the order in which they did, and how many of them were looked at.
    closed: Vec<u32>,
    looked_at: usize,
    // The columns that are settled, in order, and for each column whether it is.
    settled: Vec<u32>,
    is_settled: Vec<bool>,
}

impl Front {
    // No column is settled.
    fn new(alloc: Global, rows: &Rows) -> Result<Front, AllocError> {
        let mut front = Front {
            rows: OpenRows::of(alloc, rows)?,
            waiting: WaitingRows::new(alloc)?,
            closed: Vec::new(alloc),
            looked_at: 0,
            settled: Vec::new(alloc),
            is_settled: vec![in alloc; false; rows.width() as usize]?,
        };
        for row in 0..rows.height() {
            let open = front.rows.at(row);
            front.put(row, open)?;
        }
        Ok(front)
    }

    // Puts a row among those that close, or where it waits.
    fn put(&mut self, row: u32, open: OpenRow) -> Result<(), AllocError> {
        if open.open == 1 {
            self.closed.push(row)?;
            return Ok(());
        }
        self.waiting.put(row, open)
    }

    // The column that is to be settled next, if there is one.
    fn next_column(&mut self, rows: &Rows, columns: &Rows) -> Option<NextColumn> {
        let pivot = self.next_pivot();
        if pivot.is_some() {
            return pivot;
        }
        self.next_free(rows, columns)
    }

    // The open column of the next row that closes.
    fn next_pivot(&mut self) -> Option<NextColumn> {
        for at in self.looked_at..self.closed.len() {
            self.looked_at = at + 1;
            let row = self.rows.at(self.closed[at]);
            if row.open == 1 {
                return Some(NextColumn {
                    column: row.columns,
                    entries: row.entries,
                });
            }
        }
        None
    }

    // The column that is made free.
    fn next_free(&mut self, rows: &Rows, columns: &Rows) -> Option<NextColumn> {
        let row = self.waiting.take(&self.rows)?;
        let column = self.busiest_column(rows, columns, row)?;
        Some(NextColumn { column, entries: 1 })
    }

    // Of the open columns of a row the one in which most rows have as many open columns.
    fn busiest_column(&self, rows: &Rows, columns: &Rows, row: u32) -> Option<u32> {
        if row >= rows.height() {
            return None;
        }
        let open = self.rows.at(row).open;
        let mut busiest = None;
        let mut most = 0;
        for column in rows.cols(row) {
            let count = self.count_alike(columns, *column, open);
            if count > most {
                most = count;
                busiest = Some(*column);
            }
        }
        busiest
    }

    // One more than how many of the first rows of a column have so many open columns; 0 if it is settled.
    fn count_alike(&self, columns: &Rows, column: u32, open: u32) -> usize {
        if column >= columns.height() || self.has_settled(column) {
            return 0;
        }
        let rows = columns.cols(column);
        let mut count: usize = 1;
        for at in 0..rows.len().min(LOOKED_AT) {
            if self.rows.at(rows[at]).open == open {
                count = count.saturating_add(1);
            }
        }
        count
    }

    // Whether a column is settled.
    fn has_settled(&self, column: u32) -> bool {
        (column as usize) < self.is_settled.len() && self.is_settled[column as usize]
    }

    // Settles a column, unless it is.
    fn settle(&mut self, columns: &Rows, next: NextColumn) -> Result<(), AllocError> {
        let NextColumn { column, entries } = next;
        if column >= columns.height() || self.has_settled(column) {
            return Ok(());
        }
        if (column as usize) < self.is_settled.len() {
            self.is_settled[column as usize] = true;
        }
        self.settled.push(column)?;
        for row in columns.cols(column) {
            let open = self.rows.settle(*row, column, entries);
            self.put(*row, open)?;
        }
        Ok(())
    }
}

// For each number below n its place among these; the others stand last.
fn places(alloc: Global, n: u32, numbers: &[u32]) -> Result<Vec<u32>, AllocError> {
    let mut places = vec![in alloc; u32::MAX; n as usize]?;
    let mut place: u32 = 0;
    for number in numbers {
        set_place(&mut places, *number, place);
        place = place.saturating_add(1);
    }
    Ok(places)
}

// The same from the last to the first; the others stand first.
fn places_back(alloc: Global, n: u32, numbers: &[u32]) -> Result<Vec<u32>, AllocError> {
    let mut places = vec![in alloc; 0; n as usize]?;
    let mut place = n;
    for number in numbers {
        set_place(&mut places, *number, place);
        place = place.saturating_sub(1);
    }
    Ok(places)
}

// Gives a number a place, if it is one of those that have one.
fn set_place(places: &mut [u32], number: u32, place: u32) {
    if (number as usize) < places.len() {
        places[number as usize] = place;
    }
}
