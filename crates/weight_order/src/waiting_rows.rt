// Rows that wait for one of their columns to be made free.
use crate::open_rows::{OpenRow, OpenRows};
use std::alloc::{AllocError, Global};
use std::collections::VecDeque;

// Lines for rows with two open columns, by how full they would be.
const LINES_OF_TWO: usize = 256;

// Rows with so many open columns or more don't wait before they have fewer.
const MOST_OPEN: u32 = 64;

// A row, and how many open columns it had when it came.
#[derive(Clone, Copy, Debug)]
struct WaitingRow {
    row: u32,
    open: u32,
}

// Rows in lines: those with two open columns by how many entries they would leave, then those with three, four and so on. The first line
// goes first, and in it who came first.
#[derive(Drop)]
pub(crate) struct WaitingRows {
    lines: Vec<VecDeque<WaitingRow>>,
    // No line before this one has a row.
    first: usize,
}

impl WaitingRows {
    // No row.
    pub(crate) fn new(alloc: Global) -> Result<WaitingRows, AllocError> {
        let mut lines = Vec::new(alloc);
        for _ in 0..LINES_OF_TWO + MOST_OPEN as usize {
            lines.push(VecDeque::new(alloc))?;
        }
        Ok(WaitingRows { lines, first: 0 })
    }

    // Puts a row behind the others of its line.
    pub(crate) fn put(&mut self, row: u32, open: OpenRow) -> Result<(), AllocError> {
        let Some(line) = line_of(open) else {
            return Ok(());
        };
        if line < self.lines.len() {
            self.lines[line].push_back(WaitingRow {
                row,
                open: open.open,
            })?;
            self.first = self.first.min(line);
        }
        Ok(())
    }

    // Takes the row that stands first, of those with as many open columns as when they came.
    pub(crate) fn take(&mut self, rows: &OpenRows) -> Option<u32> {
        for line in self.first..self.lines.len() {
            self.first = line;
            let row = self.take_of(line, rows);
            if row.is_some() {
                return row;
            }
        }
        None
    }

    // The same of one line.
    fn take_of(&mut self, line: usize, rows: &OpenRows) -> Option<u32> {
        if line >= self.lines.len() {
            return None;
        }
        for _ in 0..self.lines[line].len() {
            let waiting = self.lines[line].pop_front()?;
            if rows.at(waiting.row).open == waiting.open {
                return Some(waiting.row);
            }
        }
        None
    }
}

// The line of a row; None if it doesn't wait.
fn line_of(row: OpenRow) -> Option<usize> {
    if row.open == 2 {
        Some(line_of_two(row.entries))
    } else if 2 < row.open && row.open < MOST_OPEN {
        Some(LINES_OF_TWO + row.open as usize)
    } else {
        None
    }
}

// The line of a row with two open columns that would leave about so many entries: one for each number below 16, and eight for each
// doubling above.
fn line_of_two(entries: u32) -> usize {
    let mut top = entries;
    for halvings in 0..28 {
        if top < 16 {
            return 8 * halvings + top as usize;
        }
        top /= 2;
    }
    LINES_OF_TWO - 1
}
