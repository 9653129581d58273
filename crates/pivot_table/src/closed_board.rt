// What a closed board leaves.
use crate::book::Book;
use crate::marks::Marks;
use crate::starts::Starts;

/// A board that is closed: its history, and of its rows which are done and when they were claimed.
#[derive(Debug, Drop)]
pub struct Closed<'a> {
    pub book: Book<'a>,
    pub done: Marks,
    pub starts: Starts,
}
