// Where the workers of a batch call back.

/// What the workers call after each number that they take, so that tests can hold one back. It has no effect on any answer.
pub trait Watch: Sync {
    /// Called by the worker of this number, from 0, that took this question. It returns.
    fn taken(&self, worker: u32, question: u32);
}

/// The watch that does nothing.
#[derive(Clone, Copy, Debug)]
pub struct Unwatched;

impl Watch for Unwatched {
    fn taken(&self, _worker: u32, _question: u32) {}
}
