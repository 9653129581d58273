// Points at which the workers of a search call back.
use residue_words::plain::Pair;

/// Where a worker of a search stands. A worker is named by its number, from 0.
#[derive(Clone, Copy, Debug, PartialEq, Eq)]
pub enum Point {
    /// It has claimed this row.
    Claimed(u32),
    /// It is about to try to publish a pivot at this row and column, having seen this many publications.
    Before(u32, u32, u64),
    /// It has published, and was the one to do so after this many publications.
    Published(u64),
    /// It was overtaken by a newer pivot.
    Newer(Pair),
    /// It has dropped this row.
    Dropped(u32),
}

/// What the workers of a search call at each point, so that tests can hold one back. It has no effect on any answer.
pub trait Gate: Sync {
    /// Called by the worker at the point. It returns.
    fn at(&self, worker: u32, point: Point);
}

// A worker, and the gate that it calls.
#[derive(Drop)]
pub(crate) struct Caller<'g, G: Gate> {
    pub(crate) gate: &'g G,
    pub(crate) worker: u32,
}

impl<'g, G: Gate> Caller<'g, G> {
    // Calls the gate at the point.
    pub(crate) fn at(&self, point: Point) {
        self.gate.at(self.worker, point);
    }
}

/// The gate that does nothing.
#[derive(Clone, Copy, Debug)]
pub struct Open;

impl Gate for Open {
    fn at(&self, _worker: u32, _point: Point) {}
}
