// The turns of a search's workers, counted.
use optimistic_search::{Gate, Point};
use std::sync::atomic::{AtomicU64, Ordering};

// A gate that counts the rows that workers have claimed, and how often one of them was overtaken.
#[derive(Drop)]
pub(crate) struct Counts {
    claimed: AtomicU64,
    overtaken: AtomicU64,
}

impl Counts {
    // Nothing counted yet.
    pub(crate) fn zero() -> Counts {
        Counts {
            claimed: AtomicU64::new(0),
            overtaken: AtomicU64::new(0),
        }
    }

    // How many rows were claimed.
    pub(crate) fn claimed(&self) -> u64 {
        self.claimed.load(Ordering::SeqCst)
    }

    // How often a worker was overtaken.
    pub(crate) fn overtaken(&self) -> u64 {
        self.overtaken.load(Ordering::SeqCst)
    }
}

impl Gate for Counts {
    fn at(&self, _worker: u32, point: Point) {
        match point {
            Point::Claimed(_) => {
                self.claimed.fetch_add(1, Ordering::SeqCst);
            }
            Point::Newer(_) => {
                self.overtaken.fetch_add(1, Ordering::SeqCst);
            }
            _ => {}
        }
    }
}
