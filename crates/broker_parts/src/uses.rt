// How often topics were used, so that it is known which one nobody has used for the longest.
use std::sync::atomic::{AtomicU64, Ordering};

/// A count of the attaches, the detaches and the couriers' visits of all topics.
#[derive(Drop)]
pub struct Uses {
    made: AtomicU64,
}

impl Uses {
    pub fn new() -> Self {
        Uses {
            made: AtomicU64::new(0),
        }
    }

    /// The number of one more use.
    pub fn next(&self) -> u64 {
        self.made.fetch_add(1, Ordering::SeqCst)
    }

    /// The number that the next use will have.
    pub fn made(&self) -> u64 {
        self.made.load(Ordering::SeqCst)
    }
}
