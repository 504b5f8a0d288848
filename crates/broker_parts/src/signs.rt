// What those who sit at a topic see without its lock.
use delivery_machine::{Fault, Reply};
use std::sync::atomic::{AtomicBool, Ordering};

/// Whether those who sit at a topic are to look whether they may stay.
#[derive(Drop)]
pub struct Signs {
    /// It may not be used any more: its stage, which the lock guards, says why.
    is_over: AtomicBool,
    /// A session there is to end: which one, the lock guards.
    has_to_go: AtomicBool,
}

impl Signs {
    pub fn new() -> Self {
        Signs {
            is_over: AtomicBool::new(false),
            has_to_go: AtomicBool::new(false),
        }
    }

    /// The topic may not be used any more.
    pub fn note_over(&self) {
        self.is_over.store(true, Ordering::SeqCst);
    }

    pub fn is_over(&self) -> bool {
        self.is_over.load(Ordering::SeqCst)
    }

    /// The topic was asked, and answered so: where its journal is full it may not be used any more.
    pub fn note_answer(&self, answer: &Result<Reply, Fault>) {
        if let Err(Fault::JournalFull) = answer {
            self.note_over();
        }
    }

    /// Whether a session is to end. Set under the lock.
    pub fn set_to_go(&self, has: bool) {
        self.has_to_go.store(has, Ordering::SeqCst);
    }

    pub fn has_to_go(&self) -> bool {
        self.has_to_go.load(Ordering::SeqCst)
    }

    /// Whether all who sit there may stay.
    pub fn are_clear(&self) -> bool {
        !self.is_over() && !self.has_to_go()
    }
}
