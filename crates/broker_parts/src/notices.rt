// What an operator wants to know of what the directory did or saw: what took long, and a time of day that was set.
use crate::steps::Step;
use delivery_machine::{SubscriptionName, TopicName};
use std::alloc::Global;
use std::collections::VecDeque;
use std::sync::atomic::{AtomicBool, Ordering};
use std::sync::{Mutex, Wait};
use std::time::Duration;

/// How many may wait to be told. What comes beyond is not told.
const MOST: usize = 16;

/// What took long, or went wrong.
#[derive(Drop)]
pub enum Notice {
    /// One commit of so many rows, from the first row to the disk's answer.
    Store {
        took: Duration,
        rows: u64,
    },
    /// A topic came into memory.
    Load {
        topic: TopicName,
        took: Duration,
    },
    /// So many topics that nobody used left memory.
    Unload {
        topics: u64,
        took: Duration,
    },
    /// A subscription was dropped, since nobody had been in it for longer than may be.
    Expired {
        topic: TopicName,
        subscription: SubscriptionName,
    },
    /// The time of day was set: rules by age wait.
    Step(Step),
}

/// What is to be told. Its lock is behind all others.
pub(crate) struct Notices {
    has_some: AtomicBool,
    waiting: Mutex<VecDeque<Notice>>,
}

impl Drop for Notices {
    fn drop(self) {
        let Notices {
            has_some: _,
            waiting: _,
        } = self;
    }
}

impl Notices {
    pub(crate) fn new(alloc: Global) -> Self {
        Notices {
            has_some: AtomicBool::new(false),
            waiting: Mutex::new(VecDeque::new(alloc)),
        }
    }

    /// This is to be told. Without memory for it, it is not.
    pub(crate) fn add<R: Wait>(&self, rt: &R, notice: Notice) {
        let mut waiting = self.waiting.lock(rt);
        if waiting.len() >= MOST {
            drop(notice);
            return;
        }
        let _ = waiting.push_back(notice);
        self.has_some.store(true, Ordering::SeqCst);
    }

    /// The one that came first.
    pub(crate) fn take<R: Wait>(&self, rt: &R) -> Option<Notice> {
        if !self.has_some.load(Ordering::SeqCst) {
            return None;
        }
        let mut waiting = self.waiting.lock(rt);
        let first = waiting.pop_front();
        if waiting.is_empty() {
            self.has_some.store(false, Ordering::SeqCst);
        }
        first
    }
}
