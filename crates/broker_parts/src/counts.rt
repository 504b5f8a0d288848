// What the directory has done since it was opened, and what is known of topics that are not in memory, as its lookers are told.
use crate::notices::{Notice, Notices};
use crate::resting::Resting;
use crate::steps::Step;
use delivery_machine::{SubscriptionName, TopicName};
use status_pages::{Histogram, Rows};
use std::alloc::Global;
use std::sync::atomic::{AtomicU64, Ordering};
use std::sync::{Mutex, Wait};
use std::time::Duration;

/// A store that took so many milliseconds is told of.
const LONG_STORE: u128 = 100;

/// Topics that came into memory, or left it, in so many are told of.
const LONG_MOVE: u128 = 1_000;

/// What stores wrote, and how long they took.
#[derive(Clone, Copy)]
pub struct Stores {
    pub rows: Rows,
    pub times: Histogram,
}

/// How many topics came into memory and left it, what was stored, and what was seen last of topics that are not in memory. Its
/// locks are behind all others.
pub struct Counts {
    pub resting: Resting,
    loads: AtomicU64,
    unloads: AtomicU64,
    stores: Mutex<Stores>,
    notices: Notices,
}

impl Drop for Counts {
    fn drop(self) {
        let Counts {
            resting: _,
            loads: _,
            unloads: _,
            stores: _,
            notices: _,
        } = self;
    }
}

impl Counts {
    pub fn new(alloc: Global) -> Self {
        Counts {
            resting: Resting::new(alloc),
            loads: AtomicU64::new(0),
            unloads: AtomicU64::new(0),
            stores: Mutex::new(Stores {
                rows: Rows {
                    inserted: 0,
                    updated: 0,
                    deleted: 0,
                },
                times: Histogram::new(),
            }),
            notices: Notices::new(alloc),
        }
    }

    pub fn load(&self) {
        let _ = self.loads.fetch_add(1, Ordering::SeqCst);
    }

    pub fn unload(&self) {
        let _ = self.unloads.fetch_add(1, Ordering::SeqCst);
    }

    pub fn loads(&self) -> u64 {
        self.loads.load(Ordering::SeqCst)
    }

    pub fn unloads(&self) -> u64 {
        self.unloads.load(Ordering::SeqCst)
    }

    /// A store wrote so much; how long it took, where the clock could be read.
    pub fn store<R: Wait>(&self, rt: &R, written: Rows, took: Option<Duration>) {
        let mut stores = self.stores.lock(rt);
        let rows = &mut stores.rows;
        rows.inserted = rows.inserted.saturating_add(written.inserted);
        rows.updated = rows.updated.saturating_add(written.updated);
        rows.deleted = rows.deleted.saturating_add(written.deleted);
        if let Some(took) = took {
            stores
                .times
                .add(u64::try_from(took.as_micros()).unwrap_or(u64::MAX));
        }
        drop(stores);
        if let Some(took) = long(took, LONG_STORE) {
            let rows = written
                .inserted
                .saturating_add(written.updated)
                .saturating_add(written.deleted);
            self.notices.add(rt, Notice::Store { took, rows });
        }
    }

    /// The topic came into memory; how long that took, where the clock could be read.
    pub fn note_load<R: Wait>(&self, rt: &R, topic: &TopicName, took: Option<Duration>) {
        if let Some(took) = long(took, LONG_MOVE)
            && let Ok(topic) = topic.clone()
        {
            self.notices.add(rt, Notice::Load { topic, took });
        }
    }

    /// Topics left memory, since so many had; how long that took.
    pub fn note_unloads<R: Wait>(&self, rt: &R, before: u64, took: Option<Duration>) {
        if let Some(took) = long(took, LONG_MOVE) {
            let topics = self.unloads().saturating_sub(before);
            self.notices.add(rt, Notice::Unload { topics, took });
        }
    }

    /// The subscription was dropped, since nobody had been in it for longer than may be.
    pub fn note_expired<R: Wait>(&self, rt: &R, topic: &TopicName, subscription: SubscriptionName) {
        match topic.clone() {
            Ok(topic) => self.notices.add(
                rt,
                Notice::Expired {
                    topic,
                    subscription,
                },
            ),
            Err(_) => drop(subscription),
        }
    }

    /// The time of day was set.
    pub fn note_step<R: Wait>(&self, rt: &R, step: Step) {
        self.notices.add(rt, Notice::Step(step));
    }

    pub fn stores<R: Wait>(&self, rt: &R) -> Stores {
        let stores = self.stores.lock(rt);
        *stores
    }

    /// What there is to tell, one after another, from the first on that was not told.
    pub fn notice<R: Wait>(&self, rt: &R) -> Option<Notice> {
        self.notices.take(rt)
    }
}

/// How long it took, where that is known, and no fewer than so many milliseconds.
fn long(took: Option<Duration>, least: u128) -> Option<Duration> {
    match took {
        Some(took) if took.as_millis() >= least => Some(took),
        _ => None,
    }
}
