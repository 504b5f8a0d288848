// How often sessions were refused, by the refusal, and which of that is still to be told.
use delivery_machine::Fault;
use status_pages::FAULTS;
use std::sync::atomic::{AtomicBool, Ordering};
use std::sync::{Mutex, Wait};

/// One refusal: how often it came, how often since it was told, and in which second that was.
#[derive(Clone, Copy)]
struct Kind {
    all: u64,
    count: u64,
    told: Option<u64>,
}

/// A refusal that is to be told: its number, and how often it came since it was told before.
#[derive(Clone, Copy, Debug, PartialEq, Eq)]
pub(crate) struct Refused {
    pub(crate) number: usize,
    pub(crate) count: u64,
}

/// The refusals, by their numbers. The lock is held for nothing else, and none is taken under it.
pub(crate) struct Refusals {
    has_some: AtomicBool,
    kinds: Mutex<[Kind; FAULTS]>,
}

impl Drop for Refusals {
    fn drop(self) {
        let Refusals {
            has_some: _,
            kinds: _,
        } = self;
    }
}

impl Refusals {
    pub(crate) fn new() -> Self {
        let none = Kind {
            all: 0,
            count: 0,
            told: None,
        };
        Refusals {
            has_some: AtomicBool::new(false),
            kinds: Mutex::new([none; FAULTS]),
        }
    }

    /// Whether something may be to be told.
    pub(crate) fn has_some(&self) -> bool {
        self.has_some.load(Ordering::SeqCst)
    }

    /// A session was refused.
    pub(crate) fn note<R: Wait>(&self, rt: &R, fault: Fault) {
        let mut kinds = self.kinds.lock(rt);
        if let Some(kind) = kinds.get_mut(usize::from(fault.number())) {
            kind.all = kind.all.saturating_add(1);
            kind.count = kind.count.saturating_add(1);
        }
        self.has_some.store(true, Ordering::SeqCst);
    }

    /// How often each came, by its number.
    pub(crate) fn all<R: Wait>(&self, rt: &R) -> [u64; FAULTS] {
        let kinds = self.kinds.lock(rt);
        let mut all = [0; FAULTS];
        for (count, kind) in all.iter_mut().zip(kinds.iter()) {
            *count = kind.all;
        }
        all
    }

    /// One that may be told in this second, in which it was not told before.
    pub(crate) fn take<R: Wait>(&self, rt: &R, second: u64) -> Option<Refused> {
        let mut kinds = self.kinds.lock(rt);
        let mut waits = false;
        for (number, kind) in kinds.iter_mut().enumerate() {
            if kind.count == 0 {
                continue;
            }
            if kind.told == Some(second) {
                waits = true;
                continue;
            }
            let count = kind.count;
            kind.count = 0;
            kind.told = Some(second);
            return Some(Refused { number, count });
        }
        self.has_some.store(waits, Ordering::SeqCst);
        None
    }
}
