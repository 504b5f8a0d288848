// What a thread sleeps by, until another one wakes it.
use crate::worker::WAKER;
use mio::{Events, Poll, Registry, Waker};
use std::alloc::Global;
use std::net::Net;
use std::sync::Arc;
use std::time::Duration;

/// How many events one sleep takes.
const EVENTS: usize = 16;

/// A poll, and what wakes the thread that sleeps by it. It keeps the waker: a wake is lost where its waker is dropped first.
#[derive(Drop)]
pub(crate) struct Alarm {
    poll: Poll,
    events: Events,
    waker: Arc<Waker>,
}

fn waker_for(alloc: Global, poll: &Poll) -> Option<Arc<Waker>> {
    let waker = Waker::new(poll.registry(), WAKER).ok()?;
    Arc::new(alloc, waker).ok()
}

impl Alarm {
    pub(crate) fn new<R: Net>(rt: &R, alloc: Global) -> Option<Alarm> {
        let poll = Poll::new(rt).ok()?;
        let waker = waker_for(alloc, &poll)?;
        Some(Alarm {
            poll,
            events: Events::with_capacity(alloc, EVENTS).ok()?,
            waker,
        })
    }

    /// What is registered here ends a sleep too.
    pub(crate) fn registry(&self) -> &Registry {
        self.poll.registry()
    }

    /// What another thread wakes it by.
    pub(crate) fn waker(&self) -> Option<Arc<Waker>> {
        Arc::try_clone(&self.waker).ok()
    }

    /// Sleeps until it is woken, but no longer than so many milliseconds. False where it cannot.
    pub(crate) fn sleep(&mut self, most: u64) -> bool {
        let most = Some(Duration::from_millis(most));
        self.poll.poll(&mut self.events, most).is_ok()
    }

    /// Whether something ended the last sleep before its time was up.
    pub(crate) fn is_rung(&self) -> bool {
        !self.events.is_empty()
    }
}
