// What waits at the board: topics to be stored, errands of the storing thread, and what found no memory.
ghost use Rattle.std.specs.Prelude.{◌≡◌, Some, true};

use crate::late::{Late, has_room};
use crate::pause::{Due, shorter};
use std::alloc::Global;
use std::collections::VecDeque;
use std::time::{Duration, Instant};

/// How many publishes and other changes a worker stores itself; more are the storing thread's, so that the worker goes on
/// reading.
const SMALL: u64 = 16;

/// How many topics one store takes.
const MOST_STORED: usize = 64;

/// Who has the right to store.
#[derive(Clone, Copy, Debug, PartialEq, Eq)]
pub(crate) enum Leader {
    Nobody,
    Worker,
    Thread,
}

/// What waits, and who stores.
#[derive(Drop)]
pub(crate) struct Queue<X: Drop> {
    pub(crate) topics: VecDeque<X>,
    /// Topics in which letters lie dead that are stored.
    pub(crate) errands: VecDeque<X>,
    pub(crate) late: Late<X>,
    /// Topics wait to be opened piece by piece.
    pub(crate) opens: bool,
    /// What was made since the last store began.
    pub(crate) made: u64,
    leader: Leader,
    /// Several topics were stored together, or some waited until others were stored: so more come soon.
    pub(crate) is_busy: bool,
    pub(crate) thread_waits: bool,
    /// The thread does something that takes a while: workers store all that waits.
    is_aside: bool,
    /// The thread ends once nothing waits.
    pub(crate) is_ending: bool,
    pub(crate) is_closed: bool,
}

/// What the storing thread is to do.
#[derive(Drop)]
pub enum Task<X: Drop> {
    Store(Vec<X>),
    Errand(X),
    /// A piece is read of a topic that is to be opened, with the right to store: so whoever publishes meanwhile waits for no
    /// lock of the store's.
    Open,
    /// Couriers whose pause is over go on, or topics leave that nobody uses.
    Look,
    End,
}

/// What the thread did last.
#[derive(Clone, Copy, Debug, PartialEq, Eq)]
pub enum Did {
    Store,
    Open,
    Other,
}

/// What the thread knows as it asks for a task.
#[derive(Clone, Copy)]
pub struct Turn {
    pub did: Did,
    /// When it is to look for something that was due: the first of its couriers that were refused, or topics that nobody uses.
    pub due: Option<Due>,
}

impl Turn {
    fn is_due(self, time: Option<Instant>) -> bool {
        match self.due {
            Some(due) => due.left(time).is_none(),
            None => false,
        }
    }

    /// How long it is until then; none where there is nothing to wait for.
    fn left(self, time: Option<Instant>) -> Option<Duration> {
        match self.due {
            Some(due) => due.left(time),
            None => None,
        }
    }
}

impl<X: Drop> Queue<X> {
    pub(crate) fn new(alloc: Global) -> Self {
        Queue {
            topics: VecDeque::new(alloc),
            errands: VecDeque::new(alloc),
            late: Late::new(alloc),
            opens: false,
            made: 0,
            leader: Leader::Nobody,
            is_busy: false,
            thread_waits: false,
            is_aside: false,
            is_ending: false,
            is_closed: false,
        }
    }

    /// Room for so many topics, each of which waits here once at most. False for want of memory.
    pub(crate) fn make_room(&mut self, topics: usize) -> bool {
        has_room(&mut self.topics, topics)
            && has_room(&mut self.errands, topics)
            && self.late.make_room(topics)
    }

    /// Whether somebody stores.
    pub(crate) fn is_led(&self) -> bool {
        self.leader != Leader::Nobody
    }

    /// Whether a worker stores it itself: it is little, and nobody else has something to be stored meanwhile; or the thread is
    /// not there.
    pub(crate) fn is_for_worker(&self) -> bool {
        self.is_aside || (self.made <= SMALL && !self.is_busy)
    }

    /// Whether something waits that the thread does not store, since it is not there.
    pub(crate) fn is_left_to_workers(&self) -> bool {
        self.is_aside && !self.topics.is_empty()
    }

    /// The thread is to do something that takes a while. What waits, for whose store nobody would come, is to be stored
    /// before, unless it goes at once. Else it lets go of the right to store.
    pub(crate) fn step_aside(&mut self, alloc: Global, at_once: bool) -> Option<Vec<X>> {
        let goes = at_once || self.is_closed || self.topics.is_empty();
        if !goes && let Some(topics) = self.take(alloc, Leader::Thread) {
            return Some(topics);
        }
        self.end();
        self.is_aside = true;
        None
    }

    /// Who stored has ended.
    pub(crate) fn end(&mut self) {
        self.leader = Leader::Nobody;
        self.is_busy |= !self.topics.is_empty();
    }

    /// The thread asks for a task. Where it had the right to store, that has ended; one that a worker has stays.
    pub(crate) fn begin(&mut self) {
        self.is_aside = false;
        if self.leader == Leader::Thread {
            self.end();
        }
    }

    /// Whether something waits that the thread does not know of.
    pub(crate) fn has_news(&self) -> bool {
        let has_some = !(self.topics.is_empty() && self.errands.is_empty());
        has_some || self.opens || self.late.is_new() || self.is_ending
    }

    /// The right to store, with the topics that have waited longest. None where there is no memory.
    pub(crate) fn take(&mut self, alloc: Global, leader: Leader) -> Option<Vec<X>> {
        let count = self.topics.len().min(MOST_STORED);
        let mut taken = Vec::with_capacity(alloc, count).ok()?;
        for _ in 0..count {
            let Some(topic) = self.topics.pop_front() else {
                break;
            };
            let _ = taken.push(topic);
        }
        self.leader = leader;
        self.is_busy = count > 1;
        self.made = 0;
        Some(taken)
    }

    /// What the thread stores now, where it may and there is memory.
    fn store(&mut self, alloc: Global) -> Option<Task<X>> {
        if self.is_led() || self.topics.is_empty() || self.late.is_short() {
            return None;
        }
        match self.take(alloc, Leader::Thread) {
            Some(topics) => Some(Task::Store(topics)),
            None => {
                self.late.fall_short();
                None
            }
        }
    }

    /// An errand of the thread, where there is one.
    fn errand(&mut self, is_due: bool) -> Option<Task<X>> {
        if self.is_ending {
            return None;
        }
        if is_due {
            return Some(Task::Look);
        }
        match self.errands.pop_front() {
            Some(topic) => Some(Task::Errand(topic)),
            None => None,
        }
    }

    /// A piece of a topic that is to be opened, where there is one and nobody stores.
    fn piece(&mut self) -> Option<Task<X>> {
        if !self.opens || self.is_led() || self.is_ending {
            return None;
        }
        self.leader = Leader::Thread;
        Some(Task::Open)
    }

    /// What the thread does besides storing.
    fn other(&mut self, is_due: bool) -> Option<Task<X>> {
        match self.errand(is_due) {
            Some(task) => Some(task),
            None => self.piece(),
        }
    }

    /// What the thread does of these. An errand or a piece has its turn after each store, however many topics wait: else
    /// letters would lie, and a topic stay closed, for as long as others publish.
    fn work(&mut self, alloc: Global, did: Did, is_due: bool) -> Option<Task<X>> {
        if did == Did::Store {
            return match self.other(is_due) {
                Some(task) => Some(task),
                None => self.store(alloc),
            };
        }
        match self.store(alloc) {
            Some(task) => Some(task),
            None => self.other(is_due),
        }
    }

    /// Nothing is stored any more.
    pub(crate) fn close(&mut self)
        ensures { self.new.is_closed ≡ true }
    {
        self.is_closed = true;
        self.leader = Leader::Nobody;
    }

    /// What the thread does now. It ends once nothing waits to be stored, and at once where nothing is stored any more.
    pub(crate) fn task(
        &mut self,
        alloc: Global,
        turn: Turn,
        time: Option<Instant>,
    ) -> Option<Task<X>>
        ensures { self.old.is_closed ≡ true → result ≡ Some Task.End }
    {
        if self.is_closed {
            return Some(Task::End);
        }
        self.resume(time);
        let work = self.work(alloc, turn.did, turn.is_due(time));
        let waits = self.is_led() || self.late.has_topics() || !self.topics.is_empty();
        if work.is_none() && self.is_ending && !waits {
            Some(Task::End)
        } else {
            work
        }
    }

    /// What found no memory is tried again once its pause is over.
    fn resume(&mut self, time: Option<Instant>) {
        if !self.late.is_empty() && self.late.left(time).is_none() {
            self.late.leave(&mut self.topics, &mut self.errands);
        }
    }

    /// How long the thread is to wait where it has no task, if nothing comes; none for without an end.
    pub(crate) fn left(&mut self, turn: Turn, time: Option<Instant>) -> Option<Duration> {
        let late = self.late.left(time);
        if self.is_ending {
            late
        } else {
            shorter(late, turn.left(time))
        }
    }

    /// Whether the thread is to be woken, which counts as awake then.
    pub(crate) fn wakes(&mut self) -> bool {
        let wakes = self.thread_waits;
        self.thread_waits = false;
        wakes
    }
}
