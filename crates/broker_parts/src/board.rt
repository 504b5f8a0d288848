// The board: which topics wait to be stored, and who may store them.
use crate::clock::instant;
use crate::queue::{Leader, Queue, Task, Turn};
use std::alloc::Global;
use std::rt::Clock;
use std::sync::{Condvar, CondvarTimeouts, Mutex, MutexGuard, Wait};
use std::time::Duration;

/// What waits to be stored, and the right to store it: both under one lock, so that the last look and letting go are one.
#[derive(Drop)]
pub struct Board<X: Drop> {
    alloc: Global,
    queue: Mutex<Queue<X>>,
    news: Condvar,
}

impl<X: Drop> Board<X> {
    pub fn new(alloc: Global) -> Self {
        Board {
            alloc,
            queue: Mutex::new(Queue::new(alloc)),
            news: Condvar::new(),
        }
    }

    /// Room for so many topics, each of which waits here once at most. False for want of memory.
    pub fn make_room<R: Wait>(&self, rt: &R, topics: usize) -> bool {
        let mut queue = self.queue.lock(rt);
        queue.make_room(topics)
    }

    /// The topic waits to be stored. Whoever says so asks to lead later, or leads, or wakes the thread.
    pub(crate) fn add<R: Wait>(&self, rt: &R, topic: X) {
        let mut queue = self.queue.lock(rt);
        let _ = queue.topics.push_back(topic);
    }

    /// Letters lie dead in the topic that are stored: the thread is to send the courier.
    pub fn send<R: Wait>(&self, rt: &R, topic: X) {
        let mut guard = self.queue.lock(rt);
        let queue = &mut *guard;
        let _ = queue.errands.push_back(topic);
        let wakes = queue.wakes();
        drop(guard);
        if wakes {
            self.news.notify_one();
        }
    }

    /// A topic waits to be opened piece by piece, which the thread is to do.
    pub fn open<R: Wait>(&self, rt: &R) {
        let mut guard = self.queue.lock(rt);
        let queue = &mut *guard;
        queue.opens = true;
        let wakes = queue.wakes();
        drop(guard);
        if wakes {
            self.news.notify_one();
        }
    }

    /// No topic waits to be opened any more.
    pub fn opened<R: Wait>(&self, rt: &R) {
        let mut queue = self.queue.lock(rt);
        queue.opens = false;
    }

    /// The thread, which has the right to store, is to do something that takes a while. What it is to store before that,
    /// unless it goes at once. Where there is nothing, workers store all that waits until it asks for a task again.
    pub fn step_aside<R: Wait>(&self, rt: &R, at_once: bool) -> Option<Vec<X>> {
        let mut guard = self.queue.lock(rt);
        let queue = &mut *guard;
        queue.step_aside(self.alloc, at_once)
    }

    /// The topic is stored by the thread, after a pause.
    pub(crate) fn add_late<R: Wait>(&self, rt: &R, topic: X) {
        let mut queue = self.queue.lock(rt);
        queue.late.add(topic);
    }

    /// There was no memory for a courier to the topic: the thread, which says so, is to send one after a pause.
    pub fn put_off_errand<R: Wait>(&self, rt: &R, topic: X) {
        let mut queue = self.queue.lock(rt);
        queue.late.add_errand(topic);
    }

    /// The topics that the caller is to store now; none where another stores, where the thread is to, or where nothing
    /// waits. Where there is no memory for a list of them, the thread is to.
    pub fn lead<R: Wait>(&self, rt: &R, made: u64) -> Option<Vec<X>> {
        let mut guard = self.queue.lock(rt);
        let queue = &mut *guard;
        queue.made = queue.made.saturating_add(made);
        if queue.is_led() || queue.is_closed {
            return None;
        }
        if queue.topics.is_empty() {
            queue.made = 0;
            return None;
        }
        if queue.is_for_worker()
            && let Some(topics) = queue.take(self.alloc, Leader::Worker)
        {
            return Some(topics);
        }
        let wakes = queue.wakes();
        drop(guard);
        if wakes {
            self.news.notify_one();
        }
        None
    }

    /// A worker has stored. What came meanwhile is the thread's, since the worker has answers to give first; where the
    /// thread is not there, the worker is to store that too, and so it is told.
    pub fn end<R: Wait>(&self, rt: &R) -> bool {
        let mut guard = self.queue.lock(rt);
        let queue = &mut *guard;
        queue.end();
        let goes_on = queue.is_left_to_workers();
        let wakes = queue.has_news() && queue.wakes();
        drop(guard);
        if wakes {
            self.news.notify_one();
        }
        goes_on
    }

    /// What the thread is to do next; it waits until there is something.
    pub fn next<R: Wait + Clock>(&self, rt: &R, turn: Turn) -> Task<X> {
        let mut queue = self.queue.lock(rt);
        queue.begin();
        for _ in rt.forever() {
            let time = instant(rt);
            if let Some(task) = queue.task(self.alloc, turn, time) {
                return task;
            }
            let left = queue.left(turn, time);
            queue.thread_waits = true;
            queue = self.wait(rt, queue, left);
        }
        Task::End
    }

    /// Waits for news, and no longer than so long where that is said.
    fn wait<'b, R: Wait + Clock>(
        &self,
        rt: &R,
        queue: MutexGuard<'b, Queue<X>>,
        most: Option<Duration>,
    ) -> MutexGuard<'b, Queue<X>> {
        match most {
            Some(most) => self.news.wait_timeout(rt, queue, most).0,
            None => self.news.wait(rt, queue),
        }
    }

    /// What the thread is to do now, where there is something.
    pub fn try_next<R: Wait + Clock>(&self, rt: &R, turn: Turn) -> Option<Task<X>> {
        let time = instant(rt);
        let mut guard = self.queue.lock(rt);
        let queue = &mut *guard;
        queue.begin();
        queue.task(self.alloc, turn, time)
    }

    /// The thread ends once nothing waits to be stored.
    pub fn finish<R: Wait>(&self, rt: &R) {
        let mut guard = self.queue.lock(rt);
        let queue = &mut *guard;
        queue.is_ending = true;
        drop(guard);
        self.news.notify_all();
    }

    /// Nothing is stored any more.
    pub fn close<R: Wait>(&self, rt: &R) {
        let mut guard = self.queue.lock(rt);
        let queue = &mut *guard;
        queue.close();
        drop(guard);
        self.news.notify_all();
    }

    pub fn is_closed<R: Wait>(&self, rt: &R) -> bool {
        let queue = self.queue.lock(rt);
        queue.is_closed
    }
}
