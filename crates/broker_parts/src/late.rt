// What found no memory, and is tried again after a pause.
use crate::pause::Due;
use std::alloc::Global;
use std::collections::VecDeque;
use std::time::{Duration, Instant};

/// What found no memory, and is tried again after a pause.
#[derive(Drop)]
pub(crate) struct Late<X: Drop> {
    /// Topics that could not be stored. They count as queued.
    topics: VecDeque<X>,
    /// Topics to which no courier could be sent. They count as sent there.
    errands: VecDeque<X>,
    /// There was no memory for the list of those that are stored next.
    is_short: bool,
    /// When the pause ends; none until the thread has seen that one is wanted.
    due: Option<Due>,
}

impl<X: Drop> Late<X> {
    pub(crate) fn new(alloc: Global) -> Self {
        Late {
            topics: VecDeque::new(alloc),
            errands: VecDeque::new(alloc),
            is_short: false,
            due: None,
        }
    }

    /// Room for so many topics, each of which is here once at most. False for want of memory.
    pub(crate) fn make_room(&mut self, topics: usize) -> bool {
        has_room(&mut self.topics, topics) && has_room(&mut self.errands, topics)
    }

    pub(crate) fn add(&mut self, topic: X) {
        let _ = self.topics.push_back(topic);
    }

    pub(crate) fn add_errand(&mut self, topic: X) {
        let _ = self.errands.push_back(topic);
    }

    pub(crate) fn fall_short(&mut self) {
        self.is_short = true;
    }

    pub(crate) fn is_short(&self) -> bool {
        self.is_short
    }

    pub(crate) fn has_topics(&self) -> bool {
        !self.topics.is_empty()
    }

    pub(crate) fn is_empty(&self) -> bool {
        self.topics.is_empty() && self.errands.is_empty() && !self.is_short
    }

    /// Whether a pause is wanted that the thread has not seen.
    pub(crate) fn is_new(&self) -> bool {
        !self.is_empty() && self.due.is_none()
    }

    /// How long the pause is still; none where nothing is late, or the pause is over. It begins when this is asked first.
    pub(crate) fn left(&mut self, time: Option<Instant>) -> Option<Duration> {
        if self.is_empty() {
            return None;
        }
        let due = match self.due {
            Some(due) => due,
            None => Due::soon(time),
        };
        self.due = Some(due);
        due.left(time)
    }

    /// The pause is over: all goes back to where it is tried from, for which there is room.
    pub(crate) fn leave(&mut self, topics: &mut VecDeque<X>, errands: &mut VecDeque<X>) {
        let _ = topics.append(&mut self.topics);
        let _ = errands.append(&mut self.errands);
        self.is_short = false;
        self.due = None;
    }
}

/// Room for so many. False for want of memory.
pub(crate) fn has_room<X: Drop>(list: &mut VecDeque<X>, count: usize) -> bool {
    list.reserve(count.saturating_sub(list.len())).is_ok()
}
