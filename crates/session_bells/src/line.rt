// The consumers of a subscription that wait for messages.
use delivery_machine::SubscriptionName;
use std::alloc::{AllocError, Global};
use std::collections::VecDeque;

/// The consumers of a subscription that wait for messages, the longest first, by their seats' places.
#[derive(Drop)]
pub(crate) struct Line {
    pub(crate) name: SubscriptionName,
    pub(crate) members: usize,
    waiting: VecDeque<usize>,
    /// Messages may be sent, and nobody has looked since.
    pub(crate) is_fresh: bool,
}

impl Line {
    pub(crate) fn new(alloc: Global, name: SubscriptionName) -> Self {
        Line {
            name,
            members: 0,
            waiting: VecDeque::new(alloc),
            is_fresh: false,
        }
    }

    /// Room for one more member to wait.
    pub(crate) fn make_room(&mut self) -> Result<(), AllocError> {
        let room = self.members.saturating_add(1);
        self.waiting
            .reserve(room.saturating_sub(self.waiting.len()))
    }

    /// A member more. It may be sent messages, so somebody is to look.
    pub(crate) fn join(&mut self) {
        self.members = self.members.saturating_add(1);
        self.is_fresh = true;
    }

    /// A member less. Whether nobody is left.
    pub(crate) fn leave(&mut self, place: usize) -> bool {
        self.remove(place);
        self.members = self.members.saturating_sub(1);
        self.members == 0
    }

    /// The member waits behind the others. There is room: each member is here once.
    pub(crate) fn add(&mut self, place: usize) {
        let _ = self.waiting.push_back(place);
    }

    pub(crate) fn first(&mut self) -> Option<usize> {
        self.waiting.pop_front()
    }

    fn remove(&mut self, place: usize) {
        for _ in 0..self.waiting.len() {
            let Some(other) = self.waiting.pop_front() else {
                return;
            };
            if other != place {
                let _ = self.waiting.push_back(other);
            }
        }
    }
}
