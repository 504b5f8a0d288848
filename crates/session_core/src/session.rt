// What a session holds between its turns.
ghost use Rattle.std.specs.Prelude.{◌≡◌};
ghost use Rattle.session_core.specs.Held.{holds_full, holds_nothing};

use crate::dues::Dues;
use delivery_machine::Deliveries;
use session_texts::{Answer, Party};
use std::alloc::Global;
use std::collections::VecDeque;

/// How many texts may be unanswered before no more are received.
const MOST_UNANSWERED: usize = 1000;

/// A session at rest: whose it is, and what it has not sent yet.
pub struct Session {
    pub(crate) alloc: Global,
    pub(crate) party: Party,
    /// The sequence number of the next publish, where one is left.
    pub(crate) next: Option<i64>,
    /// The most messages that were seen to be stored.
    pub(crate) durable: u64,
    /// The messages that were collected last, and how many of them are sent.
    pub(crate) copies: Deliveries,
    pub(crate) copies_sent: usize,
    /// The answers that are not sent yet. They come after the messages.
    pub(crate) waiting: VecDeque<Answer>,
    /// Room for the text that is sent.
    pub(crate) text: String,
    /// When what it was sent may be due.
    pub(crate) dues: Dues,
    /// Whether the connection had room when the last turn ended.
    pub(crate) had_room: bool,
}

impl Drop for Session {
    fn drop(self) {
        let Session {
            alloc: _,
            party: _,
            next: _,
            durable: _,
            copies: _,
            copies_sent: _,
            waiting: _,
            text: _,
            dues: _,
            had_room: _,
        } = self;
    }
}

impl Session {
    /// Whether it receives no more texts until some are answered.
    pub(crate) fn is_full(&self) -> bool
        ensures { result ≡ holds_full self.now }
    {
        self.waiting.len() >= MOST_UNANSWERED
    }

    /// Whether it has sent all that there is.
    pub(crate) fn has_sent_all(&self) -> bool
        ensures { result ≡ holds_nothing self.now }
    {
        self.waiting.is_empty() && self.copies_sent >= self.copies.as_slice().len()
    }
}
