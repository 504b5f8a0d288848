// What a session waits for between its turns.
ghost use Rattle.std.specs.Prelude.{◌≡◌};
ghost use Rattle.session_core.specs.Steps.{Rests};
ghost use Rattle.session_core.specs.Waiting.{awaits_messages, awaits_moment, awaits_room, is_consumers, need_of, takes_texts};

use crate::session::Session;
use delivery_machine::{Deliveries, DueMoment, Moment};
use session_texts::Party;

/// How many bytes of room for a text a session at rest keeps.
const MOST_KEPT: usize = 512;

/// What a session waits for, beside a text of its client. Where it does not wait for room, a turn in which nothing of this
/// has come sends nothing (`laws::waiting_sends_nothing`).
#[derive(Clone, Copy, Debug, PartialEq, Eq)]
pub struct Waits {
    /// It takes a text where one is there: fewer than 1,000 are unanswered.
    pub texts: bool,
    /// The log is to be stored up to this length, for the first answer that is not sent yet.
    pub durable: Option<u64>,
    /// Messages may be dispatched to its consumer.
    pub messages: bool,
    /// A tick may release something from this moment on.
    pub due: Option<DueMoment>,
    /// The connection is to have room again.
    pub room: bool,
}

impl Session {
    /// What the session waits for, after a turn. A consumer's session that was sent 64 messages or more in a turn may
    /// have more to be sent at once.
    pub fn waits(&self) -> Waits
        ensures texts { result.texts ≡ takes_texts self.now }
        ensures durable { result.durable ≡ need_of self.now }
        ensures messages { result.messages ≡ awaits_messages self.now }
        ensures due { result.due ≡ awaits_moment self.now }
        ensures room { result.room ≡ awaits_room self.now }
    {
        let texts = !self.is_full();
        let has_unsent = self.has_copies();
        match self.waiting.front() {
            Some(answer) if answer.least_durable() > self.durable => Waits {
                texts,
                durable: Some(answer.least_durable()),
                messages: false,
                due: None,
                room: has_unsent,
            },
            Some(_) => Waits {
                texts,
                durable: None,
                messages: false,
                due: self.dues.first(),
                room: true,
            },
            None => Waits {
                texts,
                durable: None,
                messages: self.is_consumers() && !has_unsent && self.had_room,
                due: self.dues.first(),
                room: has_unsent || (self.is_consumers() && !self.had_room),
            },
        }
    }

    fn is_consumers(&self) -> bool
        ensures { result ≡ is_consumers self.now.party }
    {
        matches!(
            self.party,
            Party::Consumer {
                number: _,
                subscription: _
            }
        )
    }

    /// Lets go what a session at rest does not need: the messages that are sent, and room for a long text.
    pub(crate) fn rest(&mut self, now: Moment, has_room: bool)
        ensures rests { Rests self.old self.new }
        ensures room { self.new.had_room ≡ has_room }
    {
        self.had_room = has_room;
        self.dues.pass(now, self.copies_sent > 0, has_room);
        if !self.has_copies() {
            self.copies = Deliveries::new(self.alloc);
            self.copies_sent = 0;
        }
        if self.text.capacity() > MOST_KEPT {
            self.text = String::new(self.alloc);
        }
    }
}
