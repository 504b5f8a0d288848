// When a message that a consumer was sent may be due: a hint for whoever serves its session.
ghost use Rattle.std.specs.Prelude.{◌≡◌};

use delivery_machine::{DueMoment, Millis, Moment};

/// How long after a moment that has come another look is worth while, in milliseconds.
const NEXT_LOOK: u64 = 10;

/// The moments at which messages of a consumer may be due. Which of them were acknowledged meanwhile is not known, so
/// a moment may be early; it is late by no more than ten milliseconds.
#[derive(Clone, Copy)]
pub(crate) struct Dues {
    ack_timeout: Millis,
    nack_delay: Millis,
    /// Whether a message was refused in this turn.
    has_nacked: bool,
    /// More may be due than the last turn asked for.
    is_behind: bool,
    first: Option<DueMoment>,
    last: DueMoment,
}

impl Dues {
    pub(crate) fn new(ack_timeout: Millis, nack_delay: Millis) -> Dues {
        Dues {
            ack_timeout,
            nack_delay,
            has_nacked: false,
            is_behind: false,
            first: None,
            last: 0,
        }
    }

    /// A message was refused in this turn.
    pub(crate) fn nack(&mut self) {
        self.has_nacked = true;
    }

    /// Whether more may be due than this turn has asked for.
    pub(crate) fn note_asked(&mut self, is_behind: bool) {
        self.is_behind = is_behind;
    }

    fn note(&mut self, due: DueMoment) {
        self.first = match self.first {
            Some(first) => Some(first.min(due)),
            None => Some(due),
        };
        self.last = self.last.max(due);
    }

    fn note_timeout(&mut self, now: DueMoment) {
        if self.ack_timeout.get() > 0 {
            self.note(now.saturating_add(u64::from(self.ack_timeout.get())));
        }
    }

    /// A turn at the moment is over, in which messages were sent or none. Where the connection has no room, others may
    /// have had messages sent to the consumer all the same, which it does not collect.
    pub(crate) fn pass(&mut self, now: Moment, has_sent: bool, has_room: bool) {
        let now = now.millis();
        let is_look = self.first.is_some_and(|first| first <= now);
        if self.has_nacked {
            self.has_nacked = false;
            self.note(now + u64::from(self.nack_delay.get()));
        }
        if has_sent || !(has_room || is_look) {
            self.note_timeout(now);
        }
        if is_look {
            self.first = self.next_look(now);
        }
        if self.is_behind {
            self.first = Some(now);
        } else if !has_room && self.first.is_none() {
            self.note_timeout(now.saturating_add(NEXT_LOOK));
        }
    }

    fn next_look(&self, now: DueMoment) -> Option<DueMoment> {
        if self.last > now {
            Some(self.last.min(now.saturating_add(NEXT_LOOK)))
        } else {
            None
        }
    }

    pub(crate) fn first(&self) -> Option<DueMoment>
        ensures { result ≡ self.now.first }
    {
        self.first
    }
}
