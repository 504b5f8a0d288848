// Lines that topics are asked, and what they answer, as far as tests look at it.
use delivery_machine::{Event, Reply};
use position_core::{Fault, TopicName};
use replay_lines::{Line, read_line};
use std::process::Abort;
use value_texts::read_topic_name;

#[derive(Clone, Copy)]
pub(super) enum Answer {
    Refused(Fault),
    Duplicate { length: u64 },
    Progress { durable: u64, length: u64 },
    /// It was done, and tests do not look how.
    Other,
}

impl Answer {
    pub(super) fn of(reply: &Reply) -> Self {
        match reply {
            Reply::Refused(fault) => Answer::Refused(*fault),
            Reply::Duplicate { length } => Answer::Duplicate { length: *length },
            Reply::Progress { durable, length } => Answer::Progress {
                durable: *durable,
                length: *length,
            },
            _ => Answer::Other,
        }
    }

    pub(super) fn is_refused(self) -> bool {
        matches!(self, Answer::Refused(_))
    }
}

pub(super) fn topic_name<R: Abort + AllocGlobal>(rt: &R, text: &str) -> TopicName {
    let name = read_topic_name(rt.alloc(), text);
    name.expect(rt, "no memory").expect(rt, "no name")
}

/// What the line asks of the topic of this name.
pub(super) fn event_in<R: Abort + AllocGlobal>(rt: &R, name: &TopicName, line: &str) -> Event {
    match read_line(rt.alloc(), name, line.as_bytes()) {
        Ok(Line::Event(event)) => event,
        _ => panic!(rt; "no event, or no memory"),
    }
}
