// What has come of what was asked of a topic since it came into memory, as its lookers are told.
use delivery_machine::{Event, Reply};

/// How often what was asked of a topic came out how.
#[derive(Clone, Copy, Debug, PartialEq, Eq)]
pub struct Tallies {
    pub published: u64,
    pub duplicates: u64,
    pub refused: u64,
    /// Producers that are connected.
    pub producers: u64,
}

/// The same of what was asked by a subscription's consumers.
#[derive(Clone, Copy, Debug, PartialEq, Eq)]
pub struct Traffic {
    /// Messages that were sent to one of them.
    pub sent: u64,
    /// Messages that came back from one of them, and wait again.
    pub released: u64,
    /// Acknowledgements of theirs.
    pub acks: u64,
    /// Messages that became dead letters.
    pub deaths: u64,
}

/// Whether a producer goes by the event, where it is done.
pub fn ends_producer(event: &Event) -> bool {
    matches!(event, Event::DropProducer { .. })
}

/// Whether messages are acknowledged by the event, where it is done.
pub fn acknowledges(event: &Event) -> bool {
    matches!(event, Event::Ack { .. } | Event::AckUpTo { .. })
}

fn add(count: &mut u64, more: u64) {
    *count = count.saturating_add(more);
}

impl Tallies {
    pub fn new() -> Self {
        Tallies {
            published: 0,
            duplicates: 0,
            refused: 0,
            producers: 0,
        }
    }

    /// An event was answered so, by which a producer may go.
    pub fn note(&mut self, ends_producer: bool, reply: &Reply) {
        match reply {
            Reply::Published { .. } => add(&mut self.published, 1),
            Reply::Duplicate { .. } => add(&mut self.duplicates, 1),
            Reply::Refused(_) => self.note_refusal(),
            Reply::ProducerAdded { .. } => add(&mut self.producers, 1),
            Reply::Done if ends_producer => self.producers = self.producers.saturating_sub(1),
            _ => {}
        }
    }

    /// An event was refused.
    pub fn note_refusal(&mut self) {
        add(&mut self.refused, 1);
    }
}

impl Traffic {
    pub fn new() -> Self {
        Traffic {
            sent: 0,
            released: 0,
            acks: 0,
            deaths: 0,
        }
    }

    /// A consumer was answered so, who had acknowledged or had not.
    pub fn note(&mut self, acknowledges: bool, reply: &Reply) {
        match reply {
            Reply::Sent { .. } => add(&mut self.sent, 1),
            Reply::Released { .. } => add(&mut self.released, 1),
            Reply::Rewound { count } => add(&mut self.released, *count),
            Reply::Died { .. } => add(&mut self.deaths, 1),
            Reply::Done if acknowledges => add(&mut self.acks, 1),
            _ => {}
        }
    }
}
