// A message of a topic's log, shared by the log and all to whom it is sent.
ghost use Rattle.std.specs.Prelude.{◌≡◌, ◌↔◌, IsTrue, IfOk};

use crate::body::Body;
use crate::moment::Moment;
use crate::position::Position;
use crate::text::ProducerName;
use std::alloc::{AllocError, Global};
use std::marker::Model;
use std::sync::Arc;

/// An entry of a topic's log.
#[derive(Drop)]
pub struct Entry {
    pub position: Position,
    pub producer: ProducerName,
    pub sequence: i64,
    pub time: Moment,
    pub body: Body,
}

impl Entry {
    /// Whether two entries are the same.
    pub fn is(&self, other: &Entry) -> bool
        ensures { IsTrue result ↔ self.now ≡ other.now }
    {
        self.position == other.position
            && self.producer.is(&other.producer)
            && self.sequence == other.sequence
            && self.time == other.time
            && self.body.is(&other.body)
    }
}

/// An entry that is shared. A clone is one more owner of the same entry.
pub struct Message {
    entry: Arc<Entry>,
}

impl Drop for Message {
    fn drop(self) {
        let Message { entry: _ } = self;
    }
}

impl Model for Message {
    ghost use Rattle.position_core.specs.declared.message.Entry.{Entry};

    ghost Value = { Entry };

    ghost view = { λ m. m.entry.value };
}

impl Message {
    pub fn new(alloc: Global, entry: Entry) -> Result<Self, AllocError>
        ensures { IfOk result (λ message. message ≡ entry) }
    {
        Ok(Message {
            entry: Arc::new(alloc, entry)?,
        })
    }

    pub fn entry(&self) -> &Entry
        ensures { result.now ≡ self.now }
    {
        &self.entry
    }

    pub fn position(&self) -> Position
        ensures { result ≡ self.now.position }
    {
        self.entry.position
    }

    /// Whether two messages are the same entry.
    pub fn is(&self, other: &Self) -> bool
        ensures { IsTrue result ↔ self.now ≡ other.now }
    {
        self.entry().is(other.entry())
    }
}

impl Clone for Message {
    ghost is_clone = { λ message copy. copy ≡ message };

    fn clone(&self) -> Result<Self, AllocError> {
        Ok(Message {
            entry: Arc::try_clone(&self.entry)?,
        })
    }
}
