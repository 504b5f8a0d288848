// A topic whose rows are known.
ghost use Rattle.std.specs.Prelude.{◌≡◌, IsTrue, string_bytes};
ghost use Rattle.std.specs.Str.{bytes_eq};
ghost use Rattle.position_core.specs.Name.{is_name};
ghost use Rattle.position_core.specs.TopicName.{same_topic, topic_text};

use delivery_machine::Snapshot;
use marks::{Mark, Naming};
use position_core::TopicName;
use std::marker::Model;
use stored_cell::Note;

/// A topic whose rows are known: what stands there of it, under its mark. Contracts see what stands.
pub struct Known<J: Naming> {
    topic: String,
    snapshot: Snapshot,
    mark: Mark<Note, J>,
}

impl<J: Naming> Drop for Known<J> {
    fn drop(self) {
        let Known {
            topic: _,
            snapshot: _,
            mark: _,
        } = self;
    }
}

impl<J: Naming> Model for Known<J> {
    ghost use Rattle.std.specs.Prelude.{◌≡◌, string_bytes};
    ghost use Rattle.std.specs.Coded.{codes};
    ghost use Rattle.position_core.specs.TopicName.{topic_text};
    ghost use Rattle.delivery_machine.specs.Codes.{coded_places, coded_counts};
    ghost use Rattle.delivery_machine.specs.Places.{KeptTopic};

    ghost Value = { KeptTopic };

    ghost coded = { Prim.hlevel (codes, coded_places, coded_counts) };

    ghost view = { λ k. k.snapshot };

    ghost invariant = { λ k. (string_bytes k.topic ≡ topic_text k.snapshot.name) × (k.mark.kept ≡ k.snapshot) };
}

/// What a topic's name keeps: its tenant and its namespace are names.
fn has_names(name: &TopicName)
    ensures { IsTrue (is_name name.now.tenant) × IsTrue (is_name name.now.namespace) }
{
    let _ = name.tenant.as_str();
    let _ = name.namespace.as_str();
}

impl<J: Naming> Known<J> {
    pub fn new(topic: String, snapshot: Snapshot, mark: Mark<Note, J>) -> Self
        requires topic { string_bytes topic ≡ topic_text snapshot.name }
        requires mark { mark.kept ≡ snapshot }
        ensures { result ≡ snapshot }
    {
        Known {
            topic,
            snapshot,
            mark,
        }
    }

    /// The topic's text.
    pub fn topic(&self) -> &str
        ensures { result.now ≡ topic_text self.now.name }
    {
        self.topic.as_str()
    }

    /// Whether it is of the topic of this name, and so has its text.
    pub fn is_of(&self, name: &TopicName) -> bool
        ensures value { result ≡ same_topic self.now.name name.now }
        ensures text { result ≡ bytes_eq (topic_text self.now.name) (topic_text name.now) }
    {
        let own = self.snapshot.name();
        has_names(own);
        has_names(name);
        own.is(name)
    }

    pub fn snapshot(&self) -> &Snapshot
        ensures { result.now ≡ self.now }
    {
        &self.snapshot
    }

    pub fn mark(&self) -> &Mark<Note, J>
        ensures { result.now.kept ≡ self.now }
    {
        &self.mark
    }
}
