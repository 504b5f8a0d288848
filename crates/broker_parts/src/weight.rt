// What an event brings to a topic: a producer, or a message of so many bytes.
ghost use Rattle.std.specs.Prelude.{◌≡◌, ◌≤◌, length, sum_by};
ghost use Rattle.std.specs.Option.{option_map_or};
ghost use Rattle.broker_parts.specs.Bulks.{content_size, property_size, sequence_of, size_of, weight_of};

use delivery_machine::Event;
use position_core::{Content, Key, Properties};

/// What an event brings to a topic.
#[derive(Clone, Copy, Debug, PartialEq, Eq)]
pub enum Weight {
    Nothing,
    Producer,
    /// A message of so many bytes, under its producer's sequence number.
    Message { sequence: i64, size: u32 },
}

impl Weight {
    pub fn of(event: &Event) -> Self
        ensures { result ≡ weight_of event.now }
    {
        match event {
            Event::AddProducer { name: _, base: _ } => Weight::Producer,
            Event::Publish {
                producer: _,
                sequence,
                body,
                now: _,
            } => Weight::Message {
                sequence: *sequence,
                size: size_of(body.content()),
            },
            _ => Weight::Nothing,
        }
    }
}

impl Weight {
    /// The sequence number of the message.
    pub(crate) fn sequence(self) -> Option<i64>
        ensures { result ≡ sequence_of self }
    {
        match self {
            Weight::Message { sequence, size: _ } => Some(sequence),
            Weight::Producer => None,
            Weight::Nothing => None,
        }
    }

    /// The bytes of the message.
    pub(crate) fn size(self) -> Option<u32>
        ensures { result ≡ size_of self }
    {
        match self {
            Weight::Message { sequence: _, size } => Some(size),
            Weight::Producer => None,
            Weight::Nothing => None,
        }
    }
}

fn key_size(key: &Option<Key>) -> usize
    ensures value { result ≡ option_map_or length key.now 0 }
    ensures few { result ≤ 1024 }
{
    match key {
        Some(key) => key.as_str().len(),
        None => 0,
    }
}

fn properties_size(properties: &Properties) -> usize
    ensures value { result ≡ sum_by property_size properties.now }
    ensures few { result ≤ 81856 }
{
    let mut size = 0usize;
    for (name, value) in properties.as_map().iter() {
        size = size
            .saturating_add(name.as_str().len())
            .saturating_add(value.as_str().len());
    }
    size
}

/// How many bytes a message of that content has: at most those of the greatest payload, key and properties.
pub(crate) fn size_of(content: &Content) -> u32
    ensures value { result ≡ content_size content.now }
    ensures few { result ≤ 1131456 }
{
    let named = key_size(&content.key) + properties_size(&content.properties);
    let size = named + content.payload.as_slice().len();
    size as u32
}
