// The lines of producers and of the store.
ghost use Rattle.position_core.specs.declared.topic_name.TopicName.{TopicName};
ghost use Rattle.replay_lines.specs.Reads.{Reads};
ghost use Rattle.replay_lines.specs.Grammar.{Complete, IsBody};

use crate::command::Command;
use crate::names::{read_key, read_producer_name};
use crate::numbers::{read_base, read_moment, read_number, read_sequence};
use crate::payloads::read_payload;
use crate::reading::Line;
use crate::words::{Unread, Words};
use delivery_machine::Event;
use position_core::{Body, Content, Properties};
use std::alloc::Global;

pub fn read_producer(alloc: Global, words: Words<'_>) -> Result<Line, Unread>
    ensures { (this : TopicName) → Reads (Complete this Command.Producer words.entry) result }
{
    let (name, base) = words.two()?;
    let base = read_base(base)?;
    Ok(Line::Event(Event::AddProducer {
        name: read_producer_name(alloc, name)?,
        base,
    }))
}

pub fn read_drop_producer(words: Words<'_>) -> Result<Line, Unread>
    ensures { (this : TopicName) → Reads (Complete this Command.DropProducer words.entry) result }
{
    let producer = read_number(words.one()?)?;
    Ok(Line::Event(Event::DropProducer { producer }))
}

/// Reads the words of a key and of a payload.
fn read_body(alloc: Global, key: &[u8], payload: &[u8]) -> Result<Body, Unread>
    ensures { Reads (IsBody key.now payload.now) result }
{
    let content = Content {
        key: read_key(alloc, key)?,
        properties: Properties::none(alloc),
        payload: read_payload(alloc, payload)?,
    };
    Ok(Body::new(alloc, content)?)
}

pub fn read_publish(alloc: Global, mut words: Words<'_>) -> Result<Line, Unread>
    ensures { (this : TopicName) → Reads (Complete this Command.Publish words.entry) result }
{
    let (producer, sequence) = words.take_two()?;
    let (key, payload, now) = words.three()?;
    let producer = read_number(producer)?;
    let sequence = read_sequence(sequence)?;
    let now = read_moment(now)?;
    Ok(Line::Event(Event::Publish {
        producer,
        sequence,
        body: read_body(alloc, key, payload)?,
        now,
    }))
}

pub fn read_stored(words: Words<'_>) -> Result<Line, Unread>
    ensures { (this : TopicName) → Reads (Complete this Command.Stored words.entry) result }
{
    words.end()?;
    Ok(Line::Event(Event::Stored))
}

pub fn read_progress(words: Words<'_>) -> Result<Line, Unread>
    ensures { (this : TopicName) → Reads (Complete this Command.Progress words.entry) result }
{
    words.end()?;
    Ok(Line::Event(Event::Progress))
}

pub fn read_trim(words: Words<'_>) -> Result<Line, Unread>
    ensures { (this : TopicName) → Reads (Complete this Command.Trim words.entry) result }
{
    let (keep, before, most) = words.three()?;
    let keep = read_number(keep)?;
    let before = read_moment(before)?;
    let most = read_number(most)?;
    Ok(Line::Event(Event::Trim { keep, before, most }))
}

pub fn read_restart(words: Words<'_>) -> Result<Line, Unread>
    ensures { (this : TopicName) → Reads (Complete this Command.Restart words.entry) result }
{
    words.end()?;
    Ok(Line::Restart)
}
