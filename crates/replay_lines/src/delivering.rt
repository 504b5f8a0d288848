// The lines of messages on their way: sent, collected, acknowledged and sent again.
ghost use Rattle.position_core.specs.declared.topic_name.TopicName.{TopicName};
ghost use Rattle.std.specs.Prelude.{◌≡◌, Ok};
ghost use Rattle.replay_lines.specs.declared.reading.Line.TheVariants.{BadId};
ghost use Rattle.replay_lines.specs.Reads.{Reads};
ghost use Rattle.replay_lines.specs.Grammar.{Complete};

use crate::command::Command;
use crate::names::read_name;
use crate::numbers::{read_moment, read_number};
use crate::reading::Line;
use crate::words::{Unread, Words};
use delivery_machine::Event;
use std::alloc::Global;
use value_texts::read_id;

/// The line of an id that is none.
pub fn bad_id() -> Result<Line, Unread>
    ensures { result ≡ Ok BadId }
{
    Ok(Line::BadId)
}

pub fn read_ack(words: Words<'_>) -> Result<Line, Unread>
    ensures { (this : TopicName) → Reads (Complete this Command.Ack words.entry) result }
{
    let (consumer, id) = words.two()?;
    let consumer = read_number(consumer)?;
    match read_id(id) {
        Ok(position) => Ok(Line::Event(Event::Ack { consumer, position })),
        Err(_) => bad_id(),
    }
}

pub fn read_ack_up_to(words: Words<'_>) -> Result<Line, Unread>
    ensures { (this : TopicName) → Reads (Complete this Command.AckUpTo words.entry) result }
{
    let (consumer, id) = words.two()?;
    let consumer = read_number(consumer)?;
    match read_id(id) {
        Ok(position) => Ok(Line::Event(Event::AckUpTo { consumer, position })),
        Err(_) => bad_id(),
    }
}

pub fn read_nack(words: Words<'_>) -> Result<Line, Unread>
    ensures { (this : TopicName) → Reads (Complete this Command.Nack words.entry) result }
{
    let (consumer, id, now) = words.three()?;
    let consumer = read_number(consumer)?;
    let now = read_moment(now)?;
    match read_id(id) {
        Ok(position) => Ok(Line::Event(Event::Nack {
            consumer,
            position,
            now,
        })),
        Err(_) => bad_id(),
    }
}

pub fn read_tick(alloc: Global, words: Words<'_>) -> Result<Line, Unread>
    ensures { (this : TopicName) → Reads (Complete this Command.Tick words.entry) result }
{
    let (subscription, now) = words.two()?;
    let now = read_moment(now)?;
    let subscription = read_name(alloc, subscription)?;
    Ok(Line::Event(Event::Tick { subscription, now }))
}

pub fn read_dispatch(alloc: Global, words: Words<'_>) -> Result<Line, Unread>
    ensures { (this : TopicName) → Reads (Complete this Command.Dispatch words.entry) result }
{
    let (subscription, now) = words.two()?;
    let now = read_moment(now)?;
    let subscription = read_name(alloc, subscription)?;
    Ok(Line::Event(Event::Dispatch { subscription, now }))
}

pub fn read_collect(words: Words<'_>) -> Result<Line, Unread>
    ensures { (this : TopicName) → Reads (Complete this Command.Collect words.entry) result }
{
    let consumer = read_number(words.one()?)?;
    Ok(Line::Event(Event::Collect { consumer }))
}
