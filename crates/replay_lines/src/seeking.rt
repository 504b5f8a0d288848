// The lines of one subscription's cursor, and of what it has.
ghost use Rattle.position_core.specs.declared.topic_name.TopicName.{TopicName};
ghost use Rattle.replay_lines.specs.Reads.{Reads};
ghost use Rattle.replay_lines.specs.Grammar.{Complete, IsTarget};

use crate::command::Command;
use crate::delivering::bad_id;
use crate::names::read_name;
use crate::numbers::{read_bounded, read_moment};
use crate::reading::Line;
use crate::words::{Unread, Words};
use delivery_machine::{Event, Target};
use std::alloc::Global;
use value_texts::read_id;

/// None where the word is an id that is none.
fn read_target(word: &[u8]) -> Option<Target>
    ensures { IsTarget word.now result }
{
    if word == b"earliest".as_slice() {
        return Some(Target::Earliest);
    }
    if word == b"latest".as_slice() {
        return Some(Target::Latest);
    }
    match read_id(word) {
        Ok(position) => Some(Target::At(position)),
        Err(_) => None,
    }
}

pub fn read_seek(alloc: Global, words: Words<'_>) -> Result<Line, Unread>
    ensures { (this : TopicName) → Reads (Complete this Command.Seek words.entry) result }
{
    let (subscription, target) = words.two()?;
    let subscription = read_name(alloc, subscription)?;
    match read_target(target) {
        Some(target) => Ok(Line::Event(Event::Seek {
            subscription,
            target,
        })),
        None => bad_id(),
    }
}

pub fn read_seek_time(alloc: Global, words: Words<'_>) -> Result<Line, Unread>
    ensures { (this : TopicName) → Reads (Complete this Command.SeekTime words.entry) result }
{
    let (subscription, time) = words.two()?;
    let time = read_moment(time)?;
    let subscription = read_name(alloc, subscription)?;
    Ok(Line::Event(Event::SeekTime { subscription, time }))
}

pub fn read_skip(alloc: Global, words: Words<'_>) -> Result<Line, Unread>
    ensures { (this : TopicName) → Reads (Complete this Command.Skip words.entry) result }
{
    let (subscription, count) = words.two()?;
    let count = read_bounded(count)?;
    let subscription = read_name(alloc, subscription)?;
    Ok(Line::Event(Event::Skip {
        subscription,
        count,
    }))
}

pub fn read_drop_subscription(alloc: Global, words: Words<'_>) -> Result<Line, Unread>
    ensures { (this : TopicName) → Reads (Complete this Command.DropSubscription words.entry) result }
{
    let subscription = read_name(alloc, words.one()?)?;
    Ok(Line::Event(Event::DropSubscription { subscription }))
}

pub fn read_stats(alloc: Global, words: Words<'_>) -> Result<Line, Unread>
    ensures { (this : TopicName) → Reads (Complete this Command.Stats words.entry) result }
{
    let subscription = read_name(alloc, words.one()?)?;
    Ok(Line::Event(Event::Stats { subscription }))
}
