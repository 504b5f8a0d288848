// The lines of consumers who join and leave.
ghost use Rattle.std.specs.Option.{option_copied};
ghost use Rattle.replay_lines.specs.Reads.{Reads, ReadsAtOnce};
ghost use Rattle.replay_lines.specs.Grammar.{AreSaid, Complete, IsFlow, IsInitial, IsKind};

use crate::command::Command;
use crate::dying::read_death;
use crate::names::read_name;
use crate::numbers::{read_bounded, read_number};
use crate::reading::Line;
use crate::words::{Unread, Words};
use delivery_machine::{Event, Flow, Initial, Kind};
use position_core::{Credit, Ranges, TopicName};
use std::alloc::Global;
use value_texts::{LeadingZeros, read_ranges};

fn read_kind(word: &[u8]) -> Result<Kind, Unread>
    ensures { ReadsAtOnce (IsKind word.now) result }
{
    if word == b"Exclusive".as_slice() {
        Ok(Kind::Exclusive)
    } else if word == b"Failover".as_slice() {
        Ok(Kind::Failover)
    } else if word == b"Shared".as_slice() {
        Ok(Kind::Shared)
    } else if word == b"Key_Shared".as_slice() {
        Ok(Kind::KeyShared)
    } else {
        Err(Unread::BadLine)
    }
}

fn read_flow(word: &[u8]) -> Result<Flow, Unread>
    ensures { ReadsAtOnce (IsFlow word.now) result }
{
    if word == b"pull".as_slice() {
        return match Credit::new(0) {
            Some(none) => Ok(Flow::Credit(none)),
            None => unreachable!(),
        };
    }
    match word.strip_prefix(b"push:") {
        Some(number) => Ok(Flow::Window(read_bounded(number)?)),
        None => Err(Unread::BadLine),
    }
}

fn read_initial(word: &[u8]) -> Result<Initial, Unread>
    ensures { ReadsAtOnce (IsInitial word.now) result }
{
    if word == b"Earliest".as_slice() {
        Ok(Initial::Earliest)
    } else if word == b"Latest".as_slice() {
        Ok(Initial::Latest)
    } else {
        Err(Unread::BadLine)
    }
}

/// Reads the ranges of hashes that stand at the end of a line. Only in Key_Shared they are looked at.
fn read_last_ranges(
    alloc: Global,
    kind: Kind,
    last: Option<&[u8]>,
) -> Result<Option<Ranges>, Unread>
    ensures { Reads (AreSaid kind (option_copied last.entry)) result }
{
    let Some(word) = last else {
        return Ok(None);
    };
    if !kind.is(Kind::KeyShared) {
        return Ok(None);
    }
    match read_ranges(alloc, LeadingZeros::Refused, word)? {
        Some(ranges) => Ok(Some(ranges)),
        None => Err(Unread::BadLine),
    }
}

pub fn read_leave(words: Words<'_>) -> Result<Line, Unread>
    ensures { (this : TopicName) → Reads (Complete this Command.Leave words.entry) result }
{
    let consumer = read_number(words.one()?)?;
    Ok(Line::Event(Event::Leave { consumer }))
}

pub fn read_permit(words: Words<'_>) -> Result<Line, Unread>
    ensures { (this : TopicName) → Reads (Complete this Command.Permit words.entry) result }
{
    let (consumer, permits) = words.two()?;
    Ok(Line::Event(Event::Permit {
        consumer: read_number(consumer)?,
        permits: read_bounded(permits)?,
    }))
}

pub fn read_subscribe(alloc: Global, this: &TopicName, mut words: Words<'_>) -> Result<Line, Unread>
    ensures { Reads (Complete this.now Command.Subscribe words.entry) result }
{
    let (subscription, kind, level) = words.take_three()?;
    let (flow, ack_timeout, nack_delay) = words.take_three()?;
    let (max_redeliver, dead_topic, initial) = words.take_three()?;
    let last = words.last()?;
    let kind = read_kind(kind)?;
    let level = read_bounded(level)?;
    let flow = read_flow(flow)?;
    let ack_timeout = read_bounded(ack_timeout)?;
    let nack_delay = read_bounded(nack_delay)?;
    let initial = read_initial(initial)?;
    let ranges = read_last_ranges(alloc, kind, last)?;
    let subscription = read_name(alloc, subscription)?;
    let (max_redeliver, dead_topic) = read_death(
        alloc,
        this,
        &subscription,
        max_redeliver,
        dead_topic,
    )?;
    Ok(Line::Event(Event::Subscribe {
        subscription,
        kind,
        level,
        flow,
        ack_timeout,
        nack_delay,
        max_redeliver,
        dead_topic,
        initial,
        ranges,
    }))
}
