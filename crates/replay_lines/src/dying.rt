// The lines of dead letters, and the topics that they go to.
ghost use Rattle.std.specs.Prelude.{◌≡◌, Some};
ghost use Rattle.position_core.specs.TopicName.{dead_letter_default};
ghost use Rattle.position_core.specs.declared.topic_name.TopicName.{TopicName};
ghost use Rattle.replay_lines.specs.Reads.{Reads};
ghost use Rattle.replay_lines.specs.Names.{IsDeadTopic};
ghost use Rattle.replay_lines.specs.Grammar.{Complete, IsDeath};

use crate::command::Command;
use crate::names::{read_name, read_topic};
use crate::numbers::{read_bounded, read_number};
use crate::reading::Line;
use crate::words::{Unread, Words, is_none};
use delivery_machine::Event;
use position_core::{RedeliverLimit, SubscriptionName, TopicName};
use std::alloc::Global;

fn default_topic(
    alloc: Global,
    this: &TopicName,
    subscription: &SubscriptionName,
) -> Result<TopicName, Unread>
    ensures { Reads (λ name. dead_letter_default this.now subscription.now ≡ Some name) result }
{
    match this.dead_letter_default(alloc, subscription)? {
        Some(topic) => Ok(topic),
        None => Err(Unread::BadLine),
    }
}

/// The topic that the subscription's messages go to that die. A word of `-` is `this` where none dies, and
/// else a topic beside it that is named after both.
#[tactic(auto, unfolding(crate::specs::Names::IsDeadTopic))]
fn read_dead_topic(
    alloc: Global,
    this: &TopicName,
    subscription: &SubscriptionName,
    limit: RedeliverLimit,
    word: &[u8],
) -> Result<TopicName, Unread>
    ensures { Reads (IsDeadTopic this.now subscription.now limit word.now) result }
{
    if !is_none(word) {
        return read_topic(alloc, word);
    }
    if limit.get() > 0 {
        return default_topic(alloc, this, subscription);
    }
    Ok(this.clone()?)
}

/// Reads the words of how often a message is sent again before it dies, and of the topic that it goes to
/// then.
pub fn read_death(
    alloc: Global,
    this: &TopicName,
    subscription: &SubscriptionName,
    limit: &[u8],
    target: &[u8],
) -> Result<(RedeliverLimit, TopicName), Unread>
    ensures { Reads (IsDeath this.now subscription.now limit.now target.now) result }
{
    let limit = read_bounded(limit)?;
    let target = read_dead_topic(alloc, this, subscription, limit, target)?;
    Ok((limit, target))
}

pub fn read_dead_next(alloc: Global, words: Words<'_>) -> Result<Line, Unread>
    ensures { (this : TopicName) → Reads (Complete this Command.DeadNext words.entry) result }
{
    let subscription = read_name(alloc, words.one()?)?;
    Ok(Line::Event(Event::DeadNext { subscription }))
}

pub fn read_dead_done(alloc: Global, words: Words<'_>) -> Result<Line, Unread>
    ensures { (this : TopicName) → Reads (Complete this Command.DeadDone words.entry) result }
{
    let (subscription, ordinal) = words.two()?;
    let ordinal = read_number(ordinal)?;
    let subscription = read_name(alloc, subscription)?;
    Ok(Line::Event(Event::DeadDone {
        subscription,
        ordinal,
    }))
}
