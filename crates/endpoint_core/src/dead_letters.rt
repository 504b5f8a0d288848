// What a consumer's query says of the messages that die.
ghost use Rattle.std.specs.Prelude.{◌≡◌, map, IfOk};
ghost use Rattle.std.specs.Option.{option_copied};
ghost use Rattle.endpoint_core.specs.Faults.{Gives};
ghost use Rattle.endpoint_core.specs.DeadLetters.{dead_topic_in, dead_topic_of, dead_topic_said, death_in, said_death, short_topic, whole_topic};

use crate::faults::Cause;
use crate::fields::Field;
use crate::numbers::number_said;
use crate::paths::{after, segments_of};
use crate::queries::Query;
use position_core::{Kind, RedeliverLimit, SubscriptionName, TopicName};
use std::alloc::{AllocError, Global};

fn whole_topic(alloc: Global, segments: &[&str]) -> Result<Option<TopicName>, AllocError>
    ensures { IfOk result (λ found. found ≡ whole_topic (map (λ segment. segment.now) segments.now)) }
{
    if segments.len() != 3 {
        return Ok(None);
    }
    TopicName::from_names(alloc, segments[0], segments[1], segments[2])
}

fn short_topic(alloc: Global, segments: &[&str]) -> Result<Option<TopicName>, AllocError>
    ensures { IfOk result (λ found. found ≡ short_topic (map (λ segment. segment.now) segments.now)) }
{
    if segments.len() != 1 {
        return whole_topic(alloc, segments);
    }
    TopicName::from_names(alloc, "public", "default", segments[0])
}

/// The topic that a text names: `persistent://tenant/namespace/topic`, the same without its scheme, or a
/// topic of `public/default`.
fn dead_topic_of(alloc: Global, text: &str) -> Result<Option<TopicName>, AllocError>
    ensures { IfOk result (λ found. found ≡ dead_topic_of text.now) }
{
    match after("persistent://", text) {
        Some(rest) => {
            let segments = segments_of(alloc, rest)?;
            whole_topic(alloc, &segments)
        }
        None => {
            let segments = segments_of(alloc, text)?;
            short_topic(alloc, &segments)
        }
    }
}

fn dead_topic_said(
    alloc: Global,
    this: &TopicName,
    subscription: &SubscriptionName,
    said: Option<&str>,
) -> Result<TopicName, Cause>
    ensures { Gives result (dead_topic_said this.now subscription.now (option_copied said.entry)) }
{
    let found = match said {
        Some(text) => dead_topic_of(alloc, text),
        None => this.dead_letter_default(alloc, subscription),
    };
    match found {
        Ok(Some(topic)) => Ok(topic),
        Ok(None) => Err(Cause::BadParameter(Field::DeadLetterTopic)),
        Err(_) => Err(Cause::NoMemory),
    }
}

fn dead_topic_in(
    alloc: Global,
    this: &TopicName,
    subscription: &SubscriptionName,
    limit: RedeliverLimit,
    query: &Query,
) -> Result<TopicName, Cause>
    ensures { Gives result (dead_topic_in this.now subscription.now limit query.now) }
{
    if limit.get() == 0 {
        return Ok(this.clone()?);
    }
    dead_topic_said(
        alloc,
        this,
        subscription,
        query.value_at(Field::DeadLetterTopic.name()),
    )
}

fn said_death(
    alloc: Global,
    this: &TopicName,
    subscription: &SubscriptionName,
    query: &Query,
) -> Result<(RedeliverLimit, TopicName), Cause>
    ensures { Gives result (said_death this.now subscription.now query.now) }
{
    let limit = number_said(query, Field::MaxRedeliverCount, 0)?;
    let topic = dead_topic_in(alloc, this, subscription, limit, query)?;
    Ok((limit, topic))
}

/// After how many redeliveries a message dies, and where it goes then. In Exclusive and Failover none dies.
pub fn death_in(
    alloc: Global,
    this: &TopicName,
    subscription: &SubscriptionName,
    kind: Kind,
    query: &Query,
) -> Result<(RedeliverLimit, TopicName), Cause>
    ensures { Gives result (death_in this.now subscription.now kind query.now) }
{
    if kind.is_in_order() {
        return Ok((never(), this.clone()?));
    }
    said_death(alloc, this, subscription, query)
}

fn never() -> RedeliverLimit
    ensures { result ≡ 0 }
{
    match RedeliverLimit::new(0) {
        Some(never) => never,
        None => unreachable!(),
    }
}
