// A consumer's endpoint.
ghost use Rattle.std.specs.Prelude.{◌≡◌};
ghost use Rattle.endpoint_core.specs.Faults.{Gives, map_ok};
ghost use Rattle.endpoint_core.specs.Consumers.{consumer_of, flow_said, initial_said, kind_said, mode_said, pulls_said, window_of, window_said, with_settings};

use crate::dead_letters::death_in;
use crate::faults::Cause;
use crate::fields::Field;
use crate::modes::Mode;
use crate::numbers::number_said;
use crate::queries::Query;
use crate::ranges::ranges_in;
use crate::words::{initial_of, kind_of, mode_of, truth_of};
use delivery_machine::Initial;
use position_core::{
    Bounded, Credit, Flow, Kind, Level, Millis, Ranges, RedeliverLimit, SubscriptionName,
    TopicName, WindowSize,
};
use std::alloc::Global;

/// A consumer of the subscription: what its `Subscribe` brings.
#[derive(Debug, Drop)]
pub struct ConsumerEndpoint {
    pub topic: TopicName,
    pub subscription: SubscriptionName,
    pub kind: Kind,
    pub level: Level,
    pub flow: Flow,
    /// 0 for none.
    pub ack_timeout: Millis,
    pub nack_delay: Millis,
    /// 0 for never.
    pub max_redeliver: RedeliverLimit,
    /// The topic itself where no message dies.
    pub dead_topic: TopicName,
    pub initial: Initial,
    /// The hashes that it takes, where it says so, in Key_Shared.
    pub ranges: Option<Ranges>,
    /// Whether the subscription stays when its last consumer has gone. That of a `NonDurable` consumer goes,
    /// where nobody durable was in it.
    pub mode: Mode,
}

fn kind_said(query: &Query) -> Result<Kind, Cause>
    ensures { result ≡ kind_said query.now }
{
    match query.value_at(Field::SubscriptionType.name()) {
        Some(text) => kind_of(text).ok_or(Cause::BadParameter(Field::SubscriptionType)),
        None => Ok(Kind::Exclusive),
    }
}

fn initial_said(query: &Query) -> Result<Initial, Cause>
    ensures { result ≡ initial_said query.now }
{
    match query.value_at(Field::SubscriptionInitialPosition.name()) {
        Some(text) => initial_of(text).ok_or(Cause::BadParameter(
            Field::SubscriptionInitialPosition,
        )),
        None => Ok(Initial::Latest),
    }
}

fn mode_said(query: &Query) -> Result<Mode, Cause>
    ensures { result ≡ mode_said query.now }
{
    match query.value_at(Field::SubscriptionMode.name()) {
        Some(text) => mode_of(text).ok_or(Cause::BadParameter(Field::SubscriptionMode)),
        None => Ok(Mode::Durable),
    }
}

/// Whether the consumer pulls, instead of being pushed to.
fn pulls(query: &Query) -> Result<bool, Cause>
    ensures { result ≡ pulls_said query.now }
{
    match query.value_at(Field::PullMode.name()) {
        Some(text) => truth_of(text).ok_or(Cause::BadParameter(Field::PullMode)),
        None => Ok(false),
    }
}

fn window_of(size: Bounded<0, 100_000>) -> Flow
    ensures { result ≡ window_of size }
{
    match WindowSize::new(size.get().max(1)) {
        Some(size) => Flow::Window(size),
        None => unreachable!(),
    }
}

fn window_said(query: &Query) -> Result<Flow, Cause>
    ensures { result ≡ window_said query.now }
{
    match number_said(query, Field::ReceiverQueueSize, 1000) {
        Ok(size) => Ok(window_of(size)),
        Err(cause) => Err(cause),
    }
}

fn no_credit() -> Flow
    ensures { result ≡ Flow.Credit 0 }
{
    match Credit::new(0) {
        Some(none) => Flow::Credit(none),
        None => unreachable!(),
    }
}

fn flow_said(query: &Query) -> Result<Flow, Cause>
    ensures { result ≡ flow_said query.now }
{
    match pulls(query) {
        Ok(true) => Ok(no_credit()),
        Ok(false) => window_said(query),
        Err(cause) => Err(cause),
    }
}

/// What a query says of a consumer.
#[derive(Drop)]
struct Settings {
    kind: Kind,
    level: Level,
    flow: Flow,
    ack_timeout: Millis,
    nack_delay: Millis,
    max_redeliver: RedeliverLimit,
    dead_topic: TopicName,
    initial: Initial,
    ranges: Option<Ranges>,
    mode: Mode,
}

fn settings_in(
    alloc: Global,
    topic: &TopicName,
    subscription: &SubscriptionName,
    query: &Query,
) -> Result<Settings, Cause>
    ensures { Gives (map_ok (with_settings topic.now subscription.now) result) (consumer_of topic.now subscription.now query.now) }
{
    let kind = kind_said(query)?;
    let level = number_said(query, Field::PriorityLevel, 0)?;
    let flow = flow_said(query)?;
    let ack_timeout = number_said(query, Field::AckTimeoutMillis, 0)?;
    let nack_delay = number_said(query, Field::NegativeAckRedeliveryDelay, 60_000)?;
    let (max_redeliver, dead_topic) = death_in(alloc, topic, subscription, kind, query)?;
    let initial = initial_said(query)?;
    let ranges = ranges_in(alloc, kind, query)?;
    let mode = mode_said(query)?;
    Ok(Settings {
        kind,
        level,
        flow,
        ack_timeout,
        nack_delay,
        max_redeliver,
        dead_topic,
        initial,
        ranges,
        mode,
    })
}

fn with_settings(
    topic: TopicName,
    subscription: SubscriptionName,
    settings: Settings,
) -> ConsumerEndpoint
    ensures { result ≡ with_settings topic subscription settings }
{
    ConsumerEndpoint {
        topic,
        subscription,
        kind: settings.kind,
        level: settings.level,
        flow: settings.flow,
        ack_timeout: settings.ack_timeout,
        nack_delay: settings.nack_delay,
        max_redeliver: settings.max_redeliver,
        dead_topic: settings.dead_topic,
        initial: settings.initial,
        ranges: settings.ranges,
        mode: settings.mode,
    }
}

/// The consumer that a query describes.
pub fn consumer_of(
    alloc: Global,
    topic: TopicName,
    subscription: SubscriptionName,
    query: &Query,
) -> Result<ConsumerEndpoint, Cause>
    ensures { Gives result (consumer_of topic subscription query.now) }
{
    match settings_in(alloc, &topic, &subscription, query) {
        Ok(settings) => Ok(with_settings(topic, subscription, settings)),
        Err(cause) => Err(cause),
    }
}
