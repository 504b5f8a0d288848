// What may be asked of a topic.
ghost use Rattle.std.specs.Prelude.{◌≡◌, ◌↔◌, IsTrue};

use crate::retention::Retention;
use position_core::{
    Base, Body, ConsumerNumber, Flow, Kind, Level, Millis, Moment, Ordinal, Permits, Position,
    ProducerName, ProducerNumber, Ranges, RedeliverLimit, SkipLength, SubscriptionName, TopicName,
};

/// What a new subscription begins with.
#[derive(Clone, Copy, Debug, PartialEq, Eq)]
pub enum Initial {
    /// Every message of the log.
    Earliest,
    /// The messages that are yet to come.
    Latest,
}

/// Where a subscription is to go on from.
#[derive(Clone, Copy, Debug, PartialEq, Eq)]
pub enum Target {
    /// The first message of the log.
    Earliest,
    /// The messages that are yet to come.
    Latest,
    /// The message at the position.
    At(Position),
}

/// What may be asked of a topic. Numbers of producers and consumers are those that it gave.
#[derive(Drop)]
pub enum Event {
    /// Connects a producer. Without a name it gets one of the topic's.
    AddProducer {
        name: Option<ProducerName>,
        base: Base,
    },
    /// The producer goes. Its messages stay.
    DropProducer {
        producer: ProducerNumber,
    },
    /// Hands in a message under the producer's sequence number.
    Publish {
        producer: ProducerNumber,
        sequence: i64,
        body: Body,
        now: Moment,
    },
    /// The store holds all that the log has.
    Stored,
    /// The store holds the first messages that the topic ever had, so many, and the deaths below the
    /// ordinal: what a snapshot had that was taken before, while the topic went on.
    StoredTo {
        length: u64,
        ordinal: Ordinal,
    },
    /// How much of the log is stored.
    Progress,
    /// Joins a consumer to a subscription, which the first one makes. In Key_Shared it may say which
    /// hashes it takes; in the other kinds the ranges are not looked at.
    Subscribe {
        subscription: SubscriptionName,
        kind: Kind,
        level: Level,
        flow: Flow,
        ack_timeout: Millis,
        nack_delay: Millis,
        max_redeliver: RedeliverLimit,
        dead_topic: TopicName,
        initial: Initial,
        ranges: Option<Ranges>,
    },
    /// The consumer leaves its subscription.
    Leave {
        consumer: ConsumerNumber,
    },
    /// Lets the consumer be sent so many further messages.
    Permit {
        consumer: ConsumerNumber,
        permits: Permits,
    },
    /// The consumer has done with the message.
    Ack {
        consumer: ConsumerNumber,
        position: Position,
    },
    /// The consumer has done with the message and all before it.
    AckUpTo {
        consumer: ConsumerNumber,
        position: Position,
    },
    /// The consumer wants the message again, after its delay.
    Nack {
        consumer: ConsumerNumber,
        position: Position,
        now: Moment,
    },
    /// Releases what is due by now.
    Tick {
        subscription: SubscriptionName,
        now: Moment,
    },
    /// The subscription goes on from the target, and forgets what it was sent.
    Seek {
        subscription: SubscriptionName,
        target: Target,
    },
    /// The subscription goes on from the first message that is not earlier.
    SeekTime {
        subscription: SubscriptionName,
        time: Moment,
    },
    /// The subscription has done with so many of its next messages.
    Skip {
        subscription: SubscriptionName,
        count: SkipLength,
    },
    /// The subscription goes, which nobody is at.
    DropSubscription {
        subscription: SubscriptionName,
    },
    /// How far the subscription is.
    Stats {
        subscription: SubscriptionName,
    },
    /// The first messages of the log go, at most `most` and in whole sixty-fours, that are stored, are
    /// not later than `before`, and that every subscription has done with. The last that might go
    /// stays, and so do the last `keep` of the log. Where no subscription is, none go.
    Trim {
        keep: u64,
        before: Moment,
        most: u64,
    },
    /// What the topic keeps of the messages that every subscription has done with; without one it
    /// keeps what its broker does. Nothing goes by it until it is asked to trim.
    SetRetention {
        retention: Option<Retention>,
    },
    /// Sends one message of the subscription, where one may be sent.
    Dispatch {
        subscription: SubscriptionName,
        now: Moment,
    },
    /// Hands the consumer what it was sent.
    Collect {
        consumer: ConsumerNumber,
    },
    /// Shows the first dead letter whose death is stored.
    DeadNext {
        subscription: SubscriptionName,
    },
    /// That dead letter stands in its topic.
    DeadDone {
        subscription: SubscriptionName,
        ordinal: Ordinal,
    },
}

fn same_name(name: &Option<ProducerName>, other: &Option<ProducerName>) -> bool
    ensures { IsTrue result ↔ name.now ≡ other.now }
{
    match name {
        Some(name) => match other {
            Some(other) => name.is(other),
            None => false,
        },
        None => other.is_none(),
    }
}

fn same_ranges(ranges: &Option<Ranges>, other: &Option<Ranges>) -> bool
    ensures { IsTrue result ↔ ranges.now ≡ other.now }
{
    match ranges {
        Some(ranges) => match other {
            Some(other) => ranges.is(other),
            None => false,
        },
        None => other.is_none(),
    }
}

impl Event {
    /// Whether two events are the same.
    pub fn is(&self, other: &Event) -> bool
        ensures { IsTrue result ↔ self.now ≡ other.now }
    {
        match self {
            Event::AddProducer { name, base } =>
                matches!(other, Event::AddProducer { name: n, base: b } if same_name(name, n) && base == b),
            Event::DropProducer { producer } =>
                matches!(other, Event::DropProducer { producer: d } if producer == d),
            Event::Publish {
                producer,
                sequence,
                body,
                now,
            } =>
                matches!(other, Event::Publish { producer: d, sequence: q, body: b, now: n } if producer == d && sequence == q && body.is(b) && now == n),
            Event::Stored => matches!(other, Event::Stored),
            Event::StoredTo { length, ordinal } =>
                matches!(other, Event::StoredTo { length: l, ordinal: o } if length == l && ordinal == o),
            Event::Progress => matches!(other, Event::Progress),
            Event::Subscribe {
                subscription,
                kind,
                level,
                flow,
                ack_timeout,
                nack_delay,
                max_redeliver,
                dead_topic,
                initial,
                ranges,
            } => match other {
                Event::Subscribe {
                    subscription: their_subscription,
                    kind: their_kind,
                    level: their_level,
                    flow: their_flow,
                    ack_timeout: their_ack_timeout,
                    nack_delay: their_nack_delay,
                    max_redeliver: their_max_redeliver,
                    dead_topic: their_dead_topic,
                    initial: their_initial,
                    ranges: their_ranges,
                } => subscription.is(their_subscription)
                    && kind == their_kind
                    && level == their_level
                    && flow == their_flow
                    && ack_timeout == their_ack_timeout
                    && nack_delay == their_nack_delay
                    && max_redeliver == their_max_redeliver
                    && dead_topic.is(their_dead_topic)
                    && initial == their_initial
                    && same_ranges(ranges, their_ranges),
                _ => false,
            },
            Event::Leave { consumer } =>
                matches!(other, Event::Leave { consumer: c } if consumer == c),
            Event::Permit { consumer, permits } =>
                matches!(other, Event::Permit { consumer: c, permits: m } if consumer == c && permits == m),
            Event::Ack { consumer, position } =>
                matches!(other, Event::Ack { consumer: c, position: p } if consumer == c && position == p),
            Event::AckUpTo { consumer, position } =>
                matches!(other, Event::AckUpTo { consumer: c, position: p } if consumer == c && position == p),
            Event::Nack {
                consumer,
                position,
                now,
            } =>
                matches!(other, Event::Nack { consumer: c, position: p, now: n } if consumer == c && position == p && now == n),
            Event::Tick { subscription, now } =>
                matches!(other, Event::Tick { subscription: s, now: n } if subscription.is(s) && now == n),
            Event::Seek {
                subscription,
                target,
            } =>
                matches!(other, Event::Seek { subscription: s, target: t } if subscription.is(s) && target == t),
            Event::SeekTime { subscription, time } =>
                matches!(other, Event::SeekTime { subscription: s, time: t } if subscription.is(s) && time == t),
            Event::Skip {
                subscription,
                count,
            } =>
                matches!(other, Event::Skip { subscription: s, count: k } if subscription.is(s) && count == k),
            Event::DropSubscription { subscription } =>
                matches!(other, Event::DropSubscription { subscription: s } if subscription.is(s)),
            Event::Stats { subscription } =>
                matches!(other, Event::Stats { subscription: s } if subscription.is(s)),
            Event::Trim { keep, before, most } =>
                matches!(other, Event::Trim { keep: k, before: b, most: m } if keep == k && before == b && most == m),
            Event::SetRetention { retention } =>
                matches!(other, Event::SetRetention { retention: r } if retention == r),
            Event::Dispatch { subscription, now } =>
                matches!(other, Event::Dispatch { subscription: s, now: n } if subscription.is(s) && now == n),
            Event::Collect { consumer } =>
                matches!(other, Event::Collect { consumer: c } if consumer == c),
            Event::DeadNext { subscription } =>
                matches!(other, Event::DeadNext { subscription: s } if subscription.is(s)),
            Event::DeadDone {
                subscription,
                ordinal,
            } =>
                matches!(other, Event::DeadDone { subscription: s, ordinal: o } if subscription.is(s) && ordinal == o),
        }
    }
}
