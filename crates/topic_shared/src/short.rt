// Events that are kept in short: those that come often, and those that take no memory.
ghost use Rattle.std.specs.Prelude.{◌≡◌, ◌↔◌, IsTrue, false};
ghost use Rattle.topic_shared.specs.Short.{is_long, event_of};

use delivery_machine::{
    Body, ConsumerNumber, Event, Moment, Ordinal, Permits, Position, ProducerNumber,
    SubscriptionName,
};

/// Whether the event is not kept in short.
pub(crate) fn is_long(event: &Event) -> bool
    ensures { result ≡ is_long event.now }
{
    match event {
        Event::AddProducer { .. }
        | Event::Subscribe { .. }
        | Event::Seek { .. }
        | Event::SeekTime { .. }
        | Event::Skip { .. }
        | Event::DropSubscription { .. }
        | Event::Stats { .. }
        | Event::SetRetention { .. }
        | Event::DeadNext { .. }
        | Event::DeadDone { .. } => true,
        Event::DropProducer { .. }
        | Event::Publish { .. }
        | Event::Stored
        | Event::StoredTo { .. }
        | Event::Progress
        | Event::Leave { .. }
        | Event::Permit { .. }
        | Event::Ack { .. }
        | Event::AckUpTo { .. }
        | Event::Nack { .. }
        | Event::Tick { .. }
        | Event::Trim { .. }
        | Event::Dispatch { .. }
        | Event::Collect { .. } => false,
    }
}

/// An event in short.
#[derive(Drop)]
pub(crate) enum ShortEvent {
    DropProducer {
        producer: ProducerNumber,
    },
    Publish {
        producer: ProducerNumber,
        sequence: i64,
        body: Body,
        now: Moment,
    },
    Stored,
    StoredTo {
        length: u64,
        ordinal: Ordinal,
    },
    Progress,
    Leave {
        consumer: ConsumerNumber,
    },
    Permit {
        consumer: ConsumerNumber,
        permits: Permits,
    },
    Ack {
        consumer: ConsumerNumber,
        position: Position,
    },
    AckUpTo {
        consumer: ConsumerNumber,
        position: Position,
    },
    Nack {
        consumer: ConsumerNumber,
        position: Position,
        now: Moment,
    },
    Tick {
        subscription: SubscriptionName,
        now: Moment,
    },
    Trim {
        keep: u64,
        before: Moment,
        most: u64,
    },
    Dispatch {
        subscription: SubscriptionName,
        now: Moment,
    },
    Collect {
        consumer: ConsumerNumber,
    },
}

impl ShortEvent {
    pub(crate) fn of(event: Event) -> ShortEvent
        requires { is_long event ≡ false }
        ensures { event_of result ≡ event }
    {
        match event {
            Event::DropProducer { producer } => ShortEvent::DropProducer { producer },
            Event::Publish {
                producer,
                sequence,
                body,
                now,
            } => ShortEvent::Publish {
                producer,
                sequence,
                body,
                now,
            },
            Event::Stored => ShortEvent::Stored,
            Event::StoredTo { length, ordinal } => ShortEvent::StoredTo { length, ordinal },
            Event::Progress => ShortEvent::Progress,
            Event::Leave { consumer } => ShortEvent::Leave { consumer },
            Event::Permit { consumer, permits } => ShortEvent::Permit { consumer, permits },
            Event::Ack { consumer, position } => ShortEvent::Ack { consumer, position },
            Event::AckUpTo { consumer, position } => ShortEvent::AckUpTo { consumer, position },
            Event::Nack {
                consumer,
                position,
                now,
            } => ShortEvent::Nack {
                consumer,
                position,
                now,
            },
            Event::Tick { subscription, now } => ShortEvent::Tick { subscription, now },
            Event::Trim { keep, before, most } => ShortEvent::Trim { keep, before, most },
            Event::Dispatch { subscription, now } => ShortEvent::Dispatch { subscription, now },
            Event::Collect { consumer } => ShortEvent::Collect { consumer },

            Event::AddProducer { .. }
            | Event::Subscribe { .. }
            | Event::Seek { .. }
            | Event::SeekTime { .. }
            | Event::Skip { .. }
            | Event::DropSubscription { .. }
            | Event::Stats { .. }
            | Event::SetRetention { .. }
            | Event::DeadNext { .. }
            | Event::DeadDone { .. } => unreachable!(),
        }
    }

    /// Whether it is the event.
    pub(crate) fn is(&self, other: &Event) -> bool
        ensures { IsTrue result ↔ event_of self.now ≡ other.now }
    {
        match self {
            ShortEvent::DropProducer { producer } =>
                matches!(other, Event::DropProducer { producer: d } if producer == d),
            ShortEvent::Publish {
                producer,
                sequence,
                body,
                now,
            } =>
                matches!(other, Event::Publish { producer: d, sequence: q, body: b, now: n } if producer == d && sequence == q && body.is(b) && now == n),
            ShortEvent::Stored => matches!(other, Event::Stored),
            ShortEvent::StoredTo { length, ordinal } =>
                matches!(other, Event::StoredTo { length: l, ordinal: o } if length == l && ordinal == o),
            ShortEvent::Progress => matches!(other, Event::Progress),
            ShortEvent::Leave { consumer } =>
                matches!(other, Event::Leave { consumer: c } if consumer == c),
            ShortEvent::Permit { consumer, permits } =>
                matches!(other, Event::Permit { consumer: c, permits: m } if consumer == c && permits == m),
            ShortEvent::Ack { consumer, position } =>
                matches!(other, Event::Ack { consumer: c, position: p } if consumer == c && position == p),
            ShortEvent::AckUpTo { consumer, position } =>
                matches!(other, Event::AckUpTo { consumer: c, position: p } if consumer == c && position == p),
            ShortEvent::Nack {
                consumer,
                position,
                now,
            } =>
                matches!(other, Event::Nack { consumer: c, position: p, now: n } if consumer == c && position == p && now == n),
            ShortEvent::Tick { subscription, now } =>
                matches!(other, Event::Tick { subscription: s, now: n } if subscription.is(s) && now == n),
            ShortEvent::Trim { keep, before, most } =>
                matches!(other, Event::Trim { keep: k, before: b, most: m } if keep == k && before == b && most == m),
            ShortEvent::Dispatch { subscription, now } =>
                matches!(other, Event::Dispatch { subscription: s, now: n } if subscription.is(s) && now == n),
            ShortEvent::Collect { consumer } =>
                matches!(other, Event::Collect { consumer: c } if consumer == c),
        }
    }
}
