// Replies: one form for each way that an event may come out.
ghost use Rattle.std.specs.Prelude.{◌≡◌, ◌↔◌, IfOk, IsOk, IsTrue, Some, List, false};
ghost use Rattle.delivery_machine.specs.Dying.{is_letter};
ghost use Rattle.delivery_machine.specs.declared.delivery.Delivery.{Delivery};

use crate::delivery::Deliveries;
use position_core::{
    ConsumerNumber, Fault, Kind, Message, Moment, Ordinal, Position, ProducerNumber, TopicName,
};
use std::alloc::AllocError;

/// What a topic answers.
#[derive(Drop)]
pub enum Reply {
    /// `auto` is the number in the name that the topic made; `last` is the last sequence number
    /// under the producer's name.
    ProducerAdded {
        producer: ProducerNumber,
        auto: Option<u64>,
        last: i64,
    },
    /// `length` is how many messages the topic has had, with this one.
    Published {
        position: Position,
        length: u64,
    },
    /// The sequence number is not above the last one. `length` is how many messages the topic has had.
    Duplicate {
        length: u64,
    },
    /// So many messages are stored.
    Durable(u64),
    /// So many messages are stored, of so many that the topic has had.
    Progress {
        durable: u64,
        length: u64,
    },
    Subscribed {
        consumer: ConsumerNumber,
    },
    Done,
    /// `count` is how often the message was redelivered before.
    Sent {
        consumer: ConsumerNumber,
        position: Position,
        count: u32,
    },
    /// No message may be sent.
    Idle,
    Copies(Deliveries),
    /// The message waits again.
    Released {
        position: Position,
    },
    /// The message is a dead letter, and so is not sent again.
    Died {
        position: Position,
        ordinal: Ordinal,
    },
    /// All messages that were pending wait again: so many.
    Rewound {
        count: u64,
    },
    /// Nothing is due.
    Quiet,
    /// How many consumers are at the subscription; the last message up to which all are
    /// acknowledged; how many messages of the log are acknowledged, live, pending, and dead letters.
    /// Of the topic: how many messages are gone, and when the first that is kept was published.
    Stats {
        kind: Kind,
        members: u64,
        mark_delete: Option<Position>,
        acknowledged: u64,
        live: u64,
        pending: u64,
        dead: u64,
        gone: u64,
        oldest: Option<Moment>,
    },
    /// Messages went: so many are gone by now, of all that the topic has had.
    Trimmed(u64),
    /// None may go.
    Untrimmed,
    /// The first dead letter whose death is stored, and the topic that it goes to.
    Dead {
        message: Message,
        target: TopicName,
        ordinal: Ordinal,
    },
    /// No death that is stored is left to be moved.
    NoDead,
    /// The event changed nothing.
    Refused(Fault),
}

fn twin_of_letter(
    message: &Message,
    target: &TopicName,
    ordinal: Ordinal,
) -> Result<Reply, AllocError>
    ensures { IfOk result (λ twin. twin ≡ Reply.Dead message.now target.now ordinal) }
{
    Ok(Reply::Dead {
        message: message.clone()?,
        target: target.clone()?,
        ordinal,
    })
}

impl Reply {
    /// An equal reply. The copies are those of its messages, where it hands messages out; a dead letter
    /// gets one more owner, which may be refused, and nothing else takes memory.
    pub fn twin(&self, copies: Option<Deliveries>) -> Result<Reply, AllocError>
        requires copies { (handed : List Delivery) → self.now ≡ Reply.Copies handed → copies ≡ Some handed }
        ensures ok { IfOk result (λ twin. twin ≡ self.now) }
        ensures given { is_letter self.now ≡ false → IsOk result }
    {
        match self {
            Reply::ProducerAdded {
                producer,
                auto,
                last,
            } => Ok(Reply::ProducerAdded {
                producer: *producer,
                auto: *auto,
                last: *last,
            }),
            Reply::Published { position, length } => Ok(Reply::Published {
                position: *position,
                length: *length,
            }),
            Reply::Duplicate { length } => Ok(Reply::Duplicate { length: *length }),
            Reply::Durable(count) => Ok(Reply::Durable(*count)),
            Reply::Progress { durable, length } => Ok(Reply::Progress {
                durable: *durable,
                length: *length,
            }),
            Reply::Subscribed { consumer } => Ok(Reply::Subscribed {
                consumer: *consumer,
            }),
            Reply::Done => Ok(Reply::Done),
            Reply::Sent {
                consumer,
                position,
                count,
            } => Ok(Reply::Sent {
                consumer: *consumer,
                position: *position,
                count: *count,
            }),
            Reply::Idle => Ok(Reply::Idle),
            Reply::Copies(_) => match copies {
                Some(copies) => Ok(Reply::Copies(copies)),
                None => Err(AllocError),
            },
            Reply::Released { position } => Ok(Reply::Released {
                position: *position,
            }),
            Reply::Died { position, ordinal } => Ok(Reply::Died {
                position: *position,
                ordinal: *ordinal,
            }),
            Reply::Rewound { count } => Ok(Reply::Rewound { count: *count }),
            Reply::Quiet => Ok(Reply::Quiet),
            Reply::Stats {
                kind,
                members,
                mark_delete,
                acknowledged,
                live,
                pending,
                dead,
                gone,
                oldest,
            } => Ok(Reply::Stats {
                kind: *kind,
                members: *members,
                mark_delete: *mark_delete,
                acknowledged: *acknowledged,
                live: *live,
                pending: *pending,
                dead: *dead,
                gone: *gone,
                oldest: *oldest,
            }),
            Reply::Trimmed(gone) => Ok(Reply::Trimmed(*gone)),
            Reply::Untrimmed => Ok(Reply::Untrimmed),
            Reply::Dead {
                message,
                target,
                ordinal,
            } => twin_of_letter(message, target, *ordinal),
            Reply::NoDead => Ok(Reply::NoDead),
            Reply::Refused(fault) => Ok(Reply::Refused(*fault)),
        }
    }

    /// Whether two replies are the same.
    pub fn is(&self, other: &Reply) -> bool
        ensures { IsTrue result ↔ self.now ≡ other.now }
    {
        match self {
            Reply::ProducerAdded {
                producer,
                auto,
                last,
            } =>
                matches!(other, Reply::ProducerAdded { producer: p, auto: a, last: l } if producer == p && auto == a && last == l),
            Reply::Published { position, length } =>
                matches!(other, Reply::Published { position: p, length: l } if position == p && length == l),
            Reply::Duplicate { length } =>
                matches!(other, Reply::Duplicate { length: l } if length == l),
            Reply::Durable(count) => matches!(other, Reply::Durable(c) if count == c),
            Reply::Progress { durable, length } =>
                matches!(other, Reply::Progress { durable: d, length: l } if durable == d && length == l),
            Reply::Subscribed { consumer } =>
                matches!(other, Reply::Subscribed { consumer: c } if consumer == c),
            Reply::Done => matches!(other, Reply::Done),
            Reply::Sent {
                consumer,
                position,
                count,
            } =>
                matches!(other, Reply::Sent { consumer: c, position: p, count: n } if consumer == c && position == p && count == n),
            Reply::Idle => matches!(other, Reply::Idle),
            Reply::Copies(copies) => matches!(other, Reply::Copies(c) if copies.are(c)),
            Reply::Released { position } =>
                matches!(other, Reply::Released { position: p } if position == p),
            Reply::Died { position, ordinal } =>
                matches!(other, Reply::Died { position: p, ordinal: o } if position == p && ordinal == o),
            Reply::Rewound { count } => matches!(other, Reply::Rewound { count: c } if count == c),
            Reply::Quiet => matches!(other, Reply::Quiet),
            Reply::Stats {
                kind,
                members,
                mark_delete,
                acknowledged,
                live,
                pending,
                dead,
                gone,
                oldest,
            } =>
                matches!(other, Reply::Stats { kind: k, members: m, mark_delete: p, acknowledged: a, live: l, pending: n, dead: d, gone: g, oldest: o } if kind == k && members == m && mark_delete == p && acknowledged == a && live == l && pending == n && dead == d && gone == g && oldest == o),
            Reply::Trimmed(gone) => matches!(other, Reply::Trimmed(g) if gone == g),
            Reply::Untrimmed => matches!(other, Reply::Untrimmed),
            Reply::Dead {
                message,
                target,
                ordinal,
            } =>
                matches!(other, Reply::Dead { message: m, target: t, ordinal: o } if message.is(m) && target.is(t) && ordinal == o),
            Reply::NoDead => matches!(other, Reply::NoDead),
            Reply::Refused(fault) => matches!(other, Reply::Refused(f) if fault == f),
        }
    }
}

fn copies_of(reply: &Reply) -> Result<Option<Deliveries>, AllocError>
    ensures { IfOk result (λ copies. (handed : List Delivery) → reply.now ≡ Reply.Copies handed → copies ≡ Some handed) }
{
    match reply {
        Reply::Copies(handed) => Ok(Some(handed.clone()?)),
        _ => Ok(None),
    }
}

impl Clone for Reply {
    ghost is_clone = { λ reply copy. copy ≡ reply };

    fn clone(&self) -> Result<Self, AllocError> {
        self.twin(copies_of(self)?)
    }
}
