// Replies that are kept in short: those that an event in short gets.
ghost use Rattle.std.specs.Prelude.{◌≡◌, ◌↔◌, IsTrue, false};
ghost use Rattle.topic_shared.specs.Short.{is_long_reply, reply_of};

use delivery_machine::{ConsumerNumber, Deliveries, Fault, Ordinal, Position, Reply};

/// A reply in short.
#[derive(Drop)]
pub(crate) enum ShortReply {
    Published {
        position: Position,
        length: u64,
    },
    Duplicate {
        length: u64,
    },
    Durable(u64),
    Progress {
        durable: u64,
        length: u64,
    },
    Done,
    Sent {
        consumer: ConsumerNumber,
        position: Position,
        count: u32,
    },
    Idle,
    Copies(Deliveries),
    Released {
        position: Position,
    },
    Died {
        position: Position,
        ordinal: Ordinal,
    },
    Rewound {
        count: u64,
    },
    Quiet,
    Trimmed(u64),
    Untrimmed,
    Refused(Fault),
}

impl ShortReply {
    pub(crate) fn of(reply: Reply) -> ShortReply
        requires { is_long_reply reply ≡ false }
        ensures { reply_of result ≡ reply }
    {
        match reply {
            Reply::Published { position, length } => ShortReply::Published { position, length },
            Reply::Duplicate { length } => ShortReply::Duplicate { length },
            Reply::Durable(value) => ShortReply::Durable(value),
            Reply::Progress { durable, length } => ShortReply::Progress { durable, length },
            Reply::Done => ShortReply::Done,
            Reply::Sent {
                consumer,
                position,
                count,
            } => ShortReply::Sent {
                consumer,
                position,
                count,
            },
            Reply::Idle => ShortReply::Idle,
            Reply::Copies(value) => ShortReply::Copies(value),
            Reply::Released { position } => ShortReply::Released { position },
            Reply::Died { position, ordinal } => ShortReply::Died { position, ordinal },
            Reply::Rewound { count } => ShortReply::Rewound { count },
            Reply::Quiet => ShortReply::Quiet,
            Reply::Trimmed(gone) => ShortReply::Trimmed(gone),
            Reply::Untrimmed => ShortReply::Untrimmed,
            Reply::Refused(value) => ShortReply::Refused(value),

            Reply::ProducerAdded { .. }
            | Reply::Subscribed { .. }
            | Reply::Stats { .. }
            | Reply::Dead { .. }
            | Reply::NoDead => unreachable!(),
        }
    }

    /// Whether it is the reply.
    pub(crate) fn is(&self, other: &Reply) -> bool
        ensures { IsTrue result ↔ reply_of self.now ≡ other.now }
    {
        match self {
            ShortReply::Published { position, length } =>
                matches!(other, Reply::Published { position: p, length: l } if position == p && length == l),
            ShortReply::Duplicate { length } =>
                matches!(other, Reply::Duplicate { length: l } if length == l),
            ShortReply::Durable(value) => matches!(other, Reply::Durable(o) if value == o),
            ShortReply::Progress { durable, length } =>
                matches!(other, Reply::Progress { durable: u, length: l } if durable == u && length == l),
            ShortReply::Done => matches!(other, Reply::Done),
            ShortReply::Sent {
                consumer,
                position,
                count,
            } =>
                matches!(other, Reply::Sent { consumer: c, position: p, count: k } if consumer == c && position == p && count == k),
            ShortReply::Idle => matches!(other, Reply::Idle),
            ShortReply::Copies(value) => matches!(other, Reply::Copies(o) if value.are(o)),
            ShortReply::Released { position } =>
                matches!(other, Reply::Released { position: p } if position == p),
            ShortReply::Died { position, ordinal } =>
                matches!(other, Reply::Died { position: p, ordinal: o } if position == p && ordinal == o),
            ShortReply::Rewound { count } =>
                matches!(other, Reply::Rewound { count: k } if count == k),
            ShortReply::Quiet => matches!(other, Reply::Quiet),
            ShortReply::Trimmed(gone) => matches!(other, Reply::Trimmed(g) if gone == g),
            ShortReply::Untrimmed => matches!(other, Reply::Untrimmed),
            ShortReply::Refused(value) => matches!(other, Reply::Refused(o) if value == o),
        }
    }
}
