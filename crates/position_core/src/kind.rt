// The kinds of subscription.
ghost use Rattle.std.specs.Prelude.{◌≡◌};
ghost use Rattle.position_core.specs.Kind.{is_in_order, same_kind};

/// How a subscription hands out its messages (Pulsar's documentation, "Subscription types").
#[derive(Clone, Copy, Debug, PartialEq, Eq)]
pub enum Kind {
    /// One consumer takes all of them.
    Exclusive,
    /// One consumer at a time takes all of them, and the next one takes over.
    Failover,
    /// Each message goes to any one consumer of the best level.
    Shared,
    /// Each message goes to the consumer that has the hash of its key (PIP-379).
    KeyShared,
}

impl Kind {
    /// Whether one consumer takes the messages in their order.
    pub fn is_in_order(self) -> bool
        ensures { result ≡ is_in_order self }
    {
        match self {
            Kind::Exclusive | Kind::Failover => true,
            Kind::Shared | Kind::KeyShared => false,
        }
    }

    /// Whether two kinds are the same.
    pub fn is(self, other: Kind) -> bool
        ensures { result ≡ same_kind self other }
    {
        match self {
            Kind::Exclusive => matches!(other, Kind::Exclusive),
            Kind::Failover => matches!(other, Kind::Failover),
            Kind::Shared => matches!(other, Kind::Shared),
            Kind::KeyShared => matches!(other, Kind::KeyShared),
        }
    }
}
