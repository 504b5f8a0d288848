// The refusals of the broker, each with its number.
ghost use Rattle.std.specs.Prelude.{◌≡◌};
ghost use Rattle.position_core.specs.Fault.{number_of};

/// Why an event, a text, a route or a call was refused.
#[derive(Clone, Copy, Debug, PartialEq, Eq)]
pub enum Fault {
    /// A growth, or a further owner of something shared, was refused.
    NoMemory,
    /// The producer's name is connected already.
    ProducerBusy,
    /// No producer or no consumer has the number.
    NoSession,
    /// The topic's log is full.
    TopicFull,
    /// The subscription has members of another kind.
    WrongKind,
    /// The Exclusive subscription has its member.
    ConsumerBusy,
    /// A limit on how many there may be.
    TooMany,
    /// No visible message has the position.
    NoSuchMessage,
    /// A cumulative acknowledgement in a Shared or Key_Shared subscription.
    NotCumulative,
    /// The message is not pending at the consumer.
    NotPending,
    /// The topic has no subscription of the name.
    NoSuchSubscription,
    /// The subscription has members, or dead letters that have not been moved.
    SubscriptionBusy,
    /// The credit would pass its limit.
    TooManyPermits,
    /// The dead-letter topic is the topic itself.
    DeadLetterSelf,
    /// The journal has no line left.
    JournalFull,
    /// The store answered an error, or its rows are no snapshot.
    StoreFailed,
    /// The text is no message id.
    BadId,
    /// The text is not the JSON that is asked for.
    BadJson,
    /// The payload is no base64, or too long.
    BadPayload,
    /// The request's target is no endpoint.
    BadRoute,
    /// No seat is free.
    NoRoom,
    /// A permit for a consumer that is pushed to.
    PushMode,
    /// A hash of the ranges is another consumer's.
    HashOverlap,
    /// The Key_Shared subscription has members of the other policy.
    MixedPolicy,
}

impl Fault {
    /// The number that stands on the wire and in printed lines, as 8 in `F8`.
    pub fn number(self) -> u8
        ensures { result ≡ number_of self }
    {
        match self {
            Fault::NoMemory => 1,
            Fault::ProducerBusy => 2,
            Fault::NoSession => 3,
            Fault::TopicFull => 4,
            Fault::WrongKind => 5,
            Fault::ConsumerBusy => 6,
            Fault::TooMany => 7,
            Fault::NoSuchMessage => 8,
            Fault::NotCumulative => 9,
            Fault::NotPending => 10,
            Fault::NoSuchSubscription => 11,
            Fault::SubscriptionBusy => 12,
            Fault::TooManyPermits => 13,
            Fault::DeadLetterSelf => 14,
            Fault::JournalFull => 15,
            Fault::StoreFailed => 16,
            Fault::BadId => 17,
            Fault::BadJson => 18,
            Fault::BadPayload => 19,
            Fault::BadRoute => 20,
            Fault::NoRoom => 21,
            Fault::PushMode => 22,
            Fault::HashOverlap => 23,
            Fault::MixedPolicy => 24,
        }
    }
}
