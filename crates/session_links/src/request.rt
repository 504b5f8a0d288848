// What a session asks of whoever has its topic.
use delivery_machine::{Event, SubscriptionName, Target};
use position_core::Bounded;

/// How many messages are shown at once.
pub type PeekLength = Bounded<1, 100>;

/// What a session asks of whoever has its topic.
#[derive(Drop)]
pub enum Request {
    /// The topic is to answer it.
    Event(Event),
    /// The subscription is to be made, with nobody at it, and to go on from the target. Several events come of that, and none
    /// between them.
    CreateSubscription {
        subscription: SubscriptionName,
        target: Target,
    },
    /// The next messages of the subscription are to be shown, so many. Nothing changes.
    Peek {
        subscription: SubscriptionName,
        count: PeekLength,
    },
    /// The session that has the number at the topic is to end. No topic knows sessions: whoever keeps it does.
    Disconnect {
        session: u64,
    },
    /// The broker's database is to be copied. No topic knows it: whoever keeps all topics does.
    BackUp,
    /// The whole topic is to go. No topic answers that: whoever keeps it does, with `Done` or a refusal.
    DeleteTopic,
}
