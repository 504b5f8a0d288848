// What a dispatcher sees of a topic.
ghost use Rattle.std.specs.Prelude.{◌≡◌, ◌<◌, ◌^◌, IfSome, IfNone, length};
ghost use Rattle.std.specs.Option.{option_copied};
ghost use Rattle.delivery_machine.specs.State.{State, Subscription};
ghost use Rattle.delivery_machine.specs.Words.{members_of, visible};
ghost use Rattle.dispatch_core.specs.Log.{holder_at, key_at, IsNextReady, NoneReady};
ghost use Rattle.dispatch_core.specs.Offers.{seen_at, seen_members};

use crate::members::Members;
use position_core::{ConsumerNumber, Level, LogIndex};

/// A member of a subscription.
#[derive(Clone, Copy, Debug, PartialEq, Eq)]
pub struct Seen {
    pub consumer: ConsumerNumber,
    pub level: Level,
    /// It may be sent a further message.
    pub room: bool,
}

/// What is seen of a topic and one of its subscriptions. Messages are named by their indexes, and
/// members by their places in the order of joining, from 0 on. No call takes memory.
pub trait View {
    /// The machine's state that the topic is in.
    ghost state: { Self → State };

    ghost subscription: { Self → Subscription };

    /// How many messages of the log are visible: the first ones.
    fn visible(&self) -> u64
        ensures { result ≡ length (visible (state self.now)) };

    /// How many messages the log has.
    fn length(&self) -> u64
        ensures { result ≡ length (state self.now).log };

    /// The key of the message at the index. None where it has none, or there is no such message.
    fn key(&self, index: LogIndex) -> Option<&str>
        ensures { option_copied result ≡ key_at (state self.now) index };

    /// The index of the first visible message that waits, from the given one on.
    fn next_waiting(&self, from: LogIndex) -> Option<LogIndex>
        ensures some { IfSome result (IsNextReady (state self.now) (subscription self.now) from) }
        ensures none { IfNone result (NoneReady (state self.now) (subscription self.now) from) };

    /// The consumer at which the message at the index is pending.
    fn holder(&self, index: LogIndex) -> Option<u64>
        ensures { result ≡ holder_at (state self.now) (subscription self.now) index };

    /// The member at the place.
    fn member(&self, place: u64) -> Option<Seen>
        ensures seen { result ≡ seen_at (state self.now) (subscription self.now) place }
        ensures few { length (members_of (state self.now) (subscription self.now).name) < 2 ^ 64 };

    /// All members, in the order of joining.
    final fn members(&self) -> Members<'_, Self>
    where
        Self: Sized,
        ensures { result ≡ seen_members (state self.now) (subscription self.now) }
    {
        Members::of(self)
    }
}
