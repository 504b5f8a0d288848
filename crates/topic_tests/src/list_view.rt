// A topic's lists, as a dispatcher sees them.
ghost use Rattle.std.specs.Prelude.{◌≡◌, ◌<◌, ◌^◌, length, slice_get};
ghost use Rattle.std.specs.List.{filter};
ghost use Rattle.std.specs.Option.{option_copied};
ghost use Rattle.delivery_machine.specs.Words.{is_at};

use dispatch_core::{Seen, View};
use plain_lists::{Member, Subscription};
use plain_queries::has_room;
use position_core::{LogIndex, Message, SubscriptionName};

/// A view over lists, which says in the plainest way what a view shows. Its calls go through the
/// whole log, so it serves tests.
#[derive(Clone, Copy)]
pub struct ListView<'a> {
    pub log: &'a [Message],
    /// So many of the first messages are stored.
    pub durable: usize,
    pub subscription: &'a Subscription,
    /// The members of this subscription and of others, in the order of joining.
    pub members: &'a [Member],
}

/// The member at the place, among those of the subscription of the name.
fn member_in<'a>(members: &'a [Member], name: &SubscriptionName, place: u64) -> Option<&'a Member>
    ensures value { option_copied result ≡ slice_get (filter (is_at name.now) members.now) place }
    ensures few { length (filter (is_at name.now) members.now) < 2 ^ 64 }
{
    members
        .iter()
        .filter(|member| member.is_at(name))
        .nth(place as usize)
}

impl View for ListView<'_> {
    ghost use Rattle.topic_tests.specs.Listed.{listed};

    ghost state = { λ v. listed v.log.now v.durable v.members.now };

    ghost subscription = { λ v. v.subscription.now };

    fn visible(&self) -> u64 {
        self.durable.min(self.log.len()) as u64
    }

    fn length(&self) -> u64 {
        self.log.len() as u64
    }

    #[tactic(auto, unfolding(dispatch_core::specs::Log::key_at))]
    fn key(&self, index: LogIndex) -> Option<&str> {
        let message = self.log.get(index as usize)?;
        match &message.entry().body.content().key {
            Some(key) => Some(key.as_str()),
            None => None,
        }
    }

    fn next_waiting(&self, from: LogIndex) -> Option<LogIndex> {
        for index in from..self.visible() {
            if self.subscription.is_waiting(&self.log[index as usize]) {
                return Some(index);
            }
        }
        None
    }

    #[tactic(auto, unfolding(dispatch_core::specs::Log::holder_at))]
    fn holder(&self, index: LogIndex) -> Option<u64> {
        let message = self.log.get(index as usize)?;
        self.subscription.holder(message.position())
    }

    fn member(&self, place: u64) -> Option<Seen> {
        let member = member_in(self.members, self.subscription.name(), place)?;
        Some(Seen {
            consumer: member.number(),
            level: member.level(),
            room: has_room(self.log, self.subscription, member),
        })
    }
}
