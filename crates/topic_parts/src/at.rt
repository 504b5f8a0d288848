// A topic's parts, as the dispatcher of one of its subscriptions sees them.
ghost use Rattle.std.specs.Prelude.{◌≡◌, ◌≤◌, length, map};
ghost use Rattle.std.specs.List.Sorted.{IsStrictlySortedBy-prop};
ghost use Rattle.position_core.specs.Position.{position_cmp};
ghost use Rattle.topic_members.specs.Members.{NumbersRise};
ghost use Rattle.topic_subscriptions.specs.Placed.{IsRising};
ghost use Rattle.topic_parts.specs.Parts.{IsSeenIn, log_of};

use crate::parts::Parts;
use dispatch_core::{Seen, View};
use position_core::{ConsumerNumber, Flow, LogIndex};
use topic_members::Member;
use topic_subscriptions::Subscription;

/// One of the subscriptions, among the parts.
#[derive(Drop)]
pub struct At<'a> {
    pub parts: &'a Parts,
    pub subscription: &'a Subscription,
    ghost durable: { parts.now.log.durable ≤ length (log_of parts.now) },
    ghost rising: { IsRising (log_of parts.now) } by { IsStrictlySortedBy-prop position_cmp (map (λ e. e.position) (log_of parts.now)) },
    ghost numbers: { NumbersRise parts.now.members.members },
    ghost placed: { IsSeenIn (log_of parts.now) parts.now.members.members subscription.now },
}

impl Parts {
    ghost use Rattle.std.specs.Prelude.{◌≡◌, ◌<◌, length, slice_get, Some};
    ghost use Rattle.topic_parts.specs.Parts.{AreTied};

    /// What the dispatcher of the subscription at the place sees.
    pub fn at(&self, place: usize) -> At<'_>
        requires tied { AreTied self.now }
        requires within { place < length self.now.subscriptions.items }
        ensures parts { result.parts.now ≡ self.now }
        ensures subscription { Some result.subscription.now ≡ slice_get self.now.subscriptions.items place }
    {
        let _length = self.log.len();
        let _durable = self.log.durable();
        let _members = self.members.len();
        At {
            parts: self,
            subscription: &self.subscriptions[place],
        }
    }
}

impl At<'_> {
    ghost use Rattle.std.specs.Prelude.{◌≡◌};
    ghost use Rattle.delivery_machine.specs.Words.{has_room};
    ghost use Rattle.topic_subscriptions.specs.Placed.{sub_in};
    ghost use Rattle.topic_parts.specs.Parts.{log_of, state_of};

    /// Whether a further message may be sent to the member, which stands at the place in line. Only a window
    /// asks how many are pending at it.
    fn has_room(&self, member: &Member, place: usize) -> bool
        ensures { result ≡ has_room (state_of self.now.parts.now) (sub_in (log_of self.now.parts.now) self.now.subscription.now) member.now }
    {
        match member.flow() {
            Flow::Window(_) => {
                member.has_room(self.subscription.pending_near(member.number(), place))
            }
            Flow::Credit(_) => member.has_room(0),
        }
    }
}

impl View for At<'_> {
    ghost use Rattle.topic_subscriptions.specs.Placed.{sub_in};
    ghost use Rattle.topic_parts.specs.Parts.{log_of, state_of};

    ghost state = { λ v. state_of v.parts.now };

    ghost subscription = { λ v. sub_in (log_of v.parts.now) v.subscription.now };

    fn visible(&self) -> u64 {
        self.parts.log.durable() as u64
    }

    fn length(&self) -> u64 {
        self.parts.log.len() as u64
    }

    #[tactic(auto, unfolding(dispatch_core::specs::Log::key_at))]
    fn key(&self, index: LogIndex) -> Option<&str> {
        let message = self.parts.log.get(index as usize)?;
        match &message.entry().body.content().key {
            Some(key) => Some(key.as_str()),
            None => None,
        }
    }

    fn next_waiting(&self, from: LogIndex) -> Option<LogIndex> {
        let durable = self.parts.log.durable() as u64;
        let mut place = self.subscription.next_live(from);
        while place < durable {
            let Some(message) = self.parts.log.get(place as usize) else {
                return None;
            };
            match self.subscription.holder(message.position()) {
                None => return Some(place),
                Some(_) => place = self.subscription.next_live(place + 1),
            }
        }
        None
    }

    #[tactic(auto, unfolding(dispatch_core::specs::Log::holder_at))]
    fn holder(&self, index: LogIndex) -> Option<u64> {
        let message = self.parts.log.get(index as usize)?;
        self.subscription.holder(message.position())
    }

    fn member(&self, place: u64) -> Option<Seen> {
        let Some(consumer) = self.subscription.number_at(place) else {
            return None;
        };
        // All members before it may be of this subscription too, with something pending at each.
        match self.parts.members.get_near(consumer, place as usize) {
            Some(member) => Some(Seen {
                consumer,
                level: member.level(),
                room: self.has_room(member, place as usize),
            }),
            None => None,
        }
    }
}
