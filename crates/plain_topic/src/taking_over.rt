// Which member of a Failover is active, and what happens when another one is.
use crate::lists::Lists;
use plain_lists::{empty_at, place_of_subscription};
use plain_queries::{active_at, has_kind};
use position_core::{Kind, SubscriptionName};

impl Lists {
    ghost use Rattle.std.specs.Prelude.{◌≡◌, vec_capacity};
    ghost use Rattle.delivery_machine.specs.Words.{active_at};
    ghost use Rattle.delivery_machine.specs.Joining.{is_taken_over, taken_over};
    ghost use Rattle.plain_topic.specs.StateOf.{state_of};

    /// The number of the active member.
    pub(crate) fn active_at(&self, name: &SubscriptionName) -> Option<u64>
        ensures { result ≡ active_at (state_of self.now) name.now }
    {
        active_at(&self.members, name).map(|member| member.number())
    }

    fn is_taken_over(&self, name: &SubscriptionName, before: Option<u64>) -> bool
        ensures { result ≡ is_taken_over name.now before (state_of self.now) }
    {
        has_kind(&self.subscriptions, name, Kind::Failover) && before != self.active_at(name)
    }

    /// Releases everything that is pending where another member is active than before.
    #[tactic(auto, using(crate::proofs::Placed::at_its_place))]
    pub(crate) fn take_over(&mut self, name: &SubscriptionName, before: Option<u64>)
        ensures { state_of self.new ≡ taken_over name.now before (state_of self.old) }
    {
        if self.is_taken_over(name, before) {
            if let Some(place) = place_of_subscription(&self.subscriptions, name) {
                self.subscriptions[place].release_all();
            }
            empty_at(&mut self.members, name);
        }
    }
}
