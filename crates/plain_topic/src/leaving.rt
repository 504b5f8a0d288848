// Leaving a subscription.
use crate::lists::Lists;
use delivery_machine::Reply;
use plain_lists::{member_at, place_of_subscription, take_member};
use position_core::{ConsumerNumber, Fault};

impl Lists {
    ghost use Rattle.std.specs.Prelude.{◌≡◌};
    ghost use Rattle.std.specs.List.{find};
    ghost use Rattle.std.specs.Option.{option_and_then};
    ghost use Rattle.delivery_machine.specs.Words.{active_at, is_member};
    ghost use Rattle.delivery_machine.specs.Run.{Answers};
    ghost use Rattle.delivery_machine.specs.declared.event.Event.TheVariants.{Leave};
    ghost use Rattle.plain_topic.specs.StateOf.{state_of};

    /// The number of the member that is active at the consumer's subscription.
    fn active_beside(&self, consumer: ConsumerNumber) -> Option<u64>
        ensures { result ≡ option_and_then (λ m. active_at (state_of self.now) m.subscription) (find (is_member consumer) (state_of self.now).members) }
    {
        match member_at(&self.members, consumer) {
            Some(member) => self.active_at(member.subscription()),
            None => None,
        }
    }

    #[tactic(auto, using(crate::proofs::Placed::at_its_place))]
    pub(crate) fn leave(&mut self, consumer: ConsumerNumber) -> Reply
        ensures { Answers (state_of self.old) (Leave consumer) result (state_of self.new) }
    {
        // Read before the member goes: afterwards nobody could tell whether it was the active one.
        let active = self.active_beside(consumer);
        let Some(member) = take_member(&mut self.members, consumer) else {
            return Reply::Refused(Fault::NoSession);
        };
        if let Some(place) = place_of_subscription(&self.subscriptions, member.subscription()) {
            self.subscriptions[place].leave(consumer);
        }
        self.take_over(member.subscription(), active);
        Reply::Done
    }
}
