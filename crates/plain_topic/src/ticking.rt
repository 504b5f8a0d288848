// Negative acknowledgements, and ticks, which release what is due, or let it die.
use crate::dying::letter_of;
use crate::lists::Lists;
use delivery_machine::Reply;
use plain_lists::{leave_out_at, member_at, place_of_subscription, subscription_at};
use plain_queries::{dying_at, first_due, pending_positions};
use position_core::{ConsumerNumber, Fault, Moment, Position, SubscriptionName};
use std::alloc::AllocError;

impl Lists {
    ghost use Rattle.std.specs.Prelude.{◌≡◌, OnOk, OnErr};
    ghost use Rattle.delivery_machine.specs.Run.{Answers};
    ghost use Rattle.delivery_machine.specs.Ticking.{redelivered};
    ghost use Rattle.delivery_machine.specs.declared.event.Event.TheVariants.{Nack, Tick};
    ghost use Rattle.plain_topic.specs.StateOf.{state_of};

    #[tactic(auto, using(crate::proofs::Placed::at_its_place))]
    pub(crate) fn nack(
        &mut self,
        consumer: ConsumerNumber,
        position: Position,
        now: Moment,
    ) -> Reply
        ensures { Answers (state_of self.old) (Nack consumer position now) result (state_of self.new) }
    {
        let Some(member) = member_at(&self.members, consumer) else {
            return Reply::Refused(Fault::NoSession);
        };
        let due = now.millis() + u64::from(member.nack_delay().get());
        let Some(place) = place_of_subscription(&self.subscriptions, member.subscription()) else {
            return Reply::Refused(Fault::NotPending);
        };
        if self.subscriptions[place].set_due(consumer, position, due) {
            Reply::Done
        } else {
            Reply::Refused(Fault::NotPending)
        }
    }

    /// Counts the messages once more and lets them wait again. Nothing changes where there is no
    /// memory.
    #[tactic(auto, using(crate::proofs::Placed::at_its_place))]
    fn redeliver(
        &mut self,
        name: &SubscriptionName,
        positions: &[Position],
    ) -> Result<(), AllocError>
        ensures ok { OnOk result (state_of self.new ≡ redelivered (state_of self.old) name.now positions.now) }
        ensures err { OnErr result (state_of self.new ≡ state_of self.old) }
    {
        if let Some(place) = place_of_subscription(&self.subscriptions, name) {
            self.subscriptions[place].redeliver(self.alloc, positions)?;
        }
        leave_out_at(&mut self.members, name, positions);
        Ok(())
    }

    pub(crate) fn tick(&mut self, name: &SubscriptionName, now: Moment) -> Reply
        ensures { Answers (state_of self.old) (Tick name.now now) result (state_of self.new) }
    {
        let Some(subscription) = subscription_at(&self.subscriptions, name) else {
            return Reply::Refused(Fault::NoSuchSubscription);
        };
        let Some(position) = first_due(&self.log, subscription, now) else {
            return Reply::Quiet;
        };
        if subscription.kind().is_in_order() {
            let Ok(positions) = pending_positions(self.alloc, &self.log, subscription) else {
                return Reply::Refused(Fault::NoMemory);
            };
            let count = positions.len() as u64;
            return match self.redeliver(name, &positions) {
                Ok(()) => Reply::Rewound { count },
                Err(_) => Reply::Refused(Fault::NoMemory),
            };
        }
        let Some(member) = dying_at(&self.members, subscription, position, self.next_ordinal) else {
            return match self.redeliver(name, &[position]) {
                Ok(()) => Reply::Released { position },
                Err(_) => Reply::Refused(Fault::NoMemory),
            };
        };
        let ordinal = self.next_ordinal;
        let Ok(letter) = letter_of(position, member, ordinal) else {
            return Reply::Refused(Fault::NoMemory);
        };
        match self.bury(name, letter) {
            Ok(()) => Reply::Died { position, ordinal },
            Err(_) => Reply::Refused(Fault::NoMemory),
        }
    }
}
