// Dispatching a message to a consumer, and collecting.
use crate::lists::Lists;
use delivery_machine::{Deliveries, Delivery, Kind, Reply};
use plain_lists::{Member, Subscription, member_at, place_of_member, place_of_subscription};
use plain_queries::{active_at, first_waiting, has_room, next_in_turn, next_of_any_hash};
use position_core::{ConsumerNumber, Fault, Held, Message, Moment, Position, SubscriptionName};
use std::alloc::AllocError;

impl Lists {
    ghost use Rattle.std.specs.Prelude.{◌≡◌, IfSome, IfNone, IfOk, IfErr};
    ghost use Rattle.position_core.specs.declared.fault.Fault.TheVariants.{NoMemory};
    ghost use Rattle.delivery_machine.specs.Run.{Answers};
    ghost use Rattle.std.specs.Option.{option_copied};
    ghost use Rattle.delivery_machine.specs.Words.{IsEligible, NoneEligible, first_waiting, has_room};
    ghost use Rattle.delivery_machine.specs.Delivering.{out_of};
    ghost use Rattle.delivery_machine.specs.declared.event.Event.TheVariants.{Collect, Dispatch};
    ghost use Rattle.plain_topic.specs.StateOf.{state_of};

    fn has_room(&self, subscription: &Subscription, member: &Member) -> bool
        ensures { result ≡ has_room (state_of self.now) subscription.now member.now }
    {
        has_room(&self.log, subscription, member)
    }

    /// The first message that waits.
    fn next_waiting<'a>(&'a self, subscription: &Subscription) -> Option<&'a Message>
        ensures { option_copied result ≡ first_waiting (state_of self.entry.now) subscription.now }
    {
        first_waiting(self.visible(), subscription)
    }

    /// A message and a member that it may be sent to.
    fn choose<'a>(&'a self, subscription: &Subscription) -> Option<(&'a Message, &'a Member)>
        ensures pair { IfSome result (λ p. IsEligible (state_of self.entry.now) subscription.now p.0.now p.1.now) }
        ensures none { IfNone result (NoneEligible (state_of self.entry.now) subscription.now) }
    {
        match subscription.kind() {
            Kind::KeyShared => {
                next_of_any_hash(&self.log, self.visible(), &self.members, subscription)
            }
            Kind::Shared => {
                let message = self.next_waiting(subscription)?;
                let member = next_in_turn(&self.members, &self.log, subscription)?;
                Some((message, member))
            }
            Kind::Exclusive | Kind::Failover => {
                let message = self.next_waiting(subscription)?;
                let member = active_at(&self.members, subscription.name())?;
                if self.has_room(subscription, member) {
                    Some((message, member))
                } else {
                    None
                }
            }
        }
    }

    #[tactic(auto, using(crate::proofs::Placed::at_its_place))]
    pub(crate) fn dispatch(&mut self, name: &SubscriptionName, now: Moment) -> Reply
        ensures { Answers (state_of self.old) (Dispatch name.now now) result (state_of self.new) }
    {
        let Some(place) = place_of_subscription(&self.subscriptions, name) else {
            return Reply::Refused(Fault::NoSuchSubscription);
        };
        let subscription = &self.subscriptions[place];
        let Some((message, member)) = self.choose(subscription) else {
            return Reply::Idle;
        };
        let position = message.position();
        let consumer = member.number();
        let count = subscription.count_of(position);
        let held = Held {
            consumer,
            due: member.due_after(now),
        };
        let Ok(message) = message.clone() else {
            return Reply::Refused(Fault::NoMemory);
        };
        let Some(seat) = place_of_member(&self.members, consumer) else {
            unreachable!();
        };
        let delivery = Delivery { message, count };
        if self.members[seat].give(delivery).is_err() {
            return Reply::Refused(Fault::NoMemory);
        }
        // The copy first, since taking it back needs no memory; the credit last, since it is not given back.
        if self.subscriptions[place].hold(position, held).is_err() {
            self.members[seat].take_back();
            return Reply::Refused(Fault::NoMemory);
        }
        self.members[seat].spend();
        Reply::Sent {
            consumer,
            position,
            count,
        }
    }

    #[tactic(auto, using(crate::proofs::Placed::at_its_place))]
    pub(crate) fn collect(&mut self, consumer: ConsumerNumber) -> Reply
        ensures { Answers (state_of self.old) (Collect consumer) result (state_of self.new) }
    {
        let Some(seat) = place_of_member(&self.members, consumer) else {
            return Reply::Refused(Fault::NoSession);
        };
        Reply::Copies(self.members[seat].take_out(self.alloc))
    }

    pub(crate) fn out_of(&self, consumer: ConsumerNumber) -> Result<Deliveries, Fault>
        ensures ok { IfOk result (λ copies. copies ≡ out_of (state_of self.now) consumer) }
        ensures err { IfErr result (λ fault. fault ≡ NoMemory) }
    {
        let Some(member) = member_at(&self.members, consumer) else {
            return Ok(Deliveries::new(self.alloc));
        };
        match member.out_copy() {
            Ok(copies) => Ok(copies),
            Err(_) => Err(Fault::NoMemory),
        }
    }
}
