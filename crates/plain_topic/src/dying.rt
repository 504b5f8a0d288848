// The death of a message, and how its letter is moved to another topic.
ghost use Rattle.std.specs.Prelude.{◌≡◌, IfOk};

use crate::lists::Lists;
use delivery_machine::{DeadLetter, Reply};
use plain_lists::{Member, Subscription, leave_out_at, place_of_subscription, subscription_at};
use plain_queries::message_at;
use position_core::{Fault, Message, Ordinal, Position, SubscriptionName};
use std::alloc::AllocError;

/// The letter of a message that dies at the member.
pub(crate) fn letter_of(
    position: Position,
    member: &Member,
    ordinal: Ordinal,
) -> Result<DeadLetter, AllocError>
    ensures { IfOk result (λ d. d ≡ record { position = position; target = member.now.dead_topic; ordinal = ordinal }) }
{
    Ok(DeadLetter {
        position,
        target: member.dead_topic().clone()?,
        ordinal,
    })
}

impl Lists {
    ghost use Rattle.std.specs.Prelude.{◌≡◌, ◌<◌, ◌^◌, OnOk, OnErr, IfSome, IfNone, None, Some};
    ghost use Rattle.delivery_machine.specs.Run.{Answers};
    ghost use Rattle.delivery_machine.specs.Dying.{next_letter};
    ghost use Rattle.delivery_machine.specs.declared.event.Event.TheVariants.{DeadDone, DeadNext};
    ghost use Rattle.plain_topic.specs.StateOf.{state_of};
    ghost use Rattle.plain_topic.specs.Letters.{buried, first_moved};

    /// The letter's message dies under the topic's next ordinal. Nothing changes where there is no
    /// memory.
    #[tactic(auto, using(crate::proofs::Placed::at_its_place))]
    pub(crate) fn bury(
        &mut self,
        name: &SubscriptionName,
        letter: DeadLetter,
    ) -> Result<(), AllocError>
        requires { (state_of self.old).next_ordinal < 2 ^ 62 }
        ensures ok { OnOk result (state_of self.new ≡ buried (state_of self.old) name.now letter) }
        ensures err { OnErr result (state_of self.new ≡ state_of self.old) }
    {
        let position = letter.position;
        if let Some(place) = place_of_subscription(&self.subscriptions, name) {
            self.subscriptions[place].bury(letter)?;
        }
        leave_out_at(&mut self.members, name, &[position]);
        self.next_ordinal += 1;
        Ok(())
    }

    /// The first letter that is safe, with its message.
    fn next_letter<'a>(
        &'a self,
        subscription: &'a Subscription,
    ) -> Option<(&'a DeadLetter, &'a Message)>
        ensures pair { IfSome result (λ p. next_letter (state_of self.entry.now) subscription.entry.now ≡ Some (p.0.now, p.1.now)) }
        ensures none { IfNone result (next_letter (state_of self.entry.now) subscription.entry.now ≡ None) }
    {
        let letter = subscription.first_safe()?;
        let message = message_at(&self.log, letter.position)?;
        Some((letter, message))
    }

    pub(crate) fn dead_next(&self, name: &SubscriptionName) -> Reply
        ensures { Answers (state_of self.now) (DeadNext name.now) result (state_of self.now) }
    {
        let Some(subscription) = subscription_at(&self.subscriptions, name) else {
            return Reply::Refused(Fault::NoSuchSubscription);
        };
        let Some((letter, message)) = self.next_letter(subscription) else {
            return Reply::NoDead;
        };
        let ordinal = letter.ordinal;
        let Ok(message) = message.clone() else {
            return Reply::Refused(Fault::NoMemory);
        };
        let Ok(target) = letter.target.clone() else {
            return Reply::Refused(Fault::NoMemory);
        };
        Reply::Dead {
            message,
            target,
            ordinal,
        }
    }

    /// Takes out the first letter that is safe, and acknowledges its message. Nothing changes where
    /// there is no memory.
    #[tactic(auto, using(crate::proofs::Placed::at_its_place))]
    fn move_first(&mut self, name: &SubscriptionName, position: Position) -> Result<(), AllocError>
        ensures ok { OnOk result (state_of self.new ≡ first_moved (state_of self.old) name.now position) }
        ensures err { OnErr result (state_of self.new ≡ state_of self.old) }
    {
        if let Some(place) = place_of_subscription(&self.subscriptions, name) {
            self.subscriptions[place].move_first()?;
        }
        leave_out_at(&mut self.members, name, &[position]);
        Ok(())
    }

    pub(crate) fn dead_done(&mut self, name: &SubscriptionName, ordinal: Ordinal) -> Reply
        ensures { Answers (state_of self.old) (DeadDone name.now ordinal) result (state_of self.new) }
    {
        let Some(subscription) = subscription_at(&self.subscriptions, name) else {
            return Reply::Refused(Fault::NoSuchSubscription);
        };
        let Some(letter) = subscription.first_safe() else {
            return Reply::Refused(Fault::NoSuchMessage);
        };
        if letter.ordinal != ordinal {
            return Reply::Refused(Fault::NoSuchMessage);
        }
        let position = letter.position;
        match self.move_first(name, position) {
            Ok(()) => Reply::Done,
            Err(_) => Reply::Refused(Fault::NoMemory),
        }
    }
}
