// Acknowledging one message, or all up to it.
ghost use Rattle.std.specs.Prelude.{◌≡◌};
ghost use Rattle.std.specs.List.{list_any};
ghost use Rattle.delivery_machine.specs.Words.{has_position};

use crate::lists::Lists;
use delivery_machine::Reply;
use plain_lists::{leave_out_at, member_at, place_of_subscription, positions_up_to};
use plain_queries::is_in_order_at;
use position_core::{ConsumerNumber, Fault, Message, Position, SubscriptionName};
use std::alloc::AllocError;

fn has_position(messages: &[Message], position: Position) -> bool
    ensures { result ≡ list_any (has_position position) messages.now }
{
    messages
        .iter()
        .any(|message| message.position().is(position))
}

impl Lists {
    ghost use Rattle.std.specs.Prelude.{◌≡◌, [], ◌∷◌, OnOk, OnErr};
    ghost use Rattle.std.specs.List.{list_any};
    ghost use Rattle.delivery_machine.specs.Words.{has_position, visible};
    ghost use Rattle.delivery_machine.specs.Run.{Answers};
    ghost use Rattle.delivery_machine.specs.Acknowledging.{with_acknowledged};
    ghost use Rattle.delivery_machine.specs.declared.event.Event.TheVariants.{Ack, AckUpTo};
    ghost use Rattle.plain_topic.specs.StateOf.{state_of};

    pub(crate) fn has_visible(&self, position: Position) -> bool
        ensures { result ≡ list_any (has_position position) (visible (state_of self.now)) }
    {
        has_position(self.visible(), position)
    }

    /// Takes the messages out of the subscription. Nothing changes where there is no memory.
    #[tactic(auto, using(crate::proofs::Placed::at_its_place))]
    pub(crate) fn acknowledge(
        &mut self,
        name: &SubscriptionName,
        positions: &[Position],
    ) -> Result<(), AllocError>
        ensures ok { OnOk result (state_of self.new ≡ with_acknowledged (state_of self.old) name.now positions.now) }
        ensures err { OnErr result (state_of self.new ≡ state_of self.old) }
    {
        if let Some(place) = place_of_subscription(&self.subscriptions, name) {
            self.subscriptions[place].acknowledge(positions)?;
        }
        leave_out_at(&mut self.members, name, positions);
        Ok(())
    }

    pub(crate) fn ack(&mut self, consumer: ConsumerNumber, position: Position) -> Reply
        ensures { Answers (state_of self.old) (Ack consumer position) result (state_of self.new) }
    {
        let Some(member) = member_at(&self.members, consumer) else {
            return Reply::Refused(Fault::NoSession);
        };
        if !self.has_visible(position) {
            return Reply::Refused(Fault::NoSuchMessage);
        }
        let Ok(name) = member.subscription().clone() else {
            return Reply::Refused(Fault::NoMemory);
        };
        if self.acknowledge(&name, &[position]).is_err() {
            return Reply::Refused(Fault::NoMemory);
        }
        Reply::Done
    }

    pub(crate) fn ack_up_to(&mut self, consumer: ConsumerNumber, position: Position) -> Reply
        ensures { Answers (state_of self.old) (AckUpTo consumer position) result (state_of self.new) }
    {
        let is_seen = self.has_visible(position);
        let Some(member) = member_at(&self.members, consumer) else {
            return Reply::Refused(Fault::NoSession);
        };
        if !is_in_order_at(&self.subscriptions, member.subscription()) {
            return Reply::Refused(Fault::NotCumulative);
        }
        if !is_seen {
            return Reply::Refused(Fault::NoSuchMessage);
        }
        let Ok(name) = member.subscription().clone() else {
            return Reply::Refused(Fault::NoMemory);
        };
        let Ok(positions) = positions_up_to(self.alloc, &self.log, position) else {
            return Reply::Refused(Fault::NoMemory);
        };
        if self.acknowledge(&name, &positions).is_err() {
            return Reply::Refused(Fault::NoMemory);
        }
        Reply::Done
    }
}
