// A consumer gives a message back.
ghost use Rattle.std.specs.Prelude.{◌≡◌, Some, true, IfSome, is_some};
ghost use Rattle.std.specs.List.{position as place_in};
ghost use Rattle.std.specs.FinMap as map_of;
ghost use Rattle.delivery_machine.specs.Words.{is_held_at, is_held_by};
ghost use Rattle.delivery_machine.specs.Run.{Answers};
ghost use Rattle.delivery_machine.specs.declared.event.Event.TheVariants.{Nack};
ghost use Rattle.topic_subscriptions.specs.Placed.{is_placed};
ghost use Rattle.topic_parts.specs.Holding.{IsAt};
ghost use Rattle.topic_served.specs.Served.{IsBound, IsSettled, state_in};

use delivery_machine::Reply;
use position_core::{ConsumerNumber, Fault, Moment, Position, SubscriptionName};
use topic_served::Served;

/// Where the subscription of the name stands, where the message is pending there at the consumer.
fn place_held(
    served: &Served,
    name: &SubscriptionName,
    consumer: ConsumerNumber,
    position: Position,
) -> Option<usize>
    ensures some { IfSome result (λ place. (Some place ≡ place_in (is_placed name.now) served.now.parts.subscriptions.items)
        × IsAt served.now.parts place (λ p. is_held_by consumer (map_of.get p.pending.pending position) ≡ true)) }
    ensures held { is_some result ≡ is_held_at (state_in served.now) name.now consumer position }
{
    let Some(place) = served.parts.place_of(name) else {
        return None;
    };
    let Some(holder) = served.parts.subscriptions[place].holder(position) else {
        return None;
    };
    if holder == consumer {
        Some(place)
    } else {
        None
    }
}

/// The message falls due after the consumer's delay, and not when it was to before. Takes no memory.
pub fn nack(served: &mut Served, consumer: ConsumerNumber, position: Position, now: Moment) -> Reply
    requires { IsSettled served.old }
    ensures answers { Answers (state_in served.old) (Nack consumer position now) result (state_in served.new) }
    ensures bound { IsBound served.new }
{
    let Some(member) = served.parts.members.get(consumer) else {
        return Reply::Refused(Fault::NoSession);
    };
    let due = now.millis() + u64::from(member.nack_delay().get());
    let Some(place) = place_held(served, member.subscription(), consumer, position) else {
        return Reply::Refused(Fault::NotPending);
    };
    served.parts.set_due(place, position, due);
    Reply::Done
}
