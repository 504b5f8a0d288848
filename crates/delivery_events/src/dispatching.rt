// A message is offered to a member, and sent.
ghost use Rattle.std.specs.Prelude.{◌≡◌, ◌<◌, Some, IfSome, IfNone, IfOk, OnOk, OnErr, length, slice_get};
ghost use Rattle.std.specs.List.{find, position as place_in};
ghost use Rattle.delivery_machine.specs.State.{Member as Machines};
ghost use Rattle.delivery_machine.specs.Words.{is_member};
ghost use Rattle.delivery_machine.specs.Run.{Answers};
ghost use Rattle.delivery_machine.specs.Delivering.{due_after};
ghost use Rattle.delivery_machine.specs.declared.event.Event.TheVariants.{Dispatch};
ghost use Rattle.pending_core.specs.Pending.{count_at};
ghost use Rattle.topic_subscriptions.specs.Placed.{is_placed};
ghost use Rattle.topic_parts.specs.Holding.{IsAt};
ghost use Rattle.topic_parts.specs.Parts.{log_of};
ghost use Rattle.topic_served.specs.Served.{IsBound, IsSettled, state_in};
ghost use Rattle.delivery_events.specs.Handing.{IsOffer, NoOffer, paid};

use crate::sending::{hand, hand_back, spend};
use delivery_machine::{Delivery, Reply};
use dispatch_core::Offer;
use position_core::{ConsumerNumber, Fault, Held, LogIndex, Moment, SubscriptionName};
use std::alloc::AllocError;
use topic_parts::Parts;
use topic_served::Served;

/// The dispatcher at the place reads the messages that came since its last offer.
fn look(served: &mut Served, place: usize) -> Result<(), Fault>
    requires bound { IsBound served.old }
    requires within { place < length served.old.parts.subscriptions.items }
    ensures parts { served.new.parts ≡ served.old.parts }
    ensures bound { IsBound served.new }
{
    let view = served.parts.at(place);
    served.dispatchers[place].look(&view)
}

/// A message and a member of the subscription at the place that it may be sent to.
fn offer(served: &Served, place: usize) -> Option<Offer>
    requires bound { IsBound served.now }
    requires within { place < length served.now.parts.subscriptions.items }
    ensures some { IfSome result (IsOffer served.now place) }
    ensures none { IfNone result (NoOffer served.now place) }
{
    let view = served.parts.at(place);
    served.dispatchers[place].offer(&view)
}

/// The message at the index, shared, and how often it was redelivered.
fn delivery_of(parts: &Parts, place: usize, index: LogIndex) -> Result<Delivery, AllocError>
    requires index { index < length (log_of parts.now) }
    requires within { place < length parts.now.subscriptions.items }
    ensures message { IfOk result (λ d. slice_get (log_of parts.now) index ≡ Some d.message) }
    ensures count { IfOk result (λ d. IsAt parts.now place (λ p. d.count ≡ count_at p.pending d.message.position)) }
{
    let _length = parts.log.len();
    let Some(message) = parts.log.get(index as usize) else {
        unreachable!();
    };
    let count = parts.subscriptions[place].count_of(message.position());
    match message.clone() {
        Ok(message) => Ok(Delivery { message, count }),
        Err(failed) => Err(failed),
    }
}

/// Pending at the member, from now on.
fn held_by(parts: &Parts, consumer: ConsumerNumber, now: Moment) -> Held
    ensures consumer { result.consumer ≡ consumer }
    ensures due { (m : Machines) → find (is_member consumer) parts.now.members.members ≡ Some m → result.due ≡ due_after now m.ack_timeout }
{
    let due = match parts.members.get(consumer) {
        Some(member) => member.due_after(now),
        None => None,
    };
    Held { consumer, due }
}

/// Sends the message that was offered. The state is as it was where there is no memory.
fn send(
    served: &mut Served,
    name: &SubscriptionName,
    place: usize,
    index: LogIndex,
    delivery: Delivery,
    held: Held,
) -> Result<(), Fault>
    requires bound { IsBound served.old }
    requires place { Some place ≡ place_in (is_placed name.now) served.old.parts.subscriptions.items }
    requires offered { IsOffer served.old place (record { index = index; consumer = held.consumer }) }
    requires message { slice_get (log_of served.old.parts) index ≡ Some delivery.message }
    ensures ok { OnOk result (state_in served.new ≡ paid (state_in served.old) name.now delivery held) }
    ensures err { OnErr result (state_in served.new ≡ state_in served.old) }
    ensures bound { IsBound served.new }
{
    let _length = served.parts.log.len();
    let position = delivery.message.position();
    match hand(&mut served.parts, place, index, delivery, held) {
        Ok(()) => {
            let view = served.parts.at(place);
            match served.dispatchers[place].on_sent(&view, index, held.consumer) {
                // The credit last, since it is not given back.
                Ok(()) => {
                    spend(&mut served.parts, held.consumer);
                    Ok(())
                }
                Err(fault) => {
                    hand_back(&mut served.parts, place, position, held.consumer);
                    Err(fault)
                }
            }
        }
        Err(_) => Err(Fault::NoMemory),
    }
}

/// Sends the message that is offered, if one may be sent.
fn send_next(served: &mut Served, name: &SubscriptionName, place: usize, now: Moment) -> Reply
    requires settled { IsSettled served.old }
    requires place { Some place ≡ place_in (is_placed name.now) served.old.parts.subscriptions.items }
    ensures answers { Answers (state_in served.old) (Dispatch name.now now) result (state_in served.new) }
    ensures bound { IsBound served.new }
{
    let Some(offer) = offer(served, place) else {
        return Reply::Idle;
    };
    let Ok(delivery) = delivery_of(&served.parts, place, offer.index) else {
        return Reply::Refused(Fault::NoMemory);
    };
    let held = held_by(&served.parts, offer.consumer, now);
    let position = delivery.message.position();
    let count = delivery.count;
    match send(served, name, place, offer.index, delivery, held) {
        Ok(()) => Reply::Sent {
            consumer: offer.consumer,
            position,
            count,
        },
        Err(_) => Reply::Refused(Fault::NoMemory),
    }
}

/// Sends a message of the subscription to a member, where one may be sent.
pub fn dispatch(served: &mut Served, name: &SubscriptionName, now: Moment) -> Reply
    requires { IsSettled served.old }
    ensures answers { Answers (state_in served.old) (Dispatch name.now now) result (state_in served.new) }
    ensures bound { IsBound served.new }
{
    let Some(place) = served.parts.place_of(name) else {
        return Reply::Refused(Fault::NoSuchSubscription);
    };
    match look(served, place) {
        Ok(()) => send_next(served, name, place, now),
        Err(_) => Reply::Refused(Fault::NoMemory),
    }
}
