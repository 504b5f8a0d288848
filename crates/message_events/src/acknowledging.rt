// Acknowledging one message, or all up to it.
ghost use Rattle.std.specs.Prelude.{◌≡◌, ◌<◌, ◌≤◌, Some, length};
ghost use Rattle.std.specs.List.{position as place_in};
ghost use Rattle.delivery_machine.specs.Run.{Answers};
ghost use Rattle.delivery_machine.specs.Words.{is_in_order_at};
ghost use Rattle.delivery_machine.specs.Acknowledging.{with_acknowledged};
ghost use Rattle.delivery_machine.specs.declared.event.Event.TheVariants.{Ack, AckUpTo};
ghost use Rattle.topic_subscriptions.specs.Placed.{is_placed};
ghost use Rattle.topic_parts.specs.Parts.{log_of};
ghost use Rattle.topic_served.specs.Served.{IsBound, IsSettled, state_in};
ghost use Rattle.topic_served.specs.Firsts.{firsts};
ghost use Rattle.message_events.specs.Consumers.{AcknowledgesAt, IsConsumerOf, IsFirstMissing};

use delivery_machine::Reply;
use position_core::{ConsumerNumber, Fault, LogIndex, Position, SubscriptionName};
use topic_served::Served;

/// The consumer acknowledges the message.
pub fn ack(served: &mut Served, consumer: ConsumerNumber, position: Position) -> Reply
    requires { IsSettled served.old }
    ensures answers { Answers (state_in served.old) (Ack consumer position) result (state_in served.new) }
    ensures bound { IsBound served.new }
{
    let Some(member) = served.parts.members.get(consumer) else {
        return Reply::Refused(Fault::NoSession);
    };
    let Some(index) = served.visible_at(position) else {
        return Reply::Refused(Fault::NoSuchMessage);
    };
    let Ok(name) = member.subscription().clone() else {
        return Reply::Refused(Fault::NoMemory);
    };
    let Some(place) = served.parts.place_of(&name) else {
        unreachable!();
    };
    match served.acknowledge(&name, place, index, position) {
        Ok(()) => Reply::Done,
        Err(_) => Reply::Refused(Fault::NoMemory),
    }
}

/// The first message that is not acknowledged is. Takes no memory.
fn acknowledge_first(
    served: &mut Served,
    consumer: ConsumerNumber,
    name: &SubscriptionName,
    place: usize,
    index: LogIndex,
)
    requires settled { IsSettled served.old }
    requires consumer { IsConsumerOf (state_in served.old) consumer name.now }
    requires place { Some place ≡ place_in (is_placed name.now) served.old.parts.subscriptions.items }
    requires seen { index < (state_in served.old).durable }
    requires first { IsFirstMissing served.old place index }
    ensures settled { IsSettled served.new }
    ensures state { AcknowledgesAt (log_of served.old.parts) index name.now (state_in served.old) (state_in served.new) }
{
    let _length = served.parts.log.len();
    let _durable = served.parts.log.durable();
    let Some(message) = served.parts.log.get(index as usize) else {
        unreachable!();
    };
    let position = message.position();
    match served.acknowledge(name, place, index, position) {
        Ok(()) => (),
        Err(_) => unreachable!(),
    }
}

fn first_missing(served: &Served, place: usize) -> LogIndex
    requires { place < length served.now.parts.subscriptions.items }
    ensures { IsFirstMissing served.now place result }
{
    served.parts.subscriptions[place].mark_delete_end()
}

/// All messages before the end are acknowledged. Takes no memory.
fn acknowledge_below(
    served: &mut Served,
    consumer: ConsumerNumber,
    name: &SubscriptionName,
    place: usize,
    end: LogIndex,
)
    requires settled { IsSettled served.old }
    requires consumer { IsConsumerOf (state_in served.old) consumer name.now }
    requires place { Some place ≡ place_in (is_placed name.now) served.old.parts.subscriptions.items }
    requires seen { end ≤ (state_in served.old).durable }
    ensures settled { IsSettled served.new }
    ensures state { state_in served.new ≡ with_acknowledged (state_in served.old) name.now (firsts end (log_of served.old.parts)) }
{
    let _length = served.parts.log.len();
    let mut index = first_missing(served, place);
    while index < end {
        acknowledge_first(served, consumer, name, place, index);
        index = first_missing(served, place);
    }
}

/// Whether one consumer takes the messages of the subscription of the name in order.
fn is_in_order_at(served: &Served, name: &SubscriptionName) -> bool
    ensures { result ≡ is_in_order_at (state_in served.now) name.now }
{
    match served.parts.place_of(name) {
        Some(place) => served.parts.subscriptions[place].kind().is_in_order(),
        None => false,
    }
}

/// The consumer acknowledges the message, and all before it.
pub fn ack_up_to(served: &mut Served, consumer: ConsumerNumber, position: Position) -> Reply
    requires { IsSettled served.old }
    ensures answers { Answers (state_in served.old) (AckUpTo consumer position) result (state_in served.new) }
    ensures bound { IsBound served.new }
{
    let _length = served.parts.log.len();
    let Some(member) = served.parts.members.get(consumer) else {
        return Reply::Refused(Fault::NoSession);
    };
    if !is_in_order_at(served, member.subscription()) {
        return Reply::Refused(Fault::NotCumulative);
    }
    let Some(index) = served.visible_at(position) else {
        return Reply::Refused(Fault::NoSuchMessage);
    };
    let Ok(name) = member.subscription().clone() else {
        return Reply::Refused(Fault::NoMemory);
    };
    let Some(place) = served.parts.place_of(&name) else {
        unreachable!();
    };
    acknowledge_below(served, consumer, &name, place, index + 1);
    Reply::Done
}
