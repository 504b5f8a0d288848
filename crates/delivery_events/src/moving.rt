// A dead letter is shown, and moved.
ghost use Rattle.std.specs.Prelude.{◌≡◌, IfSome, IfNone, None, Some, false};
ghost use Rattle.std.specs.List.{find};
ghost use Rattle.std.specs.Option.{option_copied};
ghost use Rattle.delivery_machine.specs.Words.{has_position};
ghost use Rattle.delivery_machine.specs.Run.{Answers};
ghost use Rattle.delivery_machine.specs.Dying.{next_letter};
ghost use Rattle.delivery_machine.specs.declared.event.Event.TheVariants.{DeadDone, DeadNext};
ghost use Rattle.dead_core.specs.Letters.{is_next};
ghost use Rattle.topic_subscriptions.specs.Placed.{sub_in};
ghost use Rattle.topic_parts.specs.Parts.{log_of};
ghost use Rattle.topic_served.specs.Served.{IsBound, IsSettled, state_in};
ghost use Rattle.delivery_events.specs.Moving.{IsNextAt};

use delivery_machine::{DeadLetter, Reply};
use position_core::{Fault, Message, Ordinal, Position, SubscriptionName};
use topic_log::TopicLog;
use topic_served::Served;
use topic_subscriptions::Subscription;

/// The message at the letter's position.
fn message_of<'a>(log: &'a TopicLog, letter: &DeadLetter) -> Option<&'a Message>
    ensures { option_copied result ≡ find (has_position letter.now.position) log.entry.now.log.log }
{
    match log.index_of(letter.position) {
        Some(index) => log.get(index),
        None => None,
    }
}

/// The first letter that is safe, with its message.
fn next_letter<'a>(
    served: &'a Served,
    subscription: &'a Subscription,
) -> Option<(&'a DeadLetter, &'a Message)>
    ensures pair { IfSome result (λ p. next_letter (state_in served.entry.now) (sub_in (log_of served.entry.now.parts) subscription.entry.now) ≡ Some (p.0.now, p.1.now)) }
    ensures none { IfNone result (next_letter (state_in served.entry.now) (sub_in (log_of served.entry.now.parts) subscription.entry.now) ≡ None) }
{
    let letter = subscription.first_safe()?;
    let message = message_of(&served.parts.log, letter)?;
    Some((letter, message))
}

/// The first dead letter of the subscription that may be moved.
pub fn dead_next(served: &Served, name: &SubscriptionName) -> Reply
    ensures { Answers (state_in served.now) (DeadNext name.now) result (state_in served.now) }
{
    let Some(place) = served.parts.place_of(name) else {
        return Reply::Refused(Fault::NoSuchSubscription);
    };
    let subscription = &served.parts.subscriptions[place];
    let Some((letter, message)) = next_letter(served, subscription) else {
        return Reply::NoDead;
    };
    let ordinal = letter.ordinal;
    let Ok(message) = message.clone() else {
        return Reply::Refused(Fault::NoMemory);
    };
    let Ok(target) = letter.target.clone() else {
        return Reply::Refused(Fault::NoMemory);
    };
    Reply::Dead {
        message,
        target,
        ordinal,
    }
}

/// The position of the first letter, where that may be moved and is of the ordinal.
fn first_position(subscription: &Subscription, ordinal: Ordinal) -> Option<Position>
    ensures some { IfSome result (λ q. IsNextAt subscription.now ordinal q) }
    ensures none { IfNone result (is_next ordinal subscription.now.letters ≡ false) }
{
    let Some(letter) = subscription.first_safe() else {
        return None;
    };
    if letter.ordinal == ordinal {
        Some(letter.position)
    } else {
        None
    }
}

/// The letter's message was moved: the letter is taken out, and its message acknowledged.
pub fn dead_done(served: &mut Served, name: &SubscriptionName, ordinal: Ordinal) -> Reply
    requires { IsSettled served.old }
    ensures answers { Answers (state_in served.old) (DeadDone name.now ordinal) result (state_in served.new) }
    ensures bound { IsBound served.new }
{
    let _length = served.parts.log.len();
    let Some(place) = served.parts.place_of(name) else {
        return Reply::Refused(Fault::NoSuchSubscription);
    };
    let Some(position) = first_position(&served.parts.subscriptions[place], ordinal) else {
        return Reply::Refused(Fault::NoSuchMessage);
    };
    let Some(index) = served.parts.log.index_of(position) else {
        unreachable!();
    };
    let index = index as u64;
    match served.parts.move_first(place, index, position) {
        Ok(()) => {
            let view = served.parts.at(place);
            served.dispatchers[place].on_gone(&view, index);
            Reply::Done
        }
        Err(_) => Reply::Refused(Fault::NoMemory),
    }
}
