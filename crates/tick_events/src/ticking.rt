// A tick.
ghost use Rattle.std.specs.Prelude.{◌≡◌, Some, [], ◌∷◌, true, false, IfSome, IfNone};
ghost use Rattle.std.specs.List.{position as place_in};
ghost use Rattle.std.specs.FinMap as map_of;
ghost use Rattle.delivery_machine.specs.Run.{Answers};
ghost use Rattle.delivery_machine.specs.Ticking.{redelivered};
ghost use Rattle.delivery_machine.specs.WellFormed.{IsWellFormed};
ghost use Rattle.delivery_machine.specs.declared.event.Event.TheVariants.{Tick};
ghost use Rattle.topic_subscriptions.specs.Placed.{is_placed};
ghost use Rattle.topic_parts.specs.Holding.{IsAt};
ghost use Rattle.topic_served.specs.Served.{IsBound, IsSettled, state_in};
ghost use Rattle.tick_events.specs.Due.{IsDueNow, NoneDue};

use crate::dying::{bury, letter_at};
use crate::rewinding::rewind;
use delivery_machine::Reply;
use position_core::{Fault, Moment, Position, SubscriptionName};
use topic_served::Served;
use topic_subscriptions::Subscription;

/// The pending message that is due first, if it is due now.
fn first_due(subscription: &Subscription, now: Moment) -> Option<Position>
    ensures some { IfSome result (IsDueNow subscription.now now) }
    ensures none { IfNone result (NoneDue subscription.now now) }
{
    let Some(due) = subscription.due_first() else {
        return None;
    };
    if due.moment <= now.millis() {
        Some(due.position)
    } else {
        None
    }
}

/// The message, which is pending in the subscription at the place, waits again, counted once more.
fn redeliver(served: &mut Served, name: &SubscriptionName, place: usize, position: Position)
    requires bound { IsBound served.old }
    requires well { IsWellFormed (state_in served.old) }
    requires place { Some place ≡ place_in (is_placed name.now) served.old.parts.subscriptions.items }
    requires pending { IsAt served.old.parts place (λ p. map_of.contains_key p.pending.pending position ≡ true) }
    ensures state { state_in served.new ≡ redelivered (state_in served.old) name.now (position ∷ []) }
    ensures bound { IsBound served.new }
{
    let _length = served.parts.log.len();
    let Some(index) = served.parts.log.index_of(position) else {
        unreachable!();
    };
    served.parts.redeliver(place, position);
    let view = served.parts.at(place);
    served.dispatchers[place].on_released(&view, index as u64);
}

/// Releases what is due in the subscription, or lets it die. Where the order is kept, all that is pending is
/// released as soon as one message is due; else one that is due. Takes memory only for a death.
pub fn tick(served: &mut Served, name: &SubscriptionName, now: Moment) -> Reply
    requires { IsSettled served.old }
    ensures answers { Answers (state_in served.old) (Tick name.now now) result (state_in served.new) }
    ensures bound { IsBound served.new }
{
    let Some(place) = served.parts.place_of(name) else {
        return Reply::Refused(Fault::NoSuchSubscription);
    };
    let Some(position) = first_due(&served.parts.subscriptions[place], now) else {
        return Reply::Quiet;
    };
    if served.parts.subscriptions[place].kind().is_in_order() {
        let count = rewind(served, name, place);
        return Reply::Rewound { count };
    }
    match letter_at(&served.parts, place, position) {
        Ok(None) => {
            redeliver(served, name, place, position);
            Reply::Released { position }
        }
        Ok(Some(letter)) => {
            let ordinal = letter.ordinal;
            match bury(served, name, place, letter) {
                Ok(()) => Reply::Died { position, ordinal },
                Err(_) => Reply::Refused(Fault::NoMemory),
            }
        }
        Err(_) => Reply::Refused(Fault::NoMemory),
    }
}
