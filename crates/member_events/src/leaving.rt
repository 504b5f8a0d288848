// Leaving a subscription.
ghost use Rattle.std.specs.Prelude.{◌≡◌, List, ℕ, Some, None, IfSome, IfNone};
ghost use Rattle.std.specs.List.{find, position as place_in};
ghost use Rattle.delivery_machine.specs.Words.{is_member};
ghost use Rattle.delivery_machine.specs.Joining.{without_member};
ghost use Rattle.delivery_machine.specs.Run.{Answers};
ghost use Rattle.delivery_machine.specs.declared.event.Event.TheVariants.{Leave};
ghost use Rattle.topic_subscriptions.specs.Placed.{is_placed};
ghost use Rattle.topic_served.specs.Served.{IsBound, IsSettled, state_in};
ghost use Rattle.member_events.specs.Places.{AreOrdered, IsIdleAt, IsMemberAt, names_of};

use crate::releasing::release_held_by;
use crate::taking_over::{active_at, take_over};
use delivery_machine::Reply;
use position_core::{ConsumerNumber, Fault};
use topic_served::Served;

/// The consumer, at which nothing is pending, goes from the subscription at the place.
fn let_go(served: &mut Served, place: usize, consumer: ConsumerNumber)
    requires bound { IsBound served.old }
    requires ordered { AreOrdered served.old.parts }
    requires member { IsMemberAt served.old.parts place consumer }
    requires idle { IsIdleAt served.old.parts place consumer }
    ensures left { (name : List ℕ) → Some place ≡ place_in (is_placed name) served.old.parts.subscriptions.items → state_in served.new ≡ without_member (state_in served.old) consumer name }
    ensures bound { IsBound served.new }
    ensures names { names_of served.new.parts.subscriptions.items ≡ names_of served.old.parts.subscriptions.items }
{
    let _length = served.parts.log.len();
    let _many = served.parts.members.len();
    drop(served.parts.members.remove(consumer));
    served.parts.subscriptions[place].leave(consumer);
    let view = served.parts.at(place);
    served.dispatchers[place].on_leave(&view, consumer);
}

/// Where the subscription of the consumer stands.
fn place_of(served: &Served, consumer: ConsumerNumber) -> Option<usize>
    requires { IsSettled served.now }
    ensures some { IfSome result (λ place. IsMemberAt served.now.parts place consumer) }
    ensures none { IfNone result (None ≡ find (is_member consumer) (state_in served.now).members) }
{
    let Some(member) = served.parts.members.get(consumer) else {
        return None;
    };
    match served.parts.place_of(member.subscription()) {
        Some(place) => Some(place),
        None => unreachable!(),
    }
}

/// The consumer leaves its subscription. What is pending at it waits again, and no count rises.
pub fn leave(served: &mut Served, consumer: ConsumerNumber) -> Reply
    requires { IsSettled served.old }
    ensures answers { Answers (state_in served.old) (Leave consumer) result (state_in served.new) }
    ensures bound { IsBound served.new }
{
    let Some(place) = place_of(served, consumer) else {
        return Reply::Refused(Fault::NoSession);
    };
    // Read before the member goes: afterwards nobody could tell whether it was the active one.
    let before = active_at(served, place);
    release_held_by(served, place, consumer);
    let_go(served, place, consumer);
    take_over(served, place, before);
    Reply::Done
}
