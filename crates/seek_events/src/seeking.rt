// A subscription goes on elsewhere.
ghost use Rattle.std.specs.Prelude.{◌≡◌, ◌≤◌, IfSome, length, not, is_some};
ghost use Rattle.delivery_machine.specs.Run.{Answers};
ghost use Rattle.delivery_machine.specs.Refusals.{is_hidden};
ghost use Rattle.delivery_machine.specs.Seeking.{length_before};
ghost use Rattle.delivery_machine.specs.declared.event.Event.TheVariants.{Seek};
ghost use Rattle.topic_served.specs.Served.{IsBound, IsSettled, state_in};

use delivery_machine::{Reply, Target};
use position_core::{Fault, LogIndex, SubscriptionName};
use topic_served::Served;

/// How many messages stand before the target. None where that is a message that is not visible.
fn length_before(served: &Served, target: Target) -> Option<LogIndex>
    ensures hidden { is_hidden (state_in served.now) target ≡ not (is_some result) }
    ensures value { IfSome result (λ end. end ≡ length_before (state_in served.now) target) }
    ensures within { IfSome result (λ end. end ≤ length (state_in served.now).log) }
{
    let length = served.parts.log.len();
    let _durable = served.parts.log.durable();
    match target {
        Target::Earliest => Some(0),
        Target::Latest => Some(length as u64),
        Target::At(position) => served.visible_at(position),
    }
}

/// Lets the subscription go on at the target.
pub fn seek(served: &mut Served, name: &SubscriptionName, target: Target) -> Reply
    requires { IsSettled served.old }
    ensures answers { Answers (state_in served.old) (Seek name.now target) result (state_in served.new) }
    ensures bound { IsBound served.new }
{
    let Some(place) = served.parts.place_of(name) else {
        return Reply::Refused(Fault::NoSuchSubscription);
    };
    let Some(end) = length_before(served, target) else {
        return Reply::Refused(Fault::NoSuchMessage);
    };
    match served.seek(name, place, end) {
        Ok(()) => Reply::Done,
        Err(_) => Reply::Refused(Fault::NoMemory),
    }
}
