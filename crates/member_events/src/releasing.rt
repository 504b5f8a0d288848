// What is pending waits again, one message after another, and the dispatcher is told of each.
ghost use Rattle.std.specs.Prelude.{◌≡◌, ◌<◌, ℕ, List, Some};
ghost use Rattle.std.specs.List.{position as place_in};
ghost use Rattle.delivery_machine.specs.State.{State};
ghost use Rattle.delivery_machine.specs.Joining.{all_released, without_member};
ghost use Rattle.topic_served.specs.Stepping.{freed};
ghost use Rattle.topic_subscriptions.specs.Placed.{is_placed};
ghost use Rattle.topic_served.specs.Served.{IsBound, state_in};
ghost use Rattle.member_events.specs.Places.{ComesToTheSame, IsIdleAt, IsPendingIn, KeepNames, StandsAt, number_pending};

use position_core::{ConsumerNumber, Position};
use topic_served::Served;

/// The message waits again.
fn release(served: &mut Served, place: usize, position: Position)
    requires bound { IsBound served.old }
    requires stands { StandsAt served.old.parts place }
    requires pending { IsPendingIn served.old.parts place position }
    ensures freed { (name : List ℕ) → Some place ≡ place_in (is_placed name) served.old.parts.subscriptions.items → state_in served.new ≡ freed (state_in served.old) name position }
    ensures kept { KeepNames served.old.parts served.new.parts }
    ensures fewer { number_pending served.new.parts place < number_pending served.old.parts place }
    ensures bound { IsBound served.new }
{
    let _length = served.parts.log.len();
    let Some(index) = served.parts.log.index_of(position) else {
        unreachable!();
    };
    served.parts.subscriptions[place].release(position);
    let view = served.parts.at(place);
    served.dispatchers[place].on_released(&view, index as u64);
}

/// All that is pending at the consumer waits again. Takes a step for each message.
pub(crate) fn release_held_by(served: &mut Served, place: usize, consumer: ConsumerNumber)
    requires bound { IsBound served.old }
    requires stands { StandsAt served.old.parts place }
    ensures same { ComesToTheSame (λ name s. without_member s consumer name) place served.old served.new }
    ensures idle { IsIdleAt served.new.parts place consumer }
{
    while let Some(position) = served.parts.subscriptions[place].first_pending_at(consumer) {
        release(served, place, position);
    }
}

/// All that is pending waits again. Takes a step for each message.
pub(crate) fn release_all(served: &mut Served, place: usize)
    requires bound { IsBound served.old }
    requires stands { StandsAt served.old.parts place }
    ensures same { ComesToTheSame all_released place served.old served.new }
    ensures none { number_pending served.new.parts place ≡ 0 }
{
    while let Some(position) = served.parts.subscriptions[place].first_pending() {
        release(served, place, position);
    }
}
