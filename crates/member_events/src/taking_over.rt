// Which member of a Failover is active, and what happens when another one is.
ghost use Rattle.std.specs.Prelude.{◌≡◌, ◌<◌, List, ℕ, Some, length};
ghost use Rattle.std.specs.List.{position as place_in};
ghost use Rattle.delivery_machine.specs.Joining.{all_released, is_taken_over, taken_over};
ghost use Rattle.topic_subscriptions.specs.Placed.{is_placed};
ghost use Rattle.topic_served.specs.Served.{IsBound, state_in};
ghost use Rattle.member_events.specs.Active.{active_in_order};
ghost use Rattle.member_events.specs.Places.{StandsAt, number_pending};

use crate::releasing::release_all;
use position_core::{ConsumerNumber, Kind};
use topic_served::Served;

/// The number of the active member of the subscription at the place, as its dispatcher keeps it: none for the kinds
/// that are not in order, since nobody takes over there.
pub(crate) fn active_at(served: &Served, place: usize) -> Option<ConsumerNumber>
    requires bound { IsBound served.now }
    requires stands { StandsAt served.now.parts place }
    ensures { (name : List ℕ) → Some place ≡ place_in (is_placed name) served.now.parts.subscriptions.items → result ≡ active_in_order (state_in served.now) name }
{
    served.dispatchers[place].active()
}

fn is_taken_over(served: &Served, place: usize, before: Option<ConsumerNumber>) -> bool
    requires bound { IsBound served.now }
    requires stands { StandsAt served.now.parts place }
    ensures { (name : List ℕ) → Some place ≡ place_in (is_placed name) served.now.parts.subscriptions.items → result ≡ is_taken_over name before (state_in served.now) }
{
    served.parts.subscriptions[place].kind().is(Kind::Failover)
        && before != active_at(served, place)
}

/// Leaves nothing for the members of the subscription to collect, in which nothing is pending.
fn empty_all(served: &mut Served, place: usize)
    requires bound { IsBound served.old }
    requires stands { StandsAt served.old.parts place }
    requires none { number_pending served.old.parts place ≡ 0 }
    ensures emptied { (name : List ℕ) → Some place ≡ place_in (is_placed name) served.old.parts.subscriptions.items → state_in served.new ≡ all_released name (state_in served.old) }
    ensures bound { IsBound served.new }
{
    served
        .parts
        .members
        .empty_those(served.parts.subscriptions[place].line());
}

/// Releases everything that is pending where another member is active than before.
pub(crate) fn take_over(served: &mut Served, place: usize, before: Option<ConsumerNumber>)
    requires bound { IsBound served.old }
    requires stands { StandsAt served.old.parts place }
    ensures over { (name : List ℕ) → Some place ≡ place_in (is_placed name) served.old.parts.subscriptions.items → state_in served.new ≡ taken_over name before (state_in served.old) }
    ensures bound { IsBound served.new }
{
    if is_taken_over(served, place, before) {
        release_all(served, place);
        empty_all(served, place);
    }
}
