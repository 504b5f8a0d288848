// The consumers of the subscriptions: the one of a number, and what is done with those of a subscription.
ghost use Rattle.std.specs.Prelude.{◌≡◌, IfNone, map};
ghost use Rattle.std.specs.List.{find, position};
ghost use Rattle.std.specs.Option.{option_copied};
ghost use Rattle.delivery_machine.specs.Words.{emptied_at, is_member, removed};
ghost use Rattle.delivery_machine.specs.Acknowledging.{forgetting};

use crate::member::Member;
use position_core::{ConsumerNumber, Position, SubscriptionName};

pub fn member_at(members: &[Member], number: ConsumerNumber) -> Option<&Member>
    ensures { option_copied result ≡ find (is_member number) members.now }
{
    members.iter().find(|m| m.is_number(number))
}

pub fn place_of_member(members: &[Member], number: ConsumerNumber) -> Option<usize>
    ensures { result ≡ position (is_member number) members.now }
{
    members.iter().position(|m| m.is_number(number))
}

/// Leaves the copies of the messages out of what the members of the subscription were sent.
pub fn leave_out_at(members: &mut [Member], name: &SubscriptionName, positions: &[Position])
    ensures { members.new ≡ map (forgetting name.now positions.now) members.old }
{
    for member in members.iter_mut() {
        member.forget(name, positions);
    }
}

/// Leaves the members of the subscription nothing to collect.
pub fn empty_at(members: &mut [Member], name: &SubscriptionName)
    ensures { members.new ≡ map (emptied_at name.now) members.old }
{
    for member in members.iter_mut() {
        member.forget_all(name);
    }
}

/// Takes the consumer out of the members.
pub fn take_member(members: &mut Vec<Member>, number: ConsumerNumber) -> Option<Member>
    ensures taken { result ≡ find (is_member number) members.old.items }
    ensures left { members.new.items ≡ removed (is_member number) members.old.items }
    ensures none { IfNone result (members.new.items ≡ members.old.items) }
{
    match place_of_member(members, number) {
        Some(place) => Some(members.remove(place)),
        None => None,
    }
}
