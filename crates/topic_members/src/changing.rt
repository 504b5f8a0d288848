// One member changes: the one of a number, which is found by halving.
ghost use Rattle.std.specs.Prelude.{◌≡◌, List, IfNone, OnOk, OnErr};
ghost use Rattle.std.specs.List.{find};
ghost use Rattle.delivery_machine.specs.State.{State};
ghost use Rattle.delivery_machine.specs.Words.{changed, emptied, is_member, removed};
ghost use Rattle.delivery_machine.specs.Run.{Answers};
ghost use Rattle.delivery_machine.specs.declared.event.Event.TheVariants.{Collect, Permit};
ghost use Rattle.topic_members.specs.Members.{NumbersRise, leaving_out, pushed, shortened, spending};
ghost use Rattle.topic_members.specs.Joined.{numbers_of};

use crate::member::Member;
use crate::members::place_of_member;
use delivery_machine::{Delivery, Reply};
use position_core::{ConsumerNumber, Fault, Permits, Position};
use std::alloc::{AllocError, Global};

/// Gives the member a message. Nothing changes where there is no memory.
#[tactic(auto, using(crate::proofs::Placed::at_its_place))]
pub(crate) fn give(
    members: &mut Vec<Member>,
    number: ConsumerNumber,
    delivery: Delivery,
) -> Result<(), AllocError>
    requires { NumbersRise members.old.items }
    ensures ok { OnOk result (members.new.items ≡ changed (is_member number) (pushed delivery) members.old.items) }
    ensures err { OnErr result (members.new.items ≡ members.old.items) }
{
    let Some(place) = place_of_member(members, number) else {
        return Ok(());
    };
    members[place].give(delivery)
}

/// Takes back what the member was given last.
#[tactic(auto, using(crate::proofs::Placed::at_its_place))]
pub(crate) fn take_back(members: &mut Vec<Member>, number: ConsumerNumber)
    requires { NumbersRise members.old.items }
    ensures { members.new.items ≡ changed (is_member number) shortened members.old.items }
{
    if let Some(place) = place_of_member(members, number) {
        members[place].take_back();
    }
}

/// Takes the credit for one message, where the member pulls.
#[tactic(auto, using(crate::proofs::Placed::at_its_place))]
pub(crate) fn spend(members: &mut Vec<Member>, number: ConsumerNumber)
    requires { NumbersRise members.old.items }
    ensures { members.new.items ≡ changed (is_member number) spending members.old.items }
{
    if let Some(place) = place_of_member(members, number) {
        members[place].spend();
    }
}

/// Lets the member be sent so many further messages.
#[tactic(auto, using(crate::proofs::Placed::at_its_place))]
pub(crate) fn permit(members: &mut Vec<Member>, number: ConsumerNumber, permits: Permits) -> Reply
    requires { NumbersRise members.old.items }
    ensures answers { (s : State) → s.members ≡ members.old.items → Answers s (Permit number permits) result (record s { members = members.new.items }) }
    ensures numbers { numbers_of members.new.items ≡ numbers_of members.old.items }
{
    let Some(place) = place_of_member(members, number) else {
        return Reply::Refused(Fault::NoSession);
    };
    match members[place].permit(permits) {
        Ok(()) => Reply::Done,
        Err(fault) => Reply::Refused(fault),
    }
}

/// Hands over what the member was sent.
#[tactic(auto, using(crate::proofs::Placed::at_its_place))]
pub(crate) fn collect(alloc: Global, members: &mut Vec<Member>, number: ConsumerNumber) -> Reply
    requires { NumbersRise members.old.items }
    ensures answers { (s : State) → s.members ≡ members.old.items → Answers s (Collect number) result (record s { members = members.new.items }) }
    ensures numbers { numbers_of members.new.items ≡ numbers_of members.old.items }
{
    let Some(place) = place_of_member(members, number) else {
        return Reply::Refused(Fault::NoSession);
    };
    Reply::Copies(members[place].take_out(alloc))
}

/// Leaves out the member's copies of the messages.
#[tactic(auto, using(crate::proofs::Placed::at_its_place))]
pub(crate) fn leave_out(members: &mut Vec<Member>, number: ConsumerNumber, positions: &[Position])
    requires { NumbersRise members.old.items }
    ensures { members.new.items ≡ changed (is_member number) (leaving_out positions.now) members.old.items }
{
    if let Some(place) = place_of_member(members, number) {
        members[place].leave_out(positions);
    }
}

/// Leaves nothing for the member to collect.
#[tactic(auto, using(crate::proofs::Placed::at_its_place))]
pub(crate) fn empty(members: &mut Vec<Member>, number: ConsumerNumber)
    requires { NumbersRise members.old.items }
    ensures { members.new.items ≡ changed (is_member number) emptied members.old.items }
{
    if let Some(place) = place_of_member(members, number) {
        members[place].empty();
    }
}

/// Takes the member out.
#[tactic(auto, using(crate::proofs::Placed::at_its_place))]
pub(crate) fn remove(members: &mut Vec<Member>, number: ConsumerNumber) -> Option<Member>
    requires { NumbersRise members.old.items }
    ensures taken { result ≡ find (is_member number) members.old.items }
    ensures left { members.new.items ≡ removed (is_member number) members.old.items }
{
    match place_of_member(members, number) {
        Some(place) => Some(members.remove(place)),
        None => None,
    }
}
