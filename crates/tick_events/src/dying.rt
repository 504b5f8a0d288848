// A message that was redelivered too often dies.
ghost use Rattle.std.specs.Prelude.{◌≡◌, ◌<◌, List, Some, true, IfOk, OnOk, OnErr, length};
ghost use Rattle.std.specs.List.{position as place_in};
ghost use Rattle.std.specs.Option.{option_copied, option_map};
ghost use Rattle.std.specs.FinMap as map_of;
ghost use Rattle.position_core.specs.declared.message.Entry.{Entry};
ghost use Rattle.delivery_machine.specs.Dying.{dying_at, is_to_die, letter_of};
ghost use Rattle.delivery_machine.specs.WellFormed.{IsWellFormed};
ghost use Rattle.topic_subscriptions.specs.Placed.{is_placed, sub_in};
ghost use Rattle.topic_parts.specs.Holding.{IsAt, buried};
ghost use Rattle.topic_parts.specs.Parts.{log_of, state_of};
ghost use Rattle.topic_served.specs.Served.{IsBound, state_in};

use delivery_machine::DeadLetter;
use position_core::{Ordinal, Position, SubscriptionName};
use std::alloc::AllocError;
use topic_members::Member;
use topic_parts::Parts;
use topic_served::Served;
use topic_subscriptions::Subscription;

/// Ordinals end below this.
const ORDINALS: u64 = 1 << 62;

fn is_to_die(
    ordinal: Ordinal,
    subscription: &Subscription,
    position: Position,
    member: &Member,
) -> bool
    ensures { (log : List Entry) → result ≡ is_to_die ordinal (sub_in log subscription.now) position member.now }
{
    let most = member.max_redeliver().get();
    0 < most && most <= subscription.count_of(position) && ordinal < ORDINALS
}

/// The member at which the message is pending in the subscription at the place, where it is not to be
/// redelivered again.
fn dying_at(parts: &Parts, place: usize, position: Position) -> Option<&Member>
    requires { place < length parts.now.subscriptions.items }
    ensures { IsAt parts.now place (λ p. option_copied result ≡ dying_at (state_of parts.now) (sub_in (log_of parts.now) p) position) }
{
    let subscription = &parts.subscriptions[place];
    let member = parts.members.get(subscription.holder(position)?)?;
    if is_to_die(parts.next_ordinal, subscription, position, member) {
        Some(member)
    } else {
        None
    }
}

/// The letter of the message, where that is not to be redelivered again.
pub(crate) fn letter_at(
    parts: &Parts,
    place: usize,
    position: Position,
) -> Result<Option<DeadLetter>, AllocError>
    requires { place < length parts.now.subscriptions.items }
    ensures { IfOk result (λ letter. IsAt parts.now place (λ p. letter ≡ option_map (letter_of (state_of parts.now) position) (dying_at (state_of parts.now) (sub_in (log_of parts.now) p) position))) }
{
    let Some(member) = dying_at(parts, place, position) else {
        return Ok(None);
    };
    match member.dead_topic().clone() {
        Ok(target) => Ok(Some(DeadLetter {
            position,
            target,
            ordinal: parts.next_ordinal,
        })),
        Err(failed) => Err(failed),
    }
}

/// The letter's message, which is pending in the subscription at the place, dies. Nothing changes where there
/// is no memory.
pub(crate) fn bury(
    served: &mut Served,
    name: &SubscriptionName,
    place: usize,
    letter: DeadLetter,
) -> Result<(), AllocError>
    requires bound { IsBound served.old }
    requires well { IsWellFormed (state_in served.old) }
    requires place { Some place ≡ place_in (is_placed name.now) served.old.parts.subscriptions.items }
    requires pending { IsAt served.old.parts place (λ p. map_of.contains_key p.pending.pending letter.position ≡ true) }
    ensures ok { OnOk result (state_in served.new ≡ buried (state_in served.old) name.now letter) }
    ensures err { OnErr result (state_in served.new ≡ state_in served.old) }
    ensures bound { IsBound served.new }
{
    let _length = served.parts.log.len();
    let Some(index) = served.parts.log.index_of(letter.position) else {
        unreachable!();
    };
    let index = index as u64;
    match served.parts.bury(place, index, letter) {
        Ok(()) => {
            let view = served.parts.at(place);
            served.dispatchers[place].on_gone(&view, index);
            Ok(())
        }
        Err(failed) => Err(failed),
    }
}
