// Which pending message is not to be redelivered again.
ghost use Rattle.std.specs.Prelude.{◌≡◌};
ghost use Rattle.std.specs.Option.{option_copied};
ghost use Rattle.delivery_machine.specs.Dying.{dying_in, is_to_die};

use plain_lists::{Member, Subscription, member_at};
use position_core::{Ordinal, Position};

/// Ordinals end below this.
const ORDINALS: u64 = 1 << 62;

fn is_to_die(
    ordinal: Ordinal,
    subscription: &Subscription,
    position: Position,
    member: &Member,
) -> bool
    ensures { result ≡ is_to_die ordinal subscription.now position member.now }
{
    let most = member.max_redeliver().get();
    0 < most && most <= subscription.count_of(position) && ordinal < ORDINALS
}

/// The member at which the message is pending, where it was redelivered as often as it may be and the
/// ordinal is one.
pub fn dying_at<'a>(
    members: &'a [Member],
    subscription: &Subscription,
    position: Position,
    ordinal: Ordinal,
) -> Option<&'a Member>
    ensures { option_copied result ≡ dying_in members.now ordinal subscription.now position }
{
    let member = member_at(members, subscription.holder(position)?)?;
    if is_to_die(ordinal, subscription, position, member) {
        Some(member)
    } else {
        None
    }
}
