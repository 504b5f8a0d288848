// Which member of a Shared subscription is sent the next message.
ghost use Rattle.std.specs.Prelude.{◌≡◌, ◌&&◌};
ghost use Rattle.std.specs.Option.{option_copied};
ghost use Rattle.delivery_machine.specs.Words.{has_room_in, is_at, with_room_in};
ghost use Rattle.plain_queries.specs.Turn.{IsBestLevel, goes_first, in_turn};

use crate::log::has_room;
use dispatch_core::is_sooner;
use plain_lists::{Member, Subscription};
use position_core::Message;

/// By level, and then in turn.
fn goes_first(last: u64, member: &Member, other: &Member) -> bool
    ensures { result ≡ goes_first last member.now other.now }
{
    let level = member.level().get();
    let their_level = other.level().get();
    level < their_level
        || (level == their_level && is_sooner(last, member.number(), other.number()))
}

fn next<'a>(best: Option<&'a Member>, member: &'a Member, last: u64) -> &'a Member
    ensures { result.now ≡ in_turn last (option_copied best.entry) member.now }
{
    match best {
        Some(best) => if goes_first(last, member, best) {
            member
        } else {
            best
        },
        None => member,
    }
}

fn is_roomy(member: &Member, log: &[Message], subscription: &Subscription) -> bool
    ensures { result ≡ (is_at subscription.now.name member.now && has_room_in log.now subscription.now member.now) }
{
    member.is_at(subscription.name()) && has_room(log, subscription, member)
}

/// Of the members with room, one of the best level: the one with the least number above that last
/// served, else with the least number.
pub fn next_in_turn<'a>(
    members: &'a [Member],
    log: &[Message],
    subscription: &Subscription,
) -> Option<&'a Member>
    ensures { IsBestLevel (with_room_in log.now members.now subscription.now) (option_copied result) }
{
    let last = subscription.last_served();
    let mut best = None;
    for member in members {
        if is_roomy(member, log, subscription) {
            best = Some(next(best, member, last));
        }
    }
    best
}
