// Who is at a subscription.
ghost use Rattle.std.specs.Prelude.{◌≡◌, length};
ghost use Rattle.std.specs.List.{filter};
ghost use Rattle.std.specs.Option.{option_copied};
ghost use Rattle.delivery_machine.specs.Words.{active_of, is_at};
ghost use Rattle.plain_queries.specs.Members.{sooner};

use plain_lists::Member;
use position_core::SubscriptionName;

/// How many members are at the subscription.
pub fn count_at(members: &[Member], name: &SubscriptionName) -> usize
    ensures { result ≡ length (filter (is_at name.now) members.now) }
{
    members.iter().filter(|m| m.is_at(name)).count()
}

fn earlier<'a>(best: Option<&'a Member>, member: &'a Member) -> &'a Member
    ensures { result.now ≡ sooner (option_copied best.entry) member.now }
{
    match best {
        Some(best) => if member.comes_before(best) {
            member
        } else {
            best
        },
        None => member,
    }
}

/// The member of the subscription that is served.
pub fn active_at<'a>(members: &'a [Member], name: &SubscriptionName) -> Option<&'a Member>
    ensures { option_copied result ≡ active_of (filter (is_at name.now) members.now) }
{
    let mut best = None;
    for member in members {
        if member.is_at(name) {
            best = Some(earlier(best, member));
        }
    }
    best
}
