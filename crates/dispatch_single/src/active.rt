// The member that is served, as it stands in line.
ghost use Rattle.std.specs.Prelude.{◌≡◌, ◌≢◌, ◌==◌, ◌+◌, ◌<◌, ◌^◌, false, length, slice_get, IfSome};
ghost use Rattle.std.specs.Option.{option_map, option_map_or};
ghost use Rattle.dispatch_core.specs.Log.{line_of};
ghost use Rattle.dispatch_single.specs.InOrder.{comes_before, pair_of, without, NumbersDiffer, IsActiveIn, IsActive};

use dispatch_core::{Seen, View};
use position_core::{ConsumerNumber, Level};

/// A member and its place in line.
#[derive(Clone, Copy)]
pub(crate) struct Active {
    pub(crate) place: u64,
    pub(crate) consumer: ConsumerNumber,
    level: Level,
}

impl Active {
    fn of(place: u64, seen: &Seen) -> Self
        ensures place { result.place ≡ place }
        ensures pair { pair_of result ≡ (seen.now.consumer, seen.now.level) }
    {
        Active {
            place,
            consumer: seen.consumer,
            level: seen.level,
        }
    }
}

/// The member at the place.
fn member_at<V: View>(view: &V, place: u64) -> Option<Active>
    ensures pair { option_map pair_of result ≡ slice_get (line_of (V.state view.now) (V.subscription view.now)) place }
    ensures place { IfSome result (λ member. member.place ≡ place) }
    ensures few { length (line_of (V.state view.now) (V.subscription view.now)) < 2 ^ 64 }
{
    match view.member(place) {
        Some(seen) => Some(Active::of(place, &seen)),
        None => None,
    }
}

fn comes_before(first: &Active, second: &Active) -> bool
    ensures { result ≡ comes_before (pair_of first.now) (pair_of second.now) }
{
    let level = first.level.get();
    let other = second.level.get();
    level < other || (level == other && first.consumer < second.consumer)
}

/// The first of those so far, and the next in line.
fn better(best: Option<Active>, next: Active) -> Active
    ensures { (line : _) → slice_get line next.place ≡ Some (pair_of next) → IsActiveIn line next.place best → IsActiveIn line (next.place + 1) (Some result) }
{
    match best {
        Some(first) => {
            if comes_before(&next, &first) {
                next
            } else {
                first
            }
        }
        None => next,
    }
}

/// The member of the least level, and of the least number among those.
fn active_member<V: View>(view: &V) -> Option<Active>
    ensures { IsActive (line_of (V.state view.now) (V.subscription view.now)) result }
{
    let mut best = None;
    let mut place = 0;
    while let Some(next) = member_at(view, place) {
        best = Some(better(best, next));
        place += 1;
    }
    best
}

/// The active one of those before the place and of who stands there.
pub(crate) fn with_next<V: View>(view: &V, active: Option<Active>, place: u64) -> Option<Active>
    ensures { let line = line_of (V.state view.now) (V.subscription view.now) in place < length line → IsActiveIn line place active → IsActiveIn line (place + 1) result }
{
    match member_at(view, place) {
        Some(next) => Some(better(active, next)),
        None => active,
    }
}

/// Whether the member is seen at its place.
fn stands_there<V: View>(view: &V, member: &Active) -> bool
    ensures { result ≡ option_map_or (λ other. other.0 == member.now.consumer) (slice_get (line_of (V.state view.now) (V.subscription view.now)) member.now.place) false }
{
    match member_at(view, member.place) {
        Some(other) => other.consumer == member.consumer,
        None => false,
    }
}

/// The active member, which stands at its place or one before it since another left.
fn moved_up<V: View>(view: &V, active: Active) -> Active
    ensures { (line : _) (left : _) → line_of (V.state view.now) (V.subscription view.now) ≡ without left line → NumbersDiffer line → active.consumer ≢ left → IsActive line (Some active) → IsActive (without left line) (Some result) }
{
    if stands_there(view, &active) {
        active
    } else {
        Active {
            place: active.place.saturating_sub(1),
            ..active
        }
    }
}

/// The active member once the consumer left.
pub(crate) fn once_left<V: View>(
    view: &V,
    active: Option<Active>,
    left: ConsumerNumber,
) -> Option<Active>
    ensures { (line : _) → line_of (V.state view.now) (V.subscription view.now) ≡ without left line → NumbersDiffer line → IsActive line active → IsActive (without left line) result }
{
    match active {
        Some(member) => {
            if member.consumer == left {
                active_member(view)
            } else {
                Some(moved_up(view, member))
            }
        }
        None => None,
    }
}
