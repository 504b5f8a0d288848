// Which member is sent the next message.
ghost use Rattle.std.specs.Prelude.{◌≡◌, ◌+◌, true, false, Some, map, slice_get, IfSome, IfNone};
ghost use Rattle.dispatch_core.specs.Log.{line_of};
ghost use Rattle.dispatch_core.specs.Offers.{seen_at};
ghost use Rattle.dispatch_shared.specs.Turn.{roomy, roomy_among, goes_before, IsFirst};
ghost use Rattle.dispatch_shared.specs.Seats.{seat_pair};

use crate::seat::{Seat, goes_first};
use dispatch_core::{Seen, View};

/// The member at the place, if it has room.
fn with_room<V: View>(view: &V, place: usize) -> Option<Seen>
    ensures seen { IfSome result (λ seen. Some seen ≡ seen_at (V.state view.now) (V.subscription view.now) place) }
    ensures room { IfSome result (λ seen. seen.room ≡ true) }
    ensures none { IfNone result ((seen : _) → Some seen ≡ seen_at (V.state view.now) (V.subscription view.now) place → seen.room ≡ false) }
{
    match view.member(place as u64) {
        Some(seen) => { if seen.room { Some(seen) } else { None } }
        None => None,
    }
}

/// Whether the seat goes before the best so far.
fn goes_before(last: u64, seat: Seat, best: &Option<Seen>) -> bool
    ensures { result ≡ goes_before last (seat_pair seat) best.now }
{
    match best {
        Some(seen) => goes_first(last, seat, Seat::of(seen)),
        None => true,
    }
}

/// The member at the place, if it has room and goes before the best so far, and else that one. The
/// view is asked only where it may.
fn better<V: View>(
    view: &V,
    last: u64,
    place: usize,
    seat: Seat,
    best: Option<Seen>,
) -> Option<Seen>
    ensures { slice_get (line_of (V.state view.now) (V.subscription view.now)) place ≡ Some (seat_pair seat)
        → IsFirst last (roomy_among place (V.state view.now) (V.subscription view.now)) best
        → IsFirst last (roomy_among (place + 1) (V.state view.now) (V.subscription view.now)) result }
{
    if !goes_before(last, seat, &best) {
        return best;
    }
    match with_room(view, place) {
        Some(seen) => Some(seen),
        None => best,
    }
}

/// Of the members with room, one of the best level: the one with the least number above that last
/// served, else with the least number. The seats are theirs, in line. Each is compared once, and the
/// view is asked of those alone that go before the best so far.
pub(crate) fn next_in_turn<V: View>(view: &V, seats: &[Seat], last: u64) -> Option<Seen>
    ensures { map seat_pair seats.now ≡ line_of (V.state view.now) (V.subscription view.now)
        → IsFirst last (roomy (V.state view.now) (V.subscription view.now)) result }
{
    let mut best = None;
    for place in 0..seats.len() {
        best = better(view, last, place, seats[place], best);
    }
    best
}
