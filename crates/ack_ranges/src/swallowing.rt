// Takes out the ranges that a longer run from the start of the log has swallowed.
ghost use Rattle.std.specs.Prelude.{◌≡◌, ◌+◌, ◌≤◌, ◌<◌, ◌^◌, ◌∷◌, IfSome, IfNone};
ghost use Rattle.ack_ranges.specs.Kept.{total, AreSmall, BeginAfter, Swallows};
ghost use Rattle.ack_ranges.specs.Ranges.{Rise, RiseAbove};

use crate::place::Place;
use std::collections::BTreeMap;

/// Where the run ends that took ranges in, and how many places they had.
#[derive(Clone, Copy, Drop)]
pub(crate) struct Taken {
    pub(crate) end: Place,
    pub(crate) count: u128,
}

/// Takes the ranges out that begin below `end` or at it, and those that begin where one of them ends
/// or before.
pub(crate) fn take_up_to(ranges: &mut BTreeMap<Place, Place>, end: Place) -> Taken
    requires rise { Rise ranges.old.entries }
    requires small { AreSmall ranges.old.entries }
    requires fits { total ranges.old.entries < 2 ^ 128 }
    ensures taken { Swallows ranges.old.entries end ranges.new.entries result.end result.count }
    ensures apart { RiseAbove result.end ranges.new.entries }
{
    let mut taken = Taken { end, count: 0 };
    'taking: while let Some((start, stop)) = pop_up_to(ranges, taken.end) {
        taken = Taken {
            end: taken.end.max(stop),
            count: taken.count + (stop - start),
        };
    }
    taken
}

/// Takes the first range out, if it begins at `end` or before.
fn pop_up_to(ranges: &mut BTreeMap<Place, Place>, end: Place) -> Option<(Place, Place)>
    ensures some { IfSome result (λ r. ranges.old.entries ≡ r ∷ ranges.new.entries) }
    ensures begins { IfSome result (λ r. r.0 ≤ end) }
    ensures none { IfNone result (ranges.new.entries ≡ ranges.old.entries) }
    ensures after { IfNone result (BeginAfter end ranges.old.entries) }
{
    match ranges.first_key_value() {
        Some((start, _)) => {
            if *start <= end {
                ranges.pop_first()
            } else {
                None
            }
        }
        None => None,
    }
}
