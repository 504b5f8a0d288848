// How many places of the ranges stand from one on.
ghost use Rattle.std.specs.Prelude.{◌≡◌, ◌+◌, ◌<◌, ◌∷◌, ◌++◌, [], IfSome, IfNone};
ghost use Rattle.ack_ranges.specs.Kept.{AreSmall, total_from};
ghost use Rattle.ack_ranges.specs.Ranges.{RiseAbove};

use crate::place::Place;
use std::collections::BTreeMap;
use std::collections::btree_map::Iter;

fn last_of(left: &mut Iter<'_, Place, Place>) -> Option<(Place, Place)>
    ensures some { IfSome result (λ r. left.old ≡ left.new ++ r ∷ []) }
    ensures none { IfNone result (left.old ≡ []) }
{
    match left.next_back() {
        Some((start, stop)) => Some((*start, *stop)),
        None => None,
    }
}

/// How many places from `from` on the ranges have. Looks at those alone that end behind it.
pub(crate) fn total_from(low: Place, ranges: &BTreeMap<Place, Place>, from: Place) -> u128
    requires rise { RiseAbove low ranges.now.entries }
    requires small { AreSmall ranges.now.entries }
    ensures { result ≡ total_from from ranges.now.entries }
{
    let mut count = 0;
    let mut left = ranges.iter();
    'each: while let Some((start, stop)) = last_of(&mut left) {
        if stop <= from {
            return count;
        }
        count += stop - start.max(from);
    }
    count
}
