// One more place, or one more range at the end, among the ranges.
ghost use Rattle.std.specs.Prelude.{◌≡◌, ◌+◌, ◌^◌, ◌<◌, true, Option, None, OnOk, OnErr, IfOk, IfSome, IfNone};
ghost use Rattle.std.specs.Ordering.{nat_cmp};
ghost use Rattle.std.specs.FinSet as set;
ghost use Rattle.std.specs.BTreeMap as tree;
ghost use Rattle.ack_ranges.specs.Joining.{Joined, TakesIn, end_at};
ghost use Rattle.ack_ranges.specs.Kept.{set_of, AreSmall, Adds, Follows};
ghost use Rattle.ack_ranges.specs.Ranges.{RiseAbove, HasGapBefore, MayFollow};

use crate::lookup::last_up_to;
use crate::place::Place;
use std::alloc::AllocError;
use std::collections::BTreeMap;

/// Adds a place, and says whether it is new. The range that begins behind it, and the one that ends at it,
/// become one with it.
pub(crate) fn add(
    low: &mut Place,
    ranges: &mut BTreeMap<Place, Place>,
    place: Place,
) -> Result<bool, AllocError>
    requires rise { RiseAbove low.old ranges.old.entries }
    requires low_small { low.old < 2 ^ 128 }
    requires small { AreSmall ranges.old.entries }
    requires fits { place + 1 < 2 ^ 128 }
    ensures ok { IfOk result (λ new. Adds low.old ranges.old.entries place low.new ranges.new.entries new) }
    ensures err { OnErr result (ranges.new.entries ≡ ranges.old.entries) }
    ensures err_low { OnErr result (low.new ≡ low.old) }
    ensures gap { OnErr result (HasGapBefore (set_of low.old ranges.old.entries) place) }
{
    if place == *low {
        *low = ranges.remove(&(place + 1)).unwrap_or(place + 1);
        return Ok(true);
    }
    match start_for(*low, ranges, place) {
        Some(start) => match join(ranges, start, place + 1) {
            Ok(()) => Ok(true),
            Err(e) => Err(e),
        },
        None => Ok(false),
    }
}

/// Where the range begins that is to take the place, or none where one has it.
fn start_for(low: Place, ranges: &BTreeMap<Place, Place>, place: Place) -> Option<Place>
    requires rise { RiseAbove low ranges.now.entries }
    requires small { AreSmall ranges.now.entries }
    requires other { place ≡ low → ⊥ }
    ensures some { IfSome result (λ start. TakesIn (tree.get nat_cmp ranges.now) low start place) }
    ensures none { IfNone result (set.contains (set_of low ranges.now.entries) place ≡ true) }
{
    if place < low {
        return None;
    }
    match last_up_to(ranges, place) {
        Some((start, end)) => {
            if place < end {
                None
            } else if place == end {
                Some(start)
            } else {
                Some(place)
            }
        }
        None => Some(place),
    }
}

/// A range from `start` to `after`, and on to the end of the one that begins there.
fn join(ranges: &mut BTreeMap<Place, Place>, start: Place, after: Place) -> Result<(), AllocError>
    requires { start < after }
    ensures ok { OnOk result
        (Joined (tree.get nat_cmp ranges.old) (tree.get nat_cmp ranges.new) start (end_at (tree.get nat_cmp ranges.old) after) after) }
    ensures err { OnErr result (ranges.new.entries ≡ ranges.old.entries) }
    ensures absent { OnErr result (tree.get nat_cmp ranges.old start ≡ None) }
    ensures ordered { tree.IsOrdered nat_cmp ranges.new }
{
    match end_of_range(ranges, after) {
        Some(end) => {
            ranges.insert(start, end)?;
            ranges.remove(&after);
        }
        None => {
            ranges.insert(start, after)?;
        }
    }
    Ok(())
}

fn end_of_range(ranges: &BTreeMap<Place, Place>, start: Place) -> Option<Place>
    ensures { result ≡ tree.get nat_cmp ranges.now start }
{
    match ranges.get(&start) {
        Some(end) => Some(*end),
        None => None,
    }
}

/// Puts a range behind all that are there. One from 0 raises the first number that is not in the set.
pub(crate) fn append(
    low: &mut Place,
    ranges: &mut BTreeMap<Place, Place>,
    start: Place,
    end: Place,
) -> Result<(), AllocError>
    requires rise { RiseAbove low.old ranges.old.entries }
    requires follows { MayFollow (set_of low.old ranges.old.entries) start end }
    requires low_small { low.old < 2 ^ 128 }
    requires small { AreSmall ranges.old.entries }
    ensures ok { OnOk result (Follows low.old ranges.old.entries start end low.new ranges.new.entries) }
    ensures err { OnErr result (ranges.new.entries ≡ ranges.old.entries) }
    ensures err_low { OnErr result (low.new ≡ low.old) }
{
    if start == 0 {
        *low = end;
        return Ok(());
    }
    match ranges.insert(start, end) {
        Ok(_) => Ok(()),
        Err(_) => Err(AllocError),
    }
}
