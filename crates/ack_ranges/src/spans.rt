// A set of numbers as ranges.
ghost use Rattle.std.specs.Prelude.{◌≡◌, ◌+◌, ◌^◌, ◌<◌, ◌≤◌, ℕ, List, length, false, true, OnOk, OnErr, IfOk, IsTrue, ◌↔◌, if◌then◌else◌};
ghost use Rattle.std.specs.Ordering.{nat_cmp};
ghost use Rattle.std.specs.FinSet as set;
ghost use Rattle.std.specs.List.{count_by};
ghost use Rattle.ack_ranges.specs.Lowered.{lowered, IsRaised};
ghost use Rattle.ack_ranges.specs.Ranges.{below, from_to, numbers, AreRangesOf, HasGapBefore, IsNextMissing, MayFollow};

use crate::place::{Place, lowered};
use crate::ranges::Ranges;
use crate::{counting, joining, lookup, swallowing};
use position_core::LogIndex;
use std::alloc::{AllocError, Global};
use std::collections::BTreeMap;
use std::marker::Model;

/// A set of numbers as ranges. A look-up or a change takes the logarithm of the number of ranges, and as
/// much again for each range that goes.
pub(crate) struct Spans {
    /// The first place that is not in the set.
    low: Place,
    /// From the start of each range above `low` to its end.
    ranges: BTreeMap<Place, Place>,
    count: u128,
}

impl Drop for Spans {
    fn drop(self) {
        let Spans {
            low: _,
            ranges: _,
            count: _,
        } = self;
    }
}

impl Model for Spans {
    ghost use Rattle.std.specs.Ordering.{nat_cmp};
    ghost use Rattle.std.specs.FinSet as set;
    ghost use Rattle.std.specs.Coded.{coded_ℕ};
    ghost use Rattle.ack_ranges.specs.Kept.{set_of, IsKept};

    ghost Value = { set.FinSet nat_cmp };

    ghost coded = { set.code coded_ℕ };

    ghost view = { λ a. set_of a.low a.ranges.entries };

    ghost invariant = { λ a. IsKept a.low a.ranges.entries a.count };
}

impl Spans {
    pub(crate) fn new(alloc: Global) -> Self
        ensures { result ≡ set.empty }
    {
        Spans {
            low: 0,
            ranges: BTreeMap::new(alloc),
            count: 0,
        }
    }

    /// How many places are in the set.
    pub(crate) fn len(&self) -> u128
        ensures { result ≡ set.len self.now }
    {
        self.count
    }

    /// How many places below `end` are in the set. Looks at those ranges alone that end behind it.
    pub(crate) fn count_below(&self, end: Place) -> u128
        ensures value { result ≡ count_by (set.contains self.now) (numbers 0 end) }
        ensures within { result ≤ end }
    {
        if end <= self.low {
            return end;
        }
        self.count - counting::total_from(self.low, &self.ranges, end)
    }

    pub(crate) fn contains(&self, place: Place) -> bool
        ensures { result ≡ set.contains self.now place }
    {
        self.next_missing(place) != place
    }

    /// The least place from `from` on that is not in the set.
    pub(crate) fn next_missing(&self, from: Place) -> Place
        ensures { IsNextMissing self.now from result }
    {
        lookup::next_missing(self.low, &self.ranges, from)
    }

    /// The least place that is not in the set, at once.
    pub(crate) fn first_missing(&self) -> Place
        ensures { IsNextMissing self.now 0 result }
    {
        self.low
    }

    /// Takes no memory where the place before is in the set, or this place is the first that is missing.
    pub(crate) fn add(&mut self, place: Place) -> Result<(), AllocError>
        requires { place + 1 < 2 ^ 128 }
        ensures ok { OnOk result (self.new ≡ set.insert self.old place) }
        ensures err { OnErr result (self.new ≡ self.old) }
        ensures gap { OnErr result (HasGapBefore self.old place) }
    {
        match joining::add(&mut self.low, &mut self.ranges, place) {
            Ok(true) => {
                self.count += 1;
                Ok(())
            }
            Ok(false) => Ok(()),
            Err(e) => Err(e),
        }
    }

    /// Adds all places below `end`. Takes no memory.
    pub(crate) fn add_below(&mut self, end: Place)
        ensures { self.new ≡ set.union self.old (below end) }
    {
        if end <= self.low {
            return;
        }
        let above = self.count - self.low;
        let taken = swallowing::take_up_to(&mut self.ranges, end);
        self.low = taken.end;
        self.count = taken.end + (above - taken.count);
    }

    /// Leaves the places below `end` and no other. Takes no memory.
    pub(crate) fn reset(&mut self, end: Place)
        ensures { self.new ≡ below end }
    {
        self.ranges.clear();
        self.low = end;
        self.count = end;
    }

    /// Adds the places from `start` up to `end`, without `end`, where they may follow, and says whether
    /// they do. It refuses a range that is empty, or that begins at the end of another or before it.
    pub(crate) fn push_range(&mut self, start: Place, end: Place) -> Result<bool, AllocError>
        ensures pushed { IfOk result (λ b. IsTrue b ↔ MayFollow self.old start end) }
        ensures ok { IfOk result
            (λ b. self.new ≡ (if b then set.union self.old (from_to start end) else self.old)) }
        ensures err { OnErr result (self.new ≡ self.old) }
    {
        if !lookup::may_follow(self.low, &self.ranges, start, end) {
            return Ok(false);
        }
        match joining::append(&mut self.low, &mut self.ranges, start, end) {
            Ok(()) => {
                self.count += end - start;
                Ok(true)
            }
            Err(e) => Err(e),
        }
    }

    /// The ranges in order, each lower by the base.
    pub(crate) fn ranges(&self, base: LogIndex) -> Ranges<'_>
        requires { IsRaised base self.now }
        ensures { AreRangesOf (lowered base self.now) result }
    {
        Ranges::of(lowered(base, self.low), base, self.ranges.iter())
    }

    /// How many ranges stand above the base.
    pub(crate) fn range_count(&self, base: LogIndex) -> usize
        requires { IsRaised base self.now }
        ensures { (rs : List (ℕ × ℕ)) × AreRangesOf (lowered base self.now) rs × (result ≡ length rs) }
    {
        self.ranges.len() + usize::from(self.low > Place::from(base))
    }
}

impl Clone for Spans {
    ghost is_clone = { λ places copy. copy ≡ places };

    fn clone(&self) -> Result<Self, AllocError> {
        match self.ranges.clone() {
            Ok(ranges) => Ok(Spans {
                low: self.low,
                ranges,
                count: self.count,
            }),
            Err(e) => Err(e),
        }
    }
}
