// The set, by the places that are in it.
ghost use Rattle.std.specs.Prelude.{◌≡◌, ◌+◌, ◌^◌, ◌<◌, ◌≤◌, ℕ, List, length, false, true, OnOk, OnErr, IfOk, IfSome, IfNone, IsTrue, ◌↔◌, if◌then◌else◌};
ghost use Rattle.std.specs.Ordering.{nat_cmp};
ghost use Rattle.std.specs.FinSet as set;
ghost use Rattle.std.specs.List.{count_by};
ghost use Rattle.ack_ranges.specs.Ranges.{below, from_to, numbers, AreRangesOf, HasGapBefore, IsNextMissing, MayFollow};

use crate::place::{Place, lowered, raised};
use crate::ranges::Ranges;
use crate::spans::Spans;
use position_core::LogIndex;
use std::alloc::{AllocError, Global};
use std::marker::Model;

/// The acknowledged messages of a subscription, by their places in the log. A look-up or a change takes
/// the logarithm of the number of ranges, and as much again for each range that goes; a copy and a
/// comparison go over all ranges.
pub struct AckSet {
    /// The set, each place higher by the base.
    spans: Spans,
    /// How many places were forgotten. All below it are in `spans`.
    base: LogIndex,
}

impl Drop for AckSet {
    fn drop(self) {
        let AckSet { spans: _, base: _ } = self;
    }
}

impl Model for AckSet {
    ghost use Rattle.std.specs.Ordering.{nat_cmp};
    ghost use Rattle.std.specs.FinSet as set;
    ghost use Rattle.std.specs.Coded.{coded_ℕ};
    ghost use Rattle.ack_ranges.specs.Lowered.{lowered, IsRaised};

    ghost Value = { set.FinSet nat_cmp };

    ghost coded = { set.code coded_ℕ };

    ghost view = { λ a. lowered a.base a.spans };

    ghost invariant = { λ a. IsRaised a.base a.spans };
}

impl AckSet {
    pub fn new(alloc: Global) -> Self
        ensures { result ≡ set.empty }
    {
        AckSet {
            spans: Spans::new(alloc),
            base: 0,
        }
    }

    /// How many places are in the set.
    pub fn len(&self) -> u64
        ensures { result ≡ set.len self.now }
    {
        lowered(self.base, self.spans.len())
    }

    /// How many places below `end` are in the set. Looks at those ranges alone that end behind it.
    pub fn count_below(&self, end: LogIndex) -> u64
        ensures value { result ≡ count_by (set.contains self.now) (numbers 0 end) }
        ensures within { result ≤ end }
    {
        lowered(self.base, self.spans.count_below(raised(self.base, end)))
    }

    pub fn contains(&self, place: LogIndex) -> bool
        ensures { result ≡ set.contains self.now place }
    {
        self.next_missing(place) != place
    }

    /// The least place from `from` on that is not in the set.
    pub fn next_missing(&self, from: LogIndex) -> LogIndex
        ensures { IsNextMissing self.now from result }
    {
        lowered(self.base, self.spans.next_missing(raised(self.base, from)))
    }

    /// The least place that is not in the set, at once.
    pub fn first_missing(&self) -> LogIndex
        ensures { IsNextMissing self.now 0 result }
    {
        lowered(self.base, self.spans.first_missing())
    }

    /// The last place of those that are in the set with all before them.
    pub fn mark_delete(&self) -> Option<LogIndex>
        ensures some { IfSome result (λ place. IsNextMissing self.now 0 (place + 1)) }
        ensures none { IfNone result (set.contains self.now 0 ≡ false) }
    {
        self.first_missing().checked_sub(1)
    }

    /// Takes no memory where the place before is in the set, or this place is the first that is missing.
    pub fn add(&mut self, place: LogIndex) -> Result<(), AllocError>
        requires { place + 1 < 2 ^ 64 }
        ensures ok { OnOk result (self.new ≡ set.insert self.old place) }
        ensures err { OnErr result (self.new ≡ self.old) }
        ensures gap { OnErr result (HasGapBefore self.old place) }
    {
        let kept = raised(self.base, place);
        if begins_too_high(&self.spans, kept) {
            return Err(AllocError);
        }
        self.spans.add(kept)
    }

    /// Adds all places below `end`. Takes no memory.
    pub fn add_below(&mut self, end: LogIndex)
        ensures { self.new ≡ set.union self.old (below end) }
    {
        self.spans.add_below(raised(self.base, end));
    }

    /// Leaves the places below `end` and no other. Takes no memory.
    pub fn reset(&mut self, end: LogIndex)
        ensures { self.new ≡ below end }
    {
        self.base = 0;
        self.spans.reset(Place::from(end));
    }

    /// Takes the first places out, so many, which are all in the set, and lowers the others by as much.
    /// Takes no memory, and no time for the ranges that stay.
    pub fn forget_below(&mut self, count: u64)
        requires { (k : ℕ) → k < count → set.contains self.old k ≡ true }
        ensures { (q : ℕ) → set.contains self.new q ≡ set.contains self.old (count + q) }
    {
        match self.base.checked_add(count) {
            Some(base) => self.base = base,
            // Then no range stands above the first places.
            None => {
                let kept = self.spans.first_missing() - raised(self.base, count);
                self.base = 0;
                self.spans.reset(kept);
            }
        }
    }

    /// Adds the places from `start` up to `end`, without `end`, where they may follow, and says whether
    /// they do. It refuses a range that is empty, or that begins at the end of another or before it.
    pub fn push_range(&mut self, start: LogIndex, end: LogIndex) -> Result<bool, AllocError>
        ensures pushed { IfOk result (λ b. IsTrue b ↔ MayFollow self.old start end) }
        ensures ok { IfOk result
            (λ b. self.new ≡ (if b then set.union self.old (from_to start end) else self.old)) }
        ensures err { OnErr result (self.new ≡ self.old) }
    {
        if self.len() == 0 {
            self.base = 0;
            self.spans.reset(0);
        }
        let kept = raised(self.base, start);
        if kept > Place::from(u64::MAX) {
            return Err(AllocError);
        }
        self.spans.push_range(kept, raised(self.base, end))
    }

    /// The ranges in order, each as its first place and the one after its last.
    pub fn ranges(&self) -> Ranges<'_>
        ensures { AreRangesOf self.now result }
    {
        self.spans.ranges(self.base)
    }

    /// How many ranges there are.
    pub fn range_count(&self) -> usize
        ensures { (rs : List (ℕ × ℕ)) × AreRangesOf self.now rs × (result ≡ length rs) }
    {
        self.spans.range_count(self.base)
    }

    /// Whether both sets have the same places.
    pub fn is(&self, other: &Self) -> bool
        ensures { IsTrue result ↔ (self.now ≡ other.now) }
    {
        are_same(self.ranges(), other.ranges())
    }
}

fn are_same(mut one: Ranges<'_>, mut other: Ranges<'_>) -> bool
    ensures { IsTrue result ↔ (one.entry ≡ other.entry) }
{
    'each: while let Some((start, end)) = one.next() {
        match other.next() {
            Some((first, stop)) => {
                if start != first || end != stop {
                    return false;
                }
            }
            None => return false,
        }
    }
    other.next().is_none()
}

/// Whether a range would begin at the place, and so high that it could not be lowered.
fn begins_too_high(spans: &Spans, place: Place) -> bool
    ensures high { IsTrue result → (2 ^ 64 ≤ place) × HasGapBefore spans.now place }
    ensures low { result ≡ false → 2 ^ 64 ≤ place → (p : ℕ) × (p + 1 ≡ place) × (set.contains spans.now p ≡ true) }
{
    place > Place::from(u64::MAX) && !spans.contains(place - 1)
}

impl Clone for AckSet {
    ghost is_clone = { λ places copy. copy ≡ places };

    fn clone(&self) -> Result<Self, AllocError> {
        match self.spans.clone() {
            Ok(spans) => Ok(AckSet {
                spans,
                base: self.base,
            }),
            Err(e) => Err(e),
        }
    }
}
