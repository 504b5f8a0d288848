// The hashes that a consumer asks for.
ghost use Rattle.std.specs.Prelude.{◌≡◌, ◌↔◌, IsTrue, IsSome, IfSome, IfOk, length};
ghost use Rattle.std.specs.Option.{option_map_or};
ghost use Rattle.std.specs.List.Sorted.{IsPermutation};
ghost use Rattle.position_core.specs.Ranges.{IsRangeFrom, Rise, AreRanges, MayBeRanges};

use std::alloc::AllocError;
use std::marker::Model;

/// The hashes from `first` to `last`, both with it. Hashes are 0 to 65,535.
#[derive(Clone, Copy, Debug, PartialEq, Eq)]
pub struct HashRange {
    pub first: u32,
    pub last: u32,
}

/// 1 to 64 ranges of hashes, no hash in two of them. Contracts see them in the order of their hashes
/// (Pulsar's `KeySharedPolicy.Sticky`).
#[derive(Debug)]
pub struct Ranges {
    ranges: Vec<HashRange>,
}

impl Drop for Ranges {
    fn drop(self) {
        let Ranges { ranges: _ } = self;
    }
}

impl Model for Ranges {
    ghost use Rattle.std.specs.Prelude.{List};
    ghost use Rattle.position_core.specs.declared.ranges.HashRange.{HashRange};
    ghost use Rattle.position_core.specs.Ranges.{AreRanges};

    ghost Value = { List HashRange };

    ghost view = { λ r. r.ranges.items };

    ghost invariant = { λ r. AreRanges r.ranges.items };
}

fn is_range_from(from: u32, range: &HashRange) -> bool
    ensures { IsTrue result ↔ IsRangeFrom from range.now }
{
    from <= range.first && range.first <= range.last && range.last <= 65_535
}

// Whether each range stands behind the one before it.
fn rise(ranges: &[HashRange]) -> bool
    ensures { IsTrue result ↔ Rise 0 ranges.now }
{
    let mut from = 0;
    for range in ranges {
        if !is_range_from(from, range) {
            return false;
        }
        from = range.last + 1;
    }
    true
}

fn are_ranges(ranges: &[HashRange]) -> bool
    ensures { IsTrue result ↔ AreRanges ranges.now }
{
    !ranges.is_empty() && ranges.len() <= 64 && rise(ranges)
}

impl Ranges {
    /// Of ranges in any order. None beyond the limits, or where a hash is in two of them.
    pub fn new(given: Vec<HashRange>) -> Option<Self>
        ensures fits { IsSome result ↔ MayBeRanges given.items }
        ensures value { IfSome result (λ ranges. IsPermutation given.items ranges) }
        ensures within { IfSome result AreRanges }
    {
        let mut ranges = given;
        ranges.sort_unstable_by_key(|range| range.first);
        if are_ranges(&ranges) {
            Some(Ranges { ranges })
        } else {
            None
        }
    }

    pub fn as_slice(&self) -> &[HashRange]
        ensures value { result.now ≡ self.now }
        ensures within { AreRanges result.now }
    {
        &self.ranges
    }

    /// The same ranges once more.
    pub fn copy(&self) -> Result<Self, AllocError>
        ensures { IfOk result (λ ranges. ranges ≡ self.now) }
    {
        let ranges = self.ranges.clone()?;
        Ok(Ranges { ranges })
    }

    /// Whether two have the same hashes, in the same ranges.
    pub fn is(&self, other: &Self) -> bool
        ensures { IsTrue result ↔ self.now ≡ other.now }
    {
        self.ranges == other.ranges
    }

    /// How many ranges are asked for: 0 where there are none.
    pub fn number_of(asked: &Option<Ranges>) -> usize
        ensures value { result ≡ option_map_or length asked.now 0 }
        ensures within { IfSome asked.now AreRanges }
    {
        match asked {
            Some(ranges) => ranges.as_slice().len(),
            None => 0,
        }
    }
}
