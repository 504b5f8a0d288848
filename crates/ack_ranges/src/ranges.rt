// The ranges, one after another.
ghost use Rattle.std.specs.Prelude.{◌≡◌};
ghost use Rattle.ack_ranges.specs.Kept.{with_low};
ghost use Rattle.ack_ranges.specs.Lowered.{lower_ranges, AreWithin};

use crate::place::{Place, lowered};
use position_core::LogIndex;
use std::collections::btree_map::Iter;
use std::marker::Model;

/// The ranges of a set that are left to see, in order.
#[derive(Drop)]
pub struct Ranges<'a> {
    /// The end of the range that begins at 0, or 0 where it was seen or there is none.
    low: LogIndex,
    /// How much higher the others are kept.
    base: LogIndex,
    above: Iter<'a, Place, Place>,
}

impl<'a> Model for Ranges<'a> {
    ghost use Rattle.std.specs.Prelude.{ℕ, List};
    ghost use Rattle.ack_ranges.specs.Kept.{with_low};
    ghost use Rattle.ack_ranges.specs.Lowered.{lower_ranges, AreWithin};

    ghost Value = { List (ℕ × ℕ) };

    ghost view = { λ r. with_low r.low (lower_ranges r.base r.above) };

    ghost invariant = { λ r. AreWithin r.base r.above };
}

impl<'a> Ranges<'a> {
    pub(crate) fn of(low: LogIndex, base: LogIndex, above: Iter<'a, Place, Place>) -> Self
        requires { AreWithin base above }
        ensures { result ≡ with_low low (lower_ranges base above.entry) }
    {
        Ranges { low, base, above }
    }
}

impl<'a> Iterator for Ranges<'a> {
    ghost use Rattle.std.specs.Iterator.{YieldsFirst, item_count};

    type Item = (LogIndex, LogIndex);

    ghost next_gives = { YieldsFirst (λ rest. rest) };

    ghost remaining = { item_count (λ rest. rest) };

    fn next(&mut self) -> Option<(LogIndex, LogIndex)> {
        if self.low > 0 {
            let end = self.low;
            self.low = 0;
            return Some((0, end));
        }
        match self.above.next() {
            Some((start, end)) => Some((lowered(self.base, *start), lowered(self.base, *end))),
            None => None,
        }
    }
}
