// The places of a subscription's messages that are acknowledged or dead.
ghost use Rattle.std.specs.Prelude.{◌≡◌, ◌+◌, ◌<◌, ◌≤◌, ◌^◌, ◌%◌, ℕ, List, [], true, false, OnOk, OnErr, IfOk, IfSome, IfNone};
ghost use Rattle.std.specs.List.{All, count_by};
ghost use Rattle.std.specs.FinSet as set;
ghost use Rattle.ack_ranges.specs.Ranges.{IsNextMissing, below, numbers};
ghost use Rattle.number_sets.specs.Places.{IsNext, NoneFrom};
ghost use Rattle.topic_subscriptions.specs.Closed.{is_open, lowered_by, outcomes_of, with_acknowledged, with_buried};

use crate::less::less;
use ack_ranges::AckSet;
use number_sets::PlaceBits;
use position_core::LogIndex;
use std::alloc::{AllocError, Global};
use std::marker::Model;

/// One set has all places whose messages are acknowledged or dead, so that the next live one is one look-up
/// and to acknowledge the first live ones takes no memory. Of them those are owed whose messages died and
/// are not acknowledged: there are few.
#[derive(Drop)]
pub(crate) struct Closed {
    all: AckSet,
    owed: PlaceBits,
    owed_count: u64,
}

impl Model for Closed {
    ghost use Rattle.std.specs.FinSet as set;
    ghost use Rattle.topic_subscriptions.specs.Closed.{AreOwed, Outcomes, coded_outcomes};

    ghost Value = { Outcomes };

    ghost coded = { coded_outcomes };

    ghost view = { λ c. record { places = set.difference c.all c.owed.places; buried = c.owed.places } };

    ghost invariant = { λ c. AreOwed c.all c.owed.places c.owed_count };
}

fn has(owed: &PlaceBits, place: LogIndex) -> bool
    ensures { result ≡ set.contains owed.now.places place }
{
    match owed.next_from(place) {
        Some(next) => next == place,
        None => false,
    }
}

impl Closed {
    /// With these places acknowledged, and none dead.
    pub(crate) fn of(alloc: Global, acknowledged: AckSet) -> Self
        ensures { result ≡ outcomes_of acknowledged [] }
    {
        Closed {
            all: acknowledged,
            owed: PlaceBits::new(alloc),
            owed_count: 0,
        }
    }

    pub(crate) fn is_acknowledged(&self, place: LogIndex) -> bool
        ensures { result ≡ set.contains self.now.places place }
    {
        self.all.contains(place) && !has(&self.owed, place)
    }

    pub(crate) fn number_acknowledged(&self) -> u64
        ensures { result ≡ set.len self.now.places }
    {
        self.all.len() - self.owed_count
    }

    /// A copy of the set of those that are acknowledged.
    pub(crate) fn acknowledged(&self, alloc: Global) -> Result<AckSet, AllocError>
        ensures { IfOk result (λ places. places ≡ self.now.places) }
    {
        if self.owed_count == 0 {
            return match self.all.clone() {
                Ok(all) => Ok(all),
                Err(failed) => Err(failed),
            };
        }
        less(alloc, &self.all, &self.owed)
    }

    /// The least open place from `from` on.
    pub(crate) fn next_open(&self, from: LogIndex) -> LogIndex
        ensures after { from ≤ result }
        ensures is_open { is_open self.now result ≡ true }
        ensures least { (k : ℕ) → from ≤ k → k < result → is_open self.now k ≡ false }
    {
        self.all.next_missing(from)
    }

    /// How many places below `end` are open.
    pub(crate) fn number_open_below(&self, end: LogIndex) -> u64
        ensures { result ≡ count_by (is_open self.now) (numbers 0 end) }
    {
        end - self.all.count_below(end)
    }

    pub(crate) fn first_buried(&self) -> Option<LogIndex>
        ensures some { IfSome result (IsNext (set.contains self.now.buried) 0) }
        ensures none { IfNone result (NoneFrom (set.contains self.now.buried) 0) }
    {
        self.owed.first()
    }

    /// The least place that is not acknowledged.
    pub(crate) fn first_not_acknowledged(&self) -> LogIndex
        ensures { IsNextMissing self.now.places 0 result }
    {
        let open = self.all.first_missing();
        match self.owed.first() {
            Some(buried) => open.min(buried),
            None => open,
        }
    }

    /// Takes no memory where the place before is closed, or this place is.
    pub(crate) fn acknowledge(&mut self, place: LogIndex) -> Result<(), AllocError>
        requires { place + 1 < 2 ^ 64 }
        ensures ok { OnOk result (self.new ≡ with_acknowledged place self.old) }
        ensures err { OnErr result (self.new ≡ self.old) }
        ensures gap { OnErr result ((k : ℕ) × (k + 1 ≡ place) × (is_open self.old k ≡ true)) }
    {
        match self.all.add(place) {
            Ok(()) => {
                if has(&self.owed, place) {
                    self.owed.remove(place);
                    self.owed_count -= 1;
                }
                Ok(())
            }
            Err(failed) => Err(failed),
        }
    }

    /// The message dies that stands at the place.
    pub(crate) fn bury(&mut self, place: LogIndex) -> Result<(), AllocError>
        requires fits { place + 1 < 2 ^ 64 }
        requires is_open { is_open self.old place ≡ true }
        ensures ok { OnOk result (self.new ≡ with_buried place self.old) }
        ensures err { OnErr result (self.new ≡ self.old) }
    {
        let acknowledged = self.number_acknowledged();
        match put(&mut self.all, &mut self.owed, place) {
            Ok(()) => {
                self.owed_count = self.all.len() - acknowledged;
                Ok(())
            }
            Err(failed) => Err(failed),
        }
    }

    /// The first places go, so many, which are all acknowledged, and the others stand as much lower. Takes
    /// no memory, and a step for each 64 places that there is room for among the owed.
    pub(crate) fn trim(&mut self, count: u64)
        requires whole { count % 64 ≡ 0 }
        requires acknowledged { (k : ℕ) → k < count → set.contains self.old.places k ≡ true }
        ensures { self.new ≡ lowered_by count self.old }
    {
        self.all.forget_below(count);
        self.owed.shift_down(count);
    }

    /// With these places acknowledged, and of the others those dead that are named.
    pub(crate) fn restored(
        alloc: Global,
        acknowledged: AckSet,
        dead: &[LogIndex],
    ) -> Result<Self, AllocError>
        requires { All (λ place. place + 1 < 2 ^ 64) dead.now }
        ensures { IfOk result (λ closed. closed ≡ outcomes_of acknowledged dead.now) }
    {
        let mut closed = Closed::of(alloc, acknowledged);
        for place in dead {
            if closed.next_open(*place) == *place {
                closed.bury(*place)?;
            }
        }
        Ok(closed)
    }
}

/// Puts the place into both sets, or into neither.
fn put(all: &mut AckSet, owed: &mut PlaceBits, place: LogIndex) -> Result<(), AllocError>
    requires { place + 1 < 2 ^ 64 }
    ensures ok { OnOk result (all.new ≡ set.insert all.old place) }
    ensures ok_owed { OnOk result (owed.new.places ≡ set.insert owed.old.places place) }
    ensures err { OnErr result (all.new ≡ all.old) }
    ensures err_owed { OnErr result (owed.new.places ≡ owed.old.places) }
{
    owed.grow(place + 1)?;
    match all.add(place) {
        Ok(()) => {
            owed.insert(place);
            Ok(())
        }
        Err(failed) => Err(failed),
    }
}
