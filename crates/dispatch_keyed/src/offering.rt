// The message that is offered.
ghost use Rattle.std.specs.Prelude.{◌≡◌, ℕ, ◌+◌, ◌^◌, ◌≤◌, ◌<◌, ◌⊎◌, Some, None, IfSome, IfNone};
ghost use Rattle.delivery_machine.specs.Shares.{owner_of};
ghost use Rattle.delivery_machine.specs.Words.{NoneEligible};
ghost use Rattle.dispatch_core.specs.Offers.{IsGoodOffer};
ghost use Rattle.dispatch_keyed.specs.Hashes.{NoneFreeBefore};
ghost use Rattle.dispatch_keyed.specs.Agreeing.{Agrees, IsStuck};

use crate::hashes::{first_free_from, roomy_owner};
use crate::keyed::{HASHES, Keyed};
use dispatch_core::{Offer, View};
use hash_ranges::SplitTable;

impl Keyed {
    /// Of the messages that may be sent, the first.
    pub(crate) fn first_offer<V: View>(&self, view: &V) -> Option<Offer>
        ensures some { Agrees self.now (V.state view.now) (V.subscription view.now)
            → IfSome result (IsGoodOffer (V.state view.now) (V.subscription view.now)) }
        ensures none { Agrees self.now (V.state view.now) (V.subscription view.now)
            → IfNone result (NoneEligible (V.state view.now) (V.subscription view.now)) }
    {
        if self.read < self.sent {
            return first_free_from(view, &self.owners, 0);
        }
        match self.first_read(view) {
            Some(offer) => Some(offer),
            None => first_free_from(view, &self.owners, self.read),
        }
    }

    /// Of the messages that were read.
    fn first_read<V: View>(&self, view: &V) -> Option<Offer>
        requires { self.now.sent ≤ self.now.read }
        ensures some { Agrees self.now (V.state view.now) (V.subscription view.now)
            → IfSome result (IsGoodOffer (V.state view.now) (V.subscription view.now)) }
        ensures none { Agrees self.now (V.state view.now) (V.subscription view.now)
            → IfNone result (NoneFreeBefore (V.state view.now) (V.subscription view.now) self.now.read) }
    {
        self.first_between(view, 0, HASHES)
    }

    /// Of the firsts of the hashes `from` up to but not `end`. Where the owner of the least first has no
    /// room, none of its hashes around that one is served: what is left is on both sides of them, and
    /// also cut in the middle, so that the calls do not go deep.
    fn first_between<V: View>(&self, view: &V, from: u32, end: u32) -> Option<Offer>
        requires read { self.now.sent ≤ self.now.read }
        requires order { from ≤ end }
        requires within { end ≤ 65536 }
        ensures some { Agrees self.now (V.state view.now) (V.subscription view.now)
            → IfSome result (IsGoodOffer (V.state view.now) (V.subscription view.now)) }
        ensures none { Agrees self.now (V.state view.now) (V.subscription view.now)
            → IfNone result ((h : ℕ) → from ≤ h → h < end → IsStuck self.now (V.state view.now) (V.subscription view.now) h) }
    {
        let (index, hash) = self.firsts.least(from, end)?;
        if let Some(consumer) = roomy_owner(view, &self.owners, hash) {
            return Some(Offer { index, consumer });
        }
        let (start, stop) = hashes_around(&self.owners.shares, hash);
        let middle = from + (end - from) / 2;
        let below = start.max(from);
        let above = stop.min(end);
        let lower = middle.min(below);
        let upper = middle.max(above);
        let first = self.first_between(view, from, lower);
        let second = self.first_between(view, lower, below);
        let third = self.first_between(view, above, upper);
        let fourth = self.first_between(view, upper, end);
        sooner(sooner(first, second), sooner(third, fourth))
    }
}

/// Hashes of one owner around the hash: from the first number up to but not the second.
fn hashes_around(shares: &SplitTable, hash: u16) -> (u32, u32)
    ensures from { result.0 ≤ hash }
    ensures end { hash < result.1 }
    ensures owner { (h : ℕ) → result.0 ≤ h → h < result.1 → owner_of shares.now h ≡ owner_of shares.now hash }
{
    match shares.block_from(u32::from(hash)) {
        Some(block) => {
            if block.from <= u32::from(hash) {
                return (block.from, block.from + block.size);
            }
        }
        None => (),
    }
    (u32::from(hash), u32::from(hash) + 1)
}

/// Of two offers the one that stands sooner in the log.
fn sooner(best: Option<Offer>, other: Option<Offer>) -> Option<Offer>
    ensures either { (result ≡ best) ⊎ (result ≡ other) }
    ensures none { IfNone result ((best ≡ None) × (other ≡ None)) }
{
    match (best, other) {
        (Some(a), Some(b)) => { if a.index < b.index { best } else { other } }
        (Some(_), None) => best,
        (None, _) => other,
    }
}
