// The first messages of the hashes that get another owner.
ghost use Rattle.std.specs.Prelude.{◌≡◌, ◌≢◌, ℕ, ◌^◌, ◌≤◌, ◌<◌, true, false, Some};
ghost use Rattle.std.specs.List.{find};
ghost use Rattle.std.specs.FinMap as map_of;
ghost use Rattle.delivery_machine.specs.Shares.{is_share_of, owner_of, SplitAllHashes};
ghost use Rattle.dispatch_keyed.specs.Resharing.{IsOutside, SameButFirsts, IsRenewed};

use crate::keyed::Keyed;
use crate::renewing::renew;
use crate::rows::next_hash_before;
use dispatch_core::View;
use hash_ranges::SplitTable;
use position_core::ConsumerNumber;

/// The hashes of the consumer's share: from the first number up to but not the second.
pub(crate) fn hashes_of(shares: &SplitTable, consumer: ConsumerNumber) -> (u32, u32)
    requires { shares.now.sticky ≡ false }
    ensures split { SplitAllHashes shares.now.blocks }
    ensures outside { (h : ℕ) → (result.0 ≤ h → h < result.1 → ⊥) → IsOutside (find (is_share_of consumer) shares.now.blocks) h }
{
    match shares.share_of(consumer) {
        Some(share) => (share.from, share.from + share.size),
        None => (0, 0),
    }
}

impl Keyed {
    /// Keeps the first messages of the hashes from `from` up to but not `end`, as they are now.
    pub(crate) fn renew_between<V: View>(&mut self, view: &V, from: u32, end: u32)
        ensures rest { SameButFirsts self.old self.new }
        ensures others { (h : ℕ) → (from ≤ h → h < end → ⊥) → map_of.get self.new.firsts.numbers h ≡ map_of.get self.old.firsts.numbers h }
        ensures first { (h : ℕ) → from ≤ h → h < end → h < 2 ^ 16 → IsRenewed self.old self.new h (V.state view.now) (V.subscription view.now) }
    {
        let mut next = from;
        while let Some(hash) = next_hash_before(&self.rows, next, end) {
            renew(
                &self.rows,
                &self.owners.shares,
                &mut self.firsts,
                view,
                hash,
            );
            next = u32::from(hash) + 1;
        }
    }

    /// So, if they are the consumer's.
    fn renew_if<V: View>(&mut self, view: &V, from: u32, end: u32, theirs: bool)
        ensures rest { SameButFirsts self.old self.new }
        ensures others { (h : ℕ) → (theirs ≡ true → from ≤ h → h < end → ⊥) → map_of.get self.new.firsts.numbers h ≡ map_of.get self.old.firsts.numbers h }
        ensures first { theirs ≡ true → (h : ℕ) → from ≤ h → h < end → h < 2 ^ 16 → IsRenewed self.old self.new h (V.state view.now) (V.subscription view.now) }
    {
        if theirs {
            self.renew_between(view, from, end);
        }
    }

    /// Keeps the first messages of the consumer's hashes, as they are now. Goes over the shares.
    pub(crate) fn renew_owned<V: View>(&mut self, view: &V, consumer: ConsumerNumber)
        ensures rest { SameButFirsts self.old self.new }
        ensures others { (h : ℕ) → owner_of self.old.owners.shares h ≢ Some consumer → map_of.get self.new.firsts.numbers h ≡ map_of.get self.old.firsts.numbers h }
        ensures first { (h : ℕ) → h < 2 ^ 16 → owner_of self.old.owners.shares h ≡ Some consumer → IsRenewed self.old self.new h (V.state view.now) (V.subscription view.now) }
    {
        let mut from = 0;
        while let Some(block) = self.owners.shares.block_from(from) {
            let end = block.from + block.size;
            let theirs = block.consumer == consumer;
            self.renew_if(view, block.from.max(from), end, theirs);
            from = end;
        }
    }
}
