// Consumers that say which hashes they take, as they come and go.
ghost use Rattle.std.specs.Prelude.{◌≡◌, ◌≢◌, ℕ, ◌^◌, ◌≤◌, ◌<◌, true, false, Some, None, OnOk, OnErr, IfErr};
ghost use Rattle.std.specs.FinMap as map_of;
ghost use Rattle.position_core.specs.declared.fault.Fault.TheVariants.{NoMemory};
ghost use Rattle.position_core.specs.Ranges.{AreRanges, have_hash};
ghost use Rattle.delivery_machine.specs.Shares.{is_taken, owner_of};
ghost use Rattle.delivery_machine.specs.ShareSets.{AreApart};
ghost use Rattle.dispatch_core.specs.Changes.{Joined, AgreesAfter};
ghost use Rattle.dispatch_keyed.specs.Agreeing.{Agrees};
ghost use Rattle.dispatch_keyed.specs.Resharing.{SameButFirsts, IsRenewed};

use crate::keyed::Keyed;
use dispatch_core::View;
use number_sets::HashFirsts;
use position_core::{ConsumerNumber, Fault, HashRange, Ranges};

impl Keyed {
    /// The consumer joined with the hashes of the ranges, which nobody had.
    pub fn on_join_sticky<V: View>(
        &mut self,
        view: &V,
        consumer: ConsumerNumber,
        ranges: &Ranges,
    ) -> Result<(), Fault>
        requires free { is_taken ranges.now self.old.owners.shares ≡ false }
        ensures ok { OnOk result (AgreesAfter (Joined (Some ranges.now) consumer) (Agrees self.old) (Agrees self.new)
            (V.state view.now) (V.subscription view.now)) }
        ensures err { IfErr result (λ fault. fault ≡ NoMemory) }
        ensures unchanged { OnErr result (self.new ≡ self.old) }
    {
        match self.owners.join_sticky(consumer, ranges) {
            Ok(()) => {
                self.renew_ranges(view, ranges.as_slice());
                Ok(())
            }
            Err(_) => Err(Fault::NoMemory),
        }
    }

    /// Keeps the first messages of the hashes of the ranges, as they are now.
    fn renew_ranges<V: View>(&mut self, view: &V, ranges: &[HashRange])
        requires { AreRanges ranges.now }
        ensures rest { SameButFirsts self.old self.new }
        ensures others { (h : ℕ) → have_hash ranges.now h ≡ false → map_of.get self.new.firsts.numbers h ≡ map_of.get self.old.firsts.numbers h }
        ensures first { (h : ℕ) → h < 2 ^ 16 → have_hash ranges.now h ≡ true → IsRenewed self.old self.new h (V.state view.now) (V.subscription view.now) }
    {
        for range in ranges {
            self.renew_between(view, range.first, range.last + 1);
        }
    }

    /// Takes out the first messages of the consumer's hashes, which will have no owner. Goes over the
    /// shares.
    pub(crate) fn forget_owned(&mut self, consumer: ConsumerNumber)
        ensures rest { SameButFirsts self.old self.new }
        ensures others { (h : ℕ) → owner_of self.old.owners.shares h ≢ Some consumer → map_of.get self.new.firsts.numbers h ≡ map_of.get self.old.firsts.numbers h }
        ensures gone { (h : ℕ) → owner_of self.old.owners.shares h ≡ Some consumer → map_of.get self.new.firsts.numbers h ≡ None }
        ensures apart { AreApart 0 self.old.owners.shares.blocks }
    {
        let mut from = 0;
        while let Some(block) = self.owners.shares.block_from(from) {
            let end = block.from + block.size;
            let theirs = block.consumer == consumer;
            forget_if(&mut self.firsts, block.from, end, theirs);
            from = end;
        }
    }
}

/// Takes out the first messages of the hashes `from` up to but not `end`.
fn forget_between(firsts: &mut HashFirsts, from: u32, end: u32)
    ensures room { firsts.new.room ≡ firsts.old.room }
    ensures others { (h : ℕ) → (from ≤ h → h < end → ⊥) → map_of.get firsts.new.numbers h ≡ map_of.get firsts.old.numbers h }
    ensures gone { (h : ℕ) → from ≤ h → h < end → map_of.get firsts.new.numbers h ≡ None }
    ensures kept { (h : ℕ) → map_of.get firsts.old.numbers h ≡ None → map_of.get firsts.new.numbers h ≡ None }
{
    while let Some((_, hash)) = firsts.least(from, end) {
        firsts.take_out(hash);
    }
}

/// So, if they are the consumer's.
fn forget_if(firsts: &mut HashFirsts, from: u32, end: u32, theirs: bool)
    ensures room { firsts.new.room ≡ firsts.old.room }
    ensures others { (h : ℕ) → (theirs ≡ true → from ≤ h → h < end → ⊥) → map_of.get firsts.new.numbers h ≡ map_of.get firsts.old.numbers h }
    ensures gone { theirs ≡ true → (h : ℕ) → from ≤ h → h < end → map_of.get firsts.new.numbers h ≡ None }
    ensures kept { (h : ℕ) → map_of.get firsts.old.numbers h ≡ None → map_of.get firsts.new.numbers h ≡ None }
{
    if theirs {
        forget_between(firsts, from, end);
    }
}
