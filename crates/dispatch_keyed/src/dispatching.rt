// The dispatcher of the kind in which each hash has its owner.
use crate::keyed::Keyed;
use crate::resharing::hashes_of;
use crate::seats::Owners;
use crate::table::Rows;
use dispatch_core::{Dispatcher, Offer, View};
use number_sets::HashFirsts;
use position_core::{ConsumerNumber, Fault, LogIndex};
use std::alloc::Global;

impl Dispatcher for Keyed {
    ghost use Rattle.std.specs.Prelude.{◌≡◌, [], IsOk, IfOk, OnOk, OnErr, IfErr, IfSome, IfNone};
    ghost use Rattle.position_core.specs.declared.fault.Fault.TheVariants.{NoMemory};
    ghost use Rattle.position_core.specs.Kind.{same_kind};
    ghost use Rattle.position_core.specs.declared.kind.Kind.TheVariants.{KeyShared};
    ghost use Rattle.delivery_machine.specs.Words.{NoneEligible};
    ghost use Rattle.dispatch_core.specs.Offers.{IsGoodOffer};
    ghost use Rattle.dispatch_core.specs.Changes.{Joined, Left, Sent, Gone, Released, Reset, AgreesAfter};
    ghost use Rattle.dispatch_keyed.specs.Agreeing.{Agrees};

    ghost serves = { λ kind. same_kind kind KeyShared };

    ghost agrees = { Agrees };

    fn begin<V: View>(alloc: Global, view: &V) -> Result<Self, Fault> {
        Ok(Keyed {
            alloc,
            owners: Owners::new(alloc),
            read: 0,
            sent: view.length(),
            rows: Rows::new(alloc),
            firsts: HashFirsts::new(alloc),
            swept: 0,
        })
    }

    fn offer<V: View>(&self, view: &V) -> Option<Offer>
        ensures some { Agrees self.now (V.state view.now) (V.subscription view.now)
            → IfSome result (IsGoodOffer (V.state view.now) (V.subscription view.now)) }
        ensures none { Agrees self.now (V.state view.now) (V.subscription view.now)
            → IfNone result (NoneEligible (V.state view.now) (V.subscription view.now)) }
    {
        self.first_offer(view)
    }

    fn on_append<V: View>(&mut self, _view: &V) -> Result<(), Fault> {
        Ok(())
    }

    fn undo_append<V: View>(&mut self, _view: &V) {}

    fn on_trim<V: View>(&mut self, view: &V, count: u64) {
        if self.can_follow(count) {
            self.follow(count);
            self.sweep(count);
        } else {
            self.begin_anew(view);
        }
    }

    fn on_join<V: View>(&mut self, view: &V, consumer: ConsumerNumber) -> Result<(), Fault> {
        match self.owners.join(consumer) {
            Ok(()) => {
                self.renew_owned(view, consumer);
                Ok(())
            }
            Err(_) => Err(Fault::NoMemory),
        }
    }

    fn on_leave<V: View>(&mut self, view: &V, consumer: ConsumerNumber) {
        if self.owners.shares.is_sticky() {
            self.forget_owned(consumer);
            self.owners.leave(consumer);
        } else {
            let (from, end) = hashes_of(&self.owners.shares, consumer);
            self.owners.leave(consumer);
            self.renew_between(view, from, end);
        }
    }

    fn on_sent<V: View>(
        &mut self,
        view: &V,
        index: LogIndex,
        consumer: ConsumerNumber,
    ) -> Result<(), Fault> {
        self.sent = self.sent_after(view, index);
        self.change(view, index, false, Some(consumer));
        Ok(())
    }

    fn on_gone<V: View>(&mut self, view: &V, index: LogIndex) {
        self.change(view, index, false, None);
    }

    fn on_released<V: View>(&mut self, view: &V, index: LogIndex) {
        self.change(view, index, true, None);
    }

    fn on_reset<V: View>(&mut self, _view: &V) -> Result<(), Fault>
        ensures never { IsOk result }
        ensures ok { OnOk result (AgreesAfter Reset (Agrees self.old) (Agrees self.new)
            (V.state _view.now) (V.subscription _view.now)) }
        ensures err { IfErr result (λ fault. fault ≡ NoMemory) }
        ensures unchanged { OnErr result (self.new ≡ self.old) }
    {
        self.read = 0;
        self.sent = 0;
        self.rows.clear();
        self.firsts.clear();
        Ok(())
    }

    ghost use Rattle.std.proofs.Common.{◌∙◌, sym, ap₂, map};
    ghost use Rattle.std.specs.FinMap as map_of;
    ghost use Rattle.hash_rows.proofs.Moving.{knows_kept, seen_kept};
    ghost use Rattle.dispatch_keyed.specs.Owning.{owners_with};
    ghost use Rattle.dispatch_keyed.specs.Tables.{row_at};

    ghost kept = { λ d s sub agreed t new change. record {
      kind = change.kind ∙ agreed.kind;
      owners = agreed.owners ∙ ap₂ (λ bs line. owners_with bs (map (λ m. m.0) line)) (sym change.shares) (sym change.line);
      seen = seen_kept d.read s sub t new agreed.seen change;
      small = agreed.small;
      unsent = λ i read sent. (change.messages i).holder ∙ agreed.unsent i read sent;
      hashes = λ h within. knows_kept (row_at d.rows h) (map_of.get d.firsts.numbers h) h d.read s sub t new (agreed.hashes h within) change;
    } };
}
