// The dispatcher of the kinds that have one active member.
use crate::line::Line;
use dispatch_core::{Dispatcher, Offer, View, WaitingPlaces};
use position_core::{ConsumerNumber, Fault, LogIndex};
use std::alloc::Global;
use std::marker::Model;

/// Offers the first waiting message to the active member. It keeps which messages wait, and who in
/// line is active, so an offer goes over neither the pending messages nor the members; only where
/// the active member leaves are the members gone over.
#[derive(Drop)]
pub struct Single {
    waiting: WaitingPlaces,
    line: Line,
}

impl Model for Single {
    ghost use Rattle.dispatch_single.specs.InOrder.{Serving, serving_code};

    ghost Value = { Serving };

    ghost coded = { serving_code };

    ghost view = { λ d. record { waiting = d.waiting; line = d.line } };
}

impl Single {
    ghost use Rattle.std.specs.Prelude.{◌≡◌};
    ghost use Rattle.delivery_machine.specs.State.{State, Subscription};
    ghost use Rattle.delivery_machine.specs.Words.{active_at};
    ghost use Rattle.dispatch_single.specs.InOrder.{Agrees};

    /// The number of the active member. It is kept, so nobody is looked at.
    pub fn active(&self) -> Option<ConsumerNumber>
        ensures { (s : State) (sub : Subscription) → Agrees self.now s sub → result ≡ active_at s sub.name }
    {
        match self.line.active {
            Some(member) => Some(member.consumer),
            None => None,
        }
    }
}

impl Dispatcher for Single {
    ghost use Rattle.std.specs.Prelude.{◌≡◌, IsOk, OnOk, OnErr, IfOk, IfErr, IfSome, IfNone};
    ghost use Rattle.position_core.specs.declared.fault.Fault.TheVariants.{NoMemory};
    ghost use Rattle.position_core.specs.Kind.{is_in_order};
    ghost use Rattle.delivery_machine.specs.Words.{NoneEligible};
    ghost use Rattle.dispatch_core.specs.Offers.{IsGoodOffer};
    ghost use Rattle.dispatch_core.specs.Changes.{Reset, AgreesAfter};
    ghost use Rattle.dispatch_single.specs.InOrder.{Agrees};

    ghost serves = { is_in_order };

    ghost agrees = { Agrees };

    fn begin<V: View>(alloc: Global, _view: &V) -> Result<Self, Fault> {
        Ok(Single {
            waiting: WaitingPlaces::new(alloc),
            line: Line::new(),
        })
    }

    fn offer<V: View>(&self, view: &V) -> Option<Offer>
        ensures some { Agrees self.now (V.state view.now) (V.subscription view.now)
            → IfSome result (IsGoodOffer (V.state view.now) (V.subscription view.now)) }
        ensures none { Agrees self.now (V.state view.now) (V.subscription view.now)
            → IfNone result (NoneEligible (V.state view.now) (V.subscription view.now)) }
    {
        let active = self.line.active?;
        let member = view.member(active.place)?;
        if !member.room {
            return None;
        }
        let index = self.waiting.first(view)?;
        Some(Offer {
            index,
            consumer: member.consumer,
        })
    }

    fn on_append<V: View>(&mut self, _view: &V) -> Result<(), Fault> {
        Ok(())
    }

    fn undo_append<V: View>(&mut self, _view: &V) {}

    fn on_trim<V: View>(&mut self, view: &V, count: u64) {
        self.waiting.on_trim(view, count);
    }

    fn on_join<V: View>(&mut self, view: &V, _consumer: ConsumerNumber) -> Result<(), Fault> {
        self.line.join(view);
        Ok(())
    }

    fn on_leave<V: View>(&mut self, view: &V, consumer: ConsumerNumber) {
        self.line.leave(view, consumer);
    }

    fn on_sent<V: View>(
        &mut self,
        view: &V,
        index: LogIndex,
        _consumer: ConsumerNumber,
    ) -> Result<(), Fault> {
        match self.waiting.on_sent(view, index) {
            Ok(()) => Ok(()),
            Err(_) => Err(Fault::NoMemory),
        }
    }

    fn on_gone<V: View>(&mut self, view: &V, index: LogIndex) {
        self.waiting.on_gone(view, index);
    }

    fn on_released<V: View>(&mut self, view: &V, index: LogIndex) {
        self.waiting.on_released(view, index);
    }

    fn on_reset<V: View>(&mut self, _view: &V) -> Result<(), Fault>
        ensures ok { OnOk result (AgreesAfter Reset (Agrees self.old) (Agrees self.new) (V.state _view.now) (V.subscription _view.now)) }
        ensures never { IsOk result }
    {
        self.waiting.reset();
        Ok(())
    }

    ghost use Rattle.std.proofs.Common.{ap, subst, sym, ◌∙◌};
    ghost use Rattle.dispatch_single.specs.InOrder.{TellsLine};
    ghost use Rattle.dispatch_core.proofs.Telling.{tells-kept};

    ghost kept = { λ d s sub agreed t new change. record {
      kind = ap is_in_order change.kind ∙ agreed.kind;
      waiting = tells-kept d.waiting s sub t new agreed.waiting change;
      line = subst (TellsLine d.line) (sym change.line) agreed.line;
    } };
}
