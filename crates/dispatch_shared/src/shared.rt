// The dispatcher of the kind whose members are served in turn.
ghost use Rattle.std.specs.Prelude.{◌≡◌, [], ◌∷◌, ◌++◌, OnOk, OnErr, IfErr};
ghost use Rattle.position_core.specs.declared.fault.Fault.TheVariants.{NoMemory};

use crate::seat::Seat;
use crate::turn::next_in_turn;
use dispatch_core::{Dispatcher, Offer, View, WaitingPlaces};
use position_core::{ConsumerNumber, Fault, LogIndex};
use std::alloc::Global;
use std::marker::Model;

/// Offers the first waiting message to a member of the best level among those with room. Members
/// of one level take turns, by their numbers, which the law leaves free. It keeps which messages
/// wait, and the members' seats in line, so an offer goes over the seats once, and asks the view of the
/// messages once at most, and of those members alone that go before the best so far.
#[derive(Drop)]
pub struct Shared {
    waiting: WaitingPlaces,
    /// In the order of joining.
    seats: Vec<Seat>,
    /// The consumer that was sent a message last; 0 at first.
    last: u64,
}

impl Model for Shared {
    ghost use Rattle.std.specs.Prelude.{map};
    ghost use Rattle.dispatch_shared.specs.Turn.{Turns, turns_code};
    ghost use Rattle.dispatch_shared.specs.Seats.{seat_pair};

    ghost Value = { Turns };

    ghost coded = { turns_code };

    ghost view = { λ d. record { waiting = d.waiting; line = map seat_pair d.seats.items; last = d.last } };
}

impl Dispatcher for Shared {
    ghost use Rattle.std.specs.Prelude.{◌≡◌, [], IsOk, OnOk, OnErr, IfOk, IfErr, IfSome, IfNone};
    ghost use Rattle.position_core.specs.declared.fault.Fault.TheVariants.{NoMemory};
    ghost use Rattle.position_core.specs.Kind.{same_kind};
    ghost use Rattle.position_core.specs.declared.kind.Kind.TheVariants as kinds;
    ghost use Rattle.delivery_machine.specs.Words.{NoneEligible};
    ghost use Rattle.dispatch_core.specs.Offers.{IsGoodOffer};
    ghost use Rattle.dispatch_core.specs.Changes.{Joined, Left, Sent, Gone, Released, Reset, AgreesAfter};
    ghost use Rattle.dispatch_shared.specs.Turn.{Agrees, IsInTurn};

    ghost serves = { λ kind. same_kind kind kinds.Shared };

    ghost agrees = { Agrees };

    fn begin<V: View>(alloc: Global, _view: &V) -> Result<Self, Fault> {
        Ok(Shared {
            waiting: WaitingPlaces::new(alloc),
            seats: Vec::new(alloc),
            last: 0,
        })
    }

    fn offer<V: View>(&self, view: &V) -> Option<Offer>
        ensures some { Agrees self.now (V.state view.now) (V.subscription view.now)
            → IfSome result (IsGoodOffer (V.state view.now) (V.subscription view.now)) }
        ensures turn { Agrees self.now (V.state view.now) (V.subscription view.now)
            → IfSome result (IsInTurn self.now.last (V.state view.now) (V.subscription view.now)) }
        ensures none { Agrees self.now (V.state view.now) (V.subscription view.now)
            → IfNone result (NoneEligible (V.state view.now) (V.subscription view.now)) }
    {
        let index = self.waiting.first(view)?;
        let seen = next_in_turn(view, &self.seats, self.last)?;
        Some(Offer {
            index,
            consumer: seen.consumer,
        })
    }

    fn on_append<V: View>(&mut self, _view: &V) -> Result<(), Fault> {
        Ok(())
    }

    fn undo_append<V: View>(&mut self, _view: &V) {}

    fn on_trim<V: View>(&mut self, view: &V, count: u64) {
        self.waiting.on_trim(view, count);
    }

    fn on_join<V: View>(&mut self, view: &V, _consumer: ConsumerNumber) -> Result<(), Fault> {
        match view.member(self.seats.len() as u64) {
            Some(seen) => sit(&mut self.seats, Seat::of(&seen)),
            None => Ok(()),
        }
    }

    fn on_leave<V: View>(&mut self, _view: &V, consumer: ConsumerNumber) {
        self.seats.retain(|seat| seat.consumer != consumer);
    }

    fn on_sent<V: View>(
        &mut self,
        view: &V,
        index: LogIndex,
        consumer: ConsumerNumber,
    ) -> Result<(), Fault>
        ensures ok { OnOk result (AgreesAfter (Sent index consumer) (Agrees self.old) (Agrees self.new)
            (V.state view.now) (V.subscription view.now)) }
        ensures last { OnOk result (self.new.last ≡ consumer) }
        ensures err { IfErr result (λ fault. fault ≡ NoMemory) }
        ensures unchanged { OnErr result (self.new ≡ self.old) }
    {
        match self.waiting.on_sent(view, index) {
            Ok(()) => {
                self.last = consumer;
                Ok(())
            }
            Err(_) => Err(Fault::NoMemory),
        }
    }

    fn on_gone<V: View>(&mut self, view: &V, index: LogIndex) {
        self.waiting.on_gone(view, index);
    }

    fn on_released<V: View>(&mut self, view: &V, index: LogIndex) {
        self.waiting.on_released(view, index);
    }

    fn on_reset<V: View>(&mut self, _view: &V) -> Result<(), Fault>
        ensures ok { OnOk result (AgreesAfter Reset (Agrees self.old) (Agrees self.new) (V.state _view.now) (V.subscription _view.now)) }
        ensures never { IsOk result }
    {
        self.waiting.reset();
        Ok(())
    }

    ghost use Rattle.std.proofs.Common.{◌∙◌, sym};
    ghost use Rattle.dispatch_core.proofs.Telling.{tells-kept};

    ghost kept = { λ d s sub agreed t new change. record {
      kind = change.kind ∙ agreed.kind;
      waiting = tells-kept d.waiting s sub t new agreed.waiting change;
      line = agreed.line ∙ sym change.line;
    } };
}

/// A further seat, as the last in line.
fn sit(seats: &mut Vec<Seat>, seat: Seat) -> Result<(), Fault>
    ensures ok { OnOk result (seats.new.items ≡ seats.old.items ++ seat ∷ []) }
    ensures err { IfErr result (λ fault. fault ≡ NoMemory) }
    ensures unchanged { OnErr result (seats.new.items ≡ seats.old.items) }
{
    match seats.push(seat) {
        Ok(()) => Ok(()),
        Err(_) => Err(Fault::NoMemory),
    }
}
