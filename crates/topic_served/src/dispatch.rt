// A subscription's dispatcher, of whichever kind.
ghost use Rattle.std.specs.Prelude.{◌≡◌, ◌%◌, [], Some, None, IsOk, IfOk, IfErr, OnOk, OnErr, IfSome, IfNone, if◌then◌else◌};
ghost use Rattle.position_core.specs.declared.fault.Fault.TheVariants.{NoMemory};
ghost use Rattle.position_core.specs.Kind.{is_in_order};
ghost use Rattle.delivery_machine.specs.Shares.{no_shares};
ghost use Rattle.delivery_machine.specs.State.{State, Subscription};
ghost use Rattle.delivery_machine.specs.Words.{active_at, members_of, NoneEligible};
ghost use Rattle.dispatch_core.specs.Offers.{IsGoodOffer};
ghost use Rattle.dispatch_core.specs.Changes.{Appended, TakenBack, Trimmed, Joined, Left, Sent, Gone, Released, Reset, AgreesAfter, WillAgree};
ghost use Rattle.topic_served.specs.Agreeing.{agrees, AsksForFree};

use dispatch_core::{Dispatcher, Offer, View};
use dispatch_keyed::Keyed;
use dispatch_shared::Shared;
use dispatch_single::Single;
use position_core::{ConsumerNumber, Fault, Kind, LogIndex, Ranges};
use std::alloc::Global;

/// The dispatcher of a subscription, by its kind.
pub enum Dispatch {
    /// Exclusive and Failover.
    InOrder(Single),
    /// Shared.
    InTurn(Shared),
    /// Key_Shared.
    ByKey(Keyed),
}

impl Drop for Dispatch {
    fn drop(self) {
        match self {
            Dispatch::InOrder(_) | Dispatch::InTurn(_) | Dispatch::ByKey(_) => {}
        }
    }
}

impl Dispatch {
    /// For a subscription of the kind, without members.
    pub fn begin<V: View>(alloc: Global, view: &V, kind: Kind) -> Result<Self, Fault>
        requires kind { kind ≡ (V.subscription view.now).kind }
        requires empty { members_of (V.state view.now) (V.subscription view.now).name ≡ [] }
        requires unshared { (V.subscription view.now).shares ≡ no_shares }
        ensures ok { IfOk result (λ d. agrees d (V.state view.now) (V.subscription view.now)) }
        ensures err { IfErr result (λ fault. fault ≡ NoMemory) }
    {
        match kind {
            Kind::Exclusive | Kind::Failover => match Single::begin(alloc, view) {
                Ok(d) => Ok(Dispatch::InOrder(d)),
                Err(fault) => Err(fault),
            },
            Kind::Shared => match Shared::begin(alloc, view) {
                Ok(d) => Ok(Dispatch::InTurn(d)),
                Err(fault) => Err(fault),
            },
            Kind::KeyShared => match Keyed::begin(alloc, view) {
                Ok(d) => Ok(Dispatch::ByKey(d)),
                Err(fault) => Err(fault),
            },
        }
    }

    /// Reads the messages that came since the last offer, where the kind keeps tables of them. Where
    /// there is no memory it has read some of them.
    pub fn look<V: View>(&mut self, view: &V) -> Result<(), Fault>
        ensures agrees { agrees self.old (V.state view.now) (V.subscription view.now) → agrees self.new (V.state view.now) (V.subscription view.now) }
        ensures err { IfErr result (λ fault. fault ≡ NoMemory) }
    {
        match self {
            Dispatch::InOrder(_) | Dispatch::InTurn(_) => Ok(()),
            Dispatch::ByKey(d) => d.look(view),
        }
    }

    /// A message and a member that it may be sent to. None where there is no such pair.
    pub fn offer<V: View>(&self, view: &V) -> Option<Offer>
        requires { agrees self.now (V.state view.now) (V.subscription view.now) }
        ensures some { IfSome result (IsGoodOffer (V.state view.now) (V.subscription view.now)) }
        ensures none { IfNone result (NoneEligible (V.state view.now) (V.subscription view.now)) }
    {
        match self {
            Dispatch::InOrder(d) => d.offer(view),
            Dispatch::InTurn(d) => d.offer(view),
            Dispatch::ByKey(d) => d.offer(view),
        }
    }

    /// The number of the active member, which the kinds in order keep. None of the others.
    pub fn active(&self) -> Option<ConsumerNumber>
        ensures { (s : State) (sub : Subscription) → agrees self.now s sub → result ≡ if is_in_order sub.kind then active_at s sub.name else None }
    {
        match self {
            Dispatch::InOrder(d) => d.active(),
            Dispatch::InTurn(_) | Dispatch::ByKey(_) => None,
        }
    }

    /// A message was appended.
    pub fn on_append<V: View>(&mut self, view: &V) -> Result<(), Fault>
        ensures ok { OnOk result (AgreesAfter Appended (agrees self.old) (agrees self.new)
            (V.state view.now) (V.subscription view.now)) }
        ensures err { IfErr result (λ fault. fault ≡ NoMemory) }
        ensures unchanged { OnErr result (self.new ≡ self.old) }
    {
        match self {
            Dispatch::InOrder(d) => d.on_append(view),
            Dispatch::InTurn(d) => d.on_append(view),
            Dispatch::ByKey(d) => d.on_append(view),
        }
    }

    /// The last message of the log, which nobody has seen, is about to be taken back.
    pub fn undo_append<V: View>(&mut self, view: &V)
        ensures { WillAgree TakenBack (agrees self.old) (agrees self.new)
            (V.state view.now) (V.subscription view.now) }
    {
        match self {
            Dispatch::InOrder(d) => d.undo_append(view),
            Dispatch::InTurn(d) => d.undo_append(view),
            Dispatch::ByKey(d) => d.undo_append(view),
        }
    }

    /// The first messages of the log went, so many, which all had done with: whole sixty-fours. The view
    /// shows the log without them. No memory is taken. The kinds in order and Shared take a step for each
    /// 64 messages that were read. Key_Shared looks at the row of one hash for each message that went, and
    /// at the chunks of 256 hashes: it goes over those in which a hash has a message that may be sent.
    pub fn on_trim<V: View>(&mut self, view: &V, count: u64)
        requires { count % 64 ≡ 0 }
        ensures { AgreesAfter (Trimmed count) (agrees self.old) (agrees self.new)
            (V.state view.now) (V.subscription view.now) }
    {
        match self {
            Dispatch::InOrder(d) => d.on_trim(view, count),
            Dispatch::InTurn(d) => d.on_trim(view, count),
            Dispatch::ByKey(d) => d.on_trim(view, count),
        }
    }

    /// The consumer joined, and in Key_Shared may have said which hashes it takes.
    pub fn on_join<V: View>(
        &mut self,
        view: &V,
        consumer: ConsumerNumber,
        ranges: &Option<Ranges>,
    ) -> Result<(), Fault>
        requires free { AsksForFree self.old ranges.now }
        ensures ok { OnOk result (AgreesAfter (Joined ranges.now consumer) (agrees self.old) (agrees self.new)
            (V.state view.now) (V.subscription view.now)) }
        ensures err { IfErr result (λ fault. fault ≡ NoMemory) }
        ensures unchanged { OnErr result (self.new ≡ self.old) }
    {
        match self {
            Dispatch::InOrder(d) => d.on_join(view, consumer),
            Dispatch::InTurn(d) => d.on_join(view, consumer),
            Dispatch::ByKey(d) => match ranges {
                Some(ranges) => d.on_join_sticky(view, consumer, ranges),
                None => d.on_join(view, consumer),
            },
        }
    }

    /// The consumer left.
    pub fn on_leave<V: View>(&mut self, view: &V, consumer: ConsumerNumber)
        ensures { AgreesAfter (Left consumer) (agrees self.old) (agrees self.new)
            (V.state view.now) (V.subscription view.now) }
    {
        match self {
            Dispatch::InOrder(d) => d.on_leave(view, consumer),
            Dispatch::InTurn(d) => d.on_leave(view, consumer),
            Dispatch::ByKey(d) => d.on_leave(view, consumer),
        }
    }

    /// The message was sent to the consumer.
    pub fn on_sent<V: View>(
        &mut self,
        view: &V,
        index: LogIndex,
        consumer: ConsumerNumber,
    ) -> Result<(), Fault>
        ensures ok { OnOk result (AgreesAfter (Sent index consumer) (agrees self.old) (agrees self.new)
            (V.state view.now) (V.subscription view.now)) }
        ensures err { IfErr result (λ fault. fault ≡ NoMemory) }
        ensures unchanged { OnErr result (self.new ≡ self.old) }
    {
        match self {
            Dispatch::InOrder(d) => d.on_sent(view, index, consumer),
            Dispatch::InTurn(d) => d.on_sent(view, index, consumer),
            Dispatch::ByKey(d) => d.on_sent(view, index, consumer),
        }
    }

    /// The message was acknowledged, or died.
    pub fn on_gone<V: View>(&mut self, view: &V, index: LogIndex)
        ensures { AgreesAfter (Gone index) (agrees self.old) (agrees self.new)
            (V.state view.now) (V.subscription view.now) }
    {
        match self {
            Dispatch::InOrder(d) => d.on_gone(view, index),
            Dispatch::InTurn(d) => d.on_gone(view, index),
            Dispatch::ByKey(d) => d.on_gone(view, index),
        }
    }

    /// The message was pending, and waits again.
    pub fn on_released<V: View>(&mut self, view: &V, index: LogIndex)
        ensures { AgreesAfter (Released index) (agrees self.old) (agrees self.new)
            (V.state view.now) (V.subscription view.now) }
    {
        match self {
            Dispatch::InOrder(d) => d.on_released(view, index),
            Dispatch::InTurn(d) => d.on_released(view, index),
            Dispatch::ByKey(d) => d.on_released(view, index),
        }
    }

    /// Nothing is pending any more, and other messages wait.
    pub fn on_reset<V: View>(&mut self, view: &V) -> Result<(), Fault>
        ensures never { IsOk result }
        ensures ok { OnOk result (AgreesAfter Reset (agrees self.old) (agrees self.new)
            (V.state view.now) (V.subscription view.now)) }
        ensures err { IfErr result (λ fault. fault ≡ NoMemory) }
        ensures unchanged { OnErr result (self.new ≡ self.old) }
    {
        match self {
            Dispatch::InOrder(d) => d.on_reset(view),
            Dispatch::InTurn(d) => d.on_reset(view),
            Dispatch::ByKey(d) => d.on_reset(view),
        }
    }

    /// As `on_reset`: none of the kinds takes memory for it.
    pub fn reset<V: View>(&mut self, view: &V)
        ensures { AgreesAfter Reset (agrees self.old) (agrees self.new) (V.state view.now) (V.subscription view.now) }
    {
        match self.on_reset(view) {
            Ok(()) => (),
            Err(_) => unreachable!(),
        }
    }
}
