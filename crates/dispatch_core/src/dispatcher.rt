// What every dispatcher keeps.
ghost use Rattle.std.specs.Prelude.{◌≡◌, ◌%◌, [], Bool, None, IsTrue, IfOk, IfErr, OnOk, OnErr, IfSome, IfNone};
ghost use Rattle.position_core.specs.declared.fault.Fault.TheVariants.{NoMemory};
ghost use Rattle.position_core.specs.declared.kind.Kind.{Kind};
ghost use Rattle.delivery_machine.specs.Shares.{no_shares};
ghost use Rattle.delivery_machine.specs.State.{State, Subscription};
ghost use Rattle.delivery_machine.specs.Words.{members_of, NoneEligible};
ghost use Rattle.dispatch_core.specs.Offers.{IsGoodOffer};
ghost use Rattle.dispatch_core.specs.Changes.{Appended, TakenBack, Trimmed, Joined, Left, Sent, Gone, Released, Reset, Kept, AgreesAfter, WillAgree};

use crate::view::View;
use position_core::{ConsumerNumber, Fault, LogIndex};
use std::alloc::Global;

/// A message, by its index, and a consumer that it may be sent to.
#[derive(Clone, Copy, Debug, PartialEq, Eq)]
pub struct Offer {
    pub index: LogIndex,
    pub consumer: ConsumerNumber,
}

/// Says for one subscription which message may be sent to whom next. It may keep tables of its own,
/// as a read index or marks, which agree with the topic.
///
/// A topic begins one for a subscription without members, and anew where the first member brings
/// another kind. It makes a change and then tells the dispatcher, whose view shows the topic after
/// the change; only `undo_append` is called before. What is pending at a member is released before
/// the member leaves. Where a call finds no memory the dispatcher is as it was, and the topic takes
/// its change back. What is stored, and the room that members gain or lose, need not be told.
pub trait Dispatcher {
    /// The kinds of subscription that it is for.
    ghost serves: { Kind → Bool };

    /// Its tables agree with the topic and the subscription.
    ghost agrees: { Self → State → Subscription → Type 0 };

    /// A dispatcher for a subscription without members.
    fn begin<V: View>(alloc: Global, view: &V) -> Result<Self, Fault>
        requires kind { IsTrue (serves (V.subscription view.now).kind) }
        requires empty { members_of (V.state view.now) (V.subscription view.now).name ≡ [] }
        requires unshared { (V.subscription view.now).shares ≡ no_shares }
        ensures ok { IfOk result (λ d. agrees d (V.state view.now) (V.subscription view.now)) }
        ensures err { IfErr result (λ fault. fault ≡ NoMemory) };

    /// A message and a member that it may be sent to. None where there is no such pair.
    fn offer<V: View>(&self, view: &V) -> Option<Offer>
        requires { agrees self.now (V.state view.now) (V.subscription view.now) }
        ensures some { IfSome result (IsGoodOffer (V.state view.now) (V.subscription view.now)) }
        ensures none { IfNone result (NoneEligible (V.state view.now) (V.subscription view.now)) };

    /// A message was appended.
    fn on_append<V: View>(&mut self, view: &V) -> Result<(), Fault>
        ensures ok { OnOk result (AgreesAfter Appended (agrees self.old) (agrees self.new)
            (V.state view.now) (V.subscription view.now)) }
        ensures err { IfErr result (λ fault. fault ≡ NoMemory) }
        ensures unchanged { OnErr result (self.new ≡ self.old) };

    /// The last message of the log, which nobody has seen, is about to be taken back.
    fn undo_append<V: View>(&mut self, view: &V)
        ensures { WillAgree TakenBack (agrees self.old) (agrees self.new)
            (V.state view.now) (V.subscription view.now) };

    /// The first messages of the log went, so many, which all had done with: whole sixty-fours.
    fn on_trim<V: View>(&mut self, view: &V, count: u64)
        requires { count % 64 ≡ 0 }
        ensures { AgreesAfter (Trimmed count) (agrees self.old) (agrees self.new)
            (V.state view.now) (V.subscription view.now) };

    /// The consumer joined, and did not say which hashes it takes.
    fn on_join<V: View>(&mut self, view: &V, consumer: ConsumerNumber) -> Result<(), Fault>
        ensures ok { OnOk result (AgreesAfter (Joined None consumer) (agrees self.old) (agrees self.new)
            (V.state view.now) (V.subscription view.now)) }
        ensures err { IfErr result (λ fault. fault ≡ NoMemory) }
        ensures unchanged { OnErr result (self.new ≡ self.old) };

    /// The consumer left.
    fn on_leave<V: View>(&mut self, view: &V, consumer: ConsumerNumber)
        ensures { AgreesAfter (Left consumer) (agrees self.old) (agrees self.new)
            (V.state view.now) (V.subscription view.now) };

    /// The message was sent to the consumer.
    fn on_sent<V: View>(
        &mut self,
        view: &V,
        index: LogIndex,
        consumer: ConsumerNumber,
    ) -> Result<(), Fault>
        ensures ok { OnOk result (AgreesAfter (Sent index consumer) (agrees self.old) (agrees self.new)
            (V.state view.now) (V.subscription view.now)) }
        ensures err { IfErr result (λ fault. fault ≡ NoMemory) }
        ensures unchanged { OnErr result (self.new ≡ self.old) };

    /// The message was acknowledged, or died.
    fn on_gone<V: View>(&mut self, view: &V, index: LogIndex)
        ensures { AgreesAfter (Gone index) (agrees self.old) (agrees self.new)
            (V.state view.now) (V.subscription view.now) };

    /// The message was pending, and waits again.
    fn on_released<V: View>(&mut self, view: &V, index: LogIndex)
        ensures { AgreesAfter (Released index) (agrees self.old) (agrees self.new)
            (V.state view.now) (V.subscription view.now) };

    /// Nothing is pending any more, and other messages wait.
    fn on_reset<V: View>(&mut self, view: &V) -> Result<(), Fault>
        ensures ok { OnOk result (AgreesAfter Reset (agrees self.old) (agrees self.new)
            (V.state view.now) (V.subscription view.now)) }
        ensures err { IfErr result (λ fault. fault ≡ NoMemory) }
        ensures unchanged { OnErr result (self.new ≡ self.old) };

    /// What need not be told leaves the tables right.
    ghost kept: { (d : Self) (s : State) (sub : Subscription) → WillAgree Kept (agrees d) (agrees d) s sub };
}
