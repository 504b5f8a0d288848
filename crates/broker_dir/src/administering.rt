// What an administrator asks of a topic that is more than one event.
ghost use Rattle.std.specs.Prelude.{◌≡◌, ◌+◌, Err, Ok, IfOk, IfSome, IsOk, OnErr, Some, true};
ghost use Rattle.delivery_machine.specs.Places.{snapshot_in};
ghost use Rattle.delivery_machine.specs.Snapshot.{snapshot_of};
ghost use Rattle.session_links.specs.Creating.{MayCreate, is_leave};
ghost use Rattle.session_links.specs.Looking.{shown_of};
ghost use Rattle.session_links.specs.declared.looking.Look.{Look};
ghost use Rattle.broker_parts.specs.Ends.{refusal_at};
ghost use Rattle.broker_dir.specs.Answering.{IsMade, IsShown};
ghost use Rattle.broker_dir.specs.Handing.{HandsOn};

use crate::attached::Attached;
use crate::inside::{Inside, is_storing};
use crate::topic::Shared;
use broker_parts::{Board, Wants};
use delivery_machine::{Event, Fault, Opened, Reply, SubscriptionName, Target};
use marks::Naming;
use session_bells::Bell;
use session_links::{Hold, Look, PeekLength, create};
use std::alloc::Global;
use std::sync::{Arc, Wait};

/// What is shown of the subscription where the topic was looked at.
fn shown_of(
    alloc: Global,
    looked: Result<Look, Fault>,
    subscription: &SubscriptionName,
    count: PeekLength,
) -> Result<Reply, Fault>
    ensures { IfOk result (λ reply. (look : Look) × (looked ≡ Ok look) × (reply ≡ shown_of look.snapshot look.stored subscription.now count)) }
{
    match looked {
        Ok(look) => {
            let shown = look.next_of(alloc, subscription, count);
            drop(look);
            shown
        }
        Err(fault) => Err(fault),
    }
}

impl<T: Opened + Drop, J: Naming, B: Bell + Drop> Hold for Inside<T, J, B> {
    ghost use Rattle.std.proofs.Common.{inl};
    ghost use Rattle.broker_dir.specs.Handing.{HandsOn};

    ghost state = { λ i. i.topic.cell.cell.state };

    ghost answers = { HandsOn };

    /// To nobody who sits there. Nobody calls something durable so.
    fn hand(&mut self, event: Event) -> Result<Reply, Fault> {
        self.hand_event(event)
    }

    /// The journal begins anew: so there is room for a line, and none of it is taken.
    fn spare(&mut self) {
        self.begin_anew();
    }

    ghost hears = { λ s event reply t step. inl step };

    ghost refuses = { λ s event fault t same. same };
}

impl<T: Opened + Drop, J: Naming, B: Bell + Drop> Inside<T, J, B> {
    /// One event of nobody who sits there, by which a subscription may come or go. Nobody calls something durable so (F3).
    pub(crate) fn hand_event(&mut self, event: Event) -> Result<Reply, Fault>
        ensures hands_on { HandsOn self.old.topic.cell.cell.state event result self.new.topic.cell.cell.state }
        ensures leaves { is_leave self.old.topic.cell.cell.state event ≡ true → IsOk result }
        ensures name { self.new.topic.name ≡ self.old.topic.name }
        ensures stage { self.new.stage ≡ self.old.stage }
    {
        if is_storing(&event) {
            drop(event);
            return Err(Fault::NoSession);
        }
        let Ok(change) = self.hearers.graves.prepare(&event) else {
            drop(event);
            return Err(Fault::NoMemory);
        };
        match self.ask(event) {
            Ok(reply) => {
                self.hearers.graves.answered(change, &reply);
                Ok(reply)
            }
            Err(fault) => {
                drop(change);
                Err(fault)
            }
        }
    }

    /// Makes a subscription that goes on from the target. Where the journal is full the topic is to leave.
    fn create<R: Wait>(
        &mut self,
        rt: &R,
        subscription: &SubscriptionName,
        target: Target,
    ) -> Result<Reply, Fault>
        ensures refused { IfSome (refusal_at self.old.stage) (λ fault. (result ≡ Err fault) × (self.new ≡ self.old)) }
        ensures creates { refusal_at self.old.stage ≡ None → MayCreate HandsOn subscription.now target self.old.topic.cell.cell.state result self.new.topic.cell.cell.state }
    {
        if let Some(fault) = self.stage.refusal() {
            return Err(fault);
        }
        let answer = create(self, subscription, target);
        self.note_answer(rt, &answer);
        answer
    }

    /// Where the journal is full the topic is to leave, and where it is long it begins anew.
    fn note_answer<R: Wait>(&mut self, rt: &R, answer: &Result<Reply, Fault>)
        ensures { self.new.topic.cell.cell.state ≡ self.old.topic.cell.cell.state }
    {
        if let Err(Fault::JournalFull) = answer {
            self.begin_to_leave(rt);
        }
        self.roll_if_long();
    }

    /// What the topic keeps now, and how much of it is stored. It costs what a store does to view the topic: the messages are
    /// shared, and no step is taken for each.
    fn look(&mut self) -> Result<Look, Fault>
        ensures refused { IfSome (refusal_at self.old.stage) (λ fault. result ≡ Err fault) }
        ensures kept { IfOk result (λ look. snapshot_in look.snapshot ≡ snapshot_of self.old.topic.cell.cell.state) }
        ensures stored { IfOk result (λ look. look.stored ≡ self.old.topic.cell.cell.state.gone + self.old.topic.cell.cell.state.durable) }
        ensures state { self.new.topic.cell.cell.state ≡ self.old.topic.cell.cell.state }
    {
        if let Some(fault) = self.stage.refusal() {
            return Err(fault);
        }
        let stored = match self.durable() {
            Ok(stored) => stored,
            Err(fault) => return Err(fault),
        };
        let look = match self.view() {
            Ok(snapshot) => Ok(Look { snapshot, stored }),
            Err(fault) => Err(fault),
        };
        self.roll_if_long();
        look
    }
}

impl<T: Opened + Drop, J: Naming, B: Bell + Drop> Attached<T, J, B> {
    /// Makes a subscription, in one hold of the topic's lock.
    pub(crate) fn create<R: Wait>(
        &self,
        rt: &R,
        board: &Board<Arc<Shared<T, J, B>>>,
        subscription: SubscriptionName,
        target: Target,
    ) -> Result<Reply, Fault>
        ensures makes { IsMade T J B T.Topic T.Saved J.Naming subscription target result }
    {
        let mut inside = self.topic.inside.lock(rt);
        let answer = inside.create(rt, &subscription, target);
        let store = inside.wants_storing();
        drop(inside);
        drop(subscription);
        self.topic.signs.note_answer(&answer);
        let wants = Wants {
            store,
            thread: false,
        };
        board.grant(rt, &self.topic, wants);
        answer
    }

    /// Shows the next messages of the subscription. The topic's lock is held for the view alone, and not while they are looked
    /// for.
    pub(crate) fn peek<R: Wait>(
        &self,
        rt: &R,
        alloc: Global,
        subscription: SubscriptionName,
        count: PeekLength,
    ) -> Result<Reply, Fault>
        ensures shows { IfOk result (IsShown T J B T.Topic T.Saved J.Naming subscription count) }
    {
        let mut inside = self.topic.inside.lock(rt);
        let looked = inside.look();
        drop(inside);
        let shown = shown_of(alloc, looked, &subscription, count);
        drop(subscription);
        shown
    }

    /// The session that has the number is to end, and is rung, so that it learns that at once. Refused (F3) where nobody has it.
    pub(crate) fn disconnect<R: Wait>(&self, rt: &R, session: u64) -> Reply {
        let mut inside = self.topic.inside.lock(rt);
        if !inside.hearers.visitors.end(session) {
            return Reply::Refused(Fault::NoSession);
        }
        self.topic.signs.set_to_go(true);
        inside.hearers.bells.wake(rt, session);
        Reply::Done
    }

    /// Whether the client is at the broker's own machine.
    pub(crate) fn is_near<R: Wait>(&self, rt: &R) -> bool {
        let inside = self.topic.inside.lock(rt);
        match inside.hearers.visitors.at(self.seat) {
            Some(visitor) => visitor.is_near(),
            None => false,
        }
    }
}
