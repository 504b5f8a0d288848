// What a topic's lock guards: the topic with what is stored of it, and the bells of those who sit at it.
ghost use Rattle.std.specs.Prelude.{◌≡◌, ◌≢◌, ◌-◌, ◌<◌, ◌≤◌, ◌⊎◌, ◌↔◌, IfOk, IfErr, IfSome, IsOk, IsSome, IsTrue, None, OnErr, Err, All, length, set, false, true};
ghost use Rattle.std.specs.String.{string_bytes};
ghost use Rattle.position_core.specs.TopicName.{topic_text};
ghost use Rattle.delivery_machine.specs.Journals.{is_storing};
ghost use Rattle.delivery_machine.specs.Places.{snapshot_in};
ghost use Rattle.delivery_machine.specs.Snapshot.{snapshot_of};
ghost use Rattle.topic_shared.specs.Kept.{is_end};
ghost use Rattle.stored_cell.specs.Held.{IsAtRest};
ghost use Rattle.topic_lives.specs.Deleting.{IsDeletable};
ghost use Rattle.broker_parts.specs.Ends.{entry_refusal, is_ending, refused_at};
ghost use Rattle.broker_dir.specs.Handing.{HandsOn};
ghost use Rattle.topic_shared.specs.Seats.{IsFree, without_seat};

use crate::named_cell::NamedCell;
use broker_parts::{Bulk, Hearers, Prepared, Stage, Wanted, is_ending};
use delivery_machine::{Event, Fault, Opened, Reply, Snapshot, TopicName};
use marks::Naming;
use row_store::OpenCell;
use session_bells::{Asked, Bell};
use std::alloc::Global;
use std::sync::{Arc, Wait};
use stored_cell::StoredCell;

mod storing;

/// By this number an event is asked for which nobody sits down: no seat has it.
const VISITOR: u64 = u64::MAX;

/// Whether the event calls something durable: only the store may do that, by its confirmation.
pub(crate) fn is_storing(event: &Event) -> bool
    ensures { result ≡ is_storing event.now }
{
    matches!(event, Event::Stored | Event::StoredTo { .. })
}

/// Whether the event may be put to the topic by one who says that it sits at the seat. Nobody sits at 0, and nobody at a seat
/// calls something durable.
fn may_ask(seat: u64, event: &Event) -> bool
    ensures seat { IsTrue result → 0 < seat }
    ensures not_storing { IsTrue result → is_storing event.now ≡ false }
{
    seat != 0 && !is_storing(event)
}

/// What a topic's lock guards.
pub(crate) struct Inside<T: Opened + Drop, J: Naming, B: Bell + Drop> {
    topic: NamedCell<T, J>,
    pub(crate) stage: Stage,
    pub(crate) hearers: Hearers<B>,
    pub(crate) wanted: Wanted,
    /// The number of its last use.
    pub(crate) used: u64,
    /// How many messages had gone when its journal last began anew for that.
    rolled_at: u64,
    /// How many bytes its messages have, where there is a most.
    pub(crate) bulk: Bulk,
}

impl<T: Opened + Drop, J: Naming, B: Bell + Drop> Drop for Inside<T, J, B> {
    fn drop(self) {
        let Inside {
            topic: _,
            stage: _,
            hearers: _,
            wanted: _,
            used: _,
            rolled_at: _,
            bulk: _,
        } = self;
    }
}

/// A topic that may leave, by the number of its last use: nobody is connected, and what is stored of it is the topic as it is.
/// Only the topic itself tells so.
#[derive(Drop)]
pub(crate) struct Rested {
    used: u64,
}

impl Rested {
    /// The number of its last use.
    pub(crate) fn used(&self) -> u64
        ensures { result ≡ self.now.used }
    {
        self.used
    }
}

/// A topic that was deleted, by the text of its name. Only the topic itself tells so, and then it may not be used any more.
#[derive(Drop)]
pub(crate) struct Gone {
    text: String,
}

impl Gone {
    /// The text of its name.
    pub(crate) fn text(&self) -> &str
        ensures { result.now ≡ string_bytes self.now.text }
    {
        self.text.as_str()
    }
}

impl<T: Opened + Drop, J: Naming, B: Bell + Drop> Inside<T, J, B> {
    /// Over a topic that was just opened: the courier is to look at each of its subscriptions in which letters lie.
    pub(crate) fn opened(alloc: Global, topic: OpenCell<T, J>) -> Result<Self, Fault>
        ensures ok { IfOk result (λ inside. (inside.topic.cell ≡ topic) × (inside.topic.name ≡ topic.cell.state.name)) }
        ensures open { IfOk result (λ inside. (inside.stage ≡ Stage.Open) × (inside.wanted.is_queued ≡ false) × (inside.wanted.is_behind ≡ false)) }
        ensures fault { IfErr result (λ fault. fault ≡ Fault.NoMemory) }
    {
        match NamedCell::opened(topic) {
            Ok((topic, snapshot)) => {
                let inside = Inside::knowing(alloc, topic, &snapshot);
                drop(snapshot);
                inside
            }
            Err(fault) => Err(fault),
        }
    }

    /// The snapshot is of the topic as it was opened.
    fn knowing(alloc: Global, topic: NamedCell<T, J>, snapshot: &Snapshot) -> Result<Self, Fault>
        ensures ok { IfOk result (λ inside. inside.topic ≡ topic) }
        ensures open { IfOk result (λ inside. (inside.stage ≡ Stage.Open) × (inside.wanted.is_queued ≡ false) × (inside.wanted.is_behind ≡ false)) }
        ensures fault { IfErr result (λ fault. fault ≡ Fault.NoMemory) }
    {
        let gone = snapshot.gone();
        let durable = gone.saturating_add(snapshot.log().count() as u64);
        match Hearers::opened(alloc, durable, snapshot.subscriptions()) {
            Ok(hearers) => Ok(Inside {
                topic,
                stage: Stage::Open,
                hearers,
                wanted: Wanted::new(),
                used: 0,
                rolled_at: gone,
                bulk: Bulk::new(alloc),
            }),
            Err(fault) => {
                drop(topic);
                Err(fault)
            }
        }
    }

    pub(crate) fn name(&self) -> &TopicName
        ensures { result.now ≡ self.now.topic.name }
    {
        self.topic.name()
    }

    /// The topic with what is stored of it, to look at.
    pub(crate) fn cell(&self) -> &StoredCell<T, J>
        ensures { result.now ≡ self.now.topic.cell }
    {
        self.topic.cell()
    }

    /// What the topic has now, to look at.
    pub(crate) fn view(&self) -> Result<Snapshot, Fault>
        ensures ok { IfOk result (λ kept. snapshot_in kept ≡ snapshot_of self.now.topic.cell.cell.state) }
        ensures fault { IfErr result (λ fault. fault ≡ Fault.NoMemory) }
    {
        self.topic.view()
    }

    /// Takes a free seat, and leaves the bell there. Refused (F15) where the journal is full, (F21) where no seat is free, and
    /// (F1) for want of memory, which leaves the seat free.
    pub(crate) fn enter(&mut self, bell: Arc<B>) -> Result<u64, Fault>
        ensures stage { IfSome (entry_refusal self.old.stage) (λ fault. result ≡ Err fault) }
        ensures ok { IfOk result (λ seat. IsFree self.old.topic.cell.cell.taken seat × (self.new.topic.cell ≡ record self.old.topic.cell { cell = record self.old.topic.cell.cell { taken = set self.old.topic.cell.cell.taken (seat - 1) true } })) }
        ensures full { self.old.stage ≡ Stage.Open → (result ≡ Err Fault.NoRoom) ↔ All (λ taken. taken ≡ true) self.old.topic.cell.cell.taken }
        ensures faults { IfErr result (λ fault. ((fault ≡ Fault.JournalFull) × (self.old.stage ≡ Stage.Leaving)) ⊎ (fault ≡ Fault.NoRoom) ⊎ (fault ≡ Fault.NoMemory)) }
        ensures refused { OnErr result (self.new.topic.cell ≡ self.old.topic.cell) }
        ensures name { self.new.topic.name ≡ self.old.topic.name }
        ensures others { (self.new.stage ≡ self.old.stage) × (self.new.wanted ≡ self.old.wanted) }
    {
        if let Some(fault) = self.stage.entry_refusal() {
            drop(bell);
            return Err(fault);
        }
        let seat = match self.topic.enter() {
            Ok(seat) => seat,
            Err(fault) => {
                drop(bell);
                return Err(fault);
            }
        };
        match self.hearers.bells.enter(seat, bell) {
            Ok(()) => Ok(seat),
            Err(_) => {
                self.topic.exit(seat);
                Err(Fault::NoMemory)
            }
        }
    }

    /// Nobody sits at the seat any more, and its bell is gone.
    pub(crate) fn exit<R: Wait>(&mut self, rt: &R, seat: u64)
        ensures cell { self.new.topic.cell ≡ record self.old.topic.cell { cell = record self.old.topic.cell.cell { taken = without_seat self.old.topic.cell.cell.taken seat } } }
        ensures free { 0 < seat → seat ≤ length self.old.topic.cell.cell.taken → IsFree self.new.topic.cell.cell.taken seat }
        ensures name { self.new.topic.name ≡ self.old.topic.name }
        ensures others { (self.new.stage ≡ self.old.stage) × (self.new.wanted ≡ self.old.wanted) }
    {
        self.topic.exit(seat);
        self.hearers.exit(rt, seat);
        self.bulk.exit(seat);
    }

    /// One event of the one at the seat. Those are rung to whom it leads. Refused before the topic hears of it where the topic
    /// may not be used, where nobody sits there, (F1) for want of memory, and where it would call something durable. A topic
    /// whose journal is full (F15) is to leave from then on.
    pub(crate) fn answer<R: Wait>(
        &mut self,
        rt: &R,
        seat: u64,
        asked: &Asked,
        event: Event,
    ) -> Result<Reply, Fault>
        ensures hands_on { HandsOn self.old.topic.cell.cell.state event result self.new.topic.cell.cell.state }
        ensures stage { IfSome (refused_at self.old.stage event) (λ fault. (result ≡ Err fault) × (self.new ≡ self.old)) }
        ensures leaves { result ≡ Err Fault.JournalFull → self.new.stage ≡ Stage.Leaving }
        ensures stays { result ≢ Err Fault.JournalFull → self.new.stage ≡ self.old.stage }
        ensures name { self.new.topic.name ≡ self.old.topic.name }
    {
        if let Some(fault) = self.stage.refused(&event) {
            drop(event);
            return Err(fault);
        }
        if !may_ask(seat, &event) {
            drop(event);
            return Err(Fault::NoSession);
        }
        match self.hearers.prepare(asked, &event) {
            Ok(prepared) => self.answer_with_room(rt, seat, asked, event, prepared),
            Err(fault) => {
                drop(event);
                Err(fault)
            }
        }
    }

    fn answer_with_room<R: Wait>(
        &mut self,
        rt: &R,
        seat: u64,
        asked: &Asked,
        event: Event,
        prepared: Prepared,
    ) -> Result<Reply, Fault>
        requires seat { 0 < seat }
        requires not_storing { is_storing event ≡ false }
        ensures hands_on { HandsOn self.old.topic.cell.cell.state event result self.new.topic.cell.cell.state }
        ensures ends { is_end self.old.topic.cell.cell event ≡ true → IsOk result }
        ensures faults { IfErr result (λ fault. (fault ≡ Fault.NoMemory) ⊎ (fault ≡ Fault.JournalFull)) }
        ensures leaves { result ≡ Err Fault.JournalFull → self.new.stage ≡ Stage.Leaving }
        ensures stays { result ≢ Err Fault.JournalFull → self.new.stage ≡ self.old.stage }
        ensures name { self.new.topic.name ≡ self.old.topic.name }
    {
        match self.topic.call(seat, event) {
            Ok(receipt) => {
                self.hearers
                    .answered(rt, seat, asked, prepared, &receipt.reply);
                self.roll_if_long();
                Ok(receipt.reply)
            }
            Err(fault) => {
                drop(prepared);
                self.refused(rt, seat, asked, fault);
                Err(fault)
            }
        }
    }

    /// The room is given back that one would have had who did not join. Where the journal is full the topic is to leave.
    fn refused<R: Wait>(&mut self, rt: &R, seat: u64, asked: &Asked, fault: Fault)
        ensures topic { self.new.topic ≡ self.old.topic }
        ensures leaves { fault ≡ Fault.JournalFull → self.new.stage ≡ Stage.Leaving }
        ensures stays { fault ≢ Fault.JournalFull → self.new.stage ≡ self.old.stage }
    {
        self.hearers.refused(rt, seat, asked, fault);
        if let Fault::JournalFull = fault {
            self.begin_to_leave(rt);
        }
    }

    /// All who sit there are rung, so that they learn that the topic is to leave.
    pub(crate) fn begin_to_leave<R: Wait>(&mut self, rt: &R)
        ensures topic { self.new.topic ≡ self.old.topic }
        ensures stage { self.new.stage ≡ Stage.Leaving }
    {
        self.stage = Stage::Leaving;
        self.hearers.bells.ring_all(rt);
    }

    /// Before the topic is viewed by the thread that stores: where its journal is full it is to leave. Whether it may be
    /// viewed; else it waits no longer to be stored.
    pub(crate) fn may_be_viewed<R: Wait>(&mut self, rt: &R) -> bool
        ensures topic { self.new.topic ≡ self.old.topic }
        ensures viewed { IsTrue result → (self.old.stage ≡ Stage.Open) × (self.new.stage ≡ Stage.Open) }
    {
        if self.stage == Stage::Open && self.topic.cell().cell().is_full() {
            self.begin_to_leave(rt);
        }
        let may = self.stage == Stage::Open;
        if !may {
            self.wanted.is_queued = false;
        }
        may
    }

    /// The topic's last use, where it may leave: nobody is connected, and what is stored of it is the topic as it is.
    pub(crate) fn rests_since(&self) -> Option<Rested>
        ensures rest { IsSome result → IsAtRest self.now.topic.cell }
        ensures used { IfSome result (λ rested. rested.used ≡ self.now.used) }
    {
        if self.topic.is_at_rest() {
            Some(Rested { used: self.used })
        } else {
            None
        }
    }

    /// Nothing is stored of the topic, nobody is connected, and there is nothing in it.
    pub(crate) fn is_blank(&self) -> bool
        ensures { result ≡ true → IsAtRest self.now.topic.cell × (self.now.topic.cell.stored ≡ None) }
    {
        self.topic.is_blank()
    }

    /// The topic's last use, where it is blank, and so may leave.
    pub(crate) fn rests_blank(&self) -> Option<Rested>
        ensures rest { IsSome result → IsAtRest self.now.topic.cell × (self.now.topic.cell.stored ≡ None) }
    {
        if self.is_blank() {
            Some(Rested { used: self.used })
        } else {
            None
        }
    }

    /// The topic, which might be deleted, was: it may not be used any more. The text is that of its name.
    pub(crate) fn end(&mut self, text: String) -> Gone
        requires text { string_bytes text ≡ topic_text self.old.topic.name }
        requires free { (self.old.stage ≡ Stage.Open) × IsDeletable self.old.topic.cell.cell.state }
        ensures gone { string_bytes result.text ≡ topic_text self.old.topic.name }
        ensures stage { self.new.stage ≡ Stage.Gone }
        ensures topic { self.new.topic ≡ self.old.topic }
    {
        self.stage = Stage::Gone;
        Gone { text }
    }

    /// One event of one who takes a free seat for it alone. An end needs none, so that nothing is left behind where all
    /// are taken: where it detaches one who is attached it is always answered.
    pub(crate) fn visit<R: Wait>(&mut self, rt: &R, event: Event) -> Result<Reply, Fault>
        ensures hands_on { HandsOn self.old.topic.cell.cell.state event result self.new.topic.cell.cell.state }
        ensures ends { is_end self.old.topic.cell.cell event ≡ true → IsOk result }
        ensures faults { is_ending event ≡ true → IfErr result (λ fault. (fault ≡ Fault.NoMemory) ⊎ (fault ≡ Fault.JournalFull)) }
        ensures name { self.new.topic.name ≡ self.old.topic.name }
    {
        if is_ending(&event) {
            let prepared = Prepared::end(&event);
            self.answer_with_room(rt, VISITOR, &Asked::Nothing, event, prepared)
        } else {
            self.visit_seated(rt, event)
        }
    }

    fn visit_seated<R: Wait>(&mut self, rt: &R, event: Event) -> Result<Reply, Fault>
        ensures hands_on { HandsOn self.old.topic.cell.cell.state event result self.new.topic.cell.cell.state }
        ensures name { self.new.topic.name ≡ self.old.topic.name }
    {
        match self.topic.enter() {
            Ok(seat) => {
                let answer = self.answer(rt, seat, &Asked::Nothing, event);
                self.topic.exit(seat);
                answer
            }
            Err(fault) => {
                drop(event);
                Err(fault)
            }
        }
    }

    /// One event of nobody who sits there. Nobody is rung.
    pub(crate) fn ask(&mut self, event: Event) -> Result<Reply, Fault>
        requires { is_storing event ≡ false }
        ensures hands_on { HandsOn self.old.topic.cell.cell.state event result self.new.topic.cell.cell.state }
        ensures ends { is_end self.old.topic.cell.cell event ≡ true → IsOk result }
        ensures name { self.new.topic.name ≡ self.old.topic.name }
        ensures stage { self.new.stage ≡ self.old.stage }
    {
        match self.topic.call(VISITOR, event) {
            Ok(receipt) => Ok(receipt.reply),
            Err(fault) => Err(fault),
        }
    }
}
