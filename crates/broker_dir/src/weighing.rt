// How many bytes a topic's messages may have together: a publish that is too much is refused before the topic hears of it.
ghost use Rattle.std.specs.Prelude.{◌≡◌, ◌≢◌, ◌⊎◌, Err, IfErr, IfOk, IfSome, IsOk, None, Ok, OnOk, false, map, sum, true};
ghost use Rattle.std.specs.Option.{IsSomeAnd};
ghost use Rattle.topic_shared.specs.Kept.{is_end};
ghost use Rattle.broker_parts.specs.Bulks.{entry_size, is_too_much, weight_of};
ghost use Rattle.broker_parts.specs.Ends.{is_ending, refused_at};
ghost use Rattle.broker_dir.specs.Handing.{HandsOn};

use crate::inside::Inside;
use broker_parts::{Stage, Weight, is_ending};
use delivery_machine::{Event, Fault, Opened, Reply};
use marks::Naming;
use session_bells::{Asked, Bell};
use std::sync::Wait;

impl<T: Opened + Drop, J: Naming, B: Bell + Drop> Inside<T, J, B> {
    /// One event of the one at the seat, as `answer` has it. Where the messages may have so many bytes together, one that is
    /// too much is refused (F4) before the topic hears of it, unless it is a duplicate; and what cannot be counted is (F1).
    pub(crate) fn answer_within<R: Wait>(
        &mut self,
        rt: &R,
        most: Option<u64>,
        seat: u64,
        asked: &Asked,
        event: Event,
    ) -> Result<Reply, Fault>
        ensures hands_on { HandsOn self.old.topic.cell.cell.state event result self.new.topic.cell.cell.state }
        ensures stage { IfSome (refused_at self.old.stage event) (λ fault. (result ≡ Err fault) × (self.new ≡ self.old)) }
        ensures leaves { result ≡ Err Fault.JournalFull → self.new.stage ≡ Stage.Leaving }
        ensures stays { result ≢ Err Fault.JournalFull → self.new.stage ≡ self.old.stage }
        ensures name { self.new.topic.name ≡ self.old.topic.name }
    {
        match self.weigh(most, seat, &event) {
            Ok(weight) => {
                let answer = self.answer(rt, seat, asked, event);
                self.note_weight(seat, weight, &answer);
                answer
            }
            Err(fault) => {
                drop(event);
                Err(fault)
            }
        }
    }

    /// What the event brings, where that is counted: there is room for it then, and it is not too much.
    fn weigh(&mut self, most: Option<u64>, seat: u64, event: &Event) -> Result<Weight, Fault>
        ensures full { result ≡ Err Fault.TopicFull → IsSomeAnd most (λ most. is_too_much most (sum self.new.bulk.sizes.items) self.new.bulk.lasts.seats.items seat (weight_of event.now) ≡ true) }
        ensures fits { IsOk result → self.old.stage ≡ Stage.Open → IfSome most (λ most. is_too_much most (sum self.new.bulk.sizes.items) self.new.bulk.lasts.seats.items seat (weight_of event.now) ≡ false) }
        ensures weight { IfOk result (λ weight. (weight ≡ Weight.Nothing) ⊎ (weight ≡ weight_of event.now)) }
        ensures faults { IfErr result (λ fault. (fault ≡ Fault.TopicFull) ⊎ (fault ≡ Fault.NoMemory)) }
        ensures shut { self.old.stage ≢ Stage.Open → (result ≡ Ok Weight.Nothing) × (self.new ≡ self.old) }
        ensures unlimited { most ≡ None → (result ≡ Ok Weight.Nothing) × (self.new ≡ self.old) }
        ensures topic { self.new.topic ≡ self.old.topic }
        ensures others { (self.new.stage ≡ self.old.stage) × (self.new.wanted ≡ self.old.wanted) }
    {
        if self.stage != Stage::Open {
            return Ok(Weight::Nothing);
        }
        match most {
            Some(most) => self.weigh_against(most, seat, Weight::of(event)),
            None => Ok(Weight::Nothing),
        }
    }

    fn weigh_against(&mut self, most: u64, seat: u64, weight: Weight) -> Result<Weight, Fault>
        ensures full { result ≡ Err Fault.TopicFull → is_too_much most (sum self.new.bulk.sizes.items) self.new.bulk.lasts.seats.items seat weight ≡ true }
        ensures fits { IsOk result → is_too_much most (sum self.new.bulk.sizes.items) self.new.bulk.lasts.seats.items seat weight ≡ false }
        ensures weight { IfOk result (λ counted. counted ≡ weight) }
        ensures faults { IfErr result (λ fault. (fault ≡ Fault.TopicFull) ⊎ (fault ≡ Fault.NoMemory)) }
        ensures topic { self.new.topic ≡ self.old.topic }
        ensures others { (self.new.stage ≡ self.old.stage) × (self.new.wanted ≡ self.old.wanted) }
    {
        if weight == Weight::Nothing {
            return Ok(weight);
        }
        match self.make_room(seat) {
            Ok(()) => if self.bulk.refuses(most, seat, weight) {
                self.hearers.tallies.note_refusal();
                Err(Fault::TopicFull)
            } else {
                Ok(weight)
            },
            Err(fault) => Err(fault),
        }
    }

    /// The messages are counted, and there is room for one more of the one at the seat.
    fn make_room(&mut self, seat: u64) -> Result<(), Fault>
        ensures counted { OnOk result (self.new.bulk.is_counted ≡ true) }
        ensures fault { IfErr result (λ fault. fault ≡ Fault.NoMemory) }
        ensures topic { self.new.topic ≡ self.old.topic }
        ensures others { (self.new.stage ≡ self.old.stage) × (self.new.wanted ≡ self.old.wanted) }
    {
        match self.count() {
            Ok(()) => self.bulk.prepare(seat),
            Err(fault) => Err(fault),
        }
    }

    /// The messages are counted, where they were not yet.
    fn count(&mut self) -> Result<(), Fault>
        ensures counted { OnOk result (self.new.bulk.is_counted ≡ true) }
        ensures sizes { OnOk result (self.old.bulk.is_counted ≡ false → self.new.bulk.sizes.items ≡ map entry_size self.old.topic.cell.cell.state.log) }
        ensures gone { OnOk result (self.old.bulk.is_counted ≡ false → self.new.bulk.gone ≡ self.old.topic.cell.cell.state.gone) }
        ensures fault { IfErr result (λ fault. fault ≡ Fault.NoMemory) }
        ensures topic { self.new.topic ≡ self.old.topic }
        ensures others { (self.new.stage ≡ self.old.stage) × (self.new.wanted ≡ self.old.wanted) }
    {
        if self.bulk.is_counted() {
            return Ok(());
        }
        match self.view() {
            Ok(snapshot) => {
                let counted = self.bulk.count(&snapshot);
                drop(snapshot);
                counted
            }
            Err(fault) => Err(fault),
        }
    }

    /// What was brought was answered so to the one at the seat.
    fn note_weight(&mut self, seat: u64, weight: Weight, answer: &Result<Reply, Fault>)
        ensures refused { IfErr answer.now (λ fault. self.new ≡ self.old) }
        ensures topic { self.new.topic ≡ self.old.topic }
        ensures others { (self.new.stage ≡ self.old.stage) × (self.new.wanted ≡ self.old.wanted) }
    {
        if let Ok(reply) = answer
            && weight != Weight::Nothing
        {
            self.bulk.note(seat, weight, reply);
        }
    }

    /// One event of one who takes a free seat for it alone, as `visit` has it. What they bring is never too much, but it
    /// counts: refused (F1) where there is no room for that.
    pub(crate) fn visit_counted<R: Wait>(&mut self, rt: &R, event: Event) -> Result<Reply, Fault>
        ensures hands_on { HandsOn self.old.topic.cell.cell.state event result self.new.topic.cell.cell.state }
        ensures ends { is_end self.old.topic.cell.cell event ≡ true → IsOk result }
        ensures faults { is_ending event ≡ true → IfErr result (λ fault. (fault ≡ Fault.NoMemory) ⊎ (fault ≡ Fault.JournalFull)) }
        ensures name { self.new.topic.name ≡ self.old.topic.name }
    {
        if !self.bulk.is_counted() || is_ending(&event) {
            return self.visit(rt, event);
        }
        let weight = Weight::of(&event);
        match self.bulk.prepare_message() {
            Ok(()) => {
                let answer = self.visit(rt, event);
                self.note_visit(weight, &answer);
                answer
            }
            Err(fault) => {
                drop(event);
                Err(fault)
            }
        }
    }

    fn note_visit(&mut self, weight: Weight, answer: &Result<Reply, Fault>)
        ensures topic { self.new.topic ≡ self.old.topic }
        ensures others { (self.new.stage ≡ self.old.stage) × (self.new.wanted ≡ self.old.wanted) }
    {
        if let Ok(reply) = answer {
            self.bulk.note_message(weight, reply);
        }
    }
}
