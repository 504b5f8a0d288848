// A topic with its journal.
ghost use Rattle.std.specs.Prelude.{◌≡◌, ◌↔◌, ◌⊎◌, ◌<◌, ◌≤◌, ◌+◌, ◌-◌, ◌||◌, [], ◌∷◌, ◌++◌, length, vec_len, vec_capacity, replicate, set, All, IfOk, IfErr, OnErr, IfSome, IfNone, IsOk, IsTrue, IsFalse, true, false, Err};
ghost use Rattle.position_core.specs.declared.fault.Fault.TheVariants.{NoMemory, JournalFull, NoRoom};
ghost use Rattle.delivery_machine.specs.Run.{Step};
ghost use Rattle.delivery_machine.specs.Snapshot.{snapshot_of};
ghost use Rattle.delivery_machine.specs.Journals.{changes_snapshot, producers_noted, consumers_noted};
ghost use Rattle.topic_shared.specs.Lines.{line, Legal};
ghost use Rattle.topic_shared.specs.Short.{is_long, is_long_reply};
ghost use Rattle.topic_shared.specs.Kept.{Kept, KeepsSeats, Leads, is_settled, needed_by, kept_lines, spoken_for, is_end, IsVacant};
ghost use Rattle.topic_shared.specs.Attached.{attaches};
ghost use Rattle.topic_shared.specs.Seats.{IsFree, without_seat};

use crate::answering::{Answered, answer_drafted, marked};
use crate::journal::Journal;
use crate::limits::{LineLimit, SeatCount};
use crate::line::{Draft, Line};
use crate::receipt::Receipt;
use crate::room::{make_room, needs, note_consumer, note_producer};
use crate::seats::{enter, exit, free_seats};
use delivery_machine::{ConsumerNumber, Event, Fault, ProducerNumber, Reply, Retention, Topic};
use std::alloc::Global;
use std::marker::Model;
use std::snapshot::Snapshot;

/// Writes the draft's line into room that is there.
pub(crate) fn write(lines: &mut Vec<Line>, seat: u64, draft: Draft, reply: Reply)
    requires room { vec_len lines.old < vec_capacity lines.old }
    requires fits { is_long draft ≡ false → is_long_reply reply ≡ false }
    ensures line { lines.new.items ≡ lines.old.items ++ line seat draft reply ∷ [] }
    ensures capacity { vec_capacity lines.new ≡ vec_capacity lines.old }
{
    lines.push_reserved(draft.into_line(seat, reply));
}

/// Notes who is attached then, writes the line into room that is there, and makes the caller's receipt.
fn note(
    lines: &mut Vec<Line>,
    producers: &mut Vec<ProducerNumber>,
    consumers: &mut Vec<ConsumerNumber>,
    seat: u64,
    answered: Answered,
) -> Receipt
    requires room { vec_len lines.old < vec_capacity lines.old }
    requires producers { attaches answered.reply ≡ true → vec_len producers.old < vec_capacity producers.old }
    requires consumers { attaches answered.reply ≡ true → vec_len consumers.old < vec_capacity consumers.old }
    requires fits { is_long answered.draft ≡ false → is_long_reply answered.reply ≡ false }
    ensures line { lines.new.items ≡ lines.old.items ++ line seat answered.draft answered.reply ∷ [] }
    ensures capacity { vec_capacity lines.new ≡ vec_capacity lines.old }
    ensures producers { producers.new.items ≡ producers_noted producers.old.items answered.draft answered.reply }
    ensures consumers { consumers.new.items ≡ consumers_noted consumers.old.items answered.draft answered.reply }
    ensures receipt { (result.number ≡ length lines.old.items) × (result.seat ≡ seat) × (result.reply ≡ answered.twin) }
{
    let Answered { draft, reply, twin } = answered;
    let number = lines.len() as u64;
    note_producer(producers, draft.event(), &reply);
    note_consumer(consumers, draft.event(), &reply);
    write(lines, seat, draft, reply);
    Receipt {
        number,
        seat,
        reply: twin,
    }
}

/// A topic with the journal of its calls, which leads from the opening state to the topic's. It knows where it began, before
/// any roll of the journal.
pub struct Cell<T: Topic> {
    pub(crate) alloc: Global,
    pub(crate) topic: T,
    began: Snapshot<T>,
    opening: Snapshot<T>,
    viewed: Snapshot<T>,
    pub(crate) lines: Vec<Line>,
    producers: Vec<ProducerNumber>,
    consumers: Vec<ConsumerNumber>,
    limit: LineLimit,
    taken: Vec<bool>,
    pub(crate) own_line: bool,
    pub(crate) promised: bool,
    unsaved: bool,
}

impl<T: Topic + Drop> Drop for Cell<T> {
    fn drop(self) {
        let Cell {
            alloc: _,
            topic: _,
            began: _,
            opening: _,
            viewed: _,
            lines: _,
            producers: _,
            consumers: _,
            limit: _,
            taken: _,
            own_line: _,
            promised: _,
            unsaved: _,
        } = self;
    }
}

impl<T: Topic> Model for Cell<T> {
    ghost use Rattle.std.specs.Prelude.{vec_capacity};
    ghost use Rattle.topic_shared.specs.Kept.{Kept, IsKept};

    ghost Value = { Kept };

    ghost use Rattle.std.specs.Coded.{codes};
    ghost use Rattle.delivery_machine.specs.Codes.{coded_positions, coded_pending, coded_counts};

    ghost coded = { Prim.hlevel (codes, coded_positions, coded_pending, coded_counts) };

    ghost view = { λ c. record { began = T.state c.began.value; opening = T.state c.opening.value; state = T.state c.topic; viewed = T.state c.viewed.value; lines = c.lines.items; limit = c.limit; taken = c.taken.items; own_line = c.own_line; promised = c.promised; unsaved = c.unsaved } };

    ghost invariant = { λ c. IsKept (record { began = T.state c.began.value; opening = T.state c.opening.value; state = T.state c.topic; viewed = T.state c.viewed.value; lines = c.lines.items; limit = c.limit; taken = c.taken.items; own_line = c.own_line; promised = c.promised; unsaved = c.unsaved }) c.producers.items c.consumers.items (vec_capacity c.lines) };
}

impl<T: Topic + Drop> Cell<T> {
    /// A cell over a topic where nobody is attached, with its own line kept. All seats are free.
    pub fn new(alloc: Global, base: T, limit: LineLimit, seats: SeatCount) -> Result<Cell<T>, Fault>
        requires nobody { ((T.state base).producers ≡ []) × ((T.state base).members ≡ []) }
        ensures ok { IfOk result (λ c. c ≡ record { began = T.state base; opening = T.state base; state = T.state base; viewed = T.state base; lines = []; limit = limit; taken = replicate seats false; own_line = true; promised = false; unsaved = false }) }
        ensures err { IfErr result (λ fault. fault ≡ NoMemory) }
    {
        let Ok(lines) = Vec::with_capacity(alloc, 1) else {
            return Err(Fault::NoMemory);
        };
        let taken = match free_seats(alloc, seats) {
            Ok(taken) => taken,
            Err(fault) => return Err(fault),
        };
        let began = Snapshot::of(&base);
        let opening = Snapshot::of(&base);
        let viewed = Snapshot::of(&base);
        Ok(Cell {
            alloc,
            topic: base,
            began,
            opening,
            viewed,
            lines,
            producers: Vec::new(alloc),
            consumers: Vec::new(alloc),
            limit,
            taken,
            own_line: true,
            promised: false,
            unsaved: false,
        })
    }

    /// One event. Beside what it is answered, the caller learns where its line stands. Where the
    /// journal has no room for its lines, that is the refusal; else want of memory is one.
    pub fn call(&mut self, seat: u64, event: Event) -> Result<Receipt, Fault>
        requires { 0 < seat }
        ensures line { IfOk result (λ r. self.new.lines ≡ self.old.lines ++ line seat event r.reply ∷ []) }
        ensures receipt { IfOk result (λ r. (r.number ≡ length self.old.lines) × (r.seat ≡ seat)) }
        ensures step { IfOk result (λ r. Step self.old.state event r.reply self.new.state) }
        ensures same { KeepsSeats self.old self.new }
        ensures marks { IfOk result (λ r. self.new.unsaved ≡ (self.old.unsaved || changes_snapshot event r.reply)) }
        ensures within { length self.new.lines ≤ 16777216 }
        ensures err { OnErr result (self.new ≡ self.old) }
        ensures faults { IfErr result (λ fault. (fault ≡ NoMemory) ⊎ (fault ≡ JournalFull)) }
        ensures full { (result ≡ Err JournalFull) ↔ self.old.limit < spoken_for self.old + needed_by self.old event }
        ensures ends { is_end self.old event ≡ true → IsOk result }
    {
        match self.room_for(&event) {
            Some(needed) => self.call_within(seat, event, needed),
            None => {
                drop(event);
                Err(Fault::JournalFull)
            }
        }
    }

    /// One event that needs so many lines, for which the journal has room. Only want of memory is a refusal.
    fn call_within(&mut self, seat: u64, event: Event, needed: u64) -> Result<Receipt, Fault>
        requires seat { 0 < seat }
        requires needed { (needed ≡ needed_by self.old event) × (spoken_for self.old + needed ≤ self.old.limit) }
        requires few { needed ≤ 2 }
        requires limit { self.old.limit ≤ 16777216 }
        ensures line { IfOk result (λ r. self.new.lines ≡ self.old.lines ++ line seat event r.reply ∷ []) }
        ensures receipt { IfOk result (λ r. (r.number ≡ length self.old.lines) × (r.seat ≡ seat)) }
        ensures step { IfOk result (λ r. Step self.old.state event r.reply self.new.state) }
        ensures same { KeepsSeats self.old self.new }
        ensures marks { IfOk result (λ r. self.new.unsaved ≡ (self.old.unsaved || changes_snapshot event r.reply)) }
        ensures within { length self.new.lines ≤ 16777216 }
        ensures err { OnErr result (self.new ≡ self.old) }
        ensures fault { IfErr result (λ fault. fault ≡ NoMemory) }
        ensures ends { is_end self.old event ≡ true → IsOk result }
    {
        let kept = self.kept_lines();
        match make_room(
            &mut self.lines,
            &mut self.producers,
            &mut self.consumers,
            kept,
            needed,
        ) {
            Ok(()) => {}
            Err(fault) => {
                drop(event);
                return Err(fault);
            }
        }
        match answer_drafted(self.alloc, &mut self.topic, event) {
            Ok(answered) => {
                self.unsaved = marked(self.unsaved, answered.draft.event(), &answered.reply);
                Ok(note(
                    &mut self.lines,
                    &mut self.producers,
                    &mut self.consumers,
                    seat,
                    answered,
                ))
            }
            Err(fault) => Err(fault),
        }
    }

    /// Begins the journal anew, from where the topic is. Takes no memory: the room of the lines is
    /// used again.
    pub fn roll(&mut self)
        ensures new { self.new ≡ record self.old { opening = self.old.state; lines = [] } }
        ensures legal { Legal self.old.opening self.old.lines self.new.opening }
    {
        self.opening = Snapshot::of(&self.topic);
        self.lines.clear();
    }

    /// The journal, which leads from the opening state to the topic's.
    pub fn into_journal(self) -> Journal
        ensures lines { result ≡ self.lines }
        ensures legal { Legal self.opening self.lines self.state }
    {
        let Cell {
            alloc: _,
            topic: _,
            began: _,
            opening: _,
            viewed: _,
            lines,
            producers: _,
            consumers: _,
            limit: _,
            taken: _,
            own_line: _,
            promised: _,
            unsaved: _,
        } = self;
        Journal::new(lines)
    }

    /// A snapshot of the topic is taken now, under this hold of the lock.
    pub fn view_taken(&mut self)
        ensures { self.new ≡ record self.old { viewed = self.old.state; unsaved = false } }
    {
        self.viewed = Snapshot::of(&self.topic);
        self.unsaved = false;
    }
}

impl<T: Topic> Cell<T> {
    /// A full journal has no line left beyond those that are kept.
    pub fn is_full(&self) -> bool
        ensures { IsTrue result ↔ self.now.limit ≤ spoken_for self.now }
    {
        self.spoken_for() >= self.limit.get() as u64
    }

    pub(crate) fn kept_lines(&self) -> u64
        ensures value { result ≡ kept_lines self.now }
        ensures within { result ≤ self.now.limit }
    {
        self.producers.len() as u64
            + self.consumers.len() as u64
            + u64::from(self.own_line)
            + u64::from(self.promised)
    }

    pub(crate) fn spoken_for(&self) -> u64
        ensures value { result ≡ spoken_for self.now }
        ensures within { result ≤ self.now.limit }
    {
        self.lines.len() as u64 + self.kept_lines()
    }

    /// The lines that the event needs beside those that are written and kept. None where the journal
    /// has no room for them.
    fn room_for(&self, event: &Event) -> Option<u64>
        ensures some { IfSome result (λ needed. (needed ≡ needed_by self.now event.now) × (spoken_for self.now + needed ≤ self.now.limit)) }
        ensures few { IfSome result (λ needed. needed ≤ 2) }
        ensures limit { self.now.limit ≤ 16777216 }
        ensures none { IfNone result (self.now.limit < spoken_for self.now + needed_by self.now event.now) }
        ensures stays { IfNone result (is_end self.now event.now ≡ false) }
        ensures within { length self.now.lines ≤ 16777216 }
    {
        let needed = needs(self.producers.as_slice(), self.consumers.as_slice(), event);
        if (self.limit.get() as u64) - self.spoken_for() < needed {
            None
        } else {
            Some(needed)
        }
    }

    pub(crate) fn as_slice(&self) -> &[Line]
        ensures { result.now ≡ self.now.lines }
    {
        self.lines.as_slice()
    }

    /// How many lines the journal has.
    pub fn lines(&self) -> u64
        ensures { result ≡ length self.now.lines }
    {
        self.lines.len() as u64
    }

    /// Whether no producer and no consumer is connected.
    pub fn is_vacant(&self) -> bool
        ensures { IsTrue result ↔ IsVacant self.now.state }
    {
        self.producers.is_empty() && self.consumers.is_empty()
    }

    /// The journal has no line, or its last one is the cell's own.
    pub fn is_settled(&self) -> bool
        ensures { result ≡ is_settled self.now.lines }
    {
        match self.lines.as_slice().last() {
            Some(line) => line.seat() == 0,
            None => true,
        }
    }

    /// However often the journal began anew, events alone lead from where the cell began to where the topic is.
    pub fn leads(&self)
        ensures { Leads self.now.began self.now.state }
    {
        let _ = &self.lines;
    }

    /// A snapshot may be another than when one was last taken. Where it is false, it is the same.
    pub fn needs_storing(&self) -> bool
        ensures value { result ≡ self.now.unsaved }
        ensures same { IsFalse result → snapshot_of self.now.state ≡ snapshot_of self.now.viewed }
    {
        self.unsaved
    }

    /// The topic's own rule of what is kept, where it has one.
    pub fn retention(&self) -> Option<Retention>
        ensures { result ≡ self.now.state.retention }
    {
        self.topic.retention()
    }

    /// The topic itself, to be looked at.
    pub fn topic(&self) -> &T
        ensures { T.state result.now ≡ self.now.state }
    {
        &self.topic
    }

    /// Takes a free seat, by its number, from 1 on. Refused (F21) where all are taken.
    pub fn enter(&mut self) -> Result<u64, Fault>
        ensures ok { IfOk result (λ seat. IsFree self.old.taken seat × (self.new ≡ record self.old { taken = set self.old.taken (seat - 1) true })) }
        ensures err { OnErr result (self.new ≡ self.old) }
        ensures none { (result ≡ Err NoRoom) ↔ All (λ taken. taken ≡ true) self.old.taken }
        ensures fault { IfErr result (λ fault. fault ≡ NoRoom) }
    {
        enter(&mut self.taken)
    }

    /// Frees the seat. All stays where the seat is not taken.
    pub fn exit(&mut self, seat: u64)
        ensures { self.new ≡ record self.old { taken = without_seat self.old.taken seat } }
    {
        exit(&mut self.taken, seat);
    }
}
