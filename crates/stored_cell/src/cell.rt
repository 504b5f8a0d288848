// A topic with its journal and with what of it is stored.
ghost use Rattle.std.specs.Prelude.{◌≡◌, ◌↔◌, ◌⊎◌, ◌<◌, ◌≤◌, ◌+◌, ◌-◌, ◌||◌, [], ◌∷◌, ◌++◌, length, All, set, Err, None, Some, IfOk, IfErr, IfSome, OnErr, IsOk, IsTrue, true, false};
ghost use Rattle.std.specs.Option.{option_copied};
ghost use Rattle.position_core.specs.declared.fault.Fault.TheVariants.{NoMemory, JournalFull, NoRoom};
ghost use Rattle.delivery_machine.specs.State.{fresh};
ghost use Rattle.delivery_machine.specs.Laws.{IsReached};
ghost use Rattle.delivery_machine.specs.Run.{Step};
ghost use Rattle.delivery_machine.specs.Snapshot.{restarted};
ghost use Rattle.delivery_machine.specs.Places.{snapshot_in};
ghost use Rattle.delivery_machine.specs.Journals.{changes_snapshot, is_storing};
ghost use Rattle.topic_shared.specs.Lines.{line, Legal};
ghost use Rattle.topic_shared.specs.Kept.{IsVacant, KeepsSeats, needed_by, spoken_for, is_end};
ghost use Rattle.topic_shared.specs.Seats.{IsFree, without_seat};
ghost use Rattle.stored_cell.specs.Held.{IsAtRest, IsDurable};
ghost use Rattle.stored_cell.specs.Noted.{IsOfNow, IsOfView};

use crate::kept::Kept;
use crate::viewed::{Stored, Viewed, had_at};
use delivery_machine::{Event, Fault, Snapshot, Topic};
use marks::Naming;
use std::marker::Model;
use topic_shared::{Cell, Receipt};

/// A topic with its journal and with what of it is stored. Contracts see both. Unless a caller made
/// something durable by its own word, by a `Stored` or a `StoredTo` at a seat, all that is durable stands
/// in rows that were committed, and so does each dead letter that is safe to be moved. Some run of the delivery
/// machine comes to its state: what holds of every state that a run comes to holds of this one.
pub struct StoredCell<T: Topic, J: Naming> {
    pub(crate) cell: Cell<T>,
    pub(crate) stored: Option<Stored<J>>,
    pub(crate) outstanding: Option<Viewed<J>>,
    pub(crate) by_word: bool,
}

impl<T: Topic + Drop, J: Naming> Drop for StoredCell<T, J> {
    fn drop(self) {
        let StoredCell {
            cell: _,
            stored: _,
            outstanding: _,
            by_word: _,
        } = self;
    }
}

impl<T: Topic, J: Naming> Model for StoredCell<T, J> {
    ghost use Rattle.std.specs.Coded.{codes};
    ghost use Rattle.delivery_machine.specs.Codes.{coded_places, coded_positions, coded_pending, coded_counts};
    ghost use Rattle.stored_cell.specs.Held.{Held, IsSound};

    ghost Value = { Held };

    ghost coded = { Prim.hlevel (codes, coded_places, coded_positions, coded_pending, coded_counts) };

    ghost view = { λ c. record { cell = c.cell; stored = c.stored; outstanding = c.outstanding; by_word = c.by_word } };

    ghost invariant = { λ c. IsSound (record { cell = c.cell; stored = c.stored; outstanding = c.outstanding; by_word = c.by_word }) };
}

fn is_storing(event: &Event) -> bool
    ensures { result ≡ is_storing event.now }
{
    matches!(event, Event::Stored | Event::StoredTo { .. })
}

fn is_either(one: bool, other: bool) -> bool
    ensures { result ≡ (one || other) }
{
    one || other
}

impl<T: Topic + Drop, J: Naming> StoredCell<T, J> {
    /// Over a topic with nothing in it, of which nothing is stored.
    pub fn fresh(cell: Cell<T>) -> Self
        requires fresh { cell.state ≡ fresh cell.state.name cell.state.ledger_size }
        requires viewed { cell.viewed ≡ cell.state }
        ensures { result ≡ record { cell = cell; stored = None; outstanding = None; by_word = false } }
    {
        StoredCell {
            cell,
            stored: None,
            outstanding: None,
            by_word: false,
        }
    }

    /// Over a topic that goes on from the snapshot, which stands in rows.
    pub fn restarted(cell: Cell<T>, snapshot: &Snapshot, kept: Kept<J>) -> Self
        requires snapshot { kept.kept ≡ snapshot.now }
        requires viewed { cell.viewed ≡ cell.state }
        requires restarted { cell.state ≡ restarted (snapshot_in kept.kept) }
        ensures { result ≡ record { cell = cell; stored = Some kept; outstanding = None; by_word = false } }
    {
        StoredCell {
            cell,
            stored: Some(Stored::new(kept, had_at(snapshot))),
            outstanding: None,
            by_word: false,
        }
    }

    /// One event, as `Cell::call` has it. What a caller so makes durable is durable by its word alone.
    pub fn call(&mut self, seat: u64, event: Event) -> Result<Receipt, Fault>
        requires { 0 < seat }
        ensures line { IfOk result (λ r. self.new.cell.lines ≡ self.old.cell.lines ++ line seat event r.reply ∷ []) }
        ensures receipt { IfOk result (λ r. (r.number ≡ length self.old.cell.lines) × (r.seat ≡ seat)) }
        ensures step { IfOk result (λ r. Step self.old.cell.state event r.reply self.new.cell.state) }
        ensures same { KeepsSeats self.old.cell self.new.cell }
        ensures marks { IfOk result (λ r. self.new.cell.unsaved ≡ (self.old.cell.unsaved || changes_snapshot event r.reply)) }
        ensures stored { (self.new.stored ≡ self.old.stored) × (self.new.outstanding ≡ self.old.outstanding) }
        ensures word { IfOk result (λ _. self.new.by_word ≡ (self.old.by_word || is_storing event)) }
        ensures err { OnErr result (self.new ≡ self.old) }
        ensures faults { IfErr result (λ fault. (fault ≡ NoMemory) ⊎ (fault ≡ JournalFull)) }
        ensures full { (result ≡ Err JournalFull) ↔ self.old.cell.limit < spoken_for self.old.cell + needed_by self.old.cell event }
        ensures ends { is_end self.old.cell event ≡ true → IsOk result }
    {
        let says_stored = is_storing(&event);
        match self.cell.call(seat, event) {
            Ok(receipt) => {
                self.by_word = is_either(self.by_word, says_stored);
                Ok(receipt)
            }
            Err(fault) => Err(fault),
        }
    }

    /// Begins the journal anew, as `Cell::roll` does.
    pub fn roll(&mut self)
        ensures new { self.new ≡ record self.old { cell = record self.old.cell { opening = self.old.cell.state; lines = [] } } }
        ensures legal { Legal self.old.cell.opening self.old.cell.lines self.new.cell.opening }
    {
        self.cell.roll();
    }
}

impl<T: Topic, J: Naming> StoredCell<T, J> {
    /// The topic with its journal, to look at.
    pub fn cell(&self) -> &Cell<T>
        ensures { result.now ≡ self.now.cell }
    {
        &self.cell
    }

    /// What its type keeps: some run comes to the topic's state, so what the laws say of a state holds of it.
    pub fn reached(&self)
        ensures { IsReached self.now.cell.state }
    {
        let _ = &self.cell;
    }

    /// The snapshot that was confirmed last, with the rows that hold it. Where nothing is durable by a
    /// word alone, all that is durable is in it, and each letter that is safe to be moved; and where nothing is
    /// outstanding, it is that of the last view, or what the topic went on from. Where then nothing needs storing,
    /// it is the topic as it is, but for the ledger of one that was only opened.
    pub fn stored(&self) -> Option<&Kept<J>>
        ensures stored { option_copied result ≡ self.now.stored }
        ensures durable { IsDurable self.now }
        ensures view { self.now.by_word ≡ false → self.now.outstanding ≡ None → IfSome self.now.stored (λ n. IsOfView self.now.cell.viewed n.kept) }
        ensures now { self.now.by_word ≡ false → self.now.outstanding ≡ None → self.now.cell.unsaved ≡ false → IfSome self.now.stored (λ n. IsOfNow self.now.cell.state n.kept) }
    {
        let _ = self.cell.needs_storing();
        match &self.stored {
            Some(stored) => Some(stored.kept()),
            None => None,
        }
    }

    /// Whether the topic may be let go of: nobody is connected, and what is stored of it is the topic as it is, so that
    /// whatever is opened again from its rows goes on from there.
    pub fn is_at_rest(&self) -> bool
        ensures value { IsTrue result ↔ IsVacant self.now.cell.state × (self.now.by_word ≡ false) × (self.now.outstanding ≡ None) × (self.now.cell.unsaved ≡ false) }
        ensures rest { IsTrue result → IsAtRest self.now }
    {
        self.cell.is_vacant()
            && !self.by_word
            && self.outstanding.is_none()
            && !self.cell.needs_storing()
    }

    /// Something may be durable, or a letter safe, by a caller's word alone. So it stays until all that the topic has
    /// is confirmed.
    pub fn is_by_word(&self) -> bool
        ensures { result ≡ self.now.by_word }
    {
        self.by_word
    }

    /// Takes a free seat, by its number, from 1 on. Refused (F21) where all are taken.
    pub fn enter(&mut self) -> Result<u64, Fault>
        ensures ok { IfOk result (λ seat. IsFree self.old.cell.taken seat × (self.new ≡ record self.old { cell = record self.old.cell { taken = set self.old.cell.taken (seat - 1) true } })) }
        ensures err { OnErr result (self.new ≡ self.old) }
        ensures none { (result ≡ Err NoRoom) ↔ All (λ taken. taken ≡ true) self.old.cell.taken }
        ensures fault { IfErr result (λ fault. fault ≡ NoRoom) }
    {
        self.cell.enter()
    }

    /// Frees the seat. All stays where the seat is not taken.
    pub fn exit(&mut self, seat: u64)
        ensures { self.new ≡ record self.old { cell = record self.old.cell { taken = without_seat self.old.cell.taken seat } } }
    {
        self.cell.exit(seat);
    }
}
