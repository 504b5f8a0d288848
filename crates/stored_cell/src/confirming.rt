// The three steps of a store, as a topic takes part in them: it is viewed, and later what was stored is confirmed.
ghost use Rattle.std.specs.Prelude.{ℕ, ◌≡◌, ◌+◌, ◌++◌, ◌⊎◌, ◌≤◌, ◌↔◌, Err, None, Some, IfOk, IfErr, IfSome, OnOk, OnErr, IsTrue, IsFalse, is_none, length, false, true};
ghost use Rattle.position_core.specs.declared.fault.Fault.TheVariants.{NoMemory, JournalFull, StoreFailed};
ghost use Rattle.delivery_machine.specs.Snapshot.{snapshot_of};
ghost use Rattle.delivery_machine.specs.Places.{snapshot_in};
ghost use Rattle.delivery_machine.specs.declared.event.Event.TheVariants.{StoredTo};
ghost use Rattle.topic_shared.specs.Kept.{HasNoLine, StoresLine, with_promise};
ghost use Rattle.stored_cell.specs.Held.{SameButPromise, bases_of, outstanding_in};
ghost use Rattle.stored_cell.specs.Noted.{marked};

use crate::bases::Bases;
use crate::cell::StoredCell;
use crate::kept::Kept;
use crate::notes::{Note, Notes};
use crate::part::Part;
use crate::viewed::{Stored, Viewed};
use delivery_machine::{Fault, Opened, Saved};
use marks::{Mark, Naming};

/// The mark of the snapshot that was stored last.
fn base_of<J: Naming>(stored: &Option<Stored<J>>) -> Option<Mark<Note, J>>
    ensures { marked result ≡ marked stored.now }
{
    match stored {
        Some(stored) => Some(stored.kept().mark()),
        None => None,
    }
}

/// The mark of the snapshot that was viewed last, where it was not confirmed.
fn outstanding_of<J: Naming>(outstanding: &Option<Viewed<J>>) -> Option<Mark<Note, J>>
    ensures { marked result ≡ outstanding_in outstanding.now }
{
    match outstanding {
        Some(viewed) => Some(viewed.mark().again()),
        None => None,
    }
}

/// The marks of what the topic goes on from.
pub(crate) fn bases_of<J: Naming>(
    stored: &Option<Stored<J>>,
    outstanding: &Option<Viewed<J>>,
) -> Bases<J>
    ensures { result ≡ marked stored.now ++ outstanding_in outstanding.now }
{
    let base = base_of(stored);
    Bases::new(base, outstanding_of(outstanding))
}

impl<T: Opened + Drop, J: Naming> StoredCell<T, J> {
    /// The topic as it is, to be stored. A line is kept for its confirmation, whatever is asked meanwhile;
    /// an earlier view that was not confirmed is none any more, but that the part goes on from it too. Refused (F15)
    /// where not even the last line is left, (F16) where 2^62 marks were drawn, or for want of memory.
    pub fn ready_view(&mut self, notes: &mut Notes<J>) -> Result<Part<J>, Fault>
        ensures part { IfOk result (λ part. (snapshot_in part.kept ≡ snapshot_of self.old.cell.state) × (part.bases ≡ bases_of self.old)) }
        ensures first { IfOk result (λ part. part.is_first ≡ is_none self.old.stored) }
        ensures ok { IfOk result (λ part. self.new ≡ record self.old { cell = record (with_promise self.old.cell) { viewed = self.old.cell.state; unsaved = false }; outstanding = Some part.kept }) }
        ensures err { OnErr result (SameButPromise self.old self.new) }
        ensures full { (result ≡ Err JournalFull) ↔ HasNoLine self.old.cell }
        ensures faults { IfErr result (λ fault. (fault ≡ NoMemory) ⊎ (fault ≡ JournalFull) ⊎ (fault ≡ StoreFailed)) }
    {
        match self.cell.promise() {
            Ok(()) => {}
            Err(fault) => return Err(fault),
        }
        let snapshot = match self.cell.view() {
            Ok(snapshot) => snapshot,
            Err(fault) => return Err(fault),
        };
        let Some(mark) = notes.view(&snapshot) else {
            drop(snapshot);
            return Err(Fault::StoreFailed);
        };
        let bases = bases_of(&self.stored, &self.outstanding);
        let is_first = self.stored.is_none();
        self.cell.view_taken();
        self.outstanding = Some(Viewed::new(&snapshot, mark.again()));
        Ok(Part::new(snapshot, mark, bases, is_first))
    }

    /// Makes durable what was stored, if it is what was viewed last: the store holds its messages and its
    /// deaths, whatever was trimmed since. Whether it was. What a caller's word made durable is so by that word still.
    pub fn confirm(&mut self, kept: Kept<J>) -> bool
        ensures nothing { IsFalse result → self.new ≡ self.old }
        ensures outstanding { IsTrue result → self.old.outstanding ≡ Some kept.kept }
        ensures stored { IsTrue result → (self.new.stored ≡ Some kept) × (self.new.outstanding ≡ None) }
        ensures line { IsTrue result → (count : ℕ) × StoresLine self.old.cell (StoredTo (kept.kept.gone + length kept.kept.log) kept.kept.next_ordinal) count self.new.cell }
        ensures word { self.new.by_word ≡ self.old.by_word }
        ensures durable { self.old.cell.state.durable ≤ self.new.cell.state.durable }
    {
        let Some(viewed) = &self.outstanding else {
            drop(kept);
            return false;
        };
        if !kept.is(viewed.mark()) {
            drop(kept);
            return false;
        }
        let length = viewed.length();
        let ordinal = viewed.ordinal();
        self.cell.confirm(length, ordinal);
        self.stored = Some(Stored::new(kept, length));
        self.outstanding = None;
        true
    }
}
