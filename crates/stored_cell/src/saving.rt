// A stored cell as what a keeper makes a round of, under one hold of its lock.
ghost use Rattle.std.specs.Prelude.{◌≡◌, ◌+◌, ◌⊎◌, ◌↔◌, All, IfErr, OnOk, OnErr, Err, None, Some, is_none, length, true, false};
ghost use Rattle.position_core.specs.declared.fault.Fault.TheVariants.{NoMemory, JournalFull};
ghost use Rattle.delivery_machine.specs.Snapshot.{snapshot_of};
ghost use Rattle.delivery_machine.specs.Places.{snapshot_in};
ghost use Rattle.delivery_machine.specs.declared.event.Event.TheVariants.{Stored};
ghost use Rattle.topic_shared.specs.Kept.{HasNoLine, StoresLine, with_promise};
ghost use Rattle.stored_cell.specs.Held.{IsBeginning, bases_of};

use crate::bases::Bases;
use crate::cell::StoredCell;
use crate::confirming::bases_of;
use crate::kept::Kept;
use crate::viewed::Stored as StoredAs;
use delivery_machine::{Fault, Opened, Reply, Saved, Snapshot};
use marks::Naming;

impl<T: Opened + Drop, J: Naming> Saved for StoredCell<T, J> {
    ghost use Rattle.stored_cell.specs.Held.{SameButPromise};

    ghost saved = { λ h. h.cell.state };

    ghost Same = { SameButPromise };

    ghost has_room = { λ h. h.cell.promised };

    fn ready(&mut self) -> Result<(), Fault> {
        self.cell.promise()
    }

    fn view(&self) -> Result<Snapshot, Fault> {
        self.cell.view()
    }

    fn stored(&mut self) -> Reply {
        Reply::Durable(self.store_all())
    }
}

impl<T: Opened + Drop, J: Naming> StoredCell<T, J> {
    /// The marks of what the topic goes on from: of the snapshot that was stored last, and of the one that was viewed
    /// since, where it was not confirmed.
    pub fn bases(&self) -> Bases<J>
        ensures value { result ≡ bases_of self.now }
        ensures begins { All (IsBeginning self.now.cell.state) result }
    {
        bases_of(&self.stored, &self.outstanding)
    }

    /// Whether no store of the topic was confirmed.
    pub fn is_unstored(&self) -> bool
        ensures { result ≡ is_none self.now.stored }
    {
        self.stored.is_none()
    }

    /// Keeps a line for what a round is about to make durable, as `Cell::promise` does.
    pub fn promise(&mut self) -> Result<(), Fault>
        ensures ok { OnOk result ((self.new ≡ record self.old { cell = with_promise self.old.cell }) × (self.new.cell.promised ≡ true)) }
        ensures err { OnErr result (self.new ≡ self.old) }
        ensures faults { IfErr result (λ fault. (fault ≡ NoMemory) ⊎ (fault ≡ JournalFull)) }
        ensures full { (result ≡ Err JournalFull) ↔ HasNoLine self.old.cell }
    {
        self.cell.promise()
    }

    /// The cell's own line of a store of all that the topic has.
    fn store_all(&mut self) -> u64
        requires { self.old.cell.promised ≡ true }
        ensures line { StoresLine (record self.old.cell { viewed = self.old.cell.state; unsaved = false }) Stored result self.new.cell }
        ensures stored { (self.new.stored ≡ self.old.stored) × (self.new.outstanding ≡ None) }
        ensures word { self.new.by_word ≡ true }
    {
        let durable = self.cell.store_all();
        self.by_word = true;
        self.outstanding = None;
        durable
    }

    /// Makes durable all that the topic has, since it stands in rows that were committed: a snapshot up to
    /// so many of all messages that the topic had. How much is durable then.
    pub fn confirm_all(&mut self, kept: Kept<J>, count: u64) -> u64
        requires promised { self.old.cell.promised ≡ true }
        requires now { snapshot_in kept.kept ≡ snapshot_of self.old.cell.state }
        requires count { count ≡ kept.kept.gone + length kept.kept.log }
        ensures line { StoresLine (record self.old.cell { viewed = self.old.cell.state; unsaved = false }) Stored result self.new.cell }
        ensures stored { (self.new.stored ≡ Some kept) × (self.new.outstanding ≡ None) }
        ensures word { self.new.by_word ≡ false }
    {
        let durable = self.cell.store_all();
        self.by_word = false;
        self.stored = Some(StoredAs::new(kept, count));
        self.outstanding = None;
        durable
    }
}
