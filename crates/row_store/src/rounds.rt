// A round: a topic is viewed, stored and confirmed under one hold of its lock.
ghost use Rattle.std.specs.Prelude.{ℕ, ◌≡◌, ◌⊎◌, ◌↔◌, All, Some, is_none, true, false, length, IfOk, IfErr, OnOk, OnErr, Err, IsTrue, [], ◌∷◌};
ghost use Rattle.position_core.specs.declared.fault.Fault.TheVariants.{NoMemory, JournalFull, StoreFailed};
ghost use Rattle.delivery_machine.specs.Snapshot.{snapshot_of};
ghost use Rattle.delivery_machine.specs.Places.{snapshot_in};
ghost use Rattle.delivery_machine.specs.declared.event.Event.TheVariants.{Stored};
ghost use Rattle.topic_shared.specs.Kept.{HasNoLine, StoresLine, with_promise};
ghost use Rattle.sqlite.specs.State.{HasCleanDisk, Survives};
ghost use Rattle.sqlite.specs.Held.{state};
ghost use Rattle.stored_cell.specs.Noted.{Noted, GoesOn};
ghost use Rattle.stored_cell.specs.Held.{SameButPromise, bases_of};
ghost use Rattle.row_store.specs.Keeping.{StoresAll, StoresState, stored_in};
ghost use Rattle.row_store.specs.Unstored.{HasFailed, RoundFailed};

use crate::cause::Cause;
use crate::keeper::Keeper;
use crate::unstored::{Unmade, Unstored};
use delivery_machine::{Fault, Opened, Saved, Snapshot};
use marks::Naming;
use sqlite::Alter;
use std::alloc::Global;
use stored_cell::{Bases, Kept, Part, StoredCell};

/// A list of one part.
fn alone<J: Naming>(alloc: Global, part: Part<J>) -> Result<Vec<Part<J>>, Fault>
    ensures list { IfOk result (λ parts. parts.items ≡ part ∷ []) }
    ensures faults { IfErr result (λ fault. fault ≡ NoMemory) }
{
    match Vec::with_capacity(alloc, 1) {
        Ok(mut parts) => {
            parts.push_reserved(part);
            Ok(parts)
        }
        Err(_) => {
            drop(part);
            Err(Fault::NoMemory)
        }
    }
}

/// The one in a list of one.
fn only<J: Naming>(mut kept: Vec<Kept<J>>) -> Kept<J>
    requires { length kept.items ≡ 1 }
    ensures { kept.items ≡ result ∷ [] }
{
    match kept.pop() {
        Some(kept) => kept,
        None => unreachable!(),
    }
}

impl<S: Alter, J: Naming> Keeper<S, J> {
    /// The topic as it is, to be stored later with its lock free: `StoredCell::ready_view`, with a mark of
    /// this keeper's history.
    pub fn view<T: Opened + Drop>(&mut self, cell: &mut StoredCell<T, J>) -> Result<Part<J>, Fault>
        ensures keeper { self.new ≡ self.old }
        ensures part { IfOk result (λ part. (snapshot_in part.kept ≡ snapshot_of cell.old.cell.state) × (part.bases ≡ bases_of cell.old)) }
        ensures first { IfOk result (λ part. part.is_first ≡ is_none cell.old.stored) }
        ensures ok { IfOk result (λ part. cell.new ≡ record cell.old { cell = record (with_promise cell.old.cell) { viewed = cell.old.cell.state; unsaved = false }; outstanding = Some part.kept }) }
        ensures err { OnErr result (SameButPromise cell.old cell.new) }
        ensures full { (result ≡ Err JournalFull) ↔ HasNoLine cell.old.cell }
        ensures faults { IfErr result (λ fault. (fault ≡ NoMemory) ⊎ (fault ≡ JournalFull) ⊎ (fault ≡ StoreFailed)) }
    {
        let viewed = cell.ready_view(&mut self.notes);
        if let Err(Fault::StoreFailed) = &viewed {
            self.refusal = Some(Cause::NoMark);
        }
        viewed
    }

    /// The snapshot that the topic has now, under its mark.
    fn part_of<T: Opened + Drop>(&mut self, cell: &StoredCell<T, J>) -> Result<Part<J>, Fault>
        ensures keeper { self.new ≡ self.old }
        ensures first { IfOk result (λ part. part.is_first ≡ is_none cell.now.stored) }
        ensures part { IfOk result (λ part. (snapshot_in part.kept ≡ snapshot_of cell.now.cell.state) × (part.bases ≡ bases_of cell.now)) }
        ensures faults { IfErr result (λ fault. (fault ≡ NoMemory) ⊎ (fault ≡ StoreFailed)) }
    {
        match cell.view() {
            Ok(snapshot) => self.marked(snapshot, cell.bases(), cell.is_unstored()),
            Err(fault) => Err(fault),
        }
    }

    /// The snapshot under a mark of its own.
    fn marked(
        &mut self,
        snapshot: Snapshot,
        bases: Bases<J>,
        is_first: bool,
    ) -> Result<Part<J>, Fault>
        requires bases { All (λ base. GoesOn base snapshot) bases }
        ensures keeper { self.new ≡ self.old }
        ensures part { IfOk result (λ part. part ≡ record { kept = snapshot; bases = bases; is_first = is_first }) }
        ensures faults { IfErr result (λ fault. fault ≡ StoreFailed) }
    {
        match self.notes.view(&snapshot) {
            Some(mark) => Ok(Part::new(snapshot, mark, bases, is_first)),
            None => {
                drop(snapshot);
                drop(bases);
                self.refusal = Some(Cause::NoMark);
                Err(Fault::StoreFailed)
            }
        }
    }

    /// A store of one topic.
    fn store_one(&mut self, part: Part<J>) -> Result<Kept<J>, Unstored>
        ensures rows { HasCleanDisk (state S.Store self.new.conn) → OnOk result (StoresAll (part.kept ∷ []) (state S.Store self.old.conn).now.trees (state S.Store self.new.conn).now.trees) }
        ensures durable { HasCleanDisk (state S.Store self.new.conn) → OnOk result ((db : _) → (state S.Store self.new.conn).may_leave db → db ≡ (state S.Store self.new.conn).now.trees) }
        ensures kept { IfOk result (λ kept. kept ≡ stored_in (state S.Store self.new.conn) part.kept) }
        ensures crash { Survives (state S.Store self.old.conn) (state S.Store self.new.conn) (λ db. IsTrue (state S.Store self.old.conn).is_open × StoresAll (part.kept ∷ []) (state S.Store self.old.conn).now.trees db) }
        ensures ok { OnOk result (self.new.failed ≡ false) }
        ensures memory { result ≡ Err Unstored.NoMemory → self.new ≡ self.old }
        ensures stuck { HasFailed result → (self.new.failed ≡ true) ⊎ (self.new ≡ self.old) }
    {
        match alone(self.alloc, part) {
            Ok(parts) => match self.store(parts) {
                Ok(kept) => Ok(only(kept)),
                Err(why) => Err(why),
            },
            Err(_) => Err(Unstored::NoMemory),
        }
    }

    /// Makes the topic's rows those of the topic as it is, in one transaction, leaves all others, and makes
    /// all of it durable. How much is durable then. Refused (F15) where no line is left for it, (F1) for want
    /// of memory, with nothing changed; (F16) where the store failed, now or before. Whatever is refused, the
    /// topic stays.
    pub fn round<T: Opened + Drop>(&mut self, cell: &mut StoredCell<T, J>) -> Result<u64, Unmade>
        ensures rows { HasCleanDisk (state S.Store self.new.conn) → OnOk result (StoresState cell.old.cell.state (state S.Store self.old.conn).now.trees (state S.Store self.new.conn).now.trees) }
        ensures durable { HasCleanDisk (state S.Store self.new.conn) → OnOk result ((db : _) → (state S.Store self.new.conn).may_leave db → db ≡ (state S.Store self.new.conn).now.trees) }
        ensures crash { Survives (state S.Store self.old.conn) (state S.Store self.new.conn) (λ db. IsTrue (state S.Store self.old.conn).is_open × StoresState cell.old.cell.state (state S.Store self.old.conn).now.trees db) }
        ensures line { IfOk result (λ count. StoresLine (record (with_promise cell.old.cell) { viewed = cell.old.cell.state; unsaved = false }) Stored count cell.new.cell) }
        ensures proof { OnOk result ((n : Noted) × (cell.new.stored ≡ Some n) × (snapshot_in n.kept ≡ snapshot_of cell.old.cell.state) × (n ≡ stored_in (state S.Store self.new.conn) n.kept) × (cell.new.by_word ≡ false)) }
        ensures cell { OnErr result (SameButPromise cell.old cell.new) }
        ensures ok { OnOk result (self.new.failed ≡ false) }
        ensures failed { self.old.failed ≡ true → RoundFailed result × (self.new ≡ self.old) × (cell.new ≡ cell.old) }
        ensures stuck { RoundFailed result → (self.new.failed ≡ true) ⊎ (self.new ≡ self.old) }
        ensures keeper { (result ≡ Err (Unmade.Unstored Unstored.NoMemory)) ⊎ (result ≡ Err Unmade.JournalFull) → self.new ≡ self.old }
    {
        if self.failed {
            return Err(Unmade::Unstored(Unstored::failed()));
        }
        match cell.promise() {
            Ok(()) => {}
            Err(fault) => return Err(Unmade::of(fault)),
        }
        let part = match self.part_of(cell) {
            Ok(part) => part,
            Err(fault) => return Err(Unmade::of(fault)),
        };
        let count = part.length();
        match self.store_one(part) {
            Ok(kept) => Ok(cell.confirm_all(kept, count)),
            Err(why) => Err(Unmade::Unstored(why)),
        }
    }
}
