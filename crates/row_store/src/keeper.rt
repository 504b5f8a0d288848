// The keeper, and a store of several snapshots in one transaction.
ghost use Rattle.std.specs.Prelude.{◌≡◌, ◌⊎◌, All, map, true, false, is_some, IfOk, IsSome, OnOk, OnErr, Err, IsTrue};
ghost use Rattle.sqlite.specs.State.{HasCleanDisk, Survives};
ghost use Rattle.sqlite.specs.Held.{state};
ghost use Rattle.row_tables.specs.Ready.{IsReady};
ghost use Rattle.row_store.specs.Counting.{Counts};
ghost use Rattle.row_store.specs.Begun.{IsUnread};
ghost use Rattle.row_store.specs.Keeping.{GoesForward, IsSettled, LeavesOne, StoresAll, kepts, known_after, known_without, stored_in};
ghost use Rattle.row_store.specs.Unstored.{HasFailed};

use crate::cause::Cause;
use crate::finding::Reading;
use crate::knowing::{forget, forget_topic, keep_all, marks_of, reads_one_of, remember};
use crate::known::Known;
use crate::planning::plan_all;
use crate::unstored::Unstored;
use crate::written::Written;
use marks::Naming;
use position_core::TopicName;
use row_rounds::{room_for, save};
use sqlite::{Alter, Connection};
use std::alloc::Global;
use std::marker::Model;
use stored_cell::{Kept, Notes, Part};

/// Keeps topics as rows of a database. After a store that failed it answers F16 until the database is
/// adopted again, and says why. Contracts see its connection, and whether it failed.
pub struct Keeper<S: Alter, J: Naming> {
    pub(crate) alloc: Global,
    pub(crate) conn: Connection<S>,
    pub(crate) failed: bool,
    pub(crate) known: Vec<Known<J>>,
    /// The topic that is loaded by pieces.
    pub(crate) reading: Option<Reading>,
    pub(crate) notes: Notes<J>,
    pub(crate) scratch: String,
    pub(crate) written: Written,
    /// Why it failed.
    pub(crate) cause: Option<Cause>,
    /// Why a call was refused by F16 that changed nothing, the last of them.
    pub(crate) refusal: Option<Cause>,
    /// The topic whose rows were none, the last of them.
    pub(crate) spoilt: Option<String>,
}

impl<S: Alter + Drop, J: Naming> Drop for Keeper<S, J> {
    fn drop(self) {
        let Keeper {
            alloc: _,
            conn: _,
            failed: _,
            known: _,
            reading: _,
            notes: _,
            scratch: _,
            written: _,
            cause: _,
            refusal: _,
            spoilt: _,
        } = self;
    }
}

impl<S: Alter, J: Naming> Model for Keeper<S, J> {
    ghost use Rattle.std.specs.Prelude.{◌≡◌, is_some, option_map};
    ghost use Rattle.sqlite.specs.Held.{held_code};
    ghost use Rattle.std.specs.Coded.{codes};
    ghost use Rattle.delivery_machine.specs.Codes.{coded_places, coded_counts};
    ghost use Rattle.row_store.specs.Begun.{begun_of};
    ghost use Rattle.row_store.specs.Keeping.{Keeping, IsKept, IsReadOn};

    ghost Value = { Keeping S };

    ghost coded = { Prim.hlevel (codes, coded_places, coded_counts, held_code S.code) };

    ghost view = { λ k. record { conn = k.conn; failed = k.failed; known = k.known.items; written = k.written; reading = option_map begun_of k.reading } };

    ghost invariant = { λ k. IsKept S.Store k.conn k.failed k.known.items × (is_some k.cause ≡ k.failed) × IsReadOn S.Store k.conn k.failed k.reading };
}

impl<S: Alter, J: Naming> Keeper<S, J> {
    /// What its type keeps, unless it failed: over a clean disk a crash leaves one thing only now, and while the database is
    /// open, its tables are there, and it is exactly what stands that a crash leaves.
    pub fn rests(&self)
        ensures ready { self.now.failed ≡ false → HasCleanDisk (state S.Store self.now.conn) → IsTrue (state S.Store self.now.conn).is_open → IsReady (state S.Store self.now.conn).now }
        ensures settled { self.now.failed ≡ false → HasCleanDisk (state S.Store self.now.conn) → IsTrue (state S.Store self.now.conn).is_open → IsSettled (state S.Store self.now.conn) }
        ensures one { self.now.failed ≡ false → HasCleanDisk (state S.Store self.now.conn) → LeavesOne (state S.Store self.now.conn) }
    {
        let _ = &self.known;
    }

    /// Makes the rows of each of these topics those of its snapshot, in one transaction, and leaves all others.
    /// Refused (F1) for want of memory, with nothing changed; (F16) where the store failed, now or before; and
    /// (F16), with nothing changed, where a topic comes twice, or is being loaded, or where a part goes on from nothing that
    /// is known to stand of its topic, unless no store of that was confirmed when it was viewed, and nothing is known of it.
    /// So no part that was viewed after a store of its topic was confirmed takes rows back: it goes over rows that stand, from
    /// which events alone led to it. Who begins a topic anew has seen that it has no rows, as `open_cell` does, and who forgets
    /// it holds no earlier part of it.
    pub fn store(&mut self, parts: Vec<Part<J>>) -> Result<Vec<Kept<J>>, Unstored>
        ensures rows { HasCleanDisk (state S.Store self.new.conn) → OnOk result (StoresAll (kepts parts.items) (state S.Store self.old.conn).now.trees (state S.Store self.new.conn).now.trees) }
        ensures durable { HasCleanDisk (state S.Store self.new.conn) → OnOk result ((db : _) → (state S.Store self.new.conn).may_leave db → db ≡ (state S.Store self.new.conn).now.trees) }
        ensures kept { IfOk result (λ kept. kept.items ≡ map (stored_in (state S.Store self.new.conn)) (kepts parts.items)) }
        ensures crash { Survives (state S.Store self.old.conn) (state S.Store self.new.conn) (λ db. IsTrue (state S.Store self.old.conn).is_open × StoresAll (kepts parts.items) (state S.Store self.old.conn).now.trees db) }
        ensures ok { OnOk result (self.new.failed ≡ false) }
        ensures written { HasCleanDisk (state S.Store self.new.conn) → OnOk result (Counts self.new.written (kepts parts.items) (state S.Store self.old.conn).now.trees) }
        ensures failed { self.old.failed ≡ true → HasFailed result × (self.new ≡ self.old) }
        ensures memory { result ≡ Err Unstored.NoMemory → self.new ≡ self.old }
        ensures stuck { HasFailed result → (self.new.failed ≡ true) ⊎ (self.new ≡ self.old) }
        ensures forward { OnOk result (All (GoesForward self.old.known) parts.items) }
        ensures known { OnOk result (self.new.known ≡ known_after (kepts parts.items) self.old.known) }
        ensures unread { OnOk result (All (IsUnread self.old.reading) (kepts parts.items)) }
        ensures reading { self.new.reading ≡ self.old.reading }
        ensures shown { HasCleanDisk (state S.Store self.new.conn) → OnOk result (IsTrue (state S.Store self.old.conn).is_open × IsTrue (state S.Store self.new.conn).is_open) }
        ensures left { self.old.failed ≡ false → IsTrue (state S.Store self.old.conn).is_open → HasCleanDisk (state S.Store self.new.conn) → (db : _) → (state S.Store self.new.conn).may_leave db → (db ≡ (state S.Store self.old.conn).now.trees) ⊎ StoresAll (kepts parts.items) (state S.Store self.old.conn).now.trees db }
    {
        self.rests();
        self.write(parts)
    }

    /// `store`, by the parts of its contract.
    fn write(&mut self, parts: Vec<Part<J>>) -> Result<Vec<Kept<J>>, Unstored>
        ensures rows { HasCleanDisk (state S.Store self.new.conn) → OnOk result (StoresAll (kepts parts.items) (state S.Store self.old.conn).now.trees (state S.Store self.new.conn).now.trees) }
        ensures durable { HasCleanDisk (state S.Store self.new.conn) → OnOk result ((db : _) → (state S.Store self.new.conn).may_leave db → db ≡ (state S.Store self.new.conn).now.trees) }
        ensures kept { IfOk result (λ kept. kept.items ≡ map (stored_in (state S.Store self.new.conn)) (kepts parts.items)) }
        ensures crash { Survives (state S.Store self.old.conn) (state S.Store self.new.conn) (λ db. IsTrue (state S.Store self.old.conn).is_open × StoresAll (kepts parts.items) (state S.Store self.old.conn).now.trees db) }
        ensures ok { OnOk result (self.new.failed ≡ false) }
        ensures written { HasCleanDisk (state S.Store self.new.conn) → OnOk result (Counts self.new.written (kepts parts.items) (state S.Store self.old.conn).now.trees) }
        ensures failed { self.old.failed ≡ true → HasFailed result × (self.new ≡ self.old) }
        ensures memory { result ≡ Err Unstored.NoMemory → self.new ≡ self.old }
        ensures stuck { HasFailed result → (self.new.failed ≡ true) ⊎ (self.new ≡ self.old) }
        ensures forward { OnOk result (All (GoesForward self.old.known) parts.items) }
        ensures known { OnOk result (self.new.known ≡ known_after (kepts parts.items) self.old.known) }
        ensures unread { OnOk result (All (IsUnread self.old.reading) (kepts parts.items)) }
        ensures reading { self.new.reading ≡ self.old.reading }
        ensures shown { HasCleanDisk (state S.Store self.new.conn) → OnOk result (IsTrue (state S.Store self.old.conn).is_open × IsTrue (state S.Store self.new.conn).is_open) }
    {
        if self.failed {
            return Err(Unstored::failed());
        }
        let Ok(mut kept) = Vec::with_capacity(self.alloc, parts.len()) else {
            return Err(Unstored::NoMemory);
        };
        let Ok(mut marks) = Vec::with_capacity(self.alloc, parts.len()) else {
            return Err(Unstored::NoMemory);
        };
        marks_of(&parts, &mut marks);
        let mut writes = match plan_all(self.alloc, &self.known, parts) {
            Ok(writes) => writes,
            Err(None) => return Err(Unstored::NoMemory),
            Err(cause) => {
                self.refusal = cause;
                return Err(Unstored::failed());
            }
        };
        if reads_one_of(&self.reading, &writes) {
            drop(writes);
            self.refusal = Some(Cause::BeingLoaded);
            return Err(Unstored::failed());
        }
        let Ok(()) = room_for(&writes, &mut self.scratch) else {
            return Err(Unstored::NoMemory);
        };
        let Ok(()) = self.known.reserve(writes.len()) else {
            return Err(Unstored::NoMemory);
        };
        let written = Written::by(&writes);
        self.failed = true;
        match save(&mut self.conn, &writes, &mut self.scratch) {
            Ok(()) => {}
            Err(error) => {
                self.cause = Some(Cause::of(error, self.refusal));
                return Err(Unstored::failed());
            }
        }
        let Some(rows) = self.notes.commit(&self.conn) else {
            self.cause = Some(Cause::NoMark);
            return Err(Unstored::failed());
        };
        keep_all(&rows, &marks, &mut kept);
        forget(&mut self.known, &writes);
        remember(&mut self.known, &mut writes, &mut marks);
        self.written = written;
        self.failed = false;
        Ok(kept)
    }

    /// What the last store that went well wrote; nothing before the first one.
    pub fn written(&self) -> Written
        ensures { result ≡ self.now.written }
    {
        self.written
    }

    /// Lets go of what is known of the topic. Its rows stay, and no part that was viewed after a store of the topic was
    /// confirmed passes before it is loaded: so rows that are forgotten are not taken back.
    pub fn forget(&mut self, name: &TopicName)
        ensures { self.new ≡ record self.old { known = known_without name.now self.old.known } }
    {
        forget_topic(&mut self.known, name);
    }

    /// Whether a store failed: then all is refused (F16) until the database is adopted again.
    pub fn has_failed(&self) -> bool
        ensures { result ≡ self.now.failed }
    {
        self.failed
    }

    /// Why the keeper failed; none where it has not.
    pub fn cause(&self) -> Option<Cause>
        ensures { is_some result ≡ self.now.failed }
    {
        self.cause
    }

    /// Why a call of this keeper was refused by F16, the last that was: why it failed, where it has; and else why it
    /// could not load, view or store a topic, and changed nothing.
    pub fn refusal(&self) -> Option<Cause>
        ensures { self.now.failed ≡ true → IsSome result }
    {
        match self.cause {
            Some(cause) => Some(cause),
            None => self.refusal,
        }
    }

    /// The topic whose rows a load found to be none, the last of them: that of a refusal for bad rows.
    pub fn spoilt(&self) -> Option<&str> {
        match &self.spoilt {
            Some(topic) => Some(topic.as_str()),
            None => None,
        }
    }

    /// The database and the history, as they are: so a database is adopted again.
    pub fn into_parts(self) -> (Connection<S>, Notes<J>)
        ensures { result.0 ≡ self.conn }
    {
        let Keeper {
            alloc: _,
            conn,
            failed: _,
            known: _,
            reading: _,
            notes,
            scratch: _,
            written: _,
            cause: _,
            refusal: _,
            spoilt: _,
        } = self;
        (conn, notes)
    }
}
