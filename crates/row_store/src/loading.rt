// A topic's snapshot, as its rows have it.
ghost use Rattle.std.specs.Prelude.{◌≡◌, ◌⊎◌, ◌++◌, ◌≢◌, ◌↔◌, [], ◌∷◌, true, false, Some, None, IfOk, IfErr, IfNone, IfSome, OnErr, MatchOption, Err, IsTrue, string_bytes};
ghost use Rattle.position_core.specs.TopicName.{topic_text};
ghost use Rattle.position_core.specs.declared.fault.Fault.TheVariants.{NoMemory, StoreFailed};
ghost use Rattle.delivery_machine.specs.Places.{KeptTopic};
ghost use Rattle.sqlite.specs.State.{HasCleanDisk, Survives};
ghost use Rattle.sqlite.specs.Held.{state};
ghost use Rattle.row_forms.specs.Standing.{Stands, HasNone};
ghost use Rattle.delivery_machine.specs.Places.{MayRestart};
ghost use Rattle.row_reading.specs.Reading.{IsReadBack, MayBeTold};
ghost use Rattle.row_store.specs.Begun.{begun_by, left_by};
ghost use Rattle.row_store.specs.Found.{HasMany};
ghost use Rattle.row_store.specs.Keeping.{NoneStands, stored_in};
ghost use Rattle.row_store.specs.declared.loading.Unread.{Unread};

use crate::cause::Cause;
use crate::finding::{Found, find};
use crate::keeper::Keeper;
use crate::knowing::{keep_reading, reading_for};
use crate::known::Known;
use crate::pace::Pace;
use crate::reading::Stop;
use delivery_machine::{Fault, Snapshot};
use marks::Naming;
use position_core::TopicName;
use row_forms::topic_text;
use sqlite::Alter;
use stored_cell::{Kept, Loaded};

/// Why a topic was not loaded.
#[derive(Clone, Copy, Debug, PartialEq, Eq)]
pub enum Unread {
    /// There was no memory (F1).
    NoMemory,
    /// The store had failed, or answered an error (F16).
    StoreFailed,
    /// The topic has rows that are no snapshot's (F16).
    BadRows,
    /// More of its messages may follow those that were read: another call goes on with them.
    Unfinished,
}

impl Unread {
    /// The refusal that it comes to; none where it is only unfinished.
    pub fn fault(self) -> Option<Fault>
        ensures none { (result ≡ None) ↔ (self ≡ Unread.Unfinished) }
        ensures memory { (result ≡ Some NoMemory) ↔ (self ≡ Unread.NoMemory) }
        ensures faults { IfSome result (λ fault. (fault ≡ NoMemory) ⊎ (fault ≡ StoreFailed)) }
    {
        match self {
            Unread::NoMemory => Some(Fault::NoMemory),
            Unread::StoreFailed | Unread::BadRows => Some(Fault::StoreFailed),
            Unread::Unfinished => None,
        }
    }
}

impl<S: Alter, J: Naming> Keeper<S, J> {
    /// The snapshot whose rows stand there; none where the topic has no rows. The next store of the topic
    /// writes what changed from then on, if it goes on from there. Refused where the rows are no snapshot's, where the
    /// store answers an error, and for want of memory. No row changes in any case.
    ///
    /// 256 messages are read at a time: unfinished where more may follow. By pieces the next call for the topic goes on
    /// from there, also where others were stored meanwhile, and what was read of another topic is let go of. At once
    /// nothing is kept of what was read, and what is read by pieces stays.
    pub fn load(&mut self, name: &TopicName, pace: Pace) -> Result<Option<Loaded<J>>, Unread>
        ensures rows { HasCleanDisk (state S.Store self.new.conn) → IfOk result (λ found. MatchOption found (HasNone (topic_text name.now) (state S.Store self.old.conn).now.trees) (λ loaded. (loaded.snapshot.name ≡ name.now) × Stands loaded.snapshot (state S.Store self.old.conn).now.trees)) }
        ensures found { HasCleanDisk (state S.Store self.new.conn) → (kept : KeptTopic) → IsReadBack kept → kept.name ≡ name.now → Stands kept (state S.Store self.old.conn).now.trees → IfOk result (λ found. MatchOption found ⊥ (λ loaded. loaded.snapshot ≡ kept)) }
        ensures bad { HasCleanDisk (state S.Store self.new.conn) → result ≡ Err Unread.BadRows → NoneStands name.now (state S.Store self.old.conn).now.trees }
        ensures kept { IfOk result (λ found. IfSome found (λ loaded. loaded.kept ≡ stored_in (state S.Store self.new.conn) loaded.snapshot)) }
        ensures named { IfOk result (λ found. IfSome found (λ loaded. loaded.snapshot.name ≡ name.now)) }
        ensures told { IfOk result (λ found. IfSome found (λ loaded. MayRestart loaded.snapshot × MayBeTold loaded.snapshot)) }
        ensures same { HasCleanDisk (state S.Store self.new.conn) → IsTrue (state S.Store self.new.conn).is_open → (state S.Store self.new.conn).now ≡ (state S.Store self.old.conn).now }
        ensures crash { Survives (state S.Store self.old.conn) (state S.Store self.new.conn) (λ _. ⊥) }
        ensures known { IfOk result (λ found. MatchOption found (self.new.known ≡ self.old.known) (λ loaded. self.new.known ≡ self.old.known ++ loaded.snapshot ∷ [])) }
        ensures unknown { OnErr result (self.new.known ≡ self.old.known) }
        ensures left { self.old.failed ≡ false → IsTrue (state S.Store self.old.conn).is_open → HasCleanDisk (state S.Store self.new.conn) → (db : _) → (state S.Store self.new.conn).may_leave db → db ≡ (state S.Store self.old.conn).now.trees }
        ensures failed { self.new.failed ≡ self.old.failed }
        ensures refused { self.old.failed ≡ true → (result ≡ Err Unread.StoreFailed) × (self.new ≡ self.old) }
        ensures goes_on { result ≡ Err Unread.Unfinished → self.new.reading ≡ begun_by pace name.now self.old.reading }
        ensures many { HasCleanDisk (state S.Store self.new.conn) → result ≡ Err Unread.Unfinished → HasMany name.now (state S.Store self.old.conn).now.trees }
        ensures ended { IfOk result (λ _. self.new.reading ≡ left_by pace self.old.reading) }
        ensures others { pace ≡ Pace.AtOnce → self.new.reading ≡ self.old.reading }
    {
        if self.failed {
            return Err(Unread::StoreFailed);
        }
        let Ok(topic) = topic_text(self.alloc, name) else {
            return Err(Unread::NoMemory);
        };
        let reading = reading_for(&mut self.reading, name, pace);
        match find(self.alloc, &mut self.conn, name, topic.as_str(), reading) {
            Ok(Found::Whole(snapshot)) => match self.know_loaded(topic, snapshot) {
                Ok(loaded) => Ok(Some(loaded)),
                Err(fault) => Err(fault),
            },
            Ok(Found::Nothing) => {
                drop(topic);
                Ok(None)
            }
            Ok(Found::BadRows) => {
                self.refusal = Some(Cause::BadRows);
                self.spoilt = Some(topic);
                Err(Unread::BadRows)
            }
            Ok(Found::More(reading)) => {
                drop(topic);
                keep_reading(&mut self.reading, reading, pace);
                Err(Unread::Unfinished)
            }
            Err(Stop::NoMemory) => {
                drop(topic);
                Err(Unread::NoMemory)
            }
            Err(Stop::Store(error)) => {
                drop(topic);
                self.refusal = Some(Cause::of(error, self.refusal));
                Err(Unread::StoreFailed)
            }
        }
    }

    /// What was read is known from now on.
    fn know_loaded(&mut self, topic: String, snapshot: Snapshot) -> Result<Loaded<J>, Unread>
        requires topic { string_bytes topic ≡ topic_text snapshot.name }
        requires stands { HasCleanDisk (state S.Store self.old.conn) → IsTrue (state S.Store self.old.conn).is_open → Stands snapshot (state S.Store self.old.conn).now.trees }
        ensures same { (self.new.conn ≡ self.old.conn) × (self.new.failed ≡ self.old.failed) × (self.new.reading ≡ self.old.reading) }
        ensures snapshot { IfOk result (λ loaded. loaded.snapshot ≡ snapshot) }
        ensures kept { IfOk result (λ loaded. loaded.kept ≡ stored_in (state S.Store self.old.conn) snapshot) }
        ensures known { IfOk result (λ loaded. self.new.known ≡ self.old.known ++ loaded.snapshot ∷ []) }
        ensures unknown { OnErr result (self.new.known ≡ self.old.known) }
        ensures faults { IfErr result (λ why. (why ≡ Unread.NoMemory) ⊎ (why ≡ Unread.StoreFailed)) }
    {
        match self.proof_of(&snapshot) {
            Ok(kept) => self.know_kept(topic, snapshot, kept),
            Err(fault) => {
                drop(topic);
                drop(snapshot);
                Err(fault)
            }
        }
    }

    /// The proof that the snapshot, which stands, does.
    fn proof_of(&mut self, snapshot: &Snapshot) -> Result<Kept<J>, Unread>
        requires stands { HasCleanDisk (state S.Store self.old.conn) → IsTrue (state S.Store self.old.conn).is_open → Stands snapshot.now (state S.Store self.old.conn).now.trees }
        ensures same { self.new ≡ self.old }
        ensures kept { IfOk result (λ kept. kept ≡ stored_in (state S.Store self.old.conn) snapshot.now) }
        ensures faults { IfErr result (λ fault. fault ≡ Unread.StoreFailed) }
    {
        prove!(self.conn.is_autocommit());
        match self.notes.view(snapshot) {
            Some(mark) => match self.notes.commit(&self.conn) {
                Some(rows) => Ok(Kept::new(mark, rows)),
                None => {
                    drop(mark);
                    self.refusal = Some(Cause::NoMark);
                    Err(Unread::StoreFailed)
                }
            },
            None => {
                self.refusal = Some(Cause::NoMark);
                Err(Unread::StoreFailed)
            }
        }
    }

    /// What is proved to stand is known from now on.
    fn know_kept(
        &mut self,
        topic: String,
        snapshot: Snapshot,
        kept: Kept<J>,
    ) -> Result<Loaded<J>, Unread>
        requires topic { string_bytes topic ≡ topic_text snapshot.name }
        requires stands { HasCleanDisk (state S.Store self.old.conn) → IsTrue (state S.Store self.old.conn).is_open → Stands snapshot (state S.Store self.old.conn).now.trees }
        requires kept { kept ≡ stored_in (state S.Store self.old.conn) snapshot }
        ensures same { (self.new.conn ≡ self.old.conn) × (self.new.failed ≡ self.old.failed) × (self.new.reading ≡ self.old.reading) }
        ensures snapshot { IfOk result (λ loaded. loaded.snapshot ≡ snapshot) }
        ensures kept { IfOk result (λ loaded. loaded.kept ≡ kept) }
        ensures known { IfOk result (λ loaded. self.new.known ≡ self.old.known ++ loaded.snapshot ∷ []) }
        ensures unknown { OnErr result (self.new.known ≡ self.old.known) }
        ensures faults { IfErr result (λ fault. fault ≡ Unread.NoMemory) }
    {
        let Ok(()) = self.known.reserve(1) else {
            drop(topic);
            drop(snapshot);
            drop(kept);
            return Err(Unread::NoMemory);
        };
        match snapshot.clone() {
            Ok(copy) => {
                self.known
                    .push_reserved(Known::new(topic, copy, kept.mark()));
                Ok(Loaded { snapshot, kept })
            }
            Err(_) => {
                drop(topic);
                drop(snapshot);
                drop(kept);
                Err(Unread::NoMemory)
            }
        }
    }
}
