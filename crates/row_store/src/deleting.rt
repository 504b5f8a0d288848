// A topic is deleted: what is left of it is stored.
ghost use Rattle.std.specs.Prelude.{◌≡◌, ◌⊎◌, [], ◌∷◌, true, false, OnOk, Err, IsTrue};
ghost use Rattle.position_core.specs.TopicName.{topic_text};
ghost use Rattle.sqlite.specs.State.{HasCleanDisk, Survives};
ghost use Rattle.sqlite.specs.Held.{state};
ghost use Rattle.row_store.specs.Begun.{begun_without};
ghost use Rattle.row_store.specs.Keeping.{StoresAll, known_without};
ghost use Rattle.row_store.specs.Unstored.{HasFailed};

use crate::cause::Cause;
use crate::keeper::Keeper;
use crate::knowing::let_go;
use crate::planning::plan_whole;
use crate::unstored::Unstored;
use marks::Naming;
use row_rounds::{room_for, save};
use sqlite::Alter;
use std::slice::from_ref;
use stored_cell::Deletion;

impl<S: Alter, J: Naming> Keeper<S, J> {
    /// Makes the topic's rows those of what is left of it, in one transaction, and leaves those of all others.
    /// What is known of the topic is let go of, so that nothing which goes on from its earlier rows is stored any more, and so is
    /// what was read of it while it is loaded. What the last store wrote is told as before. Refused (F1) for want of memory, with nothing changed; (F16) where the store failed, now or before.
    pub fn delete(&mut self, deletion: Deletion) -> Result<(), Unstored>
        ensures rows { HasCleanDisk (state S.Store self.new.conn) → OnOk result (StoresAll (deletion ∷ []) (state S.Store self.old.conn).now.trees (state S.Store self.new.conn).now.trees) }
        ensures durable { HasCleanDisk (state S.Store self.new.conn) → OnOk result ((db : _) → (state S.Store self.new.conn).may_leave db → db ≡ (state S.Store self.new.conn).now.trees) }
        ensures crash { Survives (state S.Store self.old.conn) (state S.Store self.new.conn) (λ db. IsTrue (state S.Store self.old.conn).is_open × StoresAll (deletion ∷ []) (state S.Store self.old.conn).now.trees db) }
        ensures ok { OnOk result (self.new.failed ≡ false) }
        ensures written { self.new.written ≡ self.old.written }
        ensures failed { self.old.failed ≡ true → HasFailed result × (self.new ≡ self.old) }
        ensures memory { result ≡ Err Unstored.NoMemory → self.new ≡ self.old }
        ensures stuck { HasFailed result → self.new.failed ≡ true }
        ensures known { OnOk result (self.new.known ≡ known_without deletion.name self.old.known) }
        ensures reading { OnOk result (self.new.reading ≡ begun_without (topic_text deletion.name) self.old.reading) }
        ensures shown { HasCleanDisk (state S.Store self.new.conn) → OnOk result (IsTrue (state S.Store self.old.conn).is_open × IsTrue (state S.Store self.new.conn).is_open) }
        ensures left { self.old.failed ≡ false → IsTrue (state S.Store self.old.conn).is_open → HasCleanDisk (state S.Store self.new.conn) → (db : _) → (state S.Store self.new.conn).may_leave db → (db ≡ (state S.Store self.old.conn).now.trees) ⊎ StoresAll (deletion ∷ []) (state S.Store self.old.conn).now.trees db }
    {
        if self.failed {
            drop(deletion);
            return Err(Unstored::failed());
        }
        let write = match plan_whole(self.alloc, deletion.into_snapshot()) {
            Ok(write) => write,
            Err(_) => return Err(Unstored::NoMemory),
        };
        let Ok(()) = room_for(from_ref(&write), &mut self.scratch) else {
            drop(write);
            return Err(Unstored::NoMemory);
        };
        self.failed = true;
        match save(&mut self.conn, from_ref(&write), &mut self.scratch) {
            Ok(()) => {}
            Err(error) => {
                drop(write);
                self.cause = Some(Cause::of(error, self.refusal));
                return Err(Unstored::failed());
            }
        }
        let_go(&mut self.known, &mut self.reading, &write);
        drop(write);
        self.failed = false;
        Ok(())
    }
}
