// A topic is deleted: what is left of it is stored, and it is listed no more.
ghost use Rattle.std.specs.Prelude.{◌≡◌, IfOk, None, OnErr, OnOk, Err};
ghost use Rattle.std.specs.Map.{remove_entry};
ghost use Rattle.std.specs.Str.{bytes_eq};
ghost use Rattle.std.specs.String.{string_bytes};
ghost use Rattle.indexmap.specs.IndexMap.{get_by_text};
ghost use Rattle.position_core.specs.TopicName.{topic_text};
ghost use Rattle.position_core.specs.declared.fault.Fault.{Fault};
ghost use Rattle.sqlite.specs.State.{HasCleanDisk};
ghost use Rattle.sqlite.specs.Held.{state};
ghost use Rattle.delivery_machine.specs.Places.{snapshot_in};
ghost use Rattle.delivery_machine.specs.Snapshot.{snapshot_of};
ghost use Rattle.topic_lives.specs.Deleting.{IsDeletable, emptied};
ghost use Rattle.broker_dir.specs.Deleting.{StoresLeft};

use crate::directory::Directory;
use crate::inside::Inside;
use crate::table::Table;
use crate::topic::Shared;
use broker_parts::{Stage, Wants};
use delivery_machine::{Fault, Opened, Reply};
use marks::Naming;
use row_forms::topic_text;
use row_store::{Failed, Keeper, Unstored};
use session_bells::Bell;
use sqlite::Alter;
use std::alloc::Global;
use std::sync::{Arc, Wait};
use stored_cell::Deletion;

/// Why a topic was not deleted.
enum Undeleted {
    /// The topic is in use, or may not be used any more, or there was no memory.
    Refused(Fault),
    /// The store failed.
    Failed(Failed),
}

impl Undeleted {
    /// What the keeper's refusal comes to.
    fn of(unstored: Unstored) -> Undeleted
        ensures { (why : Fault) → result ≡ Undeleted.Refused why → (why ≡ Fault.NoMemory) × (unstored ≡ Unstored.NoMemory) }
    {
        match unstored {
            Unstored::NoMemory => Undeleted::Refused(Fault::NoMemory),
            Unstored::Failed(failed) => Undeleted::Failed(failed),
        }
    }
}

impl<T: Opened + Drop, S: Alter, J: Naming, B: Bell + Drop> Directory<T, S, J, B> {
    /// Deletes the topic, at which somebody sits still: they learn that it is gone. Refused (F12) while a producer or a
    /// member is there, or a dead letter that was not moved; (F15) where it leaves and (F11) where it is gone already;
    /// (F1) for want of memory; and (F16) where the store fails, which closes the directory.
    pub(crate) fn delete<R: Wait>(
        &self,
        rt: &R,
        topic: &Arc<Shared<T, J, B>>,
    ) -> Result<Reply, Fault> {
        let deleted = self.delete_locked(rt, topic);
        match deleted {
            Ok(wants) => {
                self.board.grant(rt, topic, wants);
                Ok(Reply::Done)
            }
            Err(Undeleted::Refused(fault)) => Ok(Reply::Refused(fault)),
            Err(Undeleted::Failed(failed)) => {
                drop(self.close_after(rt, failed));
                Err(Fault::StoreFailed)
            }
        }
    }

    /// With all three locks held, so that nobody comes, stores or asks meanwhile. A courier that waits until more of the topic is
    /// stored has to be sent on: it is stored no more.
    fn delete_locked<R: Wait>(
        &self,
        rt: &R,
        topic: &Arc<Shared<T, J, B>>,
    ) -> Result<Wants, Undeleted> {
        let mut table = self.table.lock(rt);
        let mut keeper = self.keeper.lock(rt);
        let mut inside = topic.inside.lock(rt);
        match delete_from(self.alloc, &mut *table, &mut *keeper, &mut *inside) {
            Ok(()) => {
                topic.signs.note_over();
                self.counts.unload();
                self.counts.resting.remove(rt, &topic.name);
                inside.hearers.bells.ring_all(rt);
                Ok(Wants {
                    store: false,
                    thread: inside.wanted.courier(false),
                })
            }
            Err(undeleted) => Err(undeleted),
        }
    }
}

/// What is left of the topic is stored, and it is open no more.
fn delete_from<T: Opened + Drop, S: Alter, J: Naming, B: Bell + Drop>(
    alloc: Global,
    table: &mut Table<T, J, B>,
    keeper: &mut Keeper<S, J>,
    inside: &mut Inside<T, J, B>,
) -> Result<(), Undeleted>
    ensures rows { HasCleanDisk (state S.Store keeper.new.conn) → OnOk result (StoresLeft inside.old.topic.cell.cell.state (state S.Store keeper.old.conn).now.trees (state S.Store keeper.new.conn).now.trees) }
    ensures free { OnOk result ((inside.old.stage ≡ Stage.Open) × IsDeletable inside.old.topic.cell.cell.state) }
    ensures gone { OnOk result ((inside.new.stage ≡ Stage.Gone) × (get_by_text table.new.list.topics (topic_text inside.old.topic.name) ≡ None)) }
    ensures others { OnOk result (table.new.list.topics.entries ≡ remove_entry (λ k. bytes_eq (topic_text inside.old.topic.name) (string_bytes k)) table.old.list.topics.entries) }
    ensures stays { OnErr result ((inside.new ≡ inside.old) × (table.new.list.topics.entries ≡ table.old.list.topics.entries)) }
    ensures busy { inside.old.stage ≡ Stage.Open → result ≡ Err (Undeleted.Refused Fault.SubscriptionBusy) → IsDeletable inside.old.topic.cell.cell.state → ⊥ }
{
    let deletion = match deletion_of(alloc, inside) {
        Ok(deletion) => deletion,
        Err(fault) => return Err(Undeleted::Refused(fault)),
    };
    let Ok(text) = topic_text(alloc, inside.name()) else {
        drop(deletion);
        return Err(Undeleted::Refused(Fault::NoMemory));
    };
    match keeper.delete(deletion) {
        Ok(()) => {
            let gone = inside.end(text);
            table.take_out(&gone);
            Ok(())
        }
        Err(unstored) => Err(Undeleted::of(unstored)),
    }
}

/// What is left of the topic, where it may be deleted; why not, where it may not.
fn deletion_of<T: Opened + Drop, J: Naming, B: Bell + Drop>(
    alloc: Global,
    inside: &Inside<T, J, B>,
) -> Result<Deletion, Fault>
    ensures ok { OnOk result ((inside.now.stage ≡ Stage.Open) × IsDeletable inside.now.topic.cell.cell.state) }
    ensures left { IfOk result (λ deletion. snapshot_in deletion ≡ emptied (snapshot_of inside.now.topic.cell.cell.state)) }
    ensures busy { inside.now.stage ≡ Stage.Open → result ≡ Err Fault.SubscriptionBusy → IsDeletable inside.now.topic.cell.cell.state → ⊥ }
{
    if let Some(fault) = inside.stage.refusal() {
        return Err(fault);
    }
    match inside.cell().deletion(alloc) {
        Ok(Some(deletion)) => Ok(deletion),
        Ok(None) => Err(Fault::SubscriptionBusy),
        Err(fault) => Err(fault),
    }
}
