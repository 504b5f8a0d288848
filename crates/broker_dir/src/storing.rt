// Storing: topics are viewed, each under its lock, stored together with all locks free, and confirmed, each under its lock.
ghost use Rattle.std.specs.Prelude.{◌≡◌, false, IfOk, IfSome, OnOk, Err};
ghost use Rattle.delivery_machine.specs.Places.{snapshot_in};
ghost use Rattle.delivery_machine.specs.Snapshot.{snapshot_of};
ghost use Rattle.sqlite.specs.State.{HasCleanDisk};
ghost use Rattle.sqlite.specs.Held.{state};
ghost use Rattle.row_store.specs.Keeping.{StoresAll, kepts};

use crate::directory::Directory;
use crate::errand::Errands;
use crate::inside::Inside;
use crate::topic::Shared;
use crate::watching::Rules;
use broker_parts::{Board, Did, Stage, Task, Tasks, Wants, instant, since};
use delivery_machine::{Fault, Opened};
use marks::Naming;
use row_store::{Keeper, Unstored, Written};
use session_bells::Bell;
use sqlite::Alter;
use status_pages::Rows;
use std::alloc::Global;
use std::rt::Clock;
use std::sync::{Arc, Wait};
use stored_cell::{Kept, Part};

/// A topic that was viewed: its place among those that are stored, and how many messages it had ever had.
#[derive(Clone, Copy, Debug, PartialEq, Eq)]
struct Seen {
    place: usize,
    length: u64,
}

/// What is stored together.
#[derive(Drop)]
struct Batch<J: Naming> {
    parts: Vec<Part<J>>,
    seen: Vec<Seen>,
}

impl<J: Naming> Batch<J> {
    /// With room for so many topics.
    fn for_topics(alloc: Global, count: usize) -> Result<Self, Fault> {
        let Ok(parts) = Vec::with_capacity(alloc, count) else {
            return Err(Fault::NoMemory);
        };
        let Ok(seen) = Vec::with_capacity(alloc, count) else {
            drop(parts);
            return Err(Fault::NoMemory);
        };
        Ok(Batch { parts, seen })
    }

    /// Whether no topic was viewed.
    fn is_empty(&self) -> bool {
        self.parts.is_empty()
    }

    fn add(&mut self, place: usize, part: Part<J>) -> Result<(), Fault> {
        let length = part.length();
        let (Ok(()), Ok(())) = (
            self.parts.push(part),
            self.seen.push(Seen { place, length }),
        ) else {
            return Err(Fault::NoMemory);
        };
        Ok(())
    }
}

/// How many rows a store wrote.
fn rows_of(written: Written) -> Rows {
    Rows {
        inserted: written.inserted,
        updated: written.updated,
        deleted: written.deleted,
    }
}

/// What the thread will have done with the task.
fn did_by<X: Drop>(task: &Task<X>) -> Did {
    match task {
        Task::Store(_) => Did::Store,
        Task::Open => Did::Open,
        Task::Errand(_) | Task::Look | Task::End => Did::Other,
    }
}

impl<T: Opened + Drop, S: Alter, J: Naming, B: Bell + Drop> Directory<T, S, J, B> {
    /// One task of the thread that stores, where there is one now, or one step of each courier that is under way and need not wait.
    /// False where there is neither.
    pub fn keep_once<R: Wait + Clock>(&self, rt: &R, errands: &mut Errands<T, J, B>) -> bool {
        let tasks = &mut errands.tasks;
        if tasks.step_each(rt, self) {
            return true;
        }
        let task = self.board.try_next(rt, tasks.turn());
        tasks.did = Did::Other;
        match task {
            Some(task) => self.begin_task(rt, task, tasks),
            None => false,
        }
    }

    /// What the task is, but for the steps of the couriers that are called. False where it was the last one.
    pub(crate) fn begin_task<R: Wait + Clock>(
        &self,
        rt: &R,
        task: Task<Arc<Shared<T, J, B>>>,
        tasks: &mut Tasks<Shared<T, J, B>>,
    ) -> bool {
        tasks.did = did_by(&task);
        match task {
            Task::Store(topics) => self.store(rt, topics.as_slice()),
            Task::Open => self.open_on(rt, tasks),
            Task::Errand(topic) => self.begin_errand(rt, topic, tasks),
            Task::Look => {
                tasks.call_due(rt);
                self.look(rt, tasks);
            }
            Task::End => return false,
        }
        true
    }

    /// Where the store fails the directory is closed.
    pub(crate) fn store<R: Wait + Clock>(&self, rt: &R, topics: &[Arc<Shared<T, J, B>>]) {
        match self.store_together(rt, topics) {
            Ok(()) => {}
            Err(Unstored::NoMemory) => self.store_each(rt, topics),
            Err(Unstored::Failed(failed)) => drop(self.close_after(rt, failed)),
        }
    }

    /// Where there is no memory for all, there may be for one. Those for which there is none are stored later.
    fn store_each<R: Wait + Clock>(&self, rt: &R, topics: &[Arc<Shared<T, J, B>>]) {
        for place in 0..topics.len() {
            let one = &topics[place..place + 1];
            match self.store_together(rt, one) {
                Ok(()) => {}
                Err(Unstored::NoMemory) => self.board.put_off(rt, &topics[place]),
                Err(Unstored::Failed(failed)) => {
                    drop(self.close_after(rt, failed));
                    return;
                }
            }
        }
    }

    fn store_together<R: Wait + Clock>(
        &self,
        rt: &R,
        topics: &[Arc<Shared<T, J, B>>],
    ) -> Result<(), Unstored> {
        let mut batch = match Batch::for_topics(self.alloc, topics.len()) {
            Ok(batch) => batch,
            Err(fault) => return Err(Unstored::of(fault)),
        };
        let mut keeper = self.keeper.lock(rt);
        match view_all(rt, &mut *keeper, &self.board, topics, &mut batch) {
            Ok(()) if batch.is_empty() => {
                drop(batch);
                Ok(())
            }
            Ok(()) => self.store_viewed(rt, &mut *keeper, topics, batch),
            Err(fault) => {
                drop(batch);
                Err(Unstored::of(fault))
            }
        }
    }

    /// Stores what was viewed, and confirms it. A keeper that has failed, now or before, is a failure.
    fn store_viewed<R: Wait + Clock>(
        &self,
        rt: &R,
        keeper: &mut Keeper<S, J>,
        topics: &[Arc<Shared<T, J, B>>],
        batch: Batch<J>,
    ) -> Result<(), Unstored>
        ensures rows { HasCleanDisk (state S.Store keeper.new.conn) → OnOk result (StoresAll (kepts batch.parts.items) (state S.Store keeper.old.conn).now.trees (state S.Store keeper.new.conn).now.trees) }
        ensures ok { OnOk result (keeper.new.failed ≡ false) }
        ensures memory { result ≡ Err Unstored.NoMemory → (keeper.new.failed ≡ false) × (keeper.new ≡ keeper.old) }
    {
        let Batch { parts, seen } = batch;
        let began = instant(rt);
        match keeper.store(parts) {
            Ok(kept) => {
                let rows = rows_of(keeper.written());
                self.counts.store(rt, rows, since(began, instant(rt)));
                let rules = self.rules(rt);
                confirm_all(rt, &self.board, &rules, topics, seen.as_slice(), kept);
                Ok(())
            }
            Err(unstored) => Err(unstored),
        }
    }
}

fn confirm_all<T: Opened + Drop, J: Naming, B: Bell + Drop, R: Wait>(
    rt: &R,
    board: &Board<Arc<Shared<T, J, B>>>,
    rules: &Rules,
    topics: &[Arc<Shared<T, J, B>>],
    seen: &[Seen],
    kept: Vec<Kept<J>>,
) {
    let mut at = 0;
    for kept in kept {
        if let Some(seen) = seen.get(at)
            && let Some(topic) = topics.get(seen.place)
        {
            let wants = topic.confirm(rt, rules, seen.length, kept);
            board.grant(rt, topic, wants);
        } else {
            drop(kept);
        }
        at = at.saturating_add(1);
    }
}

/// The topics as they are, but for those that leave or are gone.
fn view_all<T: Opened + Drop, S: Alter, J: Naming, B: Bell + Drop, R: Wait>(
    rt: &R,
    keeper: &mut Keeper<S, J>,
    board: &Board<Arc<Shared<T, J, B>>>,
    topics: &[Arc<Shared<T, J, B>>],
    batch: &mut Batch<J>,
) -> Result<(), Fault> {
    for place in 0..topics.len() {
        let topic = &topics[place];
        let added = match topic.viewed(rt, keeper) {
            Ok(Some(part)) => batch.add(place, part),
            Ok(None) => {
                board.grant(rt, topic, topic.pass_over(rt));
                Ok(())
            }
            Err(fault) => Err(fault),
        };
        match added {
            Ok(()) => {}
            Err(fault) => return Err(fault),
        }
    }
    Ok(())
}

impl<T: Opened + Drop, J: Naming, B: Bell + Drop> Inside<T, J, B> {
    /// The topic as it is, which it stays. None where it leaves or is gone.
    fn viewed<S: Alter, R: Wait>(
        &mut self,
        rt: &R,
        keeper: &mut Keeper<S, J>,
    ) -> Result<Option<Part<J>>, Fault>
        ensures part { IfOk result (λ found. IfSome found (λ part. (self.old.stage ≡ Stage.Open) × (snapshot_in part.kept ≡ snapshot_of self.old.topic.cell.cell.state))) }
        ensures state { self.new.topic.cell.cell.state ≡ self.old.topic.cell.cell.state }
        ensures name { self.new.topic.name ≡ self.old.topic.name }
    {
        if !self.may_be_viewed(rt) {
            return Ok(None);
        }
        match self.view_by(keeper) {
            Ok(part) => {
                self.hearers.graves.viewed();
                Ok(Some(part))
            }
            Err(fault) => Err(fault),
        }
    }
}

impl<T: Opened + Drop, J: Naming, B: Bell + Drop> Shared<T, J, B> {
    /// The topic as it is, with its lock held for no longer than that takes. None where it leaves or is gone.
    pub(crate) fn viewed<S: Alter, R: Wait>(
        &self,
        rt: &R,
        keeper: &mut Keeper<S, J>,
    ) -> Result<Option<Part<J>>, Fault> {
        let mut inside = self.inside.lock(rt);
        inside.viewed(rt, keeper)
    }

    /// The topic is not stored with others, since it leaves or is gone: it is seen out once nobody is there.
    fn pass_over<R: Wait>(&self, rt: &R) -> Wants {
        self.signs.note_over();
        let mut inside = self.inside.lock(rt);
        let stage = inside.stage;
        Wants {
            store: false,
            thread: inside.wanted.end(stage),
        }
    }

    /// What was viewed is stored. The topic's lock is held for the confirmation and the trim that follows it; what they lead to
    /// on the board comes after.
    fn confirm<R: Wait>(&self, rt: &R, rules: &Rules, length: u64, kept: Kept<J>) -> Wants {
        let mut inside = self.inside.lock(rt);
        let came = inside.confirmed(rt, length, kept);
        inside.go_on(rules, came)
    }

    /// The same, of a topic that was not taken from the board for it: where it waits there it waits on. Else it would be there twice.
    pub(crate) fn confirm_beside<R: Wait>(
        &self,
        rt: &R,
        rules: &Rules,
        length: u64,
        kept: Kept<J>,
    ) -> Wants {
        let mut inside = self.inside.lock(rt);
        let waits = inside.wanted.is_queued;
        let came = inside.confirmed(rt, length, kept);
        inside.wanted.is_queued = waits;
        inside.go_on(rules, came)
    }
}

impl<T: Opened + Drop, J: Naming, B: Bell + Drop> Inside<T, J, B> {
    /// A store was confirmed, since which so many messages came: those go that may, and what the topic wants then is told.
    fn go_on(&mut self, rules: &Rules, came: u64) -> Wants {
        self.trim(rules, came);
        let store = self.wants_storing();
        let has_letters = self.hearers.has_letters();
        let thread = self.wanted.courier(has_letters);
        Wants { store, thread }
    }
}
