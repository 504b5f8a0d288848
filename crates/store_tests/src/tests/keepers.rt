// The keeper as what the tests see of it, and scenes over one.
ghost use Rattle.std.specs.Prelude.{◌≡◌, IfOk, IfSome, IsTrue};
ghost use Rattle.sqlite.specs.State.{HasCleanDisk};
ghost use Rattle.sqlite.specs.Held.{state};
ghost use Rattle.sqlite.specs.Steps.{over_memory};
ghost use Rattle.row_tables.specs.Ready.{AreKeyed};

use super::answers::{Answer, topic_name};
use super::keeps::{Keeps, Scene};
use super::same::same;
use super::topics::Lone;
use delivery_machine::{Event, Fault, Saved, Snapshot};
use marks::{Naming, Unnamed};
use position_core::TopicName;
use row_schema::{open_in_memory, reopen};
use row_store::{Keeper, Pace, Refused, TopicCount, Written};
use sqlite::{Alter, Connection, MemStore};
use std::marker::Brand;
use std::process::Abort;
use stored_cell::{Kept, Loaded, Note, Notes, Part};

/// A database with the history of what was viewed and committed.
#[derive(Drop)]
pub(super) struct Database<S: Alter + Drop, J: Naming> {
    pub(super) conn: Connection<S>,
    notes: Notes<J>,
}

/// The keeper, or why there is none.
fn taken<S: Alter + Drop, J: Naming>(
    outcome: Result<Keeper<S, J>, Refused<S, J>>,
) -> Result<Keeper<S, J>, Fault> {
    match outcome {
        Ok(keeper) => Ok(keeper),
        Err(refused) => Err(refused.fault),
    }
}

/// No topic of these tests has as many pieces.
const PIECES: usize = 100;

/// What stands of the topic, read piece by piece.
fn loaded<S: Alter, J: Naming, R: Abort + AllocGlobal>(
    rt: &R,
    keeper: &mut Keeper<S, J>,
    name: &str,
) -> Result<Option<Loaded<J>>, Fault>
    ensures { IfOk result (λ found. IfSome found (λ loaded. loaded.kept.kept ≡ loaded.snapshot)) }
{
    let name = topic_name(rt, name);
    for _ in 0..PIECES {
        match keeper.load(&name, Pace::Pieces) {
            Ok(loaded) => return Ok(loaded),
            Err(why) => match why.fault() {
                Some(fault) => return Err(fault),
                None => (),
            },
        }
    }
    panic!(rt; "it has more pieces")
}

impl<S: Alter + Drop, J: Naming> Keeps for Keeper<S, J> {
    type Topic = Lone<J>;

    type Snapshot = Snapshot;

    type Part = Part<J>;

    type Kept = Kept<J>;

    type Database = Database<S, J>;

    fn fresh<R: Abort + AllocGlobal>(rt: &R, name: &str) -> Lone<J> {
        Lone::fresh(rt, name)
    }

    fn ask<R: Abort + AllocGlobal>(rt: &R, topic: &mut Lone<J>, line: &str) -> Answer {
        topic.ask(rt, line)
    }

    fn call<R: Abort>(rt: &R, topic: &mut Lone<J>, event: Event) -> Answer {
        topic.call(rt, event)
    }

    fn snapshot_of<R: Abort>(rt: &R, topic: &Lone<J>) -> Snapshot {
        topic.cell.view().expect(rt, "no memory")
    }

    fn confirm(topic: &mut Lone<J>, kept: Kept<J>) -> bool {
        topic.cell.confirm(kept)
    }

    fn needs_storing(topic: &Lone<J>) -> bool {
        topic.cell.cell().needs_storing()
    }

    fn is_stored(topic: &Lone<J>) -> bool {
        topic.cell.stored().is_some()
    }

    fn is_same(one: &Snapshot, other: &Snapshot) -> bool {
        same(one, other)
    }

    fn had(snapshot: &Snapshot) -> u64 {
        let stay = snapshot.log().count() as u64;
        snapshot.gone().saturating_add(stay)
    }

    fn is_bare(snapshot: &Snapshot) -> bool {
        snapshot.log().count() == 0
            && snapshot.subscriptions().is_empty()
            && snapshot.retention().is_none()
    }

    fn view<R: Abort>(&mut self, rt: &R, topic: &mut Lone<J>) -> Part<J> {
        self.view(&mut topic.cell).expect(rt, "no memory")
    }

    fn store(&mut self, parts: Vec<Part<J>>) -> Result<Vec<Kept<J>>, Fault> {
        match self.store(parts) {
            Ok(kept) => Ok(kept),
            Err(why) => Err(why.fault()),
        }
    }

    fn round(&mut self, topic: &mut Lone<J>) -> Result<u64, Fault> {
        match self.round(&mut topic.cell) {
            Ok(durable) => Ok(durable),
            Err(why) => Err(why.fault()),
        }
    }

    fn show<R: Abort + AllocGlobal>(
        &mut self,
        rt: &R,
        name: &str,
    ) -> Result<Option<Snapshot>, Fault> {
        match loaded(rt, self, name) {
            Ok(Some(loaded)) => Ok(Some(loaded.snapshot)),
            Ok(None) => Ok(None),
            Err(fault) => Err(fault),
        }
    }

    fn stands(&mut self, snapshot: &Snapshot) -> bool {
        match self.load(snapshot.name(), Pace::AtOnce) {
            Ok(Some(loaded)) => {
                let is_same = same(&loaded.snapshot, snapshot);
                drop(loaded);
                is_same
            }
            _ => false,
        }
    }

    fn resume<R: Abort + AllocGlobal>(
        &mut self,
        rt: &R,
        name: &str,
    ) -> Result<Option<(Snapshot, Lone<J>)>, Fault> {
        match loaded(rt, self, name) {
            Ok(Some(loaded)) => Ok(Some(Lone::resumed(rt, loaded))),
            Ok(None) => Ok(None),
            Err(fault) => Err(fault),
        }
    }

    fn forget<R: Abort + AllocGlobal>(&mut self, rt: &R, name: &str) {
        let name = topic_name(rt, name);
        self.forget(&name);
        drop(name);
    }

    fn delete<R: Abort + AllocGlobal>(&mut self, rt: &R, topic: &Lone<J>) -> Result<(), Fault> {
        let found = topic.cell.deletion(rt.alloc()).expect(rt, "no memory");
        match self.delete(found.expect(rt, "it may not be deleted")) {
            Ok(()) => Ok(()),
            Err(why) => Err(why.fault()),
        }
    }

    fn topics(&mut self) -> Result<Vec<TopicName>, Fault> {
        self.topics()
    }

    fn count(&mut self, name: &str) -> Result<Option<TopicCount>, Fault> {
        self.count(name)
    }

    fn written(&self) -> Written {
        self.written()
    }

    fn has_failed(&self) -> bool {
        self.has_failed()
    }

    fn into_database(self) -> Database<S, J> {
        let (conn, notes) = self.into_parts();
        Database { conn, notes }
    }

    fn create<R: AllocGlobal>(rt: &R, database: Database<S, J>) -> Result<Self, Fault> {
        let Database { conn, notes } = database;
        taken(Keeper::create(rt.alloc(), conn, notes))
    }

    fn adopt<R: AllocGlobal>(rt: &R, database: Database<S, J>) -> Result<Self, Fault> {
        let Database { conn, notes } = database;
        match reopen(rt.alloc(), conn) {
            Ok(conn) => taken(Keeper::adopt(rt.alloc(), conn, notes)),
            Err(_) => Err(Fault::StoreFailed),
        }
    }

    fn start<R: AllocGlobal>(rt: &R, database: Database<S, J>) -> Result<Self, Fault> {
        let Database { conn, notes } = database;
        match reopen(rt.alloc(), conn) {
            Ok(conn) => taken(Keeper::start(rt.alloc(), conn, notes)),
            Err(_) => Err(Fault::StoreFailed),
        }
    }

    fn execute(database: &mut Database<S, J>, sql: &str) -> bool {
        database.conn.execute_batch(sql).is_ok()
    }

    fn limit(database: &mut Database<S, J>, rows: u64) {
        database.conn.set_step_limit(Some(rows));
    }
}

/// A keeper over the database, or why there is none, with what the database stands on.
pub(super) fn started<S: Alter + Drop, J: Naming, R: AllocGlobal>(
    rt: &R,
    conn: Connection<S>,
    history: Unnamed<Note>,
) -> Result<Keeper<S, J>, Refused<S, J>>
    requires book { history ≡ J.book }
    requires keyed { HasCleanDisk (state S.Store conn) → IsTrue (state S.Store conn).is_open → AreKeyed (state S.Store conn).now }
{
    Keeper::start(rt.alloc(), conn, Notes::new(history))
}

/// What the database stands on.
pub(super) fn store_of<S: Alter + Drop, J: Naming>(database: Database<S, J>) -> S {
    let Database { conn, notes: _ } = database;
    conn.into_store()
}

fn run<S: Alter + Drop, J: Naming, X: Scene, R: Abort + AllocGlobal>(
    rt: &R,
    conn: Connection<S>,
    history: Unnamed<Note>,
    scene: &X,
)
    requires book { history ≡ J.book }
    requires keyed { HasCleanDisk (state S.Store conn) → IsTrue (state S.Store conn).is_open → AreKeyed (state S.Store conn).now }
{
    let keeper = taken(started::<S, J, R>(rt, conn, history));
    scene.play::<Keeper<S, J>, R>(rt, keeper.expect(rt, "no memory"));
}

/// Plays the scene over an empty database.
pub(super) fn over<S: Alter + Drop, X: Scene, R: Abort + AllocGlobal>(
    rt: &R,
    conn: Connection<S>,
    scene: &X,
)
    requires keyed { HasCleanDisk (state S.Store conn) → IsTrue (state S.Store conn).is_open → AreKeyed (state S.Store conn).now }
{
    run::<S, Brand, X, R>(rt, conn, Unnamed::new(), scene);
}

/// A database in memory, with no table.
fn empty_database<R: Abort + AllocGlobal>(rt: &R) -> Connection<MemStore>
    ensures keyed { AreKeyed (state over_memory result).now }
{
    match open_in_memory(rt.alloc()) {
        Ok(conn) => conn,
        Err(_) => panic!(rt; "no memory"),
    }
}

/// Plays the scene over an empty database in memory.
pub(super) fn in_memory<X: Scene, R: Abort + AllocGlobal>(rt: &R, scene: &X) {
    over(rt, empty_database(rt), scene);
}
