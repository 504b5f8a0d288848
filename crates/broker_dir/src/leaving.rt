// A topic whose journal is full leaves the directory once nobody is there: it is stored, and the next who comes loads it.
ghost use Rattle.std.specs.Prelude.{◌≡◌, OnOk, false};
ghost use Rattle.sqlite.specs.State.{HasCleanDisk};
ghost use Rattle.sqlite.specs.Held.{state};
ghost use Rattle.row_store.specs.Keeping.{StoresState};

use crate::directory::Directory;
use crate::inside::Inside;
use crate::table::Table;
use crate::topic::Shared;
use crate::unloading::{Leaver, let_go, unused_at};
use broker_parts::{Counts, Guarded, Stage};
use delivery_machine::{Fault, Opened};
use marks::Naming;
use row_store::{Keeper, Unmade, Unstored};
use session_bells::Bell;
use sqlite::Alter;
use std::sync::{Arc, Mutex, Wait};

impl<T: Opened + Drop, S: Alter, J: Naming, B: Bell + Drop> Directory<T, S, J, B> {
    /// The topic is seen out, unless somebody is there still. Where there is no memory for its last store it is tried again
    /// once a minute.
    pub(crate) fn see_out<R: Wait>(&self, rt: &R, topic: Arc<Shared<T, J, B>>) {
        topic.call_off(rt);
        let mut guard = self.table.lock(rt);
        let table = &mut *guard;
        let place = table.place_of(&topic.name);
        drop(topic);
        let stored = match place {
            Some(place) => see_out_at(rt, &self.keeper, &self.counts, table, place),
            None => Ok(()),
        };
        drop(guard);
        self.close_where_failed(rt, stored);
    }

    /// All whose journals are full are seen out, as far as nobody is there.
    pub(crate) fn see_all_out<R: Wait>(&self, rt: &R) {
        let mut table = self.table.lock(rt);
        let stored = see_each_out(rt, &self.keeper, &self.counts, &mut *table);
        drop(table);
        self.close_where_failed(rt, stored);
    }

    /// Closes the directory where the store failed.
    fn close_where_failed<R: Wait>(&self, rt: &R, stored: Result<(), Unstored>) {
        match stored {
            Ok(()) => {}
            Err(Unstored::NoMemory) => {}
            Err(Unstored::Failed(failed)) => drop(self.close_after(rt, failed)),
        }
    }
}

fn see_each_out<T: Opened + Drop, S: Alter, J: Naming, B: Bell + Drop, R: Wait>(
    rt: &R,
    keeper: &Mutex<Keeper<S, J>>,
    counts: &Counts,
    table: &mut Table<T, J, B>,
) -> Result<(), Unstored> {
    let count = table.count();
    for passed in 0..count {
        match see_out_at(rt, keeper, counts, table, count - 1 - passed) {
            Ok(()) => {}
            Err(unstored) => return Err(unstored),
        }
    }
    Ok(())
}

/// The topic at the place is stored and leaves, where its journal is full and nobody but the table has it. The table's lock
/// is held, so that nobody comes to it meanwhile.
fn see_out_at<T: Opened + Drop, S: Alter, J: Naming, B: Bell + Drop, R: Wait>(
    rt: &R,
    keeper: &Mutex<Keeper<S, J>>,
    counts: &Counts,
    table: &mut Table<T, J, B>,
    place: usize,
) -> Result<(), Unstored> {
    let Some(sole) = table.sole_at(place) else {
        return Ok(());
    };
    drop(sole);
    let stored = match table.at(place) {
        Some(topic) => store_last(rt, keeper, topic),
        None => Ok(false),
    };
    match stored {
        Ok(true) => {
            if let Some(unused) = unused_at(rt, table, place, Leaver::Stored) {
                let_go(rt, keeper, counts, table, unused);
            }
            Ok(())
        }
        Ok(false) => Ok(()),
        Err(unstored) => Err(unstored),
    }
}

/// The last store of the topic, where its journal is full. Whether it is.
fn store_last<T: Opened + Drop, S: Alter, J: Naming, B: Bell + Drop, R: Wait>(
    rt: &R,
    keeper: &Mutex<Keeper<S, J>>,
    topic: &Shared<T, J, B>,
) -> Result<bool, Unstored> {
    if !topic.signs.is_over() {
        return Ok(false);
    }
    let mut keeper = keeper.lock(rt);
    let mut inside = topic.inside.lock(rt);
    if inside.stage != Stage::Leaving {
        return Ok(false);
    }
    match store_now(&mut *keeper, &mut *inside) {
        Ok(()) => Ok(true),
        Err(unstored) => Err(unstored),
    }
}

/// The topic is stored as it is, in one hold.
fn store_now<T: Opened + Drop, S: Alter, J: Naming, B: Bell + Drop>(
    keeper: &mut Keeper<S, J>,
    inside: &mut Inside<T, J, B>,
) -> Result<(), Unstored>
    ensures rows { HasCleanDisk (state S.Store keeper.new.conn) → OnOk result (StoresState inside.old.topic.cell.cell.state (state S.Store keeper.old.conn).now.trees (state S.Store keeper.new.conn).now.trees) }
    ensures ok { OnOk result (keeper.new.failed ≡ false) }
{
    match inside.store_by(keeper) {
        Ok(()) => Ok(()),
        Err(Unmade::Unstored(unstored)) => Err(unstored),
        Err(Unmade::JournalFull) => Err(Unstored::of(Fault::JournalFull)),
    }
}
