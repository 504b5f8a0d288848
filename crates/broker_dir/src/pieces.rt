// A topic of many messages is opened by the thread that stores, piece by piece: meanwhile whoever asked for it waits, and
// all others are served.
ghost use Rattle.std.specs.Prelude.{◌≡◌, ◌≤◌, ◌⊎◌, ◌++◌, ◌∷◌, [], IfOk, IfErr, IfSome, OnErr, Err, None, Some, length, map, true, false};
ghost use Rattle.std.specs.String.{string_bytes};
ghost use Rattle.indexmap.specs.IndexMap.{get_by_text};
ghost use Rattle.position_core.specs.TopicName.{topic_text};
ghost use Rattle.broker_dir.specs.Listing.{most_open};

use crate::directory::Directory;
use crate::inside::Inside;
use crate::opening::{clone_of, forget, found_in};
use crate::table::{MOST_OPEN, Table};
use crate::topic::Shared;
use crate::unloading::room_in;
use broker_parts::{Board, Opening, Outcome, Stage, Tasks, Waiter, instant, since};
use delivery_machine::{Fault, Opened, TopicName};
use marks::Naming;
use row_forms::topic_text;
use row_store::{Keeper, LoadedTopic, Unread, load_topic};
use session_bells::Bell;
use sqlite::Alter;
use std::alloc::Global;
use std::rt::Clock;
use std::sync::{Arc, Mutex, Wait};
use stored_cell::Terms;

/// How many stores the thread makes before it makes a topic of what was read.
const MOST_BEFORE: u32 = 8;

impl<T: Opened + Drop, S: Alter, J: Naming, B: Bell + Drop> Directory<T, S, J, B> {
    /// Reads a piece of the topic that was asked for first, with the right to store. Where that was the last one, the right is
    /// let go of, and the topic is made and opened, which takes a while where it has many messages.
    pub(crate) fn open_on<R: Wait + Clock>(&self, rt: &R, tasks: &mut Tasks<Shared<T, J, B>>) {
        let Some(opening) = first_opening(rt, &self.board, &self.table) else {
            return;
        };
        let began = match tasks.loading.take() {
            Some(began) => Some(began),
            None => instant(rt),
        };
        match read_on(rt, &self.keeper, &opening.name) {
            Ok(Some(loaded)) => {
                self.step_aside(rt);
                let outcome = self.open_read(rt, &opening.name, loaded);
                let took = since(began, instant(rt));
                self.counts.note_load(rt, &opening.name, took);
                end_opening(rt, &self.table, opening, outcome);
            }
            // (who waits for one that has no rows any more comes again, and makes it or is refused)
            Ok(None) => end_opening(rt, &self.table, opening, Outcome::Open),
            Err(why) => match why.fault() {
                Some(fault) => end_opening(rt, &self.table, opening, Outcome::Refused(fault)),
                None => {
                    tasks.loading = began;
                    drop(opening);
                }
            },
        }
    }

    /// What came while the piece was read is stored, and the right to store is let go of: however much comes meanwhile, after
    /// so many stores.
    fn step_aside<R: Wait + Clock>(&self, rt: &R) {
        for count in 0..=MOST_BEFORE {
            let Some(topics) = self.board.step_aside(rt, count == MOST_BEFORE) else {
                return;
            };
            self.store(rt, topics.as_slice());
        }
    }

    /// The topic that was read is made, with all locks free, and is open then.
    fn open_read<R: Wait>(&self, rt: &R, name: &TopicName, loaded: LoadedTopic<J>) -> Outcome
        requires { loaded.stored.kept.name ≡ name.now }
    {
        match made_of(self.alloc, self.terms, loaded) {
            Ok(inside) => self.open_loaded(rt, name, inside),
            Err(fault) => {
                forget(rt, &self.keeper, name);
                Outcome::Refused(fault)
            }
        }
    }

    /// The topic that was loaded is open, where there is room for it.
    fn open_loaded<R: Wait>(&self, rt: &R, name: &TopicName, inside: Inside<T, J, B>) -> Outcome
        requires name { inside.topic.name ≡ name.now }
        requires open { inside.stage ≡ Stage.Open }
    {
        let Ok(text) = topic_text(self.alloc, name) else {
            drop(inside);
            forget(rt, &self.keeper, name);
            return Outcome::Refused(Fault::NoMemory);
        };
        let mut guard = self.table.lock(rt);
        let table = &mut *guard;
        match found_in(table, text.as_str()) {
            Some(topic) => {
                drop(text);
                drop(inside);
                drop(topic);
                Outcome::Open
            }
            None => self.list_loaded(rt, table, text, name, inside),
        }
    }

    fn list_loaded<R: Wait>(
        &self,
        rt: &R,
        table: &mut Table<T, J, B>,
        text: String,
        name: &TopicName,
        inside: Inside<T, J, B>,
    ) -> Outcome
        requires text { string_bytes text ≡ topic_text name.now }
        requires new { get_by_text table.old.list.topics (string_bytes text) ≡ None }
        requires name { inside.topic.name ≡ name.now }
        requires open { inside.stage ≡ Stage.Open }
    {
        let Some(room) = room_in(rt, table) else {
            drop(text);
            drop(inside);
            forget(rt, &self.keeper, name);
            return Outcome::Refused(Fault::TooMany);
        };
        match self.open_with(rt, table, text, name, inside, None, room) {
            Ok(attached) => {
                drop(attached);
                Outcome::Open
            }
            Err(fault) => Outcome::Refused(fault),
        }
    }
}

/// Reads a piece of the topic, with the keeper's lock held: `load_topic` says what that is.
fn read_on<S: Alter, J: Naming, R: Wait>(
    rt: &R,
    keeper: &Mutex<Keeper<S, J>>,
    name: &TopicName,
) -> Result<Option<LoadedTopic<J>>, Unread>
    ensures { IfOk result (λ found. IfSome found (λ loaded. loaded.stored.kept.name ≡ name.now)) }
{
    let mut keeper = keeper.lock(rt);
    load_topic(&mut *keeper, name)
}

/// The topic, which goes on from what was loaded.
fn made_of<T: Opened + Drop, J: Naming, B: Bell + Drop>(
    alloc: Global,
    terms: Terms,
    loaded: LoadedTopic<J>,
) -> Result<Inside<T, J, B>, Fault>
    ensures name { IfOk result (λ inside. inside.topic.name ≡ loaded.stored.kept.name) }
    ensures stored { IfOk result (λ inside. inside.topic.cell.stored ≡ Some loaded.stored) }
    ensures open { IfOk result (λ inside. inside.stage ≡ Stage.Open) }
    ensures fault { IfErr result (λ fault. fault ≡ Fault.NoMemory) }
{
    match loaded.open(alloc, terms) {
        Ok(topic) => Inside::opened(alloc, topic),
        Err(fault) => Err(fault),
    }
}

/// The topic that was asked for first. Where there is none, none waits to be opened.
fn first_opening<X: Drop, T: Opened + Drop, J: Naming, B: Bell + Drop, R: Wait>(
    rt: &R,
    board: &Board<X>,
    table: &Mutex<Table<T, J, B>>,
) -> Option<Arc<Opening<B>>> {
    let table = table.lock(rt);
    let first = match table.first_opening() {
        Some(opening) => clone_of(opening).ok(),
        None => None,
    };
    if first.is_none() {
        board.opened(rt);
    }
    first
}

/// The opening has ended, and all who wait for it learn what it came to.
fn end_opening<T: Opened + Drop, J: Naming, B: Bell + Drop, R: Wait>(
    rt: &R,
    table: &Mutex<Table<T, J, B>>,
    opening: Arc<Opening<B>>,
    outcome: Outcome,
) {
    let mut guard = table.lock(rt);
    let table = &mut *guard;
    table.end_opening(&opening.name);
    drop(guard);
    opening.end(rt, outcome);
    drop(opening);
}

/// The topic is to be opened by the thread that stores, and whoever has the bell waits for it. Refused (F7) where 256 are
/// being opened, and (F1) for want of memory.
pub(crate) fn begin_opening<X: Drop, T: Opened + Drop, J: Naming, B: Bell + Drop, R: Wait>(
    rt: &R,
    alloc: Global,
    board: &Board<X>,
    table: &mut Table<T, J, B>,
    name: &TopicName,
    bell: Option<Arc<B>>,
) -> Result<Waiter<B>, Fault>
    ensures same { table.new.list ≡ table.old.list }
    ensures at { IfOk result (λ waiter. waiter.opening.value.name ≡ name.now) }
    ensures waits { IfOk result (λ _. map (λ opening. opening.value.name) table.new.openings.items ≡ map (λ opening. opening.value.name) table.old.openings.items ++ name.now ∷ []) }
    ensures full { result ≡ Err Fault.TooMany → most_open ≤ length table.new.openings.items }
    ensures faults { IfErr result (λ fault. (fault ≡ Fault.TooMany) ⊎ (fault ≡ Fault.NoMemory)) }
{
    if table.openings() >= MOST_OPEN {
        drop(bell);
        return Err(Fault::TooMany);
    }
    match begun(alloc, table, name) {
        Ok(opening) => {
            board.open(rt);
            Waiter::at(rt, opening, bell)
        }
        Err(fault) => {
            drop(bell);
            Err(fault)
        }
    }
}

/// The topic is among those that are being opened.
fn begun<T: Opened + Drop, J: Naming, B: Bell + Drop>(
    alloc: Global,
    table: &mut Table<T, J, B>,
    name: &TopicName,
) -> Result<Arc<Opening<B>>, Fault>
    ensures same { table.new.list ≡ table.old.list }
    ensures at { IfOk result (λ opening. opening.value.name ≡ name.now) }
    ensures added { IfOk result (λ _. map (λ opening. opening.value.name) table.new.openings.items ≡ map (λ opening. opening.value.name) table.old.openings.items ++ name.now ∷ []) }
    ensures refused { OnErr result (table.new.openings.items ≡ table.old.openings.items) }
    ensures fault { IfErr result (λ fault. fault ≡ Fault.NoMemory) }
{
    let opening = match opening_for(alloc, name) {
        Ok(opening) => opening,
        Err(fault) => return Err(fault),
    };
    if add_to(table, &opening) {
        Ok(opening)
    } else {
        drop(opening);
        Err(Fault::NoMemory)
    }
}

fn opening_for<B: Bell + Drop>(alloc: Global, name: &TopicName) -> Result<Arc<Opening<B>>, Fault>
    ensures at { IfOk result (λ opening. opening.value.name ≡ name.now) }
    ensures fault { IfErr result (λ fault. fault ≡ Fault.NoMemory) }
{
    let Ok(name) = name.clone() else {
        return Err(Fault::NoMemory);
    };
    match Arc::new(alloc, Opening::new(alloc, name)) {
        Ok(opening) => Ok(opening),
        Err(_) => Err(Fault::NoMemory),
    }
}

/// False for want of memory.
fn add_to<T: Opened + Drop, J: Naming, B: Bell + Drop>(
    table: &mut Table<T, J, B>,
    opening: &Arc<Opening<B>>,
) -> bool
    ensures same { table.new.list ≡ table.old.list }
    ensures added { result ≡ true → map (λ opening. opening.value.name) table.new.openings.items ≡ map (λ opening. opening.value.name) table.old.openings.items ++ opening.now.value.name ∷ [] }
    ensures refused { result ≡ false → table.new.openings.items ≡ table.old.openings.items }
{
    match clone_of(opening) {
        Ok(opening) => table.add_opening(opening),
        Err(_) => false,
    }
}
