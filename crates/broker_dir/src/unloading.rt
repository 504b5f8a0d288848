// Topics leave the directory that nobody uses. The table's lock is held, so that nobody comes to one meanwhile.
ghost use Rattle.std.specs.Prelude.{◌≡◌, ◌≤◌, ◌<◌, ◌⊎◌, IfNone, IfSome, MatchOption, length};
ghost use Rattle.std.specs.List.{remove};
ghost use Rattle.broker_dir.specs.Listing.{HasRoom, after_making, most_open, names_of};

use crate::directory::Directory;
use crate::inside::Rested;
use crate::table::{MOST_OPEN, Sole, Table};
use crate::topic::Shared;
use broker_parts::{Counts, Tasks, instant, since};
use delivery_machine::Opened;
use marks::Naming;
use row_store::Keeper;
use session_bells::Bell;
use sqlite::Alter;
use std::rt::Clock;
use std::sync::{Arc, Mutex, Wait};

/// Where a further topic has room.
#[derive(Drop)]
pub(crate) enum Room {
    /// Fewer are open than may be.
    Free,
    /// Once this one has left.
    InPlaceOf(Unused),
}

/// A topic that nobody uses. Nothing leaves but what is one, and what was deleted.
#[derive(Drop)]
pub(crate) struct Unused {
    /// Its place, by the table's word.
    sole: Sole,
    /// By the topic's own word.
    rested: Rested,
}

impl Unused {
    /// The number of its last use.
    fn used(&self) -> u64 {
        self.rested.used()
    }
}

/// The one whose last use is longer ago.
fn longer(one: Option<Unused>, other: Unused) -> Unused
    ensures { MatchOption one (result ≡ other) (λ one. (result ≡ one) ⊎ (result ≡ other)) }
{
    match one {
        Some(one) => if one.used() <= other.used() {
            drop(other);
            one
        } else {
            drop(one);
            other
        },
        None => other,
    }
}

/// A topic that nobody uses, and that may leave.
#[derive(Clone, Copy, Debug, PartialEq, Eq)]
pub(crate) enum Leaver {
    /// What is stored of it is the topic as it is.
    Stored,
    /// Nothing is stored of it, and nothing is in it.
    Blank,
}

/// The topic at the place, where nobody but the table has it, and it is so.
pub(crate) fn unused_at<T: Opened + Drop, J: Naming, B: Bell + Drop, R: Wait>(
    rt: &R,
    table: &mut Table<T, J, B>,
    place: usize,
    leaver: Leaver,
) -> Option<Unused>
    ensures same { table.new.list.topics.entries ≡ table.old.list.topics.entries }
    ensures there { IfSome result (λ unused. (unused.sole.place ≡ place) × (place < length table.old.list.topics.entries)) }
{
    let Some(sole) = table.sole_at(place) else {
        return None;
    };
    match table.at(place) {
        Some(topic) => match rested(rt, topic, leaver) {
            Some(rested) => Some(Unused { sole, rested }),
            None => None,
        },
        None => None,
    }
}

/// The one that nobody has used for the longest; none where each is in use.
fn least_used<T: Opened + Drop, J: Naming, B: Bell + Drop, R: Wait>(
    rt: &R,
    table: &mut Table<T, J, B>,
) -> Option<Unused>
    ensures same { table.new.list.topics.entries ≡ table.old.list.topics.entries }
    ensures there { IfSome result (λ unused. unused.sole.place < length table.old.list.topics.entries) }
{
    let mut least = None;
    for place in 0..table.count() {
        if let Some(unused) = unused_at(rt, table, place, Leaver::Stored) {
            least = Some(longer(least, unused));
        }
    }
    least
}

/// Where a further topic has room; nowhere where as many are open as may be, and each is in use.
pub(crate) fn room_in<T: Opened + Drop, J: Naming, B: Bell + Drop, R: Wait>(
    rt: &R,
    table: &mut Table<T, J, B>,
) -> Option<Room>
    ensures same { table.new.list.topics.entries ≡ table.old.list.topics.entries }
    ensures room { IfSome result (λ room. HasRoom room (length table.old.list.topics.entries)) }
    ensures none { IfNone result (most_open ≤ length table.old.list.topics.entries) }
{
    if table.count() < MOST_OPEN {
        return Some(Room::Free);
    }
    match least_used(rt, table) {
        Some(unused) => Some(Room::InPlaceOf(unused)),
        None => None,
    }
}

/// The topic leaves in whose place there was room.
pub(crate) fn make_place<T: Opened + Drop, S: Alter, J: Naming, B: Bell + Drop, R: Wait>(
    rt: &R,
    keeper: &Mutex<Keeper<S, J>>,
    counts: &Counts,
    table: &mut Table<T, J, B>,
    room: Room,
)
    ensures { names_of table.new.list.topics.entries ≡ after_making room (names_of table.old.list.topics.entries) }
{
    if let Room::InPlaceOf(unused) = room {
        let_go(rt, keeper, counts, table, unused);
    }
}

/// The topic leaves the directory, and the keeper lets go of what it knew of it.
pub(crate) fn let_go<T: Opened + Drop, S: Alter, J: Naming, B: Bell + Drop, R: Wait>(
    rt: &R,
    keeper: &Mutex<Keeper<S, J>>,
    counts: &Counts,
    table: &mut Table<T, J, B>,
    unused: Unused,
)
    ensures { names_of table.new.list.topics.entries ≡ remove (names_of table.old.list.topics.entries) unused.sole.place }
{
    let Unused { sole, rested } = unused;
    let Some(topic) = table.remove(sole, rested) else {
        return;
    };
    counts.unload();
    note_rest(rt, counts, &topic);
    let mut keeper = keeper.lock(rt);
    keeper.forget(&topic.name);
    drop(keeper);
    drop(topic);
}

/// What is seen of the topic stays so, since it rests.
fn note_rest<T: Opened + Drop, J: Naming, B: Bell + Drop, R: Wait>(
    rt: &R,
    counts: &Counts,
    topic: &Shared<T, J, B>,
) {
    let mut inside = topic.inside.lock(rt);
    let seen = inside.seen_rest(counts.resting.alloc());
    drop(inside);
    match seen {
        Ok(seen) => counts.resting.put(rt, &topic.name, seen),
        Err(_) => counts.resting.remove(rt, &topic.name),
    }
}

/// Nothing is stored of the topic, and nothing was in it: it leaves, unless somebody has come to it since. The keeper
/// knows nothing of it.
pub(crate) fn leave_blank<T: Opened + Drop, J: Naming, B: Bell + Drop, R: Wait>(
    rt: &R,
    table: &Mutex<Table<T, J, B>>,
    counts: &Counts,
    topic: Arc<Shared<T, J, B>>,
) {
    let mut guard = table.lock(rt);
    let table = &mut *guard;
    let place = table.place_of(&topic.name);
    drop(topic);
    if let Some(place) = place
        && let Some(Unused { sole, rested }) = unused_at(rt, table, place, Leaver::Blank)
    {
        drop(table.remove(sole, rested));
        counts.unload();
    }
}

/// Topics leave that nobody uses, and whose last use came before that of the number.
fn unload<T: Opened + Drop, S: Alter, J: Naming, B: Bell + Drop, R: Wait>(
    rt: &R,
    keeper: &Mutex<Keeper<S, J>>,
    counts: &Counts,
    table: &mut Table<T, J, B>,
    last: u64,
) {
    let count = table.count();
    for passed in 0..count {
        if let Some(unused) = unused_at(rt, table, count - 1 - passed, Leaver::Stored) {
            if unused.used() < last {
                let_go(rt, keeper, counts, table, unused);
            } else {
                drop(unused);
            }
        }
    }
}

impl<T: Opened + Drop, S: Alter, J: Naming, B: Bell + Drop> Directory<T, S, J, B> {
    /// Topics leave that nobody uses, and nobody has used for five minutes, and those whose journals are full; the others are
    /// asked to let go what is too old or unused. It looks at them once a minute.
    pub(crate) fn look<R: Wait + Clock>(&self, rt: &R, tasks: &mut Tasks<Shared<T, J, B>>) {
        let time = tasks.time;
        if tasks.looks.is_due(time) {
            let passed = tasks.looks.passed(time);
            let last = tasks.looks.mark(self.uses.made(), time);
            let before = self.counts.unloads();
            let mut table = self.table.lock(rt);
            unload(rt, &self.keeper, &self.counts, &mut *table, last);
            drop(table);
            let took = since(time, instant(rt));
            self.counts.note_unloads(rt, before, took);
            self.see_all_out(rt);
            let rules = self.rules(rt);
            self.counts.resting.look(rt, passed);
            self.wake_due(rt, &rules);
            let table = self.table.lock(rt);
            table.tend_each(rt, &self.board, &self.counts, &rules, passed);
        }
    }
}

/// The topic's last use, where it is so, and so may leave.
fn rested<T: Opened + Drop, J: Naming, B: Bell + Drop, R: Wait>(
    rt: &R,
    topic: &Shared<T, J, B>,
    leaver: Leaver,
) -> Option<Rested> {
    let inside = topic.inside.lock(rt);
    match leaver {
        Leaver::Stored => inside.rests_since(),
        Leaver::Blank => inside.rests_blank(),
    }
}
