// How a topic comes to be open: what its rows have is loaded, and the topic is listed under its name.
ghost use Rattle.std.specs.Prelude.{◌≡◌, ◌≤◌, ◌<◌, ◌-◌, ◌⊎◌, ◌∷◌, ◌++◌, [], Err, IfErr, IfOk, IfSome, IfNone, IsSome, MatchOption, None, Ok, OnOk, OnErr, length, set, false, true};
ghost use Rattle.topic_shared.specs.Seats.{IsFree};
ghost use Rattle.stored_cell.specs.Opening.{begins};
ghost use Rattle.std.specs.String.{string_bytes};
ghost use Rattle.indexmap.specs.IndexMap.{get_by_text};
ghost use Rattle.position_core.specs.TopicName.{topic_text};
ghost use Rattle.broker_dir.specs.Coming.{HasSeat, IsComing, Lists};
ghost use Rattle.broker_dir.specs.Listing.{HasRoom, IsListed, most_open, names_of};
ghost use Rattle.broker_dir.specs.Refusing.{IsLoadRefusal, IsRefusal, IsSeatRefusal};

use crate::attached::Attached;
use crate::directory::Directory;
use crate::inside::Inside;
use crate::pieces::begin_opening;
use crate::table::Table;
use crate::topic::Shared;
use crate::unloading::{Room, make_place, room_in};
use broker_parts::{Board, Coming, Opening, Opens, Stage, Waiter};
use delivery_machine::{Fault, Opened, TopicName};
use marks::Naming;
use row_forms::topic_text;
use row_store::{Keeper, open_cell};
use session_bells::Bell;
use sqlite::Alter;
use std::alloc::Global;
use std::sync::{Arc, Mutex, Wait};
use stored_cell::Terms;

/// A topic that was just made, the seat of the one who sits there, and whether the courier is to be sent there.
#[derive(Drop)]
struct Made<X> {
    topic: Arc<X>,
    seat: u64,
    sends: bool,
}

impl<T: Opened + Drop, S: Alter, J: Naming, B: Bell + Drop> Directory<T, S, J, B> {
    /// Opens the topic, with one who sits there where a bell is given, and lists it. All that may be refused comes before
    /// it is listed; where as many are open as may be, one that nobody uses leaves after that. A topic of many messages is to
    /// be opened by the thread that stores, and whoever has the bell waits for it.
    pub(crate) fn open_in<R: Wait>(
        &self,
        rt: &R,
        table: &mut Table<T, J, B>,
        text: String,
        name: &TopicName,
        create: bool,
        bell: Option<Arc<B>>,
    ) -> Result<Coming<Attached<T, J, B>, B>, Fault>
        requires text { string_bytes text ≡ topic_text name.now }
        requires new { get_by_text table.old.list.topics (string_bytes text) ≡ None }
        ensures opened { IfOk result (Lists (names_of table.old.list.topics.entries) (string_bytes text) (names_of table.new.list.topics.entries)) }
        ensures at { IfOk result (IsComing (string_bytes text)) }
        ensures seat { IsSome bell → IfOk result HasSeat }
        ensures refused { OnErr result (table.new.list.topics.entries ≡ table.old.list.topics.entries) }
        ensures full { result ≡ Err Fault.TooMany → (most_open ≤ length table.old.list.topics.entries) ⊎ (most_open ≤ length table.new.openings.items) }
        ensures unknown { result ≡ Err Fault.NoSuchSubscription → create ≡ false }
        ensures faults { IfErr result IsRefusal }
    {
        match waiting_for(table, name) {
            Some(Ok(opening)) => {
                drop(text);
                match Waiter::at(rt, opening, bell) {
                    Ok(waiter) => Ok(Coming::Waits(waiter)),
                    Err(fault) => Err(fault),
                }
            }
            Some(Err(fault)) => {
                drop(text);
                drop(bell);
                Err(fault)
            }
            None => self.open_now(rt, table, text, name, create, bell),
        }
    }

    /// The same, where the topic is not being opened.
    fn open_now<R: Wait>(
        &self,
        rt: &R,
        table: &mut Table<T, J, B>,
        text: String,
        name: &TopicName,
        create: bool,
        bell: Option<Arc<B>>,
    ) -> Result<Coming<Attached<T, J, B>, B>, Fault>
        requires text { string_bytes text ≡ topic_text name.now }
        requires new { get_by_text table.old.list.topics (string_bytes text) ≡ None }
        ensures opened { IfOk result (Lists (names_of table.old.list.topics.entries) (string_bytes text) (names_of table.new.list.topics.entries)) }
        ensures at { IfOk result (IsComing (string_bytes text)) }
        ensures seat { IsSome bell → IfOk result HasSeat }
        ensures refused { OnErr result (table.new.list.topics.entries ≡ table.old.list.topics.entries) }
        ensures full { result ≡ Err Fault.TooMany → (most_open ≤ length table.old.list.topics.entries) ⊎ (most_open ≤ length table.new.openings.items) }
        ensures unknown { result ≡ Err Fault.NoSuchSubscription → create ≡ false }
        ensures faults { IfErr result IsRefusal }
    {
        let Some(room) = room_in(rt, table) else {
            drop(text);
            drop(bell);
            return Err(Fault::TooMany);
        };
        match load(rt, self.alloc, &self.keeper, name, create, self.terms) {
            Ok(Some(inside)) => match self.open_with(rt, table, text, name, inside, bell, room) {
                Ok(attached) => Ok(Coming::Seated(attached)),
                Err(fault) => Err(fault),
            },
            Ok(None) => {
                drop(text);
                drop(room);
                match begin_opening(rt, self.alloc, &self.board, table, name, bell) {
                    Ok(waiter) => Ok(Coming::Waits(waiter)),
                    Err(fault) => Err(fault),
                }
            }
            Err(fault) => {
                drop(text);
                drop(bell);
                drop(room);
                Err(fault)
            }
        }
    }

    /// Lists the topic that was loaded, for which there is room. Where that is refused (F21, F1) the keeper lets go of what
    /// it knows of it.
    pub(crate) fn open_with<R: Wait>(
        &self,
        rt: &R,
        table: &mut Table<T, J, B>,
        text: String,
        name: &TopicName,
        mut inside: Inside<T, J, B>,
        bell: Option<Arc<B>>,
        room: Room,
    ) -> Result<Attached<T, J, B>, Fault>
        requires text { string_bytes text ≡ topic_text name.now }
        requires new { get_by_text table.old.list.topics (string_bytes text) ≡ None }
        requires name { inside.topic.name ≡ name.now }
        requires open { inside.stage ≡ Stage.Open }
        requires room { HasRoom room (length table.old.list.topics.entries) }
        ensures opened { OnOk result (IsListed (names_of table.old.list.topics.entries) (string_bytes text) (names_of table.new.list.topics.entries)) }
        ensures at { IfOk result (λ attached. attached.topic.value.name ≡ name.now) }
        ensures seat { IsSome bell → IfOk result (λ attached. 0 < attached.seat) }
        ensures refused { OnErr result (table.new.list.topics.entries ≡ table.old.list.topics.entries) }
        ensures faults { IfErr result (λ fault. (fault ≡ Fault.NoRoom) ⊎ (fault ≡ Fault.NoMemory)) }
    {
        inside.used = self.uses.next();
        let graves = &mut inside.hearers.graves;
        self.counts.resting.wake(rt, text.as_str(), graves);
        let open = table.count();
        match seated(rt, self.alloc, &self.board, inside, name, bell, open) {
            Ok(made) => match self.list(rt, table, text, made, room) {
                Ok(attached) => Ok(attached),
                Err(fault) => {
                    self.forget_opened(rt, name);
                    Err(fault)
                }
            },
            Err(fault) => {
                drop(text);
                drop(room);
                self.forget_opened(rt, name);
                Err(fault)
            }
        }
    }

    /// The topic that was loaded is not open: the keeper lets go of what it knows of it, and it rests on.
    fn forget_opened<R: Wait>(&self, rt: &R, name: &TopicName) {
        forget(rt, &self.keeper, name);
        self.counts.resting.rest_on(rt, name);
    }

    /// Lists the topic, for which there is room, and sends the courier there where it is wanted.
    fn list<R: Wait>(
        &self,
        rt: &R,
        table: &mut Table<T, J, B>,
        text: String,
        made: Made<Shared<T, J, B>>,
        room: Room,
    ) -> Result<Attached<T, J, B>, Fault>
        requires text { string_bytes text ≡ topic_text made.topic.value.name }
        requires new { get_by_text table.old.list.topics (string_bytes text) ≡ None }
        requires room { HasRoom room (length table.old.list.topics.entries) }
        ensures opened { OnOk result (IsListed (names_of table.old.list.topics.entries) (string_bytes text) (names_of table.new.list.topics.entries)) }
        ensures at { IfOk result (λ attached. (attached.topic ≡ made.topic) × (attached.seat ≡ made.seat)) }
        ensures refused { OnErr result (table.new.list.topics.entries ≡ table.old.list.topics.entries) }
        ensures fault { IfErr result (λ fault. fault ≡ Fault.NoMemory) }
    {
        let Made { topic, seat, sends } = made;
        let errand = match clone_of(&topic) {
            Ok(errand) => errand,
            Err(fault) => {
                drop(text);
                drop(topic);
                return Err(fault);
            }
        };
        if !add_to(table, text, &topic) {
            drop(errand);
            drop(topic);
            return Err(Fault::NoMemory);
        }
        make_place(rt, &self.keeper, &self.counts, table, room);
        self.counts.load();
        if sends {
            self.board.send(rt, errand);
        } else {
            drop(errand);
        }
        Ok(Attached { topic, seat })
    }

    /// The open topic of the name, which is made where it is not known. Refused (F1) as long as it is being opened: whoever
    /// asked comes again.
    fn topic_for<R: Wait>(&self, rt: &R, name: &TopicName) -> Result<Arc<Shared<T, J, B>>, Fault>
        ensures at { IfOk result (λ topic. topic_text topic.value.name ≡ topic_text name.now) }
        ensures faults { IfErr result IsRefusal }
    {
        let Ok(text) = topic_text(self.alloc, name) else {
            return Err(Fault::NoMemory);
        };
        let mut guard = self.table.lock(rt);
        let table = &mut *guard;
        match found_in(table, text.as_str()) {
            Some(topic) => {
                drop(text);
                if let Ok(topic) = &topic {
                    topic.touch(rt, self.uses.next());
                }
                topic
            }
            None => match self.open_in(rt, table, text, name, true, None) {
                Ok(Coming::Seated(attached)) => Ok(attached.into_topic()),
                Ok(Coming::Waits(waiter)) => {
                    drop(waiter);
                    Err(Fault::NoMemory)
                }
                Err(fault) => Err(fault),
            },
        }
    }
}

impl<T: Opened + Drop, S: Alter, J: Naming, B: Bell + Drop> Opens<Shared<T, J, B>>
    for Directory<T, S, J, B> {
    fn board(&self) -> &Board<Arc<Shared<T, J, B>>> {
        &self.board
    }

    fn open_topic<R: Wait>(&self, rt: &R, name: &TopicName) -> Result<Arc<Shared<T, J, B>>, Fault> {
        self.topic_for(rt, name)
    }
}

/// What the rows have of the topic, with the keeper's lock held: `open_cell` says what that is. Of a topic that is not to
/// be made something is stored. None where it has more messages than are read at a time.
fn load<T: Opened + Drop, S: Alter, J: Naming, B: Bell + Drop, R: Wait>(
    rt: &R,
    alloc: Global,
    keeper: &Mutex<Keeper<S, J>>,
    name: &TopicName,
    create: bool,
    terms: Terms,
) -> Result<Option<Inside<T, J, B>>, Fault>
    ensures name { IfOk result (λ found. IfSome found (λ inside. inside.topic.name ≡ name.now)) }
    ensures open { IfOk result (λ found. IfSome found (λ inside. inside.stage ≡ Stage.Open)) }
    ensures begins { IfOk result (λ found. IfSome found (λ inside. inside.topic.cell.cell ≡ begins inside.topic.cell.cell.state terms)) }
    ensures known { create ≡ false → IfOk result (λ found. IfSome found (λ inside. IsSome inside.topic.cell.stored)) }
    ensures unknown { result ≡ Err Fault.NoSuchSubscription → create ≡ false }
    ensures faults { IfErr result IsLoadRefusal }
{
    let mut keeper = keeper.lock(rt);
    let topic = match open_cell(alloc, &mut *keeper, name, create, terms) {
        Ok(Some(topic)) => topic,
        Ok(None) => return Ok(None),
        Err(fault) => return Err(fault),
    };
    drop(keeper);
    match Inside::opened(alloc, topic) {
        Ok(inside) => Ok(Some(inside)),
        Err(fault) => Err(fault),
    }
}

/// The keeper lets go of what it knows of a topic that was loaded and is not open.
pub(crate) fn forget<S: Alter, J: Naming, R: Wait>(
    rt: &R,
    keeper: &Mutex<Keeper<S, J>>,
    name: &TopicName,
) {
    let mut keeper = keeper.lock(rt);
    keeper.forget(name);
}

/// The topic under a lock of its own, with room for it on the board, and the one with the bell at a seat there.
fn seated<X: Drop, T: Opened + Drop, J: Naming, B: Bell + Drop, R: Wait>(
    rt: &R,
    alloc: Global,
    board: &Board<X>,
    mut inside: Inside<T, J, B>,
    name: &TopicName,
    bell: Option<Arc<B>>,
    open: usize,
) -> Result<Made<Shared<T, J, B>>, Fault>
    requires name { inside.topic.name ≡ name.now }
    requires open { inside.stage ≡ Stage.Open }
    ensures at { IfOk result (λ made. made.topic.value.name ≡ name.now) }
    ensures seat { IsSome bell → IfOk result (λ made. 0 < made.seat) }
    ensures faults { IfErr result (λ fault. (fault ≡ Fault.NoRoom) ⊎ (fault ≡ Fault.NoMemory)) }
{
    let has_letters = inside.hearers.has_letters();
    let sends = inside.wanted.courier(has_letters);
    match seat_for(&mut inside, bell) {
        Ok(seat) => match share(rt, alloc, board, inside, name, open) {
            Ok(topic) => Ok(Made { topic, seat, sends }),
            Err(fault) => Err(fault),
        },
        Err(fault) => {
            drop(inside);
            Err(fault)
        }
    }
}

/// The topic under a lock of its own, with room for it on the board.
fn share<X: Drop, T: Opened + Drop, J: Naming, B: Bell + Drop, R: Wait>(
    rt: &R,
    alloc: Global,
    board: &Board<X>,
    inside: Inside<T, J, B>,
    name: &TopicName,
    open: usize,
) -> Result<Arc<Shared<T, J, B>>, Fault>
    requires { inside.topic.name ≡ name.now }
    ensures at { IfOk result (λ topic. topic.value.name ≡ name.now) }
    ensures fault { IfErr result (λ fault. fault ≡ Fault.NoMemory) }
{
    match name_with_room(rt, board, name, open) {
        Ok(name) => shared(alloc, name, inside),
        Err(fault) => {
            drop(inside);
            Err(fault)
        }
    }
}

/// The name of a further topic, for which there is room on the board.
fn name_with_room<X: Drop, R: Wait>(
    rt: &R,
    board: &Board<X>,
    name: &TopicName,
    open: usize,
) -> Result<TopicName, Fault>
    ensures ok { IfOk result (λ copy. copy ≡ name.now) }
    ensures fault { IfErr result (λ fault. fault ≡ Fault.NoMemory) }
{
    if !board.make_room(rt, open.saturating_add(1)) {
        return Err(Fault::NoMemory);
    }
    match name.clone() {
        Ok(name) => Ok(name),
        Err(_) => Err(Fault::NoMemory),
    }
}

/// The topic under a lock, with its name beside it.
fn shared<T: Opened + Drop, J: Naming, B: Bell + Drop>(
    alloc: Global,
    name: TopicName,
    inside: Inside<T, J, B>,
) -> Result<Arc<Shared<T, J, B>>, Fault>
    requires { inside.topic.name ≡ name }
    ensures at { IfOk result (λ topic. topic.value.name ≡ name) }
    ensures fault { IfErr result (λ fault. fault ≡ Fault.NoMemory) }
{
    match Arc::new(alloc, Shared::new(name, inside)) {
        Ok(topic) => Ok(topic),
        Err(_) => Err(Fault::NoMemory),
    }
}

pub(crate) fn clone_of<X>(topic: &Arc<X>) -> Result<Arc<X>, Fault>
    ensures ok { IfOk result (λ copy. copy.value ≡ topic.now.value) }
    ensures fault { IfErr result (λ fault. fault ≡ Fault.NoMemory) }
{
    match Arc::try_clone(topic) {
        Ok(topic) => Ok(topic),
        Err(_) => Err(Fault::NoMemory),
    }
}

/// The topic that is open under the text; it may have too many owners for one more.
pub(crate) fn found_in<T: Opened + Drop, J: Naming, B: Bell + Drop>(
    table: &Table<T, J, B>,
    text: &str,
) -> Option<Result<Arc<Shared<T, J, B>>, Fault>>
    ensures none { IfNone result (get_by_text table.now.list.topics text.now ≡ None) }
    ensures at { IfSome result (λ found. IfOk found (λ topic. topic_text topic.value.name ≡ text.now)) }
    ensures fault { IfSome result (λ found. IfErr found (λ fault. fault ≡ Fault.NoMemory)) }
{
    match table.find(text) {
        Some(topic) => Some(clone_of(topic)),
        None => None,
    }
}

/// The opening of the topic that is under way; it may have too many owners for one more.
fn waiting_for<T: Opened + Drop, J: Naming, B: Bell + Drop>(
    table: &Table<T, J, B>,
    name: &TopicName,
) -> Option<Result<Arc<Opening<B>>, Fault>>
    ensures at { IfSome result (λ found. IfOk found (λ opening. topic_text opening.value.name ≡ topic_text name.now)) }
    ensures fault { IfSome result (λ found. IfErr found (λ fault. fault ≡ Fault.NoMemory)) }
{
    match table.opening_of(name) {
        Some(opening) => Some(clone_of(opening)),
        None => None,
    }
}

/// The topic is open under the name. False for want of memory.
fn add_to<T: Opened + Drop, J: Naming, B: Bell + Drop>(
    table: &mut Table<T, J, B>,
    name: String,
    topic: &Arc<Shared<T, J, B>>,
) -> bool
    requires named { string_bytes name ≡ topic_text topic.now.value.name }
    requires new { get_by_text table.old.list.topics (string_bytes name) ≡ None }
    ensures added { result ≡ true → names_of table.new.list.topics.entries ≡ names_of table.old.list.topics.entries ++ string_bytes name ∷ [] }
    ensures refused { result ≡ false → table.new.list.topics.entries ≡ table.old.list.topics.entries }
{
    match clone_of(topic) {
        Ok(topic) => table.add(name, topic),
        Err(_) => {
            drop(name);
            false
        }
    }
}

/// The seat of the one with the bell; 0 where nobody sits down.
fn seat_for<T: Opened + Drop, J: Naming, B: Bell + Drop>(
    inside: &mut Inside<T, J, B>,
    bell: Option<Arc<B>>,
) -> Result<u64, Fault>
    requires { inside.old.stage ≡ Stage.Open }
    ensures seat { MatchOption bell ((result ≡ Ok 0) × (inside.new.topic.cell ≡ inside.old.topic.cell)) (λ _. IfOk result (λ seat. IsFree inside.old.topic.cell.cell.taken seat × (inside.new.topic.cell.cell.taken ≡ set inside.old.topic.cell.cell.taken (seat - 1) true))) }
    ensures faults { IfErr result (λ fault. (fault ≡ Fault.NoRoom) ⊎ (fault ≡ Fault.NoMemory)) }
    ensures name { inside.new.topic.name ≡ inside.old.topic.name }
{
    match bell {
        Some(bell) => inside.enter(bell),
        None => Ok(0),
    }
}
