// How a topic comes to be open: from the rows that stand there, or with nothing in it.
ghost use Rattle.std.specs.Prelude.{◌≡◌, ◌⊎◌, ◌++◌, ◌∷◌, [], false, true, None, Some, IfOk, IfErr, IfSome, IfNone, IsSome, MatchOption, Err, IsTrue};
ghost use Rattle.position_core.specs.TopicName.{topic_text};
ghost use Rattle.position_core.specs.declared.fault.Fault.TheVariants.{NoMemory, NoSuchSubscription, StoreFailed};
ghost use Rattle.delivery_machine.specs.Places.{snapshot_in};
ghost use Rattle.delivery_machine.specs.Snapshot.{restarted};
ghost use Rattle.sqlite.specs.State.{HasCleanDisk, Survives};
ghost use Rattle.sqlite.specs.Held.{state};
ghost use Rattle.row_forms.specs.Standing.{HasNone, Stands};
ghost use Rattle.stored_cell.specs.Noted.{all_rows};
ghost use Rattle.stored_cell.specs.Opening.{Opens, begins, opened};
ghost use Rattle.stored_cell.specs.declared.opening.Terms.{Terms};
ghost use Rattle.row_store.specs.Begun.{begun_by};
ghost use Rattle.row_store.specs.Found.{HasMany};
ghost use Rattle.row_store.specs.Keeping.{NoneStands};
ghost use Rattle.topic_lives.specs.Deleting.{is_bare};
ghost use Rattle.row_store.specs.Opened.{KeepsNothing, OpenedFrom, has_origin};

use crate::cause::Cause;
use crate::keeper::Keeper;
use crate::loading::Unread;
use crate::pace::Pace;
use delivery_machine::{Fault, Opened, TopicName};
use marks::{Mark, Naming};
use sqlite::Alter;
use std::alloc::Global;
use std::marker::Model;
use stored_cell::{Loaded, Note, StoredCell, Terms, opened_cell, restarted_cell};

/// A topic as it was opened from a database, with a mark for the rows that stood there then. Only `open_cell` makes one.
/// Contracts see the topic with its journal and with what of it is stored.
pub struct OpenCell<T: Opened + Drop, J: Naming> {
    cell: StoredCell<T, J>,
    rows: Mark<Note, J>,
}

impl<T: Opened + Drop, J: Naming> Drop for OpenCell<T, J> {
    fn drop(self) {
        let OpenCell { cell: _, rows: _ } = self;
    }
}

impl<T: Opened + Drop, J: Naming> Model for OpenCell<T, J> {
    ghost use Rattle.std.specs.Prelude.{◌≡◌, false};
    ghost use Rattle.std.specs.Coded.{codes};
    ghost use Rattle.delivery_machine.specs.Codes.{coded_places, coded_positions, coded_pending, coded_counts};
    ghost use Rattle.stored_cell.specs.Held.{Held};
    ghost use Rattle.row_store.specs.Opened.{OpenedFrom};

    ghost Value = { Held };

    ghost coded = { Prim.hlevel (codes, coded_places, coded_positions, coded_pending, coded_counts) };

    ghost view = { λ o. o.cell };

    ghost invariant = { λ o. (o.cell.by_word ≡ false) × OpenedFrom o.rows o.cell };
}

impl<T: Opened + Drop, J: Naming> OpenCell<T, J> {
    /// The topic, with the mark for the rows that it was opened from: over a clean disk it has in it what they have of
    /// the topic of its name, and nothing where they have none.
    pub fn into_parts(self) -> (StoredCell<T, J>, Mark<Note, J>)
        ensures cell { result.0 ≡ self }
        ensures word { self.by_word ≡ false }
        ensures from { OpenedFrom result.1 result.0 }
        ensures origin { has_origin result.1 result.0.stored result.0.cell.state.name ≡ true }
    {
        let OpenCell { cell, rows } = self;
        (cell, rows)
    }
}

impl<S: Alter, J: Naming> Keeper<S, J> {
    /// A mark for the rows that stand now. Refused (F16) where 2^62 were drawn.
    fn note_rows(&mut self) -> Result<Mark<Note, J>, Fault>
        ensures same { self.new ≡ self.old }
        ensures rows { IfOk result (λ mark. mark.clean ≡ true → HasCleanDisk (state S.Store self.old.conn) × IsTrue (state S.Store self.old.conn).is_open × (mark.rows ≡ all_rows (state S.Store self.old.conn).now.trees)) }
        ensures faults { IfErr result (λ fault. fault ≡ StoreFailed) }
    {
        prove!(self.conn.is_autocommit());
        match self.notes.commit(&self.conn) {
            Some(rows) => Ok(rows),
            None => {
                self.refusal = Some(Cause::NoMark);
                Err(Fault::StoreFailed)
            }
        }
    }
}

/// The topic, which opened with what stands now, with a mark for that. Refused (F16) where 2^62 were drawn.
fn noted<T: Opened + Drop, S: Alter, J: Naming>(
    keeper: &mut Keeper<S, J>,
    cell: StoredCell<T, J>,
) -> Result<OpenCell<T, J>, Fault>
    requires word { cell.by_word ≡ false }
    requires opens { HasCleanDisk (state S.Store keeper.old.conn) → IsTrue (state S.Store keeper.old.conn).is_open → (terms : Terms) × Opens cell.cell.state.name terms (state S.Store keeper.old.conn).now.trees cell }
    ensures same { keeper.new ≡ keeper.old }
    ensures cell { IfOk result (λ noted. noted ≡ cell) }
    ensures faults { IfErr result (λ fault. fault ≡ StoreFailed) }
{
    match keeper.note_rows() {
        Ok(rows) => Ok(OpenCell { cell, rows }),
        Err(fault) => {
            drop(cell);
            Err(fault)
        }
    }
}

/// What was loaded of a topic, with a mark for the rows that stood there then: it is opened with that, and no keeper is held
/// meanwhile. Only `load_topic` makes one.
pub struct LoadedTopic<J: Naming> {
    loaded: Loaded<J>,
    rows: Mark<Note, J>,
}

impl<J: Naming> Drop for LoadedTopic<J> {
    fn drop(self) {
        let LoadedTopic { loaded: _, rows: _ } = self;
    }
}

impl<J: Naming> Model for LoadedTopic<J> {
    ghost use Rattle.std.specs.Prelude.{◌≡◌, true};
    ghost use Rattle.std.specs.Coded.{codes};
    ghost use Rattle.delivery_machine.specs.Codes.{coded_places, coded_positions, coded_pending, coded_counts};
    ghost use Rattle.row_store.specs.Opened.{Loading, StandsIn};

    ghost Value = { Loading };

    ghost coded = { Prim.hlevel (codes, coded_places, coded_positions, coded_pending, coded_counts) };

    ghost view = { λ l. record { stored = l.loaded.kept; rows = l.rows } };

    ghost invariant = { λ l. (l.loaded.kept.kept ≡ l.loaded.snapshot) × (l.rows.clean ≡ true → StandsIn (record { stored = l.loaded.kept; rows = l.rows })) };
}

impl<J: Naming> LoadedTopic<J> {
    /// The topic, which goes on from what was loaded. Refused (F1) for want of memory.
    pub fn open<T: Opened + Drop>(
        self,
        alloc: Global,
        terms: Terms,
    ) -> Result<OpenCell<T, J>, Fault>
        ensures opens { IfOk result (λ cell. cell ≡ opened (restarted (snapshot_in self.stored.kept)) terms (Some self.stored)) }
        ensures named { IfOk result (λ cell. cell.cell.state.name ≡ self.stored.kept.name) }
        ensures fault { IfErr result (λ fault. fault ≡ NoMemory) }
    {
        let LoadedTopic { loaded, rows } = self;
        match restarted_cell(alloc, loaded, terms) {
            Ok(cell) => Ok(OpenCell { cell, rows }),
            Err(fault) => {
                drop(rows);
                Err(fault)
            }
        }
    }
}

/// Loads the topic by pieces, as `Keeper::load` does; where that was the last one, the rows that stand now have a mark. None
/// where it has no rows. Refused (F16) also where 2^62 marks were drawn.
pub fn load_topic<S: Alter, J: Naming>(
    keeper: &mut Keeper<S, J>,
    name: &TopicName,
) -> Result<Option<LoadedTopic<J>>, Unread>
    ensures rows { HasCleanDisk (state S.Store keeper.new.conn) → IfOk result (λ found. MatchOption found (HasNone (topic_text name.now) (state S.Store keeper.old.conn).now.trees) (λ l. Stands l.stored.kept (state S.Store keeper.old.conn).now.trees)) }
    ensures named { IfOk result (λ found. IfSome found (λ l. l.stored.kept.name ≡ name.now)) }
    ensures goes_on { result ≡ Err Unread.Unfinished → keeper.new.reading ≡ begun_by Pace.Pieces name.now keeper.old.reading }
    ensures many { HasCleanDisk (state S.Store keeper.new.conn) → result ≡ Err Unread.Unfinished → HasMany name.now (state S.Store keeper.old.conn).now.trees }
    ensures ended { IfOk result (λ _. keeper.new.reading ≡ None) }
    ensures known { IfOk result (λ found. MatchOption found (keeper.new.known ≡ keeper.old.known) (λ l. keeper.new.known ≡ keeper.old.known ++ l.stored.kept ∷ [])) }
    ensures bad { HasCleanDisk (state S.Store keeper.new.conn) → result ≡ Err Unread.BadRows → NoneStands name.now (state S.Store keeper.old.conn).now.trees }
    ensures same { HasCleanDisk (state S.Store keeper.new.conn) → IsTrue (state S.Store keeper.new.conn).is_open → (state S.Store keeper.new.conn).now ≡ (state S.Store keeper.old.conn).now }
    ensures crash { Survives (state S.Store keeper.old.conn) (state S.Store keeper.new.conn) (λ _. ⊥) }
    ensures failed { keeper.new.failed ≡ keeper.old.failed }
    ensures refused { keeper.old.failed ≡ true → (result ≡ Err Unread.StoreFailed) × (keeper.new ≡ keeper.old) }
{
    match keeper.load(name, Pace::Pieces) {
        Ok(Some(loaded)) => match keeper.note_rows() {
            Ok(rows) => Ok(Some(LoadedTopic { loaded, rows })),
            Err(_) => {
                drop(loaded);
                Err(Unread::StoreFailed)
            }
        },
        Ok(None) => Ok(None),
        Err(why) => Err(why),
    }
}

/// Opens the topic: from the rows that stand there, or, where it has none and is to be made, with nothing in it. Refused
/// (F16) where its rows are none, or the store answers an error; (F11) where it is not to be made, and has no rows or such as keep
/// nothing, as where it was deleted; (F1) for want of memory. None where it has more messages than are read at a time: `load_topic` loads it. No row changes.
pub fn open_cell<T: Opened + Drop, S: Alter, J: Naming>(
    alloc: Global,
    keeper: &mut Keeper<S, J>,
    name: &TopicName,
    create: bool,
    terms: Terms,
) -> Result<Option<OpenCell<T, J>>, Fault>
    ensures opens { HasCleanDisk (state S.Store keeper.new.conn) → IfOk result (λ found. IfSome found (Opens name.now terms (state S.Store keeper.old.conn).now.trees)) }
    ensures named { IfOk result (λ found. IfSome found (λ cell. cell.cell.state.name ≡ name.now)) }
    ensures begins { IfOk result (λ found. IfSome found (λ cell. cell.cell ≡ begins cell.cell.state terms)) }
    ensures known { create ≡ false → IfOk result (λ found. IfSome found (λ cell. IsSome cell.stored)) }
    ensures asked { result ≡ Err NoSuchSubscription → create ≡ false }
    ensures word { IfOk result (λ found. IfSome found (λ cell. cell.by_word ≡ false)) }
    ensures many { HasCleanDisk (state S.Store keeper.new.conn) → IfOk result (λ found. IfNone found (HasMany name.now (state S.Store keeper.old.conn).now.trees)) }
    ensures others { keeper.new.reading ≡ keeper.old.reading }
    ensures something { create ≡ false → IfOk result (λ found. IfSome found (λ cell. IfSome cell.stored (λ n. is_bare (snapshot_in n.kept) ≡ false))) }
    ensures unknown { HasCleanDisk (state S.Store keeper.new.conn) → result ≡ Err NoSuchSubscription → (create ≡ false) × KeepsNothing name.now (state S.Store keeper.old.conn).now.trees }
    ensures same { HasCleanDisk (state S.Store keeper.new.conn) → IsTrue (state S.Store keeper.new.conn).is_open → (state S.Store keeper.new.conn).now ≡ (state S.Store keeper.old.conn).now }
    ensures crash { Survives (state S.Store keeper.old.conn) (state S.Store keeper.new.conn) (λ _. ⊥) }
    ensures failed { keeper.new.failed ≡ keeper.old.failed }
    ensures refused { keeper.old.failed ≡ true → (result ≡ Err StoreFailed) × (keeper.new ≡ keeper.old) }
    ensures faults { IfErr result (λ fault. (fault ≡ NoMemory) ⊎ (fault ≡ StoreFailed) ⊎ (fault ≡ NoSuchSubscription)) }
{
    let loaded = match keeper.load(name, Pace::AtOnce) {
        Ok(loaded) => loaded,
        Err(why) => match why.fault() {
            Some(fault) => return Err(fault),
            None => return Ok(None),
        },
    };
    match opened_cell(alloc, loaded, name, create, terms) {
        Ok(cell) => match noted(keeper, cell) {
            Ok(cell) => Ok(Some(cell)),
            Err(fault) => Err(fault),
        },
        Err(fault) => Err(fault),
    }
}
