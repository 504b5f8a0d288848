// A topic's cell under the topic's name: what is durable of it is so by proof alone, and it goes on from its rows.
ghost use Rattle.std.specs.Prelude.{[], ◌≡◌, ◌-◌, ◌<◌, ◌≤◌, ◌⊎◌, ◌↔◌, IfOk, IfErr, IsOk, IsSome, IsTrue, None, Some, OnOk, OnErr, Err, All, length, set, false, true};
ghost use Rattle.std.specs.Coded.{Coded-set};
ghost use Rattle.delivery_machine.specs.Journals.{is_storing};
ghost use Rattle.delivery_machine.specs.Run.{Step};
ghost use Rattle.delivery_machine.specs.Snapshot.{snapshot_of};
ghost use Rattle.delivery_machine.specs.Places.{snapshot_in};
ghost use Rattle.sqlite.specs.State.{HasCleanDisk};
ghost use Rattle.sqlite.specs.Held.{state};
ghost use Rattle.topic_shared.specs.Seats.{IsFree, without_seat};
ghost use Rattle.topic_shared.specs.Kept.{is_end};
ghost use Rattle.row_store.specs.Keeping.{StoresState};
ghost use Rattle.row_store.specs.Opened.{has_origin};
ghost use Rattle.row_store.specs.declared.unstored.Unstored.{Unstored};
ghost use Rattle.stored_cell.specs.Held.{IsAtRest, bases_of};
ghost use Rattle.stored_cell.specs.Noted.{Noted};
ghost use Rattle.broker_dir.specs.Handing.{Confirms};

use delivery_machine::{Event, Fault, Opened, Saved, Snapshot, TopicName};
use marks::{Mark, Naming};
use row_store::{Keeper, OpenCell, Unmade};
use sqlite::Alter;
use stored_cell::{Kept, Note, Part, StoredCell};
use topic_shared::Receipt;

/// A topic's cell under the topic's name.
#[derive(Drop)]
pub(crate) struct NamedCell<T: Opened + Drop, J: Naming> {
    name: TopicName,
    cell: StoredCell<T, J>,
    /// The mark of the rows that the topic was opened from.
    rows: Mark<Note, J>,
    /// All that is durable stands in rows that were committed: nothing is so by somebody's word.
    ghost by_proof: { cell.by_word ≡ false },
    /// It is the topic of that name.
    ghost named: { cell.cell.state.name ≡ name } by { Coded-set name-code cell.cell.state.name name },
    /// Something of it is stored; or, where the database was open and the disk returned what was written, the rows that it
    /// was opened from had nothing of it.
    ghost origin: { has_origin rows cell.stored name ≡ true },
}

impl<T: Opened + Drop, J: Naming> NamedCell<T, J> {
    /// The topic that was just opened, and what it has.
    pub(crate) fn opened(topic: OpenCell<T, J>) -> Result<(Self, Snapshot), Fault>
        ensures ok { IfOk result (λ r. (r.0.cell ≡ topic) × (r.0.name ≡ topic.cell.state.name)) }
        ensures fault { IfErr result (λ fault. fault ≡ Fault.NoMemory) }
    {
        let (cell, rows) = topic.into_parts();
        match cell.view() {
            Ok(snapshot) => NamedCell::with_name(cell, rows, snapshot),
            Err(fault) => {
                drop(cell);
                drop(rows);
                Err(fault)
            }
        }
    }

    /// The snapshot is of the topic as it was opened.
    fn with_name(
        cell: StoredCell<T, J>,
        rows: Mark<Note, J>,
        snapshot: Snapshot,
    ) -> Result<(Self, Snapshot), Fault>
        requires word { cell.by_word ≡ false }
        requires name { snapshot.name ≡ cell.cell.state.name }
        requires origin { has_origin rows cell.stored cell.cell.state.name ≡ true }
        ensures ok { IfOk result (λ r. (r.0.cell ≡ cell) × (r.0.name ≡ cell.cell.state.name)) }
        ensures fault { IfErr result (λ fault. fault ≡ Fault.NoMemory) }
    {
        let Ok(name) = snapshot.name().clone() else {
            drop(cell);
            drop(rows);
            drop(snapshot);
            return Err(Fault::NoMemory);
        };
        Ok((NamedCell::new(name, cell, rows), snapshot))
    }

    fn new(name: TopicName, cell: StoredCell<T, J>, rows: Mark<Note, J>) -> Self
        requires word { cell.by_word ≡ false }
        requires name { cell.cell.state.name ≡ name }
        requires origin { has_origin rows cell.stored name ≡ true }
        ensures cell { result.cell ≡ cell }
        ensures name { result.name ≡ name }
    {
        NamedCell { name, cell, rows }
    }

    pub(crate) fn name(&self) -> &TopicName
        ensures { result.now ≡ self.now.name }
    {
        &self.name
    }

    /// The topic with what is stored of it, to look at.
    pub(crate) fn cell(&self) -> &StoredCell<T, J>
        ensures { result.now ≡ self.now.cell }
    {
        &self.cell
    }

    /// Takes a free seat. Refused (F21) where none is free.
    pub(crate) fn enter(&mut self) -> Result<u64, Fault>
        ensures ok { IfOk result (λ seat. IsFree self.old.cell.cell.taken seat × (self.new.cell ≡ record self.old.cell { cell = record self.old.cell.cell { taken = set self.old.cell.cell.taken (seat - 1) true } })) }
        ensures full { (result ≡ Err Fault.NoRoom) ↔ All (λ taken. taken ≡ true) self.old.cell.cell.taken }
        ensures fault { IfErr result (λ fault. fault ≡ Fault.NoRoom) }
        ensures refused { OnErr result (self.new.cell ≡ self.old.cell) }
        ensures name { self.new.name ≡ self.old.name }
    {
        self.cell.enter()
    }

    /// Frees the seat.
    pub(crate) fn exit(&mut self, seat: u64)
        ensures cell { self.new.cell ≡ record self.old.cell { cell = record self.old.cell.cell { taken = without_seat self.old.cell.cell.taken seat } } }
        ensures name { self.new.name ≡ self.old.name }
    {
        self.cell.exit(seat);
    }

    /// One event of the one at the seat, which calls nothing durable: only the store may do that, by its confirmation.
    pub(crate) fn call(&mut self, seat: u64, event: Event) -> Result<Receipt, Fault>
        requires seat { 0 < seat }
        requires not_storing { is_storing event ≡ false }
        ensures step { IfOk result (λ receipt. Step self.old.cell.cell.state event receipt.reply self.new.cell.cell.state) }
        ensures err { OnErr result (self.new.cell ≡ self.old.cell) }
        ensures ends { is_end self.old.cell.cell event ≡ true → IsOk result }
        ensures faults { IfErr result (λ fault. (fault ≡ Fault.NoMemory) ⊎ (fault ≡ Fault.JournalFull)) }
        ensures name { self.new.name ≡ self.old.name }
    {
        self.cell.call(seat, event)
    }

    /// Begins the journal anew.
    pub(crate) fn roll(&mut self)
        ensures cell { self.new.cell ≡ record self.old.cell { cell = record self.old.cell.cell { opening = self.old.cell.cell.state; lines = [] } } }
        ensures name { self.new.name ≡ self.old.name }
    {
        self.cell.roll();
    }

    /// What the topic has now, to look at.
    pub(crate) fn view(&self) -> Result<Snapshot, Fault>
        ensures ok { IfOk result (λ kept. snapshot_in kept ≡ snapshot_of self.now.cell.cell.state) }
        ensures fault { IfErr result (λ fault. fault ≡ Fault.NoMemory) }
    {
        self.cell.view()
    }

    /// The topic as it is, to be stored.
    pub(crate) fn view_by<S: Alter>(&mut self, keeper: &mut Keeper<S, J>) -> Result<Part<J>, Fault>
        ensures keeper { keeper.new ≡ keeper.old }
        ensures part { IfOk result (λ part. (snapshot_in part.kept ≡ snapshot_of self.old.cell.cell.state) × (part.bases ≡ bases_of self.old.cell)) }
        ensures state { self.new.cell.cell.state ≡ self.old.cell.cell.state }
        ensures name { self.new.name ≡ self.old.name }
    {
        keeper.view(&mut self.cell)
    }

    /// Makes durable what was stored, where it is what was viewed last. Whether it was.
    pub(crate) fn confirm(&mut self, kept: Kept<J>) -> bool
        ensures stored { IsTrue result → (self.new.cell.stored ≡ Some kept) × (self.new.cell.outstanding ≡ None) }
        ensures nothing { result ≡ false → self.new.cell ≡ self.old.cell }
        ensures state { Confirms kept self.old.cell.cell.state self.new.cell.cell.state }
        ensures name { self.new.name ≡ self.old.name }
    {
        self.cell.confirm(kept)
    }

    /// Stores the topic as it is, and makes all of it durable, in one hold.
    pub(crate) fn round_by<S: Alter>(&mut self, keeper: &mut Keeper<S, J>) -> Result<(), Unmade>
        ensures rows { HasCleanDisk (state S.Store keeper.new.conn) → OnOk result (StoresState self.old.cell.cell.state (state S.Store keeper.old.conn).now.trees (state S.Store keeper.new.conn).now.trees) }
        ensures stored { OnOk result ((n : Noted) × (self.new.cell.stored ≡ Some n) × (snapshot_in n.kept ≡ snapshot_of self.old.cell.cell.state)) }
        ensures ok { OnOk result (keeper.new.failed ≡ false) }
        ensures memory { result ≡ Err (Unmade.Unstored Unstored.NoMemory) → keeper.new ≡ keeper.old }
        ensures name { self.new.name ≡ self.old.name }
    {
        match keeper.round(&mut self.cell) {
            Ok(_) => Ok(()),
            Err(unmade) => Err(unmade),
        }
    }

    /// Whether what is stored of the topic is the topic as it is, and nobody is connected.
    pub(crate) fn is_at_rest(&self) -> bool
        ensures { IsTrue result → IsAtRest self.now.cell }
    {
        self.cell.is_at_rest()
    }

    /// The same, where nothing is stored of it.
    pub(crate) fn is_blank(&self) -> bool
        ensures { IsTrue result → IsAtRest self.now.cell × (self.now.cell.stored ≡ None) }
    {
        self.cell.stored().is_none() && self.cell.is_at_rest()
    }
}
