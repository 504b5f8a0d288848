// How a topic comes to be open: from what its rows keep, or with nothing in it.
ghost use Rattle.std.specs.Prelude.{◌≡◌, ◌⊎◌, ◌↔◌, true, false, None, Some, IfOk, IfErr, IfSome, MatchOption, Err};
ghost use Rattle.position_core.specs.declared.fault.Fault.TheVariants.{NoMemory, NoSuchSubscription};
ghost use Rattle.delivery_machine.specs.State.{fresh};
ghost use Rattle.delivery_machine.specs.Snapshot.{restarted};
ghost use Rattle.delivery_machine.specs.Places.{snapshot_in};
ghost use Rattle.topic_lives.specs.Deleting.{is_bare};
ghost use Rattle.stored_cell.specs.Opening.{begins, opened};

use crate::cell::StoredCell;
use crate::kept::Kept;
use delivery_machine::{Fault, Opened, Snapshot, TopicName};
use marks::Naming;
use position_core::LedgerSize;
use std::alloc::Global;
use topic_lives::is_bare;
use topic_shared::{Cell, LineLimit, SeatCount};

/// How large a topic's ledgers are, how long its journal may be, and how many may sit at it.
#[derive(Clone, Copy, Debug, PartialEq, Eq)]
pub struct Terms {
    pub ledger_size: LedgerSize,
    pub lines: LineLimit,
    pub seats: SeatCount,
}

/// A snapshot, with the proof that it stands in rows that were committed.
#[derive(Drop)]
pub struct Loaded<J: Naming> {
    pub snapshot: Snapshot,
    pub kept: Kept<J>,
}

/// A topic that nothing is known of.
fn fresh_cell<T: Opened + Drop, J: Naming>(
    alloc: Global,
    name: &TopicName,
    terms: Terms,
) -> Result<StoredCell<T, J>, Fault>
    ensures ok { IfOk result (λ cell. cell ≡ opened (fresh name.now terms.ledger_size) terms None) }
    ensures err { IfErr result (λ fault. fault ≡ NoMemory) }
{
    let Ok(name) = name.clone() else {
        return Err(Fault::NoMemory);
    };
    let topic = match T::fresh(alloc, name, terms.ledger_size) {
        Ok(topic) => topic,
        Err(fault) => return Err(fault),
    };
    match Cell::new(alloc, topic, terms.lines, terms.seats) {
        Ok(cell) => Ok(StoredCell::fresh(cell)),
        Err(fault) => Err(fault),
    }
}

/// A topic that goes on from the snapshot, with nobody there.
fn cell_from<T: Opened + Drop>(
    alloc: Global,
    snapshot: &Snapshot,
    terms: Terms,
) -> Result<Cell<T>, Fault>
    ensures ok { IfOk result (λ cell. cell ≡ begins (restarted (snapshot_in snapshot.now)) terms) }
    ensures err { IfErr result (λ fault. fault ≡ NoMemory) }
{
    match T::restart(alloc, snapshot) {
        Ok(topic) => Cell::new(alloc, topic, terms.lines, terms.seats),
        Err(fault) => Err(fault),
    }
}

/// A topic that goes on from what its rows keep. Refused (F1) for want of memory.
pub fn restarted_cell<T: Opened + Drop, J: Naming>(
    alloc: Global,
    loaded: Loaded<J>,
    terms: Terms,
) -> Result<StoredCell<T, J>, Fault>
    requires { loaded.kept.kept ≡ loaded.snapshot }
    ensures ok { IfOk result (λ cell. cell ≡ opened (restarted (snapshot_in loaded.snapshot)) terms (Some loaded.kept)) }
    ensures err { IfErr result (λ fault. fault ≡ NoMemory) }
{
    let Loaded { snapshot, kept } = loaded;
    match cell_from(alloc, &snapshot, terms) {
        Ok(cell) => {
            let opened = StoredCell::restarted(cell, &snapshot, kept);
            drop(snapshot);
            Ok(opened)
        }
        Err(fault) => {
            drop(snapshot);
            drop(kept);
            Err(fault)
        }
    }
}

/// Whether something is kept of the topic: a message, a subscription, or a rule of its own. It has none of these where it was
/// deleted.
fn is_something<J: Naming>(loaded: &Option<Loaded<J>>) -> bool
    ensures { (result ≡ false) ↔ IfSome loaded.now (λ l. is_bare (snapshot_in l.snapshot) ≡ true) }
{
    match loaded {
        Some(loaded) => !is_bare(&loaded.snapshot),
        None => false,
    }
}

/// The topic, from what was loaded of it, or, where nothing is kept of it and it is to be made, with nothing in it.
/// Refused (F11) where it is not to be made, and nothing is kept of it, or nothing is in what is kept, as where it was deleted;
/// (F1) for want of memory.
pub fn opened_cell<T: Opened + Drop, J: Naming>(
    alloc: Global,
    loaded: Option<Loaded<J>>,
    name: &TopicName,
    create: bool,
    terms: Terms,
) -> Result<StoredCell<T, J>, Fault>
    requires { IfSome loaded (λ l. l.kept.kept ≡ l.snapshot) }
    ensures opens { IfOk result (λ cell. MatchOption loaded (cell ≡ opened (fresh name.now terms.ledger_size) terms None) (λ l. cell ≡ opened (restarted (snapshot_in l.snapshot)) terms (Some l.kept))) }
    ensures word { IfOk result (λ cell. cell.by_word ≡ false) }
    ensures unknown { (result ≡ Err NoSuchSubscription) ↔ (create ≡ false) × IfSome loaded (λ l. is_bare (snapshot_in l.snapshot) ≡ true) }
    ensures faults { IfErr result (λ fault. (fault ≡ NoMemory) ⊎ (fault ≡ NoSuchSubscription)) }
{
    if !create && !is_something(&loaded) {
        drop(loaded);
        return Err(Fault::NoSuchSubscription);
    }
    match loaded {
        Some(loaded) => restarted_cell(alloc, loaded, terms),
        None => fresh_cell(alloc, name, terms),
    }
}
