// What is left of a topic that may be deleted.
ghost use Rattle.std.specs.Prelude.{◌≡◌, ◌≤◌, ◌+◌, ◌^◌, ◌↔◌, [], All, IfOk, IfErr, IfSome, IsSome, IsTrue, length};
ghost use Rattle.position_core.specs.declared.fault.Fault.TheVariants.{NoMemory};
ghost use Rattle.delivery_machine.specs.Places.{KeptPlaces, snapshot_in};
ghost use Rattle.delivery_machine.specs.Snapshot.{snapshot_of};
ghost use Rattle.topic_lives.specs.Deleting.{IsDeletable, emptied};

use crate::cell::StoredCell;
use crate::viewed::had_at;
use delivery_machine::{Fault, KeptSubscription, Opened, Saved, Snapshot, TopicName};
use marks::Naming;
use std::alloc::Global;
use std::marker::Model;
use topic_lives::emptied;

/// The most messages that a topic may have had that is deleted.
const MOST_HAD: u64 = 1 << 62;

/// What is left of a topic that may be deleted: its numbers, and who moved dead letters to it. Only `StoredCell::deletion`
/// makes one. Contracts see what is kept.
#[derive(Drop)]
pub struct Deletion {
    left: Snapshot,
}

impl Model for Deletion {
    ghost use Rattle.std.specs.Coded.{codes};
    ghost use Rattle.delivery_machine.specs.Codes.{coded_places, coded_counts};
    ghost use Rattle.delivery_machine.specs.Places.{KeptTopic};

    ghost Value = { KeptTopic };

    ghost coded = { Prim.hlevel (codes, coded_places, coded_counts) };

    ghost view = { λ d. d.left };
}

impl Deletion {
    /// The topic's name.
    pub fn name(&self) -> &TopicName
        ensures { result.now ≡ self.now.name }
    {
        self.left.name()
    }

    /// What is left, to look at.
    pub fn snapshot(&self) -> &Snapshot
        ensures { result.now ≡ self.now }
    {
        &self.left
    }

    /// What is left, to be stored.
    pub fn into_snapshot(self) -> Snapshot
        ensures { result ≡ self }
    {
        let Deletion { left } = self;
        left
    }
}

fn have_no_letter(subscriptions: &[KeptSubscription]) -> bool
    ensures { IsTrue result ↔ All (λ (sub : KeptPlaces). sub.dead ≡ []) subscriptions.now }
{
    subscriptions.iter().all(|sub| sub.dead.is_empty())
}

/// Whether no dead letter waits in it to be moved, and it had no more messages than one that is deleted may.
fn may_go(snapshot: &Snapshot) -> bool
    ensures { IsTrue result ↔ All (λ (sub : KeptPlaces). sub.dead ≡ []) snapshot.now.subscriptions × (snapshot.now.gone + length snapshot.now.log ≤ 2 ^ 62) }
{
    have_no_letter(snapshot.subscriptions()) && had_at(snapshot) <= MOST_HAD
}

/// What is left of the topic whose snapshot this is, where that may go.
fn left_of(alloc: Global, snapshot: &Snapshot) -> Result<Option<Deletion>, Fault>
    ensures may { IfOk result (λ found. IsSome found ↔ All (λ (sub : KeptPlaces). sub.dead ≡ []) snapshot.now.subscriptions × (snapshot.now.gone + length snapshot.now.log ≤ 2 ^ 62)) }
    ensures left { IfOk result (λ found. IfSome found (λ deletion. snapshot_in deletion ≡ emptied (snapshot_in snapshot.now))) }
    ensures err { IfErr result (λ fault. fault ≡ NoMemory) }
{
    if !may_go(snapshot) {
        return Ok(None);
    }
    match emptied(alloc, snapshot) {
        Ok(left) => Ok(Some(Deletion { left })),
        Err(_) => Err(Fault::NoMemory),
    }
}

impl<T: Opened + Drop, J: Naming> StoredCell<T, J> {
    /// What is left of the topic, where it may be deleted: nobody is there, no dead letter is left that was not moved, and it had
    /// at most 2^62 messages. It looks at a snapshot only where nobody is connected. Refused (F1) for want of memory.
    pub fn deletion(&self, alloc: Global) -> Result<Option<Deletion>, Fault>
        ensures may { IfOk result (λ found. IsSome found ↔ IsDeletable self.now.cell.state) }
        ensures left { IfOk result (λ found. IfSome found (λ deletion. snapshot_in deletion ≡ emptied (snapshot_of self.now.cell.state))) }
        ensures err { IfErr result (λ fault. fault ≡ NoMemory) }
    {
        if !self.cell.is_vacant() {
            return Ok(None);
        }
        match self.cell.view() {
            Ok(snapshot) => {
                let found = left_of(alloc, &snapshot);
                drop(snapshot);
                found
            }
            Err(fault) => Err(fault),
        }
    }
}
