// A topic that goes on from a snapshot.
ghost use Rattle.std.specs.Prelude.{◌≡◌, ◌<◌, [], All, Some, IfOk, IfErr, length, map, slice_get};
ghost use Rattle.position_core.specs.declared.fault.Fault.TheVariants.{NoMemory};
ghost use Rattle.delivery_machine.specs.State.{Subscription as MachineSubscription};
ghost use Rattle.delivery_machine.specs.Places.{kept_in, snapshot_in};
ghost use Rattle.delivery_machine.specs.Snapshot.{restarted, subscription_from};
ghost use Rattle.delivery_machine.specs.Laws.{IsReached};
ghost use Rattle.dedup_core.specs.Sequences.{AgreesWith};
ghost use Rattle.topic_served.specs.Agreeing.{agrees};
ghost use Rattle.topic_served.specs.Told.{AreTold};
ghost use Rattle.topic_subscriptions.specs.Placed.{IsPlacedIn, sub_in};
ghost use Rattle.topic_log.specs.Written.{all_of};
ghost use Rattle.topic_parts.specs.Parts.{AreTied, state_of};
ghost use Rattle.topic_served.specs.Served.{IsSettled, state_in};
ghost use Rattle.topic_core.specs.Restored.{IsAlone, IsRestoredFrom, IsSoundOver};

use delivery_machine::{KeptSubscription, Snapshot};
use position_core::Fault;
use std::alloc::{AllocError, Global};
use topic_log::TopicLog;
use topic_members::Members;
use topic_parts::{Parts, places_of};
use topic_restart::ledger_after;
use topic_served::{Dispatch, Served};
use topic_subscriptions::Subscription;

/// The subscription as it was kept over the log.
fn subscription_over(
    alloc: Global,
    log: &TopicLog,
    kept: &KeptSubscription,
) -> Result<Subscription, AllocError>
    requires { IsSoundOver log.now.log.log kept.now }
    ensures { IfOk result (IsRestoredFrom log.now.log.log kept.now) }
{
    let _length = log.len();
    let dead = places_of(alloc, log, &kept.dead)?;
    match Subscription::restored(alloc, kept, &dead) {
        Ok(subscription) => Ok(subscription),
        Err(failed) => Err(failed),
    }
}

/// The subscriptions as they were kept over the log.
fn subscriptions_over(
    alloc: Global,
    log: &TopicLog,
    kept: &[KeptSubscription],
) -> Result<Vec<Subscription>, AllocError>
    requires { All (IsSoundOver log.now.log.log) kept.now }
    ensures state { IfOk result (λ subs. map (sub_in log.now.log.log) subs.items ≡ map (λ k. subscription_from (kept_in log.now.log.log k)) kept.now) }
    ensures placed { IfOk result (λ subs. All (IsPlacedIn log.now.log.log []) subs.items) }
    ensures alone { IfOk result (λ subs. All IsAlone subs.items) }
{
    let mut subscriptions = Vec::new(alloc);
    for one in kept {
        subscriptions.push(subscription_over(alloc, log, one)?)?;
    }
    Ok(subscriptions)
}

/// With what the snapshot has, and nobody there.
fn parts_of(alloc: Global, snapshot: &Snapshot) -> Result<Parts, AllocError>
    ensures state { IfOk result (λ parts. state_of parts ≡ restarted (snapshot_in snapshot.now)) }
    ensures reached { IfOk result (λ parts. IsReached (state_of parts)) }
    ensures tied { IfOk result AreTied }
    ensures alone { IfOk result (λ parts. All IsAlone parts.subscriptions.items) }
    ensures numbers { IfOk result (λ parts. AgreesWith (all_of parts.log) parts.log.numbers) }
{
    let name = snapshot.name().clone()?;
    let authors = snapshot.authors().to_vec(alloc)?;
    let pieces = match snapshot.log().clone() {
        Ok(pieces) => pieces,
        Err(e) => {
            drop(name);
            drop(authors);
            return Err(e);
        }
    };
    let ledger = ledger_after(snapshot);
    let log = match TopicLog::restored(
        alloc,
        snapshot.gone(),
        authors,
        snapshot.retention(),
        pieces,
        ledger,
        snapshot.ledger_size(),
    ) {
        Ok(log) => log,
        Err(e) => {
            drop(name);
            return Err(e);
        }
    };
    match subscriptions_over(alloc, &log, snapshot.subscriptions()) {
        Ok(subscriptions) => Ok(Parts {
            alloc,
            name,
            next_ordinal: snapshot.next_ordinal(),
            log,
            members: Members::new(alloc),
            subscriptions,
        }),
        Err(e) => {
            drop(name);
            drop(log);
            Err(e)
        }
    }
}

/// A dispatcher for the subscription at the place, at which nobody is.
fn begun_at(parts: &Parts, place: usize) -> Result<Dispatch, Fault>
    requires tied { AreTied parts.now }
    requires alone { All IsAlone parts.now.subscriptions.items }
    requires nobody { parts.now.members.members ≡ [] }
    requires within { place < length parts.now.subscriptions.items }
    ensures ok { IfOk result (λ d. (sub : MachineSubscription) → slice_get (state_of parts.now).subscriptions place ≡ Some sub → agrees d (state_of parts.now) sub) }
    ensures err { IfErr result (λ fault. fault ≡ NoMemory) }
{
    let kind = parts.subscriptions[place].kind();
    let view = parts.at(place);
    Dispatch::begin(parts.alloc, &view, kind)
}

/// A dispatcher for each subscription, at none of which anybody is.
fn dispatchers_of(parts: &Parts) -> Result<Vec<Dispatch>, Fault>
    requires tied { AreTied parts.now }
    requires alone { All IsAlone parts.now.subscriptions.items }
    requires nobody { parts.now.members.members ≡ [] }
    ensures ok { IfOk result (λ ds. AreTold ds.items (state_of parts.now)) }
    ensures err { IfErr result (λ fault. fault ≡ NoMemory) }
{
    let mut dispatchers = Vec::new(parts.alloc);
    for place in 0..parts.subscriptions.len() {
        let begun = match begun_at(parts, place) {
            Ok(begun) => begun,
            Err(fault) => {
                drop(dispatchers);
                return Err(fault);
            }
        };
        match dispatchers.push(begun) {
            Ok(()) => (),
            Err(refused) => {
                drop(refused);
                drop(dispatchers);
                return Err(Fault::NoMemory);
            }
        }
    }
    Ok(dispatchers)
}

/// With what the snapshot has, and nobody there. Takes a step for each message, each range of acknowledged
/// messages, each count and each dead letter.
pub(crate) fn restored(alloc: Global, snapshot: &Snapshot) -> Result<Served, Fault>
    ensures state { IfOk result (λ served. state_in served ≡ restarted (snapshot_in snapshot.now)) }
    ensures settled { IfOk result IsSettled }
    ensures err { IfErr result (λ fault. fault ≡ NoMemory) }
{
    let parts = match parts_of(alloc, snapshot) {
        Ok(parts) => parts,
        Err(_) => return Err(Fault::NoMemory),
    };
    match dispatchers_of(&parts) {
        Ok(dispatchers) => Ok(Served { parts, dispatchers }),
        Err(fault) => {
            drop(parts);
            Err(fault)
        }
    }
}
