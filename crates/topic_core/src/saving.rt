// A topic's snapshots.
ghost use Rattle.std.specs.Prelude.{◌≡◌, IfOk, map};
ghost use Rattle.delivery_machine.specs.Places.{snapshot_in};
ghost use Rattle.delivery_machine.specs.Snapshot.{snapshot_of};
ghost use Rattle.topic_subscriptions.specs.Placed.{kept_of};
ghost use Rattle.topic_served.specs.Served.{IsSettled, state_in};

use delivery_machine::{KeptSubscription, Snapshot};
use std::alloc::{AllocError, Global};
use topic_served::Served;
use topic_subscriptions::Subscription;

/// What a store keeps of the subscriptions.
fn kept_of_all(
    alloc: Global,
    subscriptions: &[Subscription],
) -> Result<Vec<KeptSubscription>, AllocError>
    ensures { IfOk result (λ kept. kept.items ≡ map kept_of subscriptions.now) }
{
    let mut kept = Vec::new(alloc);
    for subscription in subscriptions {
        kept.push(subscription.kept(alloc)?)?;
    }
    Ok(kept)
}

/// The snapshot of the state, which shares the messages. Takes a step for each segment of the log, each author, each range
/// of acknowledged messages and each dead letter, and of a subscription in which a message was redelivered one for
/// each message that is pending or counted.
pub(crate) fn snapshot(served: &Served) -> Result<Snapshot, AllocError>
    requires { IsSettled served.now }
    ensures { IfOk result (λ kept. snapshot_in kept ≡ snapshot_of (state_in served.now)) }
{
    let parts = &served.parts;
    let _length = parts.log.len();
    let name = parts.name.clone()?;
    let authors = parts.log.authors()?;
    let log = match parts.log.pieces() {
        Ok(log) => log,
        Err(e) => {
            drop(name);
            drop(authors);
            return Err(e);
        }
    };
    match kept_of_all(parts.alloc, &parts.subscriptions) {
        Ok(subscriptions) => Ok(Snapshot::of(
            name,
            parts.log.ledger_size(),
            parts.log.ledger(),
            parts.next_ordinal,
            parts.log.gone(),
            authors,
            parts.log.retention(),
            log,
            subscriptions,
        )),
        Err(e) => {
            drop(name);
            drop(authors);
            drop(log);
            Err(e)
        }
    }
}
