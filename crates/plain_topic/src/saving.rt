// A topic's snapshots, and the lists that go on from one.
ghost use Rattle.std.specs.Prelude.{◌≡◌, ◌≤◌, IfOk, length, map, All};
ghost use Rattle.std.specs.List.Sorted.{IsStrictlySortedBy};
ghost use Rattle.log_pieces.specs.Pieces.{joined};
ghost use Rattle.position_core.specs.Position.{position_cmp};
ghost use Rattle.delivery_machine.specs.Places.{AreBelow, KeptPlaces, kept_in};
ghost use Rattle.delivery_machine.specs.Snapshot.{kept_of, subscription_from};
ghost use Rattle.delivery_machine.specs.State.{Subscription};
ghost use Rattle.delivery_machine.specs.WellFormed.{IsSoundSubscription};

use crate::lists::Lists;
use delivery_machine::{Author, KeptSubscription, Snapshot};
use log_pieces::Pieces;
use plain_lists::Subscription;
use position_core::Message;
use std::alloc::{AllocError, Global};
use topic_restart::ledger_after;

pub(crate) fn authors_of(alloc: Global, authors: &[Author]) -> Result<Vec<Author>, AllocError>
    ensures { IfOk result (λ copies. copies.items ≡ authors.now) }
{
    let mut copies = Vec::new(alloc);
    for author in authors {
        copies.push(author.clone()?)?;
    }
    Ok(copies)
}

fn in_pieces(alloc: Global, log: &[Message]) -> Result<Pieces, AllocError>
    requires { length log.now ≤ 1048576 }
    ensures { IfOk result (λ pieces. joined pieces ≡ log.now) }
{
    let mut pieces = Pieces::new(alloc);
    for message in log {
        pieces.push(alloc, message.clone()?)?;
    }
    Ok(pieces)
}

fn out_of_pieces(alloc: Global, pieces: &Pieces) -> Result<Vec<Message>, AllocError>
    ensures { IfOk result (λ log. log.items ≡ joined pieces.now) }
{
    let mut log = Vec::new(alloc);
    'each: for i in 0..pieces.count() {
        let Some(message) = pieces.get(i) else {
            unreachable!();
        };
        log.push(message.clone()?)?;
    }
    Ok(log)
}

/// What a store keeps of the subscriptions, whose log it is.
fn kept_of_all(
    alloc: Global,
    subscriptions: &[Subscription],
    log: &[Message],
) -> Result<Vec<KeptSubscription>, AllocError>
    requires rising { IsStrictlySortedBy position_cmp (map (λ e. e.position) log.now) }
    requires sound { All (λ (sub : Subscription). IsSoundSubscription log.now (kept_of sub)) subscriptions.now }
    ensures same { IfOk result (λ kept. map (kept_in log.now) kept.items ≡ map kept_of subscriptions.now) }
    ensures within { IfOk result (λ kept. All (λ (sub : KeptPlaces). AreBelow (length log.now) sub.acknowledged) kept.items) }
{
    let mut kept = Vec::new(alloc);
    for subscription in subscriptions {
        kept.push(subscription.kept(alloc, log)?)?;
    }
    Ok(kept)
}

/// The subscriptions as they were kept over the log.
fn all_from_kept(
    alloc: Global,
    kept: &[KeptSubscription],
    log: &[Message],
) -> Result<Vec<Subscription>, AllocError>
    ensures { IfOk result (λ subs. subs.items ≡ map (λ k. subscription_from (kept_in log.now k)) kept.now) }
{
    let mut subscriptions = Vec::new(alloc);
    for one in kept {
        subscriptions.push(Subscription::from_kept(alloc, one, log)?)?;
    }
    Ok(subscriptions)
}

impl Lists {
    ghost use Rattle.std.specs.Prelude.{◌≡◌, IfOk};
    ghost use Rattle.delivery_machine.specs.Places.{snapshot_in};
    ghost use Rattle.delivery_machine.specs.Snapshot.{snapshot_of, restarted};
    ghost use Rattle.delivery_machine.specs.WellFormed.{IsSound};
    ghost use Rattle.delivery_machine.specs.Laws.{IsReached};
    ghost use Rattle.plain_topic.specs.StateOf.{state_of};

    /// The snapshot of the state, which shares the messages.
    pub(crate) fn snapshot(&self) -> Result<Snapshot, AllocError>
        requires { IsSound (snapshot_of (state_of self.now)) }
        ensures { IfOk result (λ kept. snapshot_in kept ≡ snapshot_of (state_of self.now)) }
    {
        let name = self.name.clone()?;
        let authors = authors_of(self.alloc, &self.authors)?;
        let log = in_pieces(self.alloc, &self.log)?;
        let subscriptions = kept_of_all(self.alloc, &self.subscriptions, &self.log)?;
        Ok(Snapshot::of(
            name,
            self.ledger_size,
            self.ledger,
            self.next_ordinal,
            self.gone,
            authors,
            self.retention,
            log,
            subscriptions,
        ))
    }

    /// With what the snapshot has, and nobody there.
    pub(crate) fn restarted(alloc: Global, snapshot: &Snapshot) -> Result<Self, AllocError>
        ensures state { IfOk result (λ lists. state_of lists ≡ restarted (snapshot_in snapshot.now)) }
        ensures reached { IfOk result (λ lists. IsReached (state_of lists)) }
    {
        let name = snapshot.name().clone()?;
        let authors = authors_of(alloc, snapshot.authors())?;
        let log = out_of_pieces(alloc, snapshot.log())?;
        let subscriptions = all_from_kept(alloc, snapshot.subscriptions(), &log)?;
        let durable = log.len();
        Ok(Lists {
            alloc,
            name,
            ledger_size: snapshot.ledger_size(),
            ledger: ledger_after(snapshot),
            next_ordinal: snapshot.next_ordinal(),
            next_producer: 1,
            next_consumer: 1,
            gone: snapshot.gone(),
            authors,
            retention: snapshot.retention(),
            log,
            durable,
            producers: Vec::new(alloc),
            members: Vec::new(alloc),
            subscriptions,
        })
    }
}
