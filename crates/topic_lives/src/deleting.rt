// What is left of a topic that is deleted.
ghost use Rattle.std.specs.Prelude.{◌≡◌, ◌+◌, ◌≤◌, ◌^◌, [], IfOk, codes, length, nat_eq, None};
ghost use Rattle.std.specs.List.{filter, starts_with};
ghost use Rattle.log_pieces.specs.Pieces.{joined};
ghost use Rattle.delivery_machine.specs.Places.{snapshot_in};
ghost use Rattle.delivery_machine.specs.Trimming.{with_authors};
ghost use Rattle.delivery_machine.specs.WellFormed.{AreAuthors};
ghost use Rattle.topic_lives.specs.Deleting.{emptied, is_bare, moves_letters};

use dedup_core::remember;
use delivery_machine::{Author, ProducerName, Snapshot};
use log_pieces::Pieces;
use std::alloc::{AllocError, Global};

fn is_courier(name: &ProducerName) -> bool
    ensures { result ≡ starts_with nat_eq name.now (codes "dlq/") }
{
    name.as_str().starts_with("dlq/")
}

/// Those of them who moved dead letters to the topic.
fn couriers_among(alloc: Global, authors: &[Author]) -> Result<Vec<Author>, AllocError>
    ensures { IfOk result (λ couriers. couriers.items ≡ filter moves_letters authors.now) }
{
    let mut couriers = Vec::new(alloc);
    for author in authors {
        if is_courier(&author.name) {
            couriers.push(author.clone()?)?;
        }
    }
    Ok(couriers)
}

/// Who moved dead letters to a topic: of the authors, and of the messages of the log, which so many were before.
fn couriers(
    alloc: Global,
    gone: u64,
    authors: &[Author],
    log: &Pieces,
) -> Result<Vec<Author>, AllocError>
    requires room { gone + length (joined log.now) ≤ 2 ^ 62 }
    requires remembered { AreAuthors gone authors.now }
    ensures { IfOk result (λ couriers. couriers.items ≡ filter moves_letters (with_authors gone (joined log.now) authors.now)) }
{
    let mut couriers = couriers_among(alloc, authors)?;
    for index in 0..log.count() {
        let Some(message) = log.get(index) else {
            unreachable!();
        };
        if is_courier(&message.entry().producer) {
            remember(&mut couriers, gone + index as u64, message)?;
        }
    }
    Ok(couriers)
}

/// What is left of a topic that is deleted: its numbers, and who moved dead letters to it, so that the topic that is
/// made under its name goes on with them. It takes a step for each message, and memory for who moved dead letters alone.
pub fn emptied(alloc: Global, kept: &Snapshot) -> Result<Snapshot, AllocError>
    requires count { kept.now.gone + length kept.now.log ≤ 2 ^ 62 }
    ensures left { IfOk result (λ left. snapshot_in left ≡ emptied (snapshot_in kept.now)) }
    ensures name { IfOk result (λ left. left.name ≡ kept.now.name) }
    ensures gone { IfOk result (λ left. left.gone ≡ kept.now.gone + length kept.now.log) }
    ensures ordinal { IfOk result (λ left. left.next_ordinal ≡ kept.now.next_ordinal) }
    ensures nothing { IfOk result (λ left. (left.log ≡ []) × (left.subscriptions ≡ []) × (left.retention ≡ None)) }
{
    let name = kept.name().clone()?;
    let authors = couriers(alloc, kept.gone(), kept.authors(), kept.log())?;
    Ok(Snapshot::of(
        name,
        kept.ledger_size(),
        kept.ledger(),
        kept.next_ordinal(),
        kept.gone() + kept.log().count() as u64,
        authors,
        None,
        Pieces::new(alloc),
        Vec::new(alloc),
    ))
}

/// Whether there is nothing in it: no message, no subscription, and no rule of its own.
pub fn is_bare(kept: &Snapshot) -> bool
    ensures { result ≡ is_bare (snapshot_in kept.now) }
{
    kept.log().count() == 0 && kept.subscriptions().is_empty() && kept.retention().is_none()
}
