// Which message of a Key_Shared subscription is sent next, and to whom.
ghost use Rattle.std.specs.Prelude.{◌≡◌, ◌==◌, ◌&&◌, IfSome, IfNone};
ghost use Rattle.std.specs.List.{find, list_any};
ghost use Rattle.std.specs.Option.{option_copied};
ghost use Rattle.delivery_machine.specs.Words.{hash_of, waits_with_hash, is_at, is_member, owner_in, is_draining_in};
ghost use Rattle.plain_queries.specs.Keyed.{GoesByHash, NoneGoesByHash, NoneGoesOfHash};

use crate::log::has_room;
use murmur_core::sticky_hash;
use plain_lists::{Member, Subscription};
use position_core::{ConsumerNumber, Message, SubscriptionName};

/// The hash of the message's key.
fn hash_of(message: &Message) -> u16
    ensures { result ≡ hash_of message.now }
{
    match &message.entry().body.content().key {
        Some(key) => sticky_hash(Some(key.as_str())),
        None => sticky_hash(None),
    }
}

fn first_of_hash<'a>(
    visible: &'a [Message],
    subscription: &Subscription,
    hash: u16,
) -> Option<&'a Message>
    ensures { option_copied result ≡ find (waits_with_hash subscription.now hash) visible.now }
{
    visible.iter().find(|message| subscription.is_waiting(message) && hash_of(message) == hash)
}

fn member_of<'a>(
    members: &'a [Member],
    name: &SubscriptionName,
    number: ConsumerNumber,
) -> Option<&'a Member>
    ensures { option_copied result ≡ find (λ m. is_at name.now m && is_member number m) members.now }
{
    members
        .iter()
        .find(|member| member.is_at(name) && member.number() == number)
}

/// The member in whose share the hash is.
fn owner_of<'a>(members: &'a [Member], subscription: &Subscription, hash: u16) -> Option<&'a Member>
    ensures { option_copied result ≡ owner_in members.now subscription.now hash }
{
    match subscription.owner(hash) {
        Some(number) => member_of(members, subscription.name(), number),
        None => None,
    }
}

/// Whether a message of the hash is pending at another consumer (PIP-379).
fn is_draining(
    log: &[Message],
    subscription: &Subscription,
    hash: u16,
    owner: ConsumerNumber,
) -> bool
    ensures { result ≡ is_draining_in log.now subscription.now hash owner }
{
    log.iter().any(|message| hash_of(message) == hash && subscription.holds_beside(owner, message))
}

/// The first message of the hash that waits, and the owner of the hash, if it may be sent to it.
fn next_of_hash<'a>(
    log: &[Message],
    visible: &'a [Message],
    members: &'a [Member],
    subscription: &Subscription,
    hash: u16,
) -> Option<(&'a Message, &'a Member)>
    ensures some { IfSome result (λ p. GoesByHash log.now visible.now members.now subscription.now p.0.now p.1.now) }
    ensures none { IfNone result (NoneGoesOfHash log.now visible.now members.now subscription.now hash) }
{
    let message = first_of_hash(visible, subscription, hash)?;
    let member = owner_of(members, subscription, hash)?;
    let free = has_room(log, subscription, member)
        && !is_draining(log, subscription, hash, member.number());
    if free { Some((message, member)) } else { None }
}

/// The first message in topic order that may be sent as the next of its hash, and to whom.
pub fn next_of_any_hash<'a>(
    log: &[Message],
    visible: &'a [Message],
    members: &'a [Member],
    subscription: &Subscription,
) -> Option<(&'a Message, &'a Member)>
    ensures some { IfSome result (λ p. GoesByHash log.now visible.now members.now subscription.now p.0.now p.1.now) }
    ensures none { IfNone result (NoneGoesByHash log.now visible.now members.now subscription.now) }
{
    for message in visible {
        if subscription.is_waiting(message) {
            let hash = hash_of(message);
            if let Some(pair) = next_of_hash(log, visible, members, subscription, hash) {
                return Some(pair);
            }
        }
    }
    None
}
