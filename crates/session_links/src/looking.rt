// A look at a topic: what is shown of a subscription's next messages.
ghost use Rattle.std.specs.Prelude.{◌≡◌, ◌++◌, ◌∷◌, [], IfErr, IfOk, OnErr, OnOk, map, option_copied, take};
ghost use Rattle.std.specs.List.{find};
ghost use Rattle.std.specs.List.Sorted.{IsStrictlySortedBy};
ghost use Rattle.position_core.specs.Position.{position_cmp, same_position};
ghost use Rattle.session_links.specs.Looking.{delivered, is_called, is_dead, next_from, next_in, shown_of, times_of};

use crate::request::PeekLength;
use delivery_machine::{
    Counted, Deliveries, Delivery, Fault, KeptSubscription, Message, Position, Reply, Snapshot,
    SubscriptionName,
};
use std::alloc::{AllocError, Global};

/// What a topic keeps at one moment, and how many messages are stored of all that it has had.
#[derive(Drop)]
pub struct Look {
    pub snapshot: Snapshot,
    pub stored: u64,
}

fn is_dead(kept: &KeptSubscription, position: Position) -> bool
    ensures { result ≡ is_dead kept.now position }
{
    kept.dead.iter().any(|letter| letter.position.is(position))
}

fn counted_of(counted: &[Counted], position: Position) -> Option<&Counted>
    requires { IsStrictlySortedBy position_cmp (map (λ one. one.position) counted.now) }
    ensures { option_copied result ≡ find (λ one. same_position position one.position) counted.now }
{
    match counted.binary_search_by_key(&position, |one| one.position) {
        Ok(place) => Some(&counted[place]),
        Err(_) => None,
    }
}

/// How often the message was redelivered.
fn times_of(kept: &KeptSubscription, position: Position) -> u32
    ensures { result ≡ times_of kept.now position }
{
    match counted_of(kept.counts.as_slice(), position) {
        Some(counted) => counted.times.get(),
        None => 0,
    }
}

fn push_message(
    shown: &mut Deliveries,
    kept: &KeptSubscription,
    message: &Message,
) -> Result<(), AllocError>
    ensures ok { OnOk result (shown.new ≡ shown.old ++ delivered kept.now message.now ∷ []) }
    ensures err { OnErr result (shown.new ≡ shown.old) }
{
    let count = times_of(kept, message.position());
    let delivery = Delivery {
        message: message.clone()?,
        count,
    };
    shown.push(delivery)
}

/// Adds the first messages that are left, up to so many, and finds each at once: no step is taken for those that are
/// acknowledged. Those that are not stored yet stand from `end` on.
fn push_left(
    shown: &mut Deliveries,
    snapshot: &Snapshot,
    kept: &KeptSubscription,
    end: u64,
    count: u32,
) -> Result<(), AllocError>
    ensures { OnOk result (shown.new ≡ shown.old ++ next_from kept.now 0 count (take end snapshot.now.log)) }
{
    let mut left = count;
    let mut place: u64 = 0;
    'each: while left > 0 {
        place = kept.acknowledged.next_missing(place);
        if place >= end {
            return Ok(());
        }
        let Some(message) = snapshot.log().get(place as usize) else {
            return Ok(());
        };
        if !is_dead(kept, message.position()) {
            push_message(shown, kept, message)?;
            left -= 1;
        }
        place += 1;
    }
    Ok(())
}

fn kept_of<'a>(snapshot: &'a Snapshot, name: &SubscriptionName) -> Option<&'a KeptSubscription>
    ensures { option_copied result ≡ find (is_called name.now) snapshot.now.subscriptions }
{
    snapshot
        .subscriptions()
        .iter()
        .find(|kept| kept.name.is(name))
}

impl Look {
    /// The next messages of the subscription, so many at most, with how often each was redelivered. Refused (F11) where it is
    /// not there, and (F1) for want of memory.
    pub fn next_of(
        &self,
        alloc: Global,
        name: &SubscriptionName,
        count: PeekLength,
    ) -> Result<Reply, Fault>
        ensures ok { IfOk result (λ reply. reply ≡ shown_of self.now.snapshot self.now.stored name.now count) }
        ensures err { IfErr result (λ fault. fault ≡ Fault.NoMemory) }
    {
        match kept_of(&self.snapshot, name) {
            Some(kept) => self.next_in(alloc, kept, count),
            None => Ok(Reply::Refused(Fault::NoSuchSubscription)),
        }
    }

    fn next_in(
        &self,
        alloc: Global,
        kept: &KeptSubscription,
        count: PeekLength,
    ) -> Result<Reply, Fault>
        ensures ok { IfOk result (λ reply. reply ≡ Reply.Copies (next_in self.now.snapshot self.now.stored kept.now count)) }
        ensures err { IfErr result (λ fault. fault ≡ Fault.NoMemory) }
    {
        let mut shown = Deliveries::new(alloc);
        let end = self.stored.saturating_sub(self.snapshot.gone());
        match push_left(&mut shown, &self.snapshot, kept, end, count.get()) {
            Ok(()) => Ok(Reply::Copies(shown)),
            Err(_) => {
                drop(shown);
                Err(Fault::NoMemory)
            }
        }
    }
}
