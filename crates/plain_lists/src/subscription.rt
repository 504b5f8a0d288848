// What a subscription knows of its messages.
ghost use Rattle.std.specs.Prelude.{◌≡◌, false, OnOk, OnErr, Some};
ghost use Rattle.std.specs.Bool.{OnFalse, OnTrue};
ghost use Rattle.std.specs.Option.{option_and_then, option_map};
ghost use Rattle.std.specs.FinSet as set;
ghost use Rattle.std.specs.FinMap as map_of;
ghost use Rattle.delivery_machine.specs.Words.{count_of, is_named, is_held_by, is_held_beside, is_live, is_waiting};
ghost use Rattle.delivery_machine.specs.Joining.{joining, leaving, releasing_all};
ghost use Rattle.delivery_machine.specs.Shares.{asks_taken, mixes, no_shares, owner_of, shares_with};
ghost use Rattle.delivery_machine.specs.Acknowledging.{acknowledging};
ghost use Rattle.delivery_machine.specs.Delivering.{holding};
ghost use Rattle.delivery_machine.specs.Seeking.{seeking};
ghost use Rattle.delivery_machine.specs.Ticking.{redelivering};

use crate::counts::CountTable;
use crate::pending::PendingTable;
use crate::positions::PositionSet;
use delivery_machine::DeadLetter;
use hash_ranges::SplitTable;
use position_core::{
    ConsumerNumber, DueMoment, Held, Kind, Message, Position, Ranges, SubscriptionName,
};
use std::alloc::{AllocError, Global};
use std::marker::Model;

/// A subscription, and what became of each message in it.
pub struct Subscription {
    pub(crate) name: SubscriptionName,
    pub(crate) kind: Kind,
    pub(crate) acknowledged: PositionSet,
    pub(crate) pending: PendingTable,
    pub(crate) counts: CountTable,
    pub(crate) shares: SplitTable,
    /// The consumer that was sent a message last; 0 where there is none.
    pub(crate) last_served: u64,
    pub(crate) dead: Vec<DeadLetter>,
    /// So many of the first letters' deaths are stored.
    pub(crate) safe: usize,
}

impl Drop for Subscription {
    fn drop(self) {
        let Subscription {
            name: _,
            kind: _,
            acknowledged: _,
            pending: _,
            counts: _,
            shares: _,
            last_served: _,
            dead: _,
            safe: _,
        } = self;
    }
}

impl Model for Subscription {
    ghost use Rattle.delivery_machine.specs.State.{Subscription};
    ghost use Rattle.plain_lists.specs.Codes.{coded_subscription};

    ghost Value = { Subscription };

    ghost coded = { coded_subscription };

    ghost view = { λ s. record {
      name = s.name;
      kind = s.kind;
      acknowledged = s.acknowledged;
      pending = s.pending;
      counts = s.counts;
      shares = s.shares;
      dead = s.dead.items;
      safe = s.safe;
    } };
}

impl Subscription {
    ghost use Rattle.std.specs.Prelude.{◌≡◌, [], OnOk, OnErr, IfOk};

    /// A subscription with nothing pending, as its first consumer makes it.
    pub fn new(
        alloc: Global,
        name: SubscriptionName,
        kind: Kind,
        ranges: &Option<Ranges>,
        consumer: ConsumerNumber,
        acknowledged: PositionSet,
    ) -> Result<Self, AllocError>
        ensures { IfOk result (λ sub. sub ≡ record { name = name; kind = kind; acknowledged = acknowledged; pending = map_of.empty; counts = map_of.empty; shares = shares_with kind ranges.now consumer no_shares; dead = []; safe = 0 }) }
    {
        let mut shares = SplitTable::new(alloc);
        shares.join_by(kind, ranges, consumer)?;
        Ok(Subscription {
            name,
            kind,
            acknowledged,
            pending: PendingTable::new(alloc),
            counts: CountTable::new(alloc),
            shares,
            last_served: 0,
            dead: Vec::new(alloc),
            safe: 0,
        })
    }

    pub fn kind(&self) -> Kind
        ensures { result ≡ self.now.kind }
    {
        self.kind
    }

    pub fn name(&self) -> &SubscriptionName
        ensures { result.now ≡ self.now.name }
    {
        &self.name
    }

    pub(crate) fn is_named(&self, name: &SubscriptionName) -> bool
        ensures { result ≡ is_named name.now self.now }
    {
        self.name.is(name)
    }

    /// Whether the consumer would say which hashes it takes where the members did not, or the other way
    /// about.
    pub fn mixes(&self, kind: Kind, ranges: &Option<Ranges>) -> bool
        ensures { result ≡ mixes kind ranges.now self.now.shares }
    {
        self.shares.mixes(kind, ranges)
    }

    /// Whether a hash that the consumer asks for is in a member's share.
    pub fn asks_taken(&self, kind: Kind, ranges: &Option<Ranges>) -> bool
        ensures { result ≡ asks_taken kind ranges.now self.now.shares }
    {
        self.shares.asks_taken(kind, ranges)
    }

    /// Lets the consumer in, and takes its kind. Nothing changes where there is no memory.
    pub fn join(
        &mut self,
        kind: Kind,
        ranges: &Option<Ranges>,
        consumer: ConsumerNumber,
    ) -> Result<(), AllocError>
        requires free { asks_taken kind ranges.now self.old.shares ≡ false }
        ensures ok { OnOk result (self.new ≡ joining kind ranges.now consumer self.old) }
        ensures err { OnErr result (self.new ≡ self.old) }
    {
        self.shares.join_by(kind, ranges, consumer)?;
        self.kind = kind;
        Ok(())
    }

    /// The consumer in whose share the hash is.
    pub fn owner(&self, hash: u16) -> Option<u64>
        ensures { result ≡ owner_of self.now.shares hash }
    {
        self.shares.owner(hash)
    }

    /// How often the message was redelivered.
    pub fn count_of(&self, position: Position) -> u32
        ensures { result ≡ count_of self.now position }
    {
        self.counts.get(position)
    }

    /// The consumer that was sent a message last; 0 where there is none.
    pub fn last_served(&self) -> u64 {
        self.last_served
    }

    pub fn is_acknowledged(&self, message: &Message) -> bool
        ensures { result ≡ set.contains self.now.acknowledged message.now.position }
    {
        self.acknowledged.contains(message.position())
    }

    /// Whether the message is neither acknowledged nor dead.
    pub fn is_live(&self, message: &Message) -> bool
        ensures { result ≡ is_live self.now message.now }
    {
        !self.is_acknowledged(message) && !self.is_dead(message.position())
    }

    /// Whether the message is live, and pending at nobody.
    pub fn is_waiting(&self, message: &Message) -> bool
        ensures { result ≡ is_waiting self.now message.now }
    {
        self.is_live(message) && !self.is_pending(message)
    }

    /// The consumer at which the message is pending.
    pub fn holder(&self, position: Position) -> Option<u64>
        ensures { result ≡ option_map (λ h. h.consumer) (map_of.get self.now.pending position) }
    {
        self.pending.holder(position)
    }

    /// Whether the message is pending at the consumer.
    pub fn holds_at(&self, consumer: ConsumerNumber, message: &Message) -> bool
        ensures { result ≡ is_held_by consumer (map_of.get self.now.pending message.now.position) }
    {
        self.pending.is_held_by(message.position(), consumer)
    }

    /// Whether the message is pending at another consumer.
    pub fn holds_beside(&self, consumer: ConsumerNumber, message: &Message) -> bool
        ensures { result ≡ is_held_beside consumer (map_of.get self.now.pending message.now.position) }
    {
        match self.holder(message.position()) {
            Some(holder) => holder != consumer,
            None => false,
        }
    }

    /// Makes the message pending. Nothing changes where there is no memory.
    pub fn hold(&mut self, position: Position, held: Held) -> Result<(), AllocError>
        ensures ok { OnOk result (self.new ≡ holding position held self.old) }
        ensures err { OnErr result (self.new ≡ self.old) }
    {
        self.pending.insert(position, held)?;
        self.last_served = held.consumer;
        Ok(())
    }

    /// From when on the message may be released.
    pub fn due(&self, message: &Message) -> Option<u64>
        ensures { result ≡ option_and_then (λ h. h.due) (map_of.get self.now.pending message.now.position) }
    {
        self.pending.due(message.position())
    }

    pub fn is_pending(&self, message: &Message) -> bool
        ensures { result ≡ map_of.contains_key self.now.pending message.now.position }
    {
        self.pending.contains(message.position())
    }

    /// Makes the message due, and answers whether it is pending at the consumer; else nothing
    /// changes.
    pub fn set_due(&mut self, consumer: ConsumerNumber, position: Position, due: DueMoment) -> bool
        ensures known { result ≡ is_held_by consumer (map_of.get self.old.pending position) }
        ensures held { OnTrue result (self.new ≡ holding position (record { consumer = consumer; due = Some due }) self.old) }
        ensures none { OnFalse result (self.new ≡ self.old) }
    {
        if !self.pending.is_held_by(position, consumer) {
            return false;
        }
        self.pending.rehold(
            position,
            Held {
                consumer,
                due: Some(due),
            },
        );
        true
    }

    /// Counts the messages once more and lets them wait again. Nothing changes where there is no
    /// memory.
    pub fn redeliver(&mut self, alloc: Global, positions: &[Position]) -> Result<(), AllocError>
        ensures ok { OnOk result (self.new ≡ redelivering positions.now self.old) }
        ensures err { OnErr result (self.new ≡ self.old) }
    {
        self.counts.count_again(alloc, positions)?;
        self.pending.leave_out(positions);
        Ok(())
    }

    /// Takes the messages out. Nothing changes where there is no memory.
    pub fn acknowledge(&mut self, positions: &[Position]) -> Result<(), AllocError>
        ensures ok { OnOk result (self.new ≡ acknowledging positions.now self.old) }
        ensures err { OnErr result (self.new ≡ self.old) }
    {
        self.acknowledged.add(positions)?;
        self.pending.leave_out(positions);
        self.counts.leave_out(positions);
        Ok(())
    }

    /// Lets the consumer out: what is pending at it waits again, and its share goes from it.
    pub fn leave(&mut self, consumer: ConsumerNumber)
        ensures { self.new ≡ leaving consumer self.old }
    {
        self.pending.release_held_by(consumer);
        self.shares.leave(consumer);
    }

    pub fn release_all(&mut self)
        ensures { self.new ≡ releasing_all self.old }
    {
        self.pending.clear();
    }

    /// Goes on after the messages, and forgets what was sent. Nothing changes where there is no memory.
    pub fn seek(&mut self, alloc: Global, before: &[Message]) -> Result<(), AllocError>
        ensures ok { OnOk result (self.new ≡ seeking before.now self.old) }
        ensures err { OnErr result (self.new ≡ self.old) }
    {
        self.acknowledged = PositionSet::all_of(alloc, before)?;
        self.release_all();
        self.counts.clear();
        Ok(())
    }
}
