// A subscription, and the consumers that are at it.
ghost use Rattle.std.specs.Prelude.{◌≡◌, ◌<◌, ◌^◌, ◌==◌, false, not, IfOk, OnOk, OnErr, length, slice_get};
ghost use Rattle.std.specs.List.{filter};
ghost use Rattle.delivery_machine.specs.Shares.{asks_taken, mixes, owner_of};
ghost use Rattle.topic_subscriptions.specs.Placed.{UndoesJoin, is_placed, joined_by, left_by, made};

use crate::closed::Closed;
use ack_ranges::AckSet;
use dead_core::DeadQueue;
use hash_ranges::SplitTable;
use pending_core::PendingMap;
use position_core::{ConsumerNumber, Kind, LogIndex, Ranges, SubscriptionName};
use std::alloc::{AllocError, Global};
use std::marker::Model;

/// A subscription, and what became of each message in it.
pub struct Subscription {
    pub(crate) name: SubscriptionName,
    pub(crate) kind: Kind,
    pub(crate) closed: Closed,
    /// The numbers of the members, in the order of joining.
    pub(crate) line: Vec<ConsumerNumber>,
    pub(crate) pending: PendingMap,
    pub(crate) shares: SplitTable,
    pub(crate) dead: DeadQueue,
}

impl Drop for Subscription {
    fn drop(self) {
        let Subscription {
            name: _,
            kind: _,
            closed: _,
            line: _,
            pending: _,
            shares: _,
            dead: _,
        } = self;
    }
}

impl Model for Subscription {
    ghost use Rattle.std.specs.Coded.{codes};
    ghost use Rattle.delivery_machine.specs.Codes.{coded_places};
    ghost use Rattle.hash_ranges.specs.Codes.{coded_shares};
    ghost use Rattle.pending_core.specs.Codes.{coded_pending};
    ghost use Rattle.dead_core.specs.Codes.{coded_letters};
    ghost use Rattle.topic_subscriptions.specs.Placed.{Placed};

    ghost Value = { Placed };

    ghost coded = { Prim.hlevel (codes, coded_places, coded_shares, coded_pending, coded_letters) };

    ghost view = { λ s. record {
      name = s.name;
      kind = s.kind;
      places = s.closed.places;
      buried = s.closed.buried;
      line = s.line.items;
      pending = s.pending;
      shares = s.shares;
      letters = s.dead;
    } };
}

fn take_out(line: &mut Vec<ConsumerNumber>, consumer: ConsumerNumber)
    ensures { line.new.items ≡ filter (λ n. not (n == consumer)) line.old.items }
{
    line.retain(|number| *number != consumer);
}

impl Subscription {
    ghost use Rattle.std.specs.Prelude.{◌≡◌, OnOk, OnErr, IfOk};

    /// With its first consumer, nothing pending, and the messages below the place acknowledged.
    pub fn new(
        alloc: Global,
        name: SubscriptionName,
        kind: Kind,
        ranges: &Option<Ranges>,
        consumer: ConsumerNumber,
        end: LogIndex,
    ) -> Result<Self, AllocError>
        ensures { IfOk result (λ sub. sub ≡ made name kind ranges.now consumer end) }
    {
        let mut shares = SplitTable::new(alloc);
        shares.join_by(kind, ranges, consumer)?;
        let mut acknowledged = AckSet::new(alloc);
        acknowledged.reset(end);
        let mut line = Vec::new(alloc);
        line.push(consumer)?;
        Ok(Subscription {
            name,
            kind,
            closed: Closed::of(alloc, acknowledged),
            line,
            pending: PendingMap::new(alloc),
            shares,
            dead: DeadQueue::new(alloc),
        })
    }

    pub fn kind(&self) -> Kind
        ensures { result ≡ self.now.kind }
    {
        self.kind
    }

    pub fn name(&self) -> &SubscriptionName
        ensures { result.now ≡ self.now.name }
    {
        &self.name
    }

    pub(crate) fn is_named(&self, name: &SubscriptionName) -> bool
        ensures { result ≡ is_placed name.now self.now }
    {
        self.name.is(name)
    }

    /// The numbers of its members, in the order of joining.
    pub fn line(&self) -> &[ConsumerNumber]
        ensures { result.now ≡ self.now.line }
    {
        &self.line
    }

    /// The number of the member at the place of the line.
    pub fn number_at(&self, place: u64) -> Option<ConsumerNumber>
        ensures value { result ≡ slice_get self.now.line place }
        ensures few { length self.now.line < 2 ^ 64 }
    {
        self.line.get(place as usize).copied()
    }

    /// Whether the consumer would say which hashes it takes where the members did not, or the other way
    /// about.
    pub fn mixes(&self, kind: Kind, ranges: &Option<Ranges>) -> bool
        ensures { result ≡ mixes kind ranges.now self.now.shares }
    {
        self.shares.mixes(kind, ranges)
    }

    /// Whether a hash that the consumer asks for is in a member's share.
    pub fn asks_taken(&self, kind: Kind, ranges: &Option<Ranges>) -> bool
        ensures { result ≡ asks_taken kind ranges.now self.now.shares }
    {
        self.shares.asks_taken(kind, ranges)
    }

    /// Lets the consumer in, and takes its kind. Nothing changes where there is no memory.
    pub fn join(
        &mut self,
        kind: Kind,
        ranges: &Option<Ranges>,
        consumer: ConsumerNumber,
    ) -> Result<(), AllocError>
        requires free { asks_taken kind ranges.now self.old.shares ≡ false }
        ensures ok { OnOk result (self.new ≡ joined_by kind ranges.now consumer self.old) }
        ensures err { OnErr result (self.new ≡ self.old) }
    {
        self.line.reserve(1)?;
        self.shares.join_by(kind, ranges, consumer)?;
        self.line.push_reserved(consumer);
        self.kind = kind;
        Ok(())
    }

    /// Lets the consumer out, with nothing pending at it: its share goes from it.
    pub fn leave(&mut self, consumer: ConsumerNumber)
        ensures { self.new ≡ left_by consumer self.old }
    {
        take_out(&mut self.line, consumer);
        self.shares.leave(consumer);
    }

    /// Takes back that the consumer joined, who had no share then; the subscription was of this kind.
    pub fn undo_join(&mut self, kind: Kind, consumer: ConsumerNumber)
        ensures { UndoesJoin kind consumer self.old self.new }
    {
        self.line.pop();
        self.shares.leave(consumer);
        self.kind = kind;
    }

    /// The consumer in whose share the hash is.
    pub fn owner(&self, hash: u16) -> Option<u64>
        ensures { result ≡ owner_of self.now.shares hash }
    {
        self.shares.owner(hash)
    }
}
