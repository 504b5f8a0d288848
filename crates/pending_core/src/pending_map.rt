// Who has which message, and which of them is due first.
ghost use Rattle.std.specs.Prelude.{◌≡◌, ◌↔◌, ◌<◌, ◌≤◌, ℕ, true, List, [], ◌∷◌, Some, IsTrue, IfOk, OnOk, OnErr};
ghost use Rattle.std.specs.Option.{option_map};
ghost use Rattle.std.specs.FinMap as map_of;
ghost use Rattle.position_core.specs.declared.message.Entry.{Entry};
ghost use Rattle.delivery_machine.specs.State.{Subscription, DeadLetter};
ghost use Rattle.delivery_machine.specs.Words.{is_held_by};
ghost use Rattle.delivery_machine.specs.Acknowledging.{acknowledging};
ghost use Rattle.delivery_machine.specs.Delivering as delivering;
ghost use Rattle.delivery_machine.specs.Dying.{burying};
ghost use Rattle.delivery_machine.specs.Seeking.{seeking};
ghost use Rattle.pending_core.specs.Pending.{nothing_pending, counted_before, holding, without, released, due_again, redelivered, count_at, most_count, pending_count_at, CountedAndReleased, IsFirstAt, IsFirstDue, IsFirstPending, IsPendingOf};

use crate::due::Due;
use crate::kept::Kept;
use crate::seats::Seats;
use crate::tree::DueTree;
use crate::{seated, table};
use delivery_machine::Counts;
use position_core::{ConsumerNumber, DueMoment, Held, Position};
use std::alloc::{AllocError, Global};
use std::collections::BTreeMap;
use std::marker::Model;

/// The pending messages of a subscription, by their positions, and how often each message was
/// redelivered. A position has a slot from the first `put` until it is removed. A call takes at most
/// the logarithm of the number of slots, but for `clear`, for a growth, and where a consumer gets its
/// first message or gives up its last: that moves those of the later consumers. Only `put` takes memory.
pub struct PendingMap {
    kept: BTreeMap<Position, Kept>,
    slots: DueTree,
    seats: Seats,
    /// Whether a message was redelivered since the last `clear`: without one, nobody looks for counts.
    is_counted: bool,
}

impl Drop for PendingMap {
    fn drop(self) {
        let PendingMap {
            kept: _,
            slots: _,
            seats: _,
            is_counted: _,
        } = self;
    }
}

impl Model for PendingMap {
    ghost use Rattle.pending_core.specs.Pending.{Pending};
    ghost use Rattle.pending_core.specs.Codes.{coded_pending};
    ghost use Rattle.pending_core.specs.Kept.{pending_in, AreTied, MayCount};
    ghost use Rattle.pending_core.specs.Seats.{AreSeatsOf};

    ghost Value = { Pending };

    ghost coded = { coded_pending };

    ghost view = { λ m. pending_in m.kept.entries };

    ghost invariant = { λ m. AreTied m.kept.entries m.slots × AreSeatsOf m.seats (pending_in m.kept.entries).pending × MayCount m.is_counted (pending_in m.kept.entries) };
}

impl PendingMap {
    /// Nothing is pending.
    pub fn new(alloc: Global) -> Self
        ensures { result ≡ nothing_pending }
    {
        PendingMap {
            kept: BTreeMap::new(alloc),
            slots: DueTree::new(alloc),
            seats: Seats::new(alloc),
            is_counted: false,
        }
    }

    /// Nothing is pending, and these were redelivered.
    pub fn counted(alloc: Global, counts: &Counts) -> Result<Self, AllocError>
        ensures { IfOk result (λ map. map ≡ counted_before counts.now) }
    {
        let mut kept = BTreeMap::new(alloc);
        let mut slots = DueTree::new(alloc);
        table::set_counts(&mut kept, &mut slots, counts.as_slice())?;
        Ok(PendingMap {
            kept,
            slots,
            seats: Seats::new(alloc),
            is_counted: true,
        })
    }

    /// Makes a message pending, instead of what was pending at its position. Its count stays.
    pub fn put(&mut self, position: Position, held: Held) -> Result<(), AllocError>
        ensures ok { OnOk result (self.new ≡ holding position held self.old) }
        ensures err { OnErr result (self.new ≡ self.old) }
        ensures machine { OnOk result ((sub : Subscription) → IsPendingOf self.old sub → IsPendingOf self.new (delivering.holding position held sub)) }
    {
        seated::hold(
            &mut self.kept,
            &mut self.slots,
            &mut self.seats,
            position,
            held,
        )
    }

    /// Forgets a message, with its count: it was acknowledged, or died.
    pub fn remove(&mut self, position: Position)
        ensures value { self.new ≡ without position self.old }
        ensures acknowledged { (sub : Subscription) → IsPendingOf self.old sub → IsPendingOf self.new (acknowledging (position ∷ []) sub) }
        ensures died { (letter : DeadLetter) (sub : Subscription) → letter.position ≡ position → IsPendingOf self.old sub → IsPendingOf self.new (burying letter sub) }
    {
        seated::remove(&mut self.kept, &mut self.slots, &mut self.seats, position);
    }

    /// Gives a pending message another due moment. Where it is not pending, nothing changes.
    pub fn set_due(&mut self, position: Position, due: DueMoment)
        ensures value { self.new ≡ due_again position due self.old }
        ensures machine { (consumer : ℕ) (sub : Subscription) → IsPendingOf self.old sub → is_held_by consumer (map_of.get sub.pending position) ≡ true
            → IsPendingOf self.new (delivering.holding position (record { consumer = consumer; due = Some due }) sub) }
    {
        table::set_due(&mut self.kept, &mut self.slots, position, due);
    }

    /// Takes a message back. Its count stays.
    pub fn release(&mut self, position: Position)
        ensures { self.new ≡ released position self.old }
    {
        seated::release(&mut self.kept, &mut self.slots, &mut self.seats, position);
    }

    /// Counts one more redelivery of a pending message, up to 2^31 - 1. Where it is not pending, nothing
    /// changes.
    pub fn count_redelivery(&mut self, position: Position)
        ensures { self.new ≡ redelivered position self.old }
    {
        table::count(&mut self.kept, position);
        self.is_counted = true;
    }

    pub fn get(&self, position: Position) -> Option<Held>
        ensures { result ≡ map_of.get self.now.pending position }
    {
        table::held(&self.kept, position)
    }

    /// The consumer at which a message is pending.
    pub fn held_by(&self, position: Position) -> Option<u64>
        ensures { result ≡ option_map (λ held. held.consumer) (map_of.get self.now.pending position) }
    {
        self.get(position).map(|held| held.consumer)
    }

    /// How often a message was redelivered.
    pub fn count_of(&self, position: Position) -> u32
        ensures value { result ≡ count_at self.now position }
        ensures within { result ≤ most_count }
        ensures counted { IsTrue (map_of.contains_key self.now.counts position) ↔ (0 < result) }
    {
        match table::find(&self.kept, position) {
            Some(kept) => kept.count,
            None => 0,
        }
    }

    /// How often each message was redelivered, where any was since the last `clear`: a step for each
    /// position that has a slot.
    pub fn counts(&self, alloc: Global) -> Result<Counts, AllocError>
        ensures { IfOk result (λ counts. counts ≡ self.now.counts) }
    {
        if self.is_counted {
            table::counts_of(alloc, &self.kept)
        } else {
            Ok(Counts::new(alloc))
        }
    }

    /// The pending message that is due first, at once: by the due moments, and by the positions where
    /// these are the same.
    pub fn due_first(&self) -> Option<Due>
        ensures { IsFirstDue self.now result }
    {
        self.slots.first()
    }

    /// How many messages are pending.
    pub fn len(&self) -> usize
        ensures { result ≡ map_of.len self.now.pending }
    {
        self.seats.len()
    }

    /// How many messages are pending at the consumer.
    pub fn count_at(&self, consumer: ConsumerNumber) -> usize
        ensures { result ≡ pending_count_at self.now consumer }
    {
        self.seats.count_at(consumer)
    }

    /// The same at once where as many consumers before it have messages as `place` says.
    pub fn count_near(&self, consumer: ConsumerNumber, place: usize) -> usize
        ensures { result ≡ pending_count_at self.now consumer }
    {
        self.seats.count_near(consumer, place)
    }

    /// A pending message: of those at the least consumer the first.
    pub fn first(&self) -> Option<Position>
        ensures { IsFirstPending self.now result }
    {
        match self.seats.first() {
            Some(seat) => Some(seat.position),
            None => None,
        }
    }

    /// The first message that is pending at the consumer.
    pub fn first_at(&self, consumer: ConsumerNumber) -> Option<Position>
        ensures { IsFirstAt self.now consumer result }
    {
        self.seats.first_at(consumer)
    }

    /// Forgets all messages and counts.
    pub fn clear(&mut self)
        ensures value { self.new ≡ nothing_pending }
        ensures machine { (before : List Entry) (sub : Subscription) → IsPendingOf self.new (seeking before sub) }
    {
        self.kept.clear();
        self.slots.clear();
        self.seats.clear();
        self.is_counted = false;
    }
}

/// A tick that releases a message counts it once more and takes it back: `count_redelivery`, and then
/// `release`.
pub fn counted_and_released()
    ensures { CountedAndReleased }
{}
