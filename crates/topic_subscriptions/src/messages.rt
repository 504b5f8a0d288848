// What becomes of the messages of a subscription.
ghost use Rattle.std.specs.Prelude.{◌≡◌, ◌+◌, ◌<◌, ◌^◌, ℕ, true, IfOk, OnOk, OnErr, IfSome, IfNone, length};
ghost use Rattle.std.specs.List.{All, count_by};
ghost use Rattle.std.specs.Option.{option_copied, option_map};
ghost use Rattle.std.specs.FinSet as set;
ghost use Rattle.std.specs.FinMap as map_of;
ghost use Rattle.ack_ranges.specs.Ranges.{IsNextMissing, numbers};
ghost use Rattle.number_sets.specs.Places.{IsNext, NoneFrom};
ghost use Rattle.pending_core.specs.Pending.{IsFirstAt, IsFirstDue, IsFirstPending, count_at, pending_count_at};
ghost use Rattle.dead_core.specs.Letters.{next_safe};
ghost use Rattle.topic_subscriptions.specs.Placed.{IsNextLive, acknowledged_at, all_safe_in, buried_at, due_again_at, holding_at, is_live_at, moved_from, redelivered_at, released_at, safe_below_in, sought_to};

use crate::closed::Closed;
use crate::subscription::Subscription;
use ack_ranges::AckSet;
use delivery_machine::DeadLetter;
use pending_core::Due;
use position_core::{ConsumerNumber, DueMoment, Held, LogIndex, Ordinal, Position};
use std::alloc::{AllocError, Global};

impl Subscription {
    ghost use Rattle.std.specs.Prelude.{◌≡◌, OnOk, OnErr};

    pub fn is_acknowledged(&self, place: LogIndex) -> bool
        ensures { result ≡ set.contains self.now.places place }
    {
        self.closed.is_acknowledged(place)
    }

    /// How many messages are acknowledged.
    pub fn number_acknowledged(&self) -> u64
        ensures { result ≡ set.len self.now.places }
    {
        self.closed.number_acknowledged()
    }

    /// The end of the messages that are acknowledged from the first one on.
    pub fn mark_delete_end(&self) -> LogIndex
        ensures { IsNextMissing self.now.places 0 result }
    {
        self.closed.first_not_acknowledged()
    }

    /// The least place from `from` on whose message is neither acknowledged nor dead, or that no message
    /// has.
    pub fn next_live(&self, from: LogIndex) -> LogIndex
        ensures { IsNextLive self.now from result }
    {
        self.closed.next_open(from)
    }

    /// How many places below `end` have a message that is neither acknowledged nor dead, or none. Looks at
    /// those ranges alone that end behind it.
    pub fn number_live_below(&self, end: LogIndex) -> u64
        ensures { result ≡ count_by (is_live_at self.now) (numbers 0 end) }
    {
        self.closed.number_open_below(end)
    }

    /// The least place whose message died and is not acknowledged.
    pub fn first_buried(&self) -> Option<LogIndex>
        ensures some { IfSome result (IsNext (set.contains self.now.buried) 0) }
        ensures none { IfNone result (NoneFrom (set.contains self.now.buried) 0) }
    {
        self.closed.first_buried()
    }

    /// The consumer at which the message is pending.
    pub fn holder(&self, position: Position) -> Option<u64>
        ensures { result ≡ option_map (λ h. h.consumer) (map_of.get self.now.pending.pending position) }
    {
        self.pending.held_by(position)
    }

    /// How many messages are pending at the consumer.
    pub fn pending_at(&self, consumer: ConsumerNumber) -> usize
        ensures { result ≡ pending_count_at self.now.pending consumer }
    {
        self.pending.count_at(consumer)
    }

    /// The same at once where as many consumers before it have messages as `place` says.
    pub fn pending_near(&self, consumer: ConsumerNumber, place: usize) -> usize
        ensures { result ≡ pending_count_at self.now.pending consumer }
    {
        self.pending.count_near(consumer, place)
    }

    /// How many messages are pending.
    pub fn number_pending(&self) -> usize
        ensures { result ≡ map_of.len self.now.pending.pending }
    {
        self.pending.len()
    }

    /// A pending message.
    pub fn first_pending(&self) -> Option<Position>
        ensures { IsFirstPending self.now.pending result }
    {
        self.pending.first()
    }

    /// The first message that is pending at the consumer.
    pub fn first_pending_at(&self, consumer: ConsumerNumber) -> Option<Position>
        ensures { IsFirstAt self.now.pending consumer result }
    {
        self.pending.first_at(consumer)
    }

    /// What is pending first falls due.
    pub fn due_first(&self) -> Option<Due>
        ensures { IsFirstDue self.now.pending result }
    {
        self.pending.due_first()
    }

    /// How often the message was redelivered.
    pub fn count_of(&self, position: Position) -> u32
        ensures { result ≡ count_at self.now.pending position }
    {
        self.pending.count_of(position)
    }

    /// Makes the message pending. Nothing changes where there is no memory.
    pub fn hold(&mut self, position: Position, held: Held) -> Result<(), AllocError>
        ensures ok { OnOk result (self.new ≡ holding_at position held self.old) }
        ensures err { OnErr result (self.new ≡ self.old) }
    {
        self.pending.put(position, held)
    }

    /// Gives a pending message another due moment. Where it is not pending, nothing changes.
    pub fn set_due(&mut self, position: Position, due: DueMoment)
        ensures { self.new ≡ due_again_at position due self.old }
    {
        self.pending.set_due(position, due);
    }

    /// Takes a message back, which waits again. Its count stays.
    pub fn release(&mut self, position: Position)
        ensures { self.new ≡ released_at position self.old }
    {
        self.pending.release(position);
    }

    /// Takes a pending message back, and counts it once more.
    pub fn redeliver(&mut self, position: Position)
        ensures { self.new ≡ redelivered_at position self.old }
    {
        self.pending.count_redelivery(position);
        self.pending.release(position);
    }

    /// Takes the message out, which stands at the place. Takes no memory where it is the first live one, or
    /// not live; else nothing changes where there is no memory.
    pub fn acknowledge(&mut self, place: LogIndex, position: Position) -> Result<(), AllocError>
        requires { place + 1 < 2 ^ 64 }
        ensures ok { OnOk result (self.new ≡ acknowledged_at place position self.old) }
        ensures err { OnErr result (self.new ≡ self.old) }
        ensures gap { OnErr result ((k : ℕ) × (k + 1 ≡ place) × (is_live_at self.old k ≡ true)) }
    {
        match self.closed.acknowledge(place) {
            Ok(()) => {
                self.pending.remove(position);
                Ok(())
            }
            Err(failed) => Err(failed),
        }
    }

    /// Makes the letter the last one, and takes its message out, which stands at the place. Nothing changes
    /// where there is no memory.
    pub fn bury(&mut self, place: LogIndex, letter: DeadLetter) -> Result<(), AllocError>
        requires fits { place + 1 < 2 ^ 64 }
        requires live { is_live_at self.old place ≡ true }
        ensures ok { OnOk result (self.new ≡ buried_at place letter self.old) }
        ensures err { OnErr result (self.new ≡ self.old) }
    {
        let position = letter.position;
        self.dead.push(letter)?;
        match self.closed.bury(place) {
            Ok(()) => {
                self.pending.remove(position);
                Ok(())
            }
            Err(failed) => {
                self.dead.take_back();
                Err(failed)
            }
        }
    }

    /// Takes the first letter out, and acknowledges its message, which stands at the place. Takes no memory
    /// where that is not live; else nothing changes where there is none.
    pub fn move_first(&mut self, place: LogIndex, position: Position) -> Result<(), AllocError>
        requires { place + 1 < 2 ^ 64 }
        ensures ok { OnOk result (self.new ≡ moved_from place position self.old) }
        ensures err { OnErr result (self.new ≡ self.old) }
        ensures gap { OnErr result ((k : ℕ) × (k + 1 ≡ place) × (is_live_at self.old k ≡ true)) }
    {
        match self.closed.acknowledge(place) {
            Ok(()) => {
                self.pending.remove(position);
                self.dead.take_first();
                Ok(())
            }
            Err(failed) => Err(failed),
        }
    }

    pub fn number_of_dead(&self) -> usize
        ensures { result ≡ length self.now.letters.dead }
    {
        self.dead.count()
    }

    /// Copies of the dead letters, in the order of dying.
    pub fn letters(&self, alloc: Global) -> Result<Vec<DeadLetter>, AllocError>
        ensures { IfOk result (λ letters. letters.items ≡ self.now.letters.dead) }
    {
        self.dead.letters(alloc)
    }

    /// The first dead letter, where its death is stored.
    pub fn first_safe(&self) -> Option<&DeadLetter>
        ensures { option_copied result ≡ next_safe self.now.letters }
    {
        self.dead.next_safe()
    }

    /// All deaths are stored.
    pub fn store(&mut self)
        ensures { self.new ≡ all_safe_in self.old }
    {
        self.dead.mark_safe();
    }

    /// The deaths below the ordinal are stored, and those that were.
    pub fn store_to(&mut self, ordinal: Ordinal)
        ensures { self.new ≡ safe_below_in ordinal self.old }
    {
        self.dead.mark_safe_below(ordinal);
    }
}
