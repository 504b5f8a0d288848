// Messages of a subscription are held, and wait again.
ghost use Rattle.topic_parts.specs.Holding.{ChangesAt, IsAt, freeing};

use crate::parts::Parts;
use position_core::{DueMoment, Held, LogIndex, Position};
use std::alloc::AllocError;

impl Parts {
    ghost use Rattle.std.specs.Prelude.{◌≡◌, ◌∷◌, [], ◌<◌, ℕ, List, true, Some, OnOk, OnErr, length};
    ghost use Rattle.std.specs.List.{position as place_in};
    ghost use Rattle.std.specs.FinMap as map_of;
    ghost use Rattle.log_pieces.specs.Pieces.{index_of};
    ghost use Rattle.delivery_machine.specs.Words.{is_held_by};
    ghost use Rattle.delivery_machine.specs.Delivering.{holding};
    ghost use Rattle.delivery_machine.specs.Ticking.{redelivered, redelivering};
    ghost use Rattle.delivery_machine.specs.WellFormed.{IsWellFormed};
    ghost use Rattle.topic_subscriptions.specs.Placed.{due_again_at, holding_at, is_live_at, is_placed, redelivered_at, released_at};
    ghost use Rattle.topic_parts.specs.Parts.{AreTied, log_of, state_of};

    /// Makes the message at the index pending in the subscription at the place. Nothing changes where there
    /// is no memory.
    pub fn hold(
        &mut self,
        place: usize,
        index: LogIndex,
        position: Position,
        held: Held,
    ) -> Result<(), AllocError>
        requires tied { AreTied self.old }
        requires within { place < length self.old.subscriptions.items }
        requires index { index_of position (log_of self.old) ≡ Some index }
        requires live { IsAt self.old place (λ p. is_live_at p index ≡ true) }
        ensures ok { OnOk result (ChangesAt place (holding_at position held) (holding position held) self.old self.new) }
        ensures err { OnErr result (self.new ≡ self.old) }
        ensures tied { AreTied self.new }
    {
        match self.subscriptions[place].hold(position, held) {
            Ok(()) => Ok(()),
            Err(failed) => Err(failed),
        }
    }

    /// Gives a message that is pending in the subscription at the place another due moment.
    pub fn set_due(&mut self, place: usize, position: Position, due: DueMoment)
        requires tied { AreTied self.old }
        requires within { place < length self.old.subscriptions.items }
        ensures changes { (consumer : ℕ) → IsAt self.old place (λ p. is_held_by consumer (map_of.get p.pending.pending position) ≡ true)
            → ChangesAt place (due_again_at position due) (holding position (record { consumer = consumer; due = Some due })) self.old self.new }
        ensures tied { AreTied self.new }
    {
        self.subscriptions[place].set_due(position, due);
    }

    /// Takes a message back that may be pending in the subscription at the place: it waits again. Its count
    /// stays, and its copy may still be collected.
    pub fn release(&mut self, place: usize, position: Position)
        requires tied { AreTied self.old }
        requires within { place < length self.old.subscriptions.items }
        ensures changes { ChangesAt place (released_at position) (freeing position) self.old self.new }
        ensures tied { AreTied self.new }
    {
        self.subscriptions[place].release(position);
    }

    /// Takes a message back that is pending in the subscription at the place, counts it once more, and leaves
    /// its copy out of what its holder was sent.
    pub fn redeliver(&mut self, place: usize, position: Position)
        requires tied { AreTied self.old }
        requires well { IsWellFormed (state_of self.old) }
        requires within { place < length self.old.subscriptions.items }
        requires pending { IsAt self.old place (λ p. map_of.contains_key p.pending.pending position ≡ true) }
        ensures state { (name : List ℕ) → Some place ≡ place_in (is_placed name) self.old.subscriptions.items
            → state_of self.new ≡ redelivered (state_of self.old) name (position ∷ []) }
        ensures tied { AreTied self.new }
        ensures log { self.new.log ≡ self.old.log }
        ensures many { length self.new.subscriptions.items ≡ length self.old.subscriptions.items }
    {
        let _members = self.members.len();
        let holder = self.subscriptions[place].holder(position);
        self.subscriptions[place].redeliver(position);
        self.leave_out_of(holder, position);
    }
}
