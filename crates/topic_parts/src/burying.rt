// A message dies in a subscription, and a dead letter is moved.
ghost use Rattle.topic_parts.specs.Holding.{IsAt};

use crate::parts::Parts;
use delivery_machine::DeadLetter;
use position_core::{LogIndex, Position};
use std::alloc::AllocError;

impl Parts {
    ghost use Rattle.std.specs.Prelude.{◌≡◌, ◌∷◌, [], ◌+◌, ◌<◌, ℕ, List, true, Some, OnOk, OnErr, length, map};
    ghost use Rattle.std.specs.List.{position as place_in};
    ghost use Rattle.std.specs.Option.{option_map};
    ghost use Rattle.log_pieces.specs.Pieces.{index_of};
    ghost use Rattle.delivery_machine.specs.State.{DeadLetter as Letter};
    ghost use Rattle.delivery_machine.specs.Words.{changed, is_named};
    ghost use Rattle.delivery_machine.specs.Acknowledging.{forgetting};
    ghost use Rattle.delivery_machine.specs.Dying.{burying, moved};
    ghost use Rattle.delivery_machine.specs.WellFormed.{IsWellFormed};
    ghost use Rattle.dead_core.specs.Letters.{next_safe};
    ghost use Rattle.topic_subscriptions.specs.Placed.{is_live_at, is_placed};
    ghost use Rattle.topic_parts.specs.Holding.{buried};
    ghost use Rattle.topic_parts.specs.Parts.{AreTied, HasLiveBefore, log_of, state_of};

    /// The message at the index dies in the subscription at the place, under the topic's next ordinal. Nothing
    /// changes where there is no memory.
    pub fn bury(
        &mut self,
        place: usize,
        index: LogIndex,
        letter: DeadLetter,
    ) -> Result<(), AllocError>
        requires tied { AreTied self.old }
        requires well { IsWellFormed (state_of self.old) }
        requires within { place < length self.old.subscriptions.items }
        requires index { index_of letter.position (log_of self.old) ≡ Some index }
        requires live { IsAt self.old place (λ p. is_live_at p index ≡ true) }
        ensures ok { OnOk result ((name : List ℕ) → Some place ≡ place_in (is_placed name) self.old.subscriptions.items
            → state_of self.new ≡ buried (state_of self.old) name letter) }
        ensures err { OnErr result (self.new ≡ self.old) }
        ensures tied { AreTied self.new }
        ensures log { self.new.log ≡ self.old.log }
        ensures many { length self.new.subscriptions.items ≡ length self.old.subscriptions.items }
    {
        let _length = self.log.len();
        let _members = self.members.len();
        let position = letter.position;
        let holder = self.subscriptions[place].holder(position);
        match self.subscriptions[place].bury(index, letter) {
            Ok(()) => {
                self.leave_out_of(holder, position);
                self.next_ordinal += 1;
                Ok(())
            }
            Err(failed) => Err(failed),
        }
    }

    /// Takes the first letter out of the subscription at the place, and acknowledges its message, which stands
    /// at the index. Nothing changes where there is no memory, which is never so where the message before is
    /// not live.
    pub fn move_first(
        &mut self,
        place: usize,
        index: LogIndex,
        position: Position,
    ) -> Result<(), AllocError>
        requires tied { AreTied self.old }
        requires well { IsWellFormed (state_of self.old) }
        requires within { place < length self.old.subscriptions.items }
        requires index { index_of position (log_of self.old) ≡ Some index }
        requires first { IsAt self.old place (λ p. option_map (λ d. d.position) (next_safe p.letters) ≡ Some position) }
        ensures ok { OnOk result ((name : List ℕ) (letter : Letter) → Some place ≡ place_in (is_placed name) self.old.subscriptions.items
            → IsAt self.old place (λ p. next_safe p.letters ≡ Some letter) → state_of self.new ≡ moved (state_of self.old) name letter) }
        ensures err { OnErr result (self.new ≡ self.old) }
        ensures gap { OnErr result (HasLiveBefore self.old place index) }
        ensures tied { AreTied self.new }
        ensures log { self.new.log ≡ self.old.log }
        ensures many { length self.new.subscriptions.items ≡ length self.old.subscriptions.items }
    {
        let _length = self.log.len();
        let _members = self.members.len();
        let holder = self.subscriptions[place].holder(position);
        match self.subscriptions[place].move_first(index, position) {
            Ok(()) => {
                self.leave_out_of(holder, position);
                Ok(())
            }
            Err(failed) => Err(failed),
        }
    }
}
