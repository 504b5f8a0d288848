// A message leaves a subscription: it is acknowledged.
use crate::parts::Parts;
use position_core::{ConsumerNumber, LogIndex, Position, SubscriptionName};
use std::alloc::AllocError;

impl Parts {
    ghost use Rattle.std.specs.Prelude.{◌≡◌, ◌∷◌, [], Some, OnOk, OnErr, length};
    ghost use Rattle.std.specs.List.{position as place_in};
    ghost use Rattle.log_pieces.specs.Pieces.{index_of};
    ghost use Rattle.delivery_machine.specs.Acknowledging.{with_acknowledged};
    ghost use Rattle.delivery_machine.specs.WellFormed.{IsWellFormed};
    ghost use Rattle.topic_subscriptions.specs.Placed.{is_placed};
    ghost use Rattle.topic_parts.specs.Leaving.{left_out_of};
    ghost use Rattle.topic_parts.specs.Parts.{AreTied, HasLiveBefore, log_of, state_of};

    /// Leaves the copy of the message out of what its holder was sent.
    pub(crate) fn leave_out_of(&mut self, holder: Option<ConsumerNumber>, position: Position)
        ensures members { self.new.members.members ≡ left_out_of holder position self.old.members.members }
        ensures next { self.new.members.next ≡ self.old.members.next }
        ensures rest { self.new ≡ record self.old { members = self.new.members } }
    {
        if let Some(number) = holder {
            self.members.leave_out(number, &[position]);
        }
    }

    /// Takes the message at the index out of the subscription at the place. Nothing changes where there is
    /// no memory, which is never so where the message before is not live.
    pub fn acknowledge(
        &mut self,
        name: &SubscriptionName,
        place: usize,
        index: LogIndex,
        position: Position,
    ) -> Result<(), AllocError>
        requires tied { AreTied self.old }
        requires well { IsWellFormed (state_of self.old) }
        requires place { Some place ≡ place_in (is_placed name.now) self.old.subscriptions.items }
        requires index { index_of position (log_of self.old) ≡ Some index }
        ensures ok { OnOk result (state_of self.new ≡ with_acknowledged (state_of self.old) name.now (position ∷ [])) }
        ensures err { OnErr result (self.new ≡ self.old) }
        ensures gap { OnErr result (HasLiveBefore self.old place index) }
        ensures tied { AreTied self.new }
        ensures log { self.new.log ≡ self.old.log }
        ensures many { length self.new.subscriptions.items ≡ length self.old.subscriptions.items }
    {
        let _length = self.log.len();
        let _members = self.members.len();
        let holder = self.subscriptions[place].holder(position);
        match self.subscriptions[place].acknowledge(index, position) {
            Ok(()) => {
                self.leave_out_of(holder, position);
                Ok(())
            }
            Err(failed) => Err(failed),
        }
    }
}
