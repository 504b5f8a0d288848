// Acknowledging one message, or all up to it.
use crate::served::Served;
use delivery_machine::Reply;
use position_core::{ConsumerNumber, Fault, LogIndex, Position, SubscriptionName};
use std::alloc::AllocError;

impl Served {
    ghost use Rattle.std.specs.Prelude.{◌≡◌, [], ◌∷◌, Some, OnOk, OnErr};
    ghost use Rattle.std.specs.List.{position as place_in};
    ghost use Rattle.log_pieces.specs.Pieces.{index_of};
    ghost use Rattle.delivery_machine.specs.Run.{Answers};
    ghost use Rattle.delivery_machine.specs.WellFormed.{IsWellFormed};
    ghost use Rattle.delivery_machine.specs.Acknowledging.{with_acknowledged};
    ghost use Rattle.delivery_machine.specs.declared.event.Event.TheVariants.{Ack};
    ghost use Rattle.topic_subscriptions.specs.Placed.{is_placed};
    ghost use Rattle.topic_parts.specs.Parts.{HasLiveBefore, log_of};
    ghost use Rattle.topic_served.specs.Served.{IsBound, IsSettled, state_in};

    /// Takes the message at the index out of the subscription at the place. Nothing changes where there is
    /// no memory, which is never so where the message before is not live.
    pub fn acknowledge(
        &mut self,
        name: &SubscriptionName,
        place: usize,
        index: LogIndex,
        position: Position,
    ) -> Result<(), AllocError>
        requires bound { IsBound self.old }
        requires well { IsWellFormed (state_in self.old) }
        requires place { Some place ≡ place_in (is_placed name.now) self.old.parts.subscriptions.items }
        requires index { index_of position (log_of self.old.parts) ≡ Some index }
        ensures ok { OnOk result (state_in self.new ≡ with_acknowledged (state_in self.old) name.now (position ∷ [])) }
        ensures bound { OnOk result (IsBound self.new) }
        ensures err { OnErr result (self.new ≡ self.old) }
        ensures gap { OnErr result (HasLiveBefore self.old.parts place index) }
    {
        let _length = self.parts.log.len();
        match self.parts.acknowledge(name, place, index, position) {
            Ok(()) => {
                let view = self.parts.at(place);
                self.dispatchers[place].on_gone(&view, index);
                Ok(())
            }
            Err(failed) => Err(failed),
        }
    }
}
