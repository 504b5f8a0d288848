// Permits for consumers that pull.
use crate::lists::Lists;
use delivery_machine::Reply;
use plain_lists::place_of_member;
use position_core::{ConsumerNumber, Fault, Permits};

impl Lists {
    ghost use Rattle.std.specs.Prelude.{◌≡◌};
    ghost use Rattle.delivery_machine.specs.Run.{Answers};
    ghost use Rattle.delivery_machine.specs.declared.event.Event.TheVariants.{Permit};
    ghost use Rattle.plain_topic.specs.StateOf.{state_of};

    #[tactic(auto, using(crate::proofs::Placed::at_its_place))]
    pub(crate) fn permit(&mut self, consumer: ConsumerNumber, permits: Permits) -> Reply
        ensures { Answers (state_of self.old) (Permit consumer permits) result (state_of self.new) }
    {
        let Some(seat) = place_of_member(&self.members, consumer) else {
            return Reply::Refused(Fault::NoSession);
        };
        match self.members[seat].permit(permits) {
            Ok(()) => Reply::Done,
            Err(fault) => Reply::Refused(fault),
        }
    }
}
