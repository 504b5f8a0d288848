// A subscription goes on elsewhere.
use crate::served::Served;
use position_core::{LogIndex, SubscriptionName};
use std::alloc::AllocError;

impl Served {
    ghost use Rattle.std.specs.Prelude.{◌≡◌, ◌≤◌, Some, OnOk, OnErr, length};
    ghost use Rattle.std.specs.List.{position as place_in};
    ghost use Rattle.delivery_machine.specs.Seeking.{sought};
    ghost use Rattle.delivery_machine.specs.WellFormed.{IsWellFormed};
    ghost use Rattle.topic_subscriptions.specs.Placed.{is_placed};
    ghost use Rattle.topic_parts.specs.Parts.{log_of};
    ghost use Rattle.topic_served.specs.Served.{IsBound, state_in};

    /// Lets the subscription at the place go on after so many messages of the log. Nothing changes where there
    /// is no memory.
    pub fn seek(
        &mut self,
        name: &SubscriptionName,
        place: usize,
        end: LogIndex,
    ) -> Result<(), AllocError>
        requires bound { IsBound self.old }
        requires well { IsWellFormed (state_in self.old) }
        requires place { Some place ≡ place_in (is_placed name.now) self.old.parts.subscriptions.items }
        requires end { end ≤ length (log_of self.old.parts) }
        ensures ok { OnOk result (state_in self.new ≡ sought (state_in self.old) name.now end) }
        ensures bound { OnOk result (IsBound self.new) }
        ensures err { OnErr result (self.new ≡ self.old) }
    {
        match self.parts.seek(place, end) {
            Ok(()) => {
                let view = self.parts.at(place);
                self.dispatchers[place].reset(&view);
                Ok(())
            }
            Err(failed) => Err(failed),
        }
    }
}
