// The first messages go; and the topic's own rule of what is kept.
ghost use Rattle.std.specs.Prelude.{◌≡◌};
ghost use Rattle.delivery_machine.specs.Run.{Answers};
ghost use Rattle.delivery_machine.specs.declared.event.Event.TheVariants.{SetRetention, Trim};
ghost use Rattle.topic_served.specs.Served.{IsBound, IsSettled, state_in};

use delivery_machine::{Reply, Retention};
use position_core::{Fault, Moment};
use topic_served::Served;

/// Messages go that every subscription has done with, in whole sixty-fours from the first one on: those not later than the
/// moment, so many at most, and so many at the end stay. Takes memory for the authors of those that are remembered.
pub fn trim(served: &mut Served, keep: u64, before: Moment, most: u64) -> Reply
    requires { IsSettled served.old }
    ensures answers { Answers (state_in served.old) (Trim keep before most) result (state_in served.new) }
    ensures bound { IsBound served.new }
{
    let count = served.parts.going(keep, before, most);
    if count == 0 {
        return Reply::Untrimmed;
    }
    match served.parts.log.to_remember(count as usize) {
        Ok(remembered) => {
            served.trim(count as usize, remembered);
            Reply::Trimmed(served.parts.log.gone())
        }
        Err(_) => Reply::Refused(Fault::NoMemory),
    }
}

/// From now on the topic has this rule of its own, or none. Takes no memory.
pub fn set_retention(served: &mut Served, retention: Option<Retention>) -> Reply
    requires { IsSettled served.old }
    ensures answers { Answers (state_in served.old) (SetRetention retention) result (state_in served.new) }
    ensures bound { IsBound served.new }
{
    served.parts.log.set_retention(retention);
    Reply::Done
}
