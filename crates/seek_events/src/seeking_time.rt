// A subscription goes on at a time.
ghost use Rattle.std.specs.Prelude.{◌≡◌};
ghost use Rattle.delivery_machine.specs.Run.{Answers};
ghost use Rattle.delivery_machine.specs.declared.event.Event.TheVariants.{SeekTime};
ghost use Rattle.topic_served.specs.Served.{IsBound, IsSettled, state_in};

use delivery_machine::Reply;
use position_core::{Fault, Moment, SubscriptionName};
use topic_served::Served;

/// Lets the subscription go on at the first visible message that is not earlier than the time.
pub fn seek_time(served: &mut Served, name: &SubscriptionName, time: Moment) -> Reply
    requires { IsSettled served.old }
    ensures answers { Answers (state_in served.old) (SeekTime name.now time) result (state_in served.new) }
    ensures bound { IsBound served.new }
{
    let Some(place) = served.parts.place_of(name) else {
        return Reply::Refused(Fault::NoSuchSubscription);
    };
    let end = served.parts.log.count_earlier(time) as u64;
    match served.seek(name, place, end) {
        Ok(()) => Reply::Done,
        Err(_) => Reply::Refused(Fault::NoMemory),
    }
}
