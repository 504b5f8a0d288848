// The first live messages of a subscription are skipped.
ghost use Rattle.std.specs.Prelude.{◌≡◌, ◌<◌, Some, length};
ghost use Rattle.std.specs.List.{position as place_in};
ghost use Rattle.delivery_machine.specs.Run.{Answers};
ghost use Rattle.delivery_machine.specs.declared.event.Event.TheVariants.{Skip};
ghost use Rattle.topic_subscriptions.specs.Placed.{is_placed};
ghost use Rattle.topic_parts.specs.Parts.{log_of};
ghost use Rattle.topic_served.specs.Served.{IsBound, IsSettled, state_in};
ghost use Rattle.seek_events.specs.Live.{IsFirstLive, SkipsAt, SkipsFirst};

use delivery_machine::Reply;
use position_core::{Fault, LogIndex, SkipLength, SubscriptionName};
use topic_served::Served;

fn first_live(served: &Served, place: usize) -> LogIndex
    requires { place < length served.now.parts.subscriptions.items }
    ensures { IsFirstLive served.now place result }
{
    served.parts.subscriptions[place].next_live(0)
}

/// The first live message is acknowledged. Takes no memory.
fn skip_first(served: &mut Served, name: &SubscriptionName, place: usize, index: LogIndex)
    requires settled { IsSettled served.old }
    requires place { Some place ≡ place_in (is_placed name.now) served.old.parts.subscriptions.items }
    requires seen { index < (state_in served.old).durable }
    requires first { IsFirstLive served.old place index }
    ensures settled { IsSettled served.new }
    ensures state { SkipsAt (log_of served.old.parts) index name.now (state_in served.old) (state_in served.new) }
{
    let _length = served.parts.log.len();
    let _durable = served.parts.log.durable();
    let Some(message) = served.parts.log.get(index as usize) else {
        unreachable!();
    };
    let position = message.position();
    match served.acknowledge(name, place, index, position) {
        Ok(()) => (),
        Err(_) => unreachable!(),
    }
}

/// The first live messages are acknowledged, so many, or all. Takes no memory.
fn skip_all(served: &mut Served, name: &SubscriptionName, place: usize, count: u64)
    requires settled { IsSettled served.old }
    requires place { Some place ≡ place_in (is_placed name.now) served.old.parts.subscriptions.items }
    ensures settled { IsSettled served.new }
    ensures state { SkipsFirst count name.now (state_in served.old) (state_in served.new) }
{
    let _length = served.parts.log.len();
    let durable = served.parts.log.durable() as u64;
    let mut done = 0;
    while done < count {
        let index = first_live(served, place);
        if index >= durable {
            return;
        }
        skip_first(served, name, place, index);
        done += 1;
    }
}

/// Skips so many live messages. Takes no memory.
pub fn skip(served: &mut Served, name: &SubscriptionName, count: SkipLength) -> Reply
    requires { IsSettled served.old }
    ensures answers { Answers (state_in served.old) (Skip name.now count) result (state_in served.new) }
    ensures bound { IsBound served.new }
{
    let Some(place) = served.parts.place_of(name) else {
        return Reply::Refused(Fault::NoSuchSubscription);
    };
    skip_all(served, name, place, count.get() as u64);
    Reply::Done
}
