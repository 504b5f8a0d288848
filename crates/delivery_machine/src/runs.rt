// Runs of a topic: the replies to a list of events.
ghost use Rattle.std.specs.Prelude.{◌≡◌, IfOk, IfErr, OnErr};
ghost use Rattle.position_core.specs.declared.fault.Fault.TheVariants.{NoMemory};
ghost use Rattle.delivery_machine.specs.Run.{Run};

use crate::event::Event;
use crate::reply::Reply;
use crate::topic::Topic;
use position_core::Fault;
use std::alloc::Global;

/// Answers the events in turn. Where the room for all replies is not found it answers none.
pub fn run<T: Topic>(alloc: Global, topic: &mut T, events: &[Event]) -> Result<Vec<Reply>, Fault>
    ensures run { IfOk result (λ replies. Run (T.state topic.old) events.now replies.items (T.state topic.new)) }
    ensures err { IfErr result (λ fault. fault ≡ NoMemory) }
    ensures unchanged { OnErr result (T.state topic.new ≡ T.state topic.old) }
{
    let Ok(mut replies) = Vec::with_capacity(alloc, events.len()) else {
        return Err(Fault::NoMemory);
    };
    for event in events {
        replies.push_reserved(topic.apply(event));
    }
    Ok(replies)
}
