// An event and its reply: in short, or in a box.
ghost use Rattle.std.specs.Prelude.{◌≡◌, ◌↔◌, IsTrue};
ghost use Rattle.topic_shared.specs.Calls.{event_in, reply_in};

use crate::short::ShortEvent;
use crate::short_reply::ShortReply;
use delivery_machine::{Event, Reply};

/// An event and its reply, whole.
#[derive(Drop)]
pub(crate) struct LongCall {
    pub(crate) event: Event,
    pub(crate) reply: Reply,
}

/// An event and its reply.
#[derive(Drop)]
pub(crate) enum Call {
    Short {
        event: ShortEvent,
        reply: ShortReply,
    },
    Long(Box<LongCall>),
}

/// An event that is yet to be answered. A box has room for the reply.
#[derive(Drop)]
pub(crate) enum Asked {
    Short(Event),
    Long(Box<LongCall>),
}

impl Call {
    /// Whether it is the event, so answered.
    pub(crate) fn is(&self, event: &Event, reply: &Reply) -> bool
        ensures { IsTrue result ↔ ((event_in self.now ≡ event.now) × (reply_in self.now ≡ reply.now)) }
    {
        match self {
            Call::Short {
                event: own_event,
                reply: own_reply,
            } => own_event.is(event) && own_reply.is(reply),
            Call::Long(call) => call.event.is(event) && call.reply.is(reply),
        }
    }
}
