// A line of a journal, and the draft that it is made of.
ghost use Rattle.std.specs.Prelude.{◌≡◌, ◌↔◌, false, IsTrue, IsOk, IfOk};
ghost use Rattle.topic_shared.specs.Short.{is_long, is_long_reply};
ghost use Rattle.topic_shared.specs.Lines.{line};

use crate::call::{Asked, Call, LongCall};
use crate::short::{ShortEvent, is_long};
use crate::short_reply::ShortReply;
use delivery_machine::{Event, Reply};
use std::alloc::{AllocError, Global};
use std::marker::Model;

/// What was asked at a seat, and what was answered.
pub struct Line {
    seat: u64,
    call: Call,
}

impl Drop for Line {
    fn drop(self) {
        let Line { seat: _, call: _ } = self;
    }
}

const _: () = prove!(size_of::<Line>() <= 96);

impl Model for Line {
    ghost use Rattle.topic_shared.specs.Lines.{Line};

    ghost Value = { Line };

    ghost use Rattle.topic_shared.specs.Calls.{event_in, reply_in};

    ghost view = { λ l. record { seat = l.seat; event = event_in l.call; reply = reply_in l.call } };
}

impl Line {
    pub fn seat(&self) -> u64
        ensures { result ≡ self.now.seat }
    {
        self.seat
    }

    /// Whether it is this seat's line of the event and the reply.
    pub fn is(&self, seat: u64, event: &Event, reply: &Reply) -> bool
        ensures { IsTrue result ↔ self.now ≡ line seat event.now reply.now }
    {
        self.seat == seat && self.call.is(event, reply)
    }
}

/// An event that is yet to be answered. It has all memory that its line will take.
#[derive(Drop)]
pub struct Draft {
    asked: Asked,
}

impl Model for Draft {
    ghost use Rattle.delivery_machine.specs.declared.event.Event.{Event};

    ghost Value = { Event };

    ghost use Rattle.topic_shared.specs.Calls.{event_asked, HasRoom};

    ghost view = { λ d. event_asked d.asked };

    ghost invariant = { λ d. HasRoom d.asked };
}

impl Draft {
    /// A long event takes memory, and no other.
    pub fn new(alloc: Global, event: Event) -> Result<Draft, AllocError>
        ensures value { IfOk result (λ draft. draft ≡ event) }
        ensures short { is_long event ≡ false → IsOk result }
    {
        if !is_long(&event) {
            return Ok(Draft {
                asked: Asked::Short(event),
            });
        }
        let call = LongCall {
            event,
            reply: Reply::Done,
        };
        Ok(Draft {
            asked: Asked::Long(Box::new(alloc, call)?),
        })
    }

    pub fn event(&self) -> &Event
        ensures { result.now ≡ self.now }
    {
        match &self.asked {
            Asked::Short(event) => event,
            Asked::Long(call) => &call.event,
        }
    }

    /// The seat's line of the event, so answered. It takes no memory.
    pub fn into_line(self, seat: u64, reply: Reply) -> Line
        requires fits { is_long self ≡ false → is_long_reply reply ≡ false }
        ensures { result ≡ line seat self reply }
    {
        let call = match self.asked {
            Asked::Short(event) => Call::Short {
                event: ShortEvent::of(event),
                reply: ShortReply::of(reply),
            },
            Asked::Long(mut call) => {
                call.reply = reply;
                Call::Long(call)
            }
        };
        Line { seat, call }
    }
}
