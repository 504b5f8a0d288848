// The caller of a session's topic.
ghost use Rattle.std.specs.Prelude.{◌≡◌, List, Option};
ghost use Rattle.session_links.specs.Links.{Call, Tells, event_call, reply_of, with_call};

use crate::request::Request;
use delivery_machine::{Event, Fault, Reply};

/// Hands requests to whoever has the topic. One over memory tells which, and what they were answered.
pub trait Caller {
    /// The calls so far, where it tells them. One that failed counts as one that the topic refused.
    ghost calls: { Self → Option (List Call) };

    /// Hands the request over. An `Err` is a refusal of what stands before the topic.
    fn call(&mut self, request: Request) -> Result<Reply, Fault>
        ensures { Tells (with_call (record { request = request; reply = reply_of result })) (calls self.old) (calls self.new) };

    /// What is seen of all topics of the broker, as a text. An `Err` is why nothing is.
    fn overview(&mut self) -> Result<String, Fault>
        ensures { calls self.new ≡ calls self.old };
}

/// The reply to a request, where a call that fails refuses it.
pub fn ask_for<K: Caller>(caller: &mut K, request: Request) -> Reply
    ensures { Tells (with_call (record { request = request; reply = result })) (K.calls caller.old) (K.calls caller.new) }
{
    match caller.call(request) {
        Ok(reply) => reply,
        Err(fault) => Reply::Refused(fault),
    }
}

/// The reply to an event.
pub fn ask<K: Caller>(caller: &mut K, event: Event) -> Reply
    ensures { Tells (with_call (event_call event result)) (K.calls caller.old) (K.calls caller.new) }
{
    ask_for(caller, Request::Event(event))
}
