// A caller over one topic, for tests and trials.
ghost use Rattle.std.specs.Prelude.{◌≡◌, [], IfOk, IfSome, Some, None, option_map};
ghost use Rattle.std.specs.Option.{option_copied};
ghost use Rattle.session_links.specs.Links.{Tells, reply_of, with_call};
ghost use Rattle.session_links.specs.Lists.{Asks, call_of, calls_of};

use crate::alone::Alone;
use crate::caller::Caller;
use crate::creating::create;
use crate::request::Request;
use delivery_machine::{Fault, Opened, Reply};
use std::alloc::{AllocError, Global};

/// A request, and what it was answered.
#[derive(Drop)]
pub struct Line {
    pub request: Request,
    pub reply: Reply,
}

/// The calls so far, in order.
#[derive(Drop)]
pub struct Lines {
    pub items: Vec<Line>,
}

// What the request was answered, where a call that fails refuses it.
fn reply_in(answer: &Result<Reply, Fault>) -> Result<Reply, AllocError>
    ensures { IfOk result (λ reply. reply ≡ reply_of answer.now) }
{
    match answer {
        Ok(reply) => reply.clone(),
        Err(fault) => Ok(Reply::Refused(*fault)),
    }
}

impl Lines {
    fn and_line(self, line: Line) -> Option<Lines>
        ensures { IfSome result (λ lines. calls_of lines ≡ with_call (call_of line) (calls_of self)) }
    {
        let mut lines = self;
        match lines.items.push(line) {
            Ok(()) => Some(lines),
            Err(refused) => {
                drop(refused);
                drop(lines);
                None
            }
        }
    }

    fn and_call(self, request: Request, answer: &Result<Reply, Fault>) -> Option<Lines>
        ensures { IfSome result (λ lines. calls_of lines ≡ with_call (record { request = request; reply = reply_of answer.now }) (calls_of self)) }
    {
        match reply_in(answer) {
            Ok(reply) => self.and_line(Line { request, reply }),
            Err(_) => {
                drop(self);
                drop(request);
                None
            }
        }
    }
}

fn tell(lines: Option<Lines>, request: Request, answer: &Result<Reply, Fault>) -> Option<Lines>
    ensures { Tells (with_call (record { request = request; reply = reply_of answer.now })) (option_map calls_of lines) (option_map calls_of result) }
{
    match lines {
        Some(lines) => lines.and_call(request, answer),
        None => {
            drop(request);
            None
        }
    }
}

/// Hands events to a topic of its own, makes subscriptions of it, and looks at it. It lets it be where it is to be deleted, and
/// nobody else sits there who could be told to go, nor is there a database or another topic. It tells the requests, and what they were answered, as long as there is memory
/// for that.
pub struct TopicCaller<T: Drop> {
    pub topic: Alone<T>,
    /// What each request is refused with, where it is.
    pub refusal: Option<Fault>,
    alloc: Global,
    lines: Option<Lines>,
}

impl<T: Drop> Drop for TopicCaller<T> {
    fn drop(self) {
        let TopicCaller {
            topic: _,
            refusal: _,
            alloc: _,
            lines: _,
        } = self;
    }
}

impl<T: Drop> TopicCaller<T> {
    pub fn new(alloc: Global, topic: T) -> Self
        ensures topic { result.topic.topic ≡ topic }
        ensures refusal { result.refusal ≡ None }
        ensures told { option_map calls_of result.lines ≡ Some [] }
    {
        TopicCaller {
            topic: Alone { topic },
            refusal: None,
            alloc,
            lines: Some(Lines {
                items: Vec::new(alloc),
            }),
        }
    }

    /// The calls so far, where there was memory for all of them.
    pub fn lines(&self) -> Option<&Lines>
        ensures { option_copied result ≡ self.now.lines }
    {
        self.lines.as_ref()
    }
}

impl<T: Opened + Drop> TopicCaller<T> {
    /// What the topic comes to by the request, where no request is refused.
    fn answer_by(&mut self, request: &Request) -> Result<Reply, Fault>
        ensures lines { self.new.lines ≡ self.old.lines }
        ensures refusal { self.new.refusal ≡ self.old.refusal }
        ensures asks { Asks None (T.state self.old.topic.topic) request.now result (T.state self.new.topic.topic) }
    {
        match request {
            Request::Event(event) => Ok(self.topic.apply(event)),
            Request::CreateSubscription {
                subscription,
                target,
            } => create(&mut self.topic, subscription, *target),
            Request::Peek {
                subscription,
                count,
            } => self.topic.peek(self.alloc, subscription, *count),
            Request::Disconnect { session: _ } => Ok(Reply::Refused(Fault::NoSession)),
            Request::BackUp => Ok(Reply::Refused(Fault::BadRoute)),
            Request::DeleteTopic => Ok(Reply::Done),
        }
    }

    fn answer_to(&mut self, request: &Request) -> Result<Reply, Fault>
        ensures lines { self.new.lines ≡ self.old.lines }
        ensures refusal { self.new.refusal ≡ self.old.refusal }
        ensures asks { Asks self.old.refusal (T.state self.old.topic.topic) request.now result (T.state self.new.topic.topic) }
    {
        match self.refusal {
            Some(fault) => Err(fault),
            None => self.answer_by(request),
        }
    }
}

impl<T: Opened + Drop> Caller for TopicCaller<T> {
    ghost use Rattle.std.specs.Prelude.{option_map};
    ghost use Rattle.session_links.specs.Lists.{calls_of};

    ghost calls = { λ c. option_map calls_of c.lines };

    fn call(&mut self, request: Request) -> Result<Reply, Fault>
        ensures tells { Tells (with_call (record { request = request; reply = reply_of result })) (option_map calls_of self.old.lines) (option_map calls_of self.new.lines) }
        ensures asks { Asks self.old.refusal (T.state self.old.topic.topic) request result (T.state self.new.topic.topic) }
        ensures refusal { self.new.refusal ≡ self.old.refusal }
    {
        let answer = self.answer_to(&request);
        self.lines = tell(self.lines.take(), request, &answer);
        answer
    }

    /// There is no broker, so an object with nothing in it.
    fn overview(&mut self) -> Result<String, Fault>
        ensures same { self.new ≡ self.old }
    {
        String::from_str(self.alloc, "{}").map_err(|_| Fault::NoMemory)
    }
}
