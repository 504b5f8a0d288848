// The two topics of a courier, and its calls at each. Of which topic a call is stands in its type, so that no step takes one for the other.
ghost use Rattle.std.specs.Prelude.{◌≡◌, None, Some, option_copied};
ghost use Rattle.dead_letters.specs.Steps.{Steps};
ghost use Rattle.session_links.specs.Links.{Tells, reply_of, with_call};
ghost use Rattle.broker_parts.specs.Visiting.{Visits};

use crate::board::Board;
use crate::guarded::Guarded;
use dead_letters::{Hand, Route, Stepped, step};
use delivery_machine::{Event, Fault, Moment, Reply};
use session_links::{Caller, Request};
use std::mem;
use std::sync::{Arc, Wait};

/// The topics of a courier.
#[derive(Drop)]
pub(crate) struct Sides<X: Drop> {
    /// The topic in which its letters lie.
    source: Arc<X>,
    /// The topic that the letter in its hand goes to, once it is open.
    target: Option<Arc<X>>,
}

/// Whose calls come to the topic in which letters lie.
pub(crate) trait Source: Caller {}

/// Whose calls come to the topic that they go to.
pub(crate) trait Target: Caller {}

/// The calls of a courier at a topic: each is one hold of the topic's lock. Where the topic is not open all is refused, with the fault
/// for which it is not.
#[derive(Drop)]
struct Visitor<'r, 'a, X: Guarded + Drop, R: Wait> {
    rt: &'r R,
    board: &'r Board<Arc<X>>,
    topic: Option<&'a Arc<X>>,
    absent: Fault,
    /// Where less is stored than that, the thread comes to the topic once more of it is stored.
    awaited: Option<u64>,
}

impl<'r, 'a, X: Guarded + Drop, R: Wait> Visitor<'r, 'a, X, R> {
    fn visit(&self, topic: &Arc<X>, event: Event) -> Result<Reply, Fault>
        ensures { X.answers topic.now.value event result }
    {
        let (answer, wants) = topic.visit(self.rt, event, self.awaited);
        self.board.grant(self.rt, topic, wants);
        answer
    }

    /// A courier asks for no more than events.
    fn ask(&mut self, request: Request) -> Result<Reply, Fault>
        ensures visits { Visits (λ topic. X.answers topic.value) (option_copied self.old.topic) request result }
        ensures topic { option_copied self.new.topic ≡ option_copied self.old.topic }
    {
        match (self.topic, request) {
            (Some(topic), Request::Event(event)) => self.visit(topic, event),
            (Some(_), request) => {
                drop(request);
                Err(Fault::NoSession)
            }
            (None, request) => {
                drop(request);
                Err(self.absent)
            }
        }
    }
}

/// The calls of a courier at its source.
#[derive(Drop)]
pub(crate) struct AtSource<'r, 'a, X: Guarded + Drop, R: Wait> {
    visitor: Visitor<'r, 'a, X, R>,
}

/// The calls of a courier at its target.
#[derive(Drop)]
pub(crate) struct AtTarget<'r, 'a, X: Guarded + Drop, R: Wait> {
    visitor: Visitor<'r, 'a, X, R>,
}

impl<'r, 'a, X: Guarded + Drop, R: Wait> Caller for AtSource<'r, 'a, X, R> {
    ghost use Rattle.std.specs.Prelude.{None};

    ghost calls = { λ c. None };

    fn call(&mut self, request: Request) -> Result<Reply, Fault>
        ensures tells { Tells (with_call (record { request = request; reply = reply_of result })) None None }
        ensures visits { Visits (λ topic. X.answers topic.value) (option_copied self.old.visitor.topic) request result }
    {
        self.visitor.ask(request)
    }

    fn overview(&mut self) -> Result<String, Fault> {
        Err(Fault::NoSession)
    }
}

impl<'r, 'a, X: Guarded + Drop, R: Wait> Caller for AtTarget<'r, 'a, X, R> {
    ghost use Rattle.std.specs.Prelude.{None};

    ghost calls = { λ c. None };

    fn call(&mut self, request: Request) -> Result<Reply, Fault>
        ensures tells { Tells (with_call (record { request = request; reply = reply_of result })) None None }
        ensures visits { Visits (λ topic. X.answers topic.value) (option_copied self.old.visitor.topic) request result }
    {
        self.visitor.ask(request)
    }

    fn overview(&mut self) -> Result<String, Fault> {
        Err(Fault::NoSession)
    }
}

impl<'r, 'a, X: Guarded + Drop, R: Wait> Source for AtSource<'r, 'a, X, R> {}

impl<'r, 'a, X: Guarded + Drop, R: Wait> Target for AtTarget<'r, 'a, X, R> {}

impl<X: Guarded + Drop> Sides<X> {
    /// With no target.
    pub(crate) fn of(source: Arc<X>) -> Self
        ensures { result.source ≡ source }
    {
        Sides {
            source,
            target: None,
        }
    }

    pub(crate) fn source(&self) -> &Arc<X>
        ensures { result.now ≡ self.now.source }
    {
        &self.source
    }

    pub(crate) fn target(&self) -> Option<&Arc<X>>
        ensures { option_copied result ≡ self.now.target }
    {
        self.target.as_ref()
    }

    pub(crate) fn set_target(&mut self, target: Arc<X>)
        ensures target { self.new.target ≡ Some target }
        ensures source { self.new.source ≡ self.old.source }
    {
        drop(mem::replace(&mut self.target, Some(target)));
    }

    pub(crate) fn let_target_go(&mut self)
        ensures { self.new.source ≡ self.old.source }
    {
        drop(self.target.take());
    }

    /// The calls at the source, which is open. So much is waited for.
    pub(crate) fn at_source<'r, 'a, R: Wait>(
        &'a self,
        rt: &'r R,
        board: &'r Board<Arc<X>>,
        awaited: Option<u64>,
    ) -> AtSource<'r, 'a, X, R>
        ensures { option_copied result.visitor.topic ≡ Some self.now.source }
    {
        AtSource {
            visitor: Visitor {
                rt,
                board,
                topic: Some(&self.source),
                absent: Fault::NoSession,
                awaited,
            },
        }
    }

    /// The calls at the target; where it is not open all is refused so. So much is waited for.
    pub(crate) fn at_target<'r, 'a, R: Wait>(
        &'a self,
        rt: &'r R,
        board: &'r Board<Arc<X>>,
        absent: Fault,
        awaited: Option<u64>,
    ) -> AtTarget<'r, 'a, X, R>
        ensures topic { option_copied result.visitor.topic ≡ self.now.target }
        ensures absent { result.visitor.absent ≡ absent }
    {
        AtTarget {
            visitor: Visitor {
                rt,
                board,
                topic: self.target.as_ref(),
                absent,
                awaited,
            },
        }
    }
}

/// One step of a courier between its two topics.
pub(crate) fn step_between<A: Source, B: Target>(
    route: &Route,
    hand: &mut Hand,
    source: &mut A,
    target: &mut B,
    now: Moment,
) -> Stepped
    ensures { Steps route.now hand.old now (A.calls source.old) (B.calls target.old) result hand.new (A.calls source.new) (B.calls target.new) }
{
    step(route, hand, source, target, now)
}
