// The last messages of a log, which no segment has yet: in runs that several logs may share, but for the very last.
ghost use Rattle.std.specs.Prelude.{◌≡◌, ◌*◌, ◌<◌, ◌≤◌, [], ◌∷◌, ◌++◌, drop, length, OnOk, OnErr, IfOk, slice_get};
ghost use Rattle.std.specs.List.{position_or_len};
ghost use Rattle.std.specs.Option.{option_copied};
ghost use Rattle.log_pieces.specs.Pieces.{front, loosely};
ghost use Rattle.log_pieces.specs.Times.{is_from};

use crate::segment::{Segment, message_at};
use crate::segments::Segments;
use position_core::{Message, Moment};
use std::alloc::{AllocError, Global};
use std::marker::Model;

/// How many messages a run has.
const RUN: usize = 32;

/// At most 1,024 messages: up to 31 runs, and up to 32 more. A clone shares the runs.
#[derive(Drop)]
pub(crate) struct Loose {
    runs: Segments,
    last: Vec<Message>,
}

impl Model for Loose {
    ghost use Rattle.log_pieces.specs.Pieces.{Last, AreLast};

    ghost Value = { Last };

    ghost view = { λ l. record { runs = l.runs; last = l.last.items } };

    ghost invariant = { λ l. AreLast (record { runs = l.runs; last = l.last.items }) };
}

/// Puts the messages at the end.
fn put_all(messages: &mut Vec<Message>, more: &[Message]) -> Result<(), AllocError>
    ensures { OnOk result (messages.new.items ≡ messages.old.items ++ more.now) }
{
    messages.extend_with_clones(more)
}

impl Loose {
    pub(crate) fn new(alloc: Global) -> Self
        ensures { loosely result ≡ [] }
    {
        Loose {
            runs: Segments::none(),
            last: Vec::new(alloc),
        }
    }

    /// How many messages stand in runs.
    fn in_runs(&self) -> usize
        ensures value { result ≡ 32 * length self.now.runs }
        ensures within { result ≤ 992 }
    {
        self.runs.len() * RUN
    }

    pub(crate) fn len(&self) -> usize
        ensures value { result ≡ length (loosely self.now) }
        ensures within { result ≤ 1024 }
        ensures last { 992 < result → 0 < length self.now.last }
    {
        self.in_runs() + self.last.len()
    }

    pub(crate) fn get(&self, place: usize) -> Option<&Message>
        ensures { option_copied result ≡ slice_get (loosely self.now) place }
    {
        let before = self.in_runs();
        if place < before {
            match self.runs.get(place / RUN) {
                Some(found) => found.get(place % RUN),
                None => None,
            }
        } else {
            message_at(&self.last, place - before)
        }
    }

    /// Puts the message after those that become a run with it.
    fn push_run(&mut self, alloc: Global, message: Message) -> Result<(), AllocError>
        requires full { length self.old.last ≡ 32 }
        requires room { length self.old.runs < 31 }
        ensures ok { OnOk result ((loosely self.new ≡ loosely self.old ++ message ∷ []) × (self.new.last ≡ message ∷ [])) }
        ensures err { OnErr result (self.new ≡ self.old) }
    {
        let run = Segment::of(alloc, &self.last)?;
        self.runs = self.runs.with(alloc, 0, run)?;
        self.last.truncate(1);
        self.last[0] = message;
        Ok(())
    }

    pub(crate) fn push(&mut self, alloc: Global, message: Message) -> Result<(), AllocError>
        requires { length (loosely self.old) < 1024 }
        ensures ok { OnOk result (loosely self.new ≡ loosely self.old ++ message ∷ []) }
        ensures some { OnOk result (0 < length self.new.last) }
        ensures err { OnErr result (self.new ≡ self.old) }
    {
        if self.last.len() == RUN {
            return self.push_run(alloc, message);
        }
        self.last.push(message)?;
        Ok(())
    }

    /// Takes the last message out.
    pub(crate) fn pop(&mut self)
        requires { 0 < length self.old.last }
        ensures { loosely self.new ≡ front (loosely self.old) }
    {
        self.last.pop();
    }

    /// All messages, for a segment.
    fn messages(&self, alloc: Global) -> Result<Vec<Message>, AllocError>
        ensures { IfOk result (λ all. all.items ≡ loosely self.now) }
    {
        let mut all = Vec::with_capacity(alloc, self.len())?;
        for place in 0..self.runs.len() {
            match self.runs.get(place) {
                Some(found) => put_all(&mut all, found.messages())?,
                None => {}
            }
        }
        put_all(&mut all, &self.last)?;
        Ok(all)
    }

    /// A segment of all messages.
    pub(crate) fn segment(&self, alloc: Global) -> Result<Segment, AllocError>
        ensures { IfOk result (λ segment. segment ≡ loosely self.now) }
    {
        Segment::new(alloc, self.messages(alloc)?)
    }

    /// Only the message is left, in the room that there is.
    pub(crate) fn begin(&mut self, message: Message)
        requires { 0 < length self.old.last }
        ensures runs { self.new.runs ≡ [] }
        ensures last { self.new.last ≡ message ∷ [] }
    {
        self.runs = Segments::none();
        self.last.truncate(1);
        self.last[0] = message;
    }

    /// How many messages from the place on stand before the first of them that is not earlier than the time.
    pub(crate) fn count_earlier(&self, from: usize, time: Moment) -> usize
        requires { from ≤ length (loosely self.now) }
        ensures value { result ≡ position_or_len (is_from time) (drop from (loosely self.now)) }
        ensures few { result ≤ 1024 }
    {
        for place in from..self.len() {
            match self.get(place) {
                Some(message) => {
                    if time.millis() <= message.entry().time.millis() {
                        return place - from;
                    }
                }
                None => {}
            }
        }
        self.len() - from
    }
}

impl Clone for Loose {
    ghost is_clone = { λ loose copy. copy ≡ loose };

    fn clone(&self) -> Result<Self, AllocError> {
        Ok(Loose {
            runs: self.runs.clone()?,
            last: self.last.clone()?,
        })
    }
}
