// The two ends of a handover, and the rule of the queue between them.
ghost use Rattle.std.specs.Prelude.{◌≡◌, ◌<◌, ◌++◌, ◌∷◌, [], IfOk, IfSome, IfNone, MatchResult};
ghost use Rattle.handover.specs.Passing.{last_of, TakenNext};

use crate::view::{Numbered, View};
use crossbeam_channel::protocol::{Lesson, Outcome, Protocol, Split};
use crossbeam_channel::{Pass, RuledReceiver, RuledSender, bounded_with};
use std::alloc::{AllocError, Global};
use std::marker::Model;
use std::sync::Wait;

/// The rule: what was taken is, in order, the beginning of what was put.
pub struct Ordered;

impl<C> Protocol<Numbered<C>, View> for Ordered {
    ghost use Rattle.std.specs.Prelude.{[]};
    ghost use Rattle.handover.specs.Passing.{InOrder, putter};

    ghost holds = { InOrder };

    ghost first = { putter [] };
}

/// A number is put behind the others.
pub struct Puts;

impl<C> Outcome<Numbered<C>, View> for Puts {
    ghost use Rattle.std.specs.Prelude.{◌≡◌, ◌++◌, ◌∷◌, []};
    ghost use Rattle.handover.specs.Passing.{putter};

    ghost then = { λ v m w. w ≡ putter (v.put ++ m.number ∷ []) };
}

/// The next number is taken.
pub struct Takes;

impl<C> Outcome<Numbered<C>, View> for Takes {
    ghost use Rattle.handover.specs.Passing.{Takes};

    ghost then = { λ v m w. Takes v m w };
}

impl<C> Lesson<Numbered<C>, View> for Puts {
    ghost fact = { λ v items. Unit {0} };
}

impl<C> Lesson<Numbered<C>, View> for Takes {
    ghost fact = { λ v items. Unit {0} };
}

/// A further pass, which has taken nothing.
pub struct NewTaker;

impl Split<View> for NewTaker {
    ghost use Rattle.std.specs.Prelude.{[]};
    ghost use Rattle.handover.specs.Passing.{taker};

    ghost left = { λ v. v };

    ghost right = { λ v. taker [] };
}

type Sender<C> = RuledSender<Numbered<C>, View, Ordered>;

type Receiver<C> = RuledReceiver<Numbered<C>, View, Ordered>;

/// The end that puts. Contracts see the numbers that were put.
pub struct Handover<C: Drop> {
    sender: Sender<C>,
    receiver: Receiver<C>,
    pass: Pass<Numbered<C>, View>,
}

impl<C: Drop> Drop for Handover<C> {
    fn drop(self) {
        let Handover {
            sender: _,
            receiver: _,
            pass: _,
        } = self;
    }
}

impl<C: Drop> Model for Handover<C> {
    ghost use Rattle.std.specs.Prelude.{◌≡◌, List, ℕ};
    ghost use Rattle.crossbeam_channel.specs.Claims.{view as known, IsSeatAt};
    ghost use Rattle.crossbeam_channel.specs.Ends.{sends_on, receives_on};
    ghost use Rattle.handover.specs.Passing.{putter};

    ghost Value = { List ℕ };

    ghost view = { λ h. (known h.pass).put };

    ghost invariant = { λ h. IsSeatAt (sends_on h.sender) h.pass × (receives_on h.receiver ≡ sends_on h.sender) × (known h.pass ≡ putter (known h.pass).put) };
}

/// An end that takes. Contracts see the numbers that it took.
pub struct Taker<C: Drop> {
    receiver: Receiver<C>,
    pass: Pass<Numbered<C>, View>,
}

impl<C: Drop> Drop for Taker<C> {
    fn drop(self) {
        let Taker {
            receiver: _,
            pass: _,
        } = self;
    }
}

impl<C: Drop> Model for Taker<C> {
    ghost use Rattle.std.specs.Prelude.{◌≡◌, List, ℕ};
    ghost use Rattle.crossbeam_channel.specs.Claims.{view as known, IsSeatAt};
    ghost use Rattle.crossbeam_channel.specs.Ends.{receives_on};
    ghost use Rattle.handover.specs.Passing.{taker};

    ghost Value = { List ℕ };

    ghost view = { λ t. (known t.pass).taken };

    ghost invariant = { λ t. IsSeatAt (receives_on t.receiver) t.pass × (known t.pass ≡ taker (known t.pass).taken) };
}

impl<C: Drop> Handover<C> {
    /// A handover in which so many connections may wait.
    pub fn open(alloc: Global, capacity: usize) -> Result<Handover<C>, AllocError>
        requires { 0 < capacity }
        ensures { IfOk result (λ h. h ≡ []) }
    {
        let (sender, receiver, pass) = bounded_with::<Numbered<C>, View, Ordered, Global>(
            alloc, capacity,
        )?;
        Ok(Handover {
            sender,
            receiver,
            pass,
        })
    }

    /// A new end that takes.
    pub fn taker(&mut self) -> Result<Taker<C>, AllocError>
        ensures same { self.new ≡ self.old }
        ensures new { IfOk result (λ t. t ≡ []) }
    {
        let receiver = self.receiver.try_clone()?;
        let pass = self.sender.another::<NewTaker>(&mut self.pass);
        Ok(Taker { receiver, pass })
    }

    /// Puts a connection behind all that were put, and waits while the queue is full. An error gives
    /// the connection back.
    pub fn put<R: Wait>(&mut self, rt: &R, number: u64, connection: C) -> Result<(), C>
        requires { last_of 0 self.old < number }
        ensures { MatchResult result (λ _. self.new ≡ self.old ++ number ∷ []) (λ back. (back ≡ connection) × (self.new ≡ self.old)) }
    {
        let message = Numbered { number, connection };
        match self.sender.send_as::<Puts, R>(rt, &mut self.pass, message) {
            Ok(()) => Ok(()),
            Err(error) => {
                let Numbered {
                    number: _,
                    connection,
                } = error.into_inner();
                Err(connection)
            }
        }
    }
}

impl<C: Drop> Taker<C> {
    /// Takes the connection that is next, and waits for one. None once the other end is gone.
    pub fn take<R: Wait>(&mut self, rt: &R) -> Option<Numbered<C>>
        ensures next { IfSome result (λ m. (self.new ≡ self.old ++ m.number ∷ []) × TakenNext self.old m.number) }
        ensures none { IfNone result (self.new ≡ self.old) }
    {
        self.receiver.recv_as::<Takes, R>(rt, &mut self.pass).ok()
    }

    /// Takes the connection that is next. None where nothing is there now.
    pub fn try_take<R: Wait>(&mut self, rt: &R) -> Option<Numbered<C>>
        ensures next { IfSome result (λ m. (self.new ≡ self.old ++ m.number ∷ []) × TakenNext self.old m.number) }
        ensures none { IfNone result (self.new ≡ self.old) }
    {
        self.receiver
            .try_recv_as::<Takes, R>(rt, &mut self.pass)
            .ok()
    }
}
