// An open topic, which threads share.
ghost use Rattle.std.specs.Prelude.{◌≡◌};

use crate::inside::Inside;
use broker_parts::{Guarded, Signs, Wants, is_short};
use delivery_machine::{Event, Fault, Opened, Reply, TopicName};
use marks::Naming;
use session_bells::Bell;
use std::sync::{Mutex, Wait};

/// An open topic. Its lock comes behind those of the directory and of the keeper. What it guards is of the name that
/// stands beside it: `shared` requires it, where both are put together, since no type ties what a lock guards to what is outside.
pub(crate) struct Shared<T: Opened + Drop, J: Naming, B: Bell + Drop> {
    pub(crate) name: TopicName,
    pub(crate) inside: Mutex<Inside<T, J, B>>,
    pub(crate) signs: Signs,
}

impl<T: Opened + Drop, J: Naming, B: Bell + Drop> Drop for Shared<T, J, B> {
    fn drop(self) {
        let Shared {
            name: _,
            inside: _,
            signs: _,
        } = self;
    }
}

impl<T: Opened + Drop, J: Naming, B: Bell + Drop> Shared<T, J, B> {
    pub(crate) fn new(name: TopicName, inside: Inside<T, J, B>) -> Self
        ensures { result.name ≡ name }
    {
        Shared {
            name,
            inside: Mutex::new(inside),
            signs: Signs::new(),
        }
    }

    /// Why the one at the seat may not stay, where it may not.
    pub(crate) fn refusal<R: Wait>(&self, rt: &R, seat: u64) -> Option<Fault> {
        if self.signs.are_clear() {
            return None;
        }
        let inside = self.inside.lock(rt);
        inside.hearers.visitors.refusal(inside.stage, seat)
    }

    /// The number of its last use.
    pub(crate) fn touch<R: Wait>(&self, rt: &R, used: u64) {
        let mut inside = self.inside.lock(rt);
        inside.used = used;
    }

    /// All who sit there are rung.
    pub(crate) fn ring_all<R: Wait>(&self, rt: &R) {
        let inside = self.inside.lock(rt);
        inside.hearers.bells.ring_all(rt);
    }
}

impl<T: Opened + Drop, J: Naming, B: Bell + Drop> Guarded for Shared<T, J, B> {
    ghost use Rattle.broker_dir.specs.Answering.{IsAnswered};

    ghost named = { λ topic. topic.name };

    ghost answers = { λ topic. IsAnswered T J B T.Topic T.Saved J.Naming };

    fn name(&self) -> &TopicName {
        &self.name
    }

    fn is_over(&self) -> bool {
        self.signs.is_over()
    }

    fn fall_behind<R: Wait>(&self, rt: &R) {
        let mut inside = self.inside.lock(rt);
        inside.wanted.fall_behind();
    }

    fn call_off<R: Wait>(&self, rt: &R) {
        let mut inside = self.inside.lock(rt);
        inside.wanted.is_called = false;
    }

    fn visit<R: Wait>(
        &self,
        rt: &R,
        event: Event,
        awaited: Option<u64>,
    ) -> (Result<Reply, Fault>, Wants) {
        let mut inside = self.inside.lock(rt);
        let answer = inside.visit_counted(rt, event);
        if is_short(&answer, awaited) {
            inside.wanted.is_awaited = true;
        }
        let store = inside.wants_storing();
        let stage = inside.stage;
        let thread = inside.wanted.end(stage);
        drop(inside);
        if thread {
            self.signs.note_over();
        }
        (answer, Wants { store, thread })
    }

    fn has_grave<R: Wait>(&self, rt: &R, grave: u64) -> bool {
        let inside = self.inside.lock(rt);
        inside.hearers.graves.has(grave)
    }

    fn release<R: Wait>(&self, rt: &R, grave: u64) -> Wants {
        let mut inside = self.inside.lock(rt);
        inside.hearers.graves.release(grave);
        let has_letters = inside.hearers.has_letters();
        Wants {
            store: false,
            thread: inside.wanted.courier(has_letters),
        }
    }
}
