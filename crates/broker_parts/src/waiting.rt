// A topic that is opened piece by piece, and who waits for it.
ghost use Rattle.std.specs.Prelude.{◌≡◌, IfOk, IfErr};

use delivery_machine::{Fault, TopicName};
use session_bells::Bell;
use std::alloc::Global;
use std::sync::{Arc, Mutex, Wait};

/// What the opening of a topic came to.
#[derive(Clone, Copy, Debug, PartialEq, Eq)]
pub enum Outcome {
    /// It may be attached to now.
    Open,
    /// It could not be opened.
    Refused(Fault),
}

/// One who waits, by the number that was given.
#[derive(Drop)]
struct Waiting<B: Bell + Drop> {
    number: u64,
    bell: Arc<B>,
}

#[derive(Drop)]
struct Waiters<B: Bell + Drop> {
    waiting: Vec<Waiting<B>>,
    /// How many have come.
    came: u64,
    outcome: Option<Outcome>,
}

/// A topic that is opened piece by piece, and who waits for it. Its lock comes last, and none is taken under it but a bell's.
#[derive(Drop)]
pub struct Opening<B: Bell + Drop> {
    pub name: TopicName,
    waiters: Mutex<Waiters<B>>,
}

impl<B: Bell + Drop> Opening<B> {
    pub fn new(alloc: Global, name: TopicName) -> Self
        ensures { result.name ≡ name }
    {
        Opening {
            name,
            waiters: Mutex::new(Waiters {
                waiting: Vec::new(alloc),
                came: 0,
                outcome: None,
            }),
        }
    }

    /// The bell is rung once the opening has ended. The number of the one who waits.
    fn join<R: Wait>(&self, rt: &R, bell: Arc<B>) -> Result<u64, Fault> {
        let mut guard = self.waiters.lock(rt);
        let waiters = &mut *guard;
        if waiters.waiting.reserve(1).is_err() {
            drop(bell);
            return Err(Fault::NoMemory);
        }
        let number = waiters.came;
        waiters.came = number.saturating_add(1);
        waiters.waiting.push_reserved(Waiting { number, bell });
        Ok(number)
    }

    /// The one with the number waits no longer.
    fn leave<R: Wait>(&self, rt: &R, number: u64) {
        let mut guard = self.waiters.lock(rt);
        let waiters = &mut *guard;
        waiters.waiting.retain(|one| one.number != number);
    }

    /// Tells all who wait what the opening came to.
    pub fn end<R: Wait>(&self, rt: &R, outcome: Outcome) {
        let mut guard = self.waiters.lock(rt);
        let waiters = &mut *guard;
        waiters.outcome = Some(outcome);
        for one in waiters.waiting.iter() {
            one.bell.ring(rt);
        }
    }

    fn outcome<R: Wait>(&self, rt: &R) -> Option<Outcome> {
        let waiters = self.waiters.lock(rt);
        waiters.outcome
    }
}

/// A place among those who wait for a topic to be opened, until it is left.
#[derive(Drop)]
pub struct Waiter<B: Bell + Drop> {
    opening: Arc<Opening<B>>,
    number: u64,
}

impl<B: Bell + Drop> Waiter<B> {
    /// One who waits with the bell; nobody does where there is none.
    pub fn at<R: Wait>(
        rt: &R,
        opening: Arc<Opening<B>>,
        bell: Option<Arc<B>>,
    ) -> Result<Self, Fault>
        ensures at { IfOk result (λ waiter. waiter.opening ≡ opening) }
        ensures fault { IfErr result (λ fault. fault ≡ Fault.NoMemory) }
    {
        let joined = match bell {
            Some(bell) => opening.join(rt, bell),
            None => Ok(u64::MAX),
        };
        match joined {
            Ok(number) => Ok(Waiter { opening, number }),
            Err(_) => {
                drop(opening);
                Err(Fault::NoMemory)
            }
        }
    }

    /// What the opening came to; none as long as it goes on. The bell is rung once it has ended.
    pub fn outcome<R: Wait>(&self, rt: &R) -> Option<Outcome> {
        self.opening.outcome(rt)
    }

    /// Whoever waited goes on, or goes.
    pub fn leave<R: Wait>(self, rt: &R) {
        let Waiter { opening, number } = self;
        opening.leave(rt, number);
        drop(opening);
    }
}
