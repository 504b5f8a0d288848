// When connections are looked at.
use crate::house::Time;
use crate::stopwatch::Stopwatch;
use std::rt::Clock;

/// How many milliseconds a request may take to come whole.
pub(crate) const SHAKING: u64 = 5_000;

/// Each connection is looked at in one of so many steps, which are so many milliseconds apart. So a worker wakes twice a
/// second for all of its connections, however many there are.
pub(crate) const STEPS: usize = 4;

const STEP: u64 = 500;

/// What time it is at the house, and by the worker's rounds, in milliseconds.
#[derive(Clone, Copy, Debug, PartialEq, Eq)]
pub(crate) struct Now {
    pub(crate) time: Time,
    pub(crate) millis: u64,
}

/// The clock of a worker, by which no time goes back, and the step that is next. The time of day would end all connections
/// where somebody sets it.
#[derive(Drop)]
pub(crate) struct Rounds {
    watch: Stopwatch,
    next: u64,
    step: usize,
}

impl Rounds {
    pub(crate) fn new() -> Rounds {
        Rounds {
            watch: Stopwatch::new(),
            next: STEP,
            step: 0,
        }
    }

    /// Asks the clock.
    pub(crate) fn look<R: Clock>(&mut self, rt: &R) {
        self.watch.look(rt);
    }

    /// The milliseconds since it begun.
    pub(crate) fn now(&self) -> u64 {
        self.watch.millis()
    }

    /// How many milliseconds it is to the next step.
    pub(crate) fn wait(&self) -> u64 {
        self.next.saturating_sub(self.now())
    }

    /// The step whose time has come: the connections at the tokens that leave this, divided by the number of steps, are
    /// looked at.
    pub(crate) fn step(&mut self) -> Option<usize> {
        let now = self.now();
        if now < self.next {
            return None;
        }
        let step = self.step;
        self.step = step.saturating_add(1) % STEPS;
        self.next = now.saturating_add(STEP);
        Some(step)
    }
}
