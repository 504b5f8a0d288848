// When the storing thread looks for topics that nobody uses.
ghost use Rattle.std.specs.Prelude.{[], ◌++◌, ◌≡◌, ◌∷◌};

use crate::clock::{millis_of, since};
use crate::pause::Due;
use std::time::Instant;

/// When the next look is, and how many uses had been counted at the last five.
#[derive(Clone, Copy)]
pub struct Looks {
    due: Option<Due>,
    marks: [u64; 5],
    /// What the clock showed at the last look, where it could be read.
    last: Option<Instant>,
}

impl Looks {
    pub fn new() -> Self {
        Looks {
            due: None,
            marks: [0; 5],
            last: None,
        }
    }

    /// The first look is a minute from now.
    pub fn begin(&mut self, time: Option<Instant>) {
        if self.due.is_none() {
            self.due = Some(Due::in_a_minute(time));
        }
    }

    pub fn due(&self) -> Option<Due> {
        self.due
    }

    pub fn is_due(&self, time: Option<Instant>) -> bool {
        match self.due {
            Some(due) => due.left(time).is_none(),
            None => false,
        }
    }

    /// How many milliseconds have passed since the look before, as far as the clock tells. The look is made now.
    pub fn passed(&mut self, time: Option<Instant>) -> u64 {
        let passed = since(self.last, time);
        self.last = time;
        match passed {
            Some(passed) => millis_of(passed),
            None => 0,
        }
    }

    /// The look is made now, and the next one in a minute. How many uses had been counted five looks ago.
    pub fn mark(&mut self, made: u64, time: Option<Instant>) -> u64
        ensures { result ∷ self.new.marks ≡ self.old.marks ++ made ∷ [] }
    {
        let [oldest, second, third, fourth, last] = self.marks;
        self.marks = [second, third, fourth, last, made];
        self.due = Some(Due::in_a_minute(time));
        oldest
    }
}
