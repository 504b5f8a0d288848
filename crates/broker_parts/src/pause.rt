// When what was refused is tried again, by the clock that never goes back.
ghost use Rattle.std.specs.Prelude.{◌≡◌, ◌*◌, min};

use std::time::{Duration, Instant};

/// How long the first pause after a refusal is, in milliseconds.
const FIRST: u64 = 100;

/// And the longest one.
const LONGEST: u64 = 60_000;

/// When something is tried again. None: the clock could not be read, so it is as soon as it can be.
#[derive(Clone, Copy)]
pub struct Due {
    at: Option<Instant>,
}

impl Due {
    fn after(time: Option<Instant>, millis: u64) -> Due {
        match time {
            Some(time) => Due {
                at: time.checked_add(Duration::from_millis(millis)),
            },
            None => Due { at: None },
        }
    }

    /// After the first pause.
    pub fn soon(time: Option<Instant>) -> Due {
        Due::after(time, FIRST)
    }

    pub fn in_a_minute(time: Option<Instant>) -> Due {
        Due::after(time, LONGEST)
    }

    /// How long it is until then; none where it has come. While the clock cannot be read nothing comes, and it is read
    /// again after the first pause.
    pub fn left(self, time: Option<Instant>) -> Option<Duration> {
        let Some(time) = time else {
            return Some(Duration::from_millis(FIRST));
        };
        match self.at {
            Some(at) if time < at => Some(at.duration_since(time)),
            _ => None,
        }
    }

    /// The earlier one.
    pub fn or(self, other: Due) -> Due {
        match (self.at, other.at) {
            (Some(at), Some(then)) if then < at => other,
            (Some(_), None) => other,
            _ => self,
        }
    }
}

/// The shorter one, where none is without an end.
pub(crate) fn shorter(one: Option<Duration>, other: Option<Duration>) -> Option<Duration> {
    match (one, other) {
        (Some(one), Some(other)) => Some(one.min(other)),
        (Some(one), None) => Some(one),
        (None, other) => other,
    }
}

/// The pauses between tries: each is twice as long as the one before it, up to a minute.
#[derive(Clone, Copy, Debug, PartialEq, Eq)]
pub struct Pause {
    millis: u64,
}

impl Pause {
    pub fn first() -> Pause
        ensures { result.millis ≡ 100 }
    {
        Pause { millis: FIRST }
    }

    /// The next one is twice as long, but no longer than a minute.
    fn grow(&mut self)
        ensures { self.new.millis ≡ min (2 * self.old.millis) 60000 }
    {
        self.millis = self.millis.saturating_mul(2).min(LONGEST);
    }

    /// When it is over, if it begins now.
    pub fn begin(&mut self, time: Option<Instant>) -> Due
        ensures { self.new.millis ≡ min (2 * self.old.millis) 60000 }
    {
        let due = Due::after(time, self.millis);
        self.grow();
        due
    }
}
