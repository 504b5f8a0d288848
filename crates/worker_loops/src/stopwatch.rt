// A clock by which no time goes back.
use std::rt::Clock;
use std::time::Instant;

/// The time since it was first asked.
#[derive(Drop)]
pub(crate) struct Stopwatch {
    begun: Option<Instant>,
    millis: u64,
}

impl Stopwatch {
    pub(crate) fn new() -> Stopwatch {
        Stopwatch {
            begun: None,
            millis: 0,
        }
    }

    /// Asks the clock. Where it tells no time, none has passed.
    pub(crate) fn look<R: Clock>(&mut self, rt: &R) {
        let Ok(instant) = Instant::now(rt) else {
            return;
        };
        match self.begun {
            Some(begun) => {
                let since = instant.saturating_duration_since(begun);
                self.millis = u64::try_from(since.as_millis()).unwrap_or(self.millis);
            }
            None => self.begun = Some(instant),
        }
    }

    /// How many milliseconds had passed when it was asked last.
    pub(crate) fn millis(&self) -> u64 {
        self.millis
    }
}
