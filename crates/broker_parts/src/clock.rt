// The time of day, in milliseconds, and the clock that nobody sets and that never goes back.
ghost use Rattle.std.specs.Prelude.{◌≡◌, ◌+◌, ◌-◌, ◌/◌, ◌^◌, min, IsSome, None};
ghost use Rattle.std.specs.Duration.{as_nanos};

use delivery_machine::Moment;
use std::rt::Clock;
use std::time::{Duration, Instant, SystemTime, UNIX_EPOCH};

/// The last moment that there is.
const LAST: u64 = 253_402_300_799_999;

/// The moment that it is; none where the clock tells none.
pub fn read<R: Clock>(rt: &R) -> Option<Moment> {
    let time = SystemTime::now(rt).ok()?;
    let since = time.duration_since(UNIX_EPOCH).ok()?;
    let millis = u64::try_from(since.as_millis()).ok()?;
    Moment::new(millis)
}

/// The moment that it is. Where the clock tells none, the last one that it told.
pub fn moment<R: Clock>(rt: &R, last: Moment) -> Moment {
    match read(rt) {
        Some(moment) => moment,
        None => last,
    }
}

/// What the clock shows that never goes back; none where it cannot be read.
pub fn instant<R: Clock>(rt: &R) -> Option<Instant> {
    Instant::now(rt).ok()
}

/// How long it was from the one to the other, where both could be read.
pub fn since(began: Option<Instant>, ended: Option<Instant>) -> Option<Duration> {
    Some(ended?.duration_since(began?))
}

/// So many whole milliseconds; the most that there may be where it is longer.
pub(crate) fn millis_of(length: Duration) -> u64
    ensures { result ≡ min (as_nanos length / 1_000_000) (2 ^ 64 - 1) }
{
    u64::try_from(length.as_millis()).unwrap_or(u64::MAX)
}

/// So many milliseconds later, and no later than the last moment.
fn later(start: Moment, millis: u64) -> Moment
    ensures { result ≡ min (start + millis) 253402300799999 }
{
    let sum = start.millis().saturating_add(millis).min(LAST);
    match Moment::new(sum) {
        Some(moment) => moment,
        None => start,
    }
}

/// The clock that nobody sets: it shows the time of day of the start, and what has passed since.
#[derive(Clone, Copy, Debug)]
pub struct Steady {
    start: Moment,
    begun: Option<Instant>,
}

impl Steady {
    /// It starts now. Where the time of day cannot be read it starts at 0.
    pub fn begin<R: Clock>(rt: &R) -> Option<Steady>
        ensures { IsSome result }
    {
        let first = Moment::new(0)?;
        Some(Steady {
            start: moment(rt, first),
            begun: instant(rt),
        })
    }

    /// The time of day at the start.
    pub fn start(&self) -> Moment
        ensures { result ≡ self.now.start }
    {
        self.start
    }

    /// What it shows; none where it cannot be read.
    pub(crate) fn shown<R: Clock>(&self, rt: &R) -> Option<Moment>
        ensures { self.now.begun ≡ None → result ≡ None }
    {
        let begun = self.begun?;
        let passed = instant(rt)?.duration_since(begun);
        Some(later(self.start, millis_of(passed)))
    }

    /// What it shows; where it cannot be read, what it showed last.
    pub fn moment<R: Clock>(&self, rt: &R, last: Moment) -> Moment
        ensures { self.now.begun ≡ None → result ≡ last }
    {
        match self.shown(rt) {
            Some(moment) => moment,
            None => last,
        }
    }
}
