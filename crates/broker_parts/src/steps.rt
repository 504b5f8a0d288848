// Whether the time of day was set: rules by age wait then.
ghost use Rattle.std.specs.Prelude.{◌≡◌, IfSome, None};
ghost use Rattle.broker_parts.specs.Steps.{due_day, stepped_after, step_from, time_of_rules};

use crate::clock::{Steady, read};
use delivery_machine::Moment;
use std::rt::Clock;
use std::sync::{Mutex, Wait};

/// A time of day that is away from where it ought to be by more milliseconds than these was set.
const SLACK: u64 = 60_000;

/// For how many milliseconds rules by age wait after a step.
const REST: u64 = 3_600_000;

/// A step of the time of day: somebody set it, or the machine slept.
#[derive(Clone, Copy, Debug, PartialEq, Eq)]
pub struct Step {
    /// It went ahead, and not back.
    pub is_ahead: bool,
    /// How far.
    pub millis: u64,
}

/// The step from where the time of day ought to be to where it is, where that is one.
fn step_from(due: u64, day: u64) -> Option<Step>
    ensures { result ≡ step_from due day }
{
    let (ahead, back) = (day.saturating_sub(due), due.saturating_sub(day));
    if ahead > SLACK {
        Some(Step {
            is_ahead: true,
            millis: ahead,
        })
    } else if back > SLACK {
        Some(Step {
            is_ahead: false,
            millis: back,
        })
    } else {
        None
    }
}

/// How the time of day went beside the clock that nobody sets: what both showed at the last look, and what the latter showed
/// at the last step.
#[derive(Clone, Copy, Debug, PartialEq, Eq)]
struct Pace {
    day: Moment,
    steady: Moment,
    stepped: Option<Moment>,
}

impl Pace {
    /// Both clocks show this now. The step that the time of day made since the last look, where it made one.
    fn look(&mut self, day: Moment, steady: Moment) -> Option<Step>
        ensures step { result ≡ step_from (due_day self.old.day self.old.steady steady) day }
        ensures day { self.new.day ≡ day }
        ensures steady { self.new.steady ≡ steady }
        ensures stepped { self.new.stepped ≡ stepped_after self.old.stepped result steady }
    {
        let passed = steady.millis().saturating_sub(self.steady.millis());
        let step = step_from(self.day.millis().saturating_add(passed), day.millis());
        self.day = day;
        self.steady = steady;
        if step.is_some() {
            self.stepped = Some(steady);
        }
        step
    }

    /// The moment that rules by age go by: the time of day, unless a step is younger than an hour.
    fn time_of_rules(&self) -> Option<Moment>
        ensures { result ≡ time_of_rules self.now.stepped self.now.steady self.now.day }
    {
        match self.stepped {
            Some(stepped) if self.steady.millis() < stepped.millis().saturating_add(REST) => None,
            _ => Some(self.day),
        }
    }
}

/// The clock that nobody sets, and how the time of day went beside it.
#[derive(Clone, Copy, Debug)]
struct Watch {
    clock: Steady,
    pace: Pace,
}

impl Watch {
    /// It begins with the first look, before which there was no step.
    fn begin<R: Clock>(rt: &R, day: Moment) -> Option<Watch>
        ensures { IfSome result (λ watch. (watch.pace.day ≡ day) × (watch.pace.stepped ≡ None)) }
    {
        let clock = Steady::begin(rt)?;
        let steady = clock.shown(rt)?;
        Some(Watch {
            clock,
            pace: Pace {
                day,
                steady,
                stepped: None,
            },
        })
    }
}

/// The steps of the time of day, from the first look on. Its lock is a leaf.
#[derive(Drop)]
pub struct Steps {
    watch: Mutex<Option<Watch>>,
}

impl Steps {
    pub fn new() -> Self {
        Steps {
            watch: Mutex::new(None),
        }
    }

    /// The moment that rules by age go by: none where the time of day was set within the last hour, or a clock cannot be read.
    /// And the step, where one was seen now.
    pub fn look<R: Wait + Clock>(&self, rt: &R) -> (Option<Moment>, Option<Step>) {
        let mut guard = self.watch.lock(rt);
        let Some(day) = read(rt) else {
            return (None, None);
        };
        if guard.is_none() {
            *guard = Watch::begin(rt, day);
        }
        match &mut *guard {
            Some(watch) => look_by(rt, watch, day),
            None => (None, None),
        }
    }
}

fn look_by<R: Clock>(rt: &R, watch: &mut Watch, day: Moment) -> (Option<Moment>, Option<Step>) {
    match watch.clock.shown(rt) {
        Some(steady) => {
            let step = watch.pace.look(day, steady);
            (watch.pace.time_of_rules(), step)
        }
        None => (None, None),
    }
}
