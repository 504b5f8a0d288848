// What an operator reads on standard error: a line for each thing, as `level=.. msg=".." ..`.
use crate::place::Place;
use crate::quoted::{Quoted, QuotedName};
use crate::refusals::Refused;
use broker_parts::{Broker, Copied, Notice, Whence, moment};
use delivery_machine::Moment;
use std::io::Eprint;
use std::rt::{Clock, Files};
use std::sync::Wait;
use worker_loops::Doorbell;

/// How many lines of a kind are said at once.
const MOST_LINES: u32 = 32;

fn say_notice<R: Eprint>(rt: &R, notice: &Notice) {
    match notice {
        Notice::Store { took, rows } => {
            let millis = took.as_millis();
            let _ = eprintln!(rt; "level=warn msg=\"slow store\" millis={millis} rows={rows}");
        }
        Notice::Load { topic, took } => {
            let (topic, millis) = (Quoted { topic }, took.as_millis());
            let _ = eprintln!(rt; "level=info msg=\"topic loaded\" topic={topic} millis={millis}");
        }
        Notice::Unload { topics, took } => {
            let millis = took.as_millis();
            let _ = eprintln!(rt;
                "level=info msg=\"topics left memory\" topics={topics} millis={millis}"
            );
        }
        Notice::Expired {
            topic,
            subscription,
        } => {
            let topic = Quoted { topic };
            let name = QuotedName {
                name: subscription.as_str(),
            };
            let _ = eprintln!(rt;
                "level=info msg=\"subscription expired\" topic={topic} subscription={name}"
            );
        }
        Notice::Step(step) => {
            let (way, millis) = (if step.is_ahead { "ahead" } else { "back" }, step.millis);
            let _ = eprintln!(rt;
                "level=warn msg=\"the time of day was set\" way={way} millis={millis}"
            );
        }
    }
}

/// Says whose session ends since nothing came from it for so many milliseconds.
pub(crate) fn say_silent<R: Eprint>(rt: &R, whence: Option<Whence>, silent: u64) {
    match whence {
        Some(whence) => {
            let _ = eprintln!(rt;
                "level=info msg=\"ended by silence\" address={whence} millis={silent}"
            );
        }
        None => {
            let _ = eprintln!(rt; "level=info msg=\"ended by silence\" millis={silent}");
        }
    }
}

fn say_refused<R: Eprint>(rt: &R, refused: Refused) {
    let Refused { number, count } = refused;
    let _ = eprintln!(rt; "level=warn msg=\"sessions refused\" fault=F{number} count={count}");
}

fn say_copied<R: Eprint>(rt: &R, copied: &Copied, millis: u64) {
    match copied {
        Copied::Whole(name) => {
            let _ = eprintln!(rt; "level=info msg=\"copied\" file={name} millis={millis}");
        }
        Copied::Failed => {
            let _ = eprintln!(rt; "level=error msg=\"no copy could be made\" millis={millis}");
        }
    }
}

/// The second of the day's time, in which a line is said once.
fn second<R: Clock>(rt: &R) -> Option<u64> {
    Some(moment(rt, Moment::new(0)?).millis() / 1_000)
}

impl<D: Broker<Doorbell>> Place<D> {
    /// Makes the copy of the database that was asked for, and says what came of it.
    pub(crate) fn make_backup<R: Wait + Clock + Eprint + Files>(&self, rt: &R) {
        let Some(first) = Moment::new(0) else {
            return;
        };
        let now = moment(rt, first);
        if let Some(copied) = self.directory.back_up(rt, now) {
            let took = moment(rt, now).millis().saturating_sub(now.millis());
            say_copied(rt, &copied, took);
            drop(copied);
        }
    }

    /// Says what there is to say. Refusals are told of once a second at most, each kind by itself.
    pub(crate) fn say_news<R: Wait + Clock + Eprint>(&self, rt: &R) {
        for _ in 0..MOST_LINES {
            let Some(notice) = self.directory.notice(rt) else {
                break;
            };
            say_notice(rt, &notice);
            drop(notice);
        }
        if (self.refusals.has_some() || self.callers.has_refused())
            && let Some(second) = second(rt)
        {
            self.say_refusals(rt, second);
            self.say_callers(rt, second);
        }
    }

    fn say_refusals<R: Wait + Eprint>(&self, rt: &R, second: u64) {
        for _ in 0..MOST_LINES {
            let Some(refused) = self.refusals.take(rt, second) else {
                return;
            };
            say_refused(rt, refused);
        }
    }

    fn say_callers<R: Wait + Eprint>(&self, rt: &R, second: u64) {
        if let Some(refused) = self.callers.take_refused(rt, second) {
            let (address, count) = (refused.address, refused.count);
            let _ = eprintln!(rt;
                "level=warn msg=\"sessions of one address refused\" address={address} count={count}"
            );
        }
    }
}
