// What a topic is asked to let go of, by the rule that it has or its broker.
ghost use Rattle.std.specs.Prelude.{◌≡◌, ◌-◌, Some};
ghost use Rattle.broker_dir.specs.Trimming.{most_after, rule_of, trim_by};

use delivery_machine::{Event, KeptAge, KeptMessages, Moment, Retention};

/// How many messages go at a time where none came: their rows are deleted in about a millisecond.
const FEW: u64 = 64;

/// How many messages may go after a store of so many: more than came, so that deletes keep up.
pub(crate) fn most_after(stored: u64) -> u64
    ensures { result ≡ most_after stored }
{
    stored.saturating_mul(2).max(FEW)
}

/// The topic's own rule, or else the broker's.
pub(crate) fn rule_of(own: Option<Retention>, broker: Retention) -> Retention
    ensures { result ≡ rule_of own broker }
{
    match own {
        Some(rule) => rule,
        None => broker,
    }
}

/// The moment so long before.
fn before(now: Moment, age: KeptAge) -> Option<Moment>
    ensures { result ≡ Some (now - age) }
{
    Moment::new(now.millis().saturating_sub(age.millis()))
}

/// The last moment of all.
fn last() -> Option<Moment>
    ensures { result ≡ Some 253402300799999 }
{
    Moment::new(253_402_300_799_999)
}

fn trim_to(count: KeptMessages, most: u64) -> Option<Event>
    ensures { result ≡ Some (Event.Trim count 253402300799999 most) }
{
    match last() {
        Some(before) => Some(Event::Trim {
            keep: u64::from(count.get()),
            before,
            most,
        }),
        None => None,
    }
}

fn trim_older(age: KeptAge, now: Option<Moment>, most: u64) -> Option<Event>
    ensures { result ≡ trim_by (Retention.Age age) now most }
{
    let Some(now) = now else {
        return None;
    };
    match before(now, age) {
        Some(before) => Some(Event::Trim {
            keep: 0,
            before,
            most,
        }),
        None => None,
    }
}

/// What a topic with the rule is asked for, at the moment, of at most so many messages.
pub(crate) fn trim_by(rule: Retention, now: Option<Moment>, most: u64) -> Option<Event>
    ensures { result ≡ trim_by rule now most }
{
    match rule {
        Retention::All => None,
        Retention::Messages(count) => trim_to(count, most),
        Retention::Age(age) => trim_older(age, now, most),
    }
}
