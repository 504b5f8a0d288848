// One step of a courier, over the callers of its two topics.
ghost use Rattle.std.specs.Prelude.{◌≡◌, nat_le, if◌then◌else◌};
ghost use Rattle.dead_letters.specs.Moving.{after};
ghost use Rattle.dead_letters.specs.Steps.{AsksAt, Steps, outcome_of};

use crate::hand::Hand;
use crate::moving::{Move, Side, after, next_move};
use crate::route::Route;
use delivery_machine::{Moment, Reply};
use session_links::{Caller, ask};
use std::mem;

/// What a step came to.
#[derive(Clone, Copy, Debug, PartialEq, Eq)]
pub enum Stepped {
    /// The next step can be made at once.
    GoesOn,
    /// The copy is to be stored first.
    Waits,
    /// No letter is left that may be moved.
    Ends,
    /// A topic refused, or there was no memory for the step: the letter stays where it is.
    Fails,
}

fn looked(reply: &Reply) -> Stepped
    ensures { result ≡ outcome_of Hand.Empty reply.now }
{
    match reply {
        Reply::Dead {
            message: _,
            target: _,
            ordinal: _,
        } => Stepped::GoesOn,
        Reply::NoDead => Stepped::Ends,
        _ => Stepped::Fails,
    }
}

/// Whether the copy is stored, or is to be waited for.
fn waited(length: u64, durable: u64) -> Stepped
    ensures { result ≡ (if nat_le length durable then Stepped.GoesOn else Stepped.Waits) }
{
    if length <= durable {
        Stepped::GoesOn
    } else {
        Stepped::Waits
    }
}

/// What a step came to, by the hand before it and the answer.
fn outcome_of(hand: &Hand, reply: &Reply) -> Stepped
    ensures { result ≡ outcome_of hand.now reply.now }
{
    match hand {
        Hand::Empty => looked(reply),
        Hand::Holds(_) => match reply {
            Reply::ProducerAdded {
                producer: _,
                auto: _,
                last: _,
            } => Stepped::GoesOn,
            _ => Stepped::Fails,
        },
        Hand::Joined {
            letter: _,
            producer: _,
        } => Stepped::GoesOn,
        Hand::Copied {
            letter: _,
            producer: _,
            length: _,
        } => Stepped::GoesOn,
        Hand::Leaves { producer: _ } => Stepped::Fails,
        Hand::Waits { letter: _, length } => match reply {
            Reply::Progress { durable, length: _ } => waited(*length, *durable),
            _ => Stepped::Fails,
        },
        Hand::Moved { letter: _ } => match reply {
            Reply::Done => Stepped::GoesOn,
            _ => Stepped::Fails,
        },
    }
}

/// Asks the event at its side.
fn ask_at<A: Caller, B: Caller>(source: &mut A, target: &mut B, next: Move) -> Reply
    ensures { AsksAt next.side next.event result (A.calls source.old) (B.calls target.old) (A.calls source.new) (B.calls target.new) }
{
    match next.side {
        Side::Source => ask(source, next.event),
        Side::Target => ask(target, next.event),
    }
}

/// The hand takes the answer.
fn take(hand: &mut Hand, reply: Reply) -> Stepped
    ensures hand { hand.new ≡ after hand.old reply }
    ensures stepped { result ≡ outcome_of hand.old reply }
{
    let stepped = outcome_of(hand, &reply);
    let held = mem::replace(hand, Hand::Empty);
    drop(mem::replace(hand, after(held, reply)));
    stepped
}

/// One step: what the courier asks next is asked of the topic that it is for, and the hand takes the answer. Without
/// memory for the event nothing is asked, and the hand stays as it is.
pub fn step<A: Caller, B: Caller>(
    route: &Route,
    hand: &mut Hand,
    source: &mut A,
    target: &mut B,
    now: Moment,
) -> Stepped
    ensures { Steps route.now hand.old now (A.calls source.old) (B.calls target.old) result hand.new (A.calls source.new) (B.calls target.new) }
{
    match next_move(route, hand, now) {
        Ok(next) => {
            let reply = ask_at(source, target, next);
            take(hand, reply)
        }
        Err(_) => Stepped::Fails,
    }
}
