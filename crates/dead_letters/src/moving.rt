// The steps of a move.
ghost use Rattle.std.specs.Prelude.{◌≡◌, IfOk, negsuc};
ghost use Rattle.dead_letters.specs.Moving.{after, move_of, sequence_of, stored_to};

use crate::hand::{Hand, Letter};
use crate::route::Route;
use delivery_machine::{Event, Moment, Ordinal, ProducerNumber, Reply};
use position_core::Base;
use std::alloc::AllocError;

/// At which of the two topics.
#[derive(Clone, Copy, Debug, PartialEq, Eq)]
pub enum Side {
    /// The one that the letter died in.
    Source,
    /// The one that it goes to.
    Target,
}

/// What the courier asks, and where.
#[derive(Drop)]
pub struct Move {
    pub side: Side,
    pub event: Event,
}

fn at_source(event: Event) -> Move
    ensures side { result.side ≡ Side.Source }
    ensures event { result.event ≡ event }
{
    Move {
        side: Side::Source,
        event,
    }
}

fn at_target(event: Event) -> Move
    ensures side { result.side ≡ Side.Target }
    ensures event { result.event ≡ event }
{
    Move {
        side: Side::Target,
        event,
    }
}

/// The base that stands for none.
fn no_base() -> Base
    ensures { result ≡ negsuc 0 }
{
    match Base::new(-1) {
        Some(base) => base,
        None => unreachable!(),
    }
}

fn sequence_of(ordinal: Ordinal) -> i64
    ensures { result ≡ sequence_of ordinal }
{
    ordinal.min(9_223_372_036_854_775_807) as i64
}

fn copy_of(letter: &Letter, producer: ProducerNumber, now: Moment) -> Result<Event, AllocError>
    ensures { IfOk result (λ event. event ≡ Event.Publish producer (sequence_of letter.now.ordinal) letter.now.message.body now) }
{
    Ok(Event::Publish {
        producer,
        sequence: sequence_of(letter.ordinal),
        body: letter.message.entry().body.clone()?,
        now,
    })
}

/// What the courier asks next. Only want of memory is a refusal.
pub fn next_move(route: &Route, hand: &Hand, now: Moment) -> Result<Move, AllocError>
    ensures { IfOk result (λ next. next ≡ move_of route.now hand.now now) }
{
    match hand {
        Hand::Empty => Ok(at_source(Event::DeadNext {
            subscription: route.subscription.clone()?,
        })),
        Hand::Holds(_) => Ok(at_target(Event::AddProducer {
            name: Some(route.name.clone()?),
            base: no_base(),
        })),
        Hand::Joined { letter, producer } => Ok(at_target(copy_of(letter, *producer, now)?)),
        Hand::Copied {
            letter: _,
            producer,
            length: _,
        } => Ok(at_target(Event::DropProducer {
            producer: *producer,
        })),
        Hand::Leaves { producer } => Ok(at_target(Event::DropProducer {
            producer: *producer,
        })),
        Hand::Waits {
            letter: _,
            length: _,
        } => Ok(at_target(Event::Progress)),
        Hand::Moved { letter } => Ok(at_source(Event::DeadDone {
            subscription: route.subscription.clone()?,
            ordinal: letter.ordinal,
        })),
    }
}

fn stored_to(letter: Letter, length: u64, durable: u64) -> Hand
    ensures { result ≡ stored_to letter length durable }
{
    if length <= durable {
        Hand::Moved { letter }
    } else {
        Hand::Waits { letter, length }
    }
}

fn shown(reply: Reply) -> Hand
    ensures { result ≡ after Hand.Empty reply }
{
    match reply {
        Reply::Dead {
            message,
            target,
            ordinal,
        } => Hand::Holds(Letter {
            message,
            target,
            ordinal,
        }),
        _ => Hand::Empty,
    }
}

fn joined(letter: Letter, reply: &Reply) -> Hand
    ensures { result ≡ after (Hand.Holds letter) reply.now }
{
    match reply {
        Reply::ProducerAdded {
            producer,
            auto: _,
            last: _,
        } => Hand::Joined {
            letter,
            producer: *producer,
        },
        _ => Hand::Empty,
    }
}

fn copied(letter: Letter, producer: ProducerNumber, reply: &Reply) -> Hand
    ensures { result ≡ after (Hand.Joined letter producer) reply.now }
{
    match reply {
        Reply::Published {
            position: _,
            length,
        } => Hand::Copied {
            letter,
            producer,
            length: *length,
        },
        Reply::Duplicate { length } => Hand::Copied {
            letter,
            producer,
            length: *length,
        },
        _ => Hand::Leaves { producer },
    }
}

fn waited(letter: Letter, length: u64, reply: &Reply) -> Hand
    ensures { result ≡ after (Hand.Waits letter length) reply.now }
{
    match reply {
        Reply::Progress { durable, length: _ } => stored_to(letter, length, *durable),
        _ => Hand::Empty,
    }
}

/// The same of a hand that is not empty.
fn after_held(hand: Hand, reply: &Reply) -> Hand
    requires { hand ≡ Hand.Empty → ⊥ }
    ensures { result ≡ after hand reply.now }
{
    match hand {
        Hand::Empty => unreachable!(),
        Hand::Holds(letter) => joined(letter, reply),
        Hand::Joined { letter, producer } => copied(letter, producer, reply),
        Hand::Copied {
            letter,
            producer: _,
            length,
        } => Hand::Waits { letter, length },
        Hand::Leaves { producer: _ } => Hand::Empty,
        Hand::Waits { letter, length } => waited(letter, length, reply),
        Hand::Moved { letter: _ } => Hand::Empty,
    }
}

/// The hand after the answer to its last move. A letter that could not be moved stays where it is, and is shown again.
pub fn after(hand: Hand, reply: Reply) -> Hand
    ensures { result ≡ after hand reply }
{
    match hand {
        Hand::Empty => shown(reply),
        held => after_held(held, &reply),
    }
}
