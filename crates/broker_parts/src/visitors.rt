// Who sits at a topic's seats, as its lookers are told.
ghost use Rattle.std.specs.Prelude.{◌≡◌, ◌↔◌, IfSome, IsTrue, Some, false};
ghost use Rattle.broker_parts.specs.Ends.{refusal_at};
ghost use Rattle.broker_parts.specs.Places.{ComesFromHere};

use crate::stage::Stage;
use crate::whence::{Whence, is_own};
use delivery_machine::{ConsumerNumber, Fault, Moment, ProducerName};
use status_pages::Role;
use std::alloc::{AllocError, Global};

/// Who sits at a seat.
#[derive(Clone, Copy, Debug, PartialEq, Eq)]
pub struct Visitor {
    /// Where its client is, where that is known; or the proxy that handed its request on.
    pub whence: Option<Whence>,
    /// A proxy handed its request on.
    pub is_handed_on: bool,
    pub role: Role,
    /// When it came.
    pub since: Moment,
    /// A consumer whose subscription stays after it has gone.
    pub is_durable: bool,
}

impl Visitor {
    /// Whether its client is known to be at the broker's own machine. One behind a proxy may be anywhere, although the proxy
    /// is near.
    pub fn is_near(&self) -> bool
        ensures { IsTrue result ↔ (self.now.is_handed_on ≡ false) × ComesFromHere self.now.whence }
    {
        match self.whence {
            Some(Whence::Peer(address)) => !self.is_handed_on && is_own(address.ip()),
            Some(Whence::Forwarded(_)) => false,
            None => false,
        }
    }
}

/// Under which name one publishes.
#[derive(Drop)]
pub enum Publisher {
    /// The one that it asked for.
    Named(ProducerName),
    /// The one that the topic made of this number.
    Made(u64),
}

impl Publisher {
    /// One who asked for the name, or for none and got one of the number.
    pub fn of(name: Option<ProducerName>, auto: Option<u64>) -> Option<Publisher> {
        match (name, auto) {
            (Some(name), _) => Some(Publisher::Named(name)),
            (None, Some(number)) => Some(Publisher::Made(number)),
            (None, None) => None,
        }
    }

    /// The name.
    pub fn text(&self, alloc: Global) -> Result<String, AllocError> {
        match self {
            Publisher::Named(name) => String::from_str(alloc, name.as_str()),
            Publisher::Made(number) => format!(in alloc; "auto-{number}"),
        }
    }
}

/// Who sits at a seat, its number as a consumer of the topic where it is one, or its name as a producer, and whether its session is to
/// end.
#[derive(Drop)]
struct Sitting {
    visitor: Visitor,
    consumer: Option<ConsumerNumber>,
    publisher: Option<Publisher>,
    is_to_go: bool,
}

/// Who sits at the seats, from the first one on, as far as they said who they are.
#[derive(Drop)]
pub struct Visitors {
    seats: Vec<Option<Sitting>>,
}

fn place_of(seat: u64) -> usize {
    seat.saturating_sub(1) as usize
}

impl Visitors {
    pub fn new(alloc: Global) -> Self {
        Visitors {
            seats: Vec::new(alloc),
        }
    }

    /// The one at the seat says who it is. Where there is no memory for that, nobody is told.
    pub fn enter(&mut self, seat: u64, visitor: Visitor) {
        let place = place_of(seat);
        for _ in self.seats.len()..place.saturating_add(1) {
            if self.seats.push(None).is_err() {
                return;
            }
        }
        self.set(
            place,
            Some(Sitting {
                visitor,
                consumer: None,
                publisher: None,
                is_to_go: false,
            }),
        );
    }

    /// The one at the seat is the consumer of the number.
    pub fn join(&mut self, seat: u64, consumer: ConsumerNumber) {
        if let Some(sitting) = self.sitting_mut(seat) {
            sitting.consumer = Some(consumer);
        }
    }

    /// The one at the seat publishes under this name.
    pub fn produce(&mut self, seat: u64, publisher: Option<Publisher>) {
        match self.sitting_mut(seat) {
            Some(sitting) => sitting.publisher = publisher,
            None => drop(publisher),
        }
    }

    /// Under which name the one at the seat publishes.
    pub fn publisher(&self, seat: u64) -> Option<&Publisher> {
        match self.sitting(seat) {
            Some(sitting) => sitting.publisher.as_ref(),
            None => None,
        }
    }

    /// The number of the consumer at the seat, where one is there.
    pub fn consumer(&self, seat: u64) -> Option<ConsumerNumber> {
        match self.sitting(seat) {
            Some(sitting) => sitting.consumer,
            None => None,
        }
    }

    /// Nobody sits at the seat any more.
    pub fn exit(&mut self, seat: u64) {
        self.set(place_of(seat), None);
    }

    fn set(&mut self, place: usize, sitting: Option<Sitting>) {
        if let Some(seat) = self.seats.get_mut(place) {
            *seat = sitting;
        }
    }

    fn sitting(&self, seat: u64) -> Option<&Sitting> {
        if seat == 0 {
            return None;
        }
        match self.seats.get(place_of(seat)) {
            Some(Some(sitting)) => Some(sitting),
            _ => None,
        }
    }

    fn sitting_mut(&mut self, seat: u64) -> Option<&mut Sitting> {
        if seat == 0 {
            return None;
        }
        match self.seats.get_mut(place_of(seat)) {
            Some(Some(sitting)) => Some(sitting),
            _ => None,
        }
    }

    /// The session at the seat is to end. Whether one is there that said who it is: nobody sits at 0.
    pub fn end(&mut self, seat: u64) -> bool {
        match self.sitting_mut(seat) {
            Some(sitting) => {
                sitting.is_to_go = true;
                true
            }
            None => false,
        }
    }

    /// Whether the session at the seat is to end.
    pub fn is_to_go(&self, seat: u64) -> bool {
        match self.sitting(seat) {
            Some(sitting) => sitting.is_to_go,
            None => false,
        }
    }

    /// Why the one at the seat may not stay, where it may not, at a topic of that stage.
    pub fn refusal(&self, stage: Stage, seat: u64) -> Option<Fault>
        ensures { IfSome (refusal_at stage) (λ fault. result ≡ Some fault) }
    {
        match stage.refusal() {
            Some(fault) => Some(fault),
            None => if self.is_to_go(seat) {
                Some(Fault::NoSession)
            } else {
                None
            },
        }
    }

    /// Whether a session is to end that is there still.
    pub fn any_to_go(&self) -> bool {
        self.seats.iter().any(|seat| match seat {
            Some(sitting) => sitting.is_to_go,
            None => false,
        })
    }

    /// Whether the subscription of the one at the seat stays after it has gone: so it is where nobody said otherwise.
    pub fn is_durable(&self, seat: u64) -> bool {
        match self.sitting(seat) {
            Some(sitting) => sitting.visitor.is_durable,
            None => true,
        }
    }

    /// Up to which seat somebody may sit who said so.
    pub fn last(&self) -> u64 {
        self.seats.len() as u64
    }

    /// Who sits at the seat.
    pub fn at(&self, seat: u64) -> Option<Visitor> {
        match self.sitting(seat) {
            Some(sitting) => Some(sitting.visitor),
            None => None,
        }
    }
}
