// What workers know of those whom they serve: that a connection is let in by the house, which gives it its turns.
ghost use Rattle.std.specs.Prelude.{◌≡◌, None, false};

use crate::post::Doorbell;
use crate::silence::Patience;
use delivery_machine::Moment;
use json::Scratch;
use mio::net::TcpStream;
use socket_conn::{Asked, Held, Request, SocketConn};
use std::alloc::Global;
use std::io::Eprint;
use std::net::SocketAddr;
use std::rt::Clock;
use std::sync::{Arc, Wait};

/// What is to become of a connection after its turn.
#[derive(Clone, Copy, Debug, PartialEq, Eq)]
pub enum After {
    /// It has nothing to do until its bell rings, its socket is ready, or a moment has come.
    Rest,
    /// It is served again in the next round.
    Again,
    /// It is at its end.
    Gone,
}

/// What a turn came to.
#[derive(Clone, Copy, Debug, PartialEq, Eq)]
pub struct Turned {
    pub after: After,
    /// How much it may have changed: as many times as it took texts, and at least once where it has a session, since a moment
    /// may have come.
    pub made: u64,
    /// When the connection is to be looked at again, by the steady clock, in milliseconds.
    pub due: Option<u64>,
    /// Its silence counts from now on: something whole came from its client, a text or a pong, or its request was accepted.
    pub heard: bool,
}

impl Turned {
    /// The connection is at its end.
    pub fn gone() -> Turned
        ensures after { result.after ≡ After.Gone }
        ensures made { result.made ≡ 1 }
        ensures due { result.due ≡ None }
        ensures heard { result.heard ≡ false }
    {
        Turned {
            after: After::Gone,
            made: 1,
            due: None,
            heard: false,
        }
    }

    /// Nothing was changed in the turn.
    pub fn without_change(after: After) -> Turned
        ensures after { result.after ≡ after }
        ensures made { result.made ≡ 0 }
        ensures due { result.due ≡ None }
        ensures heard { result.heard ≡ false }
    {
        Turned {
            after,
            made: 0,
            due: None,
            heard: false,
        }
    }

    /// The connection has nothing to do.
    pub fn waits() -> Turned
        ensures after { result.after ≡ After.Rest }
        ensures made { result.made ≡ 0 }
        ensures due { result.due ≡ None }
        ensures heard { result.heard ≡ false }
    {
        Turned {
            after: After::Rest,
            made: 0,
            due: None,
            heard: false,
        }
    }
}

/// What time it is.
#[derive(Clone, Copy, Debug, PartialEq, Eq)]
pub struct Time {
    /// Of the day, which somebody may set.
    pub day: Moment,
    /// By the clock that nobody sets: what waits runs by it.
    pub steady: Moment,
}

/// Who comes: where the client is, where the system tells, and at what time of the day its request had come.
#[derive(Clone, Copy, Debug, PartialEq, Eq)]
pub struct Comer {
    pub address: Option<SocketAddr>,
    pub came: Moment,
}

/// A request that asks for no WebSocket: at what time of the day it had come, and how many connections there are.
#[derive(Drop)]
pub struct Asking {
    pub request: Request,
    pub now: Moment,
    pub connections: u64,
}

/// Where connections come to.
pub trait House {
    /// A connection that was let in, with all that it has there.
    type Guest: Drop;

    /// What time it is; where a clock tells nothing, what it told last.
    fn time<R: Clock>(&self, rt: &R, last: Time) -> Time;

    /// How long its guests' clients may be silent.
    fn patience(&self) -> Patience;

    /// The response to a request for a WebSocket that may not come, as it goes out: whole, with its head. None where it may.
    fn refusal(&self, alloc: Global, asked: &Asked) -> Option<Vec<u8>>;

    /// Lets in a connection that asks for a WebSocket and may come, and accepts its request only then. None where the
    /// connection was turned away.
    fn enter<R: Wait + Eprint>(
        &self,
        rt: &R,
        alloc: Global,
        conn: SocketConn<Held<TcpStream>>,
        asked: &Asked,
        comer: Comer,
        bell: &Arc<Doorbell>,
    ) -> Option<Self::Guest>;

    /// The response to a request that asks for no WebSocket, as it goes out: whole, with its head. None for want of memory.
    fn answer<R: Wait>(&self, rt: &R, alloc: Global, asking: Asking) -> Option<Vec<u8>>;

    /// The guest's socket has something to read, and whether its end has come: if not, this is said anew of all that comes
    /// from now on.
    fn note_readable(&self, guest: &mut Self::Guest, ends: bool);

    /// Asks the guest's client for a sign of life. False where the connection is lost.
    fn ping(&self, guest: &mut Self::Guest) -> bool;

    /// The guest's client was silent for so many milliseconds, and has gone, which its next turn tells it.
    fn hang_up<R: Eprint>(&self, rt: &R, guest: &mut Self::Guest, silent: u64);

    /// One turn of a guest, of whom there are so many, who is given back where it has not ended. Its texts are read in the
    /// worker's scratch.
    fn turn<R: Wait + Eprint>(
        &self,
        rt: &R,
        scratch: &mut Scratch,
        guest: Self::Guest,
        now: Time,
        connections: u64,
    ) -> (Turned, Option<Self::Guest>);

    /// A worker, which has made so many changes, stores what waits, where that is little and nobody else does.
    fn help<R: Wait + Clock + Eprint>(&self, rt: &R, made: u64);

    /// Whether all is refused, since the store has failed.
    fn is_closed(&self) -> bool;
}
