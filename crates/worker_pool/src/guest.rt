// A connection that was let in: it is served, or waits for its topic to be opened.
use crate::place::Place;
use crate::serving::{Served, serve_turn};
use crate::waiting::{Waiting, wait_turn};
use broker_parts::{Broker, Whence};
use json::Scratch;
use std::io::Eprint;
use std::sync::Wait;
use worker_loops::{Doorbell, Time, Turned};

/// A connection that was let in.
#[derive(Drop)]
pub enum Guest<X: Drop> {
    Serves(Served<X>),
    /// Its request is accepted once its topic is open.
    Waits(Waiting),
}

impl<X: Drop> Guest<X> {
    /// Its socket has something to read. Where its end has not come, the poll tells of all that comes from now on.
    pub(crate) fn note_readable(&mut self, ends: bool) {
        let conn = match self {
            Guest::Serves(served) => &mut served.conn,
            Guest::Waits(waiting) => &mut waiting.conn,
        };
        if ends {
            conn.note_readable();
        } else {
            conn.note_data();
        }
    }

    /// Asks the client for a sign of life, where it can give one: its request was accepted. False where the connection is
    /// lost.
    pub(crate) fn ping(&mut self) -> bool {
        match self {
            Guest::Serves(served) => served.ping(),
            Guest::Waits(_) => true,
        }
    }

    /// Where its client is, where that is known.
    pub(crate) fn whence(&self) -> Option<Whence> {
        match self {
            Guest::Serves(served) => served.whence,
            Guest::Waits(waiting) => waiting.wish.visitor.whence,
        }
    }

    pub(crate) fn hang_up(&mut self) {
        match self {
            Guest::Serves(served) => served.conn.hang_up(),
            Guest::Waits(waiting) => waiting.is_given_up = true,
        }
    }
}

/// One turn of a connection that was let in. Gives it back where it has not ended.
pub(crate) fn turn<D: Broker<Doorbell>, R: Wait + Eprint>(
    rt: &R,
    scratch: &mut Scratch,
    place: &Place<D>,
    guest: Guest<D::Seat>,
    now: Time,
    connections: u64,
) -> (Turned, Option<Guest<D::Seat>>) {
    match guest {
        Guest::Serves(served) => serve_turn(rt, scratch, place, served, now, connections),
        Guest::Waits(waiting) => wait_turn(rt, place, waiting),
    }
}
