// A connection that waits for its topic to be opened. It takes no turn of others: its worker goes on with them.
use crate::entering::{Wish, enter_with, say_unopened};
use crate::guest::Guest;
use crate::place::Place;
use crate::refusing;
use broker_parts::{Broker, Outcome, Waiter};
use delivery_machine::Fault;
use endpoint_core::Endpoint;
use mio::net::TcpStream;
use socket_conn::{Held, SocketConn};
use std::alloc::Global;
use std::io::Eprint;
use std::sync::{Arc, Wait};
use worker_loops::{After, Doorbell, Turned};

/// A connection whose request is accepted once its topic is open.
#[derive(Drop)]
pub struct Waiting {
    pub(crate) alloc: Global,
    pub(crate) conn: SocketConn<Held<TcpStream>>,
    pub(crate) endpoint: Endpoint,
    pub(crate) wish: Wish,
    pub(crate) bell: Arc<Doorbell>,
    pub(crate) waiter: Waiter<Doorbell>,
    /// Nothing has come from its client for too long.
    pub(crate) is_given_up: bool,
}

/// What a waiting connection is to do.
enum Step {
    /// Its topic may be attached to now.
    Enter,
    /// It goes on waiting.
    Wait,
    /// It is closed.
    Refuse(Fault),
    /// Its client has gone.
    Leave,
}

/// What the connection is to do.
fn next_step<D: Broker<Doorbell>, R: Wait>(rt: &R, place: &Place<D>, waiting: &Waiting) -> Step {
    if place.directory.is_closed() {
        return Step::Refuse(Fault::StoreFailed);
    }
    if waiting.is_given_up {
        return Step::Leave;
    }
    match waiting.waiter.outcome(rt) {
        Some(Outcome::Open) => Step::Enter,
        Some(Outcome::Refused(fault)) => Step::Refuse(fault),
        None => Step::Wait,
    }
}

/// One turn of a waiting connection. Gives it back where it has not ended.
pub(crate) fn wait_turn<D: Broker<Doorbell>, R: Wait + Eprint>(
    rt: &R,
    place: &Place<D>,
    waiting: Waiting,
) -> (Turned, Option<Guest<D::Seat>>) {
    match next_step(rt, place, &waiting) {
        Step::Wait => (Turned::waits(), Some(Guest::Waits(waiting))),
        Step::Enter => enter_again(rt, place, waiting),
        Step::Refuse(fault) => {
            refuse(rt, place, waiting, fault);
            (Turned::gone(), None)
        }
        Step::Leave => {
            let Waiting {
                alloc: _,
                conn,
                endpoint,
                wish,
                bell,
                waiter,
                is_given_up: _,
            } = waiting;
            waiter.leave(rt);
            drop(conn);
            drop(endpoint);
            drop(wish);
            drop(bell);
            (Turned::gone(), None)
        }
    }
}

/// The topic is open: the connection comes to it as if it came now.
fn enter_again<D: Broker<Doorbell>, R: Wait + Eprint>(
    rt: &R,
    place: &Place<D>,
    waiting: Waiting,
) -> (Turned, Option<Guest<D::Seat>>) {
    let Waiting {
        alloc,
        conn,
        endpoint,
        wish,
        bell,
        waiter,
        is_given_up: _,
    } = waiting;
    waiter.leave(rt);
    let guest = enter_with(rt, alloc, place, conn, endpoint, wish, &bell);
    drop(bell);
    match guest {
        Some(guest) => (next_round(), Some(guest)),
        None => (Turned::gone(), None),
    }
}

/// The connection is served in the next round. Its request was accepted, so its silence counts from now on.
fn next_round() -> Turned {
    Turned {
        after: After::Again,
        made: 1,
        due: None,
        heard: true,
    }
}

/// The topic could not be opened.
fn refuse<D: Broker<Doorbell>, R: Wait + Eprint>(
    rt: &R,
    place: &Place<D>,
    waiting: Waiting,
    fault: Fault,
) {
    let Waiting {
        alloc,
        conn,
        endpoint,
        wish,
        bell,
        waiter,
        is_given_up: _,
    } = waiting;
    waiter.leave(rt);
    say_unopened(rt, place, &wish.topic, fault);
    place.refusals.note(rt, fault);
    refusing::refuse(alloc, conn, wish.refusal(fault));
    drop(endpoint);
    drop(wish);
    drop(bell);
}
