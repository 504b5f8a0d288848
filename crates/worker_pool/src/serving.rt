// A session with its connection, and its turns.
use crate::accepting::turn_away;
use crate::callers::Presence;
use crate::desk::{Desk, Seated};
use crate::guest::Guest;
use crate::place::Place;
use broker_parts::{Broker, Whence};
use delivery_machine::Fault;
use json::Scratch;
use mio::net::TcpStream;
use session_bells::Rest;
use session_core::{Session, TextCount, leave, serve};
use socket_conn::{Held, SocketConn};
use std::sync::Wait;
use worker_loops::{After, Doorbell, Time, Turned};

/// A session with its connection and its seat.
#[derive(Drop)]
pub struct Served<X: Drop> {
    pub(crate) conn: SocketConn<Held<TcpStream>>,
    pub(crate) session: Session,
    pub(crate) seat: X,
    /// Where its client is, where that is known.
    pub(crate) whence: Option<Whence>,
    /// It counts as its address's until it ends.
    pub(crate) presence: Option<Presence>,
}

/// How many texts of one connection are taken before the next one's turn.
fn most_texts() -> TextCount {
    match TextCount::new(64) {
        Some(most) => most,
        None => unreachable!(),
    }
}

impl<X: Drop> Served<X> {
    /// Asks the client for a sign of life. False where the connection is lost.
    pub(crate) fn ping(&mut self) -> bool {
        if self.conn.ping().is_err() {
            self.conn.hang_up();
            return false;
        }
        self.conn.flush() || self.conn.is_blocked()
    }

    /// Whether it is to be served again at once: it takes texts, and some may be there, of which the socket does not tell
    /// again; or it has something to send and room for it. Else it has left its bell.
    fn goes_on<D: Broker<Doorbell, Seat = X>, R: Wait>(
        &mut self,
        rt: &R,
        place: &Place<D>,
    ) -> bool {
        let waits = self.session.waits();
        let has_texts = waits.texts && self.conn.is_readable();
        if (has_texts || waits.room) && !self.conn.is_blocked() {
            return true;
        }
        let rest = Rest {
            durable: waits.durable,
            messages: waits.messages,
        };
        !place.directory.rest(rt, &self.seat, rest)
    }

    /// What a turn came to that took so many texts.
    fn turned<D: Broker<Doorbell, Seat = X>, R: Wait>(
        &mut self,
        rt: &R,
        place: &Place<D>,
        received: u32,
    ) -> Turned {
        let after = if self.goes_on(rt, place) {
            After::Again
        } else {
            After::Rest
        };
        Turned {
            after,
            made: u64::from(received).max(1),
            due: self.session.waits().due,
            heard: self.conn.take_heard(),
        }
    }
}

/// One turn of a session. Gives it back where it has not ended.
pub(crate) fn serve_turn<D: Broker<Doorbell>, R: Wait>(
    rt: &R,
    scratch: &mut Scratch,
    place: &Place<D>,
    served: Served<D::Seat>,
    now: Time,
    connections: u64,
) -> (Turned, Option<Guest<D::Seat>>) {
    let Served {
        mut conn,
        session,
        seat,
        whence,
        presence,
    } = served;
    conn.begin_turn();
    let _ = conn.flush();
    let left = {
        let mut caller = Desk::at(rt, place, &seat, now.day, connections);
        if conn.is_open() {
            serve(
                session,
                scratch,
                &mut conn,
                &mut caller,
                now.steady,
                most_texts(),
            )
        } else {
            drop(session);
            None
        }
    };
    match left {
        Some(session) => {
            let _ = conn.flush();
            place.note_traffic(conn.take_traffic());
            let received = conn.take_received();
            let served = Served {
                conn,
                session,
                seat,
                whence,
                presence,
            };
            stay(rt, place, served, received)
        }
        None => {
            place.directory.detach(rt, seat);
            drop(presence);
            see_off(place, conn);
            (Turned::gone(), None)
        }
    }
}

/// The last that a client hears, once its seat is free: so it may come again as soon as it hears it.
fn see_off<D: Broker<Doorbell>>(place: &Place<D>, mut conn: SocketConn<Held<TcpStream>>) {
    let _ = conn.tell_breach();
    let _ = conn.flush();
    place.note_traffic(conn.take_traffic());
    drop(conn);
}

/// Why the session may not stay, where it may not: the store failed, the topic leaves or is gone, or an administrator ended it.
fn refusal<D: Broker<Doorbell>, R: Wait>(
    rt: &R,
    place: &Place<D>,
    served: &Served<D::Seat>,
) -> Option<Fault> {
    if place.directory.is_closed() {
        Some(Fault::StoreFailed)
    } else {
        place.directory.refusal(rt, &served.seat)
    }
}

/// The session ends, and its client is told why once its seat is free.
fn dismiss<D: Broker<Doorbell>, R: Wait>(
    rt: &R,
    place: &Place<D>,
    served: Served<D::Seat>,
    fault: Fault,
) {
    let Served {
        mut conn,
        session,
        seat,
        whence: _,
        presence,
    } = served;
    {
        let mut caller = Seated::at(rt, &place.directory, &seat);
        leave(session, &mut caller);
    }
    place.directory.detach(rt, seat);
    drop(presence);
    turn_away(&mut conn, 4008, fault);
    place.note_traffic(conn.take_traffic());
    drop(conn);
}

/// The session stays, unless it may not.
fn stay<D: Broker<Doorbell>, R: Wait>(
    rt: &R,
    place: &Place<D>,
    mut served: Served<D::Seat>,
    received: u32,
) -> (Turned, Option<Guest<D::Seat>>) {
    match refusal(rt, place, &served) {
        Some(fault) => {
            place.refusals.note(rt, fault);
            dismiss(rt, place, served, fault);
            (Turned::gone(), None)
        }
        None => {
            let turned = served.turned(rt, place, received);
            (turned, Some(Guest::Serves(served)))
        }
    }
}
