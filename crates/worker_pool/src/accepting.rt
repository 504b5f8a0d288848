// What becomes of a request that asks for a session, and only then its acceptance.
use crate::desk::Seated;
use crate::place::Place;
use broker_parts::Broker;
use delivery_machine::Fault;
use endpoint_core::Endpoint;
use mio::net::TcpStream;
use session_core::{Session, open};
use session_links::Conn;
use session_texts::reason;
use socket_conn::{Held, SocketConn};
use std::alloc::Global;
use std::sync::Wait;
use worker_loops::Doorbell;

/// That the session of a connection has begun, or that its connection was closed. A request is accepted only with this: so
/// whoever sees its connection open is subscribed, or is a producer of its topic.
#[derive(Drop)]
pub(crate) struct Settled {
    _settled: (),
}

/// The request is accepted, and what was said to it since goes out.
pub(crate) fn accept(conn: &mut SocketConn<Held<TcpStream>>, settled: Settled) {
    drop(settled);
    conn.let_go();
    let _ = conn.flush();
}

/// Closes a connection that has no session, or has none any longer.
pub(crate) fn turn_away(conn: &mut SocketConn<Held<TcpStream>>, code: u16, fault: Fault) {
    if conn.is_open() {
        conn.close(code, reason(fault));
    }
    accept(conn, Settled { _settled: () });
}

/// The session of the endpoint at the seat; or why the topic refuses it, and the connection is closed then.
pub(crate) fn session_at<D: Broker<Doorbell>, R: Wait>(
    rt: &R,
    alloc: Global,
    place: &Place<D>,
    endpoint: Endpoint,
    conn: &mut SocketConn<Held<TcpStream>>,
    seat: &D::Seat,
) -> (Result<Session, Fault>, Settled) {
    let mut caller = Seated::at(rt, &place.directory, seat);
    if !conn.is_open() {
        drop(endpoint);
        return (Err(Fault::NoSession), Settled { _settled: () });
    }
    let session = match open(alloc, endpoint, conn, &mut caller) {
        Some(session) => Ok(session),
        None => Err(caller.refused().unwrap_or(Fault::NoMemory)),
    };
    if let Some(fault) = caller.refused()
        && session.is_err()
    {
        place.refusals.note(rt, fault);
    }
    (session, Settled { _settled: () })
}
