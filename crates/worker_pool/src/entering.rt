// From a request to a session: the target is read, a seat is taken, the session begins, and only then the request is
// accepted. So whoever sees its connection open is subscribed, or is a producer of its topic. One whose topic is being opened
// waits before that.
ghost use Rattle.std.specs.Prelude.{◌≡◌, None};
ghost use Rattle.worker_pool.specs.Durable.{is_durable};

use crate::accepting::{accept, session_at};
use crate::callers::Presence;
use crate::guest::Guest;
use crate::place::Place;
use crate::quoted::Quoted;
use crate::refusing::{Refusal, refuse, tells_status};
use crate::serving::Served;
use crate::waiting::Waiting;
use crate::whence::whence_of;
use broker_parts::{Broker, Coming, Visitor, Waiter};
use delivery_machine::{Fault, TopicName};
use endpoint_core::{Endpoint, Mode, route};
use mio::net::TcpStream;
use socket_conn::{Asked, Held, SocketConn};
use status_pages::Role;
use std::alloc::Global;
use std::io::Eprint;
use std::sync::{Arc, Wait};
use worker_loops::{Comer, Doorbell};

/// Which topic an endpoint is at, whether it makes one, the code that a refused seat closes with, and who comes.
#[derive(Drop)]
pub(crate) struct Wish {
    pub(crate) topic: TopicName,
    creates: bool,
    code: u16,
    /// A refusal is told by the status of a response.
    tells_status: bool,
    pub(crate) visitor: Visitor,
    /// It counts as its address's, where it is counted.
    presence: Option<Presence>,
}

impl Wish {
    /// That the topic, or the broker, gives no session.
    pub(crate) fn refusal(&self, fault: Fault) -> Refusal
        ensures fault { result.fault ≡ fault }
        ensures code { result.code ≡ self.now.code }
        ensures way { result.tells_status ≡ self.now.tells_status }
        ensures wrong { result.wrong ≡ None }
    {
        Refusal {
            fault,
            code: self.code,
            tells_status: self.tells_status,
            wrong: None,
        }
    }
}

/// Whether what is made of a subscription there stays.
fn is_durable(endpoint: &Endpoint) -> bool
    ensures { result ≡ is_durable endpoint.now }
{
    match endpoint {
        Endpoint::Consumer(consumer) => consumer.mode == Mode::Durable,
        _ => true,
    }
}

/// What is wished for; or that there is no memory for that.
fn wish_of(
    endpoint: &Endpoint,
    comer: Comer,
    asked: &Asked,
    tells_status: bool,
) -> Result<Wish, Refusal> {
    let (topic, creates, code, role) = match endpoint {
        Endpoint::Producer(producer) => (&producer.topic, true, 4001, Role::Producer),
        Endpoint::Consumer(consumer) => (&consumer.topic, true, 4002, Role::Consumer),
        Endpoint::Admin(admin) => (&admin.topic, false, 4008, Role::Admin),
    };
    let Ok(topic) = topic.clone() else {
        return Err(Refusal {
            fault: Fault::NoMemory,
            code: 4008,
            tells_status,
            wrong: None,
        });
    };
    Ok(Wish {
        topic,
        creates,
        code,
        tells_status,
        visitor: Visitor {
            whence: whence_of(comer.address, asked),
            is_handed_on: asked.is_forwarded,
            role,
            since: comer.came,
            is_durable: is_durable(endpoint),
        },
        presence: None,
    })
}

/// Says on standard error why a topic is not opened: its client learns no more than that the store failed.
pub(crate) fn say_unopened<D: Broker<Doorbell>, R: Wait + Eprint>(
    rt: &R,
    place: &Place<D>,
    topic: &TopicName,
    fault: Fault,
) {
    if fault != Fault::StoreFailed || place.directory.is_closed() {
        return;
    }
    if let Some(cause) = place.directory.why_unopened(rt, topic) {
        let topic = Quoted { topic };
        let _ = eprintln!(rt; "{topic}: {cause}");
    }
}

/// Comes to the topic that is wished for.
fn come_to<D: Broker<Doorbell>, R: Wait + Eprint>(
    rt: &R,
    place: &Place<D>,
    wish: &Wish,
    bell: &Arc<Doorbell>,
) -> Result<Coming<D::Seat, Doorbell>, Fault> {
    let Ok(bell) = Arc::try_clone(bell) else {
        return Err(Fault::NoMemory);
    };
    match place.directory.attach(rt, &wish.topic, wish.creates, bell) {
        Ok(coming) => Ok(coming),
        Err(fault) => {
            say_unopened(rt, place, &wish.topic, fault);
            Err(fault)
        }
    }
}

/// The session begins and the request is accepted; or the seat is free again, and then the client is told why.
fn begin<D: Broker<Doorbell>, R: Wait>(
    rt: &R,
    alloc: Global,
    place: &Place<D>,
    endpoint: Endpoint,
    mut conn: SocketConn<Held<TcpStream>>,
    seat: D::Seat,
    wish: Wish,
) -> Option<Guest<D::Seat>> {
    let Wish {
        topic,
        creates: _,
        code,
        tells_status,
        visitor,
        presence,
    } = wish;
    drop(topic);
    let (begun, settled) = session_at(rt, alloc, place, endpoint, &mut conn, &seat);
    match begun {
        Ok(session) => {
            accept(&mut conn, settled);
            Some(Guest::Serves(Served {
                conn,
                session,
                seat,
                whence: visitor.whence,
                presence,
            }))
        }
        Err(fault) => {
            place.directory.detach(rt, seat);
            drop(presence);
            drop(settled);
            let refusal = Refusal {
                fault,
                code,
                tells_status,
                wrong: None,
            };
            refuse(alloc, conn, refusal);
            None
        }
    }
}

/// Lets in a connection whose request asks for this. None where the connection was turned away.
pub(crate) fn enter<D: Broker<Doorbell>, R: Wait + Eprint>(
    rt: &R,
    alloc: Global,
    place: &Place<D>,
    conn: SocketConn<Held<TcpStream>>,
    asked: &Asked,
    comer: Comer,
    bell: &Arc<Doorbell>,
) -> Option<Guest<D::Seat>> {
    let tells_status = tells_status(place.rules.refusals, asked);
    match route(alloc, asked.target.as_str(), place.rules.letters) {
        Ok(endpoint) => {
            let wish = wish_of(&endpoint, comer, asked, tells_status);
            enter_at(rt, alloc, place, conn, endpoint, wish, bell)
        }
        Err(fault) => {
            place.refusals.note(rt, fault.fault());
            let refusal = Refusal {
                fault: fault.fault(),
                code: fault.close_code(),
                tells_status,
                wrong: fault.wrong(),
            };
            refuse(alloc, conn, refusal);
            None
        }
    }
}

fn enter_at<D: Broker<Doorbell>, R: Wait + Eprint>(
    rt: &R,
    alloc: Global,
    place: &Place<D>,
    conn: SocketConn<Held<TcpStream>>,
    endpoint: Endpoint,
    wish: Result<Wish, Refusal>,
    bell: &Arc<Doorbell>,
) -> Option<Guest<D::Seat>> {
    match wish {
        Ok(wish) => enter_counted(rt, alloc, place, conn, endpoint, wish, bell),
        Err(refusal) => {
            place.refusals.note(rt, refusal.fault);
            refuse(alloc, conn, refusal);
            drop(endpoint);
            None
        }
    }
}

/// The connection counts as its address's from now on, unless its address has too much.
fn enter_counted<D: Broker<Doorbell>, R: Wait + Eprint>(
    rt: &R,
    alloc: Global,
    place: &Place<D>,
    conn: SocketConn<Held<TcpStream>>,
    endpoint: Endpoint,
    mut wish: Wish,
    bell: &Arc<Doorbell>,
) -> Option<Guest<D::Seat>> {
    match place.callers.come(rt, &wish.visitor, &wish.topic) {
        Ok(presence) => {
            wish.presence = presence;
            enter_with(rt, alloc, place, conn, endpoint, wish, bell)
        }
        Err(fault) => {
            place.refusals.note(rt, fault);
            refuse(alloc, conn, wish.refusal(fault));
            drop(endpoint);
            drop(wish);
            None
        }
    }
}

/// The connection comes to its topic: a session begins there, or it waits for the topic to be opened.
pub(crate) fn enter_with<D: Broker<Doorbell>, R: Wait + Eprint>(
    rt: &R,
    alloc: Global,
    place: &Place<D>,
    conn: SocketConn<Held<TcpStream>>,
    endpoint: Endpoint,
    wish: Wish,
    bell: &Arc<Doorbell>,
) -> Option<Guest<D::Seat>> {
    match come_to(rt, place, &wish, bell) {
        Ok(Coming::Seated(seat)) => {
            place.directory.introduce(rt, &seat, wish.visitor);
            begin(rt, alloc, place, endpoint, conn, seat, wish)
        }
        Ok(Coming::Waits(waiter)) => wait(rt, alloc, conn, endpoint, wish, bell, waiter),
        Err(fault) => {
            place.refusals.note(rt, fault);
            refuse(alloc, conn, wish.refusal(fault));
            drop(endpoint);
            drop(wish);
            None
        }
    }
}

/// The connection waits, with its request not accepted.
fn wait<X: Drop, R: Wait>(
    rt: &R,
    alloc: Global,
    conn: SocketConn<Held<TcpStream>>,
    endpoint: Endpoint,
    wish: Wish,
    bell: &Arc<Doorbell>,
    waiter: Waiter<Doorbell>,
) -> Option<Guest<X>> {
    match Arc::try_clone(bell) {
        Ok(bell) => Some(Guest::Waits(Waiting {
            alloc,
            conn,
            endpoint,
            wish,
            bell,
            waiter,
            is_given_up: false,
        })),
        Err(_) => {
            waiter.leave(rt);
            refuse(alloc, conn, wish.refusal(Fault::NoMemory));
            drop(endpoint);
            drop(wish);
            None
        }
    }
}
