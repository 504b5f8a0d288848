// Accepting connections, which the workers serve.
use crate::alarm::Alarm;
use crate::crew::Crew;
use crate::job::Job;
use crate::troubles::{Trouble, Troubles};
use mio::net::{TcpListener, TcpStream};
use mio::{Interest, Poll, Token, Waker};
use std::alloc::Global;
use std::io;
use std::io::Eprint;
use std::net::{Net, SocketAddr};
use std::rt::Clock;
use std::sync::{Arc, Wait};
use std::thread::Threads;

/// The token of the listener.
const LISTENER: Token = Token(0);

/// How many workers there are, after how many connections to end, and how many one address may have at once.
#[derive(Clone, Copy, Debug, PartialEq, Eq)]
pub struct Limits {
    pub workers: u32,
    pub connections: Option<u64>,
    /// None where there is no limit. The machine's own address has none, and of IPv6 a network counts as one address.
    pub most_per_address: Option<u32>,
}

/// How serving ended.
#[derive(Clone, Copy, Debug, PartialEq, Eq)]
pub enum Ended {
    /// So many connections were served.
    Served(u64),
    /// The store failed.
    StoreFailed,
    /// A thread, a poll or memory could not be had.
    Failed,
}

/// The listener, and the alarm that it rings.
#[derive(Drop)]
struct Entrance {
    listener: TcpListener,
    alarm: Alarm,
}

/// What the accepting thread begins with. The thread that starts it makes the polls, since it alone has the net.
#[derive(Drop)]
pub(crate) struct Opening {
    entrance: Entrance,
    /// One for each worker.
    polls: Vec<Poll>,
    limits: Limits,
}

/// So many polls.
fn polls_for<R: Net>(rt: &R, alloc: Global, count: u32) -> Option<Vec<Poll>> {
    let mut polls = Vec::new(alloc);
    for _ in 0..count {
        polls.push(Poll::new(rt).ok()?).ok()?;
    }
    Some(polls)
}

impl Opening {
    pub(crate) fn new<R: Net>(
        rt: &R,
        alloc: Global,
        listener: std::net::TcpListener,
        limits: Limits,
    ) -> Option<Opening> {
        Some(Opening {
            entrance: Entrance::new(rt, alloc, listener)?,
            polls: polls_for(rt, alloc, limits.workers)?,
            limits,
        })
    }

    /// What wakes the accepting thread.
    pub(crate) fn waker(&self) -> Option<Arc<Waker>> {
        self.entrance.alarm.waker()
    }
}

/// What came of accepting.
#[derive(Drop)]
enum Accepted {
    Stream(TcpStream, SocketAddr),
    /// None waits.
    Nothing,
    /// None could be had, for want of file descriptors for example.
    Fails,
}

impl Entrance {
    fn new<R: Net>(rt: &R, alloc: Global, listener: std::net::TcpListener) -> Option<Entrance> {
        listener.set_nonblocking(true).ok()?;
        let mut listener = TcpListener::from_std(listener);
        let alarm = Alarm::new(rt, alloc)?;
        alarm
            .registry()
            .register(&mut listener, LISTENER, Interest::READABLE)
            .ok()?;
        Some(Entrance { listener, alarm })
    }

    fn accept(&self) -> Accepted {
        match self.listener.accept() {
            Ok((stream, address)) => Accepted::Stream(stream, address),
            Err(error) => {
                if error.kind() == io::ErrorKind::WouldBlock {
                    Accepted::Nothing
                } else {
                    Accepted::Fails
                }
            }
        }
    }
}

/// How long to wait after a connection could not be accepted, in milliseconds.
const PAUSE: u64 = 50;

/// How long to wait for connections at a time, in milliseconds.
const ROUND: u64 = 1_000;

/// Takes in connections, until so many have come or the store has failed. False where that could not go on.
fn welcome<R: Wait + Clock + Eprint, X: Job>(
    rt: &R,
    place: &X,
    entrance: &mut Entrance,
    crew: &mut Crew,
    most: u64,
) -> bool {
    let mut troubles = Troubles::new();
    for _ in rt.forever() {
        if crew.count() >= most || place.has_failed() {
            return true;
        }
        troubles.say(rt);
        let goes_on = match entrance.accept() {
            Accepted::Stream(stream, address) => {
                crew.take_in(rt, &mut troubles, stream, address)
            }
            Accepted::Nothing => entrance.alarm.sleep(ROUND),
            Accepted::Fails => {
                troubles.note(Trouble::NotAccepted);
                entrance.alarm.sleep(PAUSE)
            }
        };
        if !goes_on {
            return false;
        }
    }
    true
}

/// Serves connections by the crew, until all its workers have ended.
fn serve_by<
    R: Threads + Wait + Clock + Eprint + Copy + Send + Sync + Drop + 'static,
    X: Job + Send + Sync + Drop + 'static,
>(rt: &R, alloc: Global, opening: Opening, mut crew: Crew, place: &Arc<X>) -> Ended {
    let Opening {
        mut entrance,
        polls,
        limits,
    } = opening;
    let most = limits.connections.unwrap_or(u64::MAX);
    let has_served = crew.hire_all(rt, alloc, place, polls)
        && welcome(rt, &**place, &mut entrance, &mut crew, most);
    let count = crew.count();
    crew.shut(rt);
    let has_worked = crew.join(rt);
    if has_served && has_worked {
        Ended::Served(count)
    } else {
        Ended::Failed
    }
}

/// Serves the connections that come, until so many have come and ended, or the store fails.
pub(crate) fn accept_all<
    R: Threads + Wait + Clock + Eprint + Copy + Send + Sync + Drop + 'static,
    X: Job + Send + Sync + Drop + 'static,
>(rt: &R, alloc: Global, opening: Opening, place: &Arc<X>) -> Ended {
    match Crew::new(alloc, opening.limits.most_per_address) {
        Some(crew) => serve_by(rt, alloc, opening, crew, place),
        None => {
            drop(opening);
            Ended::Failed
        }
    }
}
