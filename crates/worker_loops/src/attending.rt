// The thread that began, which alone has files: it starts those that accept and store, and attends while they work.
use crate::accepting::{Ended, Limits, Opening, accept_all};
use crate::alarm::Alarm;
use crate::job::Job;
use mio::Waker;
use std::alloc::Global;
use std::io::Eprint;
use std::net::Net;
use std::rt::{Clock, Files};
use std::sync::{Arc, Wait};
use std::thread;
use std::thread::{JoinHandle, Threads};

/// How long there is between two times that it attends, in milliseconds.
const ROUND: u64 = 1_000;

/// Stores, in a thread of its own, until nothing is to be stored any more. Then the accepting thread is woken.
fn store_beside<
    R: Threads + Wait + Clock + Copy + Send + Sync + Drop + 'static,
    X: Job + Send + Sync + Drop + 'static,
>(rt: &R, place: &Arc<X>, waker: Arc<Waker>) -> Option<JoinHandle<()>> {
    let place = Arc::try_clone(place).ok()?;
    let handle = *rt;
    let thread = thread::Builder::new().spawn(rt, move || {
        place.keep(&handle);
        let _ = waker.wake();
    });
    thread.ok()
}

/// The thread that stores, which wakes the accepting one at its end.
fn storing_for<
    R: Threads + Wait + Clock + Copy + Send + Sync + Drop + 'static,
    X: Job + Send + Sync + Drop + 'static,
>(rt: &R, place: &Arc<X>, opening: &Opening) -> Option<JoinHandle<()>> {
    store_beside(rt, place, opening.waker()?)
}

/// Accepts connections, in a thread of its own, until all have ended. Then the thread that attends is woken.
fn accept_beside<
    R: Threads + Wait + Clock + Eprint + Copy + Send + Sync + Drop + 'static,
    X: Job + Send + Sync + Drop + 'static,
>(
    rt: &R,
    alloc: Global,
    opening: Opening,
    place: &Arc<X>,
    waker: Arc<Waker>,
) -> Option<JoinHandle<Ended>> {
    let place = Arc::try_clone(place).ok()?;
    let handle = *rt;
    let thread = thread::Builder::new().spawn(rt, move || {
        let ended = accept_all(&handle, alloc, opening, &place);
        let _ = waker.wake();
        ended
    });
    thread.ok()
}

/// The thread that accepts, which rings the alarm at its end.
fn accepting_for<
    R: Threads + Wait + Clock + Eprint + Copy + Send + Sync + Drop + 'static,
    X: Job + Send + Sync + Drop + 'static,
>(
    rt: &R,
    alloc: Global,
    opening: Opening,
    place: &Arc<X>,
    alarm: &Alarm,
) -> Option<JoinHandle<Ended>> {
    match alarm.waker() {
        Some(waker) => accept_beside(rt, alloc, opening, place, waker),
        None => {
            drop(opening);
            None
        }
    }
}

/// Attends at once, and then each second, until the alarm rings, or cannot be waited for.
fn attend<R: Wait + Clock + Eprint + Files, X: Job>(rt: &R, place: &X, alarm: &mut Alarm) {
    for _ in rt.forever() {
        place.attend(rt);
        if !alarm.sleep(ROUND) || alarm.is_rung() {
            return;
        }
    }
}

/// Accepts in a thread of its own, and attends meanwhile.
fn accept_and_attend<
    R: Threads + Wait + Clock + Eprint + Files + Copy + Send + Sync + Drop + 'static,
    X: Job + Send + Sync + Drop + 'static,
>(rt: &R, alloc: Global, opening: Opening, place: &Arc<X>, alarm: &mut Alarm) -> Ended {
    match accepting_for(rt, alloc, opening, place, alarm) {
        Some(accepting) => {
            attend(rt, &**place, alarm);
            accepting.join(rt)
        }
        None => Ended::Failed,
    }
}

fn serve_at<
    R: Threads + Wait + Clock + Eprint + Files + Copy + Send + Sync + Drop + 'static,
    X: Job + Send + Sync + Drop + 'static,
>(rt: &R, alloc: Global, opening: Opening, place: &Arc<X>, alarm: &mut Alarm) -> Ended {
    match storing_for(rt, place, &opening) {
        Some(storing) => {
            let ended = accept_and_attend(rt, alloc, opening, place, alarm);
            place.finish(rt);
            storing.join(rt);
            if place.has_failed() {
                Ended::StoreFailed
            } else {
                ended
            }
        }
        None => {
            drop(opening);
            Ended::Failed
        }
    }
}

/// Serves connections that come to the listener, each by one of the workers, until so many have come and ended, or the
/// store fails. One thread accepts them, one stores what is too much for a worker, and this one does what needs files.
pub fn serve<
    R: Threads + Wait + Net + Clock + Eprint + Files + Copy + Send + Sync + Drop + 'static,
    X: Job + Send + Sync + Drop + 'static,
>(rt: &R, alloc: Global, listener: std::net::TcpListener, place: Arc<X>, limits: Limits) -> Ended {
    match (
        Opening::new(rt, alloc, listener, limits),
        Alarm::new(rt, alloc),
    ) {
        (Some(opening), Some(mut alarm)) => serve_at(rt, alloc, opening, &place, &mut alarm),
        _ => Ended::Failed,
    }
}
