// How other threads reach a worker: bells that were rung, and connections that wait for it.
use mio::Waker;
use session_bells::Bell;
use std::alloc::Global;
use std::mem;
use std::sync::atomic::{AtomicBool, AtomicUsize, Ordering};
use std::sync::{Arc, Mutex, Wait};

#[derive(Drop)]
struct Rung {
    tokens: Vec<usize>,
    newcomers: usize,
    /// The worker looks here before it sleeps, so it needs no waking.
    is_awake: bool,
}

/// What reaches a worker from other threads.
#[derive(Drop)]
pub(crate) struct Post {
    rung: Mutex<Rung>,
    waker: Waker,
    connections: AtomicUsize,
    /// Those of all workers.
    all: Arc<AtomicUsize>,
}

impl Post {
    pub(crate) fn new(alloc: Global, waker: Waker, all: Arc<AtomicUsize>) -> Post {
        Post {
            rung: Mutex::new(Rung {
                tokens: Vec::new(alloc),
                newcomers: 0,
                is_awake: true,
            }),
            waker,
            connections: AtomicUsize::new(0),
            all,
        }
    }

    fn wake(&self, wakes: bool) {
        if wakes {
            let _ = self.waker.wake();
        }
    }

    fn ring<R: Wait>(&self, rt: &R, token: usize) {
        let mut guard = self.rung.lock(rt);
        let rung = &mut *guard;
        let _ = rung.tokens.push(token);
        let wakes = !rung.is_awake;
        rung.is_awake = true;
        drop(guard);
        self.wake(wakes);
    }

    /// A connection waits for the worker in the handover.
    pub(crate) fn ring_newcomer<R: Wait>(&self, rt: &R) {
        self.connections.fetch_add(1, Ordering::SeqCst);
        self.all.fetch_add(1, Ordering::SeqCst);
        let mut guard = self.rung.lock(rt);
        let rung = &mut *guard;
        rung.newcomers = rung.newcomers.saturating_add(1);
        let wakes = !rung.is_awake;
        rung.is_awake = true;
        drop(guard);
        self.wake(wakes);
    }

    /// The worker is to look whether all is over.
    pub(crate) fn nudge<R: Wait>(&self, rt: &R) {
        let mut guard = self.rung.lock(rt);
        let rung = &mut *guard;
        rung.is_awake = true;
        drop(guard);
        self.wake(true);
    }

    /// Room for the tokens of so many connections, each of which is here once at most. False for want of memory.
    pub(crate) fn make_room<R: Wait>(&self, rt: &R, connections: usize) -> bool {
        let mut guard = self.rung.lock(rt);
        let rung = &mut *guard;
        let more = connections.saturating_sub(rung.tokens.len());
        rung.tokens.reserve(more).is_ok()
    }

    /// Puts the tokens that were rung in the place of `tokens`, which has been emptied. How many connections wait.
    pub(crate) fn take<R: Wait>(&self, rt: &R, tokens: &mut Vec<usize>) -> usize {
        let mut guard = self.rung.lock(rt);
        let rung = &mut *guard;
        mem::swap(&mut rung.tokens, tokens);
        let newcomers = rung.newcomers;
        rung.newcomers = 0;
        newcomers
    }

    /// Whether a bell was rung that the worker has not taken.
    pub(crate) fn has_rung<R: Wait>(&self, rt: &R) -> bool {
        let mut guard = self.rung.lock(rt);
        let rung = &mut *guard;
        !rung.tokens.is_empty()
    }

    /// Whether the worker may sleep, since nothing was rung. From then on it is woken.
    pub(crate) fn may_sleep<R: Wait>(&self, rt: &R) -> bool {
        let mut guard = self.rung.lock(rt);
        let rung = &mut *guard;
        let may = rung.tokens.is_empty() && rung.newcomers == 0;
        rung.is_awake = !may;
        may
    }

    /// The worker is awake.
    pub(crate) fn wakes<R: Wait>(&self, rt: &R) {
        let mut guard = self.rung.lock(rt);
        let rung = &mut *guard;
        rung.is_awake = true;
    }

    /// How many connections it has, or will have.
    pub(crate) fn connections(&self) -> usize {
        self.connections.load(Ordering::SeqCst)
    }

    /// How many connections all workers have, or will have.
    pub(crate) fn all_connections(&self) -> usize {
        self.all.load(Ordering::SeqCst)
    }

    /// A connection has ended.
    pub(crate) fn leave(&self) {
        self.connections.fetch_sub(1, Ordering::SeqCst);
        self.all.fetch_sub(1, Ordering::SeqCst);
    }
}

/// The bell of a connection, by its token at its worker.
pub struct Doorbell {
    post: Arc<Post>,
    token: usize,
    is_rung: AtomicBool,
}

impl Drop for Doorbell {
    fn drop(self) {
        let Doorbell {
            post: _,
            token: _,
            is_rung: _,
        } = self;
    }
}

impl Doorbell {
    pub(crate) fn new(post: Arc<Post>, token: usize) -> Doorbell {
        Doorbell {
            post,
            token,
            is_rung: AtomicBool::new(false),
        }
    }

    /// What was rung so far is heard. What is rung from now on makes the connection due again.
    pub(crate) fn hear(&self) {
        self.is_rung.store(false, Ordering::SeqCst);
    }
}

impl Bell for Doorbell {
    fn ring<R: Wait>(&self, rt: &R) {
        if !self.is_rung.swap(true, Ordering::SeqCst) {
            self.post.ring(rt, self.token);
        }
    }
}
