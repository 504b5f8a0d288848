// The workers, as the accepting thread knows them.
use crate::addresses::Addresses;
use crate::job::{Job, Start};
use crate::post::Post;
use crate::putter::{Newcomer, Putter};
use crate::troubles::{Trouble, Troubles};
use crate::worker::{Door, WAKER};
use mio::net::TcpStream;
use mio::{Poll, Waker};
use std::alloc::Global;
use std::io::Eprint;
use std::net::SocketAddr;
use std::rt::Clock;
use std::sync::atomic::{AtomicUsize, Ordering};
use std::sync::{Arc, Wait};
use std::thread;
use std::thread::{JoinHandle, Threads};

/// How many connections there may be at once.
const MOST_CONNECTIONS: usize = 65_536;

/// The stack of a worker, in bytes.
const STACK: usize = 1_048_576;

/// The workers, as the accepting thread knows them.
#[derive(Drop)]
pub(crate) struct Crew {
    posts: Vec<Arc<Post>>,
    /// How many connections there are.
    connections: Arc<AtomicUsize>,
    threads: Vec<JoinHandle<bool>>,
    door: Arc<Door>,
    putter: Putter,
    addresses: Addresses,
}

impl Crew {
    pub(crate) fn new(alloc: Global, most_per_address: Option<u32>) -> Option<Crew> {
        Some(Crew {
            posts: Vec::new(alloc),
            connections: Arc::new(alloc, AtomicUsize::new(0)).ok()?,
            threads: Vec::new(alloc),
            door: Arc::new(alloc, Door::new()).ok()?,
            putter: Putter::new(alloc)?,
            addresses: Addresses::new(alloc, most_per_address),
        })
    }

    /// Room for one more worker.
    fn make_room(&mut self) -> bool {
        self.posts.reserve(1).is_ok() && self.threads.reserve(1).is_ok()
    }

    /// What a worker at the post begins with.
    fn start_of(&mut self, poll: Poll, post: &Arc<Post>) -> Option<Start> {
        match (
            Arc::try_clone(post),
            Arc::try_clone(&self.door),
            self.putter.taker(),
        ) {
            (Ok(post), Ok(door), Some(taker)) => Some(Start {
                poll,
                post,
                taker,
                door,
            }),
            _ => None,
        }
    }

    /// Starts a worker at the poll. None where it could not be.
    fn hire<
        R: Threads + Wait + Clock + Eprint + Copy + Send + Sync + Drop + 'static,
        X: Job + Send + Sync + Drop + 'static,
    >(&mut self, rt: &R, alloc: Global, place: &Arc<X>, poll: Poll) -> Option<()> {
        if !self.make_room() {
            drop(poll);
            return None;
        }
        let post = post_for(alloc, &poll, &self.connections)?;
        let start = self.start_of(poll, &post)?;
        self.put_to_work(rt, alloc, place, post, start)
    }

    fn put_to_work<
        R: Threads + Wait + Clock + Eprint + Copy + Send + Sync + Drop + 'static,
        X: Job + Send + Sync + Drop + 'static,
    >(
        &mut self,
        rt: &R,
        alloc: Global,
        place: &Arc<X>,
        post: Arc<Post>,
        start: Start,
    ) -> Option<()> {
        let thread = spawn(rt, alloc, place, start)?;
        self.posts.push(post).ok()?;
        self.threads.push(thread).ok()
    }

    /// Starts a worker at each poll. False where one could not be.
    pub(crate) fn hire_all<
        R: Threads + Wait + Clock + Eprint + Copy + Send + Sync + Drop + 'static,
        X: Job + Send + Sync + Drop + 'static,
    >(&mut self, rt: &R, alloc: Global, place: &Arc<X>, polls: Vec<Poll>) -> bool {
        for poll in polls {
            if self.hire(rt, alloc, place, poll).is_none() {
                return false;
            }
        }
        true
    }

    /// How many connections there are.
    fn connections(&self) -> usize {
        self.connections.load(Ordering::SeqCst)
    }

    /// The worker with the fewest connections.
    fn least(&self) -> Option<usize> {
        let mut least = None;
        let mut fewest = usize::MAX;
        for at in 0..self.posts.len() {
            if let Some(post) = self.posts.get(at) {
                let count = post.connections();
                if least.is_none() || count < fewest {
                    least = Some(at);
                    fewest = count;
                }
            }
        }
        least
    }

    /// How many connections were handed to workers.
    pub(crate) fn count(&self) -> u64 {
        self.putter.count()
    }

    /// Hands the connection to the worker that has the fewest.
    fn hand_over<R: Wait>(&mut self, rt: &R, newcomer: Newcomer) -> bool {
        let Some(at) = self.least() else {
            return false;
        };
        if !self.putter.put(rt, newcomer) {
            return false;
        }
        match self.posts.get(at) {
            Some(post) => {
                post.ring_newcomer(rt);
                true
            }
            None => false,
        }
    }

    /// Takes the connection in, unless there are too many, or too many of its address. False where no more can come.
    pub(crate) fn take_in<R: Wait>(
        &mut self,
        rt: &R,
        troubles: &mut Troubles,
        stream: TcpStream,
        address: SocketAddr,
    ) -> bool {
        if self.connections() >= MOST_CONNECTIONS {
            troubles.note(Trouble::TurnedAway);
            return true;
        }
        match self.addresses.come(address.ip()) {
            Ok(visit) => {
                let _ = stream.set_nodelay(true);
                self.hand_over(rt, Newcomer { stream, visit })
            }
            Err(trouble) => {
                troubles.note(trouble);
                true
            }
        }
    }

    /// Nothing more comes: each worker ends once its connections have.
    pub(crate) fn shut<R: Wait>(&self, rt: &R) {
        self.door.shut();
        for post in self.posts.iter() {
            post.nudge(rt);
        }
    }

    /// Waits for all workers. False where one could not work.
    pub(crate) fn join<R: Threads>(self, rt: &R) -> bool {
        let mut has_worked = true;
        for thread in self.threads {
            has_worked = thread.join(rt) && has_worked;
        }
        has_worked
    }
}

/// The post of a worker, which wakes it at the poll.
fn post_for(alloc: Global, poll: &Poll, all: &Arc<AtomicUsize>) -> Option<Arc<Post>> {
    let waker = Waker::new(poll.registry(), WAKER).ok()?;
    let all = Arc::try_clone(all).ok()?;
    Arc::new(alloc, Post::new(alloc, waker, all)).ok()
}

/// A thread in which a worker works.
fn spawn<
    R: Threads + Wait + Clock + Eprint + Copy + Send + Sync + Drop + 'static,
    X: Job + Send + Sync + Drop + 'static,
>(rt: &R, alloc: Global, place: &Arc<X>, start: Start) -> Option<JoinHandle<bool>> {
    let place = Arc::try_clone(place).ok()?;
    let handle = *rt;
    thread::Builder::new()
        .stack_size(STACK)
        .spawn(rt, move || place.work(&handle, alloc, start))
        .ok()
}
