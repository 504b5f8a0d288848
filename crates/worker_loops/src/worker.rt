// The loop of a worker.
use crate::crowd::Crowd;
use crate::house::{House, Time};
use crate::post::Post;
use crate::putter::Newcomer;
use crate::rounds::{Now, Rounds};
use delivery_machine::Moment;
use handover::Taker;
use mio::{Events, Poll, Token};
use std::alloc::Global;
use std::io;
use std::io::Eprint;
use std::rt::Clock;
use std::sync::atomic::{AtomicBool, Ordering};
use std::sync::{Arc, Wait};
use std::time::Duration;

/// The token of what wakes a worker.
pub(crate) const WAKER: Token = Token(usize::MAX);

/// How many events one poll takes.
const EVENTS: usize = 512;

/// What the accepting thread tells all workers.
#[derive(Drop)]
pub(crate) struct Door {
    is_shut: AtomicBool,
}

impl Door {
    pub(crate) fn new() -> Door {
        Door {
            is_shut: AtomicBool::new(false),
        }
    }

    /// Nothing more comes.
    pub(crate) fn shut(&self) {
        self.is_shut.store(true, Ordering::SeqCst);
    }

    fn is_shut(&self) -> bool {
        self.is_shut.load(Ordering::SeqCst)
    }
}

/// A worker: one poll, and many connections.
#[derive(Drop)]
pub(crate) struct Worker<G: Drop> {
    poll: Poll,
    post: Arc<Post>,
    taker: Taker<Newcomer>,
    crowd: Crowd<G>,
    events: Events,
    /// Room for tokens that were rung, and for those that are served.
    rung: Vec<usize>,
    served: Vec<usize>,
    now: Time,
    rounds: Rounds,
}

impl<G: Drop> Worker<G> {
    pub(crate) fn new(
        alloc: Global,
        poll: Poll,
        post: Arc<Post>,
        taker: Taker<Newcomer>,
    ) -> Option<Self> {
        let events = Events::with_capacity(alloc, EVENTS).ok()?;
        let start = Moment::new(0)?;
        Some(Worker {
            poll,
            post,
            taker,
            crowd: Crowd::new(alloc),
            events,
            rung: Vec::new(alloc),
            served: Vec::new(alloc),
            now: Time {
                day: start,
                steady: start,
            },
            rounds: Rounds::new(),
        })
    }

    /// Takes in what came from other threads: bells that were rung, and connections.
    fn welcome<R: Wait>(&mut self, rt: &R) {
        self.rung.clear();
        let newcomers = self.post.take(rt, &mut self.rung);
        for at in 0..self.rung.len() {
            if let Some(token) = self.rung.get(at) {
                self.crowd.make_due(*token);
            }
        }
        for _ in 0..newcomers {
            self.admit(rt);
        }
    }

    /// Takes the connection that is next.
    fn admit<R: Wait>(&mut self, rt: &R) {
        let Some(taken) = self.taker.try_take(rt) else {
            self.post.leave();
            return;
        };
        let has_room = self
            .rung
            .reserve(self.crowd.count().saturating_add(1))
            .is_ok();
        let is_in = has_room
            && self.crowd.admit(
                rt,
                &self.poll,
                &self.post,
                taken.connection,
                self.rounds.now(),
            );
        if !is_in {
            self.post.leave();
        }
    }

    fn serve<H: House<Guest = G>, R: Wait + Eprint>(&mut self, rt: &R, house: &H) {
        let now = Now {
            time: self.now,
            millis: self.rounds.now(),
        };
        self.crowd
            .serve(rt, house, &*self.post, &now, &mut self.served);
    }

    /// Stores what waits, where that is little and nobody else does.
    fn store<H: House<Guest = G>, R: Wait + Clock + Eprint>(&mut self, rt: &R, house: &H) {
        let made = self.crowd.take_made();
        if made > 0 {
            house.help(rt, made);
        }
    }

    /// Asks what time it is.
    fn look_at_clock<H: House<Guest = G>, R: Wait + Clock>(&mut self, rt: &R, house: &H) {
        self.now = house.time(rt, self.now);
        self.rounds.look(rt);
    }

    /// Serves those that are due, and stores what they left.
    fn serve_and_store<H: House<Guest = G>, R: Wait + Clock + Eprint>(
        &mut self,
        rt: &R,
        house: &H,
    ) {
        self.welcome(rt);
        self.serve(rt, house);
        self.store(rt, house);
    }

    /// The same, and once more where bells were rung meanwhile: so what was stored is answered before the poll asks the
    /// system.
    fn serve_and_answer<H: House<Guest = G>, R: Wait + Clock + Eprint>(
        &mut self,
        rt: &R,
        house: &H,
    ) {
        self.serve_and_store(rt, house);
        if self.post.has_rung(rt) {
            self.look_at_clock(rt, house);
            self.serve_and_store(rt, house);
        }
    }

    /// How long to sleep: not at all where there is something to do.
    fn pause<R: Wait + Clock>(&mut self, rt: &R) -> Option<Duration> {
        if self.crowd.has_due() || !self.post.may_sleep(rt) {
            return Some(Duration::from_millis(0));
        }
        if self.crowd.is_empty() {
            return None;
        }
        let step = self.rounds.wait();
        let millis = match self.crowd.wait(self.now.steady) {
            Some(millis) => millis.min(step),
            None => step,
        };
        Some(Duration::from_millis(millis))
    }

    /// The connections that time has come for.
    fn look<H: House<Guest = G>, R: Eprint>(&mut self, rt: &R, house: &H) {
        self.crowd.expire(self.now.steady);
        if let Some(step) = self.rounds.step() {
            self.crowd
                .look(rt, house, &*self.post, step, self.rounds.now());
        }
    }

    /// Waits until there is something to do.
    fn wait<H: House<Guest = G>, R: Wait + Clock + Eprint>(
        &mut self,
        rt: &R,
        house: &H,
    ) -> io::Result<()> {
        let pause = self.pause(rt);
        self.poll.poll(&mut self.events, pause)?;
        self.post.wakes(rt);
        self.look_at_clock(rt, house);
        for event in self.events.iter() {
            let token = event.token();
            if token != WAKER {
                let ends = event.is_read_closed() || event.is_error();
                let is_readable = event.is_readable() || ends;
                self.crowd.note(house, token.0, is_readable, ends);
            }
        }
        self.look(rt, house);
        Ok(())
    }

    /// Whether nothing is left to do, and nothing more comes.
    fn is_over(&self, door: &Door) -> bool {
        door.is_shut() && self.crowd.is_empty() && self.post.connections() == 0
    }

    /// Serves connections until no more come and all have ended, or until the store fails.
    pub(crate) fn work<H: House<Guest = G>, R: Wait + Clock + Eprint>(
        &mut self,
        rt: &R,
        house: &H,
        door: &Door,
    ) -> io::Result<()> {
        self.look_at_clock(rt, house);
        for _ in rt.forever() {
            self.serve_and_answer(rt, house);
            if house.is_closed() {
                self.crowd.give_up(rt, house, &*self.post, &self.now);
                return Ok(());
            }
            if self.is_over(door) {
                return Ok(());
            }
            self.wait(rt, house)?;
        }
        Ok(())
    }
}
