// The connections of a worker, and which of them are served next.
use crate::client::{Client, Look};
use crate::house::{After, House, Time, Turned};
use crate::post::{Doorbell, Post};
use crate::putter::Newcomer;
use crate::rounds::{Now, STEPS};
use crate::timers::Timers;
use delivery_machine::Moment;
use json::Scratch;
use mio::{Interest, Poll, Token};
use slab::Slab;
use socket_conn::Shaking;
use std::alloc::Global;
use std::io::Eprint;
use std::mem;
use std::sync::{Arc, Wait};

/// The connections of a worker.
#[derive(Drop)]
pub(crate) struct Crowd<G: Drop> {
    alloc: Global,
    clients: Slab<Client<G>>,
    /// Those that are served next, each once.
    due: Vec<usize>,
    timers: Timers,
    /// How many texts were taken since this was asked last.
    made: u64,
    /// What texts are read in, one after another.
    scratch: Scratch,
}

/// The connection, once the poll tells of it under the token.
fn registered(poll: &Poll, newcomer: Newcomer, token: usize) -> Option<Newcomer> {
    let mut newcomer = newcomer;
    let interest = Interest::READABLE | Interest::WRITABLE;
    match poll
        .registry()
        .register(&mut newcomer.stream, Token(token), interest)
    {
        Ok(()) => Some(newcomer),
        Err(_) => None,
    }
}

fn bell_for(alloc: Global, post: &Arc<Post>, token: usize) -> Option<Arc<Doorbell>> {
    let post = Arc::try_clone(post).ok()?;
    Arc::new(alloc, Doorbell::new(post, token)).ok()
}

/// A client whose request is to come.
fn client_of<G: Drop>(
    alloc: Global,
    post: &Arc<Post>,
    token: usize,
    newcomer: Newcomer,
    now: u64,
) -> Option<Client<G>> {
    match bell_for(alloc, post, token) {
        Some(bell) => {
            let Newcomer { stream, visit } = newcomer;
            let address = stream.peer_addr().ok();
            let shaking = Shaking::start(alloc, stream);
            Some(Client::new(bell, address, visit, shaking, now))
        }
        None => {
            drop(newcomer);
            None
        }
    }
}

impl<G: Drop> Crowd<G> {
    pub(crate) fn new(alloc: Global) -> Self {
        Crowd {
            alloc,
            clients: Slab::new(alloc),
            due: Vec::new(alloc),
            timers: Timers::new(alloc),
            made: 0,
            scratch: Scratch::new(alloc),
        }
    }

    pub(crate) fn is_empty(&self) -> bool {
        self.clients.is_empty()
    }

    pub(crate) fn count(&self) -> usize {
        self.clients.len()
    }

    pub(crate) fn has_due(&self) -> bool {
        !self.due.is_empty()
    }

    pub(crate) fn take_made(&mut self) -> u64 {
        let made = self.made;
        self.made = 0;
        made
    }

    /// The connection at the token is served next. There is room: it is there once.
    pub(crate) fn make_due(&mut self, token: usize) {
        let mut adds = false;
        if let Some(client) = self.clients.get_mut(token) {
            adds = !client.is_due;
            client.is_due = true;
        }
        if adds {
            let _ = self.due.push(token);
        }
    }

    /// The socket is ready, and whether its end has come.
    pub(crate) fn note<H: House<Guest = G>>(
        &mut self,
        house: &H,
        token: usize,
        is_readable: bool,
        ends: bool,
    ) {
        if is_readable && let Some(client) = self.clients.get_mut(token) {
            client.note_readable(house, ends);
        }
        self.make_due(token);
    }

    /// Room for one more connection, here and at the post. False for want of memory.
    fn make_room<R: Wait>(&mut self, rt: &R, post: &Post) -> bool {
        let count = self.clients.len().saturating_add(1);
        let more = count.saturating_sub(self.due.len());
        self.due.reserve(more).is_ok()
            && self.clients.reserve(1).is_ok()
            && self.timers.make_room(self.clients.vacant_key())
            && post.make_room(rt, count)
    }

    /// Takes a connection in, whose request is to come. False where it could not be.
    pub(crate) fn admit<R: Wait>(
        &mut self,
        rt: &R,
        poll: &Poll,
        post: &Arc<Post>,
        newcomer: Newcomer,
        now: u64,
    ) -> bool {
        if !self.make_room(rt, post) {
            drop(newcomer);
            return false;
        }
        let token = self.clients.vacant_key();
        match registered(poll, newcomer, token) {
            Some(newcomer) => self.begin(post, token, newcomer, now),
            None => false,
        }
    }

    /// The connection, for which there is room, comes to the token.
    fn begin(&mut self, post: &Arc<Post>, token: usize, newcomer: Newcomer, now: u64) -> bool {
        match client_of(self.alloc, post, token, newcomer, now) {
            Some(client) => self.clients.insert(client).is_ok(),
            None => false,
        }
    }

    /// Serves those that are due, once each.
    pub(crate) fn serve<H: House<Guest = G>, R: Wait + Eprint>(
        &mut self,
        rt: &R,
        house: &H,
        post: &Post,
        now: &Now,
        served: &mut Vec<usize>,
    ) {
        served.clear();
        mem::swap(&mut self.due, served);
        if self.due.reserve(self.clients.len()).is_err() {
            mem::swap(&mut self.due, served);
            return;
        }
        for token in served.iter() {
            self.serve_one(rt, house, post, now, *token);
        }
    }

    fn serve_one<H: House<Guest = G>, R: Wait + Eprint>(
        &mut self,
        rt: &R,
        house: &H,
        post: &Post,
        now: &Now,
        token: usize,
    ) {
        let Some(client) = self.clients.get_mut(token) else {
            return;
        };
        client.is_due = false;
        let connections = post.all_connections() as u64;
        let turned = client.serve(
            rt,
            self.alloc,
            &mut self.scratch,
            house,
            now.time,
            connections,
        );
        if turned.heard {
            client.note_heard(now.millis);
        }
        self.made = self.made.saturating_add(turned.made);
        self.go_on(post, token, turned);
    }

    fn go_on(&mut self, post: &Post, token: usize, turned: Turned) {
        match turned.after {
            After::Rest => {}
            After::Again => self.make_due(token),
            After::Gone => {
                self.remove(post, token);
                return;
            }
        }
        match turned.due {
            Some(millis) => self.timers.set(token, millis),
            None => self.timers.remove(token),
        }
    }

    /// How many milliseconds it is until a moment of the steady clock comes that a connection waits for.
    pub(crate) fn wait(&self, now: Moment) -> Option<u64> {
        self.timers.wait(now.millis())
    }

    /// Those are due whose moment has come by the steady clock.
    pub(crate) fn expire(&mut self, now: Moment) {
        for _ in 0..self.clients.len() {
            let Some(token) = self.timers.next(now.millis()) else {
                return;
            };
            self.make_due(token);
        }
    }

    /// Looks at the connections of a step: whose client has gone is ended.
    pub(crate) fn look<H: House<Guest = G>, R: Eprint>(
        &mut self,
        rt: &R,
        house: &H,
        post: &Post,
        step: usize,
        now: u64,
    ) {
        for at in 0..self.clients.capacity() / STEPS + 1 {
            let token = at.saturating_mul(STEPS).saturating_add(step);
            self.look_at(rt, house, post, token, now);
        }
    }

    fn look_at<H: House<Guest = G>, R: Eprint>(
        &mut self,
        rt: &R,
        house: &H,
        post: &Post,
        token: usize,
        now: u64,
    ) {
        let Some(client) = self.clients.get_mut(token) else {
            return;
        };
        match client.look(rt, house, now) {
            Look::Fine => {}
            Look::Due => self.make_due(token),
            Look::Over => self.remove(post, token),
        }
    }

    fn remove(&mut self, post: &Post, token: usize) {
        self.timers.remove(token);
        let _ = self.clients.try_remove(token);
        post.leave();
    }

    /// All connections are given up.
    pub(crate) fn give_up<H: House<Guest = G>, R: Wait + Eprint>(
        &mut self,
        rt: &R,
        house: &H,
        post: &Post,
        now: &Time,
    ) {
        for token in 0..self.clients.capacity() {
            if let Some(client) = self.clients.get_mut(token) {
                let connections = post.all_connections() as u64;
                let _ = client.serve(rt, self.alloc, &mut self.scratch, house, *now, connections);
                self.remove(post, token);
            }
        }
    }
}
