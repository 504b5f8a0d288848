// A connection that a worker serves.
use crate::addresses::Visit;
use crate::house::{After, Asking, Comer, House, Time, Turned};
use crate::post::Doorbell;
use crate::rounds::SHAKING;
use crate::silence::{Hearing, Silence};
use json::Scratch;
use mio::net::TcpStream;
use socket_conn::{Answered, Answering, Asked, Held, Shaken, Shaking, SocketConn};
use std::alloc::Global;
use std::io::Eprint;
use std::mem;
use std::net::{Shutdown, SocketAddr};
use std::sync::{Arc, Wait};

/// How far a connection is.
#[derive(Drop)]
pub(crate) enum Stage<G: Drop> {
    /// Its request has not come whole.
    Shaking(Shaking<TcpStream>),
    /// It asked for no WebSocket, or may not come, and its response has not gone whole.
    Answering(Answering<TcpStream>),
    Open(G),
    /// At its end.
    Gone,
}

/// What is to become of a connection that was looked at.
#[derive(Clone, Copy, Debug, PartialEq, Eq)]
pub(crate) enum Look {
    /// It stays as it is.
    Fine,
    /// It is served next.
    Due,
    /// It is at its end.
    Over,
}

/// The response has gone whole. Its client hears so before the connection is dropped.
fn see_off(answering: Answering<TcpStream>) {
    let stream = answering.into_inner();
    let _ = stream.shutdown(Shutdown::Write);
    drop(stream);
}

/// A connection that a worker serves. Times are those of the worker's rounds.
#[derive(Drop)]
pub(crate) struct Client<G: Drop> {
    bell: Arc<Doorbell>,
    /// Where it comes from, where the system tells.
    address: Option<SocketAddr>,
    /// It counts as its address's until it ends.
    visit: Option<Visit>,
    stage: Stage<G>,
    /// It is among those that are served next.
    pub(crate) is_due: bool,
    /// When it came.
    came: u64,
    hearing: Hearing,
}

impl<G: Drop> Client<G> {
    pub(crate) fn new(
        bell: Arc<Doorbell>,
        address: Option<SocketAddr>,
        visit: Option<Visit>,
        shaking: Shaking<TcpStream>,
        now: u64,
    ) -> Self {
        Client {
            bell,
            address,
            visit,
            stage: Stage::Shaking(shaking),
            is_due: false,
            came: now,
            hearing: Hearing::begin(now),
        }
    }

    /// Something has come from it, and whether its end has.
    pub(crate) fn note_readable<H: House<Guest = G>>(&mut self, house: &H, ends: bool) {
        match &mut self.stage {
            Stage::Open(guest) => house.note_readable(guest, ends),
            Stage::Shaking(_) => {}
            Stage::Answering(_) => {}
            Stage::Gone => {}
        }
    }

    /// Its silence counts from now on.
    pub(crate) fn note_heard(&mut self, now: u64) {
        self.hearing.hear(now);
    }

    /// Looks whether its client is there still. One that is silent for long is pinged once, and then given up.
    pub(crate) fn look<H: House<Guest = G>, R: Eprint>(
        &mut self,
        rt: &R,
        house: &H,
        now: u64,
    ) -> Look {
        match &mut self.stage {
            Stage::Open(guest) => match self.hearing.look(house.patience(), now) {
                Silence::Fine => Look::Fine,
                Silence::Ping => {
                    self.hearing.ping(now);
                    if house.ping(guest) {
                        Look::Fine
                    } else {
                        Look::Due
                    }
                }
                Silence::End => {
                    house.hang_up(rt, guest, self.hearing.silent(now));
                    Look::Due
                }
            },
            Stage::Shaking(_) => self.look_at_request(now),
            Stage::Answering(_) => self.look_at_request(now),
            Stage::Gone => Look::Over,
        }
    }

    /// One without a session is given up where its request, and the response, have taken too long.
    fn look_at_request(&self, now: u64) -> Look {
        if now.saturating_sub(self.came) >= SHAKING {
            Look::Over
        } else {
            Look::Fine
        }
    }

    /// A turn of the connection, one of so many.
    pub(crate) fn serve<H: House<Guest = G>, R: Wait + Eprint>(
        &mut self,
        rt: &R,
        alloc: Global,
        scratch: &mut Scratch,
        house: &H,
        now: Time,
        connections: u64,
    ) -> Turned {
        self.bell.hear();
        match mem::replace(&mut self.stage, Stage::Gone) {
            Stage::Shaking(shaking) => {
                self.shake(rt, alloc, scratch, house, shaking, now, connections)
            }
            Stage::Answering(answering) => self.answer_on(answering),
            Stage::Open(guest) => self.turn(rt, scratch, house, guest, now, connections),
            Stage::Gone => Turned::gone(),
        }
    }

    /// A turn of a connection whose request has not come whole.
    fn shake<H: House<Guest = G>, R: Wait + Eprint>(
        &mut self,
        rt: &R,
        alloc: Global,
        scratch: &mut Scratch,
        house: &H,
        shaking: Shaking<TcpStream>,
        now: Time,
        connections: u64,
    ) -> Turned {
        match shaking.advance() {
            Shaken::Waits(shaking) => {
                self.come_to(Stage::Shaking(shaking));
                Turned::waits()
            }
            Shaken::Open(conn, asked) => match house.refusal(alloc, &asked) {
                Some(response) => {
                    drop(asked);
                    self.answer_on(Answering::start(conn.into_stream(), response))
                }
                None => self.enter(rt, alloc, scratch, house, conn, asked, now, connections),
            },
            Shaken::Plain(stream, request) => {
                let asking = Asking {
                    request,
                    now: now.day,
                    connections,
                };
                self.answer(rt, alloc, house, stream, asking)
            }
            Shaken::Failed => Turned::gone(),
        }
    }

    /// The first turn of a connection that may come.
    fn enter<H: House<Guest = G>, R: Wait + Eprint>(
        &mut self,
        rt: &R,
        alloc: Global,
        scratch: &mut Scratch,
        house: &H,
        conn: SocketConn<Held<TcpStream>>,
        asked: Asked,
        now: Time,
        connections: u64,
    ) -> Turned {
        let comer = Comer {
            address: self.address,
            came: now.day,
        };
        let guest = house.enter(rt, alloc, conn, &asked, comer, &self.bell);
        drop(asked);
        match guest {
            Some(guest) => self.turn(rt, scratch, house, guest, now, connections),
            None => Turned::gone(),
        }
    }

    /// The first turn of a connection that asked for no WebSocket.
    fn answer<H: House<Guest = G>, R: Wait>(
        &mut self,
        rt: &R,
        alloc: Global,
        house: &H,
        stream: TcpStream,
        asking: Asking,
    ) -> Turned {
        match house.answer(rt, alloc, asking) {
            Some(response) => self.answer_on(Answering::start(stream, response)),
            None => {
                drop(stream);
                Turned::without_change(After::Gone)
            }
        }
    }

    /// A turn of a connection whose response has not gone whole.
    fn answer_on(&mut self, mut answering: Answering<TcpStream>) -> Turned {
        let after = match answering.advance() {
            Answered::Whole => {
                see_off(answering);
                After::Gone
            }
            Answered::GoesOn => {
                self.come_to(Stage::Answering(answering));
                After::Again
            }
            Answered::Waits => {
                self.come_to(Stage::Answering(answering));
                After::Rest
            }
            Answered::Failed => {
                drop(answering);
                After::Gone
            }
        };
        Turned::without_change(after)
    }

    fn turn<H: House<Guest = G>, R: Wait + Eprint>(
        &mut self,
        rt: &R,
        scratch: &mut Scratch,
        house: &H,
        guest: G,
        now: Time,
        connections: u64,
    ) -> Turned {
        let (turned, guest) = house.turn(rt, scratch, guest, now, connections);
        if let Some(guest) = guest {
            self.come_to(Stage::Open(guest));
        }
        turned
    }

    fn come_to(&mut self, stage: Stage<G>) {
        drop(mem::replace(&mut self.stage, stage));
    }
}
