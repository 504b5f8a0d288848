// What all workers share: the directory of topics, to whose sessions connections come.
ghost use Rattle.std.specs.Prelude.{◌≡◌, IfOk, IfSome, option_map};
ghost use Rattle.worker_pool.specs.Pages.{IsPage, Refuses, asked_of};

use crate::callers::{Callers, PerAddress};
use crate::entering::enter;
use crate::guest::{Guest, turn};
use crate::log::say_silent;
use crate::pages::{
    Page, Store, asked_of, bad_request, comes, forbidden, health, index, metrics_of, not_found,
    overview_in, overview_of,
};
use crate::process::Process;
use crate::refusals::Refusals;
use crate::refusing::Refused;
use broker_parts::{Broker, Steady, moment};
use delivery_machine::{Fault, Moment};
use endpoint_core::{Admitted, Letters};
use json::Scratch;
use mio::net::TcpStream;
use socket_conn::{Asked, Held, SocketConn, Traffic};
use status_pages::{BrokerSeen, ProgramSeen};
use std::alloc::{AllocError, Global};
use std::io::Eprint;
use std::rt::{Clock, Files};
use std::sync::atomic::{AtomicBool, AtomicU64, Ordering};
use std::sync::{Arc, Mutex, Wait};
use worker_loops::{Asking, Comer, Doorbell, House, Job, Patience, Start, Time, Turned, work_at};

/// The program's version, as its package has it too.
pub const VERSION: &str = "0.9.0";

/// What is said of the program.
#[derive(Clone, Copy)]
pub struct About {
    /// The clock that began with it.
    pub clock: Steady,
    /// It listens at an address that others than its own machine's may reach, and nobody said that it should.
    pub is_open: bool,
}

/// What the program was told of who may come, and of those who come.
#[derive(Drop)]
pub struct Rules {
    pub admitted: Admitted,
    /// Where a consumer may have its dead letters moved.
    pub letters: Letters,
    /// For how long a client may be silent.
    pub patience: Patience,
    pub per_address: PerAddress,
    /// How a refusal is told that is known before the request is accepted.
    pub refusals: Refused,
}

/// What all workers share: the directory of topics, and what is counted beside it.
pub struct Place<D: Broker<Doorbell>> {
    pub(crate) directory: D,
    about: About,
    pub(crate) rules: Rules,
    pub(crate) refusals: Refusals,
    pub(crate) callers: Callers,
    /// Held by whoever writes what is seen of all topics, so that this takes memory for one asker at a time. It comes first in the
    /// order of locks.
    looks: Mutex<()>,
    process: Process,
    /// How many sessions ended since nothing came from their clients.
    silenced: AtomicU64,
    /// How many bytes came from the clients of sessions, and went to them.
    received: AtomicU64,
    sent: AtomicU64,
    /// The topics that are not in memory were counted.
    has_counted: AtomicBool,
}

impl<D: Broker<Doorbell>> Drop for Place<D> {
    fn drop(self) {
        let Place {
            directory: _,
            about: _,
            rules: _,
            refusals: _,
            callers: _,
            looks: _,
            process: _,
            silenced: _,
            received: _,
            sent: _,
            has_counted: _,
        } = self;
    }
}

impl<D: Broker<Doorbell>> Place<D> {
    pub fn new(alloc: Global, directory: D, about: About, rules: Rules) -> Self
        ensures rules { result.rules ≡ rules }
        ensures about { result.about ≡ about }
    {
        let callers = Callers::new(alloc, rules.per_address);
        Place {
            directory,
            about,
            rules,
            refusals: Refusals::new(),
            callers,
            looks: Mutex::new(()),
            process: Process::new(),
            silenced: AtomicU64::new(0),
            received: AtomicU64::new(0),
            sent: AtomicU64::new(0),
            has_counted: AtomicBool::new(false),
        }
    }
}

impl<D: Broker<Doorbell>> Place<D> {
    /// Adds what came from the client of a session, and went to it.
    pub(crate) fn note_traffic(&self, traffic: Traffic) {
        let _ = self.received.fetch_add(traffic.received, Ordering::SeqCst);
        let _ = self.sent.fetch_add(traffic.sent, Ordering::SeqCst);
    }

    /// What is seen of the program at the moment, with so many connections.
    fn program_seen<R: Wait>(&self, rt: &R, now: Moment, connections: u64) -> ProgramSeen {
        let disk = self.directory.on_disk(rt);
        ProgramSeen {
            version: VERSION,
            started: self.about.clock.start().millis(),
            now: now.millis(),
            connections,
            memory: self.process.memory(),
            is_open: self.about.is_open,
            is_full: disk.is_full,
            refusals: self.refusals.all(rt),
            silenced: self.silenced.load(Ordering::SeqCst),
            received: self.received.load(Ordering::SeqCst),
            sent: self.sent.load(Ordering::SeqCst),
            file: disk.file,
            log: disk.log,
            descriptors: self.process.descriptors(),
            most_descriptors: self.process.most_descriptors(),
            cpu: self.process.cpu(),
        }
    }

    /// What is seen of the broker at the moment, with so many connections.
    fn seen<R: Wait>(&self, rt: &R, now: Moment, connections: u64) -> Result<BrokerSeen, Fault> {
        self.directory
            .seen(rt, self.program_seen(rt, now, connections))
    }

    /// The overview, as an administrator gets it in a session.
    pub(crate) fn overview<R: Wait>(
        &self,
        rt: &R,
        now: Moment,
        connections: u64,
    ) -> Result<String, Fault> {
        let _one = self.looks.lock(rt);
        overview_in(self.seen(rt, now, connections))
    }

    fn metrics_page<R: Wait>(
        &self,
        rt: &R,
        alloc: Global,
        now: Moment,
        connections: u64,
    ) -> Result<Vec<u8>, AllocError>
        ensures { IfOk result (λ bytes. IsPage Page.Metrics bytes.items) }
    {
        let _one = self.looks.lock(rt);
        metrics_of(alloc, self.seen(rt, now, connections))
    }

    fn overview_page<R: Wait>(
        &self,
        rt: &R,
        alloc: Global,
        now: Moment,
        connections: u64,
    ) -> Result<Vec<u8>, AllocError>
        ensures { IfOk result (λ bytes. IsPage Page.Overview bytes.items) }
    {
        let _one = self.looks.lock(rt);
        overview_of(alloc, self.seen(rt, now, connections))
    }

    /// How the store stands.
    fn store<R: Wait>(&self, rt: &R) -> Store {
        Store::of(
            self.directory.is_closed(),
            self.directory.on_disk(rt).is_full,
        )
    }

    /// The page that was asked for. No topic's lock is held while it is written.
    fn page<R: Wait>(
        &self,
        rt: &R,
        alloc: Global,
        now: Moment,
        connections: u64,
        page: Page,
    ) -> Result<Vec<u8>, AllocError>
        ensures { IfOk result (λ bytes. IsPage page bytes.items) }
    {
        match page {
            Page::Health => health(alloc, self.store(rt)),
            Page::Metrics => self.metrics_page(rt, alloc, now, connections),
            Page::Overview => self.overview_page(rt, alloc, now, connections),
            Page::Index => index(alloc),
            Page::Unknown => not_found(alloc),
            Page::Nothing => bad_request(alloc),
            Page::Forbidden => forbidden(alloc),
        }
    }

    /// Why the store failed, or refused last where it has not; none where it never did.
    pub fn cause<R: Wait>(&self, rt: &R) -> Option<D::Cause> {
        self.directory.cause(rt)
    }
}

impl<D: Broker<Doorbell>> House for Place<D> {
    type Guest = Guest<D::Seat>;

    fn time<R: Clock>(&self, rt: &R, last: Time) -> Time {
        Time {
            day: moment(rt, last.day),
            steady: self.about.clock.moment(rt, last.steady),
        }
    }

    fn patience(&self) -> Patience {
        self.rules.patience
    }

    fn refusal(&self, alloc: Global, asked: &Asked) -> Option<Vec<u8>>
        ensures { Refuses self.now.rules.admitted asked.now (option_map (λ bytes. bytes.items) result) }
    {
        if comes(&self.rules.admitted, asked) {
            return None;
        }
        match forbidden(alloc) {
            Ok(response) => Some(response),
            Err(_) => Some(Vec::new(alloc)),
        }
    }

    fn enter<R: Wait + Eprint>(
        &self,
        rt: &R,
        alloc: Global,
        conn: SocketConn<Held<TcpStream>>,
        asked: &Asked,
        comer: Comer,
        bell: &Arc<Doorbell>,
    ) -> Option<Guest<D::Seat>> {
        enter(rt, alloc, self, conn, asked, comer, bell)
    }

    fn answer<R: Wait>(&self, rt: &R, alloc: Global, asking: Asking) -> Option<Vec<u8>>
        ensures { IfSome result (λ bytes. IsPage (asked_of self.now.rules.admitted asking.request) bytes.items) }
    {
        let Asking {
            request,
            now,
            connections,
        } = asking;
        let asked = asked_of(&self.rules.admitted, &request);
        drop(request);
        self.page(rt, alloc, now, connections, asked).ok()
    }

    fn note_readable(&self, guest: &mut Guest<D::Seat>, ends: bool) {
        guest.note_readable(ends);
    }

    fn ping(&self, guest: &mut Guest<D::Seat>) -> bool {
        guest.ping()
    }

    fn hang_up<R: Eprint>(&self, rt: &R, guest: &mut Guest<D::Seat>, silent: u64) {
        let _ = self.silenced.fetch_add(1, Ordering::SeqCst);
        say_silent(rt, guest.whence(), silent);
        guest.hang_up();
    }

    fn turn<R: Wait + Eprint>(
        &self,
        rt: &R,
        scratch: &mut Scratch,
        guest: Guest<D::Seat>,
        now: Time,
        connections: u64,
    ) -> (Turned, Option<Guest<D::Seat>>) {
        turn(rt, scratch, self, guest, now, connections)
    }

    fn help<R: Wait + Clock + Eprint>(&self, rt: &R, made: u64) {
        self.directory.help(rt, made);
        self.say_news(rt);
    }

    fn is_closed(&self) -> bool {
        self.directory.is_closed()
    }
}

impl<D: Broker<Doorbell>> Job for Place<D> {
    fn keep<R: Wait + Clock>(&self, rt: &R) {
        self.directory.keep(rt);
    }

    fn work<R: Wait + Clock + Eprint>(&self, rt: &R, alloc: Global, start: Start) -> bool {
        work_at(rt, self, alloc, start)
    }

    fn attend<R: Wait + Clock + Eprint + Files>(&self, rt: &R) {
        self.process.look(rt);
        self.directory.look_around(rt);
        self.make_backup(rt);
        self.say_news(rt);
        if !self.has_counted.swap(true, Ordering::SeqCst) {
            self.directory.count_resting(rt);
        }
    }

    fn finish<R: Wait>(&self, rt: &R) {
        self.directory.finish(rt);
    }

    fn has_failed(&self) -> bool {
        self.directory.is_closed()
    }
}
