// The calls of a session: at its seat, and of the broker that all seats are at.
ghost use Rattle.std.specs.Prelude.{◌≡◌, None};
ghost use Rattle.session_links.specs.Links.{Tells, reply_of, with_call};
ghost use Rattle.worker_pool.specs.Dated.{dated};

use crate::place::Place;
use broker_parts::Broker;
use delivery_machine::{Event, Fault, Moment, Reply};
use session_links::{Caller, Request};
use std::sync::Wait;
use worker_loops::Doorbell;

/// Why a call was refused, where it was.
fn fault_of(answer: &Result<Reply, Fault>) -> Option<Fault> {
    match answer {
        Ok(Reply::Refused(fault)) => Some(*fault),
        Err(fault) => Some(*fault),
        _ => None,
    }
}

/// The calls of the one at a seat.
#[derive(Drop)]
pub(crate) struct Seated<'a, D: Broker<Doorbell>, R: Wait> {
    rt: &'a R,
    directory: &'a D,
    seat: &'a D::Seat,
    /// Why the last call was refused, where it was.
    refused: Option<Fault>,
}

impl<'a, D: Broker<Doorbell>, R: Wait> Seated<'a, D, R> {
    pub(crate) fn at(rt: &'a R, directory: &'a D, seat: &'a D::Seat) -> Self {
        Seated {
            rt,
            directory,
            seat,
            refused: None,
        }
    }

    /// Why the last call was refused, where it was.
    pub(crate) fn refused(&self) -> Option<Fault>
        ensures { result ≡ self.now.refused }
    {
        self.refused
    }
}

impl<'a, D: Broker<Doorbell>, R: Wait> Caller for Seated<'a, D, R> {
    ghost use Rattle.std.specs.Prelude.{None};

    ghost calls = { λ c. None };

    fn call(&mut self, request: Request) -> Result<Reply, Fault>
        ensures tells { Tells (with_call (record { request = request; reply = reply_of result })) None None }
        ensures answers { D.answers request result }
    {
        let answer = self.directory.call(self.rt, self.seat, request);
        self.refused = fault_of(&answer);
        answer
    }

    /// Whoever sits at one topic sees no others.
    fn overview(&mut self) -> Result<String, Fault> {
        Err(Fault::BadRoute)
    }
}

/// The request, where a publish is of this time of day. All else that a session asks runs by the clock that nobody sets.
fn dated(request: Request, day: Moment) -> Request
    ensures { result ≡ dated day request }
{
    match request {
        Request::Event(
            Event::Publish {
                producer,
                sequence,
                body,
                now: _,
            },
        ) => Request::Event(Event::Publish {
            producer,
            sequence,
            body,
            now: day,
        }),
        request => request,
    }
}

/// The calls of a session, at that time of day, which sees the broker as it is, with so many connections.
#[derive(Drop)]
pub(crate) struct Desk<'a, D: Broker<Doorbell>, R: Wait> {
    seated: Seated<'a, D, R>,
    rt: &'a R,
    place: &'a Place<D>,
    day: Moment,
    connections: u64,
}

impl<'a, D: Broker<Doorbell>, R: Wait> Desk<'a, D, R> {
    pub(crate) fn at(
        rt: &'a R,
        place: &'a Place<D>,
        seat: &'a D::Seat,
        day: Moment,
        connections: u64,
    ) -> Self {
        Desk {
            seated: Seated::at(rt, &place.directory, seat),
            rt,
            place,
            day,
            connections,
        }
    }
}

impl<'a, D: Broker<Doorbell>, R: Wait> Caller for Desk<'a, D, R> {
    ghost use Rattle.std.specs.Prelude.{None};

    ghost calls = { λ c. None };

    fn call(&mut self, request: Request) -> Result<Reply, Fault>
        ensures tells { Tells (with_call (record { request = request; reply = reply_of result })) None None }
        ensures answers { D.answers (dated self.old.day request) result }
    {
        self.seated.call(dated(request, self.day))
    }

    /// No topic's lock is held while the text is written.
    fn overview(&mut self) -> Result<String, Fault> {
        self.place.overview(self.rt, self.day, self.connections)
    }
}
