// What a broker's workers ask of its directory of topics.
ghost use Rattle.std.specs.Prelude.{Result};
ghost use Rattle.position_core.specs.declared.fault.Fault.{Fault};
ghost use Rattle.delivery_machine.specs.declared.reply.Reply.{Reply};
ghost use Rattle.session_links.specs.declared.request.Request.{Request};

use crate::backup::Copied;
use crate::files::OnDisk;
use crate::notices::Notice;
use crate::visitors::Visitor;
use crate::waiting::Waiter;
use delivery_machine::{Fault, Moment, Reply, TopicName};
use session_bells::{Bell, Rest};
use session_links::Request;
use status_pages::{BrokerSeen, ProgramSeen};
use std::fmt::Display;
use std::rt::{Clock, Files};
use std::sync::{Arc, Wait};

/// What an attach comes to.
#[derive(Drop)]
pub enum Coming<X: Drop, B: Bell + Drop> {
    /// A seat was taken.
    Seated(X),
    /// The topic is opened first, piece by piece: whoever asked comes again once that has ended.
    Waits(Waiter<B>),
}

/// A directory of topics, at whose seats bells are left. But for what is answered at a seat no method says what it does, and each
/// type may be any: so whoever serves a directory, or tries one, promises no more of it, and does not know what it is made of.
pub trait Broker<B: Bell + Drop>: Drop {
    /// What may be answered to the one at a seat.
    ghost answers: { Request → Result Reply Fault → Type 0 };

    /// A seat at an open topic, until it is detached.
    type Seat: Drop;

    /// Why the store failed, or refused.
    type Cause: Display + Drop;

    /// Takes a seat at the topic, which is opened where it is not open, and leaves the bell there.
    fn attach<R: Wait>(
        &self,
        rt: &R,
        name: &TopicName,
        create: bool,
        bell: Arc<B>,
    ) -> Result<Coming<Self::Seat, B>, Fault>;

    /// Frees the seat.
    fn detach<R: Wait>(&self, rt: &R, seat: Self::Seat);

    /// The one at the seat says who it is, to those who look.
    fn introduce<R: Wait>(&self, rt: &R, seat: &Self::Seat, visitor: Visitor);

    /// What the topic, or whoever stands before it, answers to the one at the seat.
    fn call<R: Wait>(&self, rt: &R, seat: &Self::Seat, request: Request) -> Result<Reply, Fault>
        ensures { answers request result };

    /// Why the one at the seat may not stay, where it may not.
    fn refusal<R: Wait>(&self, rt: &R, seat: &Self::Seat) -> Option<Fault>;

    /// The one at the seat has nothing to do until what it waits for has come, when its bell rings. False where it has come
    /// already.
    fn rest<R: Wait>(&self, rt: &R, seat: &Self::Seat, rest: Rest) -> bool;

    /// What is seen of all topics, and of what was stored.
    fn seen<R: Wait>(&self, rt: &R, program: ProgramSeen) -> Result<BrokerSeen, Fault>;

    /// What the database takes of the disk, and whether that is as much as it may.
    fn on_disk<R: Wait>(&self, rt: &R) -> OnDisk;

    /// Topics that have rows and are not in memory are counted, to be seen.
    fn count_resting<R: Wait>(&self, rt: &R);

    /// What there is to tell, one after another, from the first on that was not told.
    fn notice<R: Wait>(&self, rt: &R) -> Option<Notice>;

    /// Why the store failed, or refused last where it has not; none where it never did.
    fn cause<R: Wait>(&self, rt: &R) -> Option<Self::Cause>;

    /// Why the topic could not be opened, where that is known still.
    fn why_unopened<R: Wait>(&self, rt: &R, name: &TopicName) -> Option<Self::Cause>;

    /// Whether the store failed, so that all is refused.
    fn is_closed(&self) -> bool;

    /// A worker, which has made so many changes, stores what waits where that is little and nobody else stores.
    fn help<R: Wait + Clock>(&self, rt: &R, made: u64);

    /// Stores what waits, until the store fails or all is finished: a thread's work.
    fn keep<R: Wait + Clock>(&self, rt: &R);

    /// What is looked at once a second: whether the time of day was set, and whether the database's files are there still. Where
    /// one is lost the store has failed.
    fn look_around<R: Wait + Clock + Files>(&self, rt: &R);

    /// The copy that is wanted of what is stored is made at the moment. None where none is wanted.
    fn back_up<R: Wait + Files>(&self, rt: &R, now: Moment) -> Option<Copied>;

    /// All that waits is stored, and then nothing more.
    fn finish<R: Wait>(&self, rt: &R);
}
