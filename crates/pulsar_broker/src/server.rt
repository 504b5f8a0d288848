// What serves the topics of one database, as the threads are given it.
use broker_dir::{Directory, Why};
use marks::Naming;
use sqlite::Alter;
use std::alloc::Global;
use std::io::Eprint;
use std::rt::{Clock, Files};
use std::sync::Wait;
use topic_core::TopicCore;
use worker_loops::{Doorbell, Job, Start};
use worker_pool::{About, Place, Rules};

/// The workers' place over the directory of one database. It is a type of its own, so that whoever starts it need not know
/// what a directory is made of.
pub struct Server<S: Alter + Drop, J: Naming> {
    place: Place<Directory<TopicCore, S, J, Doorbell>>,
}

impl<S: Alter + Drop, J: Naming> Drop for Server<S, J> {
    fn drop(self) {
        let Server { place: _ } = self;
    }
}

impl<S: Alter + Drop, J: Naming> Server<S, J> {
    pub fn new(
        alloc: Global,
        directory: Directory<TopicCore, S, J, Doorbell>,
        about: About,
        rules: Rules,
    ) -> Self {
        Server {
            place: Place::new(alloc, directory, about, rules),
        }
    }

    /// Why the store failed, or refused last where it has not; none where it never did.
    pub fn cause<R: Wait>(&self, rt: &R) -> Option<Why> {
        self.place.cause(rt)
    }
}

impl<S: Alter + Drop, J: Naming> Job for Server<S, J> {
    fn keep<R: Wait + Clock>(&self, rt: &R) {
        self.place.keep(rt);
    }

    fn work<R: Wait + Clock + Eprint>(&self, rt: &R, alloc: Global, start: Start) -> bool {
        self.place.work(rt, alloc, start)
    }

    fn attend<R: Wait + Clock + Eprint + Files>(&self, rt: &R) {
        self.place.attend(rt);
    }

    fn finish<R: Wait>(&self, rt: &R) {
        self.place.finish(rt);
    }

    fn has_failed(&self) -> bool {
        self.place.has_failed()
    }
}
