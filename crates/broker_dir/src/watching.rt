// What a directory looks at beside its topics: the time of day, and the database's files.
ghost use Rattle.std.specs.Prelude.{◌≡◌, None};

use crate::directory::Directory;
use broker_parts::{DataFiles, Lost, OnDisk};
use delivery_machine::{Moment, Opened, Retention};
use marks::Naming;
use session_bells::Bell;
use sqlite::Alter;
use std::rt::{Clock, Files};
use std::sync::Wait;

/// What topics keep that have no rule of their own, the moment that rules by age go by, where there is one, and for how long nobody
/// may be in a subscription. Only a directory tells so.
#[derive(Clone, Copy)]
pub(crate) struct Rules {
    broker: Retention,
    moment: Option<Moment>,
    expire: Option<u64>,
}

impl Rules {
    /// What a topic keeps that has no rule of its own.
    pub(crate) fn broker(&self) -> Retention
        ensures { result ≡ self.now.broker }
    {
        self.broker
    }

    /// The moment that rules by age go by.
    pub(crate) fn moment(&self) -> Option<Moment>
        ensures { result ≡ self.now.moment }
    {
        self.moment
    }

    /// For how many milliseconds nobody may be in a subscription, where that is said.
    pub(crate) fn expire(&self) -> Option<u64>
        ensures { result ≡ self.now.expire }
    {
        self.expire
    }
}

impl<T: Opened + Drop, S: Alter, J: Naming, B: Bell + Drop> Directory<T, S, J, B> {
    /// The directory's rule, and the moment now. A step of the time of day is told of.
    pub(crate) fn rules<R: Wait + Clock>(&self, rt: &R) -> Rules
        ensures broker { result.broker ≡ self.now.retention }
        ensures expire { result.expire ≡ self.now.expire }
    {
        let (moment, step) = self.steps.look(rt);
        if let Some(step) = step {
            self.counts.note_step(rt, step);
        }
        Rules {
            broker: self.retention,
            moment,
            expire: self.expire,
        }
    }

    /// The directory's rule, where nobody looks at the clock: nothing goes by its age.
    pub(crate) fn rules_without_age(&self) -> Rules
        ensures broker { result.broker ≡ self.now.retention }
        ensures age { (result.moment ≡ None) × (result.expire ≡ None) }
    {
        Rules {
            broker: self.retention,
            moment: None,
            expire: None,
        }
    }

    /// How many bytes the messages of a topic may have together now: none more where the database has what it may have of the disk.
    pub(crate) fn most_now(&self) -> Option<u64> {
        match &self.files {
            Some(files) if files.is_full() => Some(0),
            _ => self.most,
        }
    }

    /// What the database takes of the disk.
    pub(crate) fn disk<R: Wait>(&self, rt: &R) -> OnDisk {
        match &self.files {
            Some(files) => files.on_disk(rt),
            None => OnDisk::nothing(),
        }
    }

    /// Where a file of the database is lost the store has failed. Once it has, nobody looks: the first cause stays.
    pub(crate) fn look_at_files<R: Wait + Files>(&self, rt: &R) {
        let lost = match &self.files {
            Some(files) if !self.closed.is_shut() => self.loss_in(rt, files),
            _ => None,
        };
        if lost.is_some() {
            drop(self.close(rt));
        }
    }

    /// Whoever stores waits meanwhile.
    fn loss_in<R: Wait + Files>(&self, rt: &R, files: &DataFiles) -> Option<Lost> {
        let _keeper = self.keeper.lock(rt);
        files.look(rt)
    }

    /// The file of the database that was lost, where one was.
    pub(crate) fn lost<R: Wait>(&self, rt: &R) -> Option<Lost> {
        match &self.files {
            Some(files) => files.lost(rt),
            None => None,
        }
    }
}
