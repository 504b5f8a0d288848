// How much the clients of one address use, so that one of them does not take the place of all others.
ghost use Rattle.std.specs.Prelude.{◌≡◌};
ghost use Rattle.worker_pool.specs.Callers.{has_room};

use crate::whence::address_of;
use broker_parts::Visitor;
use delivery_machine::{Fault, TopicName};
use std::alloc::{AllocError, Global};
use std::collections::BTreeMap;
use std::net::IpAddr;
use std::sync::atomic::{AtomicBool, AtomicUsize, Ordering};
use std::sync::{Arc, Mutex, Wait};
use worker_loops::counted;

/// How much the clients of one address may use. The machine's own address may use any amount, and of IPv6 a network counts as
/// one address.
#[derive(Clone, Copy, Debug, PartialEq, Eq)]
pub struct PerAddress {
    /// How many sessions there may be at once.
    pub sessions: u32,
    /// At how many topics they may be.
    pub topics: u32,
    /// How many may begin within a second.
    pub begun: u32,
}

/// What the clients of an address use.
#[derive(Clone, Copy, Debug, PartialEq, Eq)]
struct Uses {
    sessions: usize,
    topics: usize,
    /// Some of them are at the topic that one more comes to.
    are_there: bool,
    /// How many sessions began in this second.
    begun: u32,
}

impl PerAddress {
    /// Whether one more session may begin.
    fn has_room(self, uses: Uses) -> bool
        ensures { result ≡ has_room self uses }
    {
        uses.sessions < self.sessions as usize
            && uses.begun < self.begun
            && (uses.are_there || uses.topics < self.topics as usize)
    }
}

/// A session of an address at a topic, which counts as long as this is kept.
pub(crate) struct Presence {
    sessions: Arc<AtomicUsize>,
}

impl Drop for Presence {
    fn drop(self) {
        self.sessions.fetch_sub(1, Ordering::SeqCst);
        let Presence { sessions: _ } = self;
    }
}

/// A topic that clients of an address are at, with how many sessions.
#[derive(Drop)]
struct Used {
    topic: TopicName,
    sessions: Arc<AtomicUsize>,
}

impl Used {
    fn sessions(&self) -> usize {
        self.sessions.load(Ordering::SeqCst)
    }
}

/// An address whose clients are counted.
#[derive(Drop)]
struct Caller {
    used: Vec<Used>,
    /// When the last session began, in seconds since 1970, and how many did in that second.
    second: u64,
    begun: u32,
}

impl Caller {
    fn new(alloc: Global) -> Caller {
        Caller {
            used: Vec::new(alloc),
            second: 0,
            begun: 0,
        }
    }

    /// Topics are forgotten where none of its sessions is any more, and what began in an earlier second.
    fn tidy(&mut self, second: u64) {
        self.used.retain(|used| used.sessions() > 0);
        if self.second != second {
            self.second = second;
            self.begun = 0;
        }
    }

    /// Whether nothing is counted in this second.
    fn is_gone(&self, second: u64) -> bool {
        self.second != second && self.used.iter().all(|used| used.sessions() == 0)
    }

    fn used_at(&self, topic: &TopicName) -> Option<&Used> {
        self.used.iter().find(|used| used.topic.is(topic))
    }

    fn uses(&self, topic: &TopicName) -> Uses {
        let mut sessions: usize = 0;
        for used in self.used.iter() {
            sessions = sessions.saturating_add(used.sessions());
        }
        Uses {
            sessions,
            topics: self.used.len(),
            are_there: self.used_at(topic).is_some(),
            begun: self.begun,
        }
    }

    /// How many of its sessions are at the topic.
    fn count_at(
        &mut self,
        alloc: Global,
        topic: &TopicName,
    ) -> Result<Arc<AtomicUsize>, AllocError> {
        if let Some(used) = self.used_at(topic) {
            return Arc::try_clone(&used.sessions);
        }
        self.used.reserve(1)?;
        let topic = topic.clone()?;
        match Arc::new(alloc, AtomicUsize::new(0)) {
            Ok(sessions) => self.add(topic, sessions),
            Err(error) => {
                drop(topic);
                Err(error.into())
            }
        }
    }

    /// There is room for one more.
    fn add(
        &mut self,
        topic: TopicName,
        sessions: Arc<AtomicUsize>,
    ) -> Result<Arc<AtomicUsize>, AllocError> {
        match Arc::try_clone(&sessions) {
            Ok(given) => {
                self.used.push(Used { topic, sessions })?;
                Ok(given)
            }
            Err(error) => {
                drop(topic);
                drop(sessions);
                Err(error)
            }
        }
    }

    /// One more session begins at the topic. Refused (F7) where that is more than an address may have, and (F1) for want of
    /// memory.
    fn begin(
        &mut self,
        alloc: Global,
        most: PerAddress,
        topic: &TopicName,
        second: u64,
    ) -> Result<Presence, Fault> {
        self.tidy(second);
        if !most.has_room(self.uses(topic)) {
            return Err(Fault::TooMany);
        }
        let Ok(sessions) = self.count_at(alloc, topic) else {
            return Err(Fault::NoMemory);
        };
        sessions.fetch_add(1, Ordering::SeqCst);
        self.begun = self.begun.saturating_add(1);
        Ok(Presence { sessions })
    }
}

/// An address whose clients were refused: which one was last, and how often that came since it was told.
#[derive(Clone, Copy, Debug, PartialEq, Eq)]
pub(crate) struct Refused {
    pub(crate) address: IpAddr,
    pub(crate) count: u64,
}

/// With so many addresses those are forgotten of which nothing is counted.
const FEW: usize = 1_024;

#[derive(Drop)]
struct Table {
    alloc: Global,
    callers: BTreeMap<IpAddr, Caller>,
    many: usize,
    refused: Option<Refused>,
    /// In which second a refusal was told last.
    told: Option<u64>,
}

impl Table {
    /// Addresses are forgotten of which nothing is counted, each time that there are twice as many as had some.
    fn forget_gone(&mut self, second: u64) {
        if self.callers.len() < self.many {
            return;
        }
        self.callers.retain(|_, caller| !caller.is_gone(second));
        self.many = self.callers.len().saturating_mul(2).max(FEW);
    }

    fn begin(
        &mut self,
        most: PerAddress,
        address: IpAddr,
        topic: &TopicName,
        second: u64,
    ) -> Result<Presence, Fault> {
        self.forget_gone(second);
        if let Some(caller) = self.callers.get_mut(&address) {
            return caller.begin(self.alloc, most, topic, second);
        }
        let mut caller = Caller::new(self.alloc);
        let begun = caller.begin(self.alloc, most, topic, second);
        match begun {
            Ok(presence) => self.add(address, caller, presence),
            Err(fault) => {
                drop(caller);
                Err(fault)
            }
        }
    }

    /// The address has its first session.
    fn add(
        &mut self,
        address: IpAddr,
        caller: Caller,
        presence: Presence,
    ) -> Result<Presence, Fault> {
        if self.callers.insert(address, caller).is_ok() {
            return Ok(presence);
        }
        drop(presence);
        Err(Fault::NoMemory)
    }

    fn note_refused(&mut self, address: IpAddr) {
        let count = match self.refused {
            Some(refused) => refused.count,
            None => 0,
        };
        self.refused = Some(Refused {
            address,
            count: count.saturating_add(1),
        });
    }

    fn take_refused(&mut self, second: u64) -> Option<Refused> {
        if self.told == Some(second) {
            return None;
        }
        self.told = Some(second);
        self.refused.take()
    }
}

/// The addresses whose clients are counted. The lock is held for nothing else, and none is taken under it.
pub(crate) struct Callers {
    most: PerAddress,
    has_refused: AtomicBool,
    table: Mutex<Table>,
}

impl Drop for Callers {
    fn drop(self) {
        let Callers {
            most: _,
            has_refused: _,
            table: _,
        } = self;
    }
}

impl Callers {
    pub(crate) fn new(alloc: Global, most: PerAddress) -> Callers {
        Callers {
            most,
            has_refused: AtomicBool::new(false),
            table: Mutex::new(Table {
                alloc,
                callers: BTreeMap::new(alloc),
                many: FEW,
                refused: None,
                told: None,
            }),
        }
    }

    /// The visitor comes to the topic, and counts as its address's as long as what is given is kept; nothing, where its address
    /// is not counted. Refused (F7) where its address has too much, and (F1) for want of memory.
    pub(crate) fn come<R: Wait>(
        &self,
        rt: &R,
        visitor: &Visitor,
        topic: &TopicName,
    ) -> Result<Option<Presence>, Fault> {
        let Some(address) = address_of(visitor) else {
            return Ok(None);
        };
        match counted(address) {
            Some(address) => self.count(rt, address, topic, visitor.since.millis() / 1_000),
            None => Ok(None),
        }
    }

    fn count<R: Wait>(
        &self,
        rt: &R,
        address: IpAddr,
        topic: &TopicName,
        second: u64,
    ) -> Result<Option<Presence>, Fault> {
        let mut guard = self.table.lock(rt);
        let table = &mut *guard;
        match table.begin(self.most, address, topic, second) {
            Ok(presence) => Ok(Some(presence)),
            Err(fault) => {
                table.note_refused(address);
                self.has_refused.store(true, Ordering::SeqCst);
                Err(fault)
            }
        }
    }

    /// Whether a refusal may be to be told.
    pub(crate) fn has_refused(&self) -> bool {
        self.has_refused.load(Ordering::SeqCst)
    }

    /// What may be told in this second, in which nothing was told before.
    pub(crate) fn take_refused<R: Wait>(&self, rt: &R, second: u64) -> Option<Refused> {
        let mut table = self.table.lock(rt);
        let refused = table.take_refused(second);
        self.has_refused
            .store(table.refused.is_some(), Ordering::SeqCst);
        refused
    }
}
