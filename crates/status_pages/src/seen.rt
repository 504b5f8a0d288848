// What is seen of the broker at one moment. Moments are in milliseconds since 1970.
ghost use Rattle.std.specs.Prelude.{◌≡◌, ◌+◌, ◌-◌, ◌^◌, min};

use crate::histogram::Histogram;
use position_core::Kind;

/// How many messages a topic keeps at most.
const MOST_KEPT: u64 = 1_048_576;

/// More than any fault's number.
pub const FAULTS: usize = 25;

/// What a session is for.
#[derive(Clone, Copy, Debug, PartialEq, Eq)]
pub enum Role {
    Producer,
    Consumer,
    Admin,
}

/// What a consumer has.
#[derive(Clone, Copy, Debug, PartialEq, Eq)]
pub struct Holds {
    /// Messages that were sent to it and are neither acknowledged nor given back.
    pub pending: u64,
    /// How many messages more may be sent to it now.
    pub room: u64,
}

/// A session that is at a topic.
#[derive(Clone, Drop)]
pub struct SessionSeen {
    /// Its number at the topic, by which an administrator may end it.
    pub number: u64,
    /// Where its client is, as host and port, where that is known.
    pub address: Option<String>,
    pub role: Role,
    /// When it came.
    pub since: u64,
    /// The name by which it publishes.
    pub producer: Option<String>,
    /// The subscription that it is a consumer of.
    pub subscription: Option<String>,
    /// What it has as a consumer.
    pub holds: Option<Holds>,
}

/// What is seen of a subscription. What was delivered and what came of it is counted since its topic came into memory.
#[derive(Clone, Drop)]
pub struct SubscriptionSeen {
    pub name: String,
    pub kind: Kind,
    pub consumers: u64,
    /// Messages that are neither acknowledged nor dead, and at no consumer.
    pub waiting: u64,
    /// Messages that are at a consumer.
    pub pending: u64,
    /// Messages that are acknowledged and kept.
    pub acknowledged: u64,
    /// Dead letters that are still to be moved.
    pub dead: u64,
    /// When the first message was published that is not acknowledged.
    pub oldest: Option<u64>,
    /// For how many milliseconds nobody has been in it, where that is known: it is looked at once a minute.
    pub unused: Option<u64>,
    /// Messages that were sent to a consumer, those that were sent again among them.
    pub delivered: u64,
    /// Messages that were given back, or had waited too long for an acknowledgement.
    pub redelivered: u64,
    /// Acknowledgements that were taken, one by one or up to a message.
    pub acks: u64,
    /// Messages that were given back too often, and became dead letters.
    pub deaths: u64,
}

impl SubscriptionSeen {
    /// Messages that are neither acknowledged nor dead.
    pub fn backlog(&self) -> u64
        ensures { result ≡ min (self.now.waiting + self.now.pending) (2 ^ 64 - 1) }
    {
        self.waiting.saturating_add(self.pending)
    }
}

/// A rule of a topic's own: which of its messages it keeps when all subscriptions have done with them.
#[derive(Clone, Copy, Debug, PartialEq, Eq)]
pub enum Rule {
    All,
    /// So many of the last ones.
    Messages(u64),
    /// Those that are not older than so many milliseconds.
    Millis(u64),
}

/// What is seen of a topic. What was published, refused and so on is counted since it came into memory; of one that rests, up to
/// when it left memory, and from 0 where it has not been there.
#[derive(Clone, Drop)]
pub struct TopicSeen {
    /// As `persistent://tenant/namespace/topic`.
    pub name: String,
    /// Nobody uses it and it is out of memory: its numbers are the last that it had there, or those of its rows at the start.
    pub is_resting: bool,
    /// Which messages it keeps, where it has a rule of its own.
    pub rule: Option<Rule>,
    /// Messages that are gone before the log.
    pub gone: u64,
    /// Messages of the log.
    pub kept: u64,
    /// How many bytes these have together, where that is counted.
    pub bytes: Option<u64>,
    /// All messages that are stored, those that are gone among them.
    pub durable: u64,
    /// When the first message of the log was published.
    pub oldest: Option<u64>,
    pub producers: u64,
    pub published: u64,
    pub duplicates: u64,
    pub refused: u64,
    /// Lines of the topic's journal, which is in memory alone, with the messages that were published in them.
    pub journal: u64,
    pub sessions: Vec<SessionSeen>,
    pub subscriptions: Vec<SubscriptionSeen>,
}

impl TopicSeen {
    /// How many messages have room.
    pub fn room(&self) -> u64
        ensures { result ≡ 1048576 - self.now.kept }
    {
        MOST_KEPT.saturating_sub(self.kept)
    }

    /// How many messages are kept and stored.
    pub fn kept_durable(&self) -> u64
        ensures { result ≡ self.now.durable - self.now.gone }
    {
        self.durable.saturating_sub(self.gone)
    }
}

/// How many rows were written since the start.
#[derive(Clone, Copy, Debug, PartialEq, Eq)]
pub struct Rows {
    pub inserted: u64,
    pub updated: u64,
    pub deleted: u64,
}

/// What came of the copies of the database that were asked for since the start.
#[derive(Clone, Copy, Debug, PartialEq, Eq)]
pub struct BackupsSeen {
    pub made: u64,
    /// Copies that could not be made.
    pub failed: u64,
    /// The moment of the last one that was made, which its name has.
    pub last: Option<u64>,
}

/// What is seen of the program around its topics.
#[derive(Clone, Copy, Debug, PartialEq, Eq)]
pub struct ProgramSeen {
    pub version: &'static str,
    /// When it was started.
    pub started: u64,
    pub now: u64,
    /// Connections that are open, whatever they ask for.
    pub connections: u64,
    /// How many bytes of it are in memory, where the system tells.
    pub memory: Option<u64>,
    /// It listens at an address that others than its own machine's may reach, and nobody said that it should.
    pub is_open: bool,
    /// The database takes as much of the disk as it may: publishes are refused.
    pub is_full: bool,
    /// Sessions that were refused or ended since the start, by the number of the fault. No fault has 0.
    pub refusals: [u64; FAULTS],
    /// Sessions that ended since nothing came from their clients.
    pub silenced: u64,
    /// Bytes that came from the clients of sessions behind the heads of their requests, and bytes that went to them, the answers to
    /// these among them.
    pub received: u64,
    pub sent: u64,
    /// How many bytes the database's file has, and the log beside it, where the system tells.
    pub file: Option<u64>,
    pub log: Option<u64>,
    /// File descriptors that are open, and how many may be, where the system tells.
    pub descriptors: Option<u64>,
    pub most_descriptors: Option<u64>,
    /// How long processors worked for it, in milliseconds, where the system tells.
    pub cpu: Option<u64>,
}

/// What is seen of the broker.
#[derive(Drop)]
pub struct BrokerSeen {
    pub program: ProgramSeen,
    /// Nothing is stored any more, and all is refused.
    pub is_closed: bool,
    /// How long stores took, from the first row to the disk's answer.
    pub stores: Histogram,
    pub rows: Rows,
    /// Topics that came into memory, and that left it.
    pub loads: u64,
    pub unloads: u64,
    pub backups: BackupsSeen,
    /// Those that are in memory, and those that rest.
    pub topics: Vec<TopicSeen>,
}

impl BrokerSeen {
    /// Topics that are in memory.
    pub(crate) fn in_memory(&self) -> u64 {
        self.topics.iter().filter(|topic| !topic.is_resting).count() as u64
    }

    /// Sessions that are at a topic.
    pub fn sessions(&self) -> u64 {
        let mut all: u64 = 0;
        for topic in self.topics.iter() {
            all = all.saturating_add(topic.sessions.len() as u64);
        }
        all
    }
}
