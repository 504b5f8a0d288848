// What the program's arguments ask for.
use delivery_machine::{KeptAge, KeptMessages, Retention};
use endpoint_core::Letters;
use worker_pool::{Patience, PerAddress, Refused};

/// What is to be served, and where.
#[derive(Clone, Copy, Debug, PartialEq, Eq)]
pub struct Asked<'a> {
    pub database: &'a str,
    /// As the listener is given it, and as it is printed.
    pub address: &'a str,
    /// From 1 to 256.
    pub workers: u32,
    /// After how many connections to end, at most 2^61.
    pub connections: Option<u64>,
    /// What a topic keeps that has no rule of its own.
    pub keep: Retention,
    /// The folder that copies of the database go into, where any may be made.
    pub backup: Option<&'a str>,
    /// Others than the machine's own may come, and that is meant.
    pub is_open: bool,
    /// Hosts by whose names the broker may be asked, and origins whose pages may ask, each behind a comma.
    pub hosts: &'a str,
    pub origins: &'a str,
    pub letters: Letters,
    pub patience: Patience,
    pub per_address: PerAddress,
    /// How many bytes the messages of a topic may have that are kept; any number where there is no most.
    pub most: Option<u64>,
    /// How many bytes of the disk the database may take, where that is said.
    pub disk: Option<u64>,
    /// For how many milliseconds nobody may be in a subscription, where that is said.
    pub expire: Option<u64>,
    /// How a refusal is told that is known before the request is accepted.
    pub refusals: Refused,
}

/// The database that is held in memory, and gone with the program.
pub const IN_MEMORY: &str = ":memory:";

const MOST_WORKERS: u64 = 256;

const MOST_CONNECTIONS: u64 = 2_305_843_009_213_693_952;

const MOST_MESSAGES: u64 = 1_048_576;

const MOST_MILLIS: u64 = 253_402_300_799_999;

const MILLIS_A_DAY: u64 = 86_400_000;

const MOST_DAYS: u64 = 36_525;

/// How long a client may be silent: from a second to a day.
const LEAST_SILENCE: u64 = 1_000;

const MOST_SILENCE: u64 = 86_400_000;

/// What one address may have where nothing is said: more than a program needs, a quarter of all connections, and three quarters
/// of the topics that may be in use.
const PER_ADDRESS: PerAddress = PerAddress {
    sessions: 16_384,
    topics: 192,
    begun: 4_096,
};

const MOST_PER_ADDRESS: u64 = 65_536;

const MOST_BYTES: u64 = 2_305_843_009_213_693_952;

/// A decimal number with neither a sign nor leading zeros, up to a limit.
fn number(word: &str, most: u64) -> Option<u64> {
    let digits = word.as_bytes();
    let is_plain = digits.iter().all(|digit| digit.is_ascii_digit());
    if !is_plain || (digits.len() > 1 && digits.first() == Some(&b'0')) {
        return None;
    }
    match word.parse::<u64>() {
        Ok(number) if number <= most => Some(number),
        _ => None,
    }
}

/// How many workers a word asks for.
fn workers(word: &str) -> Option<u32> {
    match number(word, MOST_WORKERS)? {
        0 => None,
        count => u32::try_from(count).ok(),
    }
}

fn messages(word: &str) -> Option<Retention> {
    let count = u32::try_from(number(word, MOST_MESSAGES)?).ok()?;
    Some(Retention::Messages(KeptMessages::new(count)?))
}

fn age(word: &str) -> Option<Retention> {
    Some(Retention::Age(KeptAge::new(number(word, MOST_MILLIS)?)?))
}

/// What a rule says to keep: `all`, so many messages, or those of so many milliseconds, as `86400000ms`.
fn rule(word: &str) -> Option<Retention> {
    if word == "all" {
        return Some(Retention::All);
    }
    match word.strip_suffix("ms") {
        Some(millis) => age(millis),
        None => messages(word),
    }
}

/// For how long nobody may be in a subscription, as `30d` or `86400000ms`.
fn expiry(word: &str) -> Option<u64> {
    match word.strip_suffix('d') {
        Some(days) => number(days, MOST_DAYS)?.checked_mul(MILLIS_A_DAY),
        None => number(word.strip_suffix("ms")?, MOST_MILLIS),
    }
}

/// A number of milliseconds that a client may be silent, as `30000ms`.
fn silence(word: &str) -> Option<u64> {
    let millis = number(word.strip_suffix("ms")?, MOST_SILENCE)?;
    if millis >= LEAST_SILENCE {
        Some(millis)
    } else {
        None
    }
}

/// After how long a client is pinged, and how long after that its session ends, as `30000ms,45000ms`.
fn patience(word: &str) -> Option<Patience> {
    let (ping, end) = word.split_once(',')?;
    Some(Patience {
        ping: silence(ping)?,
        end: silence(end)?,
    })
}

fn count(word: &str) -> Option<u32> {
    u32::try_from(number(word, MOST_PER_ADDRESS)?).ok()
}

/// How many connections one address may have, and behind them at how many topics, and how many may begin within a second, as
/// `16384,192,4096`. What is not said is as usual.
fn per_address(word: &str) -> Option<PerAddress> {
    let Some((sessions, others)) = word.split_once(',') else {
        return Some(PerAddress {
            sessions: count(word)?,
            topics: PER_ADDRESS.topics,
            begun: PER_ADDRESS.begun,
        });
    };
    let (topics, begun) = others.split_once(',')?;
    Some(PerAddress {
        sessions: count(sessions)?,
        topics: count(topics)?,
        begun: count(begun)?,
    })
}

fn letters(word: &str) -> Option<Letters> {
    if word == "own" {
        Some(Letters::Own)
    } else {
        None
    }
}

fn refusals(word: &str) -> Option<Refused> {
    if word == "http" {
        Some(Refused::Status)
    } else {
        None
    }
}

/// What the words ask for that have names, in any order.
#[derive(Clone, Copy, Debug, PartialEq, Eq)]
struct Named<'a> {
    keep: Option<Retention>,
    backup: Option<&'a str>,
    is_open: bool,
    hosts: Option<&'a str>,
    origins: Option<&'a str>,
    letters: Option<Letters>,
    patience: Option<Patience>,
    per_address: Option<PerAddress>,
    most: Option<u64>,
    disk: Option<u64>,
    expire: Option<u64>,
    refusals: Option<Refused>,
}

/// The value, where there is none yet: a word stands once.
fn once<T: Copy>(before: Option<T>, value: T) -> Option<Option<T>> {
    match before {
        Some(_) => None,
        None => Some(Some(value)),
    }
}

fn non_empty(word: &str) -> Option<&str> {
    if word.is_empty() { None } else { Some(word) }
}

impl<'a> Named<'a> {
    fn nothing() -> Self {
        Named {
            keep: None,
            backup: None,
            is_open: false,
            hosts: None,
            origins: None,
            letters: None,
            patience: None,
            per_address: None,
            most: None,
            disk: None,
            expire: None,
            refusals: None,
        }
    }

    /// Others than the machine's own may come. None where that was said before.
    fn open(&mut self) -> Option<()> {
        if self.is_open {
            return None;
        }
        self.is_open = true;
        Some(())
    }

    /// Takes one more word. None where it has no such name or value, or stands twice.
    fn take(&mut self, word: &'a str) -> Option<()> {
        if word == "open" {
            return self.open();
        }
        let (name, value) = word.split_once('=')?;
        match name {
            "keep" => self.keep = once(self.keep, rule(value)?)?,
            "backup" => self.backup = once(self.backup, non_empty(value)?)?,
            "hosts" => self.hosts = once(self.hosts, non_empty(value)?)?,
            "origins" => self.origins = once(self.origins, non_empty(value)?)?,
            "letters" => self.letters = once(self.letters, letters(value)?)?,
            "per-address" => self.per_address = once(self.per_address, per_address(value)?)?,
            "most" => self.most = once(self.most, number(value, MOST_BYTES)?)?,
            "disk" => self.disk = once(self.disk, number(value, MOST_BYTES)?)?,
            "expire" => self.expire = once(self.expire, expiry(value)?)?,
            "refusals" => self.refusals = once(self.refusals, refusals(value)?)?,
            "silence" => self.patience = once(self.patience, patience(value)?)?,
            _ => return None,
        }
        Some(())
    }

    /// Takes all of them.
    fn read(&mut self, words: &'a [String]) -> Option<()> {
        for word in words {
            self.take(word.as_str())?;
        }
        Some(())
    }
}

/// After how many connections to end, where the first word says so, and the words behind it.
fn split_connections(words: &[String]) -> Option<(Option<u64>, &[String])> {
    match words.split_first() {
        Some((first, others)) if first.as_str().starts_with(|c: char| c.is_ascii_digit()) => Some((
            Some(number(first.as_str(), MOST_CONNECTIONS)?),
            others,
        )),
        _ => Some((None, words)),
    }
}

/// What the words after the program's name ask for. None where they are wrong. Without a rule all is kept, and without a
/// folder no copies are made; none can be made of what is held in memory.
pub fn read_arguments(words: &[String]) -> Option<Asked<'_>> {
    let (database, address) = (words.first()?.as_str(), words.get(1)?.as_str());
    let workers = workers(words.get(2)?.as_str())?;
    let (connections, words) = split_connections(words.get(3..)?)?;
    let mut named = Named::nothing();
    named.read(words)?;
    if database == IN_MEMORY && (named.backup.is_some() || named.disk.is_some()) {
        return None;
    }
    Some(Asked {
        database,
        address,
        workers,
        connections,
        keep: named.keep.unwrap_or(Retention::All),
        backup: named.backup,
        is_open: named.is_open,
        hosts: named.hosts.unwrap_or(""),
        origins: named.origins.unwrap_or(""),
        letters: named.letters.unwrap_or(Letters::Anywhere),
        patience: named.patience.unwrap_or(Patience::usual()),
        per_address: named.per_address.unwrap_or(PER_ADDRESS),
        most: named.most,
        disk: named.disk,
        expire: named.expire,
        refusals: named.refusals.unwrap_or(Refused::Close),
    })
}
