// The database's files: whether they are there still, as the broker left them, and how much of the disk they take.
ghost use Rattle.std.specs.Prelude.{◌≡◌, if◌then◌else◌, is_some};
ghost use Rattle.broker_parts.specs.Losses.{first_lost, is_cut, loss_by, loss_of};

use std::alloc::Global;
use std::io::{ErrorKind, Read};
use std::os::unix::fs::MetadataExt;
use std::rt::Files;
use std::sync::atomic::{AtomicBool, Ordering};
use std::sync::{Mutex, Wait};
use std::{fmt, fs, io};

/// What is known of a file: which one it is, and how long.
#[derive(Clone, Copy, Debug, PartialEq, Eq)]
struct Known {
    dev: u64,
    ino: u64,
    len: u64,
    /// How often it has begun anew: a log says so in its head, and has none where it was cut. The database's file never does.
    round: Option<u64>,
}

/// What has become of a file that the broker writes.
#[derive(Clone, Copy, Debug, PartialEq, Eq)]
pub enum Loss {
    /// No file has its name.
    Gone,
    /// Another file has its name.
    Replaced,
    /// It is shorter than it was, and did not begin anew.
    Short,
}

/// A file of the database that was lost.
#[derive(Clone, Copy, Debug, PartialEq, Eq)]
pub struct Lost {
    /// It is the log, and not the database's file.
    pub is_log: bool,
    pub loss: Loss,
}

impl fmt::Display for Lost {
    fn fmt<W: fmt::Write>(&self, f: &mut fmt::Formatter<W>) -> fmt::Result {
        f.write_str(if self.is_log {
            "the database's log "
        } else {
            "the database's file "
        })?;
        f.write_str(match self.loss {
            Loss::Gone => "is gone",
            Loss::Replaced => "is another one",
            Loss::Short => "is shorter than what was written",
        })
    }
}

/// What has become of the file of which that was known, and this is found now. A file that was never seen is no loss.
fn loss_of(before: Option<Known>, found: Option<Known>) -> Option<Loss>
    ensures { result ≡ loss_of before found }
{
    match (before, found) {
        (None, _) => None,
        (Some(_), None) => Some(Loss::Gone),
        (Some(before), Some(found)) => loss_by(before, found),
    }
}

fn loss_by(before: Known, found: Known) -> Option<Loss>
    ensures { result ≡ loss_by before found }
{
    if before.dev != found.dev || before.ino != found.ino {
        Some(Loss::Replaced)
    } else if is_cut(before, found) {
        Some(Loss::Short)
    } else {
        None
    }
}

/// The length of a log with nothing in it, to which it is cut where it is empty.
const EMPTY: u64 = 41;

/// Whether the file was cut: its head is gone, or it is shorter although it did not begin anew.
fn is_cut(before: Known, found: Known) -> bool
    ensures { result ≡ is_cut before found }
{
    match (before.round, found.round) {
        (None, _) => false,
        (Some(_), None) => true,
        (Some(round), Some(now)) => round == now && found.len < before.len && found.len != EMPTY,
    }
}

/// How a log begins, as SQLite has it.
const LOG_HEAD: [u8; 3] = [0x37, 0x7f, 6];

/// How often a log has begun anew, as the fourth number of its head says. None where it is no log's head: what is written after a log
/// was cut stands behind zeros.
fn round_in_head(head: &[u8; 32]) -> Option<u64> {
    if head[..3] == LOG_HEAD[..] {
        Some(number_in(&head[12..16]))
    } else {
        None
    }
}

/// How often the log has begun anew. None where it has no head.
fn round_of<R: Files>(rt: &R, log: &str) -> io::Result<Option<u64>> {
    let mut head = [0; 32];
    let mut file = fs::open(rt, log)?;
    match file.read_exact(&mut head) {
        Ok(()) => Ok(round_in_head(&head)),
        Err(error) if error.kind() == ErrorKind::UnexpectedEof => Ok(None),
        Err(error) => Err(error),
    }
}

/// Which of the two a file is.
#[derive(Clone, Copy, Debug, PartialEq, Eq)]
enum Part {
    Database,
    Log,
}

fn round_in<R: Files>(rt: &R, path: &str, part: Part) -> io::Result<Option<u64>> {
    match part {
        Part::Database => Ok(Some(0)),
        Part::Log => round_of(rt, path),
    }
}

/// The file at the path, where one is there. An error where the system does not tell.
fn find<R: Files>(rt: &R, path: &str, part: Part) -> io::Result<Option<Known>> {
    match fs::metadata(rt, path) {
        Ok(found) => Ok(Some(Known {
            dev: found.dev(),
            ino: found.ino(),
            len: found.len(),
            round: round_in(rt, path, part)?,
        })),
        Err(error) if error.kind() == ErrorKind::NotFound => Ok(None),
        Err(error) => Err(error),
    }
}

/// A number of some bytes, the greatest first.
fn number_in(bytes: &[u8]) -> u64 {
    let mut number: u64 = 0;
    for byte in bytes {
        number = number.wrapping_mul(256).wrapping_add(u64::from(*byte));
    }
    number
}

/// How many bytes of the database's file are free for new rows: the pages that its head, as of its last checkpoint, counts as free.
fn free_in(head: &[u8; 100]) -> u64 {
    let size = match number_in(&head[16..18]) {
        1 => 65_536,
        size => size,
    };
    number_in(&head[36..40]).saturating_mul(size)
}

/// The same of the file at the path; 0 where the system does not tell.
fn free_at<R: Files>(rt: &R, path: &str) -> u64 {
    let mut head = [0; 100];
    let Ok(mut file) = fs::open(rt, path) else {
        return 0;
    };
    match file.read_exact(&mut head) {
        Ok(()) => free_in(&head),
        Err(_) => 0,
    }
}

/// What has become of the file since it was last looked at. Where the system does not tell, nothing is concluded.
fn look_at<R: Files>(rt: &R, path: &str, part: Part, known: &mut Option<Known>) -> Option<Loss> {
    match find(rt, path, part) {
        Ok(found) => note_found(known, found),
        Err(_) => None,
    }
}

/// This is found now. What was known of a file that is lost stays known, so that it is lost at the next look too.
fn note_found(known: &mut Option<Known>, found: Option<Known>) -> Option<Loss>
    ensures loss { result ≡ loss_of known.old found }
    ensures known { known.new ≡ if is_some result then known.old else found }
{
    let loss = loss_of(*known, found);
    if loss.is_none() {
        *known = found;
    }
    loss
}

/// What is lost of both; of the file first.
fn first_lost(of_file: Option<Loss>, of_log: Option<Loss>) -> Option<Lost>
    ensures { result ≡ first_lost of_file of_log }
{
    match (of_file, of_log) {
        (Some(loss), _) => Some(Lost {
            is_log: false,
            loss,
        }),
        (None, Some(loss)) => Some(Lost { is_log: true, loss }),
        (None, None) => None,
    }
}

/// What was found at the last look, and what is lost since.
#[derive(Clone, Copy, Debug, PartialEq, Eq)]
struct Last {
    database: Option<Known>,
    log: Option<Known>,
    lost: Option<Lost>,
}

/// What the two take of the disk.
#[derive(Clone, Copy, Debug, PartialEq, Eq)]
pub struct OnDisk {
    /// How many bytes they have, where that is known.
    pub file: Option<u64>,
    pub log: Option<u64>,
    /// They take as much as they may: publishes are refused.
    pub is_full: bool,
}

impl OnDisk {
    /// Nothing is on a disk.
    pub fn nothing() -> OnDisk {
        OnDisk {
            file: None,
            log: None,
            is_full: false,
        }
    }
}

fn length_of(known: Option<Known>) -> Option<u64> {
    match known {
        Some(known) => Some(known.len),
        None => None,
    }
}

/// Whether what they take, less what is free for new rows, is as much as it may be.
fn fills(file: Option<u64>, log: Option<u64>, free: u64, most: u64) -> bool {
    let both = file.unwrap_or(0).saturating_add(log.unwrap_or(0));
    both.saturating_sub(free) >= most
}

/// The database's file and its log, which are to stay what they are while the broker has them. Its lock is a leaf.
pub struct DataFiles {
    database: String,
    log: String,
    last: Mutex<Last>,
    /// How many bytes of the disk they may take, where that is said.
    most: Option<u64>,
    is_full: AtomicBool,
}

impl Drop for DataFiles {
    fn drop(self) {
        let DataFiles {
            database: _,
            log: _,
            last: _,
            most: _,
            is_full: _,
        } = self;
    }
}

impl DataFiles {
    /// Those of the database at the path, and how many bytes of the disk they may take, where that is said. None for want of memory.
    pub fn new(alloc: Global, database: &str, most: Option<u64>) -> Option<Self> {
        let log = format!(in alloc; "{database}-wal").ok()?;
        let database = String::from_str(alloc, database).ok()?;
        Some(DataFiles {
            database,
            log,
            last: Mutex::new(Last {
                database: None,
                log: None,
                lost: None,
            }),
            most,
            is_full: AtomicBool::new(false),
        })
    }

    /// Which one was lost since the last look. Nothing is stored meanwhile: whoever stores cuts a log that begins anew.
    pub fn look<R: Wait + Files>(&self, rt: &R) -> Option<Lost> {
        let mut guard = self.last.lock(rt);
        let last = &mut *guard;
        let of_file = look_at(
            rt,
            self.database.as_str(),
            Part::Database,
            &mut last.database,
        );
        let of_log = look_at(rt, self.log.as_str(), Part::Log, &mut last.log);
        let lost = first_lost(of_file, of_log);
        if lost.is_some() {
            last.lost = lost;
        }
        drop(guard);
        self.look_for_room(rt);
        lost
    }

    /// Whether they take as much of the disk as they may.
    fn look_for_room<R: Wait + Files>(&self, rt: &R) {
        if let Some(most) = self.most {
            let free = free_at(rt, self.database.as_str());
            let now = self.on_disk(rt);
            let is_full = fills(now.file, now.log, free, most);
            self.is_full.store(is_full, Ordering::SeqCst);
        }
    }

    /// Whether they took as much of the disk as they may, at the last look.
    pub fn is_full(&self) -> bool {
        self.is_full.load(Ordering::SeqCst)
    }

    /// What they took of the disk at the last look.
    pub fn on_disk<R: Wait>(&self, rt: &R) -> OnDisk {
        let last = self.last.lock(rt);
        OnDisk {
            file: length_of(last.database),
            log: length_of(last.log),
            is_full: self.is_full(),
        }
    }

    /// Which one was found to be lost.
    pub fn lost<R: Wait>(&self, rt: &R) -> Option<Lost> {
        let last = self.last.lock(rt);
        last.lost
    }
}
