// A copy of the database while it is used: its file and its log, as they are at a moment between two commits.
ghost use Rattle.std.specs.Prelude.{◌≡◌};
ghost use Rattle.broker_parts.specs.Copies.{is_early};

use delivery_machine::{Fault, Moment, Reply};
use status_pages::BackupsSeen;
use std::alloc::Global;
use std::fs::{OpenFile, OpenOptions};
use std::io::Read;
use std::os::unix::fs::OpenOptionsExt;
use std::rt::Files;
use std::sync::atomic::{AtomicBool, AtomicU64, Ordering};
use std::sync::{Mutex, Wait};
use std::{fs, io};

/// How often the file is copied with the store free, before it is copied with the store held.
const TIMES: u32 = 3;

/// How long it is from one copy to the next, in milliseconds: whoever asks again and again fills no disk with them.
const PAUSE: u64 = 60_000;

/// Who may read and write a copy: its owner alone.
const MODE: u32 = 0o600;

/// The database's file, the folder that its copies go into, and what came of them.
pub struct Backups {
    database: String,
    folder: String,
    /// A copy was asked for, and has not been made.
    is_wanted: AtomicBool,
    made: AtomicU64,
    failed: AtomicU64,
    /// The moment of the last copy, in milliseconds since 1970; 0 before the first.
    last: AtomicU64,
    /// The moment at which a copy was begun last, whatever came of it; 0 before the first.
    begun: AtomicU64,
}

/// Whether it is too early for a copy, after one that was begun at that moment. A clock that was set back hinders none.
fn is_early(begun: u64, now: u64) -> bool
    ensures { result ≡ is_early begun now }
{
    begun > 0 && begun <= now && now - begun < PAUSE
}

impl Drop for Backups {
    fn drop(self) {
        let Backups {
            database: _,
            folder: _,
            is_wanted: _,
            made: _,
            failed: _,
            last: _,
            begun: _,
        } = self;
    }
}

impl Backups {
    /// Copies of the database go into the folder, which has to be there. None for want of memory.
    pub fn new(alloc: Global, database: &str, folder: &str) -> Option<Self> {
        let database = String::from_str(alloc, database).ok()?;
        let folder = String::from_str(alloc, folder).ok()?;
        Some(Backups {
            database,
            folder,
            is_wanted: AtomicBool::new(false),
            made: AtomicU64::new(0),
            failed: AtomicU64::new(0),
            last: AtomicU64::new(0),
            begun: AtomicU64::new(0),
        })
    }

    /// The files of the copy that is made at the moment.
    fn paths(&self, alloc: Global, now: Moment) -> Option<Paths> {
        let (file, folder, millis) = (self.database.as_str(), self.folder.as_str(), now.millis());
        let name = file.rsplit('/').next()?;
        Some(Paths {
            log: format!(in alloc; "{file}-wal").ok()?,
            part: format!(in alloc; "{folder}/{name}.{millis}.part").ok()?,
            log_part: format!(in alloc; "{folder}/{name}.{millis}.part-wal").ok()?,
            whole: format!(in alloc; "{folder}/{name}.{millis}").ok()?,
            log_whole: format!(in alloc; "{folder}/{name}.{millis}-wal").ok()?,
        })
    }

    fn seen(&self) -> BackupsSeen {
        let last = self.last.load(Ordering::SeqCst);
        BackupsSeen {
            made: self.made.load(Ordering::SeqCst),
            failed: self.failed.load(Ordering::SeqCst),
            last: if last > 0 { Some(last) } else { None },
        }
    }

    fn note(&self, copied: &Copied, now: Moment) {
        match copied {
            Copied::Whole(_) => {
                self.last.store(now.millis(), Ordering::SeqCst);
                let _ = self.made.fetch_add(1, Ordering::SeqCst);
            }
            Copied::Failed => {
                let _ = self.failed.fetch_add(1, Ordering::SeqCst);
            }
        }
        self.is_wanted.store(false, Ordering::SeqCst);
    }

    /// Whether a copy is wanted, and a minute has passed since one was begun.
    fn is_due(&self, now: Moment) -> bool {
        self.is_wanted.load(Ordering::SeqCst)
            && !is_early(self.begun.load(Ordering::SeqCst), now.millis())
    }

    /// Makes the copy that is wanted, under the database's name and the moment in milliseconds since 1970. None where none is
    /// wanted, or one was begun within the last minute. Whoever stores has the lock.
    pub fn back_up<K, R: Wait + Files>(
        &self,
        rt: &R,
        alloc: Global,
        lock: &Mutex<K>,
        now: Moment,
    ) -> Option<Copied> {
        if !self.is_due(now) {
            return None;
        }
        self.begun.store(now.millis(), Ordering::SeqCst);
        let copied = self.copied(rt, alloc, lock, now);
        self.note(&copied, now);
        Some(copied)
    }

    fn copied<K, R: Wait + Files>(
        &self,
        rt: &R,
        alloc: Global,
        lock: &Mutex<K>,
        now: Moment,
    ) -> Copied {
        let Some(paths) = self.paths(alloc, now) else {
            return Copied::Failed;
        };
        match copy_whole(rt, lock, self.database.as_str(), &paths) {
            Ok(()) => {
                let Paths {
                    log: _,
                    part: _,
                    log_part: _,
                    whole,
                    log_whole: _,
                } = paths;
                Copied::Whole(whole)
            }
            Err(_) => {
                clear_away(rt, &paths);
                drop(paths);
                Copied::Failed
            }
        }
    }
}

/// What came of the copies; nothing did where none may be made.
pub fn backups_seen(backups: &Option<Backups>) -> BackupsSeen {
    match backups {
        Some(backups) => backups.seen(),
        None => BackupsSeen {
            made: 0,
            failed: 0,
            last: None,
        },
    }
}

/// The database is to be copied, by whoever has files, a minute after the last copy at the earliest. Refused (F20) unless the
/// client is at the broker's own machine and a folder was given for copies, and (F12) while a copy is waited for.
pub fn want_backup(backups: &Option<Backups>, is_near: bool) -> Reply {
    match backups {
        Some(backups) if is_near => if backups.is_wanted.swap(true, Ordering::SeqCst) {
            Reply::Refused(Fault::SubscriptionBusy)
        } else {
            Reply::Done
        },
        _ => Reply::Refused(Fault::BadRoute),
    }
}

/// The database's log, and the files of one copy: while it is made, and once it is whole.
#[derive(Drop)]
struct Paths {
    log: String,
    part: String,
    log_part: String,
    whole: String,
    log_whole: String,
}

/// What came of a copy.
#[derive(Drop)]
pub enum Copied {
    /// It is whole, under this name.
    Whole(String),
    /// Nothing of it stays.
    Failed,
}

/// How the log begins. It begins otherwise after each checkpoint, which alone changes the database's file.
fn head_of<R: Files>(rt: &R, log: &str) -> io::Result<[u8; 32]> {
    let mut head = [0; 32];
    let mut file = fs::open(rt, log)?;
    file.read_exact(&mut head)?;
    Ok(head)
}

/// Copies a file to a new one, which its owner alone may read. What stands under the new name goes first, and is not followed
/// where it is a link: one who may write to the folder could let it lead elsewhere.
fn copy_to_new<R: Files>(rt: &R, from: &str, to: &str) -> io::Result<()> {
    let mut source = fs::open(rt, from)?;
    let _ = fs::remove_file(rt, to);
    let mut options = OpenOptions::new();
    options.write(true).create_new(true).mode(MODE);
    let mut target = options.open(rt, to)?;
    let _ = io::copy(&mut source, &mut target)?;
    Ok(())
}

/// The disk has what was copied.
fn sync<R: Files>(rt: &R, path: &str) -> io::Result<()> {
    let file = fs::open(rt, path)?;
    file.sync_all()
}

/// The copy bears its name, the database's file last: where that is, all of the copy is.
fn name_whole<R: Files>(rt: &R, paths: &Paths) -> io::Result<()> {
    sync(rt, paths.log_part.as_str())?;
    sync(rt, paths.part.as_str())?;
    fs::rename(rt, paths.log_part.as_str(), paths.log_whole.as_str())?;
    fs::rename(rt, paths.part.as_str(), paths.whole.as_str())
}

fn clear_away<R: Files>(rt: &R, paths: &Paths) {
    let _ = fs::remove_file(rt, paths.log_part.as_str());
    let _ = fs::remove_file(rt, paths.part.as_str());
    let _ = fs::remove_file(rt, paths.log_whole.as_str());
}

fn copy_whole<K, R: Wait + Files>(
    rt: &R,
    lock: &Mutex<K>,
    file: &str,
    paths: &Paths,
) -> io::Result<()> {
    copy(rt, lock, file, paths)?;
    name_whole(rt, paths)
}

fn copy<K, R: Wait + Files>(rt: &R, lock: &Mutex<K>, file: &str, paths: &Paths) -> io::Result<()> {
    for _ in 0..TIMES {
        if is_copied(rt, lock, file, paths)? {
            return Ok(());
        }
    }
    let _held = lock.lock(rt);
    copy_to_new(rt, file, paths.part.as_str())?;
    copy_to_new(rt, paths.log.as_str(), paths.log_part.as_str())?;
    Ok(())
}

/// Copies the file while others store, and then the log while nobody does. False where a checkpoint came between, which
/// changed the file meanwhile.
fn is_copied<K, R: Wait + Files>(
    rt: &R,
    lock: &Mutex<K>,
    file: &str,
    paths: &Paths,
) -> io::Result<bool> {
    let before = head_of(rt, paths.log.as_str())?;
    copy_to_new(rt, file, paths.part.as_str())?;
    let _held = lock.lock(rt);
    if head_of(rt, paths.log.as_str())? != before {
        return Ok(false);
    }
    copy_to_new(rt, paths.log.as_str(), paths.log_part.as_str())?;
    Ok(true)
}
