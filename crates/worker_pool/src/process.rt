// What Linux tells of the program as a process.
use std::io::Read;
use std::os::unix::fs::MetadataExt;
use std::rt::Files;
use std::sync::atomic::{AtomicU64, Ordering};
use std::{fs, str};

/// A page of memory, in bytes.
const PAGE: u64 = 4_096;

/// A tick of the clock that counts how long processors work, in milliseconds.
const TICK: u64 = 10;

/// How much of such a file is read.
const MOST: usize = 4_096;

/// What was told a second ago: of each 0 where it is not known.
#[derive(Drop)]
pub(crate) struct Process {
    /// How many bytes of it are in memory.
    memory: AtomicU64,
    /// File descriptors that are open, and how many may be.
    descriptors: AtomicU64,
    most_descriptors: AtomicU64,
    /// How long processors worked for it, in milliseconds.
    cpu: AtomicU64,
}

/// The number that is the word of this place, from 0 on.
fn word(text: &str, place: usize) -> Option<u64> {
    text.split_whitespace().nth(place)?.parse::<u64>().ok()
}

/// The second number counts pages.
fn memory_in(statm: &str) -> Option<u64> {
    word(statm, 1)?.checked_mul(PAGE)
}

/// The soft limit, which stands behind the name of its line.
fn most_in(limits: &str) -> Option<u64> {
    let (_, line) = limits.split_once("Max open files")?;
    word(line, 0)
}

/// In user mode and in the kernel: the twelfth and thirteenth word behind the name, which ends with the last `)`.
fn cpu_in(stat: &str) -> Option<u64> {
    let (_, words) = stat.rsplit_once(')')?;
    let ticks = word(words, 11)?.saturating_add(word(words, 12)?);
    ticks.checked_mul(TICK)
}

/// The beginning of the file; none where the system does not tell.
fn read<'a, R: Files>(rt: &R, path: &str, text: &'a mut [u8]) -> Option<&'a str> {
    let mut file = fs::open(rt, path).ok()?;
    let count = file.read(text).ok()?;
    str::from_utf8(text.get(..count)?).ok()
}

fn memory<R: Files>(rt: &R) -> Option<u64> {
    let mut text = [0; MOST];
    memory_in(read(rt, "/proc/self/statm", &mut text)?)
}

fn most_descriptors<R: Files>(rt: &R) -> Option<u64> {
    let mut text = [0; MOST];
    most_in(read(rt, "/proc/self/limits", &mut text)?)
}

fn cpu<R: Files>(rt: &R) -> Option<u64> {
    let mut text = [0; MOST];
    cpu_in(read(rt, "/proc/self/stat", &mut text)?)
}

/// How many are open: the size of the folder of them, which Linux tells from version 6.2 on.
fn descriptors<R: Files>(rt: &R) -> Option<u64> {
    Some(fs::metadata(rt, "/proc/self/fd").ok()?.len())
}

/// One more than what was told stands there; 0 where nothing was.
fn note(number: &AtomicU64, told: Option<u64>) {
    let one_more = match told {
        Some(told) => told.saturating_add(1),
        None => 0,
    };
    number.store(one_more, Ordering::SeqCst);
}

fn noted(number: &AtomicU64) -> Option<u64> {
    match number.load(Ordering::SeqCst) {
        0 => None,
        one_more => Some(one_more - 1),
    }
}

impl Process {
    pub(crate) fn new() -> Self {
        Process {
            memory: AtomicU64::new(0),
            descriptors: AtomicU64::new(0),
            most_descriptors: AtomicU64::new(0),
            cpu: AtomicU64::new(0),
        }
    }

    pub(crate) fn look<R: Files>(&self, rt: &R) {
        note(&self.memory, memory(rt));
        note(&self.descriptors, descriptors(rt));
        note(&self.most_descriptors, most_descriptors(rt));
        note(&self.cpu, cpu(rt));
    }

    pub(crate) fn memory(&self) -> Option<u64> {
        noted(&self.memory)
    }

    pub(crate) fn descriptors(&self) -> Option<u64> {
        noted(&self.descriptors)
    }

    pub(crate) fn most_descriptors(&self) -> Option<u64> {
        noted(&self.most_descriptors)
    }

    pub(crate) fn cpu(&self) -> Option<u64> {
        noted(&self.cpu)
    }
}
