// How large the database is that the program begins with.
use std::alloc::Global;
use std::fs;
use std::rt::Files;

/// The bytes of the database's file and of its log: 0 where there is none.
#[derive(Clone, Copy, Debug, PartialEq, Eq)]
pub struct Sizes {
    pub file: u64,
    pub log: u64,
}

fn size_of<R: Files>(rt: &R, path: &str) -> u64 {
    match fs::metadata(rt, path) {
        Ok(metadata) => metadata.len(),
        Err(_) => 0,
    }
}

impl Sizes {
    pub fn of<R: Files>(rt: &R, alloc: Global, database: &str) -> Sizes {
        let log = match format!(in alloc; "{database}-wal") {
            Ok(log) => size_of(rt, log.as_str()),
            Err(_) => 0,
        };
        Sizes {
            file: size_of(rt, database),
            log,
        }
    }
}
