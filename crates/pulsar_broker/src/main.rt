//! Serves topics over WebSockets: `pulsar_broker <database> <address> <workers> [connections] [word ..]`.
#![tactic(auto)]

mod arguments;
mod broker;
mod causes;
mod files;
mod help;
mod server;
mod sizes;

use arguments::{Asked, IN_MEMORY, read_arguments};
use broker::{Fate, serve_over};
use causes::{Why, say_why, why_unopened};
use endpoint_core::Admitted;
use files::has_room;
use help::HELP;
use page_file::prepare;
use row_schema::{open, open_in_memory};
use sqlite::Unknown;
use std::alloc::{AllocError, Global};
use std::env;
use std::fs::Files;
use std::io::{Eprint, ErrorKind};
use std::process::ExitCode;
use worker_pool::{Rules, VERSION};

/// How many pages the database's log has before it is copied into the file. With more of them the copies are rarer, and
/// each holds up commits for longer.
const FRAMES: usize = 1_000;

/// Why there are no words to read.
#[derive(Clone, Copy)]
enum Unread {
    /// One of them is no text.
    Wrong,
    /// A growth was refused while they were copied.
    Memory,
}

/// The words after the program's name.
fn words(rt: &HostRuntime) -> Result<Vec<String>, Unread> {
    let mut arguments = match env::args(rt) {
        Ok(arguments) => arguments,
        Err(error) if error.kind() == ErrorKind::OutOfMemory => return Err(Unread::Memory),
        Err(_) => return Err(Unread::Wrong),
    };
    arguments.next();
    arguments
        .collect::<Vec<String>>(rt.alloc())
        .map_err(|_| Unread::Memory)
}

/// Says how serving ended, and gives the status to end with.
fn ending(rt: &HostRuntime, fate: Fate) -> ExitCode {
    match fate {
        Fate::Served(count) => {
            let _ = println!(rt; "served {count}");
            ExitCode::SUCCESS
        }
        Fate::StoreFailed => {
            let _ = eprintln!(rt; "store failed");
            ExitCode::from(3)
        }
        Fate::CannotServe => {
            let _ = eprintln!(rt; "cannot serve");
            ExitCode::from(1)
        }
    }
}

/// Whether it was asked for its help or its version, which it says.
fn says_of_itself(rt: &HostRuntime, words: &[String]) -> bool {
    let [word] = words else {
        return false;
    };
    match word.as_str() {
        "--help" => {
            let _ = print!(rt; "{HELP}");
            true
        }
        "--version" => {
            let _ = println!(rt; "pulsar_broker {VERSION}");
            true
        }
        _ => false,
    }
}

/// Says how it is used, and gives the status to end with.
fn wrong_words(rt: &HostRuntime) -> ExitCode {
    let _ = eprintln!(rt; "usage: pulsar_broker database address workers [connections]");
    ExitCode::from(2)
}

/// The rules that the words ask for; none where a host or an origin is none.
fn rules_of(alloc: Global, asked: &Asked<'_>) -> Result<Option<Rules>, AllocError> {
    let Some(admitted) = Admitted::from_words(alloc, asked.hosts, asked.origins)? else {
        return Ok(None);
    };
    Ok(Some(Rules {
        admitted,
        letters: asked.letters,
        patience: asked.patience,
        per_address: asked.per_address,
        refusals: asked.refusals,
    }))
}

/// Whether the database may be opened: the disk has room beside it, and it has a file, where one can be made. Else it says so.
fn is_ready<R: Files + Eprint>(rt: &R, alloc: Global, database: &str) -> bool {
    let has_room = has_room(rt, alloc, database);
    if has_room {
        prepare(rt, alloc, database);
    } else {
        say_why(rt, database, Why::NoRoom);
    }
    has_room
}

fn main(rt: HostRuntime) -> ExitCode {
    let words = match words(&rt) {
        Ok(words) => words,
        Err(Unread::Wrong) => Vec::new(rt.alloc()),
        Err(Unread::Memory) => return ending(&rt, Fate::CannotServe),
    };
    if says_of_itself(&rt, words.as_slice()) {
        return ExitCode::SUCCESS;
    }
    let Some(asked) = read_arguments(words.as_slice()) else {
        return wrong_words(&rt);
    };
    let rules = match rules_of(rt.alloc(), &asked) {
        Ok(Some(rules)) => rules,
        Ok(None) => return wrong_words(&rt),
        Err(_) => return ending(&rt, Fate::CannotServe),
    };
    let fate = if asked.database == IN_MEMORY {
        match open_in_memory(rt.alloc()) {
            Ok(conn) => serve_over(&rt, &asked, rules, conn),
            Err(_) => {
                drop(rules);
                Fate::CannotServe
            }
        }
    } else if is_ready(&rt, rt.alloc(), asked.database) {
        match open(&rt, asked.database, Unknown, FRAMES) {
            Ok(conn) => serve_over(&rt, &asked, rules, conn),
            Err(error) => {
                drop(rules);
                let why = why_unopened(&rt, asked.database, error);
                say_why(&rt, asked.database, why);
                Fate::StoreFailed
            }
        }
    } else {
        drop(rules);
        Fate::StoreFailed
    };
    ending(&rt, fate)
}
