// A database, the topics in it, and those who serve them at an address.
ghost use Rattle.std.specs.Prelude.{◌≡◌, IsTrue};
ghost use Rattle.sqlite.specs.State.{HasCleanDisk};
ghost use Rattle.sqlite.specs.Held.{state};
ghost use Rattle.row_tables.specs.Ready.{AreKeyed};

use crate::arguments::{Asked, IN_MEMORY};
use crate::causes::{Why, say_why};
use crate::server::Server;
use crate::sizes::Sizes;
use broker_dir::{Directory, Terms};
use broker_parts::{Backups, DataFiles, Steady};
use marks::{Naming, Unnamed};
use position_core::LedgerSize;
use row_store::Keeper;
use sqlite::{Alter, Connection};
use std::alloc::{AllocGlobal, Global};
use std::io::{Eprint, Print};
use std::marker::Brand;
use std::net::{Net, TcpListener, TcpStream};
use std::rt::{Clock, Files};
use std::sync::{Arc, Wait};
use std::thread::Threads;
use stored_cell::{Note, Notes};
use topic_core::TopicCore;
use topic_shared::{LineLimit, SeatCount};
use worker_pool::{About, Doorbell, Ended, Limits, Rules, VERSION, serve};

/// How the program ends.
#[derive(Clone, Copy, Debug, PartialEq, Eq)]
pub enum Fate {
    /// So many connections were served.
    Served(u64),
    /// The database is not one of ours, or answered an error.
    StoreFailed,
    /// The address could not be had, or a thread, or memory.
    CannotServe,
}

/// What each topic begins with.
const LEDGER_SIZE: u32 = 50_000;

const LINES: u32 = 16_777_216;

const SEATS: u32 = 1_024;

fn terms() -> Option<Terms> {
    Some(Terms {
        ledger_size: LedgerSize::new(LEDGER_SIZE)?,
        lines: LineLimit::new(LINES)?,
        seats: SeatCount::new(SEATS)?,
    })
}

/// How the program ends, as serving did.
fn fate_of(ended: Ended) -> Fate {
    match ended {
        Ended::Served(count) => Fate::Served(count),
        Ended::StoreFailed => Fate::StoreFailed,
        Ended::Failed => Fate::CannotServe,
    }
}

/// Whether others than the machine's own may come to the listener, although nobody said that they should.
fn is_open_to_others(asked: &Asked<'_>, listener: &TcpListener) -> bool {
    match listener.local_addr() {
        Ok(address) => !asked.is_open && !address.ip().to_canonical().is_loopback(),
        Err(_) => false,
    }
}

/// Where the listener is, with the port that was taken; none where the system does not tell, or for want of memory.
fn place_of(alloc: Global, listener: &TcpListener) -> Option<String> {
    listener.local_addr().ok()?.to_string(alloc).ok()
}

/// Says that it was started, and with what.
fn say_started<R: Eprint + Files>(
    rt: &R,
    alloc: Global,
    asked: &Asked<'_>,
    listener: &TcpListener,
) {
    let Sizes { file, log } = Sizes::of(rt, alloc, asked.database);
    let place = place_of(alloc, listener);
    let address = match &place {
        Some(place) => place.as_str(),
        None => asked.address,
    };
    let _ = eprintln!(rt;
        "level=info msg=\"started\" version={VERSION} database={} bytes={file} log_bytes={log} address={address} workers={}",
        asked.database, asked.workers
    );
    if is_open_to_others(asked, listener) {
        let _ = eprintln!(rt;
            "level=warn msg=\"open to everybody who reaches this address\" address={address}"
        );
    }
}

/// Says why serving ended, where the store failed.
fn say_end<S: Alter + Drop, J: Naming, R: Wait + Eprint>(
    rt: &R,
    asked: &Asked<'_>,
    server: &Server<S, J>,
    ended: Ended,
) {
    if ended == Ended::StoreFailed
        && let Some(cause) = server.cause(rt)
    {
        say_why(rt, asked.database, Why::Ended(cause));
    }
}

/// The directory with what was asked for beside its topics. None for want of memory.
fn equipped<S: Alter + Drop, J: Naming>(
    alloc: Global,
    directory: Directory<TopicCore, S, J, Doorbell>,
    asked: &Asked<'_>,
) -> Option<Directory<TopicCore, S, J, Doorbell>> {
    let mut directory = directory;
    if let Some(folder) = asked.backup {
        directory = directory.with_backups(Backups::new(alloc, asked.database, folder)?);
    }
    if asked.database != IN_MEMORY {
        directory = directory.with_files(DataFiles::new(alloc, asked.database, asked.disk)?);
    }
    if let Some(most) = asked.most {
        directory = directory.with_most(most);
    }
    if let Some(expire) = asked.expire {
        directory = directory.with_expire(expire);
    }
    Some(directory)
}

/// Serves the topics of a database, whose history is that of `J`.
fn serve_named<
    R: Threads
        + Wait
        + Net<Listener = TcpListener, Stream = TcpStream>
        + Clock
        + Print
        + Eprint
        + Files
        + AllocGlobal
        + Copy
        + Send
        + Sync
        + Drop
        + 'static,
    S: Alter + Send + Drop + 'static,
    J: Naming + Send + Sync + 'static,
>(rt: &R, asked: &Asked<'_>, rules: Rules, conn: Connection<S>, history: Unnamed<Note>) -> Fate
    requires book { history ≡ J.book }
    requires keyed { HasCleanDisk (state S.Store conn) → IsTrue (state S.Store conn).is_open → AreKeyed (state S.Store conn).now }
{
    let alloc = rt.alloc();
    let notes: Notes<J> = Notes::new(history);
    let keeper = match Keeper::start(alloc, conn, notes) {
        Ok(keeper) => keeper,
        Err(refused) => {
            say_why(rt, asked.database, Why::Store(refused.cause));
            return Fate::StoreFailed;
        }
    };
    let Some(terms) = terms() else {
        return Fate::CannotServe;
    };
    let directory = Directory::open(alloc, keeper, terms, asked.keep);
    let Some(directory) = equipped(alloc, directory, asked) else {
        return Fate::CannotServe;
    };
    let Ok(listener) = TcpListener::bind(rt, asked.address) else {
        return Fate::CannotServe;
    };
    let is_open = is_open_to_others(asked, &listener);
    let Some(clock) = Steady::begin(rt) else {
        return Fate::CannotServe;
    };
    let about = About { clock, is_open };
    let server = Server::new(alloc, directory, about, rules);
    let Ok(server) = Arc::new(alloc, server) else {
        return Fate::CannotServe;
    };
    let Ok(served) = Arc::try_clone(&server) else {
        return Fate::CannotServe;
    };
    let _ = println!(rt; "listening {}", asked.address);
    say_started(rt, alloc, asked, &listener);
    let limits = Limits {
        workers: asked.workers,
        connections: asked.connections,
        most_per_address: Some(asked.per_address.sessions),
    };
    let ended = serve(rt, alloc, listener, server, limits);
    say_end(rt, asked, &served, ended);
    fate_of(ended)
}

/// Serves the topics of a database: makes its tables where it has none, then listens, and ends when as many connections
/// were served as were asked for, or the store has failed.
pub fn serve_over<
    R: Threads
        + Wait
        + Net<Listener = TcpListener, Stream = TcpStream>
        + Clock
        + Print
        + Eprint
        + Files
        + AllocGlobal
        + Copy
        + Send
        + Sync
        + Drop
        + 'static,
    S: Alter + Send + Drop + 'static,
>(rt: &R, asked: &Asked<'_>, rules: Rules, conn: Connection<S>) -> Fate
    requires keyed { HasCleanDisk (state S.Store conn) → IsTrue (state S.Store conn).is_open → AreKeyed (state S.Store conn).now }
{
    serve_named::<R, S, Brand>(rt, asked, rules, conn, Unnamed::new())
}
