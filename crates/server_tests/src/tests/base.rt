// A keeper of a database in memory, and what topics begin with.
ghost use Rattle.std.specs.Prelude.{◌≡◌};
ghost use Rattle.sqlite.specs.State.{HasCleanDisk};
ghost use Rattle.sqlite.specs.Held.{state};
ghost use Rattle.sqlite.specs.Steps.{over_memory};
ghost use Rattle.row_tables.specs.Ready.{AreKeyed};

use broker_dir::Terms;
use marks::{Naming, Unnamed};
use position_core::LedgerSize;
use row_schema::{open_in_memory, reopen};
use row_store::Keeper;
use sqlite::{Alter, Connection, MemStore};
use std::process::Abort;
use stored_cell::{Note, Notes};
use topic_shared::{LineLimit, SeatCount};

/// A database in memory, with no table.
fn in_memory<R: Abort + AllocGlobal>(rt: &R) -> Connection<MemStore>
    ensures keyed { AreKeyed (state over_memory result).now }
{
    match open_in_memory(rt.alloc()) {
        Ok(conn) => conn,
        Err(_) => panic!(rt; "no memory"),
    }
}

/// The database, read again: so it may be adopted whatever was done with it.
pub(super) fn read_again<S: Alter + Drop, R: Abort + AllocGlobal>(
    rt: &R,
    conn: Connection<S>,
) -> Connection<S>
    ensures keyed { HasCleanDisk (state S.Store result) → AreKeyed (state S.Store result).now }
{
    match reopen(rt.alloc(), conn) {
        Ok(conn) => conn,
        Err(_) => panic!(rt; "not read again"),
    }
}

/// Over a database that has no rows.
pub(super) fn keeper_over<J: Naming, R: Abort + AllocGlobal>(
    rt: &R,
    history: Unnamed<Note>,
) -> Keeper<MemStore, J>
    requires { history ≡ J.book }
{
    let keeper = Keeper::start(rt.alloc(), in_memory(rt), Notes::new(history));
    keeper.ok().expect(rt, "no memory for the tables")
}

/// So many may sit at a topic, whose journal has so many lines.
fn terms_of<R: Abort>(rt: &R, lines: u32, seats: u32) -> Terms {
    Terms {
        ledger_size: LedgerSize::new(50_000).expect(rt, "no size"),
        lines: LineLimit::new(lines).expect(rt, "no limit"),
        seats: SeatCount::new(seats).expect(rt, "no seats"),
    }
}

/// So many may sit at a topic.
pub(super) fn terms<R: Abort>(rt: &R, seats: u32) -> Terms {
    terms_of(rt, 2_000, seats)
}

/// A topic's journal has eight lines.
pub(super) fn short_terms<R: Abort>(rt: &R) -> Terms {
    terms_of(rt, 8, 3)
}
