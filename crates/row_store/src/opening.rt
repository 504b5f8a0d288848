// How a keeper comes by its database: it makes the tables, or takes those that are there.
ghost use Rattle.std.specs.Prelude.{[], ◌≡◌, ◌≢◌, ◌⊎◌, ◌↔◌, true, false, None, IfOk, IfErr, IsTrue};
ghost use Rattle.position_core.specs.declared.fault.Fault.TheVariants.{StoreFailed};
ghost use Rattle.sqlite.specs.declared.error.Error.{Error};
ghost use Rattle.sqlite.specs.Tree.{Trees};
ghost use Rattle.sqlite.specs.State.{HasCleanDisk};
ghost use Rattle.sqlite.specs.Held.{state};
ghost use Rattle.sqlite_trees.specs.View.{IsClean};
ghost use Rattle.row_forms.specs.Schema.{schema_0};
ghost use Rattle.row_tables.specs.Ready.{AreKeyed, IsReady, IsBlank};
ghost use Rattle.row_schema.specs.Versions.{HasNoVersion};
ghost use Rattle.row_store.specs.declared.cause.Cause.TheVariants.{NotOurs, UnderWay, Store};
ghost use Rattle.row_store.specs.Keeping.{IsSettled, IsTakenFrom, LeavesOne, MayLeave};

use crate::cause::Cause;
use crate::keeper::Keeper;
use crate::written::Written;
use delivery_machine::Fault;
use marks::Naming;
use row_schema::{create, has_no_schema, settle, upgrade};
use sqlite::{Alter, Connection, Error, ErrorCode};
use std::alloc::Global;
use stored_cell::Notes;

/// What is left where a database is not taken: why, the store, and the history.
#[derive(Drop)]
pub struct Refused<S: Alter + Drop, J: Naming> {
    pub fault: Fault,
    pub cause: Cause,
    pub store: S,
    pub notes: Notes<J>,
}

/// Whether tables can be made: there are none, and no transaction is under way.
fn is_empty<S: Alter>(conn: &Connection<S>) -> bool
    ensures autocommit { IsTrue result → conn.now.in_transaction ≡ false }
    ensures none { IsTrue result → (state S.Store conn.now).now.schema ≡ schema_0 }
    ensures some { conn.now.in_transaction ≡ false → (state S.Store conn.now).now.schema ≡ schema_0 → IsTrue result }
{
    conn.is_autocommit() && has_no_schema(conn)
}

fn given_back<S: Alter + Drop, J: Naming>(
    conn: Connection<S>,
    notes: Notes<J>,
    cause: Cause,
) -> Refused<S, J>
    ensures fault { result.fault ≡ StoreFailed }
    ensures cause { result.cause ≡ cause }
    ensures clean { IsClean (S.Store.view result.store) → HasCleanDisk (state S.Store conn) }
    ensures left { (db : Trees) → S.Store.recovers result.store db → (state S.Store conn).may_leave db }
{
    Refused {
        fault: Fault::StoreFailed,
        cause,
        store: conn.into_store(),
        notes,
    }
}

/// Over a database whose tables are there.
fn keeper_over<S: Alter, J: Naming>(
    alloc: Global,
    conn: Connection<S>,
    notes: Notes<J>,
) -> Keeper<S, J>
    requires autocommit { conn.in_transaction ≡ false }
    requires ready { HasCleanDisk (state S.Store conn) → IsTrue (state S.Store conn).is_open → IsReady (state S.Store conn).now }
    requires settled { HasCleanDisk (state S.Store conn) → IsTrue (state S.Store conn).is_open → IsSettled (state S.Store conn) }
    requires one { HasCleanDisk (state S.Store conn) → LeavesOne (state S.Store conn) }
    ensures { result ≡ record { conn = conn; failed = false; known = []; written = record { inserted = 0; updated = 0; deleted = 0; cleared = 0 }; reading = None } }
{
    Keeper {
        alloc,
        conn,
        failed: false,
        known: Vec::new(alloc),
        reading: None,
        notes,
        scratch: String::new(alloc),
        written: Written::none(),
        cause: None,
        refusal: None,
        spoilt: None,
    }
}

impl<S: Alter + Drop, J: Naming> Keeper<S, J> {
    /// Makes the tables in a database that has none, all or none. Refused (F16) where it has some, where a
    /// transaction is under way, or where the store answers an error.
    pub fn create(
        alloc: Global,
        mut conn: Connection<S>,
        notes: Notes<J>,
    ) -> Result<Self, Refused<S, J>>
        ensures created { IfOk result (λ k. (k.failed ≡ false) × (HasCleanDisk (state S.Store k.conn) → IsBlank (state S.Store k.conn).now)) }
        ensures was_empty { IfOk result (λ _. (state S.Store conn).now.schema ≡ schema_0) }
        ensures crash { IfOk result (λ k. HasCleanDisk (state S.Store k.conn) → (db : Trees) → (state S.Store k.conn).may_leave db → MayLeave (state S.Store conn) db) }
        ensures given_back { IfErr result (λ e. IsClean (S.Store.view e.store) → (db : Trees) → S.Store.recovers e.store db → MayLeave (state S.Store conn) db) }
        ensures fault { IfErr result (λ e. e.fault ≡ StoreFailed) }
        ensures cause { IfErr result (λ e. (e.cause ≡ UnderWay) ⊎ ((e.cause ≡ NotOurs) ⊎ ((error : Error) × (e.cause ≡ Store error)))) }
        ensures not_ours { IfErr result (λ e. e.cause ≡ NotOurs → (state S.Store conn).now.schema ≢ schema_0) }
        ensures under_way { IfErr result (λ e. (e.cause ≡ UnderWay) ↔ (conn.in_transaction ≡ true)) }
    {
        if !conn.is_autocommit() {
            return Err(given_back(conn, notes, Cause::UnderWay));
        }
        if !has_no_schema(&conn) {
            return Err(given_back(conn, notes, Cause::NotOurs));
        }
        match create(&mut conn) {
            Ok(()) => Ok(keeper_over(alloc, conn, notes)),
            Err(error) => Err(given_back(conn, notes, Cause::Store(error))),
        }
    }

    /// Takes a database of the last version as it is, and makes one of an earlier version one of the last, a version in a
    /// transaction; what was not committed is undone. Refused (F16) where it has other tables or another version, or where the store answers an error. That in each table no rowid comes twice
    /// is known of a connection that `row_schema` opened, or read again (`row_schema::reopen`).
    pub fn adopt(alloc: Global, conn: Connection<S>, notes: Notes<J>) -> Result<Self, Refused<S, J>>
        requires keyed { HasCleanDisk (state S.Store conn) → IsTrue (state S.Store conn).is_open → AreKeyed (state S.Store conn).now }
        ensures adopted { IfOk result (λ k. (k.failed ≡ false) × (HasCleanDisk (state S.Store k.conn) → IsTrue (state S.Store k.conn).is_open → IsReady (state S.Store k.conn).now)) }
        ensures rows { IfOk result (λ k. HasCleanDisk (state S.Store k.conn) → IsTrue (state S.Store k.conn).is_open → IsTakenFrom (state S.Store conn).committed.trees (state S.Store k.conn).now.trees) }
        ensures crash { IfOk result (λ k. HasCleanDisk (state S.Store k.conn) → (db : Trees) → (state S.Store k.conn).may_leave db → IsTakenFrom (state S.Store conn).committed.trees db) }
        ensures given_back { IfErr result (λ e. IsClean (S.Store.view e.store) → (db : Trees) → S.Store.recovers e.store db → (state S.Store conn).may_leave db ⊎ IsTakenFrom (state S.Store conn).committed.trees db) }
        ensures fault { IfErr result (λ e. e.fault ≡ StoreFailed) }
        ensures cause { IfErr result (λ e. (e.cause ≡ NotOurs) ⊎ ((error : Error) × (e.cause ≡ Store error))) }
        ensures foreign { IfErr result (λ e. e.cause ≡ NotOurs → IsClean (S.Store.view e.store) → IsTrue (state S.Store conn).is_open → HasNoVersion (state S.Store conn).committed) }
    {
        let mut conn = match settle(alloc, conn) {
            Ok(conn) => conn,
            Err((error, store)) => {
                let error = error.unwrap_or(Error::SqliteFailure(ErrorCode::Closed));
                return Err(Refused {
                    fault: Fault::StoreFailed,
                    cause: Cause::Store(error),
                    store,
                    notes,
                });
            }
        };
        match upgrade(&mut conn) {
            Ok(true) => Ok(keeper_over(alloc, conn, notes)),
            Ok(false) => Err(given_back(conn, notes, Cause::NotOurs)),
            Err(error) => Err(given_back(conn, notes, Cause::Store(error))),
        }
    }

    /// Makes the tables in a database that has none, and takes any other.
    pub fn start(alloc: Global, conn: Connection<S>, notes: Notes<J>) -> Result<Self, Refused<S, J>>
        requires keyed { HasCleanDisk (state S.Store conn) → IsTrue (state S.Store conn).is_open → AreKeyed (state S.Store conn).now }
        ensures started { IfOk result (λ k. (k.failed ≡ false) × (HasCleanDisk (state S.Store k.conn) → IsTrue (state S.Store k.conn).is_open → IsReady (state S.Store k.conn).now)) }
        ensures made { conn.in_transaction ≡ false → (state S.Store conn).now.schema ≡ schema_0 → IfOk result (λ k. HasCleanDisk (state S.Store k.conn) → IsBlank (state S.Store k.conn).now) }
        ensures taken { (state S.Store conn).now.schema ≢ schema_0 → IfOk result (λ k. HasCleanDisk (state S.Store k.conn) → IsTrue (state S.Store k.conn).is_open → IsTakenFrom (state S.Store conn).committed.trees (state S.Store k.conn).now.trees) }
        ensures crash { IfOk result (λ k. HasCleanDisk (state S.Store k.conn) → (db : Trees) → (state S.Store k.conn).may_leave db → MayLeave (state S.Store conn) db) }
        ensures given_back { IfErr result (λ e. IsClean (S.Store.view e.store) → (db : Trees) → S.Store.recovers e.store db → MayLeave (state S.Store conn) db) }
        ensures fault { IfErr result (λ e. e.fault ≡ StoreFailed) }
        ensures cause { IfErr result (λ e. (e.cause ≡ NotOurs) ⊎ ((error : Error) × (e.cause ≡ Store error))) }
        ensures foreign { IfErr result (λ e. e.cause ≡ NotOurs → IsClean (S.Store.view e.store) → IsTrue (state S.Store conn).is_open → HasNoVersion (state S.Store conn).committed) }
        ensures not_ours { conn.in_transaction ≡ false → IfErr result (λ e. e.cause ≡ NotOurs → (state S.Store conn).now.schema ≢ schema_0) }
    {
        if is_empty(&conn) {
            Self::create(alloc, conn, notes)
        } else {
            Self::adopt(alloc, conn, notes)
        }
    }
}
