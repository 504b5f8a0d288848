// Undoing what was not committed, so that a database is known to be as it was committed, with its rows in order.
ghost use Rattle.std.specs.Prelude.{◌≡◌, ◌⊎◌, false, None, Ok, IfOk, IfErr, IsTrue};
ghost use Rattle.sqlite.specs.State.{HasCleanDisk};
ghost use Rattle.sqlite.specs.Held.{state};
ghost use Rattle.sqlite.specs.Tree.{Trees};
ghost use Rattle.sqlite_trees.specs.View.{IsClean, doubt};
ghost use Rattle.row_tables.specs.Ready.{AreKeyed};

use sqlite::{Alter, Connection, Error};
use std::alloc::Global;

/// Reads the database again: then no rowid of a table comes twice. What was not committed is undone.
/// It fails with no error where an earlier failure has closed the store, and gives the store back.
pub fn reopen<S: Alter + Drop>(
    alloc: Global,
    conn: Connection<S>,
) -> Result<Connection<S>, (Option<Error>, S)>
    ensures keyed { IfOk result (λ c. HasCleanDisk (state S.Store c) → AreKeyed (state S.Store c).now) }
    ensures autocommit { IfOk result (λ c. c.in_transaction ≡ false) }
    ensures open { IfOk result (λ c. HasCleanDisk (state S.Store c) → IsTrue (state S.Store c).is_open) }
    ensures same { IfOk result (λ c. HasCleanDisk (state S.Store c) → (state S.Store c).now.trees ≡ (state S.Store conn).committed.trees) }
    ensures schema { IfOk result (λ c. HasCleanDisk (state S.Store c) → (state S.Store c).now.schema ≡ (state S.Store conn).committed.schema) }
    ensures crash { IfOk result (λ c. HasCleanDisk (state S.Store c) → (db : Trees) → (state S.Store c).may_leave db → db ≡ (state S.Store c).now.trees) }
    ensures given_back { IfErr result (λ e. (db : Trees) → S.Store.recovers e.1 db → (state S.Store conn).may_leave db) }
    ensures shut { IfErr result (λ e. e.0 ≡ None → IsClean (S.Store.view e.1) → IsTrue (S.Store.view e.1).is_broken) }
{
    // Once the schema was read, it is known that what was committed is a database.
    let _ = conn.schema();
    let store = conn.into_store();
    if store.is_broken() {
        return Err((None, store));
    }
    match Connection::over(alloc, store) {
        Ok(again) => Ok(again),
        Err((error, store)) => Err((Some(error), store)),
    }
}

/// What was not committed is undone. Where no transaction is under way, nothing is read, and the connection is left
/// as it is, also where a failure has shut it.
pub fn settle<S: Alter + Drop>(
    alloc: Global,
    conn: Connection<S>,
) -> Result<Connection<S>, (Option<Error>, S)>
    requires keyed { HasCleanDisk (state S.Store conn) → IsTrue (state S.Store conn).is_open → AreKeyed (state S.Store conn).now }
    ensures untouched { conn.in_transaction ≡ false → result ≡ Ok conn }
    ensures keyed { IfOk result (λ c. HasCleanDisk (state S.Store c) → IsTrue (state S.Store c).is_open → AreKeyed (state S.Store c).now) }
    ensures autocommit { IfOk result (λ c. c.in_transaction ≡ false) }
    ensures open { IfOk result (λ c. HasCleanDisk (state S.Store c) → IsTrue (state S.Store conn).is_open → IsTrue (state S.Store c).is_open) }
    ensures same { IfOk result (λ c. HasCleanDisk (state S.Store c) → IsTrue (state S.Store c).is_open → (state S.Store c).now.trees ≡ (state S.Store conn).committed.trees) }
    ensures schema { IfOk result (λ c. HasCleanDisk (state S.Store c) → IsTrue (state S.Store c).is_open → (state S.Store c).now.schema ≡ (state S.Store conn).committed.schema) }
    ensures crash { IfOk result (λ c. HasCleanDisk (state S.Store c) → IsTrue (state S.Store c).is_open → (db : Trees) → (state S.Store c).may_leave db → db ≡ (state S.Store c).now.trees) }
    ensures left { IfOk result (λ c. HasCleanDisk (state S.Store c) → (db : Trees) → (state S.Store c).may_leave db → (state S.Store conn).may_leave db ⊎ (db ≡ (state S.Store conn).committed.trees)) }
    ensures given_back { IfErr result (λ e. (db : Trees) → S.Store.recovers e.1 db → (state S.Store conn).may_leave db) }
    ensures shut { IfErr result (λ e. e.0 ≡ None → IsClean (S.Store.view e.1) → IsTrue (S.Store.view e.1).is_broken) }
{
    if conn.is_autocommit() {
        return Ok(conn);
    }
    match reopen(alloc, conn) {
        Ok(again) => Ok(again),
        Err(refused) => Err(refused),
    }
}
