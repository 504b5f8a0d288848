// The steps from one version of the tables to the next, each in one transaction.
ghost use Rattle.std.specs.Prelude.{◌≡◌, false, OnOk, IsTrue};
ghost use Rattle.sqlite.specs.Schema.{Schema};
ghost use Rattle.sqlite.specs.State.{HasCleanDisk, Survives};
ghost use Rattle.sqlite.specs.Held.{state};
ghost use Rattle.row_forms.specs.Schema.{schema_6, schema_7, schema_9};
ghost use Rattle.row_tables.specs.Ready.{IsReady, IsVersion1, IsVersion2, IsRaised, BecomesVersion2, BecomesVersion3};
ghost use Rattle.row_schema.specs.Making.{Extends};
ghost use Rattle.row_schema.specs.Upgrading.{Marks, Raises};

use crate::making::{define, define_authors, define_retentions};
use sqlite::{Alter, Connection, Error, Transaction};

fn define_counts<S: Alter>(tx: &mut Transaction<'_, S>) -> Result<(), Error>
    ensures same_reference { tx.new.conn.ghost_name ≡ tx.old.conn.ghost_name }
    ensures survives { Survives (state S.Store tx.old.conn.now) (state S.Store tx.new.conn.now) (λ _. ⊥) }
    ensures done { HasCleanDisk (state S.Store tx.new.conn.now) → OnOk result (Extends schema_6 schema_7 (state S.Store tx.old.conn.now) (state S.Store tx.new.conn.now)) }
{
    define(
        tx,
        "CREATE TABLE redelivery (topic TEXT NOT NULL, sub TEXT NOT NULL, idx INTEGER NOT NULL, times INTEGER NOT NULL, PRIMARY KEY (topic, sub, idx)) STRICT",
    )
}

fn mark_version_2<S: Alter>(tx: &mut Transaction<'_, S>) -> Result<(), Error>
    ensures same_reference { tx.new.conn.ghost_name ≡ tx.old.conn.ghost_name }
    ensures survives { Survives (state S.Store tx.old.conn.now) (state S.Store tx.new.conn.now) (λ _. ⊥) }
    ensures done { HasCleanDisk (state S.Store tx.new.conn.now) → OnOk result (Marks schema_7 1 2 (state S.Store tx.old.conn.now) (state S.Store tx.new.conn.now)) }
{
    tx.execute("UPDATE meta SET version = 2 WHERE id = 1", &[])?;
    Ok(())
}

fn raise_to_2<S: Alter>(tx: &mut Transaction<'_, S>) -> Result<(), Error>
    ensures same_reference { tx.new.conn.ghost_name ≡ tx.old.conn.ghost_name }
    ensures survives { Survives (state S.Store tx.old.conn.now) (state S.Store tx.new.conn.now) (λ _. ⊥) }
    ensures done { HasCleanDisk (state S.Store tx.new.conn.now) → OnOk result (Raises IsVersion1 BecomesVersion2 (state S.Store tx.old.conn.now) (state S.Store tx.new.conn.now)) }
{
    define_counts(tx)?;
    mark_version_2(tx)
}

fn mark_version_3<S: Alter>(tx: &mut Transaction<'_, S>) -> Result<(), Error>
    ensures same_reference { tx.new.conn.ghost_name ≡ tx.old.conn.ghost_name }
    ensures survives { Survives (state S.Store tx.old.conn.now) (state S.Store tx.new.conn.now) (λ _. ⊥) }
    ensures done { HasCleanDisk (state S.Store tx.new.conn.now) → OnOk result (Marks schema_9 2 3 (state S.Store tx.old.conn.now) (state S.Store tx.new.conn.now)) }
{
    tx.execute("UPDATE meta SET version = 3 WHERE id = 1", &[])?;
    Ok(())
}

fn raise_to_3<S: Alter>(tx: &mut Transaction<'_, S>) -> Result<(), Error>
    ensures same_reference { tx.new.conn.ghost_name ≡ tx.old.conn.ghost_name }
    ensures survives { Survives (state S.Store tx.old.conn.now) (state S.Store tx.new.conn.now) (λ _. ⊥) }
    ensures done { HasCleanDisk (state S.Store tx.new.conn.now) → OnOk result (Raises IsVersion2 BecomesVersion3 (state S.Store tx.old.conn.now) (state S.Store tx.new.conn.now)) }
{
    define_authors(tx)?;
    define_retentions(tx)?;
    mark_version_3(tx)
}

/// Makes the table of version 2 in a database of version 1 and marks it so, in one transaction: both or none.
fn to_version_2<S: Alter>(conn: &mut Connection<S>) -> Result<(), Error>
    requires { conn.old.in_transaction ≡ false }
    ensures autocommit { conn.new.in_transaction ≡ false }
    ensures raised { HasCleanDisk (state S.Store conn.new) → OnOk result (IsVersion1 (state S.Store conn.old).now → BecomesVersion2 (state S.Store conn.old).now (state S.Store conn.new).now × ((state S.Store conn.new).committed ≡ (state S.Store conn.new).now)) }
    ensures open { HasCleanDisk (state S.Store conn.new) → OnOk result (IsTrue (state S.Store conn.old).is_open × IsTrue (state S.Store conn.new).is_open) }
    ensures durable { HasCleanDisk (state S.Store conn.new) → OnOk result ((db : _) → (state S.Store conn.new).may_leave db → db ≡ (state S.Store conn.new).now.trees) }
    ensures crash { Survives (state S.Store conn.old) (state S.Store conn.new) (λ db. IsTrue (state S.Store conn.old).is_open × (IsVersion1 (state S.Store conn.old).now → BecomesVersion2 (state S.Store conn.old).now (record { schema = schema_7; trees = db }))) }
{
    let mut tx = conn.transaction();
    raise_to_2(&mut tx)?;
    tx.commit()
}

/// Makes the two tables of version 3 in a database of version 2 and marks it so, in one transaction: all or none.
fn to_version_3<S: Alter>(conn: &mut Connection<S>) -> Result<(), Error>
    requires { conn.old.in_transaction ≡ false }
    ensures autocommit { conn.new.in_transaction ≡ false }
    ensures raised { HasCleanDisk (state S.Store conn.new) → OnOk result (IsVersion2 (state S.Store conn.old).now → BecomesVersion3 (state S.Store conn.old).now (state S.Store conn.new).now × ((state S.Store conn.new).committed ≡ (state S.Store conn.new).now)) }
    ensures open { HasCleanDisk (state S.Store conn.new) → OnOk result (IsTrue (state S.Store conn.old).is_open × IsTrue (state S.Store conn.new).is_open) }
    ensures durable { HasCleanDisk (state S.Store conn.new) → OnOk result ((db : _) → (state S.Store conn.new).may_leave db → db ≡ (state S.Store conn.new).now.trees) }
    ensures crash { Survives (state S.Store conn.old) (state S.Store conn.new) (λ db. IsTrue (state S.Store conn.old).is_open × (IsVersion2 (state S.Store conn.old).now → BecomesVersion3 (state S.Store conn.old).now (record { schema = schema_9; trees = db }))) }
{
    let mut tx = conn.transaction();
    raise_to_3(&mut tx)?;
    tx.commit()
}

/// Version 2 becomes the last one.
pub(crate) fn from_version_2<S: Alter>(conn: &mut Connection<S>) -> Result<(), Error>
    requires { conn.old.in_transaction ≡ false }
    ensures autocommit { conn.new.in_transaction ≡ false }
    ensures raised { HasCleanDisk (state S.Store conn.new) → OnOk result (IsVersion2 (state S.Store conn.old).now → IsRaised (state S.Store conn.old).now (state S.Store conn.new).now × IsReady (state S.Store conn.new).now × ((state S.Store conn.new).committed ≡ (state S.Store conn.new).now)) }
    ensures open { HasCleanDisk (state S.Store conn.new) → OnOk result (IsTrue (state S.Store conn.old).is_open × IsTrue (state S.Store conn.new).is_open) }
    ensures durable { HasCleanDisk (state S.Store conn.new) → OnOk result ((db : _) → (state S.Store conn.new).may_leave db → db ≡ (state S.Store conn.new).now.trees) }
    ensures crash { Survives (state S.Store conn.old) (state S.Store conn.new) (λ db. IsTrue (state S.Store conn.old).is_open × (IsVersion2 (state S.Store conn.old).now → (schema : Schema) × IsRaised (state S.Store conn.old).now (record { schema = schema; trees = db }))) }
{
    to_version_3(conn)
}

/// Version 1 becomes version 2, and then the last one.
pub(crate) fn from_version_1<S: Alter>(conn: &mut Connection<S>) -> Result<(), Error>
    requires { conn.old.in_transaction ≡ false }
    ensures autocommit { conn.new.in_transaction ≡ false }
    ensures raised { HasCleanDisk (state S.Store conn.new) → OnOk result (IsVersion1 (state S.Store conn.old).now → IsRaised (state S.Store conn.old).now (state S.Store conn.new).now × IsReady (state S.Store conn.new).now × ((state S.Store conn.new).committed ≡ (state S.Store conn.new).now)) }
    ensures open { HasCleanDisk (state S.Store conn.new) → OnOk result (IsTrue (state S.Store conn.old).is_open × IsTrue (state S.Store conn.new).is_open) }
    ensures durable { HasCleanDisk (state S.Store conn.new) → OnOk result ((db : _) → (state S.Store conn.new).may_leave db → db ≡ (state S.Store conn.new).now.trees) }
    ensures crash { Survives (state S.Store conn.old) (state S.Store conn.new) (λ db. IsTrue (state S.Store conn.old).is_open × (IsVersion1 (state S.Store conn.old).now → (schema : Schema) × IsRaised (state S.Store conn.old).now (record { schema = schema; trees = db }))) }
{
    to_version_2(conn)?;
    to_version_3(conn)
}
