// Making the tables, all or none.
ghost use Rattle.std.specs.Prelude.{◌≡◌, false, OnOk};
ghost use Rattle.sqlite.specs.Schema.{Schema};
ghost use Rattle.sqlite.specs.State.{HasCleanDisk, Survives};
ghost use Rattle.sqlite.specs.Held.{state};
ghost use Rattle.row_forms.specs.Schema.{schema_0, schema_3, schema_7, schema_8, schema_9};
ghost use Rattle.row_tables.specs.Ready.{IsBlank};
ghost use Rattle.row_schema.specs.Making.{Leads, Extends, Makes, Fills};

use sqlite::{Alter, Connection, Error, Transaction};

pub(crate) fn define<S: Alter>(tx: &mut Transaction<'_, S>, sql: &str) -> Result<(), Error>
    ensures same_reference { tx.new.conn.ghost_name ≡ tx.old.conn.ghost_name }
    ensures survives { Survives (state S.Store tx.old.conn.now) (state S.Store tx.new.conn.now) (λ _. ⊥) }
    ensures done { HasCleanDisk (state S.Store tx.new.conn.now) → OnOk result ((before after : Schema) → Leads sql.now before after → Extends before after (state S.Store tx.old.conn.now) (state S.Store tx.new.conn.now)) }
{
    tx.execute(sql, &[])?;
    Ok(())
}

fn define_topics<S: Alter>(tx: &mut Transaction<'_, S>) -> Result<(), Error>
    ensures same_reference { tx.new.conn.ghost_name ≡ tx.old.conn.ghost_name }
    ensures survives { Survives (state S.Store tx.old.conn.now) (state S.Store tx.new.conn.now) (λ _. ⊥) }
    ensures done { HasCleanDisk (state S.Store tx.new.conn.now) → OnOk result (Makes schema_0 schema_3 (state S.Store tx.old.conn.now) (state S.Store tx.new.conn.now)) }
{
    define(
        tx,
        "CREATE TABLE meta (id INTEGER NOT NULL PRIMARY KEY, version INTEGER NOT NULL) STRICT",
    )?;
    define(
        tx,
        "CREATE TABLE topic (name TEXT NOT NULL, ledger_size INTEGER NOT NULL, ledger INTEGER NOT NULL, ordinal INTEGER NOT NULL, PRIMARY KEY (name)) STRICT",
    )?;
    define(
        tx,
        "CREATE TABLE entry (topic TEXT NOT NULL, idx INTEGER NOT NULL, ledger INTEGER NOT NULL, entry INTEGER NOT NULL, producer TEXT NOT NULL, sequence INTEGER NOT NULL, time INTEGER NOT NULL, has_key INTEGER NOT NULL, key TEXT NOT NULL, properties TEXT NOT NULL, payload BLOB NOT NULL, PRIMARY KEY (topic, idx)) STRICT",
    )
}

fn define_subscriptions<S: Alter>(tx: &mut Transaction<'_, S>) -> Result<(), Error>
    ensures same_reference { tx.new.conn.ghost_name ≡ tx.old.conn.ghost_name }
    ensures survives { Survives (state S.Store tx.old.conn.now) (state S.Store tx.new.conn.now) (λ _. ⊥) }
    ensures done { HasCleanDisk (state S.Store tx.new.conn.now) → OnOk result (Makes schema_3 schema_7 (state S.Store tx.old.conn.now) (state S.Store tx.new.conn.now)) }
{
    define(
        tx,
        "CREATE TABLE sub (topic TEXT NOT NULL, name TEXT NOT NULL, kind INTEGER NOT NULL, PRIMARY KEY (topic, name)) STRICT",
    )?;
    define(
        tx,
        "CREATE TABLE ack (topic TEXT NOT NULL, sub TEXT NOT NULL, first INTEGER NOT NULL, last INTEGER NOT NULL, PRIMARY KEY (topic, sub, first)) STRICT",
    )?;
    define(
        tx,
        "CREATE TABLE dead (topic TEXT NOT NULL, sub TEXT NOT NULL, ordinal INTEGER NOT NULL, idx INTEGER NOT NULL, target TEXT NOT NULL, PRIMARY KEY (topic, sub, ordinal)) STRICT",
    )?;
    define(
        tx,
        "CREATE TABLE redelivery (topic TEXT NOT NULL, sub TEXT NOT NULL, idx INTEGER NOT NULL, times INTEGER NOT NULL, PRIMARY KEY (topic, sub, idx)) STRICT",
    )
}

pub(crate) fn define_authors<S: Alter>(tx: &mut Transaction<'_, S>) -> Result<(), Error>
    ensures same_reference { tx.new.conn.ghost_name ≡ tx.old.conn.ghost_name }
    ensures survives { Survives (state S.Store tx.old.conn.now) (state S.Store tx.new.conn.now) (λ _. ⊥) }
    ensures done { HasCleanDisk (state S.Store tx.new.conn.now) → OnOk result (Extends schema_7 schema_8 (state S.Store tx.old.conn.now) (state S.Store tx.new.conn.now)) }
{
    define(
        tx,
        "CREATE TABLE author (topic TEXT NOT NULL, idx INTEGER NOT NULL, producer TEXT NOT NULL, sequence INTEGER NOT NULL, PRIMARY KEY (topic, idx)) STRICT",
    )
}

pub(crate) fn define_retentions<S: Alter>(tx: &mut Transaction<'_, S>) -> Result<(), Error>
    ensures same_reference { tx.new.conn.ghost_name ≡ tx.old.conn.ghost_name }
    ensures survives { Survives (state S.Store tx.old.conn.now) (state S.Store tx.new.conn.now) (λ _. ⊥) }
    ensures done { HasCleanDisk (state S.Store tx.new.conn.now) → OnOk result (Extends schema_8 schema_9 (state S.Store tx.old.conn.now) (state S.Store tx.new.conn.now)) }
{
    define(
        tx,
        "CREATE TABLE retention (topic TEXT NOT NULL, gone INTEGER NOT NULL, kind INTEGER NOT NULL, amount INTEGER NOT NULL, PRIMARY KEY (topic)) STRICT",
    )
}

fn define_gone<S: Alter>(tx: &mut Transaction<'_, S>) -> Result<(), Error>
    ensures same_reference { tx.new.conn.ghost_name ≡ tx.old.conn.ghost_name }
    ensures survives { Survives (state S.Store tx.old.conn.now) (state S.Store tx.new.conn.now) (λ _. ⊥) }
    ensures done { HasCleanDisk (state S.Store tx.new.conn.now) → OnOk result (Makes schema_7 schema_9 (state S.Store tx.old.conn.now) (state S.Store tx.new.conn.now)) }
{
    define_authors(tx)?;
    define_retentions(tx)
}

fn define_tables<S: Alter>(tx: &mut Transaction<'_, S>) -> Result<(), Error>
    ensures same_reference { tx.new.conn.ghost_name ≡ tx.old.conn.ghost_name }
    ensures survives { Survives (state S.Store tx.old.conn.now) (state S.Store tx.new.conn.now) (λ _. ⊥) }
    ensures done { HasCleanDisk (state S.Store tx.new.conn.now) → OnOk result (Makes schema_0 schema_9 (state S.Store tx.old.conn.now) (state S.Store tx.new.conn.now)) }
{
    define_topics(tx)?;
    define_subscriptions(tx)?;
    define_gone(tx)
}

fn mark<S: Alter>(tx: &mut Transaction<'_, S>) -> Result<(), Error>
    ensures same_reference { tx.new.conn.ghost_name ≡ tx.old.conn.ghost_name }
    ensures survives { Survives (state S.Store tx.old.conn.now) (state S.Store tx.new.conn.now) (λ _. ⊥) }
    ensures done { HasCleanDisk (state S.Store tx.new.conn.now) → OnOk result (Fills schema_9 (state S.Store tx.old.conn.now) (state S.Store tx.new.conn.now)) }
{
    tx.execute("INSERT INTO meta (id, version) VALUES (1, 3)", &[])?;
    Ok(())
}

fn fill<S: Alter>(tx: &mut Transaction<'_, S>) -> Result<(), Error>
    ensures same_reference { tx.new.conn.ghost_name ≡ tx.old.conn.ghost_name }
    ensures survives { Survives (state S.Store tx.old.conn.now) (state S.Store tx.new.conn.now) (λ _. ⊥) }
    ensures done { HasCleanDisk (state S.Store tx.new.conn.now) → OnOk result (Fills schema_0 (state S.Store tx.old.conn.now) (state S.Store tx.new.conn.now)) }
{
    define_tables(tx)?;
    mark(tx)
}

/// Makes the nine tables and marks them as version 3, in one transaction: all or none.
pub fn create<S: Alter>(conn: &mut Connection<S>) -> Result<(), Error>
    requires { conn.old.in_transaction ≡ false }
    ensures autocommit { conn.new.in_transaction ≡ false }
    ensures created { HasCleanDisk (state S.Store conn.new) → OnOk result ((state S.Store conn.old).now.schema ≡ schema_0 → IsBlank (state S.Store conn.new).now × ((state S.Store conn.new).committed ≡ (state S.Store conn.new).now)) }
    ensures durable { HasCleanDisk (state S.Store conn.new) → OnOk result ((db : _) → (state S.Store conn.new).may_leave db → db ≡ (state S.Store conn.new).now.trees) }
    ensures crash { Survives (state S.Store conn.old) (state S.Store conn.new) (λ db. (state S.Store conn.old).now.schema ≡ schema_0 → IsBlank (record { schema = schema_9; trees = db })) }
{
    let mut tx = conn.transaction();
    fill(&mut tx)?;
    tx.commit()
}
