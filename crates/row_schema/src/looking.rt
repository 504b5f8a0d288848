// Whether a database is empty, or which version its tables are of.
ghost use Rattle.std.specs.Prelude.{◌≡◌, ◌↔◌, ℤ, [], ◌∷◌, false, pos, Some, IfOk, IfSome, IsSome, OnOk, IsTrue};
ghost use Rattle.sqlite.specs.State.{HasCleanDisk, KeepsCommit, Survives};
ghost use Rattle.sqlite.specs.Held.{state};
ghost use Rattle.sqlite.specs.declared.types.Value.TheVariants.{Int as Number};
ghost use Rattle.row_forms.specs.Schema.{schema_0};
ghost use Rattle.row_tables.specs.Ready.{IsMarked};
ghost use Rattle.row_schema.specs.Versions.{schema_of, number_of, HasVersion};

use crate::indexes::are_indexes_of;
use crate::tables::version_with;
use crate::version::Version;
use sqlite::{Alter, Connection, Error, Row, Transaction};
use sqlite_schema::schema::Schema;
use sqlite_value::value::ValueRef;

/// Whether the schema has no table, index or view.
pub fn has_no_schema<S: Alter>(conn: &Connection<S>) -> bool
    ensures none { IsTrue result → (state S.Store conn.now).now.schema ≡ schema_0 }
    ensures some { (state S.Store conn.now).now.schema ≡ schema_0 → IsTrue result }
{
    let schema = conn.schema();
    schema.tables.is_empty() && schema.indexes.is_empty() && schema.views.is_empty()
}

/// Which version has these tables, and nothing else.
fn version_like(schema: &Schema) -> Option<Version>
    ensures found { IfSome result (λ version. schema.now ≡ schema_of version) }
    ensures known { (version : Version) → schema.now ≡ schema_of version → result ≡ Some version }
{
    let version = version_with(schema.tables.as_slice())?;
    if schema.views.is_empty() && are_indexes_of(schema.indexes.as_slice(), version) {
        Some(version)
    } else {
        None
    }
}

fn is_mark(row: &Row, number: i64) -> bool
    ensures { IsTrue result ↔ (row.now ≡ Number (pos 1) ∷ Number number ∷ []) }
{
    row.column_count() == 2
        && matches!(row.get_ref(0), Ok(ValueRef::Int(1)))
        && matches!(row.get_ref(1), Ok(ValueRef::Int(found)) if found == number)
}

fn is_only_mark(rows: &[Row], number: i64) -> bool
    ensures { IsTrue result ↔ (rows.now ≡ (Number (pos 1) ∷ Number number ∷ []) ∷ []) }
{
    match rows {
        [row] => is_mark(row, number),
        _ => false,
    }
}

fn is_marked<S: Alter>(tx: &mut Transaction<'_, S>, version: Version) -> Result<bool, Error>
    ensures same_reference { tx.new.conn.ghost_name ≡ tx.old.conn.ghost_name }
    ensures survives { Survives (state S.Store tx.old.conn.now) (state S.Store tx.new.conn.now) (λ _. ⊥) }
    ensures kept { HasCleanDisk (state S.Store tx.new.conn.now) → IsTrue (state S.Store tx.old.conn.now).in_transaction → KeepsCommit (state S.Store tx.old.conn.now) (state S.Store tx.new.conn.now) }
    ensures open { HasCleanDisk (state S.Store tx.new.conn.now) → OnOk result (IsTrue (state S.Store tx.old.conn.now).is_open) }
    ensures all_read { HasCleanDisk (state S.Store tx.new.conn.now) → IfOk result (λ yes. (state S.Store tx.old.conn.now).now.schema ≡ schema_of version → IsMarked (number_of version) (state S.Store tx.old.conn.now).now.trees → IsTrue yes) }
    ensures marked { HasCleanDisk (state S.Store tx.new.conn.now) → IfOk result (λ yes. IsTrue yes → (state S.Store tx.old.conn.now).now.schema ≡ schema_of version → IsMarked (number_of version) (state S.Store tx.old.conn.now).now.trees) }
{
    let rows = tx.query_all("SELECT id, version FROM meta", &[])?;
    Ok(is_only_mark(&rows, version.number()))
}

/// Which version's tables are there, and nothing else, with its mark as the only one. None where it is no version's.
pub fn version_of<S: Alter>(conn: &mut Connection<S>) -> Result<Option<Version>, Error>
    requires { conn.old.in_transaction ≡ false }
    ensures autocommit { conn.new.in_transaction ≡ false }
    ensures crash { Survives (state S.Store conn.old) (state S.Store conn.new) (λ _. ⊥) }
    ensures kept { HasCleanDisk (state S.Store conn.new) → IsTrue (state S.Store conn.new).is_open → (state S.Store conn.new).now ≡ (state S.Store conn.old).now }
    ensures was_open { HasCleanDisk (state S.Store conn.new) → IsTrue (state S.Store conn.new).is_open → IsTrue (state S.Store conn.old).is_open }
    ensures open { HasCleanDisk (state S.Store conn.new) → IfOk result (λ found. IsSome found → IsTrue (state S.Store conn.old).is_open) }
    ensures schema { HasCleanDisk (state S.Store conn.new) → IfOk result (λ found. IfSome found (λ version. (state S.Store conn.old).now.schema ≡ schema_of version)) }
    ensures mark { HasCleanDisk (state S.Store conn.new) → IfOk result (λ found. IfSome found (λ version. IsMarked (number_of version) (state S.Store conn.old).now.trees)) }
    ensures known { HasCleanDisk (state S.Store conn.new) → IfOk result (λ found. (version : Version) → HasVersion version (state S.Store conn.old).now → found ≡ Some version) }
{
    let Some(version) = version_like(conn.schema()) else {
        return Ok(None);
    };
    if !conn.is_autocommit() {
        return Ok(None);
    }
    let mut tx = conn.transaction();
    let marked = is_marked(&mut tx, version)?;
    tx.rollback();
    if marked { Ok(Some(version)) } else { Ok(None) }
}
