// Whether the tables are those of a version, one by one.
ghost use Rattle.std.specs.Prelude.{◌≡◌, ◌↔◌, [], ◌∷◌, drop, Some, IfSome, IsTrue};
ghost use Rattle.sqlite_value.specs.Keys.{plain};
ghost use Rattle.row_forms.specs.Schema.{required, table_of, meta_table, topic_table, entry_table, sub_table, ack_table, dead_table};
ghost use Rattle.row_schema.specs.Comparing.{IsBare, IsByRowid, IsKeyed};
ghost use Rattle.row_schema.specs.Versions.{schema_of};

use crate::later_tables::version_after;
use crate::version::Version;
use sqlite_items::Items;
use sqlite_schema::schema::{Column, Kind, Table};
use sqlite_value::keys::{Collation, Order};
use sqlite_value::value::Value;

pub(crate) fn is_required(column: &Column, name: &str, kind: Kind) -> bool
    ensures { IsTrue result ↔ (column.now ≡ required name.now kind) }
{
    column.name.as_slice() == name.as_bytes()
        && column.kind == kind
        && column.is_strict
        && column.not_null
        && matches!(column.default, Value::Null)
        && column.collation == Collation::Binary
}

fn has_no_rules(table: &Table) -> bool
    ensures { IsTrue result ↔ IsBare table.now }
{
    table.checks.roots.is_empty()
        && table.references.is_empty()
        && table.computed.is_empty()
        && table.stamps.places.is_empty()
        && table.stamps.terms.roots.is_empty()
        && table.stamps.formats.is_empty()
        && !table.is_counted
}

fn are_places(places: &Items<usize>, key: &[usize]) -> bool
    ensures { IsTrue result ↔ (places.now ≡ key.now) }
{
    places.as_slice() == key
}

fn is_only(uniques: &[Items<usize>], key: &[usize]) -> bool
    ensures { IsTrue result ↔ (uniques.now ≡ key.now ∷ []) }
{
    match uniques {
        [unique] => are_places(unique, key),
        _ => false,
    }
}

fn are_plain(orders: &[Order]) -> bool
    ensures { IsTrue result ↔ (orders.now ≡ plain ∷ []) }
{
    match orders {
        [order] => order.digits == 0,
        _ => false,
    }
}

fn has_one_key(table: &Table, key: &[usize]) -> bool
    ensures { IsTrue result ↔ IsKeyed key.now table.now }
{
    table.key.is_none()
        && table.primary.as_slice() == key
        && is_only(table.uniques.as_slice(), key)
        && are_plain(table.orders.as_slice())
}

pub(crate) fn is_named(table: &Table, name: &str, tree: u32, key: &[usize]) -> bool
    ensures { IsTrue result ↔ (table.now ≡ table_of name.now tree table.now.columns key.now) }
{
    table.name.as_slice() == name.as_bytes()
        && table.tree == tree
        && has_one_key(table, key)
        && has_no_rules(table)
}

fn has_rowid(table: &Table) -> bool
    ensures { IsTrue result ↔ IsByRowid table.now }
{
    table.key == Some(0)
        && table.primary.as_slice() == [0].as_slice()
        && table.uniques.is_empty()
        && table.orders.is_empty()
}

fn has_meta_columns(columns: &[Column]) -> bool
    ensures { IsTrue result ↔ (columns.now ≡ (meta_table 0).columns) }
{
    let [id, version] = columns else {
        return false;
    };
    is_required(id, "id", Kind::Integer) && is_required(version, "version", Kind::Integer)
}

fn is_meta(table: &Table) -> bool
    ensures { IsTrue result ↔ (table.now ≡ meta_table 0) }
{
    table.name.as_slice() == "meta".as_bytes()
        && table.tree == 0
        && has_rowid(table)
        && has_no_rules(table)
        && has_meta_columns(table.columns.as_slice())
}

fn has_ledger_columns(columns: &[Column]) -> bool
    ensures { IsTrue result ↔ (columns.now ≡ drop 2 (topic_table 1).columns) }
{
    let [ledger, ordinal] = columns else {
        return false;
    };
    is_required(ledger, "ledger", Kind::Integer) && is_required(ordinal, "ordinal", Kind::Integer)
}

fn has_topic_columns(columns: &[Column]) -> bool
    ensures { IsTrue result ↔ (columns.now ≡ (topic_table 1).columns) }
{
    let [name, size, rest @ ..] = columns else {
        return false;
    };
    is_required(name, "name", Kind::Text)
        && is_required(size, "ledger_size", Kind::Integer)
        && has_ledger_columns(rest)
}

fn is_topic(table: &Table) -> bool
    ensures { IsTrue result ↔ (table.now ≡ topic_table 1) }
{
    is_named(table, "topic", 1, &[1]) && has_topic_columns(table.columns.as_slice())
}

fn has_last_columns(columns: &[Column]) -> bool
    ensures { IsTrue result ↔ (columns.now ≡ drop 9 (entry_table 3).columns) }
{
    let [properties, payload] = columns else {
        return false;
    };
    is_required(properties, "properties", Kind::Text) && is_required(payload, "payload", Kind::Blob)
}

fn has_body_columns(columns: &[Column]) -> bool
    ensures { IsTrue result ↔ (columns.now ≡ drop 7 (entry_table 3).columns) }
{
    let [has_key, key, rest @ ..] = columns else {
        return false;
    };
    is_required(has_key, "has_key", Kind::Integer)
        && is_required(key, "key", Kind::Text)
        && has_last_columns(rest)
}

fn has_message_columns(columns: &[Column]) -> bool
    ensures { IsTrue result ↔ (columns.now ≡ drop 4 (entry_table 3).columns) }
{
    let [producer, sequence, time, rest @ ..] = columns else {
        return false;
    };
    is_required(producer, "producer", Kind::Text)
        && is_required(sequence, "sequence", Kind::Integer)
        && is_required(time, "time", Kind::Integer)
        && has_body_columns(rest)
}

fn has_place_columns(columns: &[Column]) -> bool
    ensures { IsTrue result ↔ (columns.now ≡ drop 2 (entry_table 3).columns) }
{
    let [ledger, entry, rest @ ..] = columns else {
        return false;
    };
    is_required(ledger, "ledger", Kind::Integer)
        && is_required(entry, "entry", Kind::Integer)
        && has_message_columns(rest)
}

fn has_entry_columns(columns: &[Column]) -> bool
    ensures { IsTrue result ↔ (columns.now ≡ (entry_table 3).columns) }
{
    let [topic, place, rest @ ..] = columns else {
        return false;
    };
    is_required(topic, "topic", Kind::Text)
        && is_required(place, "idx", Kind::Integer)
        && has_place_columns(rest)
}

fn is_entry(table: &Table) -> bool
    ensures { IsTrue result ↔ (table.now ≡ entry_table 3) }
{
    is_named(table, "entry", 3, &[1, 2]) && has_entry_columns(table.columns.as_slice())
}

fn is_sub(table: &Table) -> bool
    ensures { IsTrue result ↔ (table.now ≡ sub_table 5) }
{
    let [topic, name, kind] = table.columns.as_slice() else {
        return false;
    };
    is_named(table, "sub", 5, &[1, 2])
        && is_required(topic, "topic", Kind::Text)
        && is_required(name, "name", Kind::Text)
        && is_required(kind, "kind", Kind::Integer)
}

fn is_ack(table: &Table) -> bool
    ensures { IsTrue result ↔ (table.now ≡ ack_table 7) }
{
    let [topic, sub, first, last] = table.columns.as_slice() else {
        return false;
    };
    is_named(table, "ack", 7, &[1, 2, 3])
        && is_required(topic, "topic", Kind::Text)
        && is_required(sub, "sub", Kind::Text)
        && is_required(first, "first", Kind::Integer)
        && is_required(last, "last", Kind::Integer)
}

fn has_death_columns(columns: &[Column]) -> bool
    ensures { IsTrue result ↔ (columns.now ≡ drop 3 (dead_table 9).columns) }
{
    let [place, target] = columns else {
        return false;
    };
    is_required(place, "idx", Kind::Integer) && is_required(target, "target", Kind::Text)
}

fn has_dead_columns(columns: &[Column]) -> bool
    ensures { IsTrue result ↔ (columns.now ≡ (dead_table 9).columns) }
{
    let [topic, sub, ordinal, rest @ ..] = columns else {
        return false;
    };
    is_required(topic, "topic", Kind::Text)
        && is_required(sub, "sub", Kind::Text)
        && is_required(ordinal, "ordinal", Kind::Integer)
        && has_death_columns(rest)
}

fn is_dead(table: &Table) -> bool
    ensures { IsTrue result ↔ (table.now ≡ dead_table 9) }
{
    is_named(table, "dead", 9, &[1, 2, 3]) && has_dead_columns(table.columns.as_slice())
}

/// Which version has these tables, and no other.
pub(crate) fn version_with(tables: &[Table]) -> Option<Version>
    ensures found { IfSome result (λ version. tables.now ≡ (schema_of version).tables) }
    ensures known { (version : Version) → tables.now ≡ (schema_of version).tables → result ≡ Some version }
{
    let [meta, topic, entry, sub, ack, dead, rest @ ..] = tables else {
        return None;
    };
    if is_meta(meta)
        && is_topic(topic)
        && is_entry(entry)
        && is_sub(sub)
        && is_ack(ack)
        && is_dead(dead)
    {
        version_after(rest)
    } else {
        None
    }
}
