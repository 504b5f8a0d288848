// Whether the tables after the first six are those of a version.
ghost use Rattle.std.specs.Prelude.{◌≡◌, ◌↔◌, [], ◌∷◌, drop, Some, IfSome, IsTrue};
ghost use Rattle.row_forms.specs.Schema.{redelivery_table, author_table, retention_table};
ghost use Rattle.row_schema.specs.Versions.{schema_of};

use crate::tables::{is_named, is_required};
use crate::version::Version;
use sqlite_schema::schema::{Column, Kind, Table};

fn has_count_columns(columns: &[Column]) -> bool
    ensures { IsTrue result ↔ (columns.now ≡ (redelivery_table 11).columns) }
{
    let [topic, sub, place, times] = columns else {
        return false;
    };
    is_required(topic, "topic", Kind::Text)
        && is_required(sub, "sub", Kind::Text)
        && is_required(place, "idx", Kind::Integer)
        && is_required(times, "times", Kind::Integer)
}

fn is_redelivery(table: &Table) -> bool
    ensures { IsTrue result ↔ (table.now ≡ redelivery_table 11) }
{
    is_named(table, "redelivery", 11, &[1, 2, 3]) && has_count_columns(table.columns.as_slice())
}

fn is_author(table: &Table) -> bool
    ensures { IsTrue result ↔ (table.now ≡ author_table 13) }
{
    let [topic, place, producer, sequence] = table.columns.as_slice() else {
        return false;
    };
    is_named(table, "author", 13, &[1, 2])
        && is_required(topic, "topic", Kind::Text)
        && is_required(place, "idx", Kind::Integer)
        && is_required(producer, "producer", Kind::Text)
        && is_required(sequence, "sequence", Kind::Integer)
}

fn is_retention(table: &Table) -> bool
    ensures { IsTrue result ↔ (table.now ≡ retention_table 15) }
{
    let [topic, gone, kind, amount] = table.columns.as_slice() else {
        return false;
    };
    is_named(table, "retention", 15, &[1])
        && is_required(topic, "topic", Kind::Text)
        && is_required(gone, "gone", Kind::Integer)
        && is_required(kind, "kind", Kind::Integer)
        && is_required(amount, "amount", Kind::Integer)
}

/// Which version has these tables after the first six.
pub(crate) fn version_after(tables: &[Table]) -> Option<Version>
    ensures found { IfSome result (λ version. tables.now ≡ drop 6 (schema_of version).tables) }
    ensures known { (version : Version) → tables.now ≡ drop 6 (schema_of version).tables → result ≡ Some version }
{
    match tables {
        [] => Some(Version::One),
        [redelivery] if is_redelivery(redelivery) => Some(Version::Two),
        [redelivery, author, retention]
            if is_redelivery(redelivery) && is_author(author) && is_retention(retention) => {
            Some(Version::Three)
        }
        _ => None,
    }
}
