// Whether the indexes are those of a version, one by one.
ghost use Rattle.std.specs.Prelude.{◌≡◌, ◌↔◌, drop, IsTrue};
ghost use Rattle.row_forms.specs.Schema.{index_of};
ghost use Rattle.row_schema.specs.Versions.{schema_of};

use crate::version::Version;
use sqlite_schema::schema::Index;

fn is_index(index: &Index, name: &str, tree: u32, table: u32, key: &[usize]) -> bool
    ensures { IsTrue result ↔ (index.now ≡ index_of name.now tree table key.now) }
{
    index.name.as_slice() == name.as_bytes()
        && index.tree == tree
        && index.table == table
        && index.columns.as_slice() == key
        && index.order.digits == 0
        && index.is_unique
}

/// Whether the version has these indexes after the first five.
fn are_after(indexes: &[Index], version: Version) -> bool
    ensures { IsTrue result ↔ (indexes.now ≡ drop 5 (schema_of version).indexes) }
{
    match (version, indexes) {
        (Version::One, []) => true,
        (Version::Two, [redelivery]) => is_index(
            redelivery,
            "sqlite_autoindex_redelivery_1",
            12,
            11,
            &[1, 2, 3],
        ),
        (Version::Three, [redelivery, author, retention]) => {
            is_index(
                redelivery,
                "sqlite_autoindex_redelivery_1",
                12,
                11,
                &[1, 2, 3],
            ) && is_index(author, "sqlite_autoindex_author_1", 14, 13, &[1, 2])
                && is_index(retention, "sqlite_autoindex_retention_1", 16, 15, &[1])
        }
        _ => false,
    }
}

fn has_last_indexes(indexes: &[Index], version: Version) -> bool
    ensures { IsTrue result ↔ (indexes.now ≡ drop 3 (schema_of version).indexes) }
{
    let [ack, dead, rest @ ..] = indexes else {
        return false;
    };
    is_index(ack, "sqlite_autoindex_ack_1", 8, 7, &[1, 2, 3])
        && is_index(dead, "sqlite_autoindex_dead_1", 10, 9, &[1, 2, 3])
        && are_after(rest, version)
}

fn has_subscription_indexes(indexes: &[Index], version: Version) -> bool
    ensures { IsTrue result ↔ (indexes.now ≡ drop 2 (schema_of version).indexes) }
{
    let [sub, rest @ ..] = indexes else {
        return false;
    };
    is_index(sub, "sqlite_autoindex_sub_1", 6, 5, &[1, 2]) && has_last_indexes(rest, version)
}

/// Whether the version has these indexes, and no other.
pub(crate) fn are_indexes_of(indexes: &[Index], version: Version) -> bool
    ensures { IsTrue result ↔ (indexes.now ≡ (schema_of version).indexes) }
{
    let [topic, entry, rest @ ..] = indexes else {
        return false;
    };
    is_index(topic, "sqlite_autoindex_topic_1", 2, 1, &[1])
        && is_index(entry, "sqlite_autoindex_entry_1", 4, 3, &[1, 2])
        && has_subscription_indexes(rest, version)
}
