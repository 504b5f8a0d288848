// What stands in a row's columns.
ghost use Rattle.std.specs.Prelude.{◌≡◌, ℕ, ℤ, List, pos, IfNone, IfSome, IsTrue, IsUtf8};
ghost use Rattle.sqlite.specs.declared.types.Value.TheVariants.{Int, Text as Words, Blob as Octets};
ghost use Rattle.sqlite.specs.Order.{column};

use sqlite::Row;
use sqlite::types::ValueRef;

pub(crate) fn number_at(row: &Row, at: usize) -> Option<i64>
    ensures shown { IfSome result (λ n. column row.now at ≡ Int n) }
    ensures all_read { IfNone result ((n : ℤ) → column row.now at ≡ Int n → ⊥) }
{
    match row.get_ref(at) {
        Ok(ValueRef::Int(number)) => Some(number),
        _ => None,
    }
}

/// A whole number that is not negative.
pub(crate) fn whole_at(row: &Row, at: usize) -> Option<u64>
    ensures shown { IfSome result (λ n. column row.now at ≡ Int (pos n)) }
    ensures all_read { IfNone result ((n : ℕ) → column row.now at ≡ Int (pos n) → ⊥) }
{
    u64::try_from(number_at(row, at)?).ok()
}

pub(crate) fn text_at(row: &Row, at: usize) -> Option<&str>
    ensures shown { IfSome result (λ text. column row.now at ≡ Words text.now) }
    ensures all_read { IfNone result ((text : List ℕ) → IsUtf8 text → column row.now at ≡ Words text → ⊥) }
{
    match row.get_ref(at) {
        Ok(ValueRef::Text(bytes)) => std::str::from_utf8(bytes).ok(),
        _ => None,
    }
}

pub(crate) fn bytes_at(row: &Row, at: usize) -> Option<&[u8]>
    ensures shown { IfSome result (λ bytes. column row.now at ≡ Octets bytes.now) }
    ensures all_read { IfNone result ((bytes : List ℕ) → column row.now at ≡ Octets bytes → ⊥) }
{
    match row.get_ref(at) {
        Ok(ValueRef::Blob(bytes)) => Some(bytes),
        _ => None,
    }
}

/// Whether the text stands in the column.
pub(crate) fn is_text(row: &Row, at: usize, text: &str) -> bool
    ensures shown { IsTrue result → column row.now at ≡ Words text.now }
    ensures all_read { column row.now at ≡ Words text.now → IsTrue result }
{
    match text_at(row, at) {
        Some(found) => found == text,
        None => false,
    }
}
