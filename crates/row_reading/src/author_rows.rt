// The rows of producers of messages that are gone.
ghost use Rattle.std.specs.Prelude.{◌≡◌, ◌+◌, ◌<◌, ◌≤◌, ◌≤ℤ◌, ◌∷◌, [], ℕ, ℤ, List, length, map, pos, IfNone, IfOk, IfSome, IsTrue, FitsSigned};
ghost use Rattle.std.specs.Int.{w64};
ghost use Rattle.std.specs.List.{list_any};
ghost use Rattle.std.specs.Str.{bytes_eq};
ghost use Rattle.sqlite.specs.declared.types.Value.TheVariants.{Int, Text as Words};
ghost use Rattle.sqlite.specs.Order.{column};
ghost use Rattle.delivery_machine.specs.State.{Author};
ghost use Rattle.delivery_machine.specs.WellFormed.{AreAuthors};
ghost use Rattle.row_forms.specs.Forms.{author_rows};
ghost use Rattle.row_reading.specs.Reading.{IsAuthorAt, IsReadableAuthor, IsText, RememberFromZero, ShowAuthors, put};

use crate::cells::{number_at, text_at, whole_at};
use delivery_machine::Author;
use position_core::ProducerName;
use sqlite::Row;
use std::alloc::{AllocError, Global};
use std::sync::ArcStr;

/// A name that a producer may have.
fn name_at(alloc: Global, row: &Row, at: usize) -> Result<Option<ProducerName>, AllocError>
    ensures shown { IfOk result (λ found. IfSome found (λ name. column row.now at ≡ Words name)) }
    ensures all_read { IfOk result (λ found. IfNone found ((name : List ℕ) → IsText 1 1280 name → column row.now at ≡ Words name → ⊥)) }
{
    match text_at(row, at) {
        Some(text) => Ok(ProducerName::new(ArcStr::from_str(alloc, text)?)),
        None => Ok(None),
    }
}

fn sequence_at(row: &Row, at: usize) -> Option<i64>
    ensures shown { IfSome result (λ n. column row.now at ≡ Int n) }
    ensures within { IfSome result (λ n. FitsSigned w64 n) }
    ensures from_zero { IfSome result (λ n. pos 0 ≤ℤ n) }
    ensures all_read { IfNone result ((n : ℤ) → pos 0 ≤ℤ n → column row.now at ≡ Int n → ⊥) }
{
    let sequence = number_at(row, at)?;
    if sequence < 0 { None } else { Some(sequence) }
}

/// A place that is not below `least`, and below `end`.
fn place_at(row: &Row, at: usize, least: u64, end: u64) -> Option<u64>
    ensures shown { IfSome result (λ n. column row.now at ≡ Int (pos n)) }
    ensures least { IfSome result (λ n. least ≤ n) }
    ensures below { IfSome result (λ n. n < end) }
    ensures all_read { IfNone result ((n : ℕ) → column row.now at ≡ Int (pos n) → least ≤ n → n < end → ⊥) }
{
    let place = whole_at(row, at)?;
    if place < least || place >= end {
        None
    } else {
        Some(place)
    }
}

/// The producer that the row shows: the place of its last message is not below `least`, and below `gone`.
fn author_in(alloc: Global, row: &Row, least: u64, gone: u64) -> Result<Option<Author>, AllocError>
    ensures shown { IfOk result (λ found. IfSome found (IsAuthorAt row.now)) }
    ensures from_zero { IfOk result (λ found. IfSome found (λ a. pos 0 ≤ℤ a.sequence)) }
    ensures least { IfOk result (λ found. IfSome found (λ a. least ≤ a.index)) }
    ensures below { IfOk result (λ found. IfSome found (λ a. a.index < gone)) }
    ensures all_read { IfOk result (λ found. IfNone found ((a : Author) → IsReadableAuthor a → IsAuthorAt row.now a → least ≤ a.index → a.index < gone → ⊥)) }
{
    if row.column_count() != 3 {
        return Ok(None);
    }
    let Some(index) = place_at(row, 0, least, gone) else {
        return Ok(None);
    };
    let Some(sequence) = sequence_at(row, 2) else {
        return Ok(None);
    };
    match name_at(alloc, row, 1)? {
        Some(name) => Ok(Some(Author {
            name,
            sequence,
            index,
        })),
        None => Ok(None),
    }
}

/// Whether one of them has the name.
fn is_known(authors: &[Author], name: &ProducerName) -> bool
    ensures { result ≡ list_any (λ a. bytes_eq a.name name.now) authors.now }
{
    authors.iter().any(|author| author.name.is(name))
}

/// Puts the producers that the rows show into the empty list, and says whether they are such.
fn put_authors(
    alloc: Global,
    rows: &[Row],
    gone: u64,
    authors: &mut Vec<Author>,
) -> Result<bool, AllocError>
    requires { authors.old.items ≡ [] }
    ensures rows { IfOk result (λ whole. IsTrue whole → (topic : List ℕ) → put topic rows.now ≡ author_rows topic authors.new.items) }
    ensures sound { IfOk result (λ whole. IsTrue whole → AreAuthors gone authors.new.items) }
    ensures from_zero { IfOk result (λ whole. IsTrue whole → RememberFromZero authors.new.items) }
    ensures all_read { IfOk result (λ whole. (topic : List ℕ) (all : List Author) → ShowAuthors gone topic all rows.now → IsTrue whole × (authors.new.items ≡ all)) }
{
    let mut least = 0;
    'rows: for row in rows {
        let Some(author) = author_in(alloc, row, least, gone)? else {
            return Ok(false);
        };
        if is_known(authors, &author.name) {
            drop(author);
            return Ok(false);
        }
        least = author.index + 1;
        authors.push(author)?;
    }
    Ok(true)
}

/// The producers that the rows show, where `gone` messages are gone. None where a name stands twice, or a place does not rise or
/// is that of no message that is gone. Each name is compared with those before it.
pub(crate) fn authors_in(
    alloc: Global,
    rows: &[Row],
    gone: u64,
) -> Result<Option<Vec<Author>>, AllocError>
    ensures rows { IfOk result (λ found. IfSome found (λ authors. (topic : List ℕ) → put topic rows.now ≡ author_rows topic authors.items)) }
    ensures sound { IfOk result (λ found. IfSome found (λ authors. AreAuthors gone authors.items)) }
    ensures from_zero { IfOk result (λ found. IfSome found (λ authors. RememberFromZero authors.items)) }
    ensures all_read { IfOk result (λ found. IfNone found ((topic : List ℕ) (all : List Author) → ShowAuthors gone topic all rows.now → ⊥)) }
{
    let mut authors = Vec::new(alloc);
    match put_authors(alloc, rows, gone, &mut authors) {
        Ok(true) => Ok(Some(authors)),
        Ok(false) => {
            drop(authors);
            Ok(None)
        }
        Err(e) => {
            drop(authors);
            Err(e)
        }
    }
}
