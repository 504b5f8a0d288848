// The rows of messages.
ghost use Rattle.std.specs.Prelude.{◌≡◌, ◌≤◌, ◌<◌, ◌^◌, ◌+◌, [], ◌++◌, ◌∷◌, pos, ℕ, ℤ, List, Option, length, IfNone, IfOk, IfSome, option_map, string_bytes, IsTrue, map, FitsSigned, ◌≤ℤ◌};
ghost use Rattle.std.specs.Int.{w64};
ghost use Rattle.std.specs.Option.{option_copied};
ghost use Rattle.position_core.specs.declared.message.Entry.{Entry};
ghost use Rattle.position_core.specs.Position.{position_cmp};
ghost use Rattle.sqlite.specs.declared.types.Value.TheVariants.{Int, Text as Words, Blob as Octets};
ghost use Rattle.sqlite.specs.Order.{column};
ghost use Rattle.json_values.specs.Written.{AreProperties};
ghost use Rattle.row_forms.specs.Forms.{key_cells};
ghost use Rattle.row_forms.specs.Properties.{properties_text};
ghost use Rattle.row_reading.specs.Reading.{AreTexts, IsEntryAt, IsNext, IsReadableMessage, IsText};

use crate::cells::{bytes_at, number_at, text_at, whole_at};
use crate::topic_row::Head;
use json_values::properties_in;
use position_core::{
    Body, Content, Entry, Key, Message, Moment, Payload, Position, ProducerName, Properties,
};
use sqlite::Row;
use std::alloc::{AllocError, Global};
use std::sync::ArcStr;

/// The last ledger of a message.
const LAST_LEDGER: u64 = 4_611_686_018_427_387_904;

/// The name, where it is this text.
fn same_name<'a>(before: Option<&'a ProducerName>, text: &str) -> Option<&'a ProducerName>
    ensures { IfSome result (λ name. name.now ≡ text.now) }
{
    let name = before?;
    if name.as_str() == text {
        Some(name)
    } else {
        None
    }
}

/// The producer's name. Where it is that of the message before, it is shared with that message.
fn producer_at(
    alloc: Global,
    row: &Row,
    at: usize,
    before: Option<&ProducerName>,
) -> Result<Option<ProducerName>, AllocError>
    ensures shown { IfOk result (λ found. IfSome found (λ name. column row.now at ≡ Words name)) }
    ensures all_read { IfOk result (λ found. IfNone found ((name : List ℕ) → IsText 1 1280 name → column row.now at ≡ Words name → ⊥)) }
{
    let Some(text) = text_at(row, at) else {
        return Ok(None);
    };
    match same_name(before, text) {
        Some(name) => Ok(Some(name.clone()?)),
        None => Ok(ProducerName::new(ArcStr::from_str(alloc, text)?)),
    }
}

fn key_of(alloc: Global, text: &str) -> Result<Option<Key>, AllocError>
    ensures value { IfOk result (λ found. IfSome found (λ key. key ≡ text.now)) }
    ensures all_read { IfOk result (λ found. IfNone found (length text.now ≤ 1024 → ⊥)) }
{
    Ok(Key::new(ArcStr::from_str(alloc, text)?))
}

/// Whether there is a key, and which.
fn key_at(alloc: Global, row: &Row) -> Result<Option<Option<Key>>, AllocError>
    ensures shown { IfOk result (λ found. IfSome found (λ key. column row.now 6 ∷ column row.now 7 ∷ [] ≡ key_cells key)) }
    ensures all_read { IfOk result (λ found. IfNone found ((key : Option (List ℕ)) → IfSome key (IsText 0 1024) → column row.now 6 ∷ column row.now 7 ∷ [] ≡ key_cells key → ⊥)) }
{
    let Some(text) = text_at(row, 7) else {
        return Ok(None);
    };
    match whole_at(row, 6) {
        Some(0) => if text.is_empty() {
            Ok(Some(None))
        } else {
            Ok(None)
        },
        Some(1) => match key_of(alloc, text)? {
            Some(key) => Ok(Some(Some(key))),
            None => Ok(None),
        },
        _ => Ok(None),
    }
}

fn properties_at(alloc: Global, row: &Row) -> Result<Option<Properties>, AllocError>
    ensures shown { IfOk result (λ found. IfSome found (λ properties. column row.now 8 ≡ Words (properties_text properties))) }
    ensures all_read { IfOk result (λ found. IfNone found ((properties : List (List ℕ × List ℕ)) → AreProperties properties → AreTexts properties → column row.now 8 ≡ Words (properties_text properties) → ⊥)) }
{
    match text_at(row, 8) {
        Some(text) => properties_in(alloc, text),
        None => Ok(None),
    }
}

fn payload_at(alloc: Global, row: &Row) -> Result<Option<Payload>, AllocError>
    ensures shown { IfOk result (λ found. IfSome found (λ payload. column row.now 9 ≡ Octets payload)) }
    ensures all_read { IfOk result (λ found. IfNone found ((bytes : List ℕ) → length bytes ≤ 1048576 → column row.now 9 ≡ Octets bytes → ⊥)) }
{
    let Some(bytes) = bytes_at(row, 9) else {
        return Ok(None);
    };
    Ok(Payload::new(Vec::from_slice(alloc, bytes)?))
}

fn content_at(alloc: Global, row: &Row) -> Result<Option<Content>, AllocError>
    ensures key { IfOk result (λ found. IfSome found (λ content. column row.now 6 ∷ column row.now 7 ∷ [] ≡ key_cells content.key)) }
    ensures properties { IfOk result (λ found. IfSome found (λ content. column row.now 8 ≡ Words (properties_text content.properties))) }
    ensures payload { IfOk result (λ found. IfSome found (λ content. column row.now 9 ≡ Octets content.payload)) }
    ensures all_read { IfOk result (λ found. IfNone found ((key : Option (List ℕ)) (properties : List (List ℕ × List ℕ)) (payload : List ℕ) → IfSome key (IsText 0 1024) → AreProperties properties → AreTexts properties → length payload ≤ 1048576
        → column row.now 6 ∷ column row.now 7 ∷ [] ≡ key_cells key → column row.now 8 ≡ Words (properties_text properties) → column row.now 9 ≡ Octets payload → ⊥)) }
{
    let Some(key) = key_at(alloc, row)? else {
        return Ok(None);
    };
    let Some(properties) = properties_at(alloc, row)? else {
        return Ok(None);
    };
    let Some(payload) = payload_at(alloc, row)? else {
        return Ok(None);
    };
    Ok(Some(Content {
        key,
        properties,
        payload,
    }))
}

fn position_at(row: &Row) -> Option<Position>
    ensures shown { IfSome result (λ p. (column row.now 1 ≡ Int (pos p.ledger)) × (column row.now 2 ≡ Int (pos p.entry))) }
    ensures all_read { IfNone result ((ledger entry : ℕ) → column row.now 1 ≡ Int (pos ledger) → column row.now 2 ≡ Int (pos entry) → ⊥) }
{
    Some(Position {
        ledger: whole_at(row, 1)?,
        entry: whole_at(row, 2)?,
    })
}

fn sequence_at(row: &Row) -> Option<i64>
    ensures shown { IfSome result (λ n. column row.now 4 ≡ Int n) }
    ensures within { IfSome result (λ n. FitsSigned w64 n) }
    ensures from_zero { IfSome result (λ n. pos 0 ≤ℤ n) }
    ensures all_read { IfNone result ((n : ℤ) → pos 0 ≤ℤ n → column row.now 4 ≡ Int n → ⊥) }
{
    let sequence = number_at(row, 4)?;
    if sequence < 0 { None } else { Some(sequence) }
}

fn moment_at(row: &Row) -> Option<Moment>
    ensures shown { IfSome result (λ t. column row.now 5 ≡ Int (pos t)) }
    ensures all_read { IfNone result ((t : ℕ) → t ≤ 253402300799999 → column row.now 5 ≡ Int (pos t) → ⊥) }
{
    Moment::new(whole_at(row, 5)?)
}

fn is_at(row: &Row, place: u64) -> bool
    ensures shown { IsTrue result → (length row.now ≡ 10) × (column row.now 0 ≡ Int (pos place)) }
    ensures all_read { length row.now ≡ 10 → column row.now 0 ≡ Int (pos place) → IsTrue result }
{
    row.column_count() == 10 && whole_at(row, 0) == Some(place)
}

fn entry_of(
    position: Position,
    producer: ProducerName,
    sequence: i64,
    time: Moment,
    body: Body,
) -> Entry
    ensures { result ≡ record { position = position; producer = producer; sequence = sequence; time = time; body = body } }
{
    Entry {
        position,
        producer,
        sequence,
        time,
        body,
    }
}

/// The message that the row shows at this place, and the producer of the one before.
fn entry_in(
    alloc: Global,
    row: &Row,
    place: u64,
    before: Option<&ProducerName>,
) -> Result<Option<Entry>, AllocError>
    ensures shown { IfOk result (λ found. IfSome found (IsEntryAt place row.now)) }
    ensures from_zero { IfOk result (λ found. IfSome found (λ e. pos 0 ≤ℤ e.sequence)) }
    ensures all_read { IfOk result (λ found. IfNone found ((e : Entry) → IsReadableMessage e → IsEntryAt place row.now e → ⊥)) }
{
    if !is_at(row, place) {
        return Ok(None);
    }
    let Some(position) = position_at(row) else {
        return Ok(None);
    };
    let Some(producer) = producer_at(alloc, row, 3, before)? else {
        return Ok(None);
    };
    let Some(sequence) = sequence_at(row) else {
        return Ok(None);
    };
    let Some(time) = moment_at(row) else {
        return Ok(None);
    };
    let Some(content) = content_at(alloc, row)? else {
        return Ok(None);
    };
    let body = Body::new(alloc, content)?;
    Ok(Some(entry_of(position, producer, sequence, time, body)))
}

/// Whether a message at the position may come after the last one.
fn may_follow(last: Option<Position>, position: Position, head: &Head) -> bool
    ensures next { IsTrue result → IsNext head.now.ledger_size head.now.ledger last position }
    ensures all_follow { IsNext head.now.ledger_size head.now.ledger last position → IsTrue result }
{
    let is_after = match last {
        Some(last) => last < position,
        None => true,
    };
    is_after
        && position.ledger <= head.ledger
        && position.ledger <= LAST_LEDGER
        && position.entry < u64::from(head.ledger_size.get())
}

/// The position and the producer of a message, if there is one.
fn parts_of(message: Option<&Message>) -> (Option<Position>, Option<&ProducerName>)
    ensures { result.0 ≡ option_map (λ e. e.position) (option_copied message.entry) }
{
    match message {
        Some(message) => (Some(message.position()), Some(&message.entry().producer)),
        None => (None, None),
    }
}

/// The message that the row shows at this place, if it may come after the one before.
pub(crate) fn next_in(
    alloc: Global,
    row: &Row,
    place: u64,
    before: Option<&Message>,
    head: &Head,
) -> Result<Option<Message>, AllocError>
    ensures shown { IfOk result (λ found. IfSome found (IsEntryAt place row.now)) }
    ensures from_zero { IfOk result (λ found. IfSome found (λ e. pos 0 ≤ℤ e.sequence)) }
    ensures next { IfOk result (λ found. IfSome found (λ e. IsNext head.now.ledger_size head.now.ledger (option_map (λ e. e.position) (option_copied before.entry)) e.position)) }
    ensures all_read { IfOk result (λ found. IfNone found ((e : Entry) → IsReadableMessage e → IsEntryAt place row.now e → IsNext head.now.ledger_size head.now.ledger (option_map (λ e. e.position) (option_copied before.entry)) e.position → ⊥)) }
{
    let (last, producer) = parts_of(before);
    match entry_in(alloc, row, place, producer)? {
        Some(entry) => if may_follow(last, entry.position, head) {
            Ok(Some(Message::new(alloc, entry)?))
        } else {
            Ok(None)
        },
        None => Ok(None),
    }
}
