// The rows of dead letters.
ghost use Rattle.std.specs.Prelude.{◌≡◌, ◌+◌, ◌<◌, ◌≤◌, ◌∷◌, ◌^◌, [], ℕ, List, false, not, length, pos, IfNone, IfOk, IfSome, IsTrue, IsUtf8};
ghost use Rattle.std.specs.List.{All};
ghost use Rattle.std.specs.FinSet as set;
ghost use Rattle.sqlite.specs.declared.types.Value.TheVariants.{Int, Text as Words};
ghost use Rattle.sqlite.specs.Order.{Row, column};
ghost use Rattle.position_core.specs.declared.topic_name.TopicName.{TopicName};
ghost use Rattle.position_core.specs.TopicName.{same_topic, topic_text};
ghost use Rattle.delivery_machine.specs.State.{DeadLetter};
ghost use Rattle.delivery_machine.specs.WellFormed.{AreDeadLettersOf, has_message};
ghost use Rattle.row_forms.specs.Forms.{index_in};
ghost use Rattle.row_forms.specs.Parts.{IsRising};
ghost use Rattle.row_reading.specs.Places.{seen};
ghost use Rattle.row_reading.specs.Reading.{AreDeadAt, ArePast, AreReadable, BeginsWithLetters, IsLetterAt, IsLetterOf, IsNamed, IsReadable, OrdinalsCame};

use crate::cells::{is_text, text_at, whole_at};
use crate::places::{Kept, index_at, position_of};
use ack_ranges::AckSet;
use delivery_machine::DeadLetter;
use position_core::{Ordinal, SubscriptionName, TopicName};
use sqlite::Row;
use std::alloc::{AllocError, Global};
use value_texts::read_topic_name;

/// What dead letters are read for: the topic, its log and its next ordinal.
#[derive(Clone, Copy)]
pub(crate) struct Deaths<'a> {
    pub(crate) topic: &'a TopicName,
    pub(crate) kept: Kept<'a>,
    pub(crate) next_ordinal: Ordinal,
}

/// A dead letter, and the index of its message in the log.
#[derive(Drop)]
struct Placed {
    letter: DeadLetter,
    index: u64,
}

/// Whether it is another topic's name.
fn is_other(name: &TopicName, own: &TopicName) -> bool
    ensures other { result ≡ not (same_topic name.now own.now) }
    ensures named { IsNamed name.now }
{
    let _tenant = name.tenant.as_str();
    let _namespace = name.namespace.as_str();
    let _topic = name.topic.as_str();
    !name.is(own)
}

/// Another topic's name.
fn target_at(
    alloc: Global,
    row: &Row,
    at: usize,
    own: &TopicName,
) -> Result<Option<TopicName>, AllocError>
    ensures shown { IfOk result (λ found. IfSome found (λ name. column row.now at ≡ Words (topic_text name))) }
    ensures named { IfOk result (λ found. IfSome found IsNamed) }
    ensures elsewhere { IfOk result (λ found. IfSome found (λ name. same_topic name own.now ≡ false)) }
    ensures all_read { IfOk result (λ found. IfNone found ((name : TopicName) → IsNamed name → same_topic name own.now ≡ false → IsUtf8 (topic_text name) → column row.now at ≡ Words (topic_text name) → ⊥)) }
{
    let Some(text) = text_at(row, at) else {
        return Ok(None);
    };
    match read_topic_name(alloc, text)? {
        Some(name) => if is_other(&name, own) {
            Ok(Some(name))
        } else {
            Ok(None)
        },
        None => Ok(None),
    }
}

/// An ordinal below the next one.
fn ordinal_at(row: &Row, at: usize, next: Ordinal) -> Option<Ordinal>
    ensures shown { IfSome result (λ n. column row.now at ≡ Int (pos n)) }
    ensures given { IfSome result (λ n. n < next) }
    ensures all_read { IfNone result ((n : ℕ) → column row.now at ≡ Int (pos n) → n < next → ⊥) }
{
    let ordinal = whole_at(row, at)?;
    if ordinal < next { Some(ordinal) } else { None }
}

/// The dead letter of the subscription that the row shows.
fn letter_in(
    alloc: Global,
    row: &Row,
    name: &SubscriptionName,
    deaths: Deaths<'_>,
) -> Result<Option<Placed>, AllocError>
    requires { IsRising (seen deaths.kept).log }
    ensures shown { IfOk result (λ found. IfSome found (λ f. IsLetterAt name.now (seen deaths.entry.kept) row.now f.letter)) }
    ensures index { IfOk result (λ found. IfSome found (λ f. f.index ≡ index_in (seen deaths.entry.kept).log f.letter.position)) }
    ensures within { IfOk result (λ found. IfSome found (λ f. f.index < length (seen deaths.entry.kept).log)) }
    ensures message { IfOk result (λ found. IfSome found (λ f. IsTrue (has_message (seen deaths.entry.kept).log f.letter.position))) }
    ensures letter { IfOk result (λ found. IfSome found (λ f. IsLetterOf deaths.entry.topic.now deaths.entry.next_ordinal f.letter)) }
    ensures all_read { IfOk result (λ found. IfNone found ((d : DeadLetter) → IsReadable deaths.entry.topic.now (seen deaths.entry.kept).log deaths.entry.next_ordinal d → IsLetterAt name.now (seen deaths.entry.kept) row.now d → ⊥)) }
{
    if row.column_count() != 4 || !is_text(row, 0, name.as_str()) {
        return Ok(None);
    }
    let Some(ordinal) = ordinal_at(row, 1, deaths.next_ordinal) else {
        return Ok(None);
    };
    let Some(index) = index_at(row, 2, deaths.kept.gone) else {
        return Ok(None);
    };
    let Some(position) = position_of(deaths.kept.log, index) else {
        return Ok(None);
    };
    let Some(target) = target_at(alloc, row, 3, deaths.topic)? else {
        return Ok(None);
    };
    let letter = DeadLetter {
        position,
        target,
        ordinal,
    };
    Ok(Some(Placed { letter, index }))
}

/// Adds the number, and says whether it was not there.
fn is_new(numbers: &mut AckSet, number: u64) -> Result<bool, AllocError>
    requires { number + 1 < 2 ^ 64 }
    ensures new { IfOk result (λ b. b ≡ not (set.contains numbers.old number)) }
    ensures added { IfOk result (λ b. IsTrue b → numbers.new ≡ set.insert numbers.old number) }
{
    if numbers.contains(number) {
        return Ok(false);
    }
    match numbers.add(number) {
        Ok(()) => Ok(true),
        Err(e) => Err(e),
    }
}

/// Whether a letter with the index and the ordinal may come next: `least` is not above the ordinal, and neither
/// number was there. Adds both.
fn may_come(
    least: Ordinal,
    indexes: &mut AckSet,
    index: u64,
    ordinals: &mut AckSet,
    ordinal: Ordinal,
) -> Result<bool, AllocError>
    requires index { index + 1 < 2 ^ 64 }
    requires ordinal { ordinal + 1 < 2 ^ 64 }
    ensures least { IfOk result (λ b. IsTrue b → least ≤ ordinal) }
    ensures all_come { IfOk result (λ b. least ≤ ordinal → set.contains indexes.old index ≡ false → set.contains ordinals.old ordinal ≡ false → IsTrue b) }
    ensures new_index { IfOk result (λ b. IsTrue b → set.contains indexes.old index ≡ false) }
    ensures index { IfOk result (λ b. IsTrue b → indexes.new ≡ set.insert indexes.old index) }
    ensures new_ordinal { IfOk result (λ b. IsTrue b → set.contains ordinals.old ordinal ≡ false) }
    ensures ordinal { IfOk result (λ b. IsTrue b → ordinals.new ≡ set.insert ordinals.old ordinal) }
{
    if ordinal < least || !is_new(indexes, index)? {
        Ok(false)
    } else {
        is_new(ordinals, ordinal)
    }
}

/// The dead letter of the subscription that the row shows, if it may come next. Adds its index and its ordinal.
fn next_letter(
    alloc: Global,
    row: &Row,
    name: &SubscriptionName,
    deaths: Deaths<'_>,
    least: Ordinal,
    indexes: &mut AckSet,
    ordinals: &mut AckSet,
) -> Result<Option<DeadLetter>, AllocError>
    requires rising { IsRising (seen deaths.kept).log }
    requires short { length (seen deaths.kept).log ≤ 1048576 }
    requires last { deaths.next_ordinal ≤ 2 ^ 62 }
    ensures shown { IfOk result (λ found. IfSome found (IsLetterAt name.now (seen deaths.entry.kept) row.now)) }
    ensures message { IfOk result (λ found. IfSome found (λ d. IsTrue (has_message (seen deaths.entry.kept).log d.position))) }
    ensures letter { IfOk result (λ found. IfSome found (IsLetterOf deaths.entry.topic.now deaths.entry.next_ordinal)) }
    ensures least { IfOk result (λ found. IfSome found (λ d. least ≤ d.ordinal)) }
    ensures new_index { IfOk result (λ found. IfSome found (λ d. set.contains indexes.old (index_in (seen deaths.entry.kept).log d.position) ≡ false)) }
    ensures index { IfOk result (λ found. IfSome found (λ d. indexes.new ≡ set.insert indexes.old (index_in (seen deaths.entry.kept).log d.position))) }
    ensures new_ordinal { IfOk result (λ found. IfSome found (λ d. set.contains ordinals.old d.ordinal ≡ false)) }
    ensures ordinal { IfOk result (λ found. IfSome found (λ d. ordinals.new ≡ set.insert ordinals.old d.ordinal)) }
    ensures all_come { IfOk result (λ found. IfNone found ((d : DeadLetter) → IsReadable deaths.entry.topic.now (seen deaths.entry.kept).log deaths.entry.next_ordinal d → IsLetterAt name.now (seen deaths.entry.kept) row.now d
        → least ≤ d.ordinal → set.contains indexes.old (index_in (seen deaths.entry.kept).log d.position) ≡ false → set.contains ordinals.old d.ordinal ≡ false → ⊥)) }
{
    match letter_in(alloc, row, name, deaths) {
        Ok(Some(Placed { letter, index })) => match may_come(
            least,
            indexes,
            index,
            ordinals,
            letter.ordinal,
        ) {
            Ok(true) => Ok(Some(letter)),
            Ok(false) => {
                drop(letter);
                Ok(None)
            }
            Err(e) => {
                drop(letter);
                Err(e)
            }
        },
        Ok(None) => Ok(None),
        Err(e) => Err(e),
    }
}

/// Puts those of the subscription, whose rows are the first ones, into the empty list, and gives the rows that
/// follow. `indexes` takes in those of their messages, and `ordinals` theirs.
fn put_letters<'a>(
    alloc: Global,
    name: &SubscriptionName,
    rows: &'a [Row],
    deaths: Deaths<'_>,
    indexes: &mut AckSet,
    ordinals: &mut AckSet,
    letters: &mut Vec<DeadLetter>,
) -> Result<Option<&'a [Row]>, AllocError>
    requires rising { IsRising (seen deaths.kept).log }
    requires short { length (seen deaths.kept).log ≤ 1048576 }
    requires last { deaths.next_ordinal ≤ 2 ^ 62 }
    requires empty { letters.old.items ≡ [] }
    requires no_indexes { indexes.old ≡ set.empty }
    ensures rows { IfOk result (λ found. IfSome found (λ rest. BeginsWithLetters name.now (seen deaths.entry.kept) letters.new.items rows.now rest.now)) }
    ensures dead { IfOk result (λ found. IfSome found (λ _. AreDeadLettersOf (seen deaths.entry.kept).log letters.new.items)) }
    ensures indexes { IfOk result (λ found. IfSome found (λ _. AreDeadAt (seen deaths.entry.kept).log letters.new.items indexes.new)) }
    ensures letters { IfOk result (λ found. IfSome found (λ _. All (IsLetterOf deaths.entry.topic.now deaths.entry.next_ordinal) letters.new.items)) }
    ensures ordinals { IfOk result (λ found. IfSome found (λ _. OrdinalsCame letters.new.items ordinals.old ordinals.new)) }
    ensures past { IfOk result (λ found. IfSome found (λ rest. ArePast name.now rest.now)) }
    ensures all_read { IfOk result (λ found. IfNone found ((ds : List DeadLetter) (rest : List Row) → AreReadable deaths.entry.topic.now (seen deaths.entry.kept).log deaths.entry.next_ordinal ordinals.old ds
        → BeginsWithLetters name.now (seen deaths.entry.kept) ds rows.now rest → ArePast name.now rest → ⊥)) }
{
    let mut least = 0;
    let mut rest = rows;
    'letters: while let Some((row, after)) = rest.split_first() {
        if !is_text(row, 0, name.as_str()) {
            return Ok(Some(rest));
        }
        match next_letter(alloc, row, name, deaths, least, indexes, ordinals)? {
            Some(letter) => {
                least = letter.ordinal + 1;
                letters.push(letter)?;
                rest = after;
            }
            None => return Ok(None),
        }
    }
    Ok(Some(rest))
}

/// Those of the subscription, whose rows are the first ones, the indexes of their messages, and the rows that follow.
/// `ordinals` has those of the topic's letters so far, and takes these in. None where a message is dead twice, or an
/// ordinal does not rise or stands in the topic already.
pub(crate) fn letters_in<'a>(
    alloc: Global,
    name: &SubscriptionName,
    rows: &'a [Row],
    deaths: Deaths<'_>,
    ordinals: &mut AckSet,
) -> Result<Option<(Vec<DeadLetter>, AckSet, &'a [Row])>, AllocError>
    requires rising { IsRising (seen deaths.kept).log }
    requires short { length (seen deaths.kept).log ≤ 1048576 }
    requires last { deaths.next_ordinal ≤ 2 ^ 62 }
    ensures rows { IfOk result (λ found. IfSome found (λ r. BeginsWithLetters name.now (seen deaths.entry.kept) r.0.items rows.now r.2.now)) }
    ensures dead { IfOk result (λ found. IfSome found (λ r. AreDeadLettersOf (seen deaths.entry.kept).log r.0.items)) }
    ensures indexes { IfOk result (λ found. IfSome found (λ r. AreDeadAt (seen deaths.entry.kept).log r.0.items r.1)) }
    ensures letters { IfOk result (λ found. IfSome found (λ r. All (IsLetterOf deaths.entry.topic.now deaths.entry.next_ordinal) r.0.items)) }
    ensures ordinals { IfOk result (λ found. IfSome found (λ r. OrdinalsCame r.0.items ordinals.old ordinals.new)) }
    ensures past { IfOk result (λ found. IfSome found (λ r. ArePast name.now r.2.now)) }
    ensures all_read { IfOk result (λ found. IfNone found ((ds : List DeadLetter) (rest : List Row) → AreReadable deaths.entry.topic.now (seen deaths.entry.kept).log deaths.entry.next_ordinal ordinals.old ds
        → BeginsWithLetters name.now (seen deaths.entry.kept) ds rows.now rest → ArePast name.now rest → ⊥)) }
{
    let mut letters = Vec::new(alloc);
    let mut indexes = AckSet::new(alloc);
    let put = put_letters(
        alloc,
        name,
        rows,
        deaths,
        &mut indexes,
        ordinals,
        &mut letters,
    );
    match put {
        Ok(Some(rest)) => Ok(Some((letters, indexes, rest))),
        Ok(None) => {
            drop(letters);
            drop(indexes);
            Ok(None)
        }
        Err(e) => {
            drop(letters);
            drop(indexes);
            Err(e)
        }
    }
}
