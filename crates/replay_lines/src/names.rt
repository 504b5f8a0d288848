// Words that are names and keys, which are percent-decoded.
ghost use Rattle.std.specs.Arc.{arc_str_bytes};
ghost use Rattle.std.specs.Cow.{cow_str_bytes};
ghost use Rattle.replay_lines.specs.Reads.{Reads, ReadsAs};
ghost use Rattle.replay_lines.specs.Names.{IsText, IsNameWord, IsProducerWord, IsKeyWord, IsTopicWord};

use crate::words::{Unread, is_none};
use percent_encoding::{DecodeError, percent_decode};
use position_core::{Key, Name, ProducerName, TopicName};
use std::alloc::Global;
use std::borrow::CowStr;
use std::sync::ArcStr;
use value_texts::read_topic_name;

fn decoded(alloc: Global, word: &[u8]) -> Result<CowStr<'_>, Unread>
    ensures { ReadsAs cow_str_bytes (IsText word.now) result }
{
    if is_none(word) {
        return Err(Unread::BadLine);
    }
    match percent_decode(word).decode_utf8(alloc) {
        Ok(text) => Ok(text),
        Err(DecodeError::OutOfMemory) => Err(Unread::Memory),
        Err(DecodeError::Utf8(_)) => Err(Unread::BadLine),
    }
}

fn shared(alloc: Global, word: &[u8]) -> Result<ArcStr, Unread>
    ensures { ReadsAs arc_str_bytes (IsText word.now) result }
{
    let text = decoded(alloc, word)?;
    Ok(ArcStr::from_str(alloc, text.as_str())?)
}

pub fn read_name(alloc: Global, word: &[u8]) -> Result<Name, Unread>
    ensures { Reads (IsNameWord word.now) result }
{
    match Name::new(shared(alloc, word)?) {
        Some(name) => Ok(name),
        None => Err(Unread::BadLine),
    }
}

/// None where the word is `-`.
pub fn read_producer_name(alloc: Global, word: &[u8]) -> Result<Option<ProducerName>, Unread>
    ensures { Reads (IsProducerWord word.now) result }
{
    if is_none(word) {
        return Ok(None);
    }
    match ProducerName::new(shared(alloc, word)?) {
        Some(name) => Ok(Some(name)),
        None => Err(Unread::BadLine),
    }
}

/// None where the word is `-`.
pub fn read_key(alloc: Global, word: &[u8]) -> Result<Option<Key>, Unread>
    ensures { Reads (IsKeyWord word.now) result }
{
    if is_none(word) {
        return Ok(None);
    }
    match Key::new(shared(alloc, word)?) {
        Some(key) => Ok(Some(key)),
        None => Err(Unread::BadLine),
    }
}

pub fn read_topic(alloc: Global, word: &[u8]) -> Result<TopicName, Unread>
    ensures { Reads (IsTopicWord word.now) result }
{
    let text = decoded(alloc, word)?;
    match read_topic_name(alloc, text.as_str())? {
        Some(name) => Ok(name),
        None => Err(Unread::BadLine),
    }
}
