// A text, opened as an object.
ghost use Rattle.std.specs.Prelude.{◌≡◌, ◌∷◌, false, IfOk, MatchOption, None, option_and_then};
ghost use Rattle.std.specs.Bool.{MatchBool};
ghost use Rattle.json.specs.Token.{begin_object};
ghost use Rattle.serde_json.specs.Read.{read};
ghost use Rattle.json_values.specs.Objects.{if_object, object_of};
ghost use Rattle.json_glances.specs.Objects.{begins_object, object_from};

use json::{Reader, Scratch, Token};
use std::alloc::AllocError;

/// How many bytes a text may have.
const MOST_BYTES: usize = 2_097_152;

/// How deep the values of an object's members may nest.
pub const MOST_DEPTH: usize = 126;

/// The text that the bytes are, unless it is too long.
fn text_of(bytes: &[u8]) -> Option<&str>
    ensures { MatchOption result (object_of bytes.now ≡ None) (λ text. object_of bytes.now ≡ option_and_then if_object (read text.now)) }
{
    if bytes.len() > MOST_BYTES {
        return None;
    }
    match simdutf8::basic::from_utf8(bytes) {
        Ok(text) => Some(text),
        Err(_) => None,
    }
}

/// Takes the bracket that opens an object, where one is next.
fn take_bracket(reader: &mut Reader<'_>) -> bool
    ensures { MatchBool result (reader.old ≡ begin_object ∷ reader.new) (begins_object reader.old ≡ false) }
{
    match reader.next() {
        Some(Token::BeginObject) => true,
        Some(
            Token::EndObject
            | Token::BeginArray
            | Token::EndArray
            | Token::Key(_)
            | Token::String(_)
            | Token::Number(_)
            | Token::Bool(_)
            | Token::Null
            | Token::Bad,
        ) => false,
        None => false,
    }
}

/// A reader before the first member of the object that a text of at most 2,097,152 bytes begins with.
pub fn open_object<'a>(
    scratch: &'a mut Scratch,
    text: &'a [u8],
) -> Result<Option<Reader<'a>>, AllocError>
    ensures { IfOk result (λ opened. MatchOption opened (object_of text.now ≡ None) (λ reader. object_of text.now ≡ object_from reader)) }
{
    let Some(text) = text_of(text) else {
        return Ok(None);
    };
    let mut reader = Reader::new(text, scratch)?;
    if take_bracket(&mut reader) {
        Ok(Some(reader))
    } else {
        Ok(None)
    }
}
