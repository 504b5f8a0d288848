// Texts that stand percent-encoded in a target.
ghost use Rattle.std.specs.Prelude.{◌≡◌, IfOk, option_map};
ghost use Rattle.std.specs.Cow.{cow_str_bytes};
ghost use Rattle.endpoint_core.specs.Texts.{text_of};

use percent_encoding::{DecodeError, percent_decode};
use std::alloc::{AllocError, Global};
use std::borrow::CowStr;

/// The text that the bytes stand for. None where it is not UTF-8.
pub fn text_of(alloc: Global, bytes: &[u8]) -> Result<Option<CowStr<'_>>, AllocError>
    ensures { IfOk result (λ found. option_map cow_str_bytes found ≡ text_of bytes.now) }
{
    match percent_decode(bytes).decode_utf8(alloc) {
        Ok(text) => Ok(Some(text)),
        Err(DecodeError::Utf8(_)) => Ok(None),
        Err(DecodeError::OutOfMemory) => Err(AllocError),
    }
}
