// Bytes that stand in a text as base64.
ghost use Rattle.std.specs.Prelude.{◌≡◌, IfOk, option_map};
ghost use Rattle.base64.specs.Engines.{standard, standard_no_pad};
ghost use Rattle.base64.specs.GeneralPurpose.{decoded_of};
ghost use Rattle.json_values.specs.Bytes.{bytes_of};

use base64::DecodeAllocError;
use base64::engine::general_purpose::{STANDARD, STANDARD_NO_PAD};
use std::alloc::{AllocError, Global};

#[tactic(auto, unfolding(base64::specs::GeneralPurpose::decoded_of))]
fn padded_bytes(alloc: Global, text: &str) -> Result<Option<Vec<u8>>, AllocError>
    ensures { IfOk result (λ found. option_map (λ bytes. bytes.items) found ≡ decoded_of standard text.now) }
{
    match STANDARD.decode(alloc, text.as_bytes()) {
        Ok(bytes) => Ok(Some(bytes)),
        Err(DecodeAllocError::DecodeError(_)) => Ok(None),
        Err(DecodeAllocError::OutOfMemory) => Err(AllocError),
    }
}

#[tactic(auto, unfolding(base64::specs::GeneralPurpose::decoded_of))]
fn unpadded_bytes(alloc: Global, text: &str) -> Result<Option<Vec<u8>>, AllocError>
    ensures { IfOk result (λ found. option_map (λ bytes. bytes.items) found ≡ decoded_of standard_no_pad text.now) }
{
    match STANDARD_NO_PAD.decode(alloc, text.as_bytes()) {
        Ok(bytes) => Ok(Some(bytes)),
        Err(DecodeAllocError::DecodeError(_)) => Ok(None),
        Err(DecodeAllocError::OutOfMemory) => Err(AllocError),
    }
}

/// The bytes whose base64 the text is, with all its padding or none.
pub fn bytes_of(alloc: Global, text: &str) -> Result<Option<Vec<u8>>, AllocError>
    ensures { IfOk result (λ found. option_map (λ bytes. bytes.items) found ≡ bytes_of text.now) }
{
    match padded_bytes(alloc, text)? {
        Some(bytes) => Ok(Some(bytes)),
        None => unpadded_bytes(alloc, text),
    }
}
