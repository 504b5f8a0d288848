// Words that are payloads: padded base64, and `-` for an empty one.
ghost use Rattle.std.specs.Prelude.{◌≡◌, ◌<◌, ◌≤◌, ◌++◌, length, MatchResult, OnOk, string_bytes};
ghost use Rattle.replay_lines.specs.Reads.{Reads};
ghost use Rattle.replay_lines.specs.Payloads.{payload_text, IsPayload};
ghost use Rattle.replay_lines.specs.declared.words.Unread.TheVariants.{BadLine};

use crate::words::{Unread, is_none};
use base64::DecodeAllocError;
use base64::engine::general_purpose::STANDARD;
use position_core::Payload;
use std::alloc::{AllocError, Global};

fn fitting(bytes: Vec<u8>) -> Result<Payload, Unread>
    ensures { MatchResult result (λ payload. (payload ≡ bytes.items) × (length bytes.items ≤ 1048576)) (λ unread. (unread ≡ BadLine) × (1048576 < length bytes.items)) }
{
    match Payload::new(bytes) {
        Some(payload) => Ok(payload),
        None => Err(Unread::BadLine),
    }
}

#[tactic(auto, unfolding(crate::specs::Payloads::IsPayload))]
pub fn read_payload(alloc: Global, word: &[u8]) -> Result<Payload, Unread>
    ensures { Reads (IsPayload word.now) result }
{
    if is_none(word) {
        return fitting(Vec::new(alloc));
    }
    match STANDARD.decode(alloc, word) {
        Ok(bytes) => fitting(bytes),
        Err(DecodeAllocError::OutOfMemory) => Err(Unread::Memory),
        Err(_) => Err(Unread::BadLine),
    }
}

/// Appends the payload as a word.
pub fn append_payload(out: &mut String, payload: &[u8]) -> Result<(), AllocError>
    ensures { OnOk result (string_bytes out.new ≡ string_bytes out.old ++ payload_text payload.now) }
{
    if payload.is_empty() {
        out.push_str("-")
    } else {
        STANDARD.encode_string(payload, out)
    }
}
