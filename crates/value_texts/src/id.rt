// Message ids: the one text of each position.
ghost use Rattle.std.specs.Prelude.{◌≡◌, ℕ, ◌+◌, ◌<◌, ◌≤◌, ◌^◌, List, [], ◌∷◌, ◌++◌, length, OnOk, OnErr, IfOk, IfErr, IfSome, IfNone, string_bytes};
ghost use Rattle.arrayvec.specs.ArrayVec.{array_vec_len};
ghost use Rattle.position_core.specs.declared.fault.Fault.TheVariants.{BadId};
ghost use Rattle.position_core.specs.declared.position.Position.{Position};
ghost use Rattle.value_texts.specs.Id.{varint, text_of, id_bytes, IsIdOf};

use arrayvec::ArrayVec;
use base64::engine::general_purpose::STANDARD;
use position_core::{Fault, Position};
use std::alloc::{AllocError, Global};

/// How many bytes the longest text has.
const LONGEST_TEXT: usize = 32;

/// How many bytes so many symbols stand for.
const MOST_DECODED: usize = 24;

/// The bytes of an id: two marks and two varints of at most ten bytes.
type IdBytes = ArrayVec<u8, 22>;

fn push_varint(bytes: &mut IdBytes, number: u64)
    requires { array_vec_len bytes.old + length (varint number) ≤ 22 }
    ensures { bytes.new.items ≡ bytes.old.items ++ varint number }
{
    if number < 128 {
        bytes.push(number as u8);
    } else {
        bytes.push((number % 128 + 128) as u8);
        push_varint(bytes, number / 128);
    }
}

#[tactic(auto, using(crate::proofs::Varint::varint_short))]
fn id_bytes(position: Position) -> IdBytes
    ensures { result.items ≡ id_bytes position }
{
    let mut bytes = IdBytes::new();
    bytes.push(8);
    push_varint(&mut bytes, position.ledger);
    bytes.push(16);
    push_varint(&mut bytes, position.entry);
    bytes
}

/// The number whose varint the bytes begin with, and the bytes after it.
fn split_varint(bytes: &[u8]) -> Option<(u64, &[u8])>
    ensures some { IfSome result (λ r. bytes.now ≡ varint r.0 ++ r.1.now) }
    ensures fits { IfSome result (λ r. r.0 < 2 ^ 64) }
    ensures none { IfNone result ((n : ℕ) (rest : List ℕ) → n < 2 ^ 64 → bytes.now ≡ varint n ++ rest → ⊥) }
{
    let (first, rest) = bytes.split_first()?;
    if *first < 128 {
        return Some((u64::from(*first), rest));
    }
    let (high, rest) = split_varint(rest)?;
    if high == 0 || high >= 1 << 57 {
        return None;
    }
    Some((high * 128 + u64::from(*first - 128), rest))
}

/// The number of the field with the mark, where the bytes begin with it, and the bytes after it.
fn split_field(mark: u8, bytes: &[u8]) -> Option<(u64, &[u8])>
    ensures some { IfSome result (λ r. bytes.now ≡ mark ∷ (varint r.0 ++ r.1.now)) }
    ensures fits { IfSome result (λ r. r.0 < 2 ^ 64) }
    ensures none { IfNone result ((n : ℕ) (rest : List ℕ) → n < 2 ^ 64 → bytes.now ≡ mark ∷ (varint n ++ rest) → ⊥) }
{
    match bytes.split_first() {
        Some((first, rest)) if *first == mark => split_varint(rest),
        _ => None,
    }
}

fn position_in(bytes: &[u8]) -> Option<Position>
    ensures some { IfSome result (λ p. bytes.now ≡ id_bytes p) }
    ensures fits { IfSome result (λ p. (p.ledger < 2 ^ 64) × (p.entry < 2 ^ 64)) }
    ensures all_read { (p : Position) → p.ledger < 2 ^ 64 → p.entry < 2 ^ 64 → bytes.now ≡ id_bytes p → result ≡ Some p }
{
    let (ledger, rest) = split_field(8, bytes)?;
    let (entry, rest) = split_field(16, rest)?;
    if rest.is_empty() {
        Some(Position { ledger, entry })
    } else {
        None
    }
}

/// Appends the position's one text: standard base64 of two fields of varints.
pub fn append_id(out: &mut String, position: Position) -> Result<(), AllocError>
    ensures ok { OnOk result (string_bytes out.new ≡ string_bytes out.old ++ text_of position) }
    ensures err { OnErr result (string_bytes out.new ≡ string_bytes out.old) }
{
    STANDARD.encode_string(id_bytes(position).as_slice(), out)
}

/// The position's one text.
pub fn id_text(alloc: Global, position: Position) -> Result<String, AllocError>
    ensures { IfOk result (λ text. string_bytes text ≡ text_of position) }
{
    let mut text = String::new(alloc);
    append_id(&mut text, position)?;
    Ok(text)
}

/// Reads a position's one text; takes no memory.
pub fn read_id(text: &[u8]) -> Result<Position, Fault>
    ensures ok { IfOk result (IsIdOf text.now) }
    ensures bad { IfErr result (λ fault. fault ≡ BadId) }
    ensures all_read { (p : Position) → IsIdOf text.now p → result ≡ Ok p }
{
    if text.len() > LONGEST_TEXT {
        return Err(Fault::BadId);
    }
    let mut bytes = [0; MOST_DECODED];
    let Ok(count) = STANDARD.decode_slice_unchecked(text, &mut bytes) else {
        return Err(Fault::BadId);
    };
    position_in(&bytes[..count]).ok_or(Fault::BadId)
}
