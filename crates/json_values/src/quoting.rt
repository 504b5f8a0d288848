// JSON strings, written straight into a text.
ghost use Rattle.std.specs.Prelude.{◌≡◌, ◌++◌, ◌<◌, ◌≤◌, [], ◌∷◌, ◌/◌, ◌%◌, ◌+◌, ◌*◌, ◌^◌, IsTrue, OnErr, OnOk, IfSome, IfNone, count_by, drop, length, position, slice_index, take, string_bytes, string_capacity, string_len};
ghost use Rattle.std.specs.Char.{digit_char};
ghost use Rattle.json.specs.Print.{escape, escape_byte, quoted};
ghost use Rattle.json_values.specs.Escapes.{needs_escape};

use std::alloc::AllocError;

/// Whether the byte needs an escape in a string.
fn needs_escape(byte: u8) -> bool
    ensures { result ≡ needs_escape byte }
{
    byte < 32 || byte == b'"' || byte == b'\\'
}

fn special_bytes(text: &[u8]) -> usize
    ensures { result ≡ count_by needs_escape text.now }
{
    text.iter().filter(|byte| needs_escape(**byte)).count()
}

/// How many bytes of room a text takes in a string at most: an escape has six.
pub fn room_for(text: &str) -> usize
    ensures { length text.now < 2 ^ 60 → result ≡ length text.now + 5 * count_by needs_escape text.now + 2 }
{
    let special = special_bytes(text.as_bytes());
    text.len()
        .saturating_add(special.saturating_mul(5))
        .saturating_add(2)
}

fn hex_digit(digit: u8) -> char
    requires { digit < 16 }
    ensures { result ≡ digit_char digit }
{
    if digit < 10 {
        (b'0' + digit) as char
    } else {
        (b'a' + (digit - 10)) as char
    }
}

fn push_control(out: &mut String, byte: u8) -> Result<(), AllocError>
    requires { byte < 32 }
    ensures bytes { OnOk result (string_bytes out.new ≡ string_bytes out.old ++ 92 ∷ 117 ∷ 48 ∷ 48 ∷ digit_char (byte / 16) ∷ digit_char (byte % 16) ∷ []) }
    ensures len { OnOk result (string_len out.new ≡ string_len out.old + 6) }
    ensures capacity { string_capacity out.old ≤ string_capacity out.new }
    ensures full { OnErr result (string_capacity out.old < string_len out.old + 6) }
{
    out.push_str("\\u00")?;
    out.push(hex_digit(byte / 16))?;
    out.push(hex_digit(byte % 16))
}

/// Appends the escape of a byte that needs one.
#[tactic(auto, unfolding(json::specs::Print::escape_byte))]
fn push_escape(out: &mut String, byte: u8) -> Result<(), AllocError>
    requires { IsTrue (needs_escape byte) }
    ensures bytes { OnOk result (string_bytes out.new ≡ string_bytes out.old ++ escape_byte byte) }
    ensures len { OnOk result (string_len out.new ≡ string_len out.old + length (escape_byte byte)) }
    ensures capacity { string_capacity out.old ≤ string_capacity out.new }
    ensures full { OnErr result (string_capacity out.old < string_len out.old + length (escape_byte byte)) }
{
    match byte {
        b'"' => out.push_str("\\\""),
        b'\\' => out.push_str("\\\\"),
        8 => out.push_str("\\b"),
        9 => out.push_str("\\t"),
        10 => out.push_str("\\n"),
        12 => out.push_str("\\f"),
        13 => out.push_str("\\r"),
        _ => push_control(out, byte),
    }
}

fn special_position(text: &[u8]) -> Option<usize>
    ensures { result ≡ position needs_escape text.now }
{
    text.iter().position(|byte| needs_escape(*byte))
}

fn first_special(text: &[u8]) -> Option<usize>
    ensures some { IfSome result (λ at. (at < length text.now) × IsTrue (needs_escape (slice_index text.now at)) × (escape text.now ≡ take at text.now ++ (escape_byte (slice_index text.now at) ++ escape (drop (at + 1) text.now)))) }
    ensures none { IfNone result (escape text.now ≡ text.now) }
{
    special_position(text)
}

#[tactic(auto, using(crate::proofs::Escapes::after_special))]
/// What stands before the first byte that needs an escape, that byte, and what stands after it.
fn split_special(text: &str) -> Option<(&str, u8, &str)>
    ensures some { IfSome result (λ r. escape text.now ≡ r.0.now ++ (escape_byte r.1 ++ escape r.2.now)) }
    ensures special { IfSome result (λ r. IsTrue (needs_escape r.1)) }
    ensures shorter { IfSome result (λ r. length r.2.now < length text.now) }
    ensures none { IfNone result (escape text.now ≡ text.now) }
{
    let at = first_special(text.as_bytes())?;
    Some((&text[..at], text.as_bytes()[at], &text[at + 1..]))
}

fn push_escaped(out: &mut String, text: &str) -> Result<(), AllocError>
    ensures bytes { OnOk result (string_bytes out.new ≡ string_bytes out.old ++ escape text.now) }
    ensures len { OnOk result (string_len out.new ≡ string_len out.old + length (escape text.now)) }
    ensures capacity { string_capacity out.old ≤ string_capacity out.new }
    ensures full { OnErr result (string_capacity out.old < string_len out.old + length (escape text.now)) }
{
    let mut rest = text;
    while let Some((run, byte, after)) = split_special(rest) {
        out.push_str(run)?;
        push_escape(out, byte)?;
        rest = after;
    }
    out.push_str(rest)
}

/// Appends the text as a JSON string.
pub fn push_quoted(out: &mut String, text: &str) -> Result<(), AllocError>
    ensures bytes { OnOk result (string_bytes out.new ≡ string_bytes out.old ++ quoted text.now) }
    ensures len { OnOk result (string_len out.new ≡ string_len out.old + length (quoted text.now)) }
    ensures capacity { string_capacity out.old ≤ string_capacity out.new }
    ensures full { OnErr result (string_capacity out.old < string_len out.old + length (quoted text.now)) }
{
    out.push_str("\"")?;
    push_escaped(out, text)?;
    out.push_str("\"")
}
