// What the head of a request asks for, and what it says of where it comes from.
ghost use Rattle.std.specs.Prelude.{◌≡◌, All, IfOk, length, option_map, string_bytes};
ghost use Rattle.httparse.specs.Spans.{IsHeaderWithin};
ghost use Rattle.websocket.specs.Headers.{eq_ignore_case, fields_of};
ghost use Rattle.socket_conn.specs.Heads.{IsAskedBy, count_of, has_bare_lf, has_field, has_proxy_field, is_sound, last_text, last_value, text_or_empty, wants_status};

use httparse::spans::HeaderSpan;
use std::alloc::{AllocError, Global};
use std::str;

/// What the head of a request asks for, and what it says of where it comes from.
#[derive(Debug, Drop)]
pub struct Asked {
    /// The path and the query, or an empty text where they are none.
    pub target: String,
    /// The value of `Host`; an empty text where it is no UTF-8.
    pub host: String,
    /// The value of `Origin`, where the head has one; an empty text where it is no UTF-8.
    pub origin: Option<String>,
    /// The value of the last `X-Forwarded-For`, where the head has one: where a proxy says that the request came from. An
    /// empty text where it is no UTF-8.
    pub forwarded_for: Option<String>,
    /// Whether a proxy handed the request on: the head has an `X-Forwarded-For`, an `X-Forwarded-Host`, an `X-Real-IP` or a
    /// `Forwarded` (RFC 7239).
    pub is_forwarded: bool,
    /// Whether a refusal is to be told by the status of a response: the last `X-Refusals` has the value `http`.
    pub wants_status: bool,
}

/// Whether the name of a field is the wanted one, whatever the case of its letters.
fn is_named(name: &[u8], wanted: &[u8]) -> bool
    ensures { result ≡ eq_ignore_case name.now wanted.now }
{
    name.eq_ignore_ascii_case(wanted)
}

/// How many fields have the name.
fn count_of(bytes: &[u8], fields: &[HeaderSpan], name: &[u8]) -> usize
    requires { All (IsHeaderWithin (length bytes.now)) fields.now }
    ensures { result ≡ count_of (fields_of bytes.now fields.now) name.now }
{
    let mut count = 0;
    for field in fields {
        if is_named(field.name.of(bytes), name) {
            count += 1;
        }
    }
    count
}

/// The value of the last field with the name.
fn last_value<'b>(bytes: &'b [u8], fields: &[HeaderSpan], name: &[u8]) -> Option<&'b [u8]>
    requires { All (IsHeaderWithin (length bytes.now)) fields.now }
    ensures { option_map (λ value. value.now) result ≡ last_value (fields_of bytes.now fields.now) name.now }
{
    let mut last = None;
    for field in fields {
        if is_named(field.name.of(bytes), name) {
            last = Some(field.value.of(bytes));
        }
    }
    last
}

fn has_field(bytes: &[u8], fields: &[HeaderSpan], name: &[u8]) -> bool
    requires { All (IsHeaderWithin (length bytes.now)) fields.now }
    ensures { result ≡ has_field (fields_of bytes.now fields.now) name.now }
{
    last_value(bytes, fields, name).is_some()
}

fn has_proxy_field(bytes: &[u8], fields: &[HeaderSpan]) -> bool
    requires { All (IsHeaderWithin (length bytes.now)) fields.now }
    ensures { result ≡ has_proxy_field (fields_of bytes.now fields.now) }
{
    has_field(bytes, fields, b"X-Forwarded-For")
        || has_field(bytes, fields, b"X-Forwarded-Host")
        || has_field(bytes, fields, b"X-Real-IP")
        || has_field(bytes, fields, b"Forwarded")
}

fn wants_status(bytes: &[u8], fields: &[HeaderSpan]) -> bool
    requires { All (IsHeaderWithin (length bytes.now)) fields.now }
    ensures { result ≡ wants_status (fields_of bytes.now fields.now) }
{
    match last_value(bytes, fields, b"X-Refusals") {
        Some(value) => value == b"http".as_slice(),
        None => false,
    }
}

/// Whether a line ends with LF and no CR before it.
fn has_bare_lf(bytes: &[u8]) -> bool
    ensures { result ≡ has_bare_lf bytes.now }
{
    let mut before = 0;
    for byte in bytes {
        if *byte == b'\n' && before != b'\r' {
            return true;
        }
        before = *byte;
    }
    false
}

/// Whether a head, which ends where the bytes do, is one that a recipient may take (RFC 9112, sections 2.2 and 3.2).
pub(crate) fn is_sound(head: &[u8], bytes: &[u8], fields: &[HeaderSpan]) -> bool
    requires { All (IsHeaderWithin (length bytes.now)) fields.now }
    ensures { result ≡ is_sound head.now (fields_of bytes.now fields.now) }
{
    count_of(bytes, fields, b"Host") == 1
        && count_of(bytes, fields, b"Origin") <= 1
        && !has_bare_lf(head)
}

/// The bytes as a text; an empty one where they are none.
#[tactic(auto, using(crate::proofs::HeadsLemmas::text, crate::proofs::HeadsLemmas::no_text))]
fn text_of(alloc: Global, bytes: &[u8]) -> Result<String, AllocError>
    ensures { IfOk result (λ text. string_bytes text ≡ text_or_empty bytes.now) }
{
    match str::from_utf8(bytes) {
        Ok(text) => String::from_str(alloc, text),
        Err(_) => Ok(String::new(alloc)),
    }
}

/// The value of the last field with the name, as a text.
fn last_text(
    alloc: Global,
    bytes: &[u8],
    fields: &[HeaderSpan],
    name: &[u8],
) -> Result<Option<String>, AllocError>
    requires { All (IsHeaderWithin (length bytes.now)) fields.now }
    ensures { IfOk result (λ text. option_map string_bytes text ≡ last_text (fields_of bytes.now fields.now) name.now) }
{
    match last_value(bytes, fields, name) {
        Some(value) => match text_of(alloc, value) {
            Ok(text) => Ok(Some(text)),
            Err(error) => Err(error),
        },
        None => Ok(None),
    }
}

/// What a head with this target and these fields asks for.
pub(crate) fn asked_of(
    alloc: Global,
    target: &[u8],
    bytes: &[u8],
    fields: &[HeaderSpan],
) -> Result<Asked, AllocError>
    requires { All (IsHeaderWithin (length bytes.now)) fields.now }
    ensures { IfOk result (IsAskedBy target.now (fields_of bytes.now fields.now)) }
{
    let target = text_of(alloc, target)?;
    let host = last_text(alloc, bytes, fields, b"Host")?;
    let origin = last_text(alloc, bytes, fields, b"Origin")?;
    let forwarded_for = last_text(alloc, bytes, fields, b"X-Forwarded-For")?;
    Ok(Asked {
        target,
        host: host.unwrap_or(String::new(alloc)),
        origin,
        forwarded_for,
        is_forwarded: has_proxy_field(bytes, fields),
        wants_status: wants_status(bytes, fields),
    })
}
