// The head of a request (RFC 9112, section 3), and whether it asks for a WebSocket (RFC 6455, section 4.2.1).
ghost use Rattle.std.specs.Prelude.{◌≡◌, IfOk, codes};
ghost use Rattle.httparse.specs.Spans.{IsRequestOf, IsRequestWithin, span_bytes};
ghost use Rattle.socket_conn.specs.Heads.{IsReadAs, accepting, is_plain};

use crate::asked::{Asked, asked_of, is_sound};
use httparse::Status;
use httparse::spans::{EMPTY_HEADER_SPAN, HeaderSpan, RequestSpans, parse_request};
use std::alloc::{AllocError, Global};
use websocket::handshake::HandshakeError;
use websocket::handshake::server::check_request;

/// How many header lines a head may have.
const MOST_HEADERS: usize = 100;

/// How many bytes the head of a GET may have that asks for no WebSocket.
const MOST_PLAIN: usize = 8_192;

/// A request that asks for a WebSocket.
#[derive(Debug, Drop)]
pub struct Upgrade {
    pub asked: Asked,
    /// What accepts it.
    pub answer: Vec<u8>,
    /// How many bytes the head has.
    pub len: usize,
}

/// A request that asks for no WebSocket.
#[derive(Debug, Drop)]
pub enum Request {
    Get(Asked),
    /// A request with another method.
    Other,
    /// No head, or one with more than 100 lines; or the head of a GET that has no `Host` or several, several `Origin`s, or a
    /// line that ends with LF alone; or has more than 8,192 bytes, or asks for a WebSocket without a valid key or in another
    /// version.
    Bad,
}

/// What has come of a head.
#[derive(Debug, Drop)]
pub enum Head {
    /// Not the whole.
    Partial,
    Plain(Request),
    Upgrade(Upgrade),
}

/// What accepts a request whose key is answered so (RFC 6455, section 4.2.2).
fn answer_with(alloc: Global, accept: &[u8; 28]) -> Result<Vec<u8>, AllocError>
    ensures { IfOk result (λ answer. answer.items ≡ accepting accept.now) }
{
    let mut answer = Vec::from_slice(
        alloc,
        b"HTTP/1.1 101 Switching Protocols\r\nConnection: Upgrade\r\nUpgrade: websocket\r\nSec-WebSocket-Accept: ",
    )?;
    answer.extend_from_slice(accept.as_slice())?;
    answer.extend_from_slice(b"\r\n\r\n")?;
    Ok(answer)
}

/// Whether a head of so many bytes, not accepted for this reason, says nothing of a WebSocket and is not too long.
fn is_plain(len: usize, why: HandshakeError) -> bool
    ensures { result ≡ is_plain len why }
{
    let asks_amiss = matches!(
        why,
        HandshakeError::MissingSecWebSocketVersionHeader
            | HandshakeError::MissingSecWebSocketKey
            | HandshakeError::InvalidSecWebSocketKey
    );
    len <= MOST_PLAIN && !asks_amiss
}

fn upgrade_of(
    alloc: Global,
    asked: Asked,
    accept: &[u8; 28],
    len: usize,
) -> Result<Upgrade, AllocError>
    ensures { IfOk result (λ u. (u.asked ≡ asked) × (u.answer.items ≡ accepting accept.now) × (u.len ≡ len)) }
{
    match answer_with(alloc, accept) {
        Ok(answer) => Ok(Upgrade { asked, answer, len }),
        Err(error) => Err(error),
    }
}

/// What a whole head of a GET comes to.
fn judge(
    alloc: Global,
    bytes: &[u8],
    found: &RequestSpans,
    spans: &[HeaderSpan],
) -> Result<Head, AllocError>
    requires within { IsRequestWithin bytes.now spans.now found.now }
    requires is_head { IsRequestOf bytes.now spans.now found.now }
    requires gets { span_bytes bytes.now found.now.method ≡ codes "GET" }
    ensures { IfOk result (IsReadAs bytes.now) }
{
    let fields = &spans[..found.headers];
    if !is_sound(&bytes[..found.len], bytes, fields) {
        return Ok(Head::Plain(Request::Bad));
    }
    let path = found.path.of(bytes);
    match check_request(bytes, found, spans) {
        Ok(accept) => {
            let asked = asked_of(alloc, path, bytes, fields)?;
            let upgrade = upgrade_of(alloc, asked, &accept, found.len)?;
            Ok(Head::Upgrade(upgrade))
        }
        Err(why) if is_plain(found.len, why) => {
            let asked = asked_of(alloc, path, bytes, fields)?;
            Ok(Head::Plain(Request::Get(asked)))
        }
        Err(_) => Ok(Head::Plain(Request::Bad)),
    }
}

/// What has come so far of a request's head. Only want of memory is a failure.
pub fn read_head(alloc: Global, bytes: &[u8]) -> Result<Head, AllocError>
    ensures { IfOk result (IsReadAs bytes.now) }
{
    let mut spans = [EMPTY_HEADER_SPAN; MOST_HEADERS];
    match parse_request(bytes, &mut spans) {
        Ok(Status::Partial) => Ok(Head::Partial),
        Err(_) => Ok(Head::Plain(Request::Bad)),
        Ok(Status::Complete(found)) => {
            if found.method.of(bytes) == b"GET".as_slice() {
                judge(alloc, bytes, &found, &spans)
            } else {
                Ok(Head::Plain(Request::Other))
            }
        }
    }
}
