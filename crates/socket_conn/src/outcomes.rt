// What a read of the socket came to.
ghost use Rattle.std.specs.Prelude.{◌≡◌, IfOk, MatchBool, IsTrue, ◌↔◌};
ghost use Rattle.socket_conn.specs.Talks.{ComesFrom, ErrorComesTo, GivesSigns, IsDataOf, IsGiven, IsOutcome, WaitComesTo, WouldWait};
ghost use Rattle.tungstenite.specs.Failure.{IsIo};
ghost use Rattle.websocket.specs.Content.{IsPayloadInside, IsReceivedInside, payload_bytes};

use crate::framed::Framed;
use crate::frames::CountsFrames;
use crate::waits::CountsWaits;
use std::alloc::{AllocError, Global};
use std::io::ErrorKind;
use tungstenite::Error;
use websocket::protocol::{CloseCode, Payload, Received};

/// What a read came to.
#[derive(Drop)]
pub(crate) enum Came {
    Text(Vec<u8>),
    Ping,
    Pong,
    /// Nothing yet.
    Nothing,
    /// Nothing more in this turn.
    Spent,
    /// The client closes.
    Closes,
    /// The client broke the protocol, which is closed with the code.
    Breaks(CloseCode),
    /// A text or a binary message, for whose bytes there was no memory.
    Lost,
    Fails,
}

/// What the stream tells of a read.
#[derive(Clone, Copy)]
pub(crate) struct Signs {
    /// It had nothing to give.
    pub(crate) is_dry: bool,
    /// It had given all that it may in a turn.
    pub(crate) is_spent: bool,
    /// A message had more frames than it may.
    pub(crate) is_over: bool,
}

/// What the stream of the socket tells, which had counted so often before that it was dry, and that its turn was spent.
pub(crate) fn signs_since<S: CountsWaits + CountsFrames + Drop>(
    socket: &Framed<S>,
    dry: u64,
    spent: u64,
) -> Signs
    ensures { GivesSigns S.dry S.spent S.over dry spent socket.now result }
{
    let stream = socket.get_ref();
    Signs {
        is_dry: stream.times_dry() != dry,
        is_spent: stream.times_spent() != spent,
        is_over: stream.is_over(),
    }
}

pub(crate) fn would_block(error: &Error) -> bool
    ensures { IsTrue result ↔ WouldWait error.now }
{
    match error {
        Error::Io(cause) => cause.kind() == ErrorKind::WouldBlock,
        _ => false,
    }
}

/// Whether the stream has failed, or would block.
pub(crate) fn is_io(error: &Error) -> bool
    ensures { MatchBool result (IsIo error.now) (¬ (IsIo error.now)) }
{
    matches!(error, Error::Io(_))
}

/// The bytes of a message: those that were put together from parts as they are, and a copy of those that lie in the input.
fn bytes_of(alloc: Global, payload: Payload, input: &[u8]) -> Result<Vec<u8>, AllocError>
    requires { IsPayloadInside input.now payload }
    ensures { IfOk result (λ bytes. bytes.items ≡ payload_bytes input.now payload) }
{
    match payload {
        Payload::Input(span) => Vec::from_slice(alloc, span.of(input)),
        Payload::Assembled(bytes) => Ok(bytes),
    }
}

/// What a text or a binary message comes to.
fn data_of(alloc: Global, payload: Payload, input: &[u8]) -> Came
    requires { IsPayloadInside input.now payload }
    ensures { IsDataOf (payload_bytes input.now payload) result }
{
    match bytes_of(alloc, payload, input) {
        Ok(bytes) => Came::Text(bytes),
        Err(_) => Came::Lost,
    }
}

/// What a message comes to that lies in the input.
pub(crate) fn came_of(alloc: Global, received: Received, input: &[u8]) -> Came
    requires { IsReceivedInside input.now received }
    ensures { ComesFrom input.now received result }
{
    match received {
        Received::Text(payload) => data_of(alloc, payload, input),
        Received::Binary(payload) => data_of(alloc, payload, input),
        Received::Ping(_) => Came::Ping,
        Received::Pong(_) => Came::Pong,
        Received::Close(_) => Came::Closes,
    }
}

/// What a read that would block comes to. It has failed where the stream was not asked, and might have given more.
fn wait_of(signs: Signs) -> Came
    ensures { WaitComesTo signs result }
{
    if signs.is_spent {
        Came::Spent
    } else if signs.is_dry {
        Came::Nothing
    } else {
        Came::Fails
    }
}

/// What a read that gave no message comes to.
fn failure_of(error: &Error, signs: Signs) -> Came
    ensures { ErrorComesTo signs error.now result }
{
    if would_block(error) {
        return wait_of(signs);
    }
    match error {
        Error::ConnectionClosed => Came::Closes,
        Error::AlreadyClosed => Came::Closes,
        Error::Protocol(_) => Came::Breaks(CloseCode::Protocol),
        Error::Utf8 => Came::Breaks(CloseCode::Invalid),
        Error::Capacity(_) => Came::Breaks(CloseCode::Size),
        _ => Came::Fails,
    }
}

fn given_of(read: Result<Came, Error>, signs: Signs) -> Came
    ensures { IsGiven signs read result }
{
    match read {
        Ok(came) => came,
        Err(error) => failure_of(&error, signs),
    }
}

/// What a read comes to. A message of too many frames is too long, whatever was read.
pub(crate) fn outcome_of(read: Result<Came, Error>, signs: Signs) -> Came
    ensures { IsOutcome signs read result }
{
    if signs.is_over {
        Came::Breaks(CloseCode::Size)
    } else {
        given_of(read, signs)
    }
}
