// How a connection is refused whose request was not accepted.
ghost use Rattle.std.specs.Prelude.{◌≡◌, ◌++◌, IfOk};
ghost use Rattle.std.specs.Option.{option_copied};
ghost use Rattle.worker_pool.specs.Refusing.{is_by_status, refusal_head, refusal_response, refusal_text, status_of, tells_status, words_of, wrong_after};

use crate::accepting::turn_away;
use crate::pages::{NOTHING, Status, begun, ended};
use delivery_machine::Fault;
use itoa::Buffer;
use mio::net::TcpStream;
use session_texts::reason;
use socket_conn::{Answered, Answering, Asked, Held, SocketConn};
use std::alloc::{AllocError, Global};
use std::net::Shutdown;

/// How a client is told of a refusal that is known before its request is accepted, where the request does not say.
#[derive(Clone, Copy, Debug, PartialEq, Eq)]
pub enum Refused {
    /// The request is accepted, and the connection is closed with a code and a reason.
    Close,
    /// The request is answered with a status and an object of JSON.
    Status,
}

impl Refused {
    fn is_by_status(self) -> bool
        ensures { result ≡ is_by_status self }
    {
        match self {
            Refused::Close => false,
            Refused::Status => true,
        }
    }
}

/// Whether this request's refusal is told by a status.
pub(crate) fn tells_status(refused: Refused, asked: &Asked) -> bool
    ensures { result ≡ tells_status refused asked.now }
{
    refused.is_by_status() || asked.wants_status
}

/// A refusal that is known before the request is accepted.
#[derive(Clone, Copy, Debug, PartialEq, Eq)]
pub(crate) struct Refusal {
    pub(crate) fault: Fault,
    /// The code that the connection is closed with, where it is told so.
    pub(crate) code: u16,
    /// It is told by the status of a response.
    pub(crate) tells_status: bool,
    /// What of the target is wrong, where that is known.
    pub(crate) wrong: Option<&'static str>,
}

fn status_of(fault: Fault) -> Status
    ensures { result ≡ status_of fault }
{
    match fault {
        Fault::ProducerBusy
        | Fault::WrongKind
        | Fault::ConsumerBusy
        | Fault::SubscriptionBusy
        | Fault::HashOverlap
        | Fault::MixedPolicy => Status::Conflict,
        Fault::NoSession | Fault::NoSuchMessage | Fault::NoSuchSubscription => Status::NotFound,
        Fault::NoMemory
        | Fault::TopicFull
        | Fault::TooMany
        | Fault::JournalFull
        | Fault::StoreFailed
        | Fault::NoRoom => Status::Unavailable,
        Fault::NotCumulative
        | Fault::NotPending
        | Fault::TooManyPermits
        | Fault::DeadLetterSelf
        | Fault::BadId
        | Fault::BadJson
        | Fault::BadPayload
        | Fault::BadRoute
        | Fault::PushMode => Status::BadRequest,
    }
}

/// What a refusal says, in words.
fn words_of(fault: Fault) -> &'static str
    ensures { result.now ≡ words_of fault }
{
    match fault {
        Fault::NoMemory => "memory was refused",
        Fault::ProducerBusy => "the producer's name is connected",
        Fault::NoSession =>
            "no producer or consumer has the number; or no session, which is to end; or an administrator ended the session",
        Fault::TopicFull =>
            "the log has 1,048,576 messages, or the ledger would pass 2^62; or with the message, which is no duplicate, those that are kept would have more bytes than the broker's most",
        Fault::WrongKind => "the subscription has consumers of another type",
        Fault::ConsumerBusy => "the subscription is Exclusive and has a consumer",
        Fault::TooMany =>
            "256 topics are in use, or 256 are being opened; or there are 256 producers, 64 subscriptions, or 64 consumers of the subscription; or the client's address has as much as it may; or a counter has come to its end",
        Fault::NoSuchMessage =>
            "no visible message that is kept has the id; in a replay also: the first stored dead letter has another ordinal",
        Fault::NotCumulative => "acknowledgeCumulative in Shared or Key_Shared",
        Fault::NotPending => "the message that is given back is not pending at the consumer",
        Fault::NoSuchSubscription =>
            "the topic has no subscription of the name; or an administrator's topic does not exist, or was deleted",
        Fault::SubscriptionBusy =>
            "a subscription that is to be made is there; one that is to be dropped has consumers, or dead letters that were not moved; a topic that is to be deleted has producers, consumers, or such letters; or a copy of the database is waited for already",
        Fault::TooManyPermits => "the permits of a consumer would pass 2^31-1",
        Fault::DeadLetterSelf => "the dead-letter topic is the topic itself",
        Fault::JournalFull => "the journal of a topic has no line left",
        Fault::StoreFailed => "the database failed; or the rows of the topic are damaged",
        Fault::BadId => "messageId or position is not an id that this broker gives",
        Fault::BadJson => "the text is not one of the endpoint's",
        Fault::BadPayload => "payload is not base64, or too long",
        Fault::BadRoute =>
            "the path or the query names no endpoint; or no copy of the database is made for this client",
        Fault::NoRoom => "1,024 sessions are at the topic",
        Fault::PushMode => "permit of a consumer without pullMode",
        Fault::HashOverlap => "a hash of keySharedRanges is another consumer's",
        Fault::MixedPolicy =>
            "the consumers of the Key_Shared subscription came with keySharedRanges and this one without, or the other way about",
    }
}

/// The text, and behind it these words and what of the target is wrong, where that is known.
fn with_wrong(
    text: Vec<u8>,
    words: &str,
    wrong: Option<&'static str>,
) -> Result<Vec<u8>, AllocError>
    ensures { IfOk result (λ bytes. bytes.items ≡ text.items ++ wrong_after words.now (option_copied wrong.entry)) }
{
    let mut bytes = text;
    if let Some(wrong) = wrong {
        bytes.extend_from_slice(words.as_bytes())?;
        bytes.extend_from_slice(wrong.as_bytes())?;
    }
    Ok(bytes)
}

/// The refusal as an object of JSON.
fn refusal_text(
    alloc: Global,
    fault: Fault,
    wrong: Option<&'static str>,
) -> Result<Vec<u8>, AllocError>
    ensures { IfOk result (λ bytes. bytes.items ≡ refusal_text fault (option_copied wrong.entry)) }
{
    let mut buffer = Buffer::new();
    let mut bytes = Vec::from_slice(alloc, b"{\"fault\":")?;
    bytes.extend_from_slice(buffer.format(fault.number()).as_bytes())?;
    bytes.extend_from_slice(b",\"reason\":\"")?;
    bytes.extend_from_slice(words_of(fault).as_bytes())?;
    let mut bytes = with_wrong(bytes, "\",\"wrong\":\"", wrong)?;
    bytes.extend_from_slice(b"\"}\n")?;
    Ok(bytes)
}

/// The head of its response up to the length of the body, with a line for clients whose library gives them no body.
fn refusal_head(
    alloc: Global,
    fault: Fault,
    wrong: Option<&'static str>,
) -> Result<Vec<u8>, AllocError>
    ensures { IfOk result (λ bytes. bytes.items ≡ refusal_head fault (option_copied wrong.entry)) }
{
    let mut bytes = begun(alloc, status_of(fault), "application/json")?;
    bytes.extend_from_slice(b"\r\nX-Refusal: ")?;
    bytes.extend_from_slice(reason(fault).as_bytes())?;
    let mut bytes = with_wrong(bytes, " ", wrong)?;
    bytes.extend_from_slice(b"\r\nContent-Length: ")?;
    Ok(bytes)
}

/// The response by which it is told.
fn refusal_response(
    alloc: Global,
    fault: Fault,
    wrong: Option<&'static str>,
) -> Result<Vec<u8>, AllocError>
    ensures { IfOk result (λ bytes. bytes.items ≡ refusal_response fault (option_copied wrong.entry)) }
{
    let mut buffer = Buffer::new();
    let text = refusal_text(alloc, fault, wrong)?;
    let mut bytes = refusal_head(alloc, fault, wrong)?;
    bytes.extend_from_slice(buffer.format(text.len()).as_bytes())?;
    let mut bytes = ended(bytes, NOTHING)?;
    bytes.extend_from_slice(text.as_slice())?;
    Ok(bytes)
}

/// Nothing was sent on the stream before, so it takes the whole response.
fn see_off(mut answering: Answering<TcpStream>) {
    if answering.advance() == Answered::Whole {
        let stream = answering.into_inner();
        let _ = stream.shutdown(Shutdown::Write);
        drop(stream);
    } else {
        drop(answering);
    }
}

/// Refuses a connection whose request was not accepted, in the way that was asked for. Where there is no memory for the response
/// it is closed with the code.
pub(crate) fn refuse(alloc: Global, mut conn: SocketConn<Held<TcpStream>>, refusal: Refusal) {
    if !refusal.tells_status {
        turn_away(&mut conn, refusal.code, refusal.fault);
        drop(conn);
        return;
    }
    match refusal_response(alloc, refusal.fault, refusal.wrong) {
        Ok(response) => answer(conn, response, refusal),
        Err(_) => {
            turn_away(&mut conn, refusal.code, refusal.fault);
            drop(conn);
        }
    }
}

/// The response goes out in place of what was held back.
fn answer(conn: SocketConn<Held<TcpStream>>, response: Vec<u8>, refusal: Refusal) {
    match conn.refuse(response) {
        Ok(answering) => see_off(answering),
        Err(mut conn) => {
            turn_away(&mut conn, refusal.code, refusal.fault);
            drop(conn);
        }
    }
}
