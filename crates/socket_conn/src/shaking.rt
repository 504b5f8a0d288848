// A connection whose request is on its way (RFC 6455, section 4.2), on a stream that does not block.
ghost use Rattle.std.specs.Prelude.{◌≡◌, [], IfOk, Some, drop, false};
ghost use Rattle.socket_conn.specs.Heads.{IsRequest, IsUpgrade};
ghost use Rattle.socket_conn.specs.declared.conn.SocketConn.{SocketConn};
ghost use Rattle.socket_conn.specs.declared.held.Held.{Held};
ghost use Rattle.socket_conn.specs.Shakes.{Begins, Hears, Judges, Shakes, most_message};

use crate::asked::Asked;
use crate::conn::SocketConn;
use crate::head::{Head, Request, Upgrade, read_head};
use crate::held::{Held, socket_of};
use crate::waits::CountsWaits;
use std::alloc::{AllocError, Global};
use std::io::{Read, Write};
use websocket::protocol::WebSocketConfig;

/// The longest message. A text may have 2,097,152 bytes; a longer one is answered, not cut off, up to this.
const MOST_BYTES: usize = 4_194_304;

/// How many bytes one read of a head asks for, and how many a head may have with what came behind it.
const CHUNK: usize = 2_048;

const MOST_HEAD: usize = 16_384;

/// In how many reads a head has to come, since each of them looks at it from its beginning.
const MOST_READS: u32 = 64;

/// A connection whose request has not come whole.
#[derive(Drop)]
pub struct Shaking<S: Read + Write + Drop> {
    alloc: Global,
    /// It is read alone, and counts how often it had nothing to give.
    stream: Held<S>,
    head: Vec<u8>,
    reads: u32,
}

/// How far a connection is.
#[derive(Drop)]
pub enum Shaken<S: Read + Write + Drop> {
    /// It asks for a WebSocket, and for this. Nothing has been sent: the answer goes out once the connection is let go.
    Open(SocketConn<Held<S>>, Asked),
    /// It asks for none. This is its stream, and what came behind the head is dropped.
    Plain(S, Request),
    /// The stream is to be ready first.
    Waits(Shaking<S>),
    /// It has ended, or its head is too long, or there is no memory.
    Failed,
}

/// What one read came to.
#[derive(Clone, Copy, Debug, PartialEq, Eq)]
enum Heard {
    More,
    Nothing,
    Ends,
}

/// What came behind a head of so many bytes.
fn behind(alloc: Global, mut head: Vec<u8>, len: usize) -> Vec<u8>
    ensures { result.items ≡ drop len head.items }
{
    head.drain(..len.min(head.len()));
    if head.is_empty() {
        Vec::new(alloc)
    } else {
        head
    }
}

/// What a connection takes.
fn config() -> WebSocketConfig
    ensures message { result.max_message_size ≡ Some most_message }
    ensures frame { result.max_frame_size ≡ Some most_message }
    ensures masked { result.accept_unmasked_frames ≡ false }
{
    WebSocketConfig::default()
        .max_message_size(Some(MOST_BYTES))
        .max_frame_size(Some(MOST_BYTES))
}

fn opened<S: Read + Write + Drop>(
    alloc: Global,
    stream: S,
    upgrade: Upgrade,
    rest: Vec<u8>,
) -> Shaken<S>
    ensures { (conn : SocketConn (Held S)) × (result ≡ Shaken.Open conn upgrade.asked) × Begins upgrade stream rest.items conn }
{
    let Upgrade {
        asked,
        answer,
        len: _,
    } = upgrade;
    let socket = socket_of(alloc, stream, answer, rest, config());
    Shaken::Open(SocketConn::new(socket), asked)
}

impl<S: Read + Write + Drop> Shaking<S> {
    /// Nothing was read yet.
    pub fn start(alloc: Global, stream: S) -> Shaking<S>
        ensures stream { result.stream.inner ≡ stream }
        ensures head { result.head.items ≡ [] }
        ensures reads { result.reads ≡ 0 }
    {
        Shaking {
            alloc,
            stream: Held::new(stream, Vec::new(alloc)),
            head: Vec::new(alloc),
            reads: 0,
        }
    }

    /// Reads once.
    fn read(&mut self) -> Result<Heard, AllocError>
        ensures { IfOk result (Hears S.remaining self.old self.new) }
    {
        let len = self.head.len();
        if len >= MOST_HEAD || self.reads >= MOST_READS {
            return Ok(Heard::Ends);
        }
        self.head.resize(len + CHUNK, 0)?;
        let dry = self.stream.times_dry();
        let got = self.stream.read(&mut self.head[len..]);
        match got {
            Ok(0) => Ok(Heard::Ends),
            Ok(count) => {
                self.head.truncate(len + count);
                self.reads += 1;
                Ok(Heard::More)
            }
            Err(_) => {
                self.head.truncate(len);
                if self.stream.times_dry() != dry {
                    Ok(Heard::Nothing)
                } else {
                    Ok(Heard::Ends)
                }
            }
        }
    }

    /// What the head comes to as far as it has come.
    fn judge(self) -> Shaken<S>
        ensures { Judges self result }
    {
        match read_head(self.alloc, self.head.as_slice()) {
            Ok(Head::Partial) => Shaken::Waits(self),
            Ok(Head::Upgrade(upgrade)) => self.upgraded(upgrade),
            Ok(Head::Plain(request)) => self.plain(request),
            Err(_) => Shaken::Failed,
        }
    }

    /// The connection, with what came behind the head.
    fn upgraded(self, upgrade: Upgrade) -> Shaken<S>
        requires { IsUpgrade self.head.items upgrade }
        ensures { Judges self result }
    {
        let Shaking {
            alloc,
            stream,
            head,
            reads: _,
        } = self;
        let rest = behind(alloc, head, upgrade.len);
        opened(alloc, stream.into_inner(), upgrade, rest)
    }

    /// The stream, to answer the request.
    fn plain(self, request: Request) -> Shaken<S>
        requires { IsRequest self.head.items request }
        ensures { Judges self result }
    {
        let Shaking {
            alloc: _,
            stream,
            head: _,
            reads: _,
        } = self;
        Shaken::Plain(stream.into_inner(), request)
    }

    /// Goes on as far as the stream is ready.
    pub fn advance(self) -> Shaken<S>
        ensures { Shakes S.remaining self result }
    {
        let mut shaking = self;
        for _ in 0..=MOST_READS {
            match shaking.read() {
                Ok(Heard::More) => match shaking.judge() {
                    Shaken::Waits(again) => shaking = again,
                    shaken => return shaken,
                },
                Ok(Heard::Nothing) => return Shaken::Waits(shaking),
                Ok(Heard::Ends) | Err(_) => return Shaken::Failed,
            }
        }
        Shaken::Failed
    }
}
