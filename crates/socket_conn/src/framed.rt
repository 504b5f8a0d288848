// A WebSocket on a stream, over buffers of its own: what is sent goes from the caller's text into them, and of what comes a text
// alone is copied.
ghost use Rattle.std.specs.Prelude.{◌≡◌, ◌≤◌, [], false, length, drop};
ghost use Rattle.socket_conn.specs.Turns.{begun_turn, told};
ghost use Rattle.tungstenite.specs.Socket.{Socket, IsFresh, socket_code};
ghost use Rattle.websocket.specs.Connection.{can_write};
ghost use Rattle.websocket.specs.declared.protocol.config.Role.TheVariants.{Server};

use crate::held::Held;
use std::alloc::Global;
use std::marker::Model;
use websocket::protocol::{Role, WebSocketConfig, WebSocketContext};

mod reading;
mod writing;

/// A WebSocket on a stream, of the server's side. It holds no message: what is sent stands in the output as its frame, and what is
/// received in the input.
#[derive(Drop)]
pub(crate) struct Framed<S> {
    alloc: Global,
    stream: S,
    context: WebSocketContext,
    /// What was read, from `start` on.
    input: Vec<u8>,
    start: usize,
    /// What is to be sent, from `sent` on.
    output: Vec<u8>,
    sent: usize,
    /// Where a read of the stream puts its bytes.
    chunk: Vec<u8>,
}

impl<S> Model for Framed<S> {
    ghost Value = { Socket S };

    ghost coded = { socket_code S.code };

    ghost view = { λ a. record {
      stream = a.stream;
      conn = a.context;
      input = drop a.start a.input.items;
      output = drop a.sent a.output.items;
    } };

    ghost invariant = { λ a. (a.start ≤ length a.input.items) × (a.sent ≤ length a.output.items) };
}

impl<S: Drop> Framed<S> {
    /// A WebSocket on a stream whose handshake is done, which read these bytes past its end.
    pub(crate) fn new(alloc: Global, stream: S, part: Vec<u8>, config: WebSocketConfig) -> Framed<S>
        ensures fresh { IsFresh (record result { input = [] }) stream Server }
        ensures input { result.input ≡ part.items }
        ensures limits { result.conn.config ≡ config }
    {
        Framed {
            alloc,
            stream,
            context: WebSocketContext::new(alloc, Role::Server, config),
            input: part,
            start: 0,
            output: Vec::new(alloc),
            sent: 0,
            chunk: Vec::new(alloc),
        }
    }

    /// The stream.
    pub(crate) fn into_inner(self) -> S
        ensures { result ≡ self.stream }
    {
        self.stream
    }

    /// The stream.
    pub(crate) fn get_ref(&self) -> &S
        ensures { result.now ≡ self.now.stream }
    {
        &self.stream
    }

    /// Whether a write may still be taken.
    pub(crate) fn can_write(&self) -> bool
        ensures { result ≡ can_write self.now.conn.state }
    {
        self.context.can_write()
    }
}

impl<S: Drop> Framed<Held<S>> {
    /// What waits may go out.
    pub(crate) fn let_go(&mut self)
        ensures { self.new ≡ record self.old { stream = record self.old.stream { is_held = false } } }
    {
        self.stream.let_go();
    }

    /// A turn of the stream begins.
    pub(crate) fn begin_turn(&mut self)
        ensures { self.new ≡ record self.old { stream = begun_turn self.old.stream } }
    {
        self.stream.begin_turn();
    }

    /// There may be something to read, and whether all that comes from now on is told of.
    pub(crate) fn tell(&mut self, is_told: bool)
        ensures { self.new ≡ record self.old { stream = told is_told self.old.stream } }
    {
        self.stream.tell(is_told);
    }
}
