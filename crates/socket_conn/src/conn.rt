// A session's connection over a WebSocket.
ghost use Rattle.std.specs.Prelude.{Bool, ◌≡◌, ◌≤◌, ◌⊎◌, length, IfOk, OnOk, OnErr, Ok, Err, Some, None, [], true, false, IsErr, IsTrue};
ghost use Rattle.session_links.specs.Links.{Tells, goes_on, receipt_of, same, with_close, with_receipt, with_sent};
ghost use Rattle.tungstenite.specs.Socket.{Flushed, Writes};
ghost use Rattle.websocket.specs.Connection.{write_step};
ghost use Rattle.websocket.specs.Content.{message_content, ping};
ghost use Rattle.socket_conn.specs.State.{Flushes, StaysOrBlocks, begun, blocked, ended, hung_up, is_roomy, says_close, with_unsent};
ghost use Rattle.socket_conn.specs.Talks.{Closes, Receives, SendsText, WaitedSince};
ghost use Rattle.websocket.specs.CloseCode.{close_code_of};

use crate::faults::Faults;
use crate::framed::Framed;
use crate::frames::CountsFrames;
use crate::outcomes::would_block;
use crate::traffic::Traffic;
use crate::waits::CountsWaits;
use session_links::{Conn, ConnFault, Incoming};
use std::io::{Read, Write};
use websocket::protocol::{CloseCode, Message};

mod closing;
mod receiving;
mod taking;
mod turns;

/// How many bytes may wait for the socket before no further text is taken.
const MOST_UNSENT: usize = 65_536;

/// A connection over a WebSocket, on a stream that does not block. Output that the stream does not take is kept, and goes
/// on when `flush` is called; meanwhile nothing is read.
pub struct SocketConn<S: Read + Write + Drop> {
    socket: Framed<S>,
    /// It may be called.
    is_open: bool,
    /// The stream has failed, or the client has gone: the next call says so.
    is_lost: bool,
    /// There may be something to read.
    is_readable: bool,
    /// The stream did not take all output.
    is_blocked: bool,
    /// How many bytes were written since all output had left.
    unsent: usize,
    /// How many messages were received.
    received: u32,
    /// Of these, one was a text, a binary message or a pong.
    is_heard: bool,
    /// What its stream had counted of bytes when that was taken last.
    taken: Traffic,
    /// The code that the client's breach of the protocol is closed with, once that was met.
    breach: Option<CloseCode>,
    /// How often a read, a flush, a close or the copy of its reason has failed.
    faults: Faults,
}

impl<S: Read + Write + Drop> Drop for SocketConn<S> {
    fn drop(self) {
        let SocketConn {
            socket: _,
            is_open: _,
            is_lost: _,
            is_readable: _,
            is_blocked: _,
            unsent: _,
            received: _,
            is_heard: _,
            taken: _,
            breach: _,
            faults: _,
        } = self;
    }
}

impl<S: Read + Write + CountsWaits + Drop> SocketConn<S> {
    /// After the handshake. The stream may hold a text already.
    pub(crate) fn new(socket: Framed<S>) -> Self
        ensures { result ≡ begun socket }
    {
        SocketConn {
            socket,
            is_open: true,
            is_lost: false,
            is_readable: true,
            is_blocked: false,
            unsent: 0,
            received: 0,
            is_heard: false,
            taken: Traffic::none(),
            breach: None,
            faults: Faults::none(),
        }
    }

    /// Whether it may be called: it was not closed, and no call has said that it failed or that the client has gone.
    pub fn is_open(&self) -> bool
        ensures { result ≡ self.now.is_open }
    {
        self.is_open
    }

    /// Whether there may be something to read.
    pub fn is_readable(&self) -> bool
        ensures { result ≡ self.now.is_readable }
    {
        self.is_readable
    }

    /// Whether the stream did not take all output.
    pub fn is_blocked(&self) -> bool
        ensures { result ≡ self.now.is_blocked }
    {
        self.is_blocked
    }

    /// It is given up: the next receive says that the client has gone.
    pub fn hang_up(&mut self)
        ensures { self.new ≡ hung_up self.old }
    {
        self.is_lost = true;
        self.is_readable = true;
        self.is_blocked = false;
    }

    /// Hands the stream the output that waits. Whether it took all.
    pub fn flush(&mut self) -> bool
        ensures sent { Flushed S.contents self.old.socket self.new.socket }
        ensures all { result ≡ true → self.new.socket.output ≡ [] }
        ensures state { Flushes S.full self.old self.new result }
    {
        let full = self.socket.get_ref().times_full();
        match self.faults.flush(&mut self.socket) {
            Ok(()) => {
                self.unsent = 0;
                self.is_blocked = false;
                true
            }
            Err(error) => {
                drop(error);
                if self.is_full_since(full) {
                    self.is_blocked = true;
                } else {
                    self.hang_up();
                }
                false
            }
        }
    }

    /// Whether the stream took nothing since it counted so many.
    fn is_full_since(&self, full: u64) -> bool
        ensures { WaitedSince S.full full self.now.socket result }
    {
        self.socket.get_ref().times_full() != full
    }

    /// Writes the message. What the stream does not take waits.
    fn write(&mut self, message: Message<'_>) -> Result<(), ConnFault>
        ensures state { StaysOrBlocks S.full self.old self.new }
        ensures wrote { OnOk result (Writes S.contents self.old.socket self.new.socket (write_step self.old.socket.conn (message_content message.entry))) }
    {
        let full = self.socket.get_ref().times_full();
        match self.socket.write(message) {
            Ok(()) => Ok(()),
            Err(error) => {
                let would_block = would_block(&error);
                drop(error);
                if would_block {
                    self.note_full(full);
                    Ok(())
                } else {
                    Err(ConnFault)
                }
            }
        }
    }

    /// It is blocked where the stream took nothing since it counted so many.
    fn note_full(&mut self, full: u64)
        ensures socket { self.new.socket ≡ self.old.socket }
        ensures state { (self.new ≡ self.old) ⊎ ((self.new ≡ blocked self.old) × ¬ (S.full self.old.socket.stream ≡ full)) }
    {
        if self.is_full_since(full) {
            self.is_blocked = true;
        }
    }

    fn write_text(&mut self, text: &str) -> Result<(), ConnFault>
        ensures state { StaysOrBlocks S.full self.old self.new }
        ensures wrote { OnOk result (SendsText S.contents self.old.socket self.new.socket text.now) }
    {
        self.write(Message::Text(text))
    }
}

impl<S: Read + Write + CountsWaits + Drop> SocketConn<S> {
    /// Asks the client for a sign of life (RFC 6455, section 5.5.2), which goes out with the next flush.
    pub fn ping(&mut self) -> Result<(), ConnFault>
        ensures state { StaysOrBlocks S.full self.old self.new }
        ensures wrote { OnOk result (Writes S.contents self.old.socket self.new.socket (write_step self.old.socket.conn (ping []))) }
        ensures lost { self.old.is_lost ≡ true → IsErr result × (self.new ≡ self.old) }
    {
        if self.is_lost {
            return Err(ConnFault);
        }
        self.write(Message::Ping(&[]))
    }
}

impl<S: Read + Write + CountsWaits + CountsFrames + Drop> Conn for SocketConn<S> {
    ghost use Rattle.socket_conn.specs.State.{is_roomy};

    // A socket tells nothing of its exchange.
    ghost exchange = { λ c. None };

    ghost is_open = { λ c. c.is_open };

    ghost has_room = { λ c. is_roomy c };

    fn receive(&mut self) -> Result<Incoming, ConnFault>
        requires { self.old.is_open ≡ true }
        ensures ok { IfOk result (λ incoming. Tells (with_receipt (receipt_of incoming)) None None) }
        ensures open { IfOk result (λ incoming. self.new.is_open ≡ goes_on incoming) }
        ensures err { OnErr result ((self.new.is_open ≡ false) × Tells same None None) }
        ensures read { Receives S.remaining S.contents S.full S.dry S.spent S.over self.old self.new result }
        ensures lost { self.old.is_lost ≡ true → IsErr result × (self.new ≡ ended self.old) }
    {
        if self.is_lost {
            self.is_open = false;
            return Err(ConnFault);
        }
        let stream = self.socket.get_ref();
        let dry = stream.times_dry();
        let spent = stream.times_spent();
        if !self.is_readable || !self.flush() {
            return Ok(Incoming::Nothing);
        }
        let what = self.faults.read(&mut self.socket, dry, spent);
        self.take(what)
    }

    fn has_room(&self) -> bool {
        self.is_open && !self.is_blocked && self.unsent < MOST_UNSENT
    }

    fn send(&mut self, text: &str) -> Result<(), ConnFault>
        requires open { self.old.is_open ≡ true }
        requires room { is_roomy self.old ≡ true }
        ensures ok { OnOk result ((self.new.is_open ≡ true) × Tells (with_sent text.now) None None) }
        ensures err { OnErr result ((self.new.is_open ≡ false) × Tells same None None) }
        ensures wrote { OnOk result (SendsText S.contents self.old.socket self.new.socket text.now) }
        ensures counted { OnOk result (StaysOrBlocks S.full (with_unsent text.now self.old) self.new) }
        ensures left { OnErr result (StaysOrBlocks S.full (ended self.old) self.new) }
        ensures lost { self.old.is_lost ≡ true → IsErr result × (self.new ≡ ended self.old) }
    {
        if self.is_lost {
            self.is_open = false;
            return Err(ConnFault);
        }
        match self.write_text(text) {
            Ok(()) => {
                self.unsent = self.unsent.saturating_add(text.len());
                Ok(())
            }
            Err(fault) => {
                self.is_open = false;
                Err(fault)
            }
        }
    }

    fn close(&mut self, code: u16, reason: &str)
        requires open { self.old.is_open ≡ true }
        requires short { length reason.now ≤ 123 }
        ensures open { self.new.is_open ≡ false }
        ensures told { Tells (with_close code reason.now) None None }
        ensures said { says_close self.old (close_code_of code) ≡ true → Closes S.contents (ended self.old) self.new (close_code_of code) reason.now }
        ensures silent { says_close self.old (close_code_of code) ≡ false → self.new ≡ ended self.old }
    {
        self.is_open = false;
        if self.says_close(CloseCode::from(code)) {
            self.close_with(code, reason);
        }
    }
}
