// How a connection is closed: by one last frame.
ghost use Rattle.std.specs.Prelude.{◌≡◌, ◌≤◌, length, IfSome, OnOk, OnErr, Ok, Some, None, [], true};
ghost use Rattle.socket_conn.specs.Faults.{after};
ghost use Rattle.socket_conn.specs.State.{over, says_close};
ghost use Rattle.socket_conn.specs.Talks.{Closes, SendsClose};
ghost use Rattle.tungstenite.specs.Socket.{Flushed, Writes};
ghost use Rattle.websocket.specs.CloseCode.{close_code_of};
ghost use Rattle.websocket.specs.Connection.{close_step};

use super::SocketConn;
use session_links::ConnFault;
use std::io::{Read, Write};
use websocket::protocol::{CloseCode, CloseFrame, Message};

impl<S: Read + Write + Drop> SocketConn<S> {
    /// Tells a client that broke the protocol so, by a close with the code (RFC 6455, section 7.4.1): 1002 for broken
    /// framing, 1007 for a text that is no UTF-8, 1009 for a message that is too long. Nothing is told twice, nor to a
    /// client that broke nothing.
    pub fn tell_breach(&mut self) -> Result<(), ConnFault>
        ensures once { self.new ≡ record self.old { socket = self.new.socket; breach = None } }
        ensures nothing { self.old.breach ≡ None → (result ≡ Ok tt) × (self.new.socket ≡ self.old.socket) }
        ensures told { IfSome self.old.breach (λ code. OnOk result (Writes S.contents self.old.socket self.new.socket (close_step self.old.socket.conn (Some (code, []))))) }
    {
        match self.breach.take() {
            Some(code) => self.say_code(code),
            None => Ok(()),
        }
    }

    fn say_code(&mut self, code: CloseCode) -> Result<(), ConnFault>
        ensures same { self.new ≡ record self.old { socket = self.new.socket } }
        ensures wrote { OnOk result (Writes S.contents self.old.socket self.new.socket (close_step self.old.socket.conn (Some (code, [])))) }
    {
        let frame = Some(CloseFrame { code, reason: "" });
        match self.socket.close(frame) {
            Ok(()) => Ok(()),
            Err(error) => {
                drop(error);
                Err(ConnFault)
            }
        }
    }

    /// Says the last frame. What the stream does not take waits.
    fn say_close(&mut self, code: u16, reason: &str) -> Result<(), ConnFault>
        requires says { says_close self.old (close_code_of code) ≡ true }
        requires short { length reason.now ≤ 123 }
        ensures same { self.new ≡ record self.old { socket = self.new.socket; faults = after result self.old.faults } }
        ensures ok { OnOk result (SendsClose S.contents self.old.socket self.new.socket (close_code_of code) reason.now) }
        ensures err { OnErr result (self.new.socket ≡ self.old.socket) }
    {
        match self.put_close(code, reason) {
            Ok(()) => {
                self.hand_on();
                Ok(())
            }
            Err(fault) => Err(fault),
        }
    }

    /// Hands the stream what waits, whatever comes of it.
    fn hand_on(&mut self)
        ensures same { self.new ≡ over self.new.socket self.old }
        ensures sent { Flushed S.contents self.old.socket self.new.socket }
    {
        match self.socket.flush() {
            Ok(()) => {}
            Err(error) => drop(error),
        }
    }

    fn put_close(&mut self, code: u16, reason: &str) -> Result<(), ConnFault>
        requires says { says_close self.old (close_code_of code) ≡ true }
        requires short { length reason.now ≤ 123 }
        ensures same { self.new ≡ record self.old { socket = self.new.socket; faults = after result self.old.faults } }
        ensures ok { OnOk result (SendsClose S.contents self.old.socket self.new.socket (close_code_of code) reason.now) }
        ensures err { OnErr result (self.new.socket ≡ self.old.socket) }
    {
        let code = CloseCode::from(code);
        let close = Message::Close(Some(CloseFrame { code, reason }));
        match self.faults.put(&mut self.socket, close) {
            Ok(()) => Ok(()),
            Err(error) => {
                drop(error);
                Err(ConnFault)
            }
        }
    }

    /// Says why it is closed. It is lost where there is no memory for that.
    pub(super) fn close_with(&mut self, code: u16, reason: &str)
        requires says { says_close self.old (close_code_of code) ≡ true }
        requires short { length reason.now ≤ 123 }
        ensures { Closes S.contents self.old self.new (close_code_of code) reason.now }
    {
        if self.say_close(code, reason).is_err() {
            self.is_lost = true;
        }
    }

    /// Whether a close with the code is said.
    pub(super) fn says_close(&self, code: CloseCode) -> bool
        ensures { result ≡ says_close self.now code }
    {
        !self.is_lost && self.socket.can_write() && code.is_allowed()
    }
}
