// A connection's turns: what it may read in one, and what came in it.
ghost use Rattle.std.specs.Prelude.{◌≡◌, false, true};
ghost use Rattle.socket_conn.specs.State.{over_stream};
ghost use Rattle.socket_conn.specs.Traffic.{since};
ghost use Rattle.socket_conn.specs.Turns.{begun_turn, told};

use super::SocketConn;
use crate::held::Held;
use crate::traffic::Traffic;
use std::io::{Read, Write};

impl<S: Read + Write + Drop> SocketConn<S> {
    /// How many messages were received since this was asked last.
    pub fn take_received(&mut self) -> u32
        ensures count { result ≡ self.old.received }
        ensures taken { self.new ≡ record self.old { received = 0 } }
    {
        let received = self.received;
        self.received = 0;
        received
    }

    /// Whether a text, a binary message or a pong was received since this was asked last: so the client is there. A ping says
    /// less, and a part of a text does.
    pub fn take_heard(&mut self) -> bool
        ensures heard { result ≡ self.old.is_heard }
        ensures taken { self.new ≡ record self.old { is_heard = false } }
    {
        let is_heard = self.is_heard;
        self.is_heard = false;
        is_heard
    }
}

impl<S: Read + Write + Drop> SocketConn<Held<S>> {
    /// What waits may go out, the answer to the request first.
    pub fn let_go(&mut self)
        ensures { self.new ≡ record (over_stream (record self.old.socket.stream { is_held = false }) self.old) { is_blocked = false } }
    {
        self.socket.let_go();
        self.is_blocked = false;
    }

    /// A turn begins: as many bytes may be read in it as in any other. Whoever serves the connection says so once a turn; else
    /// nothing more is read, once those of one turn are used up.
    pub fn begin_turn(&mut self)
        ensures { self.new ≡ over_stream (begun_turn self.old.socket.stream) self.old }
    {
        self.socket.begin_turn();
    }

    /// Something has come, and the end of the stream may have: it is read until it says that there is nothing more.
    pub fn note_readable(&mut self)
        ensures { self.new ≡ record (over_stream (told false self.old.socket.stream) self.old) { is_readable = true } }
    {
        self.socket.tell(false);
        self.is_readable = true;
    }

    /// Something has come, and when that was seen the end of the stream had not: whoever notes it is told again of all that comes
    /// from then on, the end too, as by an edge of the poll. So a read that leaves room has taken all there is, and the stream is
    /// not asked for more until the next note or turn.
    pub fn note_data(&mut self)
        ensures { self.new ≡ record (over_stream (told true self.old.socket.stream) self.old) { is_readable = true } }
    {
        self.socket.tell(true);
        self.is_readable = true;
    }

    /// How many bytes came behind the head of the request and went, the answer to it among them, since this was asked last.
    pub fn take_traffic(&mut self) -> Traffic
        ensures count { result ≡ since self.old.taken self.old.socket.stream.traffic }
        ensures taken { self.new ≡ record self.old { taken = self.old.socket.stream.traffic } }
    {
        let traffic = self.socket.get_ref().traffic();
        let taken = traffic.since(self.taken);
        self.taken = traffic;
        taken
    }
}
