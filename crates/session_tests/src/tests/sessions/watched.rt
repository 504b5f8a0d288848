// A connection over lists that counts its calls, looks at one of them, and fails there if it is to.
ghost use Rattle.std.specs.Prelude.{◌≡◌};

use session_links::{Conn, ConnFault, Incoming, ListConn};
use std::alloc::Global;

#[derive(Drop)]
pub(super) struct Watched {
    pub(super) conn: ListConn,
    /// The call that is looked at: how many come before it.
    at: u64,
    fails: bool,
    /// How often it was called.
    pub(super) calls: u64,
    /// How many texts were sent, and how many of them before the call that is looked at.
    sent: u64,
    pub(super) sent_before: u64,
}

impl Watched {
    pub(super) fn new(alloc: Global, at: u64, fails: bool) -> Watched {
        Watched {
            conn: ListConn::new(alloc),
            at,
            fails,
            calls: 0,
            sent: 0,
            sent_before: 0,
        }
    }

    pub(super) fn is_open(&self) -> bool
        ensures { result ≡ self.now.conn.is_open }
    {
        self.conn.is_open()
    }

    /// A call begins.
    fn note_call(&mut self)
        ensures is_open { self.new.conn.is_open ≡ self.old.conn.is_open }
        ensures told { self.new.conn.told ≡ self.old.conn.told }
        ensures room { self.new.conn.room ≡ self.old.conn.room }
    {
        if self.calls == self.at {
            self.sent_before = self.sent;
            if self.fails {
                self.conn.calls = 0;
            }
        }
        self.calls = self.calls.saturating_add(1);
    }
}

impl Conn for Watched {
    ghost use Rattle.std.specs.Prelude.{nat_lt, option_map};
    ghost use Rattle.session_links.specs.Lists.{exchange_of};

    ghost exchange = { λ c. option_map exchange_of c.conn.told };

    ghost is_open = { λ c. c.conn.is_open };

    ghost has_room = { λ c. nat_lt 0 c.conn.room };

    fn receive(&mut self) -> Result<Incoming, ConnFault> {
        self.note_call();
        self.conn.receive()
    }

    fn has_room(&self) -> bool {
        self.conn.has_room()
    }

    fn send(&mut self, text: &str) -> Result<(), ConnFault> {
        self.note_call();
        let sent = self.conn.send(text);
        self.sent = self.sent.saturating_add(1);
        sent
    }

    fn close(&mut self, code: u16, reason: &str) {
        self.note_call();
        self.conn.close(code, reason);
    }
}
