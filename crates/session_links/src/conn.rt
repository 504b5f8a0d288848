// The connection of a session.
ghost use Rattle.std.specs.Prelude.{◌≡◌, ◌≤◌, length, Bool, true, false, Option, IfOk, OnOk, OnErr};
ghost use Rattle.session_links.specs.Links.{Exchange, Tells, goes_on, receipt_of, same, with_close, with_receipt, with_sent};

/// What came.
#[derive(Debug, Drop)]
pub enum Incoming {
    /// Nothing yet.
    Nothing,
    /// A text or a binary message.
    Text(Vec<u8>),
    /// The client has gone.
    Gone,
}

/// The connection has failed: the device, or a growth that was refused.
#[derive(Clone, Copy, Debug, PartialEq, Eq)]
pub struct ConnFault;

/// A connection. One over memory tells what was taken of it and given to it; one over a socket tells nothing.
pub trait Conn {
    /// What was received, sent and closed so far, where it tells that.
    ghost exchange: { Self → Option Exchange };

    /// Whether it may be called: it was not closed, has not failed, and the client has not gone.
    ghost is_open: { Self → Bool };

    /// Whether it takes a text.
    ghost has_room: { Self → Bool };

    /// Receives once, and waits for nothing.
    fn receive(&mut self) -> Result<Incoming, ConnFault>
        requires { is_open self.old ≡ true }
        ensures ok { IfOk result (λ incoming. Tells (with_receipt (receipt_of incoming)) (exchange self.old) (exchange self.new)) }
        ensures open { IfOk result (λ incoming. is_open self.new ≡ goes_on incoming) }
        ensures err { OnErr result ((is_open self.new ≡ false) × Tells same (exchange self.old) (exchange self.new)) };

    /// Whether it takes a text now. A connection that does not is no failure: it takes texts again once the
    /// client has read some of what waits for it.
    fn has_room(&self) -> bool
        ensures { result ≡ has_room self.now };

    /// Takes a whole text, which it may send later. It is given one only where it takes a text: so what waits for its
    /// client stays within its room, and one text more.
    fn send(&mut self, text: &str) -> Result<(), ConnFault>
        requires open { is_open self.old ≡ true }
        requires room { has_room self.old ≡ true }
        ensures ok { OnOk result ((is_open self.new ≡ true) × Tells (with_sent text.now) (exchange self.old) (exchange self.new)) }
        ensures err { OnErr result ((is_open self.new ≡ false) × Tells same (exchange self.old) (exchange self.new)) };

    /// Closes it with a code and a reason (RFC 6455, section 7.4). Whether the client learns of it is not told.
    fn close(&mut self, code: u16, reason: &str)
        requires open { is_open self.old ≡ true }
        requires short { length reason.now ≤ 123 }
        ensures open { is_open self.new ≡ false }
        ensures told { Tells (with_close code reason.now) (exchange self.old) (exchange self.new) };
}
