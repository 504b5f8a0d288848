// A stream whose output waits until it is let go, so that a request is accepted only once its session has begun; and which gives
// so much in a turn at most, so that others have theirs. It counts the bytes that come and go, and does not ask in vain.
ghost use Rattle.std.specs.Prelude.{◌≡◌, ◌≤◌, ◌<◌, ◌-◌, [], true, false, length, drop, IfOk, IsErr, IsTrue};
ghost use Rattle.std.specs.Io.KnownBytes.{append_known, Keeps, WriteAppends};
ghost use Rattle.std.specs.Io.{WritesAtMost};
ghost use Rattle.std.specs.IoError.{error_kind};
ghost use Rattle.socket_conn.specs.Frames.{no_frames, walked};
ghost use Rattle.socket_conn.specs.Shakes.{IsHeld};
ghost use Rattle.socket_conn.specs.Traffic.{more_received, no_traffic, sent_up_to, written};
ghost use Rattle.socket_conn.specs.Turns.{begun_turn, most_a_turn, told};
ghost use Rattle.socket_conn.specs.Waits.{with_wait, with_waits};
ghost use Rattle.tungstenite.specs.Socket.{IsFresh};
ghost use Rattle.websocket.specs.declared.protocol.config.Role.TheVariants.{Server};

use crate::framed::Framed;
use crate::frames::{CountsFrames, FrameCount};
use crate::traffic::Traffic;
use crate::waits::CountsWaits;
use std::alloc::Global;
use std::io;
use std::io::{ErrorKind, Read, Write};
use websocket::protocol::WebSocketConfig;

mod reading;

/// How many bytes a turn reads at most.
const MOST_A_TURN: usize = 262_144;

/// A stream with bytes that go out before all others. As long as it is held, nothing goes out, and a write says that it
/// would block. It gives so many bytes in a turn at most, and then says that it would block, without asking the stream
/// below. So it does too where that one gave less than it was asked for, and tells of what comes later. It counts how often it
/// had to wait, the frames of what it gave, and the bytes of that and of what went.
#[derive(Drop)]
pub struct Held<S> {
    inner: S,
    /// What goes out before all else, from `at` on.
    first: Vec<u8>,
    at: usize,
    is_held: bool,
    /// How often it took nothing.
    full: u64,
    /// How often it had nothing to give.
    dry: u64,
    /// How many bytes it may still give in this turn.
    left: usize,
    /// How often it gave nothing since these were used up.
    spent: u64,
    /// Whoever serves it is told of all that comes from now on, and of its end.
    is_told: bool,
    /// All that had come was given: until more is told of, or the turn is over, it has nothing to give.
    is_drained: bool,
    frames: FrameCount,
    traffic: Traffic,
}

impl<S> Held<S> {
    /// It is held.
    pub fn new(inner: S, first: Vec<u8>) -> Held<S>
        ensures held { result.is_held ≡ true }
        ensures inner { result.inner ≡ inner }
        ensures first { result.first ≡ first }
        ensures at { result.at ≡ 0 }
        ensures turn { result.left ≡ most_a_turn }
        ensures told { (result.is_told ≡ false) × (result.is_drained ≡ false) }
        ensures frames { result.frames ≡ no_frames }
        ensures traffic { result.traffic ≡ no_traffic }
    {
        Held {
            inner,
            first,
            at: 0,
            is_held: true,
            full: 0,
            dry: 0,
            left: MOST_A_TURN,
            spent: 0,
            is_told: false,
            is_drained: false,
            frames: FrameCount::new(),
            traffic: Traffic::none(),
        }
    }

    /// The stream itself.
    pub(crate) fn into_inner(self) -> S
        ensures { result ≡ self.inner }
    {
        let Held {
            inner,
            first: _,
            at: _,
            is_held: _,
            full: _,
            dry: _,
            left: _,
            spent: _,
            is_told: _,
            is_drained: _,
            frames: _,
            traffic: _,
        } = self;
        inner
    }

    /// Whether nothing goes out yet.
    pub(crate) fn is_held(&self) -> bool
        ensures { result ≡ self.now.is_held }
    {
        self.is_held
    }

    /// How many of the first bytes have gone out.
    pub(crate) fn gone(&self) -> usize
        ensures { result ≡ self.now.at }
    {
        self.at
    }

    /// How many bytes came and went so far.
    pub(crate) fn traffic(&self) -> Traffic
        ensures { result ≡ self.now.traffic }
    {
        self.traffic
    }

    /// What waits may go out.
    pub fn let_go(&mut self)
        ensures { self.new ≡ record self.old { is_held = false } }
    {
        self.is_held = false;
    }

    /// A turn begins, in which it gives as many bytes as in any other.
    pub fn begin_turn(&mut self)
        ensures { self.new ≡ begun_turn self.old }
    {
        self.left = MOST_A_TURN;
        self.is_drained = false;
    }

    /// There may be something to give; and whether its end had not come yet, so that of this too, and of all else that comes from
    /// now on, it will be told.
    pub fn tell(&mut self, is_told: bool)
        ensures { self.new ≡ told is_told self.old }
    {
        self.is_told = is_told;
        self.is_drained = false;
    }

    /// Counts bytes that were read before, and their frames.
    fn note_before(&mut self, bytes: &[u8])
        ensures { self.new ≡ record self.old { frames = walked self.old.frames bytes.now; traffic = more_received (length bytes.now) self.old.traffic } }
    {
        self.traffic.note_received(bytes.len());
        self.frames.walk(bytes);
    }
}

impl<S: Write> Held<S> {
    /// Hands the stream the first bytes, once it is let go. Whether they have gone out.
    fn put_first(&mut self) -> io::Result<bool>
        ensures held { self.old.is_held ≡ true → IsErr result × (self.new ≡ self.old) }
        ensures on { self.old.at ≤ self.new.at }
        ensures bytes { Keeps (append_known (S.contents self.old.inner) (drop self.old.at self.old.first.items))
            (append_known (S.contents self.new.inner) (drop self.new.at self.new.first.items)) }
        ensures gone { IfOk result (λ all. IsTrue all → length self.new.first.items ≤ self.new.at) }
        ensures same { self.new ≡ record self.old { inner = self.new.inner; at = self.new.at } }
    {
        if self.is_held {
            return Err(io::Error::from(ErrorKind::WouldBlock));
        }
        if self.at >= self.first.len() {
            return Ok(true);
        }
        match self.inner.write(&self.first[self.at..]) {
            Ok(0) => Err(io::Error::from(ErrorKind::WriteZero)),
            Ok(n) => {
                self.at += n;
                Ok(self.at >= self.first.len())
            }
            Err(error) => Err(error),
        }
    }

    /// Whether the first bytes have gone out, which they do once it is let go. What went of them is counted.
    fn send_first(&mut self) -> io::Result<bool>
        ensures held { self.old.is_held ≡ true → IsErr result × (self.new.inner ≡ self.old.inner) × (self.new.at ≡ self.old.at) }
        ensures bytes { Keeps (append_known (S.contents self.old.inner) (drop self.old.at self.old.first.items))
            (append_known (S.contents self.new.inner) (drop self.new.at self.new.first.items)) }
        ensures gone { IfOk result (λ all. IsTrue all → length self.new.first.items ≤ self.new.at) }
        ensures counted { self.new ≡ sent_up_to self.new.at self.new.inner self.old }
    {
        let at = self.at;
        let all = self.put_first();
        self.traffic.note_sent(self.at - at);
        all
    }

    /// Writes behind the first bytes. What went is counted.
    fn write_behind(&mut self, buf: &[u8]) -> io::Result<usize>
        ensures bound { WritesAtMost result buf.now }
        ensures bytes { WriteAppends (S.contents self.old.inner) (S.contents self.new.inner) result buf.now }
        ensures counted { self.new ≡ written result (record self.old { inner = self.new.inner }) }
    {
        match self.inner.write(buf) {
            Ok(count) => {
                self.traffic.note_sent(count);
                Ok(count)
            }
            Err(error) => Err(error),
        }
    }
}

impl<S: Write> Held<S> {
    /// Sends the first bytes on. Whether they have gone out.
    pub(crate) fn send_on(&mut self) -> io::Result<bool>
        ensures bytes { Keeps (append_known (S.contents self.old.inner) (drop self.old.at self.old.first.items))
            (append_known (S.contents self.new.inner) (drop self.new.at self.new.first.items)) }
        ensures gone { IfOk result (λ all. IsTrue all → length self.new.first.items ≤ self.new.at) }
        ensures counted { self.new ≡ record (sent_up_to self.new.at self.new.inner self.old) { full = with_waits self.old.full result } }
    {
        let sent = self.send_first();
        if let Err(error) = &sent {
            self.full = counted(self.full, error);
        }
        sent
    }

    fn write_on(&mut self, buf: &[u8]) -> io::Result<usize>
        ensures counted { self.new ≡ written result (sent_up_to self.new.at self.new.inner self.old) }
        ensures held { self.old.is_held ≡ true → IsErr result × (self.new.inner ≡ self.old.inner) × (self.new.at ≡ self.old.at) }
        ensures bound { WritesAtMost result buf.now }
        ensures bytes { WriteAppends (append_known (S.contents self.old.inner) (drop self.old.at self.old.first.items))
            (append_known (S.contents self.new.inner) (drop self.new.at self.new.first.items)) result buf.now }
    {
        match self.send_first() {
            Ok(true) => self.write_behind(buf),
            // Whoever writes tries again at once: the stream has not said that it takes no more.
            Ok(false) => Err(io::Error::from(ErrorKind::Interrupted)),
            Err(error) => Err(error),
        }
    }

    fn flush_on(&mut self) -> io::Result<()>
        ensures counted { self.new ≡ sent_up_to self.new.at self.new.inner self.old }
        ensures held { self.old.is_held ≡ true → IsErr result × (self.new.inner ≡ self.old.inner) × (self.new.at ≡ self.old.at) }
        ensures bytes { Keeps (append_known (S.contents self.old.inner) (drop self.old.at self.old.first.items))
            (append_known (S.contents self.new.inner) (drop self.new.at self.new.first.items)) }
    {
        match self.send_first() {
            Ok(true) => self.inner.flush(),
            Ok(false) => Err(io::Error::from(ErrorKind::WouldBlock)),
            Err(error) => Err(error),
        }
    }
}

/// How many waits there were with one more, where this was one.
fn counted(times: u64, error: &io::Error) -> u64
    ensures { result ≡ with_wait times (error_kind error.now) }
{
    if error.kind() == ErrorKind::WouldBlock {
        times.wrapping_add(1)
    } else {
        times
    }
}

impl<S> CountsWaits for Held<S> {
    ghost full = { λ d. d.full };

    ghost dry = { λ d. d.dry };

    ghost spent = { λ d. d.spent };

    fn times_full(&self) -> u64 {
        self.full
    }

    fn times_dry(&self) -> u64 {
        self.dry
    }

    fn times_spent(&self) -> u64 {
        self.spent
    }
}

impl<S> CountsFrames for Held<S> {
    ghost over = { λ d. d.frames.is_over };

    fn is_over(&self) -> bool {
        self.frames.is_over()
    }
}

impl<S: Write> Write for Held<S> {
    ghost contents = { λ d. append_known (S.contents d.inner) (drop d.at d.first.items) };

    fn write(&mut self, buf: &[u8]) -> io::Result<usize>
        ensures held { self.old.is_held ≡ true → IsErr result × (self.new.inner ≡ self.old.inner) × (self.new.at ≡ self.old.at) }
        ensures bound { WritesAtMost result buf.now }
        ensures bytes { WriteAppends (append_known (S.contents self.old.inner) (drop self.old.at self.old.first.items))
            (append_known (S.contents self.new.inner) (drop self.new.at self.new.first.items)) result buf.now }
        ensures counted { self.new ≡ record (written result (sent_up_to self.new.at self.new.inner self.old)) { full = with_waits self.old.full result } }
    {
        let wrote = self.write_on(buf);
        if let Err(error) = &wrote {
            self.full = counted(self.full, error);
        }
        wrote
    }

    fn flush(&mut self) -> io::Result<()>
        ensures held { self.old.is_held ≡ true → IsErr result × (self.new.inner ≡ self.old.inner) × (self.new.at ≡ self.old.at) }
        ensures bytes { Keeps (append_known (S.contents self.old.inner) (drop self.old.at self.old.first.items))
            (append_known (S.contents self.new.inner) (drop self.new.at self.new.first.items)) }
        ensures counted { self.new ≡ record (sent_up_to self.new.at self.new.inner self.old) { full = with_waits self.old.full result } }
    {
        let flushed = self.flush_on();
        if let Err(error) = &flushed {
            self.full = counted(self.full, error);
        }
        flushed
    }
}

/// The socket of a connection whose head was read: the answer goes out first, once it is let go, and `rest` is what came
/// behind the head.
pub(crate) fn socket_of<S: Read + Write + Drop>(
    alloc: Global,
    stream: S,
    answer: Vec<u8>,
    rest: Vec<u8>,
    config: WebSocketConfig,
) -> Framed<Held<S>>
    ensures input { result.input ≡ rest.items }
    ensures answer { IsHeld stream answer.items result.stream }
    ensures fresh { IsFresh (record result { input = [] }) result.stream Server }
    ensures limits { result.conn.config ≡ config }
    ensures turn { result.stream.left ≡ most_a_turn }
    ensures frames { result.stream.frames ≡ walked no_frames rest.items }
    ensures traffic { result.stream.traffic ≡ more_received (length rest.items) no_traffic }
{
    let mut held = Held::new(stream, answer);
    held.note_before(&rest);
    Framed::new(alloc, held, rest, config)
}
