// What a held stream gives in a turn, and when it does not ask the stream below.
ghost use Rattle.std.specs.Prelude.{◌≡◌, ◌≤◌, ◌<◌, ◌-◌, length, IfOk};
ghost use Rattle.std.specs.Io.KnownBytes.{ReadConsumes};
ghost use Rattle.std.specs.Io.{ReadsAtMost};
ghost use Rattle.socket_conn.specs.Turns.{IsInTurn, after_given, after_nothing, after_read, gives_nothing};

use super::{Held, counted};
use std::io;
use std::io::{ErrorKind, Read};

impl<S> Held<S> {
    /// It gave these bytes, where it was asked for so many at most.
    fn note_given(&mut self, bytes: &[u8], asked: usize)
        requires { length bytes.now ≤ self.old.left }
        ensures left { self.new.left ≡ self.old.left - length bytes.now }
        ensures counted { self.new ≡ after_given self.old asked bytes.now }
    {
        self.is_drained = self.is_told && !bytes.is_empty() && bytes.len() < asked;
        self.traffic.note_received(bytes.len());
        self.left -= bytes.len();
        self.frames.walk(bytes);
    }

    /// Whether it gives nothing more in this turn, which is counted.
    fn gives_nothing(&mut self) -> bool
        ensures result { result ≡ gives_nothing self.old }
        ensures counted { self.new ≡ after_nothing self.old }
    {
        if self.left == 0 {
            self.spent = self.spent.wrapping_add(1);
            true
        } else if self.is_drained {
            self.dry = self.dry.wrapping_add(1);
            true
        } else {
            false
        }
    }
}

impl<S: Read> Held<S> {
    /// Reads no more than the turn has left.
    fn read_within(&mut self, buf: &mut [u8]) -> io::Result<usize>
        requires { 0 < self.old.left }
        ensures bound { ReadsAtMost result buf.new }
        ensures bytes { ReadConsumes (S.remaining self.old.inner) (S.remaining self.new.inner) result buf.new }
        ensures within { IfOk result (λ n. n ≤ self.old.left) }
        ensures same { self.new ≡ record self.old { inner = self.new.inner } }
    {
        let most = self.left.min(buf.len());
        self.inner.read(&mut buf[..most])
    }
}

impl<S: Read> Read for Held<S> {
    ghost remaining = { λ d. S.remaining d.inner };

    fn read(&mut self, buf: &mut [u8]) -> io::Result<usize>
        ensures bound { ReadsAtMost result buf.new }
        ensures bytes { ReadConsumes (S.remaining self.old.inner) (S.remaining self.new.inner) result buf.new }
        ensures turn { IsInTurn self.old result }
        ensures counted { self.new ≡ after_read self.old self.new.inner result buf.new }
    {
        if self.gives_nothing() {
            return Err(io::Error::from(ErrorKind::WouldBlock));
        }
        let asked = self.left.min(buf.len());
        match self.read_within(buf) {
            Ok(count) => {
                self.note_given(&buf[..count], asked);
                Ok(count)
            }
            Err(error) => {
                self.dry = counted(self.dry, &error);
                Err(error)
            }
        }
    }
}
