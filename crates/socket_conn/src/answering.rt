// A connection that asked for no WebSocket: its response goes out, on a stream that does not block.
ghost use Rattle.std.specs.Prelude.{◌≡◌, ◌<◌, false};
ghost use Rattle.std.specs.Io.KnownBytes.{Keeps};
ghost use Rattle.std.specs.IoError.{error_kind};
ghost use Rattle.socket_conn.specs.Answering.{ComesTo, HasWritten, left, sent_and_left, stopped};

use crate::held::Held;
use std::io;
use std::io::{ErrorKind, Write};

/// How often one turn writes. The stream takes as much as it has room for each time.
const MOST_WRITES: u32 = 64;

/// A connection whose response has not gone whole.
#[derive(Drop)]
pub struct Answering<S> {
    /// The response goes out before all else, and nothing follows it. It counts how often the stream took nothing.
    stream: Held<S>,
}

/// How far a response is.
#[derive(Clone, Copy, Debug, PartialEq, Eq)]
pub enum Answered {
    /// All of it has gone.
    Whole,
    /// The stream may take more.
    GoesOn,
    /// The stream is to be ready first.
    Waits,
    /// The stream takes no more, or was interrupted in each write of a turn.
    Failed,
}

fn stop_of(error: &io::Error) -> Answered
    ensures { result ≡ stopped (error_kind error.now) }
{
    match error.kind() {
        ErrorKind::WouldBlock => Answered::Waits,
        ErrorKind::Interrupted => Answered::GoesOn,
        _ => Answered::Failed,
    }
}

impl<S> Answering<S> {
    /// Nothing has gone yet.
    pub fn start(stream: S, response: Vec<u8>) -> Answering<S>
        ensures stream { result.stream.inner ≡ stream }
        ensures left { left result ≡ response.items }
        ensures goes { result.stream.is_held ≡ false }
    {
        let mut stream = Held::new(stream, response);
        stream.let_go();
        Answering { stream }
    }

    /// The stream itself.
    pub fn into_inner(self) -> S
        ensures { result ≡ self.stream.inner }
    {
        let Answering { stream } = self;
        stream.into_inner()
    }
}

impl<S: Write> Answering<S> {
    /// Writes once.
    fn write(&mut self) -> Answered
        ensures bytes { Keeps (sent_and_left S.contents self.old) (sent_and_left S.contents self.new) }
        ensures same { HasWritten self.old self.new }
        ensures comes { ComesTo self.old self.new result }
    {
        match self.stream.send_on() {
            Ok(true) => Answered::Whole,
            Ok(false) => Answered::GoesOn,
            Err(error) => stop_of(&error),
        }
    }

    /// Goes on as far as the stream is ready. What goes out is the response, from its first byte to its last.
    pub fn advance(&mut self) -> Answered
        ensures bytes { Keeps (sent_and_left S.contents self.old) (sent_and_left S.contents self.new) }
        ensures same { HasWritten self.old self.new }
        ensures comes { ComesTo self.old self.new result }
        ensures goes_on { result ≡ Answered.GoesOn → self.old.stream.at < self.new.stream.at }
    {
        let gone = self.stream.gone();
        for _ in 0..MOST_WRITES {
            match self.write() {
                Answered::GoesOn => {}
                answered => return answered,
            }
        }
        if self.stream.gone() > gone {
            Answered::GoesOn
        } else {
            Answered::Failed
        }
    }
}
