// What a WebSocket sends.
ghost use Rattle.std.specs.Prelude.{◌≡◌, [], OnOk, OnErr, IfErr};
ghost use Rattle.tungstenite.specs.Socket.{Flushed, Sent, Writes};
ghost use Rattle.tungstenite.specs.Failure.{IsIo, IsOutside};
ghost use Rattle.tungstenite.specs.declared.error.Error.TheVariants.{OutOfMemory};
ghost use Rattle.websocket.specs.Connection.{close_step, write_step};
ghost use Rattle.websocket.specs.Content.{close_content, message_content};
ghost use Rattle.websocket.specs.View.{GivesError, Leaves};
ghost use Rattle.socket_conn.specs.Talks.{IsRefused};

use super::Framed;
use std::io;
use std::io::{ErrorKind, Write};
use tungstenite::Error;
use websocket::error::Error as FrameError;
use websocket::protocol::{CloseFrame, Message, NoMask};

/// How many bytes may wait before a write hands them to the stream.
const MOST_WAITING: usize = 131_072;

impl<S: Write + Drop> Framed<S> {
    /// Puts the message into the output, as one frame. Past so many bytes the output goes to the stream.
    pub(crate) fn write(&mut self, message: Message<'_>) -> Result<(), Error>
        ensures wrote { OnOk result (Writes S.contents self.old self.new (write_step self.old.conn (message_content message.entry))) }
        ensures failed { IfErr result (IsRefused (write_step self.old.conn (message_content message.entry))) }
        ensures stream_failed { IfErr result (λ e. IsIo e → Writes S.contents self.old self.new (write_step self.old.conn (message_content message.entry))) }
        ensures memory { IfErr result (λ e. e ≡ OutOfMemory → self.new ≡ self.old) }
    {
        self.put(message)?;
        if self.output.len() - self.sent >= MOST_WAITING {
            self.send_output()?;
        }
        Ok(())
    }

    /// Puts a close into the output, unless one stands there, and hands the stream what waits.
    pub(crate) fn close(&mut self, frame: Option<CloseFrame<'_>>) -> Result<(), Error>
        ensures wrote { OnOk result (Writes S.contents self.old self.new (close_step self.old.conn (close_content frame.entry))) }
    {
        self.put_close(frame)?;
        self.flush()
    }

    /// Hands the stream all that waits.
    pub(crate) fn flush(&mut self) -> Result<(), Error>
        ensures sent { Flushed S.contents self.old self.new }
        ensures empty { OnOk result (self.new.output ≡ []) }
        ensures failed { IfErr result IsOutside }
        ensures only_io { IfErr result IsIo }
    {
        self.send_output()?;
        self.stream.flush()?;
        Ok(())
    }

    /// The message as a frame in the output.
    fn put(&mut self, message: Message<'_>) -> Result<(), FrameError>
        ensures ok { OnOk result (Leaves (write_step self.old.conn (message_content message.entry)) self.new.conn self.old.output self.new.output) }
        ensures failed { IfErr result (GivesError (write_step self.old.conn (message_content message.entry))) }
        ensures stream { self.new.stream ≡ self.old.stream }
        ensures input { self.new.input ≡ self.old.input }
        ensures kept { OnErr result (self.new ≡ self.old) }
    {
        self.context.write(message, &mut self.output, &mut NoMask)
    }

    /// The close as a frame in the output.
    fn put_close(&mut self, frame: Option<CloseFrame<'_>>) -> Result<(), FrameError>
        ensures ok { OnOk result (Leaves (close_step self.old.conn (close_content frame.entry)) self.new.conn self.old.output self.new.output) }
        ensures stream { self.new.stream ≡ self.old.stream }
        ensures input { self.new.input ≡ self.old.input }
    {
        self.context.close(frame, &mut self.output, &mut NoMask)
    }

    /// Sends the output.
    pub(super) fn send_output(&mut self) -> Result<(), Error>
        ensures sent { Sent S.contents self.old self.new }
        ensures empty { OnOk result (self.new.output ≡ []) }
        ensures failed { IfErr result IsOutside }
        ensures only_io { IfErr result IsIo }
    {
        for _ in 0..usize::MAX {
            if self.sent >= self.output.len() {
                self.output.clear();
                self.sent = 0;
                return Ok(());
            }
            match self.stream.write(&self.output[self.sent..]) {
                Ok(0) => return Err(Error::Io(io::Error::from(ErrorKind::WriteZero))),
                Ok(n) => self.sent += n,
                Err(error) => {
                    if error.kind() != ErrorKind::Interrupted {
                        return Err(Error::Io(error));
                    }
                }
            }
        }
        Err(Error::Io(io::Error::from(ErrorKind::TimedOut)))
    }
}
