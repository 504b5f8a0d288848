// What a WebSocket receives.
ghost use Rattle.std.specs.Prelude.{◌≡◌, ◌⊎◌, ◌≤◌, [], false, length, drop, IfErr, IfOk, IfSome, OnErr, OnOk};
ghost use Rattle.std.specs.Io.KnownBytes.{IsAtEnd, Keeps};
ghost use Rattle.tungstenite.specs.Socket.{Filled, Sent, Waited};
ghost use Rattle.tungstenite.specs.Failure.{IsIo, IsOutside, of_frame};
ghost use Rattle.websocket.specs.Connection.{can_read, end_error, failed_connection, read_step};
ghost use Rattle.websocket.specs.Content.{IsReceivedInside};
ghost use Rattle.websocket.specs.View.{GivesError, IfMessage, KeepsRest, ReadLeaves, Returns};
ghost use Rattle.socket_conn.specs.Talks.{GivesAs, ReadsAs};

use super::Framed;
use crate::outcomes::{Came, came_of};
use std::io;
use std::io::{ErrorKind, Read, Write};
use tungstenite::Error;
use websocket::error::Error as FrameError;
use websocket::protocol::{FrameStatus, NoMask, Step};

/// How many bytes one read asks for. Each connection keeps so many, so they decide the memory of an idle one.
const READ_SIZE: usize = 16_384;

impl<S: Read + Write + Drop> Framed<S> {
    /// Reads the next message. A pong or a close that it asks for goes out here or at the next call.
    pub(crate) fn read(&mut self) -> Result<Came, Error>
        ensures { ReadsAs S.remaining self.old self.new result }
    {
        for _ in 0..usize::MAX {
            if let Err(error) = self.send_pending() {
                return Err(error);
            }
            let status = match self.read_frame() {
                Ok(status) => status,
                Err(error) => return Err(error.into()),
            };
            match status {
                FrameStatus::Partial(_) => {
                    if let Err(error) = self.fill() {
                        return Err(error);
                    }
                }
                FrameStatus::Complete(step) => {
                    if let Some(came) = self.finish_frame(step) {
                        return Ok(came);
                    }
                }
            }
        }
        Err(Error::Io(io::Error::from(ErrorKind::TimedOut)))
    }

    /// One step of the protocol on the input.
    fn read_frame(&mut self) -> Result<FrameStatus<Step>, FrameError>
        ensures returns { IfOk result (Returns (read_step self.old.conn self.old.input) self.new.input) }
        ensures leaves { OnOk result (ReadLeaves (read_step self.old.conn self.old.input) self.old.conn self.new.conn self.old.output self.new.output) }
        ensures keeps_rest { IfOk result (λ status. KeepsRest status self.old.input self.new.input) }
        ensures inside { IfOk result (λ status. IfMessage status (IsReceivedInside self.new.input)) }
        ensures stream { self.new.stream ≡ self.old.stream }
        ensures same_len { length self.new.input ≡ length self.old.input }
        ensures failed { IfErr result (GivesError (read_step self.old.conn self.old.input)) }
        ensures err_output { OnErr result (self.new.output ≡ self.old.output) }
        ensures err_state { OnErr result (self.new.conn ≡ failed_connection self.old.conn) }
    {
        self.context.read(&mut self.input[self.start..], &mut self.output, &mut NoMask)
    }

    /// What a frame came to, and the input without it.
    fn finish_frame(&mut self, step: Step) -> Option<Came>
        requires consumed { step.consumed ≤ length self.old.input }
        requires inside { IfSome step.message (IsReceivedInside self.old.input) }
        ensures left { self.new ≡ record self.old { input = drop step.consumed self.old.input } }
        ensures gives { GivesAs self.old.input step.message result }
    {
        let Step { consumed, message } = step;
        let came = match message {
            Some(received) => Some(came_of(self.alloc, received, &self.input[self.start..])),
            None => None,
        };
        self.start += consumed;
        if self.start >= self.input.len() {
            self.input.clear();
            self.start = 0;
        }
        came
    }

    /// Sends what waits. A stream that would block does not stop a read, unless nothing more can be read, so that a reply to a close
    /// would be lost.
    fn send_pending(&mut self) -> Result<(), Error>
        ensures sent { Sent S.contents self.old self.new }
        ensures failed { IfErr result IsOutside }
        ensures idle { OnOk result (can_read self.new.conn.state ≡ false → self.new.output ≡ []) }
    {
        if self.sent >= self.output.len() {
            return Ok(());
        }
        match self.flush() {
            Err(Error::Io(error)) => {
                if error.kind() == ErrorKind::WouldBlock && self.context.can_read() {
                    Ok(())
                } else {
                    Err(Error::Io(error))
                }
            }
            other => other,
        }
    }

    /// Reads more input.
    fn fill(&mut self) -> Result<(), Error>
        ensures filled { OnOk result (Filled S.remaining self.old self.new) }
        ensures kept { IfErr result (λ e. IsOutside e → Waited self.old self.new) }
        ensures failed { IfErr result (λ e. IsOutside e ⊎ (e ≡ of_frame (end_error self.old.conn.state))) }
        ensures output { self.new.output ≡ self.old.output }
        ensures stream_kept { IfErr result (λ e. IsIo e → Keeps (S.remaining self.old.stream) (S.remaining self.new.stream)) }
        ensures ended { IfErr result (λ e. e ≡ of_frame (end_error self.old.conn.state) → IsOutside e ⊎ IsAtEnd (S.remaining self.new.stream)) }
    {
        self.compact();
        self.input.reserve(READ_SIZE)?;
        if self.chunk.len() != READ_SIZE {
            self.chunk.resize(READ_SIZE, 0)?;
        }
        match self.stream.read(&mut self.chunk) {
            Ok(0) => Err(self.context.end_of_input().into()),
            Ok(n) => {
                self.input.extend_from_slice(&self.chunk[..n])?;
                Ok(())
            }
            Err(error) => Err(Error::Io(error)),
        }
    }

    /// Drops the bytes that frames took.
    fn compact(&mut self)
        ensures { self.new ≡ self.old }
    {
        if self.start > 0 {
            self.input.drain(..self.start);
            self.start = 0;
        }
    }
}
