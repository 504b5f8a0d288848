// How often what a connection asked for has failed.
ghost use Rattle.std.specs.Prelude.{◌≡◌, [], IfErr, OnOk};
ghost use Rattle.socket_conn.specs.Faults.{after, after_read, no_faults, one_more};
ghost use Rattle.socket_conn.specs.Talks.{Brings, GivesSigns, IsRefused};
ghost use Rattle.tungstenite.specs.Failure.{IsIo};
ghost use Rattle.tungstenite.specs.Socket.{Flushed, Writes};
ghost use Rattle.tungstenite.specs.declared.error.Error.TheVariants.{OutOfMemory};
ghost use Rattle.websocket.specs.Connection.{write_step};
ghost use Rattle.websocket.specs.Content.{message_content};

use crate::framed::Framed;
use crate::frames::CountsFrames;
use crate::outcomes::{Came, Signs, is_io, outcome_of, signs_since};
use crate::waits::CountsWaits;
use std::io::{Read, Write};
use tungstenite::Error;
use websocket::protocol::Message;

/// How often what a connection asked for has failed: so nobody gives it up, or keeps a frame back, that has not tried.
#[derive(Clone, Copy)]
pub(crate) struct Faults {
    times: u64,
}

impl Faults {
    pub(crate) fn none() -> Faults
        ensures { result ≡ no_faults }
    {
        Faults { times: 0 }
    }

    fn count(&mut self)
        ensures { self.new ≡ one_more self.old }
    {
        self.times = self.times.wrapping_add(1);
    }

    /// Hands the stream of the socket the output that waits.
    pub(crate) fn flush<S: Read + Write + Drop>(
        &mut self,
        socket: &mut Framed<S>,
    ) -> Result<(), Error>
        ensures sent { Flushed S.contents socket.old socket.new }
        ensures empty { OnOk result (socket.new.output ≡ []) }
        ensures counted { self.new ≡ after result self.old }
    {
        match socket.flush() {
            Ok(()) => Ok(()),
            Err(error) => {
                self.count();
                Err(error)
            }
        }
    }

    /// Puts the message into the output of the socket. What the stream does not take waits there.
    pub(crate) fn put<S: Read + Write + Drop>(
        &mut self,
        socket: &mut Framed<S>,
        message: Message<'_>,
    ) -> Result<(), Error>
        ensures put { OnOk result (Writes S.contents socket.old socket.new (write_step socket.old.conn (message_content message.entry))) }
        ensures failed { IfErr result (λ e. IsRefused (write_step socket.old.conn (message_content message.entry)) e × ¬ (IsIo e)) }
        ensures memory { IfErr result (λ e. e ≡ OutOfMemory → socket.new ≡ socket.old) }
        ensures counted { self.new ≡ after result self.old }
    {
        match socket.write(message) {
            Ok(()) => Ok(()),
            Err(error) => {
                if is_io(&error) {
                    drop(error);
                    Ok(())
                } else {
                    self.count();
                    Err(error)
                }
            }
        }
    }

    /// Reads the socket once. Its stream had counted so often that it was dry, and that its turn was spent.
    pub(crate) fn read<S: Read + Write + CountsWaits + CountsFrames + Drop>(
        &mut self,
        socket: &mut Framed<S>,
        dry: u64,
        spent: u64,
    ) -> Came
        ensures came { (signs : Signs) × Brings S.remaining signs socket.old socket.new result × GivesSigns S.dry S.spent S.over dry spent socket.new signs }
        ensures counted { self.new ≡ after_read result self.old }
    {
        let read = socket.read();
        let signs = signs_since(socket, dry, spent);
        let came = outcome_of(read, signs);
        if matches!(came, Came::Lost | Came::Fails | Came::Breaks(_)) {
            self.count();
        }
        came
    }
}
