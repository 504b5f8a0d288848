// How the stream is taken from a connection.
ghost use Rattle.std.specs.Prelude.{◌≡◌, IfErr, IfOk, false, true};
ghost use Rattle.socket_conn.specs.Answering.{IsTurnedAway};

use super::SocketConn;
use crate::answering::Answering;
use crate::held::Held;
use std::io::{Read, Write};

impl<S: Read + Write + Drop> SocketConn<Held<S>> {
    /// The stream itself: what waits for it is dropped, the answer to the request too, where that has not gone.
    pub fn into_stream(self) -> S
        ensures { result ≡ self.socket.stream.inner }
    {
        let SocketConn {
            socket,
            is_open: _,
            is_lost: _,
            is_readable: _,
            is_blocked: _,
            unsent: _,
            received: _,
            breach: _,
            faults: _,
            is_heard: _,
            taken: _,
        } = self;
        socket.into_inner().into_inner()
    }

    /// The connection is refused by a response, where its request was not accepted: what was to go out is dropped, the answer to
    /// the request too, and the response goes out in its place. Where it was let go it stays as it was.
    pub fn refuse(self, response: Vec<u8>) -> Result<Answering<S>, SocketConn<Held<S>>>
        ensures held { IfOk result (λ _. self.socket.stream.is_held ≡ true) }
        ensures refused { IfOk result (λ answering. IsTurnedAway self.socket.stream response.items answering) }
        ensures gone { IfErr result (λ conn. (conn ≡ self) × (self.socket.stream.is_held ≡ false)) }
    {
        if self.socket.get_ref().is_held() {
            Ok(Answering::start(self.into_stream(), response))
        } else {
            drop(response);
            Err(self)
        }
    }
}
