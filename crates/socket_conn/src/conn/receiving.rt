// What a connection tells of what came.
ghost use Rattle.std.specs.Prelude.{◌≡◌, IfOk, OnErr, true, false};
ghost use Rattle.session_links.specs.Links.{goes_on};
ghost use Rattle.socket_conn.specs.State.{with_received};
ghost use Rattle.socket_conn.specs.Talks.{Takes};

use super::SocketConn;
use crate::frames::CountsFrames;
use crate::outcomes::Came;
use crate::waits::CountsWaits;
use session_links::{ConnFault, Incoming};
use std::io::{Read, Write};

impl<S: Read + Write + CountsWaits + CountsFrames + Drop> SocketConn<S> {
    /// A message was received.
    fn note_received(&mut self)
        ensures { self.new ≡ with_received self.old }
    {
        self.received = self.received.saturating_add(1);
    }

    /// What the session is told of what came.
    pub(super) fn take(&mut self, what: Came) -> Result<Incoming, ConnFault>
        requires { self.old.is_open ≡ true }
        ensures ok { IfOk result (λ incoming. self.new.is_open ≡ goes_on incoming) }
        ensures err { OnErr result (self.new.is_open ≡ false) }
        ensures takes { Takes what self.old self.new result }
    {
        match what {
            Came::Text(text) => {
                self.note_received();
                self.is_heard = true;
                Ok(Incoming::Text(text))
            }
            Came::Ping => {
                self.note_received();
                Ok(Incoming::Nothing)
            }
            Came::Pong => {
                self.note_received();
                self.is_heard = true;
                Ok(Incoming::Nothing)
            }
            Came::Nothing => {
                self.is_readable = false;
                Ok(Incoming::Nothing)
            }
            // It may be read in the next turn, of which the socket does not tell again.
            Came::Spent => Ok(Incoming::Nothing),
            Came::Closes => {
                self.is_open = false;
                Ok(Incoming::Gone)
            }
            Came::Breaks(code) => {
                self.is_open = false;
                self.breach = Some(code);
                Err(ConnFault)
            }
            Came::Lost | Came::Fails => {
                self.is_open = false;
                Err(ConnFault)
            }
        }
    }
}
