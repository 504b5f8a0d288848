// How a session ends.
ghost use Rattle.std.specs.Prelude.{◌≡◌};
ghost use Rattle.session_core.specs.Steps.{wanting_memory};

use position_core::Fault;
use session_texts::Close;

/// How a session ends.
#[derive(Clone, Copy, Debug, PartialEq, Eq)]
pub enum Stop {
    /// The client has gone, or the connection has failed.
    Gone,
    /// It is closed.
    Closed(Close),
}

impl Stop {
    pub fn wants_memory() -> Stop
        ensures { result ≡ wanting_memory }
    {
        Stop::Closed(Close::refusing(Fault::NoMemory))
    }
}
