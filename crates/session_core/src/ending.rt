// How a session ends: with its last event, and then the close.
ghost use Rattle.std.specs.Prelude.{◌≡◌, false};
ghost use Rattle.session_core.specs.Steps.{CanClose, ClosesBy, SaysLast};

use crate::stop::Stop;
use session_links::{Caller, Conn, ask};
use session_texts::{Party, reason};

/// That the event with which a session ends was called, where it has one. A connection is closed only with this: whoever
/// sees the close finds the session gone.
#[derive(Drop)]
pub(crate) struct Said {
    _said: (),
}

/// Calls the event with which the session ends, where it has one. What it is answered is passed over.
pub(crate) fn say_last<K: Caller>(party: &Party, caller: &mut K) -> Said
    ensures { SaysLast party.now (K.calls caller.old) (K.calls caller.new) }
{
    match party.farewell() {
        Some(event) => drop(ask(caller, event)),
        None => {}
    }
    Said { _said: () }
}

/// Closes the connection, where there is a reason to.
pub(crate) fn close_conn<C: Conn>(conn: &mut C, stop: Stop, said: Said)
    requires { CanClose stop (C.is_open conn.old) }
    ensures closes { ClosesBy stop (C.exchange conn.old) (C.exchange conn.new) }
    ensures fails { C.is_open conn.old ≡ false → C.is_open conn.new ≡ false }
{
    drop(said);
    match stop {
        Stop::Gone => {}
        Stop::Closed(close) => conn.close(close.code, reason(close.fault)),
    }
}
