// A turn of a session.
ghost use Rattle.std.specs.Prelude.{◌≡◌, List, OnSome, true, false};
ghost use Rattle.std.specs.Result.{result_err};
ghost use Rattle.session_core.specs.Closing.{SendsLast, ServesOpen};
ghost use Rattle.session_core.specs.Lives.{KeepsLife};
ghost use Rattle.session_core.specs.Runs.{Finds, IsServed, IsSession, Leaves};
ghost use Rattle.session_core.specs.Steps.{CanClose, SaysLast};
ghost use Rattle.session_core.specs.Turns.{Turn};

use crate::ending::{close_conn, say_last};
use crate::session::Session;
use crate::stop::Stop;
use delivery_machine::Moment;
use json::Scratch;
use position_core::Bounded;
use session_links::{Caller, Conn};

/// How many texts a turn takes at most.
pub type TextCount = Bounded<1, 64>;

impl Session {
    /// A turn but for its end.
    fn serve_open<C: Conn, K: Caller>(
        &mut self,
        scratch: &mut Scratch,
        conn: &mut C,
        caller: &mut K,
        now: Moment,
        most: u32,
    ) -> Result<(), Stop>
        requires { C.is_open conn.old ≡ true }
        ensures { (asking : C) × ServesOpen self.old now most (C.exchange conn.old) (K.calls caller.old) (result_err result) self.new (C.exchange conn.new) (K.calls caller.new) (C.is_open conn.new) (C.has_room conn.new) (C.exchange asking) (C.has_room asking) }
    {
        match self.take_texts(scratch, conn, caller, now, most) {
            Ok(()) => {}
            Err(stop) => return Err(stop),
        }
        match self.send_ready(conn) {
            Ok(()) => {}
            Err(stop) => return Err(stop),
        }
        let has_room = conn.has_room();
        match self.ask_own(caller, now, has_room) {
            Ok(true) => self.send_ready(conn),
            Ok(false) => Ok(()),
            Err(stop) => Err(stop),
        }
    }

    /// Sends what is ready before a close, and tells how the session ends: as it should, or as the sending failed.
    fn send_last<C: Conn>(&mut self, conn: &mut C, stop: Stop) -> Stop
        requires { CanClose stop (C.is_open conn.old) }
        ensures { SendsLast self.old stop (C.exchange conn.old) (C.is_open conn.old) (C.has_room conn.old) result self.new (C.exchange conn.new) (C.is_open conn.new) (C.has_room conn.new) }
    {
        match stop {
            Stop::Gone => Stop::Gone,
            Stop::Closed(_) => match self.send_ready(conn) {
                Ok(()) => stop,
                Err(failed) => failed,
            },
        }
    }
}

/// Ends a session that its keeper may not let stay, between two turns: the event with which it ends is called, where it has one.
/// Its connection is not called.
pub fn leave<K: Caller>(session: Session, caller: &mut K)
    ensures { SaysLast session.party (K.calls caller.old) (K.calls caller.new) }
{
    drop(say_last(&session.party, caller));
    drop(session);
}

/// Serves a session for one turn that takes up to so many texts: what came is handled, until nothing comes, 1,000
/// texts are not answered, or the session ends; then the session asks and sends all that a turn does, once.
///
/// None where the session has ended. The connection is closed then, or is gone, and is not called again. Before a close
/// what is ready is sent, as long as the connection has room, and the last event is said: whoever sees the close may come
/// again at once under the same name. A consumer's session whose connection has no room, or that has something left to be
/// sent, has nothing dispatched to it and collects nothing.
///
/// Where all that the connection and the caller told so far is the life of the session at its endpoint, it is so afterwards,
/// up to its end: with `open`, this says of a session's whole life what was received and sent, what was asked, and how it
/// ended (`specs/Lives.antt`).
///
/// The scratch is what texts are read in: whoever serves sessions keeps one and lends it to each turn.
pub fn serve<C: Conn, K: Caller>(
    session: Session,
    scratch: &mut Scratch,
    conn: &mut C,
    caller: &mut K,
    now: Moment,
    most: TextCount,
) -> Option<Session>
    requires { C.is_open conn.old ≡ true }
    ensures stays { OnSome result (C.is_open conn.new ≡ true) }
    ensures run { (before : List Turn) → IsSession session before → (served : IsServed session now most before (C.exchange conn.old) (K.calls caller.old) result (C.exchange conn.new) (K.calls caller.new) (C.is_open conn.new) (C.has_room conn.new)) × (asking : C) × Finds served.turn (C.exchange conn.old) (C.exchange asking) (C.has_room asking) × (last : C) × Leaves served.turn (C.exchange conn.old) (C.exchange last) (C.is_open last) (C.has_room last) }
    ensures lives { KeepsLife session (C.exchange conn.old) (K.calls caller.old) result (C.exchange conn.new) (K.calls caller.new) }
{
    let mut session = session;
    match session.serve_open(scratch, conn, caller, now, most.get()) {
        Ok(()) => {
            session.rest(now, conn.has_room());
            Some(session)
        }
        Err(stop) => {
            let last = session.send_last(conn, stop);
            let said = say_last(&session.party, caller);
            close_conn(conn, last, said);
            drop(session);
            None
        }
    }
}

/// Serves a session for one turn that takes one text.
pub fn turn<C: Conn, K: Caller>(
    session: Session,
    scratch: &mut Scratch,
    conn: &mut C,
    caller: &mut K,
    now: Moment,
) -> Option<Session>
    requires { C.is_open conn.old ≡ true }
    ensures stays { OnSome result (C.is_open conn.new ≡ true) }
    ensures run { (before : List Turn) → IsSession session before → (served : IsServed session now 1 before (C.exchange conn.old) (K.calls caller.old) result (C.exchange conn.new) (K.calls caller.new) (C.is_open conn.new) (C.has_room conn.new)) × (asking : C) × Finds served.turn (C.exchange conn.old) (C.exchange asking) (C.has_room asking) × (last : C) × Leaves served.turn (C.exchange conn.old) (C.exchange last) (C.is_open last) (C.has_room last) }
    ensures lives { KeepsLife session (C.exchange conn.old) (K.calls caller.old) result (C.exchange conn.new) (K.calls caller.new) }
{
    match TextCount::new(1) {
        Some(one) => serve(session, scratch, conn, caller, now, one),
        None => unreachable!(),
    }
}
