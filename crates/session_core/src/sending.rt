// Sending what is ready.
ghost use Rattle.std.specs.Prelude.{◌≡◌, drop, true, false};
ghost use Rattle.std.specs.Result.{result_err};
ghost use Rattle.session_core.specs.Held.{can_send, has_copies, is_ready};
ghost use Rattle.session_core.specs.Steps.{SendsOne, SendsReady};

use crate::session::Session;
use crate::stop::Stop;
use session_links::Conn;
use session_texts::{Answer, write_delivery};
use std::collections::VecDeque;

fn drop_first(waiting: &mut VecDeque<Answer>)
    ensures { waiting.new.items ≡ drop 1 waiting.old.items }
{
    let _ = waiting.pop_front();
}

impl Session {
    /// Whether there is a message that was collected and not sent.
    pub(crate) fn has_copies(&self) -> bool
        ensures { result ≡ has_copies self.now }
    {
        self.copies_sent < self.copies.as_slice().len()
    }

    /// Whether the first answer that waits may be sent.
    fn is_ready(&self) -> bool
        ensures { result ≡ is_ready self.now }
    {
        match self.waiting.front() {
            Some(answer) => answer.least_durable() <= self.durable,
            None => false,
        }
    }

    fn can_send(&self) -> bool
        ensures { result ≡ can_send self.now }
    {
        self.has_copies() || self.is_ready()
    }

    /// Sends the next message that was collected.
    fn send_copy<C: Conn>(&mut self, conn: &mut C) -> Result<(), Stop>
        requires some { has_copies self.old ≡ true }
        requires open { C.is_open conn.old ≡ true }
        requires room { C.has_room conn.old ≡ true }
        ensures { SendsOne self.old (C.exchange conn.old) (C.has_room conn.old) (result_err result) self.new (C.exchange conn.new) (C.is_open conn.new) (C.has_room conn.new) }
    {
        let delivery = &self.copies.as_slice()[self.copies_sent];
        match write_delivery(&mut self.text, delivery) {
            Ok(()) => {}
            Err(_) => return Err(Stop::wants_memory()),
        }
        match conn.send(self.text.as_str()) {
            Ok(()) => {
                self.copies_sent += 1;
                Ok(())
            }
            Err(_) => Err(Stop::Gone),
        }
    }

    /// Sends the first answer that waits.
    fn send_answer<C: Conn>(&mut self, conn: &mut C) -> Result<(), Stop>
        requires none { has_copies self.old ≡ false }
        requires ready { is_ready self.old ≡ true }
        requires open { C.is_open conn.old ≡ true }
        requires room { C.has_room conn.old ≡ true }
        ensures { SendsOne self.old (C.exchange conn.old) (C.has_room conn.old) (result_err result) self.new (C.exchange conn.new) (C.is_open conn.new) (C.has_room conn.new) }
    {
        match self.waiting.front() {
            Some(answer) => match answer.write(&mut self.text) {
                Ok(()) => {}
                Err(_) => return Err(Stop::wants_memory()),
            },
            None => unreachable!(),
        }
        match conn.send(self.text.as_str()) {
            Ok(()) => {
                drop_first(&mut self.waiting);
                Ok(())
            }
            Err(_) => Err(Stop::Gone),
        }
    }

    fn send_next<C: Conn>(&mut self, conn: &mut C) -> Result<(), Stop>
        requires some { can_send self.old ≡ true }
        requires open { C.is_open conn.old ≡ true }
        requires room { C.has_room conn.old ≡ true }
        ensures { SendsOne self.old (C.exchange conn.old) (C.has_room conn.old) (result_err result) self.new (C.exchange conn.new) (C.is_open conn.new) (C.has_room conn.new) }
    {
        if self.has_copies() {
            self.send_copy(conn)
        } else {
            self.send_answer(conn)
        }
    }

    /// Sends what is ready, as long as the connection has room.
    pub(crate) fn send_ready<C: Conn>(&mut self, conn: &mut C) -> Result<(), Stop>
        requires { C.is_open conn.old ≡ true }
        ensures { SendsReady self.old (C.exchange conn.old) (result_err result) self.new (C.exchange conn.new) (C.is_open conn.new) (C.has_room conn.new) }
    {
        'texts: while self.can_send() && conn.has_room() {
            match self.send_next(conn) {
                Ok(()) => {}
                Err(stop) => return Err(stop),
            }
        }
        Ok(())
    }
}
