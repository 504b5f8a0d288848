// A connection over lists, for tests and trials.
ghost use Rattle.std.specs.Prelude.{◌≡◌, IfOk, IfSome, Some, None, option_map, string_bytes, true};
ghost use Rattle.session_links.specs.Links.{Tells, receipt_of, with_close, with_receipt, with_sent};
ghost use Rattle.std.specs.Option.{option_copied};
ghost use Rattle.session_links.specs.Lists.{exchange_of, nothing_yet};

use crate::conn::{Conn, ConnFault, Incoming};
use std::alloc::{AllocError, Global};
use std::collections::VecDeque;

/// How a connection was closed.
#[derive(Debug, Drop)]
pub struct Closed {
    pub code: u16,
    pub reason: String,
}

/// What was received, sent and closed.
#[derive(Drop)]
pub struct Told {
    pub received: Vec<Incoming>,
    pub sent: Vec<String>,
    pub closes: Vec<Closed>,
}

fn copy_of(alloc: Global, incoming: &Incoming) -> Result<Incoming, AllocError>
    ensures { IfOk result (λ copy. receipt_of copy ≡ receipt_of incoming.now) }
{
    match incoming {
        Incoming::Nothing => Ok(Incoming::Nothing),
        Incoming::Text(text) => Ok(Incoming::Text(Vec::from_slice(alloc, text.as_slice())?)),
        Incoming::Gone => Ok(Incoming::Gone),
    }
}

impl Told {
    fn new(alloc: Global) -> Told
        ensures { exchange_of result ≡ nothing_yet }
    {
        Told {
            received: Vec::new(alloc),
            sent: Vec::new(alloc),
            closes: Vec::new(alloc),
        }
    }

    fn and_came(self, incoming: Incoming) -> Option<Told>
        ensures { IfSome result (λ told. exchange_of told ≡ with_receipt (receipt_of incoming) (exchange_of self)) }
    {
        let mut told = self;
        match told.received.push(incoming) {
            Ok(()) => Some(told),
            Err(refused) => {
                drop(refused);
                drop(told);
                None
            }
        }
    }

    fn and_received(self, alloc: Global, incoming: &Incoming) -> Option<Told>
        ensures { IfSome result (λ told. exchange_of told ≡ with_receipt (receipt_of incoming.now) (exchange_of self)) }
    {
        match copy_of(alloc, incoming) {
            Ok(copy) => self.and_came(copy),
            Err(_) => {
                drop(self);
                None
            }
        }
    }

    fn and_text(self, text: String) -> Option<Told>
        ensures { IfSome result (λ told. exchange_of told ≡ with_sent (string_bytes text) (exchange_of self)) }
    {
        let mut told = self;
        match told.sent.push(text) {
            Ok(()) => Some(told),
            Err(refused) => {
                drop(refused);
                drop(told);
                None
            }
        }
    }

    fn and_sent(self, alloc: Global, text: &str) -> Option<Told>
        ensures { IfSome result (λ told. exchange_of told ≡ with_sent text.now (exchange_of self)) }
    {
        match String::from_str(alloc, text) {
            Ok(copy) => self.and_text(copy),
            Err(_) => {
                drop(self);
                None
            }
        }
    }

    fn and_end(self, closed: Closed) -> Option<Told>
        ensures { IfSome result (λ told. exchange_of told ≡ with_close closed.code (string_bytes closed.reason) (exchange_of self)) }
    {
        let mut told = self;
        match told.closes.push(closed) {
            Ok(()) => Some(told),
            Err(refused) => {
                drop(refused);
                drop(told);
                None
            }
        }
    }

    fn and_closed(self, alloc: Global, code: u16, reason: &str) -> Option<Told>
        ensures { IfSome result (λ told. exchange_of told ≡ with_close code reason.now (exchange_of self)) }
    {
        match String::from_str(alloc, reason) {
            Ok(reason) => self.and_end(Closed { code, reason }),
            Err(_) => {
                drop(self);
                None
            }
        }
    }
}

fn tell_received(told: Option<Told>, alloc: Global, incoming: &Incoming) -> Option<Told>
    ensures { Tells (with_receipt (receipt_of incoming.now)) (option_map exchange_of told) (option_map exchange_of result) }
{
    match told {
        Some(told) => told.and_received(alloc, incoming),
        None => None,
    }
}

fn tell_sent(told: Option<Told>, alloc: Global, text: &str) -> Option<Told>
    ensures { Tells (with_sent text.now) (option_map exchange_of told) (option_map exchange_of result) }
{
    match told {
        Some(told) => told.and_sent(alloc, text),
        None => None,
    }
}

fn tell_closed(told: Option<Told>, alloc: Global, code: u16, reason: &str) -> Option<Told>
    ensures { Tells (with_close code reason.now) (option_map exchange_of told) (option_map exchange_of result) }
{
    match told {
        Some(told) => told.and_closed(alloc, code, reason),
        None => None,
    }
}

/// A connection whose texts come from a list. It tells what was received, sent and closed, as long as there is memory
/// for that.
pub struct ListConn {
    /// What comes; nothing comes after it.
    pub incoming: VecDeque<Incoming>,
    /// How many texts it takes before it has no room.
    pub room: u64,
    /// How many calls succeed before it fails.
    pub calls: u64,
    alloc: Global,
    told: Option<Told>,
    is_open: bool,
}

impl Drop for ListConn {
    fn drop(self) {
        let ListConn {
            incoming: _,
            room: _,
            calls: _,
            alloc: _,
            told: _,
            is_open: _,
        } = self;
    }
}

impl ListConn {
    /// A connection on which nothing comes yet, and which takes all texts.
    pub fn new(alloc: Global) -> Self
        ensures open { result.is_open ≡ true }
        ensures told { option_map exchange_of result.told ≡ Some nothing_yet }
    {
        ListConn {
            incoming: VecDeque::new(alloc),
            room: u64::MAX,
            calls: u64::MAX,
            alloc,
            told: Some(Told::new(alloc)),
            is_open: true,
        }
    }

    /// One that tells nothing, and takes no memory for that.
    pub fn silent(alloc: Global) -> Self
        ensures open { result.is_open ≡ true }
        ensures told { result.told ≡ None }
    {
        let mut conn = ListConn::new(alloc);
        conn.told = None;
        conn
    }

    /// What was received, sent and closed, where there was memory for all of it.
    pub fn told(&self) -> Option<&Told>
        ensures { option_copied result ≡ self.now.told }
    {
        self.told.as_ref()
    }

    pub fn is_open(&self) -> bool
        ensures { result ≡ self.now.is_open }
    {
        self.is_open
    }

    /// Whether this call fails.
    fn fails(&mut self) -> bool
        ensures is_open { self.new.is_open ≡ self.old.is_open }
        ensures told { self.new.told ≡ self.old.told }
    {
        if self.calls == 0 {
            return true;
        }
        self.calls -= 1;
        false
    }
}

impl Conn for ListConn {
    ghost use Rattle.std.specs.Prelude.{nat_lt, option_map};
    ghost use Rattle.session_links.specs.Lists.{exchange_of};

    ghost exchange = { λ c. option_map exchange_of c.told };

    ghost is_open = { λ c. c.is_open };

    ghost has_room = { λ c. nat_lt 0 c.room };

    fn receive(&mut self) -> Result<Incoming, ConnFault> {
        if self.fails() {
            self.is_open = false;
            return Err(ConnFault);
        }
        let incoming = match self.incoming.pop_front() {
            Some(incoming) => incoming,
            None => Incoming::Nothing,
        };
        self.told = tell_received(self.told.take(), self.alloc, &incoming);
        self.is_open = !matches!(incoming, Incoming::Gone);
        Ok(incoming)
    }

    fn has_room(&self) -> bool {
        self.room > 0
    }

    fn send(&mut self, text: &str) -> Result<(), ConnFault> {
        if self.fails() {
            self.is_open = false;
            return Err(ConnFault);
        }
        self.told = tell_sent(self.told.take(), self.alloc, text);
        self.room = self.room.saturating_sub(1);
        Ok(())
    }

    fn close(&mut self, code: u16, reason: &str) {
        self.is_open = false;
        self.told = tell_closed(self.told.take(), self.alloc, code, reason);
    }
}
