// The end of the handover that connections are put into.
ghost use Rattle.std.specs.Prelude.{◌≤◌};
ghost use Rattle.handover.specs.Passing.{last_of};

use crate::addresses::Visit;
use handover::{Handover, Taker};
use mio::net::TcpStream;
use std::alloc::Global;
use std::sync::Wait;

/// How many accepted connections may wait for workers.
const WAITING: usize = 1_024;

/// After how many connections serving ends.
const MOST: u64 = 2_305_843_009_213_693_952;

/// A connection that was accepted, and counts as its address's where those are counted.
#[derive(Drop)]
pub(crate) struct Newcomer {
    pub(crate) stream: TcpStream,
    pub(crate) visit: Option<Visit>,
}

/// The putting end of the handover. Connections have the numbers from 1 on, in the order in which they came.
#[derive(Drop)]
pub(crate) struct Putter {
    handover: Handover<Newcomer>,
    count: u64,
    ghost rises: { last_of 0 handover ≤ count },
}

impl Putter {
    pub(crate) fn new(alloc: Global) -> Option<Putter> {
        let handover = Handover::open(alloc, WAITING).ok()?;
        Some(Putter { handover, count: 0 })
    }

    pub(crate) fn taker(&mut self) -> Option<Taker<Newcomer>> {
        self.handover.taker().ok()
    }

    /// How many connections were put.
    pub(crate) fn count(&self) -> u64 {
        self.count
    }

    /// Puts the connection behind all others, and waits while too many wait. False where no worker takes them, or where
    /// 2^61 came.
    #[tactic(auto, using(handover::proofs::Moves::last_of_snoc))]
    pub(crate) fn put<R: Wait>(&mut self, rt: &R, newcomer: Newcomer) -> bool {
        if self.count >= MOST {
            return false;
        }
        let number = self.count + 1;
        if self.handover.put(rt, number, newcomer).is_err() {
            return false;
        }
        self.count = number;
        true
    }
}
