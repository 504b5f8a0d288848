// Which consumer holds which message.
ghost use Rattle.std.specs.Prelude.{◌≡◌, false, true, length, [], OnOk, OnErr, IfSome, IfNone};
ghost use Rattle.std.specs.BTreeSet as tree_set;
ghost use Rattle.pending_core.specs.Seats.{seat_cmp, seats_at, IsFirstSeat, IsFirstSeatAt, IsFirstFrom, SeatChanges};

use crate::counts::Counts;
use position_core::{ConsumerNumber, Position};
use std::alloc::{AllocError, Global};
use std::collections::BTreeSet;
use std::marker::Model;

/// A message at a consumer. In order of the consumers, and at each of the positions.
#[derive(Clone, Copy, Debug, PartialEq, Eq, PartialOrd, Ord)]
pub(crate) struct Seat {
    pub(crate) consumer: ConsumerNumber,
    pub(crate) position: Position,
}

/// The messages at their consumers, with their number at each.
#[derive(Drop)]
pub(crate) struct Seats {
    seats: BTreeSet<Seat>,
    counts: Counts,
}

impl Model for Seats {
    ghost use Rattle.std.specs.BTreeSet.{BTreeSet as Keys};
    ghost use Rattle.pending_core.specs.declared.seats.Seat.{Seat as OneSeat};
    ghost use Rattle.std.specs.BTreeSet.{IsOrdered};
    ghost use Rattle.pending_core.specs.Seats.{seat_cmp as in_order, coded_seats, AreCounted};

    ghost Value = { Keys OneSeat };

    ghost coded = { coded_seats };

    ghost view = { λ s. s.seats };

    ghost invariant = { λ s. IsOrdered in_order s.seats × AreCounted s.seats s.counts };
}

impl Seats {
    pub(crate) fn new(alloc: Global) -> Self
        ensures { result.keys ≡ [] }
    {
        Seats {
            seats: BTreeSet::new(alloc),
            counts: Counts::new(alloc),
        }
    }

    /// Takes a seat that is free.
    pub(crate) fn take(&mut self, seat: Seat) -> Result<(), AllocError>
        requires { tree_set.contains seat_cmp self.old seat ≡ false }
        ensures ok { OnOk result (SeatChanges seat true self.old self.new) }
        ensures err { OnErr result (self.new ≡ self.old) }
    {
        let count = self.counts.number(seat.consumer);
        let all = self.seats.len();
        prove!(count <= all);
        self.counts.count_one_more(seat.consumer)?;
        match self.seats.insert(seat) {
            Ok(_) => Ok(()),
            Err(failed) => {
                self.counts.count_one_less(seat.consumer);
                Err(failed.into())
            }
        }
    }

    /// Leaves a seat that is taken.
    pub(crate) fn leave(&mut self, seat: Seat)
        requires { tree_set.contains seat_cmp self.old seat ≡ true }
        ensures { SeatChanges seat false self.old self.new }
    {
        self.seats.remove(&seat);
        self.counts.count_one_less(seat.consumer);
    }

    pub(crate) fn len(&self) -> usize
        ensures len { result ≡ length self.now.keys }
        ensures ordered { tree_set.IsOrdered seat_cmp self.now }
    {
        self.seats.len()
    }

    pub(crate) fn count_at(&self, consumer: ConsumerNumber) -> usize
        ensures number { result ≡ seats_at self.now consumer }
        ensures ordered { tree_set.IsOrdered seat_cmp self.now }
    {
        self.counts.number(consumer)
    }

    /// The same at once where as many consumers before it have messages as `place` says.
    pub(crate) fn count_near(&self, consumer: ConsumerNumber, place: usize) -> usize
        ensures number { result ≡ seats_at self.now consumer }
        ensures ordered { tree_set.IsOrdered seat_cmp self.now }
    {
        self.counts.number_near(consumer, place)
    }

    pub(crate) fn first(&self) -> Option<Seat>
        ensures { IsFirstSeat self.now result }
    {
        match self.seats.first() {
            Some(seat) => Some(*seat),
            None => None,
        }
    }

    pub(crate) fn first_at(&self, consumer: ConsumerNumber) -> Option<Position>
        ensures { IsFirstSeatAt self.now consumer result }
    {
        let position = Position {
            ledger: 0,
            entry: 0,
        };
        match first_from(&self.seats, Seat { consumer, position }) {
            Some(seat) => {
                if seat.consumer == consumer {
                    Some(seat.position)
                } else {
                    None
                }
            }
            None => None,
        }
    }

    pub(crate) fn clear(&mut self)
        ensures { self.new.keys ≡ [] }
    {
        self.seats.clear();
        self.counts.clear();
    }
}

/// The first seat that is taken, from this one on.
fn first_from(seats: &BTreeSet<Seat>, from: Seat) -> Option<Seat>
    ensures { IsFirstFrom seats.now from result }
{
    seats.range(from..).next().copied()
}
