// The last sequence numbers of the producers at a topic, by seat.
ghost use Rattle.std.specs.Prelude.{◌≡◌, ◌<◌, [], IfErr, OnOk, set, vec_len, ℕ};
ghost use Rattle.broker_parts.specs.Bulks.{is_repeated, last_at};

use delivery_machine::Fault;
use std::alloc::Global;

/// By the number of the seat: the last sequence number under the name of the producer there.
#[derive(Drop)]
pub struct Lasts {
    seats: Vec<Option<i64>>,
}

impl Lasts {
    pub(crate) fn new(alloc: Global) -> Self
        ensures { result.seats.items ≡ [] }
    {
        Lasts {
            seats: Vec::new(alloc),
        }
    }

    fn at(&self, seat: u64) -> Option<i64>
        ensures { result ≡ last_at self.now.seats.items seat }
    {
        match self.seats.get(seat as usize) {
            Some(last) => *last,
            None => None,
        }
    }

    /// Whether the number is not above the last one at the seat.
    pub(crate) fn is_repeated(&self, seat: u64, sequence: i64) -> bool
        ensures { result ≡ is_repeated (last_at self.now.seats.items seat) sequence }
    {
        match self.at(seat) {
            Some(last) => sequence <= last,
            None => false,
        }
    }

    /// Room for the one at the seat.
    pub(crate) fn prepare(&mut self, seat: u64) -> Result<(), Fault>
        ensures room { OnOk result (seat < vec_len self.new.seats) }
        ensures same { (other : ℕ) → last_at self.new.seats.items other ≡ last_at self.old.seats.items other }
        ensures fault { IfErr result (λ fault. fault ≡ Fault.NoMemory) }
    {
        'each: while self.seats.len() as u64 <= seat {
            if self.seats.push(None).is_err() {
                return Err(Fault::NoMemory);
            }
        }
        Ok(())
    }

    /// There is room for the one at the seat.
    pub(crate) fn set(&mut self, seat: u64, last: Option<i64>)
        ensures { self.new.seats.items ≡ set self.old.seats.items seat last }
    {
        if let Some(place) = self.seats.get_mut(seat as usize) {
            *place = last;
        }
    }
}
