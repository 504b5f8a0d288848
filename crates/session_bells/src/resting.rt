// Sessions that have nothing to do, and what wakes them.
ghost use Rattle.std.specs.Prelude.{◌≡◌, ◌≤◌, IfSome, false};

use crate::bell::Bell;
use crate::bells::Bells;
use std::sync::Wait;

/// What a session waits for at its topic.
#[derive(Clone, Copy, Debug, PartialEq, Eq)]
pub struct Rest {
    /// The log is to be stored up to this length.
    pub durable: Option<u64>,
    /// Messages may be sent to its consumer.
    pub messages: bool,
}

impl<B: Bell + Drop> Bells<B> {
    /// The session at the seat has nothing to do until what it waits for has come, and leaves its bell. False where it
    /// has come already: it is to be served again, and is not rung.
    pub fn rest<R: Wait>(&mut self, rt: &R, seat: u64, rest: Rest) -> bool
        ensures { IfSome rest.durable (λ length. length ≤ self.old.durable → result ≡ false) }
    {
        let place = seat.saturating_sub(1) as usize;
        if let Some(length) = rest.durable {
            if length <= self.durable {
                return false;
            }
            self.wait_for_store(place, length);
        }
        match self.own_line(place) {
            Some(line) => self.rest_in_line(rt, line, place, rest.messages),
            None => true,
        }
    }

    fn wait_for_store(&mut self, place: usize, length: u64) {
        if self.waits_anew(place, length) {
            let _ = self.writers.push_back(place);
        }
    }

    /// The one there waits for this length to be stored. Whether it waited for none before.
    fn waits_anew(&mut self, place: usize, length: u64) -> bool {
        match self.resident_mut(place) {
            Some(resident) => resident.wait_for(length),
            None => false,
        }
    }

    fn is_fresh(&self, line: usize) -> bool {
        match self.lines.get(line) {
            Some(Some(line)) => line.is_fresh,
            _ => false,
        }
    }

    /// A consumer that cannot be sent more lets another look in its place.
    fn rest_in_line<R: Wait>(
        &mut self,
        rt: &R,
        line: usize,
        place: usize,
        takes_more: bool,
    ) -> bool {
        let is_fresh = self.is_fresh(line);
        if !takes_more {
            if is_fresh {
                self.ring_one(rt, line);
            }
            return true;
        }
        if is_fresh {
            return false;
        }
        self.wait_in_line(line, place);
        true
    }

    fn wait_in_line(&mut self, line: usize, place: usize) {
        if self.lists(place) {
            self.add_to_line(line, place);
        }
    }

    /// The one there is in its line. Whether it was not before.
    fn lists(&mut self, place: usize) -> bool {
        match self.resident_mut(place) {
            Some(resident) => resident.list(),
            None => false,
        }
    }

    fn add_to_line(&mut self, line: usize, place: usize) {
        if let Some(line) = self.line_mut(line) {
            line.add(place);
        }
    }

    /// So many messages are stored: those are rung whose answers are ready, and one consumer of each subscription.
    pub fn stored<R: Wait>(&mut self, rt: &R, durable: u64) {
        if durable <= self.durable {
            return;
        }
        self.durable = durable;
        self.ring_writers(rt);
        for line in 0..self.lines.len() {
            self.freshen(rt, line);
        }
    }

    fn ring_writers<R: Wait>(&mut self, rt: &R) {
        for _ in 0..self.writers.len() {
            let Some(place) = self.writers.pop_front() else {
                return;
            };
            if self.is_stored_for(place) {
                self.ring(rt, place);
            } else {
                let _ = self.writers.push_back(place);
            }
        }
    }

    /// Whether what the one there waits for is stored; it waits no more then.
    fn is_stored_for(&mut self, place: usize) -> bool {
        let durable = self.durable;
        match self.resident_mut(place) {
            Some(resident) => resident.is_stored_for(durable),
            None => true,
        }
    }

    /// The session at the seat is rung, where one is there.
    pub fn wake<R: Wait>(&self, rt: &R, seat: u64) {
        if seat > 0 {
            self.ring(rt, seat.saturating_sub(1) as usize);
        }
    }

    /// All are rung.
    pub fn ring_all<R: Wait>(&self, rt: &R) {
        for place in 0..self.residents.len() {
            self.ring(rt, place);
        }
    }
}
