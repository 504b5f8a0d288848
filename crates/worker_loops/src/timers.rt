// When connections are to be looked at again, since messages of theirs fall due: one moment for each at most.
use std::alloc::Global;

/// A connection that is to be looked at from a moment on, by the steady clock, in milliseconds.
#[derive(Clone, Copy, Debug, PartialEq, Eq)]
struct Timer {
    millis: u64,
    token: usize,
}

/// The place of a connection that has no timer.
const NOWHERE: usize = usize::MAX;

/// How deep a heap may be.
const DEPTH: u32 = 64;

/// The timers of a worker: a heap, the earliest first, and the place of each connection's timer in it. So one is changed or
/// removed where it is, and there are never more timers than connections.
#[derive(Drop)]
pub(crate) struct Timers {
    heap: Vec<Timer>,
    places: Vec<usize>,
}

impl Timers {
    pub(crate) fn new(alloc: Global) -> Timers {
        Timers {
            heap: Vec::new(alloc),
            places: Vec::new(alloc),
        }
    }

    /// Room for the connection at the token, so that its timer takes no memory. False for want of it.
    pub(crate) fn make_room(&mut self, token: usize) -> bool {
        let wanted = token.saturating_add(1);
        let more = wanted.saturating_sub(self.places.len());
        if self.places.reserve(more).is_err() {
            return false;
        }
        for _ in 0..more {
            let _ = self.places.push(NOWHERE);
        }
        self.heap
            .reserve(wanted.saturating_sub(self.heap.len()))
            .is_ok()
    }

    fn place_of(&self, token: usize) -> Option<usize> {
        match self.places.get(token) {
            Some(place) if *place != NOWHERE => Some(*place),
            _ => None,
        }
    }

    fn note_place(&mut self, token: usize, place: usize) {
        if let Some(own) = self.places.get_mut(token) {
            *own = place;
        }
    }

    fn millis_at(&self, place: usize) -> u64 {
        match self.heap.get(place) {
            Some(timer) => timer.millis,
            None => u64::MAX,
        }
    }

    /// The timer stands at the place from now on.
    fn put(&mut self, place: usize, timer: Timer) {
        if let Some(own) = self.heap.get_mut(place) {
            *own = timer;
            self.note_place(timer.token, place);
        }
    }

    fn swap(&mut self, one: usize, other: usize) {
        if let (Some(first), Some(second)) = (self.heap.get(one), self.heap.get(other)) {
            let (first, second) = (*first, *second);
            self.put(one, second);
            self.put(other, first);
        }
    }

    /// The timer at the place goes up as far as it is earlier than those above it.
    fn rise(&mut self, place: usize) {
        let mut place = place;
        for _ in 0..DEPTH {
            if place == 0 {
                return;
            }
            let above = (place - 1) / 2;
            if self.millis_at(above) <= self.millis_at(place) {
                return;
            }
            self.swap(above, place);
            place = above;
        }
    }

    /// The earlier one of the two below the place.
    fn below(&self, place: usize) -> usize {
        let left = place.saturating_mul(2).saturating_add(1);
        let right = left.saturating_add(1);
        if self.millis_at(right) < self.millis_at(left) {
            right
        } else {
            left
        }
    }

    /// The timer at the place goes down as far as it is later than those below it.
    fn sink(&mut self, place: usize) {
        let mut place = place;
        for _ in 0..DEPTH {
            let below = self.below(place);
            if self.millis_at(below) >= self.millis_at(place) {
                return;
            }
            self.swap(place, below);
            place = below;
        }
    }

    /// The connection at the token is looked at from the moment on, and from no other.
    pub(crate) fn set(&mut self, token: usize, millis: u64) {
        let timer = Timer { millis, token };
        let place = match self.place_of(token) {
            Some(place) => {
                self.put(place, timer);
                place
            }
            None => self.add(timer),
        };
        self.rise(place);
        self.sink(place);
    }

    /// Behind all others. There is room.
    fn add(&mut self, timer: Timer) -> usize {
        let place = self.heap.len();
        if self.heap.push(timer).is_ok() {
            self.note_place(timer.token, place);
        }
        place
    }

    /// The connection at the token waits for no moment.
    pub(crate) fn remove(&mut self, token: usize) {
        let Some(place) = self.place_of(token) else {
            return;
        };
        self.note_place(token, NOWHERE);
        let Some(last) = self.heap.pop() else {
            return;
        };
        if last.token != token {
            self.put(place, last);
            self.rise(place);
            self.sink(place);
        }
    }

    /// How many milliseconds it is to the earliest one.
    pub(crate) fn wait(&self, now: u64) -> Option<u64> {
        match self.heap.first() {
            Some(timer) => Some(timer.millis.saturating_sub(now)),
            None => None,
        }
    }

    /// The connection of one whose moment has come; it has no timer any more.
    pub(crate) fn next(&mut self, now: u64) -> Option<usize> {
        let token = match self.heap.first() {
            Some(timer) if timer.millis <= now => timer.token,
            _ => return None,
        };
        self.remove(token);
        Some(token)
    }
}
