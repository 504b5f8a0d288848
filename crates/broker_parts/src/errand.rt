// Errands of the storing thread: couriers are sent, go on, pause where they were refused, and end.
use crate::clock::{instant, moment};
use crate::courier::{Courier, Opens};
use crate::graves::Graves;
use crate::guarded::Guarded;
use crate::looks::Looks;
use crate::pause::Due;
use crate::queue::{Did, Turn};
use delivery_machine::{Moment, TopicName};
use std::alloc::Global;
use std::rt::Clock;
use std::sync::{Arc, Wait};
use std::time::Instant;

/// What the thread that stores has between its tasks: the couriers that are under way. One is made for as long as the
/// directory is used, since the couriers go with it.
#[derive(Drop)]
pub struct Tasks<X: Drop> {
    couriers: Vec<Courier<X>>,
    pub now: Moment,
    pub time: Option<Instant>,
    pub looks: Looks,
    /// When the first pause of a courier is over, where one pauses.
    due: Option<Due>,
    /// What its last task was: after a store, or a piece of a topic, it has the right to store until it asks for another.
    pub did: Did,
    /// When the topic was begun that is being opened piece by piece.
    pub loading: Option<Instant>,
}

/// The earlier one, where there is one.
fn earlier(one: Option<Due>, other: Option<Due>) -> Option<Due> {
    match (one, other) {
        (Some(one), Some(other)) => Some(one.or(other)),
        (Some(one), None) => Some(one),
        (None, other) => other,
    }
}

impl<X: Guarded + Drop> Tasks<X> {
    /// None are under way.
    pub fn new(alloc: Global) -> Option<Self> {
        Some(Tasks {
            couriers: Vec::new(alloc),
            now: Moment::new(0)?,
            time: None,
            looks: Looks::new(),
            due: None,
            did: Did::Other,
            loading: None,
        })
    }

    /// What the board is to know.
    pub fn turn(&self) -> Turn {
        Turn {
            did: self.did,
            due: earlier(self.due, self.looks.due()),
        }
    }

    pub fn read_clocks<R: Clock>(&mut self, rt: &R) {
        self.now = moment(rt, self.now);
        self.time = instant(rt);
        self.looks.begin(self.time);
    }

    /// Those go on that wait for more of the topic to be stored.
    pub fn call(&mut self, topic: &TopicName) {
        for courier in self.couriers.iter_mut() {
            courier.call(topic);
        }
    }

    /// Those go on whose pause is over.
    pub fn call_due<R: Clock>(&mut self, rt: &R) {
        self.read_clocks(rt);
        let time = self.time;
        for courier in self.couriers.iter_mut() {
            courier.wake(time);
        }
    }

    /// Those that have ended go, and the first pause is that of those that are left.
    fn tidy(&mut self) {
        self.couriers.retain(|courier| !courier.is_over());
        let mut due = None;
        for courier in self.couriers.iter() {
            due = earlier(due, courier.due());
        }
        self.due = due;
    }

    /// The couriers that were called go as far as they can.
    pub fn walk<D: Opens<X>, R: Wait>(&mut self, rt: &R, house: &D) {
        for _ in rt.forever() {
            if !self.step_each(rt, house) {
                return;
            }
        }
    }

    /// One step of each courier that goes. False where none does.
    pub fn step_each<D: Opens<X>, R: Wait>(&mut self, rt: &R, house: &D) -> bool {
        let (now, time) = (self.now, self.time);
        let mut goes = false;
        for courier in self.couriers.iter_mut() {
            if courier.goes() {
                courier.go_on(rt, house, now, time);
                goes = true;
            }
        }
        if !goes {
            self.tidy();
        }
        goes
    }

    /// Sends a courier to each subscription of the topic that wants one. False for want of memory. The topic's lock is held.
    pub fn send(&mut self, alloc: Global, topic: &Arc<X>, graves: &mut Graves) -> bool {
        for _ in 0..graves.count() {
            if !self.send_one(alloc, topic, graves) {
                return false;
            }
        }
        true
    }

    /// A courier is sent to the next subscription that wants one. All that may be refused comes before it counts as sent.
    fn send_one(&mut self, alloc: Global, topic: &Arc<X>, graves: &mut Graves) -> bool {
        let Some(place) = graves.first_open() else {
            return true;
        };
        if self.couriers.reserve(1).is_err() {
            return false;
        }
        let courier = match graves.at(place) {
            Some(grave) => Courier::new(alloc, topic, grave),
            None => return true,
        };
        match courier {
            Some(courier) => {
                self.couriers.push_reserved(courier);
                graves.close(place);
                true
            }
            None => false,
        }
    }
}
