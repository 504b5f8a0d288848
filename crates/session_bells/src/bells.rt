// The bells of a topic's sessions, and whom an event rings.
use crate::asked::Asked;
use crate::bell::Bell;
use crate::line::Line;
use crate::resident::Resident;
use delivery_machine::{ConsumerNumber, Fault, Reply, SubscriptionName};
use std::alloc::{AllocError, Global};
use std::collections::VecDeque;
use std::sync::{Arc, Wait};

/// The bells of a topic's sessions, by their seats. They are kept under the lock of the topic.
pub struct Bells<B: Drop> {
    alloc: Global,
    pub(crate) durable: u64,
    pub(crate) residents: Vec<Option<Resident<B>>>,
    /// The places of those who wait for more to be stored.
    pub(crate) writers: VecDeque<usize>,
    pub(crate) lines: Vec<Option<Line>>,
    /// The consumers with their seats' places, in the order of their numbers.
    consumers: Vec<(ConsumerNumber, usize)>,
}

impl<B: Drop> Drop for Bells<B> {
    fn drop(self) {
        let Bells {
            alloc: _,
            durable: _,
            residents: _,
            writers: _,
            lines: _,
            consumers: _,
        } = self;
    }
}

fn place_of(seat: u64) -> usize {
    seat.saturating_sub(1) as usize
}

impl<B: Bell + Drop> Bells<B> {
    /// Of a topic of which so many messages are stored.
    pub fn new(alloc: Global, durable: u64) -> Self {
        Bells {
            alloc,
            durable,
            residents: Vec::new(alloc),
            writers: VecDeque::new(alloc),
            lines: Vec::new(alloc),
            consumers: Vec::new(alloc),
        }
    }

    /// How many messages are stored.
    pub fn durable(&self) -> u64 {
        self.durable
    }

    fn make_place(&mut self, place: usize) -> Result<(), AllocError> {
        for _ in self.residents.len()..place.saturating_add(1) {
            self.residents.push(None)?;
        }
        Ok(())
    }

    fn has_place(&mut self, place: usize) -> bool {
        self.make_place(place).is_ok() && self.writers.reserve(self.residents.len()).is_ok()
    }

    fn set_resident(&mut self, place: usize, resident: Option<Resident<B>>) {
        if let Some(seat) = self.residents.get_mut(place) {
            *seat = resident;
        }
    }

    /// A session sits at the seat, and has this bell. Only want of memory is a refusal (F1).
    pub fn enter(&mut self, seat: u64, bell: Arc<B>) -> Result<(), Fault> {
        let place = place_of(seat);
        if self.has_place(place) {
            self.set_resident(place, Some(Resident::new(bell)));
            Ok(())
        } else {
            Err(Fault::NoMemory)
        }
    }

    /// The session at the seat goes. Another consumer is rung in its place.
    pub fn exit<R: Wait>(&mut self, rt: &R, seat: u64) {
        let place = place_of(seat);
        let line = self.own_line(place);
        self.writers.retain(|other| *other != place);
        self.set_resident(place, None);
        if let Some(line) = line {
            self.leave_line(rt, line, place);
        }
    }

    fn leave_line<R: Wait>(&mut self, rt: &R, line: usize, place: usize) {
        self.consumers.retain(|(_, other)| *other != place);
        if self.leaves_empty(line, place) {
            self.set_line(line, None);
        } else {
            self.freshen(rt, line);
        }
    }

    /// Takes the member out of the line. Whether nobody is left in it.
    fn leaves_empty(&mut self, line: usize, place: usize) -> bool {
        match self.line_mut(line) {
            Some(line) => line.leave(place),
            None => false,
        }
    }

    fn set_line(&mut self, at: usize, line: Option<Line>) {
        if let Some(place) = self.lines.get_mut(at) {
            *place = line;
        }
    }

    pub(crate) fn resident_mut(&mut self, place: usize) -> Option<&mut Resident<B>> {
        match self.residents.get_mut(place) {
            Some(Some(resident)) => Some(resident),
            _ => None,
        }
    }

    pub(crate) fn line_mut(&mut self, line: usize) -> Option<&mut Line> {
        match self.lines.get_mut(line) {
            Some(Some(line)) => Some(line),
            _ => None,
        }
    }

    fn line_of(&self, name: &SubscriptionName) -> Option<usize> {
        self.lines.iter().position(|line| match line {
            Some(line) => line.name.is(name),
            None => false,
        })
    }

    /// The place of the subscription's line, which is made where it is not there.
    fn line_for(&mut self, name: &SubscriptionName) -> Result<usize, Fault> {
        match self.line_of(name) {
            Some(line) => Ok(line),
            None => self.make_line(name),
        }
    }

    fn make_line(&mut self, name: &SubscriptionName) -> Result<usize, Fault> {
        match name.clone() {
            Ok(name) => self.add_line(Line::new(self.alloc, name)),
            Err(_) => Err(Fault::NoMemory),
        }
    }

    fn add_line(&mut self, line: Line) -> Result<usize, Fault> {
        match self.free_line() {
            Some(free) => {
                self.set_line(free, Some(line));
                Ok(free)
            }
            None => self.push_line(line),
        }
    }

    fn free_line(&self) -> Option<usize> {
        self.lines.iter().position(|line| line.is_none())
    }

    fn push_line(&mut self, line: Line) -> Result<usize, Fault> {
        let place = self.lines.len();
        match self.lines.push(Some(line)) {
            Ok(()) => Ok(place),
            Err(_) => Err(Fault::NoMemory),
        }
    }

    /// The room that the event may need. Only want of memory is a refusal (F1).
    pub fn prepare(&mut self, asked: &Asked) -> Result<(), Fault> {
        match asked {
            Asked::Joins(name) => self.prepare_join(name),
            _ => Ok(()),
        }
    }

    fn prepare_join(&mut self, name: &SubscriptionName) -> Result<(), Fault> {
        let line = self.line_for(name)?;
        if self.makes_room(line) && self.consumers.reserve(1).is_ok() {
            Ok(())
        } else {
            Err(Fault::NoMemory)
        }
    }

    fn makes_room(&mut self, line: usize) -> bool {
        match self.line_mut(line) {
            Some(line) => line.make_room().is_ok(),
            None => false,
        }
    }

    /// The session at the seat asked that, and was answered so: those are rung to whom it leads.
    pub fn answered<R: Wait>(&mut self, rt: &R, seat: u64, asked: &Asked, reply: &Reply) {
        let place = place_of(seat);
        match asked {
            Asked::Joins(name) => self.joined(place, name, reply),
            Asked::Leaves(_) => self.left(rt, place),
            Asked::Dispatches => self.dispatched(rt, place, reply),
            Asked::Frees => self.note_own(place),
            Asked::FreesIn(name) => {
                if let Some(line) = self.line_of(name) {
                    self.freshen(rt, line);
                }
            }
            Asked::Nothing => {}
        }
    }

    fn joined(&mut self, place: usize, name: &SubscriptionName, reply: &Reply) {
        if let Some(line) = self.line_of(name) {
            match reply {
                Reply::Subscribed { consumer } => self.join_line(line, place, *consumer),
                _ => self.drop_if_empty(line),
            }
        }
    }

    fn join_line(&mut self, line: usize, place: usize, consumer: ConsumerNumber) {
        if let Some(line) = self.line_mut(line) {
            line.join();
        }
        let _ = self.consumers.push((consumer, place));
        if let Some(resident) = self.resident_mut(place) {
            resident.join(consumer, line);
        }
    }

    fn drop_if_empty(&mut self, line: usize) {
        if self.is_empty(line) {
            self.set_line(line, None);
        }
    }

    fn is_empty(&self, line: usize) -> bool {
        match self.lines.get(line) {
            Some(Some(line)) => line.members == 0,
            _ => false,
        }
    }

    fn left<R: Wait>(&mut self, rt: &R, place: usize) {
        if let Some(line) = self.forget_consumer(place) {
            self.leave_line(rt, line, place);
        }
    }

    /// The one there is no consumer any more. The line that it was in.
    fn forget_consumer(&mut self, place: usize) -> Option<usize> {
        match self.resident_mut(place) {
            Some(resident) => resident.leave(),
            None => None,
        }
    }

    pub(crate) fn own_line(&self, place: usize) -> Option<usize> {
        match self.residents.get(place) {
            Some(Some(resident)) => resident.line,
            _ => None,
        }
    }

    /// The subscription of the consumer at the seat.
    pub fn subscription(&self, seat: u64) -> Option<&SubscriptionName> {
        let line = self.own_line(place_of(seat))?;
        match self.lines.get(line) {
            Some(Some(line)) => Some(&line.name),
            _ => None,
        }
    }

    fn set_fresh(&mut self, line: usize, is_fresh: bool) {
        if let Some(line) = self.line_mut(line) {
            line.is_fresh = is_fresh;
        }
    }

    fn note_own(&mut self, place: usize) {
        if let Some(line) = self.own_line(place) {
            self.set_fresh(line, true);
        }
    }

    fn dispatched<R: Wait>(&mut self, rt: &R, place: usize, reply: &Reply) {
        if let Some(line) = self.own_line(place) {
            match reply {
                Reply::Sent { consumer, .. } => {
                    self.set_fresh(line, true);
                    self.ring_consumer(rt, place, *consumer);
                }
                _ => self.set_fresh(line, false),
            }
        }
    }

    /// Rings another consumer that was sent something.
    fn ring_consumer<R: Wait>(&self, rt: &R, own: usize, consumer: ConsumerNumber) {
        let found = self
            .consumers
            .binary_search_by_key(&consumer, |(number, _)| *number);
        if let Ok(at) = found {
            let (_, place) = self.consumers[at];
            if place != own {
                self.ring(rt, place);
            }
        }
    }

    pub(crate) fn ring<R: Wait>(&self, rt: &R, place: usize) {
        if let Some(Some(resident)) = self.residents.get(place) {
            resident.bell.ring(rt);
        }
    }

    /// Messages of the line may be sent: one that waits is to look.
    pub(crate) fn freshen<R: Wait>(&mut self, rt: &R, line: usize) {
        self.set_fresh(line, true);
        self.ring_one(rt, line);
    }

    /// Rings the consumer that has waited longest, where one waits.
    pub(crate) fn ring_one<R: Wait>(&mut self, rt: &R, line: usize) {
        if let Some(place) = self.take_first(line) {
            self.unlist(place);
            self.ring(rt, place);
        }
    }

    fn take_first(&mut self, line: usize) -> Option<usize> {
        match self.line_mut(line) {
            Some(line) => line.first(),
            None => None,
        }
    }

    fn unlist(&mut self, place: usize) {
        if let Some(resident) = self.resident_mut(place) {
            resident.is_listed = false;
        }
    }
}
