// The subscriptions of a topic: in which of them letters may lie dead, who is in them, and what came of what these asked.
ghost use Rattle.std.specs.Prelude.{◌≡◌, Any, IfErr, IfSome, IsOk, true};
ghost use Rattle.std.specs.Option.{option_copied};
ghost use Rattle.broker_parts.specs.Attendance.{is_over, is_unused_for};
ghost use Rattle.broker_parts.specs.Ends.{is_ending};

use crate::attendance::Attendance;
use crate::tallies::Traffic;
use delivery_machine::{Event, Fault, KeptSubscription, Reply, SubscriptionName};
use std::alloc::Global;

/// A subscription in which letters may lie dead.
#[derive(Drop)]
pub struct Grave {
    pub name: SubscriptionName,
    /// No other grave of the topic has it, or had it before.
    pub number: u64,
    /// A letter died in it since the topic was viewed.
    has_died: bool,
    /// A letter died in it before the topic was viewed, and what was viewed is not stored yet.
    is_viewed: bool,
    /// Letters lie in it that are stored, and the courier was not sent for them.
    is_open: bool,
    /// A courier is under way for it, of which there is one at most.
    has_courier: bool,
    traffic: Traffic,
    attendance: Attendance,
}

impl Grave {
    fn new(name: SubscriptionName, number: u64, is_open: bool) -> Grave {
        Grave {
            name,
            number,
            has_died: false,
            is_viewed: false,
            is_open,
            has_courier: false,
            traffic: Traffic::new(),
            attendance: Attendance::new(),
        }
    }

    fn view(&mut self) {
        self.is_viewed |= self.has_died;
        self.has_died = false;
    }

    fn store(&mut self) {
        self.is_open |= self.is_viewed;
        self.is_viewed = false;
    }

    fn wants_courier(&self) -> bool {
        self.is_open && !self.has_courier
    }
}

/// What an event does to the graves once it is answered.
#[derive(Drop)]
pub enum Change {
    Nothing,
    /// The subscription is there then, and there is room for its grave.
    Begins(SubscriptionName),
    /// The one at the place is gone then.
    Goes(usize),
}

/// The graves of a topic: one for each of its subscriptions.
#[derive(Drop)]
pub struct Graves {
    graves: Vec<Grave>,
    /// How many were made so far.
    made: u64,
}

impl Graves {
    pub fn new(alloc: Global) -> Self {
        Graves {
            graves: Vec::new(alloc),
            made: 0,
        }
    }

    /// Those of a topic that was just opened: the courier is to look at each in which letters lie.
    pub fn know(&mut self, subscriptions: &[KeptSubscription]) -> Result<(), Fault>
        ensures { IfErr result (λ fault. fault ≡ Fault.NoMemory) }
    {
        for subscription in subscriptions {
            match self.know_one(&subscription.name, !subscription.dead.is_empty()) {
                Ok(()) => {}
                Err(fault) => return Err(fault),
            }
        }
        Ok(())
    }

    fn know_one(&mut self, name: &SubscriptionName, is_open: bool) -> Result<(), Fault>
        ensures { IfErr result (λ fault. fault ≡ Fault.NoMemory) }
    {
        match self.room_for(name) {
            Ok(name) => {
                self.add(name, is_open);
                Ok(())
            }
            Err(fault) => Err(fault),
        }
    }

    /// Room for one more, of that name.
    fn room_for(&mut self, name: &SubscriptionName) -> Result<SubscriptionName, Fault>
        ensures { IfErr result (λ fault. fault ≡ Fault.NoMemory) }
    {
        if self.graves.reserve(1).is_err() {
            return Err(Fault::NoMemory);
        }
        match name.clone() {
            Ok(name) => Ok(name),
            Err(_) => Err(Fault::NoMemory),
        }
    }

    /// There is room for it.
    fn add(&mut self, name: SubscriptionName, is_open: bool) {
        self.made = self.made.saturating_add(1);
        let _ = self.graves.push(Grave::new(name, self.made, is_open));
    }

    fn place_of(&self, name: &SubscriptionName) -> Option<usize> {
        self.graves.iter().position(|grave| grave.name.is(name))
    }

    fn place_by_number(&self, number: u64) -> Option<usize> {
        self.graves.iter().position(|grave| grave.number == number)
    }

    /// What the event does to the graves, with the room that it needs. Only want of memory is a refusal (F1).
    pub fn prepare(&mut self, event: &Event) -> Result<Change, Fault>
        ensures fault { IfErr result (λ fault. fault ≡ Fault.NoMemory) }
        ensures ends { is_ending event.now ≡ true → IsOk result }
    {
        match event {
            Event::Subscribe { subscription, .. } => self.prepare_join(subscription),
            Event::DropSubscription { subscription } => Ok(self.going(subscription)),
            _ => Ok(Change::Nothing),
        }
    }

    fn prepare_join(&mut self, name: &SubscriptionName) -> Result<Change, Fault>
        ensures { IfErr result (λ fault. fault ≡ Fault.NoMemory) }
    {
        if self.place_of(name).is_some() {
            return Ok(Change::Nothing);
        }
        match self.room_for(name) {
            Ok(name) => Ok(Change::Begins(name)),
            Err(fault) => Err(fault),
        }
    }

    fn going(&self, name: &SubscriptionName) -> Change {
        match self.place_of(name) {
            Some(place) => Change::Goes(place),
            None => Change::Nothing,
        }
    }

    /// The event was answered so.
    pub fn answered(&mut self, change: Change, reply: &Reply) {
        match change {
            Change::Begins(name) => self.joined(name, reply),
            Change::Goes(place) => self.dropped(place, reply),
            Change::Nothing => {}
        }
    }

    fn joined(&mut self, name: SubscriptionName, reply: &Reply) {
        match reply {
            Reply::Subscribed { .. } => self.add(name, false),
            _ => drop(name),
        }
    }

    fn dropped(&mut self, place: usize, reply: &Reply) {
        if matches!(reply, Reply::Done) && place < self.graves.len() {
            drop(self.graves.swap_remove(place));
        }
    }

    /// A consumer of the subscription was answered so, who had acknowledged or had not; a letter may have died by it.
    pub fn note(&mut self, name: &SubscriptionName, acknowledges: bool, reply: &Reply) {
        let found = self.place_of(name);
        if let Some(place) = found
            && let Some(grave) = self.graves.get_mut(place)
        {
            grave.has_died |= matches!(reply, Reply::Died { .. });
            grave.traffic.note(acknowledges, reply);
        }
    }

    /// What came of what the subscription's consumers asked.
    pub fn traffic(&self, name: &SubscriptionName) -> Traffic {
        match self.graves.iter().find(|grave| grave.name.is(name)) {
            Some(grave) => grave.traffic,
            None => Traffic::new(),
        }
    }

    /// A consumer came to the subscription, which it made or found there.
    pub fn join(&mut self, name: &SubscriptionName, makes: bool, is_durable: bool) {
        let found = self.place_of(name);
        if let Some(place) = found
            && let Some(grave) = self.graves.get_mut(place)
        {
            grave.attendance.join(makes, is_durable);
        }
    }

    /// A consumer left the subscription.
    pub fn leave(&mut self, name: &SubscriptionName) {
        let found = self.place_of(name);
        if let Some(place) = found
            && let Some(grave) = self.graves.get_mut(place)
        {
            grave.attendance.leave();
        }
    }

    /// A subscription that is to go with the last consumer that was in it.
    pub fn over(&self) -> Option<&SubscriptionName>
        ensures { IfSome (option_copied result) (λ name. Any (λ grave. (grave.name ≡ name) × (is_over grave.attendance ≡ true)) self.now.graves.items) }
    {
        for grave in &self.graves {
            if grave.attendance.is_over() {
                return Some(&grave.name);
            }
        }
        None
    }

    /// They are looked at so many milliseconds after they were last.
    pub fn look(&mut self, passed: u64) {
        for grave in self.graves.iter_mut() {
            grave.attendance.look(passed);
        }
    }

    /// The subscription at the place, where nobody has been in it for more than so many milliseconds.
    pub fn unused_at(&self, place: usize, millis: u64) -> Option<&SubscriptionName>
        ensures { IfSome (option_copied result) (λ name. Any (λ grave. (grave.name ≡ name) × (is_unused_for millis grave.attendance ≡ true)) self.now.graves.items) }
    {
        match self.graves.get(place) {
            Some(grave) if grave.attendance.is_unused_for(millis) => Some(&grave.name),
            _ => None,
        }
    }

    /// For how many milliseconds nobody has been in the subscription, where that is known.
    pub fn unused(&self, name: &SubscriptionName) -> Option<u64> {
        match self.graves.iter().find(|grave| grave.name.is(name)) {
            Some(grave) => grave.attendance.unused(),
            None => None,
        }
    }

    /// Nobody had been in the subscription of the name for so long before the topic came into memory.
    pub fn go_on(&mut self, name: &str, unused: Option<u64>) {
        for grave in self.graves.iter_mut() {
            if grave.name.as_str() == name {
                grave.attendance.go_on(unused);
            }
        }
    }

    /// The topic was viewed, to be stored: what has died so far is in it.
    pub fn viewed(&mut self) {
        for grave in self.graves.iter_mut() {
            grave.view();
        }
    }

    /// What was viewed is stored.
    pub fn stored(&mut self) {
        for grave in self.graves.iter_mut() {
            grave.store();
        }
    }

    pub fn count(&self) -> usize {
        self.graves.len()
    }

    /// The place of the first one that a courier is to be sent to.
    pub fn first_open(&self) -> Option<usize> {
        self.graves.iter().position(|grave| grave.wants_courier())
    }

    pub fn at(&self, place: usize) -> Option<&Grave> {
        self.graves.get(place)
    }

    /// The courier is sent there now.
    pub fn close(&mut self, place: usize) {
        if let Some(grave) = self.graves.get_mut(place) {
            grave.is_open = false;
            grave.has_courier = true;
        }
    }

    /// Whether the subscription is there still.
    pub fn has(&self, number: u64) -> bool {
        self.place_by_number(number).is_some()
    }

    /// The courier has ended: another one may be sent there.
    pub fn release(&mut self, number: u64) {
        let found = self.place_by_number(number);
        if let Some(place) = found
            && let Some(grave) = self.graves.get_mut(place)
        {
            grave.has_courier = false;
        }
    }
}
