// What is seen of a topic: its numbers are those of one state, under one hold of its lock.
ghost use Rattle.std.specs.Prelude.{◌≡◌, ◌+◌, [], All, IfOk, IfSome, false, length, option_map, slice_get};
ghost use Rattle.std.specs.String.{string_bytes};
ghost use Rattle.position_core.specs.TopicName.{topic_text};
ghost use Rattle.delivery_machine.specs.Places.{snapshot_in};
ghost use Rattle.delivery_machine.specs.Run.{Step};
ghost use Rattle.delivery_machine.specs.Snapshot.{snapshot_of};
ghost use Rattle.delivery_machine.specs.Statistics.{oldest as oldest_in};
ghost use Rattle.broker_dir.specs.Seeing.{ShowsReply, ShowsSubscription, ShowsTopic};

use crate::inside::Inside;
use crate::resting::shown_rule;
use broker_parts::{Publisher, Traffic, Visitor};
use delivery_machine::{
    ConsumerCounts, Event, Fault, KeptSubscription, Opened, Reply, Snapshot, SubscriptionName,
    Watched,
};
use marks::Naming;
use row_forms::topic_text;
use session_bells::Bell;
use status_pages::{Holds, SessionSeen, SubscriptionSeen, TopicSeen};
use std::alloc::{AllocError, Global};

/// What is known of a subscription before its topic is asked.
#[derive(Drop)]
struct Told {
    name: String,
    oldest: Option<u64>,
    traffic: Traffic,
    unused: Option<u64>,
}

/// A subscription by the topic's answer; none where it is no answer to that.
fn subscription_by(told: Told, reply: &Reply) -> Option<SubscriptionSeen>
    ensures shows { IfSome result (ShowsReply reply.now) }
    ensures name { IfSome result (λ seen. seen.name ≡ told.name) }
{
    let Told {
        name,
        oldest,
        traffic,
        unused,
    } = told;
    match reply {
        Reply::Stats {
            kind,
            members,
            mark_delete: _,
            acknowledged,
            live,
            pending,
            dead,
            gone: _,
            oldest: _,
        } => Some(SubscriptionSeen {
            name,
            kind: *kind,
            consumers: *members,
            waiting: live.saturating_sub(*pending),
            pending: *pending,
            acknowledged: *acknowledged,
            dead: *dead,
            oldest,
            delivered: traffic.sent,
            redelivered: traffic.released,
            acks: traffic.acks,
            deaths: traffic.deaths,
            unused,
        }),
        _ => {
            drop(name);
            None
        }
    }
}

/// When the message at the place was published, in milliseconds since 1970.
fn time_at(snapshot: &Snapshot, place: usize) -> Option<u64>
    ensures { result ≡ option_map (λ e. e.time) (slice_get snapshot.now.log place) }
{
    match snapshot.log().get(place) {
        Some(message) => Some(message.entry().time.millis()),
        None => None,
    }
}

/// When the first message was published that the subscription has not acknowledged.
fn oldest_of(snapshot: &Snapshot, kept: &KeptSubscription) -> Option<u64> {
    match usize::try_from(kept.acknowledged.first_missing()) {
        Ok(place) => time_at(snapshot, place),
        Err(_) => None,
    }
}

fn address_of(alloc: Global, visitor: &Visitor) -> Result<Option<String>, AllocError> {
    match visitor.whence {
        Some(whence) => Ok(Some(whence.to_string(alloc)?)),
        None => Ok(None),
    }
}

fn text_of(alloc: Global, name: Option<&SubscriptionName>) -> Result<Option<String>, AllocError> {
    match name {
        Some(name) => Ok(Some(String::from_str(alloc, name.as_str())?)),
        None => Ok(None),
    }
}

fn publisher_of(
    alloc: Global,
    publisher: Option<&Publisher>,
) -> Result<Option<String>, AllocError> {
    match publisher {
        Some(publisher) => Ok(Some(publisher.text(alloc)?)),
        None => Ok(None),
    }
}

fn session_of(
    alloc: Global,
    seat: u64,
    visitor: &Visitor,
    publisher: Option<&Publisher>,
    subscription: Option<&SubscriptionName>,
    counts: Option<ConsumerCounts>,
) -> Result<SessionSeen, AllocError> {
    let address = address_of(alloc, visitor)?;
    let producer = publisher_of(alloc, publisher)?;
    let subscription = text_of(alloc, subscription)?;
    Ok(SessionSeen {
        number: seat,
        address,
        role: visitor.role,
        since: visitor.since.millis(),
        producer,
        subscription,
        holds: counts.map(|counts| Holds {
            pending: counts.pending,
            room: counts.room,
        }),
    })
}

impl<T: Opened + Drop, J: Naming, B: Bell + Drop> Inside<T, J, B> {
    /// How many messages are stored, of all that the topic has had.
    pub(crate) fn durable(&mut self) -> Result<u64, Fault>
        ensures durable { IfOk result (λ count. count ≡ self.old.topic.cell.cell.state.gone + self.old.topic.cell.cell.state.durable) }
        ensures state { self.new.topic.cell.cell.state ≡ self.old.topic.cell.cell.state }
        ensures name { self.new.topic.name ≡ self.old.topic.name }
        ensures stage { self.new.stage ≡ self.old.stage }
    {
        match self.ask(Event::Progress) {
            Ok(Reply::Progress { durable, length: _ }) => Ok(durable),
            Ok(_) => Err(Fault::NoMemory),
            Err(fault) => Err(fault),
        }
    }

    /// What the topic tells of the subscription now.
    fn ask_of(&mut self, name: &SubscriptionName) -> Result<Reply, Fault>
        ensures told { IfOk result (λ reply. Step self.old.topic.cell.cell.state (Event.Stats name.now) reply self.new.topic.cell.cell.state) }
        ensures state { self.new.topic.cell.cell.state ≡ self.old.topic.cell.cell.state }
        ensures name { self.new.topic.name ≡ self.old.topic.name }
        ensures stage { self.new.stage ≡ self.old.stage }
    {
        match name.clone() {
            Ok(subscription) => self.ask(Event::Stats { subscription }),
            Err(_) => Err(Fault::NoMemory),
        }
    }

    /// What is seen of the subscription now, where it is there.
    fn subscription_seen(
        &mut self,
        name: &SubscriptionName,
        told: Told,
    ) -> Result<Option<SubscriptionSeen>, Fault>
        requires { string_bytes told.name ≡ name.now }
        ensures shows { IfOk result (λ seen. IfSome seen (ShowsSubscription self.old.topic.cell.cell.state)) }
        ensures state { self.new.topic.cell.cell.state ≡ self.old.topic.cell.cell.state }
        ensures name { self.new.topic.name ≡ self.old.topic.name }
        ensures stage { self.new.stage ≡ self.old.stage }
    {
        match self.ask_of(name) {
            Ok(reply) => {
                let seen = subscription_by(told, &reply);
                drop(reply);
                Ok(seen)
            }
            Err(fault) => {
                drop(told);
                Err(fault)
            }
        }
    }

    /// Adds to what is seen the subscription of the snapshot, which is of the topic as it is.
    fn see_one(
        &mut self,
        alloc: Global,
        snapshot: &Snapshot,
        kept: &KeptSubscription,
        seen: &mut Vec<SubscriptionSeen>,
    ) -> Result<(), Fault>
        ensures shows { All (ShowsSubscription self.old.topic.cell.cell.state) seen.old.items → All (ShowsSubscription self.old.topic.cell.cell.state) seen.new.items }
        ensures state { self.new.topic.cell.cell.state ≡ self.old.topic.cell.cell.state }
        ensures name { self.new.topic.name ≡ self.old.topic.name }
        ensures stage { self.new.stage ≡ self.old.stage }
    {
        let Ok(name) = String::from_str(alloc, kept.name.as_str()) else {
            return Err(Fault::NoMemory);
        };
        let told = Told {
            name,
            oldest: oldest_of(snapshot, kept),
            traffic: self.hearers.graves.traffic(&kept.name),
            unused: self.hearers.graves.unused(&kept.name),
        };
        match self.subscription_seen(&kept.name, told) {
            Ok(Some(sub)) => match seen.push(sub) {
                Ok(()) => Ok(()),
                Err(_) => Err(Fault::NoMemory),
            },
            Ok(None) => Ok(()),
            Err(fault) => Err(fault),
        }
    }

    /// Adds to what is seen each subscription of the snapshot.
    fn see_each(
        &mut self,
        alloc: Global,
        snapshot: &Snapshot,
        seen: &mut Vec<SubscriptionSeen>,
    ) -> Result<(), Fault>
        ensures shows { All (ShowsSubscription self.old.topic.cell.cell.state) seen.old.items → All (ShowsSubscription self.old.topic.cell.cell.state) seen.new.items }
        ensures state { self.new.topic.cell.cell.state ≡ self.old.topic.cell.cell.state }
        ensures name { self.new.topic.name ≡ self.old.topic.name }
        ensures stage { self.new.stage ≡ self.old.stage }
    {
        for kept in snapshot.subscriptions() {
            match self.see_one(alloc, snapshot, kept, seen) {
                Ok(()) => {}
                Err(fault) => return Err(fault),
            }
        }
        Ok(())
    }

    /// What is seen of the topic now, but for its subscriptions and sessions, of which the lists are empty.
    fn seen_alone(
        &self,
        alloc: Global,
        name: String,
        snapshot: &Snapshot,
        durable: u64,
    ) -> TopicSeen
        ensures gone { result.gone ≡ snapshot.now.gone }
        ensures kept { result.kept ≡ length snapshot.now.log }
        ensures name { result.name ≡ name }
        ensures durable { result.durable ≡ durable }
        ensures oldest { result.oldest ≡ oldest_in snapshot.now.log }
        ensures none { result.subscriptions.items ≡ [] }
    {
        let tallies = self.hearers.tallies;
        TopicSeen {
            name,
            is_resting: false,
            rule: shown_rule(snapshot.retention().as_ref()),
            gone: snapshot.gone(),
            kept: snapshot.log().count() as u64,
            bytes: self.bulk.bytes(),
            durable,
            oldest: time_at(snapshot, 0),
            producers: tallies.producers,
            published: tallies.published,
            duplicates: tallies.duplicates,
            refused: tallies.refused,
            journal: self.cell().cell().lines(),
            sessions: Vec::new(alloc),
            subscriptions: Vec::new(alloc),
        }
    }

    /// What is seen of the topic, of which the name and the snapshot are, but for its sessions.
    fn seen_by(
        &mut self,
        alloc: Global,
        name: String,
        snapshot: &Snapshot,
    ) -> Result<TopicSeen, Fault>
        requires name { string_bytes name ≡ topic_text self.old.topic.cell.cell.state.name }
        requires snapshot { snapshot_in snapshot.now ≡ snapshot_of self.old.topic.cell.cell.state }
        ensures shows { IfOk result (ShowsTopic self.old.topic.cell.cell.state) }
        ensures state { self.new.topic.cell.cell.state ≡ self.old.topic.cell.cell.state }
        ensures name { self.new.topic.name ≡ self.old.topic.name }
        ensures stage { self.new.stage ≡ self.old.stage }
    {
        let durable = match self.durable() {
            Ok(durable) => durable,
            Err(fault) => {
                drop(name);
                return Err(fault);
            }
        };
        let mut seen = self.seen_alone(alloc, name, snapshot, durable);
        match self.see_each(alloc, snapshot, &mut seen.subscriptions) {
            Ok(()) => Ok(seen),
            Err(fault) => {
                drop(seen);
                Err(fault)
            }
        }
    }

    /// What is seen of the topic now, under its own name, but for its sessions. Only want of memory is a refusal, and a journal that
    /// is full.
    pub(crate) fn seen_rest(&mut self, alloc: Global) -> Result<TopicSeen, Fault>
        ensures shows { IfOk result (ShowsTopic self.old.topic.cell.cell.state) }
        ensures state { self.new.topic.cell.cell.state ≡ self.old.topic.cell.cell.state }
        ensures name { self.new.topic.name ≡ self.old.topic.name }
        ensures stage { self.new.stage ≡ self.old.stage }
    {
        let Ok(name) = topic_text(alloc, self.name()) else {
            return Err(Fault::NoMemory);
        };
        let snapshot = match self.view() {
            Ok(snapshot) => snapshot,
            Err(fault) => {
                drop(name);
                return Err(fault);
            }
        };
        let seen = self.seen_by(alloc, name, &snapshot);
        drop(snapshot);
        self.roll_if_long();
        seen
    }
}

impl<T: Watched + Drop, J: Naming, B: Bell + Drop> Inside<T, J, B> {
    /// Adds to what is seen who sits at the topic.
    fn see_sessions(&self, alloc: Global, seen: &mut Vec<SessionSeen>) -> Result<(), Fault> {
        for seat in 1..self.hearers.visitors.last().saturating_add(1) {
            if let Some(visitor) = self.hearers.visitors.at(seat) {
                let name = self.hearers.bells.subscription(seat);
                let counts = match self.hearers.visitors.consumer(seat) {
                    Some(consumer) => self.cell().cell().topic().consumer_counts(consumer),
                    None => None,
                };
                let publisher = self.hearers.visitors.publisher(seat);
                let Ok(session) = session_of(alloc, seat, &visitor, publisher, name, counts) else {
                    return Err(Fault::NoMemory);
                };
                if seen.push(session).is_err() {
                    return Err(Fault::NoMemory);
                }
            }
        }
        Ok(())
    }

    /// What is seen of the topic now, under its own name. Only want of memory is a refusal, and a journal that is full.
    pub(crate) fn seen(&mut self, alloc: Global) -> Result<TopicSeen, Fault>
        ensures shows { IfOk result (ShowsTopic self.old.topic.cell.cell.state) }
        ensures state { self.new.topic.cell.cell.state ≡ self.old.topic.cell.cell.state }
        ensures name { self.new.topic.name ≡ self.old.topic.name }
        ensures stage { self.new.stage ≡ self.old.stage }
    {
        let mut seen = match self.seen_rest(alloc) {
            Ok(seen) => seen,
            Err(fault) => return Err(fault),
        };
        match self.see_sessions(alloc, &mut seen.sessions) {
            Ok(()) => Ok(seen),
            Err(fault) => {
                drop(seen);
                Err(fault)
            }
        }
    }
}
