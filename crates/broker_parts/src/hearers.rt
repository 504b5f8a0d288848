// Who hears of what a topic answers: those who sit there, its subscriptions, and whoever looks.
ghost use Rattle.std.specs.Prelude.{◌≡◌, IfErr};

use crate::graves::{Change, Graves};
use crate::tallies::{Tallies, acknowledges, ends_producer};
use crate::visitors::{Publisher, Visitors};
use delivery_machine::{Event, Fault, KeptSubscription, ProducerName, Reply};
use session_bells::{Asked, Bell, Bells};
use std::alloc::Global;
use std::sync::Wait;

/// Who hears of what a topic answers.
pub struct Hearers<B: Bell + Drop> {
    pub bells: Bells<B>,
    pub graves: Graves,
    pub tallies: Tallies,
    pub visitors: Visitors,
}

impl<B: Bell + Drop> Drop for Hearers<B> {
    fn drop(self) {
        let Hearers {
            bells: _,
            graves: _,
            tallies: _,
            visitors: _,
        } = self;
    }
}

/// Whether the reply to a consumer, who had acknowledged or had not, is noted at its subscription.
fn is_of_subscription(acknowledges: bool, reply: &Reply) -> bool {
    match reply {
        Reply::Sent { .. } | Reply::Released { .. } | Reply::Rewound { .. } | Reply::Died { .. } =>
            { true }
        Reply::Done => acknowledges,
        _ => false,
    }
}

/// The name that a producer asks for by the event.
fn name_in(event: &Event) -> Result<Option<ProducerName>, Fault>
    ensures { IfErr result (λ fault. fault ≡ Fault.NoMemory) }
{
    match event {
        Event::AddProducer {
            name: Some(name),
            ..
        } => match name.clone() {
            Ok(name) => Ok(Some(name)),
            Err(_) => Err(Fault::NoMemory),
        },
        _ => Ok(None),
    }
}

/// An event and who asked it, once there is room for its answer.
#[derive(Drop)]
pub struct Prepared {
    change: Change,
    ends_producer: bool,
    acknowledges: bool,
    /// The name that a producer asks for.
    name: Option<ProducerName>,
}

impl Prepared {
    /// An event that ends a producer or a consumer, whose answer takes no room.
    pub fn end(event: &Event) -> Self {
        Prepared {
            change: Change::Nothing,
            ends_producer: ends_producer(event),
            acknowledges: false,
            name: None,
        }
    }
}

impl<B: Bell + Drop> Hearers<B> {
    /// Those of a topic that was just opened, with so many messages that are stored: the courier is to look at each of the
    /// subscriptions in which letters lie.
    pub fn opened(
        alloc: Global,
        durable: u64,
        subscriptions: &[KeptSubscription],
    ) -> Result<Self, Fault>
        ensures { IfErr result (λ fault. fault ≡ Fault.NoMemory) }
    {
        let mut graves = Graves::new(alloc);
        match graves.know(subscriptions) {
            Ok(()) => Ok(Hearers {
                bells: Bells::new(alloc, durable),
                graves,
                tallies: Tallies::new(),
                visitors: Visitors::new(alloc),
            }),
            Err(fault) => {
                drop(graves);
                Err(fault)
            }
        }
    }

    /// Nobody sits at the seat any more, and its bell is gone.
    pub fn exit<R: Wait>(&mut self, rt: &R, seat: u64) {
        self.bells.exit(rt, seat);
        self.visitors.exit(seat);
    }

    /// What the event does to them, with the room that its answer takes. Only want of memory is a refusal (F1).
    pub fn prepare(&mut self, asked: &Asked, event: &Event) -> Result<Prepared, Fault>
        ensures { IfErr result (λ fault. fault ≡ Fault.NoMemory) }
    {
        let name = match name_in(event) {
            Ok(name) => name,
            Err(fault) => return Err(fault),
        };
        let Ok(change) = self.graves.prepare(event) else {
            drop(name);
            return Err(Fault::NoMemory);
        };
        match self.bells.prepare(asked) {
            Ok(()) => Ok(Prepared {
                change,
                ends_producer: ends_producer(event),
                acknowledges: acknowledges(event),
                name,
            }),
            Err(_) => {
                drop(change);
                drop(name);
                Err(Fault::NoMemory)
            }
        }
    }

    /// What was prepared was answered so to the one at the seat. Those are rung to whom it leads.
    pub fn answered<R: Wait>(
        &mut self,
        rt: &R,
        seat: u64,
        asked: &Asked,
        prepared: Prepared,
        reply: &Reply,
    ) {
        let Prepared {
            change,
            ends_producer,
            acknowledges,
            name,
        } = prepared;
        let makes = matches!(change, Change::Begins(_));
        self.tallies.note(ends_producer, reply);
        self.note_left(seat, asked, reply);
        self.bells.answered(rt, seat, asked, reply);
        self.graves.answered(change, reply);
        self.note_joined(seat, asked, makes, reply);
        self.note_visitor(seat, name, reply);
        if is_of_subscription(acknowledges, reply)
            && let Some(name) = self.bells.subscription(seat)
        {
            self.graves.note(name, acknowledges, reply);
        }
    }

    /// A consumer that has left is in its subscription no more. Its bell tells which that was, as long as it has one.
    fn note_left(&mut self, seat: u64, asked: &Asked, reply: &Reply) {
        if matches!(asked, Asked::Leaves(_))
            && matches!(reply, Reply::Done)
            && let Some(name) = self.bells.subscription(seat)
        {
            self.graves.leave(name);
        }
    }

    /// A consumer that has joined is in the subscription, which it may have made.
    fn note_joined(&mut self, seat: u64, asked: &Asked, makes: bool, reply: &Reply) {
        if let Asked::Joins(name) = asked
            && matches!(reply, Reply::Subscribed { .. })
        {
            let is_durable = self.visitors.is_durable(seat);
            self.graves.join(name, makes, is_durable);
        }
    }

    /// The one at the seat, who may have asked for a name, was answered so.
    fn note_visitor(&mut self, seat: u64, name: Option<ProducerName>, reply: &Reply) {
        match reply {
            Reply::Subscribed { consumer } => {
                drop(name);
                self.visitors.join(seat, *consumer);
            }
            Reply::ProducerAdded { auto, .. } => {
                self.visitors.produce(seat, Publisher::of(name, *auto));
            }
            _ => drop(name),
        }
    }

    /// Whether a courier is to be sent to a subscription.
    pub fn has_letters(&self) -> bool {
        self.graves.first_open().is_some()
    }

    /// What was prepared was refused: the room is given back that one would have had who did not join.
    pub fn refused<R: Wait>(&mut self, rt: &R, seat: u64, asked: &Asked, fault: Fault) {
        if let Asked::Joins(_) = asked {
            let reply = Reply::Refused(fault);
            self.bells.answered(rt, seat, asked, &reply);
            drop(reply);
        }
    }
}
