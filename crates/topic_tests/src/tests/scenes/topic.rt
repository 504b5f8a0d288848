// A topic of three messages, which events change.
ghost use Rattle.std.specs.Prelude.{◌≡◌, [], None};
ghost use Rattle.delivery_machine.specs.Joining.{joining, leaving};
ghost use Rattle.delivery_machine.specs.Shares.{no_shares};

use super::member::{Takes, new_member};
use super::message::{message_at, new_log, position_at};
use super::scene::{Change, Scene};
use super::subscription::Only;
use crate::list_view::ListView;
use dispatch_core::Offer;
use plain_lists::{Member, place_of_member, take_member};
use position_core::{Kind, Message, Permits};
use std::process::Abort;

#[derive(Drop)]
pub(super) struct Topic {
    log: Vec<Message>,
    durable: usize,
    members: Vec<Member>,
    only: Only,
}

fn push_member<R: Abort>(rt: &R, members: &mut Vec<Member>, member: Member) {
    members.push(member).expect(rt, "no memory");
}

/// The members, by numbers, levels and flows.
fn push_members<R: Abort + AllocGlobal>(
    rt: &R,
    members: &mut Vec<Member>,
    list: &[(u64, u32, Takes)],
) {
    for (number, level, takes) in list {
        push_member(rt, members, new_member(rt, *number, *level, *takes));
    }
}

/// So many messages without keys.
fn push_messages<R: Abort + AllocGlobal>(rt: &R, log: &mut Vec<Message>, count: u64) {
    for index in 0..count {
        let message = message_at(rt, position_at(index), None);
        log.push(message).expect(rt, "no memory");
    }
}

impl Topic {
    /// The scene's topic as it begins.
    pub(super) fn new<R: Abort + AllocGlobal>(rt: &R, kind: Kind, scene: &Scene) -> Self
        ensures { (result.only.subscription.kind ≡ kind) × (result.only.subscription.shares ≡ no_shares) }
    {
        let mut members = Vec::new(rt.alloc());
        push_members(rt, &mut members, scene.members);
        Topic {
            log: new_log(rt, *scene.keys),
            durable: scene.durable,
            members,
            only: Only::new(rt, kind),
        }
    }

    /// A topic of so many messages, and one member that may hold them all.
    pub(super) fn long<R: Abort + AllocGlobal>(rt: &R, kind: Kind, count: u64) -> Self {
        let mut log = Vec::new(rt.alloc());
        push_messages(rt, &mut log, count);
        let mut topic = Topic::of(rt, kind, log);
        topic.join(rt, 1, 100_000);
        topic
    }

    /// A topic of these messages, which are all visible, and of nobody.
    pub(super) fn of<R: Abort + AllocGlobal>(rt: &R, kind: Kind, log: Vec<Message>) -> Self
        ensures begun { (result.only.subscription.kind ≡ kind) × (result.only.subscription.shares ≡ no_shares) }
        ensures nobody { result.members.items ≡ [] }
    {
        Topic {
            durable: log.len(),
            log,
            members: Vec::new(rt.alloc()),
            only: Only::new(rt, kind),
        }
    }

    /// So many messages are visible.
    pub(super) fn show(&mut self, durable: usize)
        ensures { (self.new.only ≡ self.old.only) × (self.new.members.items ≡ self.old.members.items) }
    {
        self.durable = durable;
    }

    pub(super) fn view(&self) -> ListView<'_>
        ensures subscription { result.subscription.now ≡ self.now.only.subscription }
        ensures members { result.members.now ≡ self.now.members.items }
    {
        ListView {
            log: self.log.as_slice(),
            durable: self.durable,
            subscription: &self.only.subscription,
            members: self.members.as_slice(),
        }
    }

    pub(super) fn join<R: Abort + AllocGlobal>(&mut self, rt: &R, consumer: u64, window: u32)
        ensures { self.new.only.subscription ≡ joining self.old.only.subscription.kind None consumer self.old.only.subscription }
    {
        let member = new_member(rt, consumer, 0, Takes::Pushed(window));
        push_member(rt, &mut self.members, member);
        self.only.join(rt, consumer);
    }

    fn leave(&mut self, consumer: u64)
        ensures { self.new.only.subscription ≡ leaving consumer self.old.only.subscription }
    {
        drop(take_member(&mut self.members, consumer));
        self.only.leave(consumer);
    }

    pub(super) fn hold<R: Abort>(&mut self, rt: &R, index: u64, consumer: u64)
        ensures { (self.new.only.subscription.kind ≡ self.old.only.subscription.kind) × (self.new.only.subscription.shares ≡ self.old.only.subscription.shares) }
    {
        self.only.hold(rt, index, consumer);
    }

    /// The message is pending at the consumer, which may be sent one message less.
    fn send<R: Abort>(&mut self, rt: &R, offer: Option<Offer>)
        ensures { (self.new.only.subscription.kind ≡ self.old.only.subscription.kind) × (self.new.only.subscription.shares ≡ self.old.only.subscription.shares) }
    {
        let Offer { index, consumer } = offer.expect(rt, "nothing is offered");
        let place = place_of_member(&self.members, consumer).expect(rt, "no member");
        self.members[place].spend();
        self.only.hold(rt, index, consumer);
    }

    /// The message, which is pending, waits again.
    pub(super) fn release<R: Abort + AllocGlobal>(&mut self, rt: &R, index: u64) {
        self.only.release(rt, index);
    }

    pub(super) fn acknowledge<R: Abort>(&mut self, rt: &R, index: u64)
        ensures { (self.new.only.subscription.kind ≡ self.old.only.subscription.kind) × (self.new.only.subscription.shares ≡ self.old.only.subscription.shares) }
    {
        self.only.acknowledge(rt, index);
    }

    fn permit<R: Abort>(&mut self, rt: &R, consumer: u64, number: u32)
        ensures { self.new.only ≡ self.old.only }
    {
        let permits = Permits::new(number).expect(rt, "no permits");
        let place = place_of_member(&self.members, consumer).expect(rt, "no member");
        let done = self.members[place].permit(permits);
        done.expect(rt, "too many permits");
    }

    pub(super) fn make<R: Abort + AllocGlobal>(
        &mut self,
        rt: &R,
        change: Change,
        offer: Option<Offer>,
    ) {
        match change {
            Change::Begun => {}
            Change::Joined(consumer, window) => self.join(rt, consumer, window),
            Change::Left(consumer) => self.leave(consumer),
            Change::Sent | Change::SentUntold => self.send(rt, offer),
            Change::Held(index, consumer) => self.hold(rt, index, consumer),
            Change::Acknowledged(index) => self.acknowledge(rt, index),
            Change::Permitted(consumer, number) => self.permit(rt, consumer, number),
        }
    }
}
