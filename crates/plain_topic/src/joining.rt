// Joining a subscription.
use crate::lists::Lists;
use delivery_machine::{Initial, Reply};
use plain_lists::{
    Member, PositionSet, Subscription, Terms, place_for, place_of_subscription, subscription_at,
};
use plain_queries::{count_at, has_kind};
use position_core::{
    ConsumerNumber, Fault, Kind, Ranges, RedeliverLimit, SubscriptionName, TopicName,
};
use std::alloc::AllocError;

impl Lists {
    ghost use Rattle.std.specs.Prelude.{◌≡◌, false, IfOk, OnOk, OnErr, vec_capacity};
    ghost use Rattle.std.specs.List.{find};
    ghost use Rattle.std.specs.Option.{option_map_or};
    ghost use Rattle.delivery_machine.specs.Run.{Answers};
    ghost use Rattle.delivery_machine.specs.Joining.{acknowledged_at_first, joined};
    ghost use Rattle.delivery_machine.specs.Refusals.{dies_into_itself, overlaps, subscribing_refused};
    ghost use Rattle.delivery_machine.specs.Shares.{mixes};
    ghost use Rattle.delivery_machine.specs.Words.{is_named};
    ghost use Rattle.delivery_machine.specs.declared.event.Event.TheVariants.{Subscribe};
    ghost use Rattle.plain_topic.specs.StateOf.{state_of};

    /// Whether messages of the new member would die into the topic itself.
    fn dies_into_itself(
        &self,
        kind: Kind,
        max_redeliver: RedeliverLimit,
        dead_topic: &TopicName,
    ) -> bool
        ensures { result ≡ dies_into_itself (state_of self.now) kind max_redeliver dead_topic.now }
    {
        !kind.is_in_order() && max_redeliver.get() > 0 && dead_topic.is(&self.name)
    }

    /// Whether the members said which hashes they take where the new one does not, or the other way about.
    fn mixes(&self, name: &SubscriptionName, kind: Kind, ranges: &Option<Ranges>) -> bool
        ensures { result ≡ option_map_or (λ sub. mixes kind ranges.now sub.shares) (find (is_named name.now) (state_of self.now).subscriptions) false }
    {
        match subscription_at(&self.subscriptions, name) {
            Some(subscription) => subscription.mixes(kind, ranges),
            None => false,
        }
    }

    /// Whether a hash that the new member asks for is in another's share.
    fn overlaps(&self, name: &SubscriptionName, kind: Kind, ranges: &Option<Ranges>) -> bool
        ensures { result ≡ overlaps (state_of self.now) name.now kind ranges.now }
    {
        match subscription_at(&self.subscriptions, name) {
            Some(subscription) => subscription.asks_taken(kind, ranges),
            None => false,
        }
    }

    /// Why the consumer is turned away, if it is.
    fn subscribing_refused(
        &self,
        name: &SubscriptionName,
        kind: Kind,
        max_redeliver: RedeliverLimit,
        dead_topic: &TopicName,
        ranges: &Option<Ranges>,
    ) -> Option<Fault>
        ensures { result ≡ subscribing_refused (state_of self.now) name.now kind max_redeliver dead_topic.now ranges.now }
    {
        let members = count_at(&self.members, name);
        if members > 0 && !has_kind(&self.subscriptions, name, kind) {
            return Some(Fault::WrongKind);
        }
        if members > 0 && kind.is(Kind::Exclusive) {
            return Some(Fault::ConsumerBusy);
        }
        if members > 0 && self.mixes(name, kind, ranges) {
            return Some(Fault::MixedPolicy);
        }
        if self.overlaps(name, kind, ranges) {
            return Some(Fault::HashOverlap);
        }
        if members >= 64 {
            return Some(Fault::TooMany);
        }
        if self.subscriptions.len() >= 64 && subscription_at(&self.subscriptions, name).is_none() {
            return Some(Fault::TooMany);
        }
        if self.next_consumer >= 1 << 63 {
            return Some(Fault::TooMany);
        }
        if self.dies_into_itself(kind, max_redeliver, dead_topic) {
            return Some(Fault::DeadLetterSelf);
        }
        None
    }

    /// What a new subscription begins with as acknowledged.
    fn first_acknowledged(&self, initial: Initial) -> Result<PositionSet, AllocError>
        ensures { IfOk result (λ acknowledged. acknowledged ≡ acknowledged_at_first initial (state_of self.now).log) }
    {
        match initial {
            Initial::Earliest => Ok(PositionSet::new(self.alloc)),
            Initial::Latest => PositionSet::all_of(self.alloc, &self.log),
        }
    }

    /// Makes the subscription, or lets the consumer into it. Nothing changes where there is no memory.
    #[tactic(auto, using(crate::proofs::Placed::at_its_place))]
    fn enter(
        &mut self,
        name: &SubscriptionName,
        kind: Kind,
        ranges: &Option<Ranges>,
        consumer: ConsumerNumber,
        initial: Initial,
    ) -> Result<(), AllocError>
        requires free { overlaps (state_of self.old) name.now kind ranges.now ≡ false }
        ensures ok { OnOk result (state_of self.new ≡ record (state_of self.old) { subscriptions = joined (state_of self.old) name.now kind ranges.now consumer initial }) }
        ensures err { OnErr result (state_of self.new ≡ state_of self.old) }
        ensures room { vec_capacity self.new.members ≡ vec_capacity self.old.members }
    {
        if let Some(place) = place_of_subscription(&self.subscriptions, name) {
            return self.subscriptions[place].join(kind, ranges, consumer);
        }
        let acknowledged = self.first_acknowledged(initial)?;
        let made = Subscription::new(
            self.alloc,
            name.clone()?,
            kind,
            ranges,
            consumer,
            acknowledged,
        )?;
        let place = place_for(&self.subscriptions, name);
        self.subscriptions.insert(place, made)?;
        Ok(())
    }

    pub(crate) fn subscribe(
        &mut self,
        name: &SubscriptionName,
        kind: Kind,
        terms: Terms,
        dead_topic: &TopicName,
        initial: Initial,
        ranges: &Option<Ranges>,
    ) -> Reply
        ensures { Answers (state_of self.old) (Subscribe name.now kind terms.level terms.flow terms.ack_timeout terms.nack_delay terms.max_redeliver dead_topic.now initial ranges.now) result (state_of self.new) }
    {
        let _asked = Ranges::number_of(ranges);
        let refused = self.subscribing_refused(name, kind, terms.max_redeliver, dead_topic, ranges);
        if let Some(fault) = refused {
            return Reply::Refused(fault);
        }
        let number = self.next_consumer;
        let Ok(at) = name.clone() else {
            return Reply::Refused(Fault::NoMemory);
        };
        let Ok(dead_topic) = dead_topic.clone() else {
            return Reply::Refused(Fault::NoMemory);
        };
        // Room for the member before `enter`: the subscription would stay changed if there were none after it.
        if self.members.reserve(1).is_err() {
            return Reply::Refused(Fault::NoMemory);
        }
        // Who is active is read before the consumer is among the members, since a takeover is told by the change.
        let active = self.active_at(name);
        if self.enter(name, kind, ranges, number, initial).is_err() {
            return Reply::Refused(Fault::NoMemory);
        }
        self.members
            .push_reserved(Member::new(self.alloc, number, at, terms, dead_topic));
        self.next_consumer = number + 1;
        self.take_over(name, active);
        Reply::Subscribed { consumer: number }
    }
}
