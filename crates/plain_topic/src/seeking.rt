// Where a subscription goes on from: seeking and skipping. Dropping it.
use crate::lists::Lists;
use delivery_machine::{Reply, Target};
use plain_lists::{drop_subscription, empty_at, place_of_subscription, subscription_at};
use plain_queries::{count_at, count_before, count_earlier, first_live};
use position_core::{Fault, Moment, SkipLength, SubscriptionName};
use std::alloc::AllocError;

impl Lists {
    ghost use Rattle.std.specs.Prelude.{◌≡◌, ◌≤◌, OnOk, OnErr, length};
    ghost use Rattle.delivery_machine.specs.Run.{Answers};
    ghost use Rattle.delivery_machine.specs.Refusals.{is_hidden};
    ghost use Rattle.delivery_machine.specs.Seeking.{length_before, length_before_time, sought};
    ghost use Rattle.delivery_machine.specs.declared.event.Event.TheVariants.{DropSubscription, Seek, SeekTime, Skip};
    ghost use Rattle.plain_topic.specs.StateOf.{state_of};

    /// Whether the target is a message that is not visible.
    fn is_hidden(&self, target: Target) -> bool
        ensures { result ≡ is_hidden (state_of self.now) target }
    {
        match target {
            Target::Earliest | Target::Latest => false,
            Target::At(position) => !self.has_visible(position),
        }
    }

    /// How many messages stand before the target.
    fn length_before(&self, target: Target) -> usize
        ensures value { result ≡ length_before (state_of self.now) target }
        ensures within { result ≤ length (state_of self.now).log }
    {
        match target {
            Target::Earliest => 0,
            Target::Latest => self.log.len(),
            Target::At(position) => count_before(&self.log, position),
        }
    }

    /// How many visible messages stand before the first that is not earlier.
    fn length_before_time(&self, time: Moment) -> usize
        ensures value { result ≡ length_before_time (state_of self.now) time }
        ensures within { result ≤ length (state_of self.now).log }
    {
        count_earlier(self.visible(), time)
    }

    /// Lets the subscription go on after the first messages. Nothing changes where there is no memory.
    #[tactic(auto, using(crate::proofs::Placed::at_its_place))]
    fn go_on_after(&mut self, name: &SubscriptionName, count: usize) -> Result<(), AllocError>
        requires { count ≤ length (state_of self.old).log }
        ensures ok { OnOk result (state_of self.new ≡ sought (state_of self.old) name.now count) }
        ensures err { OnErr result (state_of self.new ≡ state_of self.old) }
    {
        if let Some(place) = place_of_subscription(&self.subscriptions, name) {
            let before = &self.log[..count];
            self.subscriptions[place].seek(self.alloc, before)?;
        }
        empty_at(&mut self.members, name);
        Ok(())
    }

    pub(crate) fn seek(&mut self, name: &SubscriptionName, target: Target) -> Reply
        ensures { Answers (state_of self.old) (Seek name.now target) result (state_of self.new) }
    {
        if subscription_at(&self.subscriptions, name).is_none() {
            return Reply::Refused(Fault::NoSuchSubscription);
        }
        if self.is_hidden(target) {
            return Reply::Refused(Fault::NoSuchMessage);
        }
        let count = self.length_before(target);
        match self.go_on_after(name, count) {
            Ok(()) => Reply::Done,
            Err(_) => Reply::Refused(Fault::NoMemory),
        }
    }

    pub(crate) fn seek_time(&mut self, name: &SubscriptionName, time: Moment) -> Reply
        ensures { Answers (state_of self.old) (SeekTime name.now time) result (state_of self.new) }
    {
        if subscription_at(&self.subscriptions, name).is_none() {
            return Reply::Refused(Fault::NoSuchSubscription);
        }
        let count = self.length_before_time(time);
        match self.go_on_after(name, count) {
            Ok(()) => Reply::Done,
            Err(_) => Reply::Refused(Fault::NoMemory),
        }
    }

    pub(crate) fn skip(&mut self, name: &SubscriptionName, count: SkipLength) -> Reply
        ensures { Answers (state_of self.old) (Skip name.now count) result (state_of self.new) }
    {
        let Some(subscription) = subscription_at(&self.subscriptions, name) else {
            return Reply::Refused(Fault::NoSuchSubscription);
        };
        let Ok(positions) = first_live(self.alloc, self.visible(), subscription, count.get()) else {
            return Reply::Refused(Fault::NoMemory);
        };
        match self.acknowledge(name, &positions) {
            Ok(()) => Reply::Done,
            Err(_) => Reply::Refused(Fault::NoMemory),
        }
    }

    pub(crate) fn drop_subscription(&mut self, name: &SubscriptionName) -> Reply
        ensures { Answers (state_of self.old) (DropSubscription name.now) result (state_of self.new) }
    {
        let Some(subscription) = subscription_at(&self.subscriptions, name) else {
            return Reply::Refused(Fault::NoSuchSubscription);
        };
        if count_at(&self.members, name) > 0 || subscription.number_of_dead() > 0 {
            return Reply::Refused(Fault::SubscriptionBusy);
        }
        drop_subscription(&mut self.subscriptions, name);
        Reply::Done
    }
}
