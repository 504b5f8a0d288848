// What a consumer of a subscription asked for, and what it was sent.
ghost use Rattle.std.specs.Prelude.{◌≡◌, OnOk, OnErr, IfOk, IfErr, None, Some};
ghost use Rattle.delivery_machine.specs.Words.{is_member, is_at, comes_before, emptied, emptied_at};
ghost use Rattle.position_core.specs.Flow.{granting_refused};
ghost use Rattle.delivery_machine.specs.Joining.{permitted};
ghost use Rattle.delivery_machine.specs.Acknowledging.{forgetting};
ghost use Rattle.delivery_machine.specs.Delivering.{due_after};
ghost use Rattle.plain_lists.specs.Members.{joining, pushed, shortened, spending};

use delivery_machine::{Deliveries, Delivery};
use position_core::{
    ConsumerNumber, Fault, Flow, Level, Millis, Moment, Permits, Position, RedeliverLimit,
    SubscriptionName, TopicName,
};
use std::alloc::{AllocError, Global};
use std::marker::Model;

/// A consumer at a subscription.
pub struct Member {
    number: ConsumerNumber,
    subscription: SubscriptionName,
    level: Level,
    flow: Flow,
    ack_timeout: Millis,
    nack_delay: Millis,
    max_redeliver: RedeliverLimit,
    dead_topic: TopicName,
    out: Deliveries,
}

impl Drop for Member {
    fn drop(self) {
        let Member {
            number: _,
            subscription: _,
            level: _,
            flow: _,
            ack_timeout: _,
            nack_delay: _,
            max_redeliver: _,
            dead_topic: _,
            out: _,
        } = self;
    }
}

impl Model for Member {
    ghost use Rattle.std.specs.Prelude.{[]};
    ghost use Rattle.delivery_machine.specs.State.{Member};

    ghost Value = { Member };

    ghost view = { λ m. record {
      number = m.number;
      subscription = m.subscription;
      level = m.level;
      flow = m.flow;
      ack_timeout = m.ack_timeout;
      nack_delay = m.nack_delay;
      max_redeliver = m.max_redeliver;
      dead_topic = m.dead_topic;
      out = m.out;
    } };
}

/// What a consumer asks for when it joins.
#[derive(Clone, Copy)]
pub struct Terms {
    pub level: Level,
    pub flow: Flow,
    pub ack_timeout: Millis,
    pub nack_delay: Millis,
    pub max_redeliver: RedeliverLimit,
}

impl Member {
    pub fn new(
        alloc: Global,
        number: ConsumerNumber,
        subscription: SubscriptionName,
        terms: Terms,
        dead_topic: TopicName,
    ) -> Self
        ensures { result ≡ joining number subscription terms dead_topic }
    {
        Member {
            number,
            subscription,
            level: terms.level,
            flow: terms.flow.begun(),
            ack_timeout: terms.ack_timeout,
            nack_delay: terms.nack_delay,
            max_redeliver: terms.max_redeliver,
            dead_topic,
            out: Deliveries::new(alloc),
        }
    }

    pub fn number(&self) -> ConsumerNumber
        ensures { result ≡ self.now.number }
    {
        self.number
    }

    pub(crate) fn is_number(&self, number: ConsumerNumber) -> bool
        ensures { result ≡ is_member number self.now }
    {
        self.number == number
    }

    pub fn subscription(&self) -> &SubscriptionName
        ensures { result.now ≡ self.now.subscription }
    {
        &self.subscription
    }

    pub fn is_at(&self, name: &SubscriptionName) -> bool
        ensures { result ≡ is_at name.now self.now }
    {
        self.subscription.is(name)
    }

    pub fn level(&self) -> Level
        ensures { result ≡ self.now.level }
    {
        self.level
    }

    pub fn flow(&self) -> Flow
        ensures { result ≡ self.now.flow }
    {
        self.flow
    }

    /// Whether it is served before the other one.
    pub fn comes_before(&self, other: &Member) -> bool
        ensures { result ≡ comes_before self.now other.now }
    {
        let level = self.level.get();
        let their_level = other.level.get();
        level < their_level || (level == their_level && self.number < other.number)
    }

    /// How long after a negative acknowledgement a message is sent again.
    pub fn nack_delay(&self) -> Millis
        ensures { result ≡ self.now.nack_delay }
    {
        self.nack_delay
    }

    /// How often a message is sent again before it dies; 0 for ever.
    pub fn max_redeliver(&self) -> RedeliverLimit
        ensures { result ≡ self.now.max_redeliver }
    {
        self.max_redeliver
    }

    /// Where a message goes to that dies.
    pub fn dead_topic(&self) -> &TopicName
        ensures { result.now ≡ self.now.dead_topic }
    {
        &self.dead_topic
    }

    /// From when on a message sent now may be released.
    pub fn due_after(&self, now: Moment) -> Option<u64>
        ensures { result ≡ due_after now self.now.ack_timeout }
    {
        if self.ack_timeout.get() == 0 {
            None
        } else {
            Some(now.millis() + u64::from(self.ack_timeout.get()))
        }
    }

    pub fn out_copy(&self) -> Result<Deliveries, AllocError>
        ensures { IfOk result (λ d. d ≡ self.now.out) }
    {
        self.out.clone()
    }

    /// Hands over what it was sent.
    pub fn take_out(&mut self, alloc: Global) -> Deliveries
        ensures taken { result ≡ self.old.out }
        ensures left { self.new ≡ emptied self.old }
    {
        std::mem::replace(&mut self.out, Deliveries::new(alloc))
    }

    /// Gives it a message. Nothing changes where there is no memory.
    pub fn give(&mut self, delivery: Delivery) -> Result<(), AllocError>
        ensures ok { OnOk result (self.new ≡ pushed delivery self.old) }
        ensures err { OnErr result (self.new ≡ self.old) }
    {
        self.out.push(delivery)
    }

    /// Takes back what was given last.
    pub fn take_back(&mut self)
        ensures { self.new ≡ shortened self.old }
    {
        self.out.drop_last();
    }

    /// Takes the credit for one message, where it pulls.
    pub fn spend(&mut self)
        ensures { self.new ≡ spending self.old }
    {
        self.flow = self.flow.spent();
    }

    /// Lets it be sent so many further messages.
    pub fn permit(&mut self, permits: Permits) -> Result<(), Fault>
        ensures ok { OnOk result (self.new ≡ permitted permits self.old) }
        ensures allowed { OnOk result (granting_refused permits self.old.flow ≡ None) }
        ensures refused { IfErr result (λ fault. granting_refused permits self.old.flow ≡ Some fault) }
        ensures same { OnErr result (self.new ≡ self.old) }
    {
        self.flow = self.flow.granted(permits)?;
        Ok(())
    }

    /// Leaves out the copies of the messages, where it is at the subscription.
    pub(crate) fn forget(&mut self, name: &SubscriptionName, positions: &[Position])
        ensures { self.new ≡ forgetting name.now positions.now self.old }
    {
        if self.subscription.is(name) {
            self.out.leave_out(positions);
        }
    }

    /// Leaves nothing to be collected, where it is at the subscription.
    pub(crate) fn forget_all(&mut self, name: &SubscriptionName)
        ensures { self.new ≡ emptied_at name.now self.old }
    {
        if self.subscription.is(name) {
            self.out.clear();
        }
    }
}
