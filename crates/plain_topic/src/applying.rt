// The lists as a topic: each event by its own method.
use crate::lists::Lists;
use delivery_machine::{Deliveries, Event, Reply, Retention, Topic};
use plain_lists::Terms;
use position_core::{ConsumerNumber, Fault};

impl Topic for Lists {
    ghost use Rattle.plain_topic.specs.StateOf.{state_of};

    ghost state = { state_of };

    fn apply(&mut self, event: &Event) -> Reply {
        match event {
            Event::AddProducer { name, base } => self.add_producer(name, *base),
            Event::DropProducer { producer } => self.drop_producer(*producer),
            Event::Publish {
                producer,
                sequence,
                body,
                now,
            } => self.publish(*producer, *sequence, body, *now),
            Event::Stored => self.stored(),
            Event::StoredTo { length, ordinal } => self.stored_to(*length, *ordinal),
            Event::Progress => self.progress(),
            Event::Subscribe {
                subscription,
                kind,
                level,
                flow,
                ack_timeout,
                nack_delay,
                max_redeliver,
                dead_topic,
                initial,
                ranges,
            } => self.subscribe(
                subscription,
                *kind,
                Terms {
                    level: *level,
                    flow: *flow,
                    ack_timeout: *ack_timeout,
                    nack_delay: *nack_delay,
                    max_redeliver: *max_redeliver,
                },
                dead_topic,
                *initial,
                ranges,
            ),
            Event::Leave { consumer } => self.leave(*consumer),
            Event::Permit { consumer, permits } => self.permit(*consumer, *permits),
            Event::Ack { consumer, position } => self.ack(*consumer, *position),
            Event::AckUpTo { consumer, position } => self.ack_up_to(*consumer, *position),
            Event::Nack {
                consumer,
                position,
                now,
            } => self.nack(*consumer, *position, *now),
            Event::Tick { subscription, now } => self.tick(subscription, *now),
            Event::Seek {
                subscription,
                target,
            } => self.seek(subscription, *target),
            Event::SeekTime { subscription, time } => self.seek_time(subscription, *time),
            Event::Skip {
                subscription,
                count,
            } => self.skip(subscription, *count),
            Event::DropSubscription { subscription } => self.drop_subscription(subscription),
            Event::Stats { subscription } => self.stats(subscription),
            Event::Trim { keep, before, most } => self.trim(*keep, *before, *most),
            Event::SetRetention { retention } => self.set_retention(*retention),
            Event::Dispatch { subscription, now } => self.dispatch(subscription, *now),
            Event::Collect { consumer } => self.collect(*consumer),
            Event::DeadNext { subscription } => self.dead_next(subscription),
            Event::DeadDone {
                subscription,
                ordinal,
            } => self.dead_done(subscription, *ordinal),
        }
    }

    fn out_copy(&self, consumer: ConsumerNumber) -> Result<Deliveries, Fault> {
        self.out_of(consumer)
    }

    fn retention(&self) -> Option<Retention> {
        self.retention
    }
}
