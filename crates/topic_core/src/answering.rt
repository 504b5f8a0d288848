// Each event, answered by its own function.
ghost use Rattle.delivery_machine.specs.Run.{Answers};
ghost use Rattle.topic_served.specs.Served.{IsBound, IsSettled, state_in};

use delivery_events::{dead_done, dead_next, dispatch, nack};
use delivery_machine::{Event, Reply};
use log_events::{
    add_producer, drop_producer, progress, publish, set_retention, stored, stored_to, trim,
};
use member_events::{collect, leave, permit, subscribe};
use message_events::{ack, ack_up_to, stats};
use seek_events::{drop_subscription, seek, seek_time, skip};
use tick_events::tick;
use topic_members::Terms;
use topic_served::Served;

/// Answers one event by the machine's rules.
pub(crate) fn answer(served: &mut Served, event: &Event) -> Reply
    requires { IsSettled served.old }
    ensures answers { Answers (state_in served.old) event.now result (state_in served.new) }
    ensures bound { IsBound served.new }
{
    match event {
        Event::AddProducer { name, base } => add_producer(served, name, *base),
        Event::DropProducer { producer } => drop_producer(served, *producer),
        Event::Publish {
            producer,
            sequence,
            body,
            now,
        } => publish(served, *producer, *sequence, body, *now),
        Event::Stored => stored(served),
        Event::StoredTo { length, ordinal } => stored_to(served, *length, *ordinal),
        Event::Progress => progress(served),
        Event::Trim { keep, before, most } => trim(served, *keep, *before, *most),
        Event::SetRetention { retention } => set_retention(served, *retention),
        Event::Subscribe {
            subscription,
            kind,
            level,
            flow,
            ack_timeout,
            nack_delay,
            max_redeliver,
            dead_topic,
            initial,
            ranges,
        } => subscribe(
            served,
            subscription,
            *kind,
            Terms {
                level: *level,
                flow: *flow,
                ack_timeout: *ack_timeout,
                nack_delay: *nack_delay,
                max_redeliver: *max_redeliver,
            },
            dead_topic,
            *initial,
            ranges,
        ),
        Event::Leave { consumer } => leave(served, *consumer),
        Event::Permit { consumer, permits } => permit(served, *consumer, *permits),
        Event::Ack { consumer, position } => ack(served, *consumer, *position),
        Event::AckUpTo { consumer, position } => ack_up_to(served, *consumer, *position),
        Event::Nack {
            consumer,
            position,
            now,
        } => nack(served, *consumer, *position, *now),
        Event::Tick { subscription, now } => tick(served, subscription, *now),
        Event::Seek {
            subscription,
            target,
        } => seek(served, subscription, *target),
        Event::SeekTime { subscription, time } => seek_time(served, subscription, *time),
        Event::Skip {
            subscription,
            count,
        } => skip(served, subscription, *count),
        Event::DropSubscription { subscription } => drop_subscription(served, subscription),
        Event::Stats { subscription } => stats(served, subscription),
        Event::Dispatch { subscription, now } => dispatch(served, subscription, *now),
        Event::Collect { consumer } => collect(served, *consumer),
        Event::DeadNext { subscription } => dead_next(served, subscription),
        Event::DeadDone {
            subscription,
            ordinal,
        } => dead_done(served, subscription, *ordinal),
    }
}
