// The numbers of subscriptions for Prometheus.
use crate::overview::kind_name;
use crate::sample::{Head, Value, push_end, push_label, push_start};
use crate::seen::{SubscriptionSeen, TopicSeen};
use std::alloc::AllocError;

/// A number of a subscription.
#[derive(Clone, Copy, Debug, PartialEq, Eq)]
enum OfSubscription {
    Backlog,
    Waiting,
    Pending,
    Acknowledged,
    Dead,
    Consumers,
    Oldest,
    Delivered,
    Redelivered,
    Acknowledgements,
    Deaths,
}

const ALL: [OfSubscription; 11] = [
    OfSubscription::Backlog,
    OfSubscription::Waiting,
    OfSubscription::Pending,
    OfSubscription::Acknowledged,
    OfSubscription::Dead,
    OfSubscription::Consumers,
    OfSubscription::Oldest,
    OfSubscription::Delivered,
    OfSubscription::Redelivered,
    OfSubscription::Acknowledgements,
    OfSubscription::Deaths,
];

/// How long ago it was; 0 where it never was.
fn age(now: u64, then: Option<u64>) -> u64 {
    match then {
        Some(then) => now.saturating_sub(then),
        None => 0,
    }
}

impl OfSubscription {
    fn of(self, sub: &SubscriptionSeen, now: u64) -> Value {
        match self {
            OfSubscription::Backlog => Value::Count(sub.backlog()),
            OfSubscription::Waiting => Value::Count(sub.waiting),
            OfSubscription::Pending => Value::Count(sub.pending),
            OfSubscription::Acknowledged => Value::Count(sub.acknowledged),
            OfSubscription::Dead => Value::Count(sub.dead),
            OfSubscription::Consumers => Value::Count(sub.consumers),
            OfSubscription::Oldest => Value::Millis(age(now, sub.oldest)),
            OfSubscription::Delivered => Value::Count(sub.delivered),
            OfSubscription::Redelivered => Value::Count(sub.redelivered),
            OfSubscription::Acknowledgements => Value::Count(sub.acks),
            OfSubscription::Deaths => Value::Count(sub.deaths),
        }
    }

    fn head(self) -> Head {
        match self {
            OfSubscription::Backlog => Head::gauge(
                "subscription_backlog_messages",
                "Messages that wait or are at a consumer.",
            ),
            OfSubscription::Waiting => Head::gauge(
                "subscription_waiting_messages",
                "Messages that wait, and are at no consumer.",
            ),
            OfSubscription::Pending => Head::gauge(
                "subscription_pending_messages",
                "Messages that are at a consumer and not acknowledged.",
            ),
            OfSubscription::Acknowledged => Head::gauge(
                "subscription_acknowledged_messages",
                "Messages that are acknowledged and that the topic keeps.",
            ),
            OfSubscription::Dead => Head::gauge(
                "subscription_dead_letters",
                "Dead letters that are still to be moved.",
            ),
            OfSubscription::Consumers => {
                Head::gauge("subscription_consumers", "Consumers that are connected.")
            }
            OfSubscription::Oldest => Head::gauge(
                "subscription_oldest_message_age_seconds",
                "How long ago the first message was published that is not acknowledged.",
            ),
            OfSubscription::Delivered => Head::counter(
                "subscription_delivered_total",
                "Messages that were sent to a consumer, first or again.",
            ),
            OfSubscription::Redelivered => Head::counter(
                "subscription_redelivered_total",
                "Messages that were given back or not acknowledged in time.",
            ),
            OfSubscription::Acknowledgements => Head::counter(
                "subscription_acknowledgements_total",
                "Acknowledgements that were taken, one by one or up to a message.",
            ),
            OfSubscription::Deaths => Head::counter(
                "subscription_deaths_total",
                "Messages that became dead letters.",
            ),
        }
    }

    fn push(self, out: &mut String, topics: &[TopicSeen], now: u64) -> Result<(), AllocError> {
        let head = self.head();
        head.push(out)?;
        for topic in topics {
            self.push_those_of(out, &head, topic, now)?;
        }
        Ok(())
    }

    fn push_those_of(
        self,
        out: &mut String,
        head: &Head,
        topic: &TopicSeen,
        now: u64,
    ) -> Result<(), AllocError> {
        for sub in topic.subscriptions.iter() {
            push_start(out, head, topic.name.as_str())?;
            push_labels(out, sub)?;
            push_end(out, self.of(sub, now))?;
        }
        Ok(())
    }
}

fn push_labels(out: &mut String, sub: &SubscriptionSeen) -> Result<(), AllocError> {
    out.push_str(",subscription=\"")?;
    push_label(out, sub.name.as_str())?;
    out.push_str("\",kind=\"")?;
    out.push_str(kind_name(sub.kind))?;
    out.push_str("\"")
}

/// Appends for how long nobody has been in a subscription, of each of which that is known; nothing where it is of none.
fn push_unused(out: &mut String, topics: &[TopicSeen]) -> Result<(), AllocError> {
    let head = Head::gauge(
        "subscription_unused_seconds",
        "For how long nobody has been in the subscription, where that is known.",
    );
    let mut has_head = false;
    for topic in topics {
        for sub in topic.subscriptions.iter() {
            if let Some(unused) = sub.unused {
                if !has_head {
                    head.push(out)?;
                    has_head = true;
                }
                push_start(out, &head, topic.name.as_str())?;
                push_labels(out, sub)?;
                push_end(out, Value::Millis(unused))?;
            }
        }
    }
    Ok(())
}

/// Appends all numbers of all subscriptions, as they are at the moment.
pub(crate) fn push_subscriptions(
    out: &mut String,
    topics: &[TopicSeen],
    now: u64,
) -> Result<(), AllocError> {
    for number in ALL.iter() {
        number.push(out, topics, now)?;
    }
    push_unused(out, topics)
}
