// The numbers of topics for Prometheus.
use crate::sample::{Head, Value, push_end, push_start};
use crate::seen::TopicSeen;
use std::alloc::AllocError;

/// A number of a topic.
#[derive(Clone, Copy, Debug, PartialEq, Eq)]
enum OfTopic {
    Resting,
    Kept,
    Durable,
    Gone,
    Room,
    Producers,
    Sessions,
    Journal,
    Published,
    Duplicates,
    Refused,
}

const ALL: [OfTopic; 11] = [
    OfTopic::Resting,
    OfTopic::Kept,
    OfTopic::Durable,
    OfTopic::Gone,
    OfTopic::Room,
    OfTopic::Producers,
    OfTopic::Sessions,
    OfTopic::Journal,
    OfTopic::Published,
    OfTopic::Duplicates,
    OfTopic::Refused,
];

impl OfTopic {
    fn of(self, topic: &TopicSeen) -> u64 {
        match self {
            OfTopic::Resting => u64::from(topic.is_resting),
            OfTopic::Kept => topic.kept,
            OfTopic::Durable => topic.kept_durable(),
            OfTopic::Gone => topic.gone,
            OfTopic::Room => topic.room(),
            OfTopic::Producers => topic.producers,
            OfTopic::Sessions => topic.sessions.len() as u64,
            OfTopic::Journal => topic.journal,
            OfTopic::Published => topic.published,
            OfTopic::Duplicates => topic.duplicates,
            OfTopic::Refused => topic.refused,
        }
    }

    fn head(self) -> Head {
        match self {
            OfTopic::Resting => Head::gauge(
                "topic_is_resting",
                "1 while nobody uses the topic and it is out of memory, else 0.",
            ),
            OfTopic::Kept => Head::gauge("topic_messages", "Messages that the topic keeps."),
            OfTopic::Durable => Head::gauge(
                "topic_durable_messages",
                "Messages that the topic keeps and that are stored.",
            ),
            OfTopic::Gone => Head::counter(
                "topic_trimmed_messages_total",
                "Messages that have gone since the topic was made.",
            ),
            OfTopic::Room => Head::gauge(
                "topic_room_messages",
                "Messages that the topic has room for still.",
            ),
            OfTopic::Producers => Head::gauge("topic_producers", "Producers that are connected."),
            OfTopic::Sessions => Head::gauge("topic_sessions", "Sessions that are connected."),
            OfTopic::Journal => Head::gauge(
                "topic_journal_lines",
                "Events that the topic has in memory beside its messages.",
            ),
            OfTopic::Published => {
                Head::counter("topic_published_total", "Publishes that were taken.")
            }
            OfTopic::Duplicates => Head::counter(
                "topic_duplicates_total",
                "Publishes whose sequence number was known already.",
            ),
            OfTopic::Refused => {
                Head::counter("topic_refused_total", "Requests that the topic refused.")
            }
        }
    }

    fn push(self, out: &mut String, topics: &[TopicSeen]) -> Result<(), AllocError> {
        let head = self.head();
        head.push(out)?;
        for topic in topics {
            push_start(out, &head, topic.name.as_str())?;
            push_end(out, Value::Count(self.of(topic)))?;
        }
        Ok(())
    }
}

/// Appends how many bytes the messages of each topic have that counts them; nothing where none does.
fn push_bytes(out: &mut String, topics: &[TopicSeen]) -> Result<(), AllocError> {
    if topics.iter().all(|topic| topic.bytes.is_none()) {
        return Ok(());
    }
    let head = Head::gauge(
        "topic_bytes",
        "Bytes of the messages that the topic keeps, where a topic may have no more than so many.",
    );
    head.push(out)?;
    for topic in topics {
        if let Some(bytes) = topic.bytes {
            push_start(out, &head, topic.name.as_str())?;
            push_end(out, Value::Count(bytes))?;
        }
    }
    Ok(())
}

/// Appends all numbers of all topics.
pub(crate) fn push_topics(out: &mut String, topics: &[TopicSeen]) -> Result<(), AllocError> {
    for number in ALL.iter() {
        number.push(out, topics)?;
    }
    push_bytes(out, topics)
}
