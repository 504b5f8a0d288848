// Values against tables from outside, and dispatchers; both topics, replays, and a topic under its lock.
mod both_topics;
mod replays;
mod scenes;
mod shared_topic;
mod values;
