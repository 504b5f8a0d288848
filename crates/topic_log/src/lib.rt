//! The log of a topic, and who may write to it.
#![tactic(auto)]

mod authors;
mod connecting;
mod names;
mod producer;
mod publishing;
mod restoring;
mod topic_log;
mod trimming;

pub use producer::{Producer, drop_producer, is_connected, producer_at};
pub use topic_log::TopicLog;
pub use trimming::Remembered;
