//! The fast topic's events of messages: acknowledging; and the statistics of a subscription.
#![tactic(auto)]

mod acknowledging;
mod statistics;

pub use acknowledging::{ack, ack_up_to};
pub use statistics::stats;
