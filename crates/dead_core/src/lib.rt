//! The dead letters of a subscription, until each is published at its topic.
#![tactic(auto)]

mod dead_queue;

pub use dead_queue::DeadQueue;
pub use delivery_machine::DeadLetter;
