//! The plain topic: the delivery machine over lists, where everything is found by looking through them.
#![tactic(auto)]

mod acknowledging;
mod applying;
mod delivering;
mod dying;
mod joining;
mod leaving;
mod lists;
mod permitting;
mod plain;
mod producing;
mod saving;
mod seeking;
mod statistics;
mod taking_over;
mod ticking;
mod trimming;

pub use plain::PlainTopic;
