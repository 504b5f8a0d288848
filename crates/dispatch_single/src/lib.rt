//! The dispatcher of Exclusive and Failover subscriptions: messages in topic order, to one member.
#![tactic(auto)]

mod active;
mod line;
mod single;

pub use single::Single;
