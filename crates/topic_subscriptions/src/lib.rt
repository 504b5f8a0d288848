//! The subscriptions of the fast topic, by places in the log.
#![tactic(auto)]

mod closed;
mod keeping;
mod kinds;
mod less;
mod messages;
mod sought;
mod subscription;
mod subscriptions;
mod trimming;

pub use sought::Sought;
pub use subscription::Subscription;
pub use subscriptions::{place_for, place_of_subscription};
pub use trimming::trim_each;
