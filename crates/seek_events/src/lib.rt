//! The fast topic's events that move a subscription, or drop it.
#![tactic(auto)]

mod dropping;
mod seeking;
mod seeking_time;
mod skipping;

pub use dropping::drop_subscription;
pub use seeking::seek;
pub use seeking_time::seek_time;
pub use skipping::skip;
