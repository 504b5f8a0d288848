//! The acknowledged messages of a subscription: a set of places in the log, kept as ranges.
#![tactic(auto)]

mod ack_set;
mod counting;
mod joining;
mod lookup;
mod place;
mod ranges;
mod spans;
mod swallowing;

pub use ack_set::AckSet;
pub use ranges::Ranges;
