//! The fast topic's parts under one roof: the machine's state that they stand for, and what a dispatcher sees of
//! them.
#![tactic(auto)]

mod acknowledging;
mod at;
mod burying;
mod finding;
mod holding;
mod parts;
mod seeking;
mod trimming;

pub use at::At;
pub use parts::Parts;
pub use seeking::places_of;
