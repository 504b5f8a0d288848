//! The fast topic's clock: a tick releases what is due in a subscription, or lets it die.
#![tactic(auto)]

mod dying;
mod rewinding;
mod ticking;

pub use ticking::tick;
