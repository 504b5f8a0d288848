//! The dispatcher of Shared subscriptions: messages in topic order, to the members in turn.
#![tactic(auto)]

mod seat;
mod shared;
mod turn;

pub use shared::Shared;
