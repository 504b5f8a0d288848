//! The fast topic's events of deliveries.
#![tactic(auto)]

mod dispatching;
mod moving;
mod nacking;
mod sending;

pub use dispatching::dispatch;
pub use moving::{dead_done, dead_next};
pub use nacking::nack;
