//! The fast topic's events of producers and the log: connecting, leaving, publishing, storing, trimming.
#![tactic(auto)]

mod connecting;
mod publishing;
mod storing;
mod trimming;

pub use connecting::{add_producer, drop_producer};
pub use publishing::publish;
pub use storing::{progress, stored, stored_to};
pub use trimming::{set_retention, trim};
