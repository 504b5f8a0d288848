//! Connections, handed to the workers that take them, in the order in which they came.
#![tactic(auto)]

mod queue;
mod view;

pub use queue::{Handover, Taker};
pub use view::Numbered;
