//! The pending messages of a subscription, with their redelivery counts, and which of them is due first.
#![tactic(auto)]

mod counts;
mod due;
mod kept;
mod node;
mod pending_map;
mod row;
mod seated;
mod seats;
mod table;
mod tree;

pub use due::{Due, Slot};
pub use pending_map::{PendingMap, counted_and_released};
pub use tree::DueTree;
