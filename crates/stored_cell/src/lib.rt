//! A topic with its journal, and with what of it is stored: what it calls durable stands in rows that were
//! committed.
#![tactic(auto)]

mod bases;
mod cell;
mod confirming;
pub mod deleting;
pub mod kept;
pub mod notes;
pub mod opening;
pub mod part;
mod saving;
mod viewed;

pub use bases::Bases;
pub use cell::StoredCell;
pub use deleting::Deletion;
pub use kept::Kept;
pub use notes::{Note, Notes};
pub use opening::{Loaded, Terms, opened_cell, restarted_cell};
pub use part::Part;
