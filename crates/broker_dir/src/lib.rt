//! The directory of a broker: its topics by name, who sits at them, and how they come to be stored.
#![tactic(auto)]

mod administering;
mod attached;
mod attaching;
mod broker;
mod closing;
mod deleting;
mod directory;
mod errand;
mod expiring;
mod inside;
mod leaving;
mod named_cell;
mod opening;
mod overview;
mod pieces;
mod resting;
mod seeing;
mod settling;
mod storing;
mod table;
mod topic;
mod trimming;
mod unloading;
mod watching;
mod weighing;
mod why;

pub use attached::Attached;
pub use directory::Directory;
pub use errand::Errands;
pub use row_store::Cause;
pub use stored_cell::Terms;
pub use why::Why;
