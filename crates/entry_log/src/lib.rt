//! The log of a topic: its messages in the order of their positions, and the position of the next one.
#![tactic(auto)]

mod entry_log;
mod open_ledger;

pub use entry_log::EntryLog;
