//! Snapshots of topics, read from their rows.
#![tactic(auto)]

mod ack_rows;
mod author_rows;
mod cells;
mod count_rows;
mod dead_rows;
mod entry_rows;
mod kept_subs;
pub mod laws;
mod log_reader;
mod places;
mod retention_rows;
mod snapshot;
mod sub_rows;
mod topic_row;

pub use log_reader::LogReader;
