//! The tables of topics: how they are made, and the calls that write and read the rows of one topic.
//! Each call on a transaction says what it makes of the tables where the disk returned what was written.
#![tactic(auto)]

pub mod acks;
pub mod authors;
pub mod counts;
pub mod deads;
pub mod entries;
mod numbers;
pub mod retentions;
mod side_rows;
pub mod subs;
pub mod topics;

pub use side_rows::SideRows;
