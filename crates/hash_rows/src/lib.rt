//! The messages of one hash of a Key_Shared subscription: which of them wait, and which are pending.
#![tactic(auto)]

mod asking;
mod changing;
mod row;
mod shedding;

pub use row::Row;
