//! Which consumer of a Key_Shared subscription has which hashes.
#![tactic(auto)]

mod blocks;
mod by_kind;
mod ends;
mod row;
mod share;
mod split_table;
mod sticky;

pub use position_core::Block;
pub use split_table::SplitTable;
