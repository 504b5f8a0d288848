//! A database's file where there is none: with pages of 1,024 bytes, where the library would take 4,096. A commit writes whole pages,
//! so the smaller they are, the less it writes. A file that is there keeps its own.
#![tactic(auto)]

mod page;
mod preparing;

pub use page::{PAGE_SIZE, first_page};
pub use preparing::prepare;
