//! How a database is opened; and the tables of each version: how a database gets them, how it is known which it has, and how
//! it comes to the last version.
#![tactic(auto)]

mod indexes;
mod later_tables;
mod looking;
mod making;
mod opening;
mod raising;
mod reopening;
mod tables;
mod upgrading;
mod version;

pub use looking::{has_no_schema, version_of};
pub use making::create;
pub use opening::{open, open_files, open_in_memory};
pub use reopening::{reopen, settle};
pub use upgrading::upgrade;
pub use version::Version;
