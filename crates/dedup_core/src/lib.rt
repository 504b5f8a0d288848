//! The last sequence number of each producer's name, by which duplicates are told, and whom a topic remembers of the
//! messages that are gone.
#![tactic(auto)]

mod authors;
mod name_key;
mod sequences;
mod table;

pub use authors::remember;
pub use sequences::Sequences;
pub use table::LastNumber;
