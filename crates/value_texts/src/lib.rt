//! The texts of values: message ids, numbers, ranges of hashes and topics' names.
#![tactic(auto)]

mod decimals;
mod id;
mod ranges_text;
mod topic_name;

pub use decimals::decimal_in;
pub use id::{append_id, id_text, read_id};
pub use ranges_text::{LeadingZeros, read_ranges};
pub use topic_name::read_topic_name;
