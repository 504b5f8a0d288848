//! The fast topic: a topic whose events cost what they change, and not what its log holds.
#![tactic(auto)]

mod answering;
mod restoring;
mod saving;
mod topic;
mod watching;

pub use topic::TopicCore;
