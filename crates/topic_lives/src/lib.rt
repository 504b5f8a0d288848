//! A topic over its lives: what is left of one that is deleted, and what holds over restarts and deletions.
#![tactic(auto)]

mod deleting;
mod laws;

pub use deleting::{emptied, is_bare};
pub use laws::{
    acknowledged_stays, acknowledged_stays_example, deletions_keep_numbers,
    deletions_keep_numbers_example, positions_are_not_given_again,
};
