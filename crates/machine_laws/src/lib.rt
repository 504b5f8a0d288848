//! The laws of the delivery machine, over every run, and the proofs that they stand on.
#![tactic(auto)]

mod laws;

pub use laws::{
    l1, l1_example, l2, l2_example, l3, l3_example, l4, l4_example, reached, reached_example,
    shares_are_sets, snapshots_are_sound, stored_is_stored_to, trims_lose_nothing,
    trims_lose_nothing_example,
};
