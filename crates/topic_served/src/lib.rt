//! The fast topic's parts, each subscription with its dispatcher, of whichever kind, and small changes that dispatchers are
//! told of. In `proofs/` is what each change of a topic means to those that are told of it and those that are not.
#![tactic(auto)]

mod acknowledging;
mod dispatch;
mod looking;
mod seeking;
mod served;
mod trimming;

pub use dispatch::Dispatch;
pub use served::Served;
