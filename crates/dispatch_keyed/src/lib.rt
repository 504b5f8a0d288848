//! The dispatcher of Key_Shared subscriptions: the messages of one hash to one member at a time.
#![tactic(auto)]

mod changing;
mod dispatching;
mod hashes;
mod keyed;
mod looking;
mod offering;
mod renewing;
mod resharing;
mod rows;
mod seats;
mod sticking;
mod sweeping;
mod table;
mod trimming;

pub use keyed::Keyed;
