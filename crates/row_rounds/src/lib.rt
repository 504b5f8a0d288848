//! Rounds: the rows of topics are written in one transaction, and those of one topic beside its messages are read.
#![tactic(auto)]

mod clearing;
mod differences;
mod messages;
mod reading;
mod room;
mod runs;
mod saving;

pub use reading::read_sides;
pub use room::room_for;
pub use saving::{Write, save};
