//! What a session makes of one text, of one reply, and of one answer: the parts of a turn that touch neither the connection
//! nor the topic.
#![tactic(auto)]

mod answer;
mod asking;
mod close;
mod context;
mod outcome;
mod overview;
mod party;
mod reading;
mod writing;

pub use answer::Answer;
pub use asking::Asking;
pub use close::{Close, reason};
pub use context::Context;
pub use outcome::{Outcome, answer_of_seen, outcome_of, own_close};
pub use overview::Overview;
pub use party::Party;
pub use reading::{number_after, read_text};
pub use writing::write_delivery;
