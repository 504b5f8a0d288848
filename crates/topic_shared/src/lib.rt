//! A topic under one lock, with seats and a journal of what it was asked and answered.
#![tactic(auto)]

mod answering;
mod call;
mod cell;
mod closing;
mod inside;
mod journal;
pub mod laws;
mod limits;
mod line;
mod receipt;
mod room;
mod seat;
mod seats;
mod shared;
mod short;
mod short_reply;
mod storing;

pub use cell::Cell;
pub use journal::Journal;
pub use limits::{LineLimit, SeatCount};
pub use line::{Draft, Line};
pub use receipt::Receipt;
pub use seat::{Opening, Seat};
pub use shared::SharedTopic;
