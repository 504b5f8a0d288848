//! What the lines of a replay stand for: one event a line, read word by word.
#![tactic(auto)]

mod command;
mod delivering;
mod dying;
mod joining;
mod names;
mod numbers;
mod payloads;
mod producing;
mod reading;
mod seeking;
mod splitting;
mod words;

pub use numbers::read_bounded;
pub use payloads::append_payload;
pub use reading::{LONGEST_LINE, Line, each_line_is_one, read_line};
pub use splitting::split;
pub use words::Unread;
