//! Replays a topic: it reads one event a line and writes one reply a line.
#![tactic(auto)]

mod arguments;
mod asking;
mod engine;
mod names;
mod output;
mod plain;
mod printing;
mod stop;

pub use arguments::{Form, read_form, read_ledger_size};
pub use asking::{Unasked, asked_form, asked_ledger_size, replay_asked};
pub use engine::replay_over;
pub use plain::{replay, replay_fresh, replay_to_status};
pub use stop::{Stop, status};
