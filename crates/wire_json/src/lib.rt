//! The texts of the WebSocket API: what producers, consumers and administrators send, and what they are answered and sent.
#![tactic(auto)]

mod admin_values;
mod admins;
mod answers;
mod command_fields;
mod commands;
mod deliveries;
mod laws;
mod peeks;
mod publish_fields;
mod publishes;
mod statistics;

pub use admin_values::PeekLength;
pub use admins::{AdminCommand, read_admin};
pub use answers::{SendError, error_text, ok_text};
pub use commands::{Command, read_command};
pub use deliveries::delivery_text;
pub use laws::{
    admins_read_back, deliveries_read_back, errors_read_back, ids_are_read, oks_read_back,
};
pub use peeks::peek_text;
pub use publishes::{PublishReading, read_publish};
pub use statistics::{admin_text, end_of_topic_text};
