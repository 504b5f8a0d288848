//! Values of a text of JSON, looked at as they pass: no tree is made, and a text without escapes is lent and not copied.
#![tactic(auto)]

mod glances;
mod numbers;
mod objects;
mod shallow;

pub use glances::{Glance, pass_value};
pub use objects::{MOST_DEPTH, open_object};
pub use shallow::read_shallow;
