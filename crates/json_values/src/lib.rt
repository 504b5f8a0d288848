//! Values in texts of JSON: strings, numbers, moments and bytes as they are written, and what an object's fields say.
#![tactic(auto)]

mod bytes;
mod fields;
mod laws;
mod numbers;
mod objects;
mod properties;
mod quoting;
mod times;

pub use bytes::bytes_of;
pub use fields::{pairs_in, word};
pub use laws::payloads_are_base64;
pub use numbers::push_decimal;
pub use objects::{object_of, text_at, whole_at};
pub use properties::{append_properties, properties_in, room_for_properties};
pub use quoting::{push_quoted, room_for};
pub use times::push_time;
