// What is known of a pending message.
use crate::numbers::{ConsumerNumber, DueMoment};

/// At whom a message is pending, and from when on it may be released: in milliseconds since 1970,
/// possibly past the last moment; none for never.
#[derive(Clone, Copy, Debug, PartialEq, Eq)]
pub struct Held {
    pub consumer: ConsumerNumber,
    pub due: Option<DueMoment>,
}
