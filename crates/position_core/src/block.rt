// A run of the hashes by which messages are shared out.
use crate::numbers::ConsumerNumber;

/// The hashes from `from` on, so many as `size` says, whose messages go to the consumer. Hashes are
/// 0 to 65,535.
#[derive(Clone, Copy, Debug, PartialEq, Eq)]
pub struct Block {
    pub from: u32,
    pub size: u32,
    pub consumer: ConsumerNumber,
}
