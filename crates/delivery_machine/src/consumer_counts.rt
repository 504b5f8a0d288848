// What is seen of a consumer.

/// How far a consumer is.
#[derive(Clone, Copy, Debug, PartialEq, Eq)]
pub struct ConsumerCounts {
    /// Messages that were sent to it and neither acknowledged nor given back.
    pub pending: u64,
    /// How many messages more may be sent to it now: what is left of its window, or its credit.
    pub room: u64,
}
