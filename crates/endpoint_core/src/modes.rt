// How long a consumer wants its subscription to stay.

/// What a consumer asks of its subscription (Pulsar's documentation, "Subscription modes").
#[derive(Clone, Copy, Debug, PartialEq, Eq)]
pub enum Mode {
    /// It stays when its consumers have gone.
    Durable,
    /// It goes with its last consumer, where no durable one was in it.
    NonDurable,
}
