// How a topic is loaded.

/// How a topic is loaded.
#[derive(Clone, Copy, Debug, PartialEq, Eq)]
pub enum Pace {
    /// Where its messages are fewer than one piece has; nothing is kept of one that has more.
    AtOnce,
    /// A piece at each call, which goes on where the last one of this topic ended.
    Pieces,
}
