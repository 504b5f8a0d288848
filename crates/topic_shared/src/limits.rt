// Limits of a topic's journal and seats.
use position_core::Bounded;

/// How many lines a journal has at most.
pub type LineLimit = Bounded<1, 16_777_216>;

/// How many seats a topic has, beside its own.
pub type SeatCount = Bounded<1, 1_024>;
