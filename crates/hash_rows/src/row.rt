// The row of one hash.
ghost use Rattle.std.specs.Prelude.{◌≤◌, vec_len};
ghost use Rattle.hash_rows.specs.Ranks.{Rises, AreRanksOf};

use number_sets::PlaceBits;
use position_core::{ConsumerNumber, LogIndex};

/// The messages of one hash, in the order of the log, by numbers that stay as they are when the front of
/// the log goes: the index in the log and `base`, which is how many messages went till now. Each call but
/// `shed` takes the logarithm of their number, and only `push` takes memory.
pub struct Row {
    pub(crate) places: Vec<LogIndex>,
    /// The ranks, among the places, of those that wait.
    pub(crate) waiting: PlaceBits,
    /// The ranks of those that are pending.
    pub(crate) held: PlaceBits,
    /// The consumer at which all that are pending are, where it is known that they are at one.
    pub(crate) keeper: Option<ConsumerNumber>,
    ghost rises: { Rises places.items },
    ghost waiting_room: { vec_len places ≤ waiting.room },
    ghost held_room: { vec_len places ≤ held.room },
    ghost waiting_ranks: { AreRanksOf places.items waiting.places },
    ghost held_ranks: { AreRanksOf places.items held.places },
}

impl Drop for Row {
    fn drop(self) {
        let Row {
            places: _,
            waiting: _,
            held: _,
            keeper: _,
        } = self;
    }
}
