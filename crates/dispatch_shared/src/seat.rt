// A member in line, and who goes first.
ghost use Rattle.std.specs.Prelude.{◌≡◌};
ghost use Rattle.dispatch_shared.specs.Turn.{goes_first, pair_of};
ghost use Rattle.dispatch_shared.specs.Seats.{seat_pair};

use dispatch_core::{Seen, is_sooner};
use position_core::{ConsumerNumber, Level};

/// A member, as it joined.
#[derive(Clone, Copy, Debug, PartialEq, Eq)]
pub(crate) struct Seat {
    pub(crate) consumer: ConsumerNumber,
    pub(crate) level: Level,
}

impl Seat {
    pub(crate) fn of(seen: &Seen) -> Self
        ensures { seat_pair result ≡ pair_of seen.now }
    {
        Seat {
            consumer: seen.consumer,
            level: seen.level,
        }
    }
}

/// By level, and then in turn.
pub(crate) fn goes_first(last: u64, seat: Seat, other: Seat) -> bool
    ensures { result ≡ goes_first last (seat_pair seat) (seat_pair other) }
{
    let level = seat.level.get();
    let their_level = other.level.get();
    level < their_level || (level == their_level && is_sooner(last, seat.consumer, other.consumer))
}
