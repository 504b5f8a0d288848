// A place as it is kept: as much higher as places were forgotten.
ghost use Rattle.std.specs.Prelude.{◌≡◌, ◌+◌, ◌-◌, ◌^◌, ◌<◌};

use position_core::LogIndex;

/// It has more bits than a place in the log, so that the sum of two places is never too great.
pub(crate) type Place = u128;

/// Where the place is kept.
pub(crate) fn raised(base: LogIndex, place: LogIndex) -> Place
    ensures { result ≡ base + place }
{
    Place::from(base) + Place::from(place)
}

/// The place that is kept there.
pub(crate) fn lowered(base: LogIndex, place: Place) -> LogIndex
    requires { place < base + 2 ^ 64 }
    ensures { result ≡ place - base }
{
    place.saturating_sub(Place::from(base)) as LogIndex
}
