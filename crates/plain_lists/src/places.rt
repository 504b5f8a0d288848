// The positions of a set by their places in the log, and back.
ghost use Rattle.std.specs.Prelude.{◌≡◌, IfOk, take};
ghost use Rattle.std.specs.FinSet as set;
ghost use Rattle.delivery_machine.specs.Places.{positions_at, positions_from};
ghost use Rattle.delivery_machine.specs.WellFormed.{AreMessagesOf};
ghost use Rattle.plain_lists.specs.Places.{ArePlacesOf};

use crate::positions::PositionSet;
use ack_ranges::AckSet;
use position_core::{Message, Position};
use std::alloc::{AllocError, Global};

/// The positions of the messages that stand at the places, in order.
pub(crate) fn positions_at(
    alloc: Global,
    log: &[Message],
    places: &AckSet,
) -> Result<Vec<Position>, AllocError>
    ensures { IfOk result (λ ps. ps.items ≡ positions_from 0 (set.contains places.now) log.now) }
{
    let mut positions = Vec::new(alloc);
    'each: for i in 0..log.len() {
        let position = log[i].position();
        if places.contains(i as u64) {
            positions.push(position)?;
        }
    }
    Ok(positions)
}

/// The places of the messages whose positions are in the set.
pub(crate) fn places_of(
    alloc: Global,
    log: &[Message],
    positions: &PositionSet,
) -> Result<AckSet, AllocError>
    ensures { IfOk result (λ places. ArePlacesOf log.now positions.now places) }
{
    let mut places = AckSet::new(alloc);
    'each: for i in 0..log.len() {
        let position = log[i].position();
        if positions.contains(position) {
            places.add(i as u64)?;
        }
    }
    Ok(places)
}
