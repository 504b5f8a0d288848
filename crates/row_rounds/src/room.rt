// Room for what a round writes out, taken before it begins.
ghost use Rattle.std.specs.Prelude.{◌≤◌, ◌≡◌, length, drop, slice_get, All, IfSome, OnOk, string_capacity};
ghost use Rattle.log_pieces.specs.Pieces.{joined};
ghost use Rattle.row_rounds.specs.Rounds.{HasRoomFor, HasRoom};

use crate::saving::Write;
use json_values::room_for_properties;
use log_pieces::Pieces;
use std::alloc::AllocError;

fn room_at(log: &Pieces, place: usize) -> usize
    ensures { IfSome (slice_get (joined log.now) place) (HasRoomFor result) }
{
    match log.get(place) {
        Some(message) => room_for_properties(&message.entry().body.content().properties),
        None => 0,
    }
}

/// The most that the properties of one message take, from this place on.
fn most_from(log: &Pieces, from: usize) -> usize
    ensures { HasRoom result (drop from (joined log.now)) }
{
    let mut most = 0;
    for place in from..log.count() {
        most = room_at(log, place).max(most);
    }
    most
}

/// The most that the properties of one message take in a round.
fn most_in(writes: &[Write]) -> usize
    ensures { All (λ w. HasRoom result (drop w.change.from w.snapshot.log)) writes.now }
{
    let mut most = 0;
    for write in writes {
        most = most_from(write.snapshot.log(), write.change.from).max(most);
    }
    most
}

/// Takes room in `scratch` for the properties of each message that the round adds, one at a time, so that
/// `save` is not short of it once its transaction has begun.
pub fn room_for(writes: &[Write], scratch: &mut String) -> Result<(), AllocError>
    ensures { OnOk result (All (λ w. HasRoom (string_capacity scratch.new) (drop w.change.from w.snapshot.log)) writes.now) }
{
    let most = most_in(writes);
    scratch.clear();
    scratch.reserve(most)
}
