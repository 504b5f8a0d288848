// What of the log a seek or a skip leaves behind.
ghost use Rattle.std.specs.Prelude.{◌≡◌, ◌≤◌, IfOk, length, nat_le};
ghost use Rattle.std.specs.List.{position, position_or_len};
ghost use Rattle.delivery_machine.specs.Words.{has_position};
ghost use Rattle.delivery_machine.specs.Seeking.{first_live_in};

use plain_lists::Subscription;
use position_core::{Message, Moment, Position};
use std::alloc::{AllocError, Global};

fn found_at(log: &[Message], sought: Position) -> Option<usize>
    ensures { result ≡ position (has_position sought) log.now }
{
    log.iter().position(|message| message.position() == sought)
}

/// How many messages of the log stand before the position: all, where it has no such position.
pub fn count_before(log: &[Message], sought: Position) -> usize
    ensures value { result ≡ position_or_len (has_position sought) log.now }
    ensures within { result ≤ length log.now }
{
    match found_at(log, sought) {
        Some(index) => index,
        None => log.len(),
    }
}

fn found_from(visible: &[Message], time: Moment) -> Option<usize>
    ensures { result ≡ position (λ e. nat_le time e.time) visible.now }
{
    visible
        .iter()
        .position(|message| time.millis() <= message.entry().time.millis())
}

/// How many messages stand before the first that is not earlier than the moment.
pub fn count_earlier(visible: &[Message], time: Moment) -> usize
    ensures value { result ≡ position_or_len (λ e. nat_le time e.time) visible.now }
    ensures within { result ≤ length visible.now }
{
    match found_from(visible, time) {
        Some(index) => index,
        None => visible.len(),
    }
}

/// The positions of the first live messages: so many, or all where there are fewer.
pub fn first_live(
    alloc: Global,
    visible: &[Message],
    subscription: &Subscription,
    count: u32,
) -> Result<Vec<Position>, AllocError>
    ensures { IfOk result (λ positions. positions.items ≡ first_live_in visible.now subscription.now count) }
{
    let mut positions = Vec::new(alloc);
    for message in visible {
        if positions.len() < count as usize && subscription.is_live(message) {
            positions.push(message.position())?;
        }
    }
    Ok(positions)
}
