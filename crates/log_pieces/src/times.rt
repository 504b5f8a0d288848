// Which messages are earlier than a time.
ghost use Rattle.std.specs.Prelude.{◌≡◌, ◌≤◌, length};
ghost use Rattle.std.specs.List.{position, position_or_len};
ghost use Rattle.log_pieces.specs.Times.{is_from, moment_after};

use position_core::{Message, Moment};

/// The first moment after the times of all messages.
pub(crate) fn moment_after(messages: &[Message]) -> u64
    ensures { result ≡ moment_after 0 messages.now }
{
    let mut moment = 0;
    for message in messages {
        moment = moment.max(message.entry().time.millis() + 1);
    }
    moment
}

fn found_from(messages: &[Message], time: Moment) -> Option<usize>
    ensures { result ≡ position (is_from time) messages.now }
{
    messages
        .iter()
        .position(|message| time.millis() <= message.entry().time.millis())
}

/// How many messages stand before the first that is not earlier than the time.
pub(crate) fn count_earlier(messages: &[Message], time: Moment) -> usize
    ensures value { result ≡ position_or_len (is_from time) messages.now }
    ensures within { result ≤ length messages.now }
{
    match found_from(messages, time) {
        Some(place) => place,
        None => messages.len(),
    }
}
