// A run of messages that several logs may share.
ghost use Rattle.std.specs.Prelude.{◌≡◌, ◌+◌, ◌≤◌, IfOk, drop, length, slice_get};
ghost use Rattle.std.specs.List.{position_or_len};
ghost use Rattle.std.specs.Option.{option_copied};
ghost use Rattle.log_pieces.specs.Times.{is_from, moment_after};

use crate::times;
use position_core::{Message, Moment};
use std::alloc::{AllocError, Global};
use std::marker::Model;
use std::sync::Arc;

pub(crate) fn message_at(messages: &[Message], place: usize) -> Option<&Message>
    ensures { option_copied result ≡ slice_get messages.now place }
{
    messages.get(place)
}

fn messages_from(messages: &[Message], from: usize) -> &[Message]
    requires { from ≤ length messages.now }
    ensures { result.now ≡ drop from messages.now }
{
    &messages[from..]
}

fn shared(messages: &Vec<Message>) -> Result<Vec<Message>, AllocError>
    ensures { IfOk result (λ copy. copy.items ≡ messages.now.items) }
{
    messages.clone()
}

/// Messages that do not change any more. A clone is one more owner of the same messages.
#[derive(Drop)]
pub(crate) struct Segment {
    messages: Arc<Vec<Message>>,
}

impl Model for Segment {
    ghost use Rattle.std.specs.Prelude.{List};
    ghost use Rattle.position_core.specs.declared.message.Entry.{Entry};

    ghost Value = { List Entry };

    ghost view = { λ s. s.messages.value.items };
}

impl Segment {
    pub(crate) fn new(alloc: Global, messages: Vec<Message>) -> Result<Self, AllocError>
        ensures { IfOk result (λ segment. segment ≡ messages.items) }
    {
        Ok(Segment {
            messages: Arc::new(alloc, messages)?,
        })
    }

    /// Shares the messages.
    pub(crate) fn of(alloc: Global, messages: &Vec<Message>) -> Result<Self, AllocError>
        ensures { IfOk result (λ segment. segment ≡ messages.now.items) }
    {
        Segment::new(alloc, shared(messages)?)
    }

    pub(crate) fn get(&self, place: usize) -> Option<&Message>
        ensures { option_copied result ≡ slice_get self.now place }
    {
        message_at(&self.messages, place)
    }

    pub(crate) fn messages(&self) -> &[Message]
        ensures { result.now ≡ self.now }
    {
        &self.messages
    }

    /// The first moment after the times of all messages.
    pub(crate) fn moment_after(&self) -> u64
        ensures { result ≡ moment_after 0 self.now }
    {
        times::moment_after(&self.messages)
    }

    /// How many messages from the place on stand before the first of them that is not earlier than the time.
    pub(crate) fn count_earlier(&self, from: usize, time: Moment) -> usize
        requires { from ≤ length self.now }
        ensures value { result ≡ position_or_len (is_from time) (drop from self.now) }
        ensures within { from + result ≤ length self.now }
    {
        times::count_earlier(messages_from(&self.messages, from), time)
    }
}

impl Clone for Segment {
    ghost is_clone = { λ segment copy. copy ≡ segment };

    fn clone(&self) -> Result<Self, AllocError> {
        Ok(Segment {
            messages: Arc::try_clone(&self.messages)?,
        })
    }
}
