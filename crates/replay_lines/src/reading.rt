// A line to what it stands for.
ghost use Rattle.replay_lines.specs.Reads.{Reads};
ghost use Rattle.replay_lines.specs.Splitting.{words_of};
ghost use Rattle.replay_lines.specs.Grammar.{Complete, EachLineIsOne, IsLine, StandFor};

use crate::command::{Command, read_command};
use crate::delivering::{
    read_ack, read_ack_up_to, read_collect, read_dispatch, read_nack, read_tick,
};
use crate::dying::{read_dead_done, read_dead_next};
use crate::joining::{read_leave, read_permit, read_subscribe};
use crate::producing::{
    read_drop_producer, read_producer, read_progress, read_publish, read_restart, read_stored,
    read_trim,
};
use crate::seeking::{read_drop_subscription, read_seek, read_seek_time, read_skip, read_stats};
use crate::words::{Unread, Words};
use delivery_machine::Event;
use position_core::TopicName;
use std::alloc::Global;

/// How many bytes a line may have. No line of an event needs more.
pub const LONGEST_LINE: usize = 1_500_000;

/// What a good line stands for.
#[derive(Drop)]
pub enum Line {
    Event(Event),
    /// The topic goes on from what is stored of it.
    Restart,
    /// Its id is none, and no event comes of it.
    BadId,
}

/// Reads the words that follow the command.
fn read_rest(
    alloc: Global,
    this: &TopicName,
    command: Command,
    words: Words<'_>,
) -> Result<Line, Unread>
    ensures { Reads (Complete this.now command words.entry) result }
{
    match command {
        Command::Producer => read_producer(alloc, words),
        Command::DropProducer => read_drop_producer(words),
        Command::Publish => read_publish(alloc, words),
        Command::Stored => read_stored(words),
        Command::Progress => read_progress(words),
        Command::Subscribe => read_subscribe(alloc, this, words),
        Command::Leave => read_leave(words),
        Command::Permit => read_permit(words),
        Command::Ack => read_ack(words),
        Command::AckUpTo => read_ack_up_to(words),
        Command::Nack => read_nack(words),
        Command::Tick => read_tick(alloc, words),
        Command::Seek => read_seek(alloc, words),
        Command::SeekTime => read_seek_time(alloc, words),
        Command::Skip => read_skip(alloc, words),
        Command::DropSubscription => read_drop_subscription(alloc, words),
        Command::Stats => read_stats(alloc, words),
        Command::Dispatch => read_dispatch(alloc, words),
        Command::Collect => read_collect(words),
        Command::DeadNext => read_dead_next(alloc, words),
        Command::DeadDone => read_dead_done(alloc, words),
        Command::Trim => read_trim(words),
        Command::Restart => read_restart(words),
    }
}

fn read_words(alloc: Global, this: &TopicName, mut words: Words<'_>) -> Result<Line, Unread>
    ensures { Reads (StandFor this.now words.entry) result }
{
    let command = read_command(words.take()?)?;
    read_rest(alloc, this, command, words)
}

/// Reads a line, without its end. `this` is the topic that is replayed.
pub fn read_line(alloc: Global, this: &TopicName, line: &[u8]) -> Result<Line, Unread>
    ensures { Reads (IsLine this.now line.now) result }
{
    if line.len() > LONGEST_LINE {
        return Err(Unread::BadLine);
    }
    read_words(alloc, this, Words::of(line))
}

/// A line stands for at most one thing.
pub fn each_line_is_one()
    ensures { EachLineIsOne }
{}
