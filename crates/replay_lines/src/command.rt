// The words that a line may begin with.
ghost use Rattle.std.specs.Prelude.{◌≡◌};
ghost use Rattle.replay_lines.specs.Reads.{ReadsAtOnce};
ghost use Rattle.replay_lines.specs.Grammar.{command_text};

use crate::words::Unread;

/// What the first word of a line asks for.
#[derive(Clone, Copy)]
pub enum Command {
    Producer,
    DropProducer,
    Publish,
    Stored,
    Progress,
    Subscribe,
    Leave,
    Permit,
    Ack,
    AckUpTo,
    Nack,
    Tick,
    Seek,
    SeekTime,
    Skip,
    DropSubscription,
    Stats,
    Dispatch,
    Collect,
    DeadNext,
    DeadDone,
    Trim,
    Restart,
}

/// Each command, in the order in which they are tried.
const ALL: [Command; 23] = [
    Command::Producer,
    Command::DropProducer,
    Command::Publish,
    Command::Stored,
    Command::Progress,
    Command::Subscribe,
    Command::Leave,
    Command::Permit,
    Command::Ack,
    Command::AckUpTo,
    Command::Nack,
    Command::Tick,
    Command::Seek,
    Command::SeekTime,
    Command::Skip,
    Command::DropSubscription,
    Command::Stats,
    Command::Dispatch,
    Command::Collect,
    Command::DeadNext,
    Command::DeadDone,
    Command::Trim,
    Command::Restart,
];

impl Command {
    ghost use Rattle.replay_lines.specs.Grammar.{command_text};

    fn text(self) -> &'static [u8]
        ensures { result.now ≡ command_text self }
    {
        match self {
            Command::Producer => b"producer",
            Command::DropProducer => b"drop",
            Command::Publish => b"publish",
            Command::Stored => b"stored",
            Command::Progress => b"progress",
            Command::Subscribe => b"subscribe",
            Command::Leave => b"leave",
            Command::Permit => b"permit",
            Command::Ack => b"ack",
            Command::AckUpTo => b"ackupto",
            Command::Nack => b"nack",
            Command::Tick => b"tick",
            Command::Seek => b"seek",
            Command::SeekTime => b"seektime",
            Command::Skip => b"skip",
            Command::DropSubscription => b"dropsub",
            Command::Stats => b"stats",
            Command::Dispatch => b"dispatch",
            Command::Collect => b"collect",
            Command::DeadNext => b"deadnext",
            Command::DeadDone => b"deaddone",
            Command::Trim => b"trim",
            Command::Restart => b"restart",
        }
    }
}

pub fn read_command(word: &[u8]) -> Result<Command, Unread>
    ensures { ReadsAtOnce (λ command. word.now ≡ command_text command) result }
{
    for command in ALL {
        if command.text() == word {
            return Ok(command);
        }
    }
    Err(Unread::BadLine)
}
