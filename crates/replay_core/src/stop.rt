// What ends a replay early: a line, its reader, its writer or memory.
ghost use Rattle.std.specs.Prelude.{◌≡◌};
ghost use Rattle.replay_core.specs.Stops.{status_of};

use std::alloc::AllocError;

/// Why a replay ended before the end of its input.
#[derive(Clone, Copy, Debug, PartialEq, Eq)]
pub enum Stop {
    /// The line of this number, from 1 on, is no event.
    BadLine(u64),
    /// The reader answered an error, or does not end.
    Read,
    /// The writer answered an error, or took nothing.
    Write,
    /// A growth was refused outside an event.
    Memory,
}

impl From<AllocError> for Stop {
    ghost use Rattle.replay_core.specs.declared.stop.Stop.TheVariants.{Memory};

    ghost from_gives = { λ _ stop. stop ≡ Memory };

    fn from(_: AllocError) -> Stop {
        Stop::Memory
    }
}

/// The status with which a program ends after a replay.
pub fn status(outcome: &Result<(), Stop>) -> u8
    ensures { result ≡ status_of outcome.now }
{
    match outcome {
        Ok(()) => 0,
        Err(Stop::BadLine(_)) => 2,
        Err(Stop::Read | Stop::Write | Stop::Memory) => 1,
    }
}
