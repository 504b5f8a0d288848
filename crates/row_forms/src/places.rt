// Where a message stands among all that a topic had, in a log as it was and as it is.
ghost use Rattle.std.specs.Prelude.{◌≡◌, IsTrue};
ghost use Rattle.delivery_machine.specs.Places.{MayRestart};
ghost use Rattle.row_forms.specs.Forms.{index_in, span_of};
ghost use Rattle.row_forms.specs.Parts.{IsRising};
ghost use Rattle.row_forms.specs.Places.{number_of, seen};

use delivery_machine::Snapshot;
use log_pieces::Pieces;
use position_core::Position;

/// A place among all messages that a topic had: an index behind those that are gone.
#[derive(Clone, Copy)]
pub struct Place {
    pub gone: u64,
    pub index: u64,
}

impl Place {
    /// Whether both are one place: never where a place is beyond the numbers of 64 bits.
    pub(crate) fn is(self, other: Place) -> bool
        ensures { IsTrue result → number_of self ≡ number_of other }
    {
        match (
            self.gone.checked_add(self.index),
            other.gone.checked_add(other.index),
        ) {
            (Some(place), Some(another)) => place == another,
            _ => false,
        }
    }
}

/// The messages of a log, and how many stood before them that are gone.
#[derive(Clone, Copy)]
pub(crate) struct Kept<'a> {
    pub(crate) gone: u64,
    pub(crate) log: &'a Pieces,
}

/// The log as it was, and as it is.
#[derive(Clone, Copy)]
pub(crate) struct Logs<'a> {
    pub(crate) was: Kept<'a>,
    pub(crate) now: Kept<'a>,
}

/// The log of a snapshot.
pub(crate) fn log_of(kept: &Snapshot) -> Kept<'_>
    ensures value { seen result ≡ span_of kept.now }
    ensures restarts { MayRestart kept.now }
{
    Kept {
        gone: kept.gone(),
        log: kept.log(),
    }
}

/// The place of the message at the position, or the log's end.
pub(crate) fn place_in(kept: Kept<'_>, at: Position) -> Place
    requires { IsRising (seen kept).log }
    ensures gone { result.gone ≡ kept.entry.gone }
    ensures index { result.index ≡ index_in (seen kept.entry).log at }
{
    let index = match kept.log.index_of(at) {
        Some(index) => index as u64,
        None => kept.log.count() as u64,
    };
    Place {
        gone: kept.gone,
        index,
    }
}
