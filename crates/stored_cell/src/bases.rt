// What a topic goes on from: the snapshots of it that may stand in rows.
ghost use Rattle.std.specs.Prelude.{◌≡◌, ◌++◌, Contains, IsTrue};
ghost use Rattle.stored_cell.specs.Noted.{marked};

use crate::notes::Note;
use marks::{Mark, Naming};
use std::marker::Model;

/// The marks of the snapshots that a topic goes on from: of the one that was confirmed last, and of the one that was
/// viewed since, which may be stored and not confirmed. Contracts see the snapshots.
pub struct Bases<J: Naming> {
    stored: Option<Mark<Note, J>>,
    viewed: Option<Mark<Note, J>>,
}

impl<J: Naming> Drop for Bases<J> {
    fn drop(self) {
        let Bases {
            stored: _,
            viewed: _,
        } = self;
    }
}

impl<J: Naming> Model for Bases<J> {
    ghost use Rattle.std.specs.Prelude.{◌++◌, List};
    ghost use Rattle.std.specs.Coded.{codes};
    ghost use Rattle.delivery_machine.specs.Codes.{coded_places, coded_counts};
    ghost use Rattle.delivery_machine.specs.Places.{KeptTopic};
    ghost use Rattle.stored_cell.specs.Noted.{marked};

    ghost Value = { List KeptTopic };

    ghost coded = { Prim.hlevel (codes, coded_places, coded_counts) };

    ghost view = { λ b. marked b.stored ++ marked b.viewed };
}

/// Whether there is one, and it is this mark.
fn is<J: Naming>(one: &Option<Mark<Note, J>>, mark: &Mark<Note, J>) -> bool
    ensures { IsTrue result → Contains (marked one.now) mark.now.kept }
{
    match one {
        Some(one) => one.is(mark),
        None => false,
    }
}

impl<J: Naming> Bases<J> {
    pub(crate) fn new(stored: Option<Mark<Note, J>>, viewed: Option<Mark<Note, J>>) -> Bases<J>
        ensures { result ≡ marked stored ++ marked viewed }
    {
        Bases { stored, viewed }
    }

    /// Whether the snapshot of this mark is among them.
    pub fn contain(&self, mark: &Mark<Note, J>) -> bool
        ensures { IsTrue result → Contains self.now mark.now.kept }
    {
        is(&self.stored, mark) || is(&self.viewed, mark)
    }
}
