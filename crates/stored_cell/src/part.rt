// A snapshot that is to be stored.
ghost use Rattle.std.specs.Prelude.{◌≡◌, ◌+◌, All, Contains, IsTrue, length};
ghost use Rattle.stored_cell.specs.Noted.{GoesOn};

use crate::bases::Bases;
use crate::notes::Note;
use crate::viewed::had_at;
use delivery_machine::Snapshot;
use marks::{Mark, Naming};
use std::marker::Model;

/// A snapshot that is to be stored, under its own mark, with those that it goes on from, and whether no store of the topic was
/// confirmed. Contracts see all of these.
pub struct Part<J: Naming> {
    snapshot: Snapshot,
    mark: Mark<Note, J>,
    bases: Bases<J>,
    is_first: bool,
}

impl<J: Naming> Drop for Part<J> {
    fn drop(self) {
        let Part {
            snapshot: _,
            mark: _,
            bases: _,
            is_first: _,
        } = self;
    }
}

impl<J: Naming> Model for Part<J> {
    ghost use Rattle.std.specs.Prelude.{◌≡◌, All};
    ghost use Rattle.std.specs.Coded.{codes};
    ghost use Rattle.delivery_machine.specs.Codes.{coded_places, coded_counts};
    ghost use Rattle.stored_cell.specs.Noted.{ToStore, GoesOn};

    ghost Value = { ToStore };

    ghost coded = { Prim.hlevel (codes, coded_places, coded_counts) };

    ghost view = { λ p. record { kept = p.snapshot; bases = p.bases; is_first = p.is_first } };

    ghost invariant = { λ p. (p.mark.kept ≡ p.snapshot) × All (λ base. GoesOn base p.snapshot) p.bases };
}

impl<J: Naming> Part<J> {
    pub fn new(snapshot: Snapshot, mark: Mark<Note, J>, bases: Bases<J>, is_first: bool) -> Part<J>
        requires mark { mark.kept ≡ snapshot }
        requires bases { All (λ base. GoesOn base snapshot) bases }
        ensures { result ≡ record { kept = snapshot; bases = bases; is_first = is_first } }
    {
        Part {
            snapshot,
            mark,
            bases,
            is_first,
        }
    }

    pub fn snapshot(&self) -> &Snapshot
        ensures { result.now ≡ self.now.kept }
    {
        &self.snapshot
    }

    /// How many messages the topic had, those that are gone among them.
    pub fn length(&self) -> u64
        ensures { result ≡ self.now.kept.gone + length self.now.kept.log }
    {
        had_at(&self.snapshot)
    }

    /// The snapshot, with its own mark.
    pub fn into_parts(self) -> (Snapshot, Mark<Note, J>)
        ensures snapshot { result.0 ≡ self.kept }
        ensures mark { result.1.kept ≡ self.kept }
    {
        let Part {
            snapshot,
            mark,
            bases: _,
            is_first: _,
        } = self;
        (snapshot, mark)
    }

    /// Its own mark.
    pub fn mark(&self) -> Mark<Note, J>
        ensures { result.kept ≡ self.now.kept }
    {
        self.mark.again()
    }

    /// Whether no store of the topic was confirmed, so that it may be the first one.
    pub fn is_first(&self) -> bool
        ensures { result ≡ self.now.is_first }
    {
        self.is_first
    }

    /// Whether it goes on from the snapshot of this mark.
    pub fn goes_on_from(&self, mark: &Mark<Note, J>) -> bool
        ensures base { IsTrue result → Contains self.now.bases mark.now.kept }
        ensures goes_on { IsTrue result → GoesOn mark.now.kept self.now.kept }
    {
        self.bases.contain(mark)
    }
}
