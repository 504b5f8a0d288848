// Snapshots that were viewed or stored, with how far they reach.
ghost use Rattle.std.specs.Prelude.{◌≡◌, ◌+◌, length};
ghost use Rattle.delivery_machine.specs.Places.{MayRestart};
ghost use Rattle.stored_cell.specs.Noted.{IsStored};

use crate::kept::Kept;
use crate::notes::Note;
use delivery_machine::Snapshot;
use marks::{Mark, Naming};
use position_core::Ordinal;
use std::marker::Model;

/// How many messages the topic had at the snapshot, those that were gone among them: a trim leaves that number as it is.
pub(crate) fn had_at(snapshot: &Snapshot) -> u64
    ensures value { result ≡ snapshot.now.gone + length snapshot.now.log }
    ensures restarts { MayRestart snapshot.now }
{
    let stay = snapshot.log().count() as u64;
    snapshot.gone() + stay
}

/// A snapshot that was viewed and is not confirmed. Contracts see the snapshot.
pub struct Viewed<J: Naming> {
    mark: Mark<Note, J>,
    count: u64,
    ordinal: Ordinal,
}

impl<J: Naming> Drop for Viewed<J> {
    fn drop(self) {
        let Viewed {
            mark: _,
            count: _,
            ordinal: _,
        } = self;
    }
}

impl<J: Naming> Model for Viewed<J> {
    ghost use Rattle.std.specs.Prelude.{◌≡◌, ◌+◌, length};
    ghost use Rattle.std.specs.Coded.{codes};
    ghost use Rattle.delivery_machine.specs.Codes.{coded_places, coded_counts};
    ghost use Rattle.delivery_machine.specs.Places.{KeptTopic};

    ghost Value = { KeptTopic };

    ghost coded = { Prim.hlevel (codes, coded_places, coded_counts) };

    ghost view = { λ v. v.mark.kept };

    ghost invariant = { λ v. (v.count ≡ v.mark.kept.gone + length v.mark.kept.log) × (v.ordinal ≡ v.mark.kept.next_ordinal) };
}

impl<J: Naming> Viewed<J> {
    pub fn new(snapshot: &Snapshot, mark: Mark<Note, J>) -> Self
        requires { mark.kept ≡ snapshot.now }
        ensures { result ≡ snapshot.now }
    {
        Viewed {
            mark,
            count: had_at(snapshot),
            ordinal: snapshot.next_ordinal(),
        }
    }

    pub fn mark(&self) -> &Mark<Note, J>
        ensures { result.now.kept ≡ self.now }
    {
        &self.mark
    }

    /// How many messages the topic had, those that were gone among them.
    pub fn length(&self) -> u64
        ensures { result ≡ self.now.gone + length self.now.log }
    {
        self.count
    }

    /// The next death's, when it was viewed.
    pub fn ordinal(&self) -> Ordinal
        ensures { result ≡ self.now.next_ordinal }
    {
        self.ordinal
    }
}

/// A snapshot that stands in rows that were committed. Contracts see both.
pub struct Stored<J: Naming> {
    kept: Kept<J>,
    count: u64,
}

impl<J: Naming> Drop for Stored<J> {
    fn drop(self) {
        let Stored { kept: _, count: _ } = self;
    }
}

impl<J: Naming> Model for Stored<J> {
    ghost use Rattle.std.specs.Prelude.{◌≡◌, ◌+◌, length};
    ghost use Rattle.std.specs.Coded.{codes};
    ghost use Rattle.delivery_machine.specs.Codes.{coded_places, coded_counts};
    ghost use Rattle.stored_cell.specs.Noted.{Noted, IsStored};

    ghost Value = { Noted };

    ghost coded = { Prim.hlevel (codes, coded_places, coded_counts) };

    ghost view = { λ s. s.kept };

    ghost invariant = { λ s. (s.count ≡ s.kept.kept.gone + length s.kept.kept.log) × IsStored s.kept };
}

impl<J: Naming> Stored<J> {
    pub fn new(kept: Kept<J>, count: u64) -> Self
        requires { count ≡ kept.kept.gone + length kept.kept.log }
        ensures value { result ≡ kept }
        ensures stands { IsStored result }
    {
        kept.stands();
        Stored { kept, count }
    }

    pub fn kept(&self) -> &Kept<J>
        ensures { result.now ≡ self.now }
    {
        &self.kept
    }

    /// How many messages the topic had, those that were gone among them.
    pub fn length(&self) -> u64
        ensures { result ≡ self.now.kept.gone + length self.now.kept.log }
    {
        self.count
    }
}
