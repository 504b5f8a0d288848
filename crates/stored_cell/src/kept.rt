// A snapshot that stands in rows that were committed.
ghost use Rattle.std.specs.Prelude.{◌≡◌, IsTrue, true};
ghost use Rattle.stored_cell.specs.Noted.{IsStored, StandsAmong};

use crate::notes::Note;
use marks::{Mark, Naming};
use std::marker::Model;

/// The proof that a snapshot stands in rows that were committed. It keeps the mark that the snapshot had.
/// Contracts see the snapshot and the rows.
pub struct Kept<J: Naming> {
    mark: Mark<Note, J>,
    rows: Mark<Note, J>,
}

impl<J: Naming> Drop for Kept<J> {
    fn drop(self) {
        let Kept { mark: _, rows: _ } = self;
    }
}

impl<J: Naming> Model for Kept<J> {
    ghost use Rattle.std.specs.Coded.{codes};
    ghost use Rattle.delivery_machine.specs.Codes.{coded_places, coded_counts};
    ghost use Rattle.stored_cell.specs.Noted.{Noted, IsStored};

    ghost Value = { Noted };

    ghost coded = { Prim.hlevel (codes, coded_places, coded_counts) };

    ghost view = { λ k. record { kept = k.mark.kept; rows = k.rows.rows; clean = k.rows.clean } };

    ghost invariant = { λ k. IsStored (record { kept = k.mark.kept; rows = k.rows.rows; clean = k.rows.clean }) };
}

impl<J: Naming> Kept<J> {
    /// The snapshot of the first mark stands in the rows of the second, over a clean disk.
    pub fn new(mark: Mark<Note, J>, rows: Mark<Note, J>) -> Kept<J>
        requires { rows.clean ≡ true → StandsAmong mark.kept rows.rows }
        ensures { result ≡ record { kept = mark.kept; rows = rows.rows; clean = rows.clean } }
    {
        Kept { mark, rows }
    }

    /// What its type keeps: the snapshot stands in the rows, over a clean disk.
    pub fn stands(&self)
        ensures { IsStored self.now }
    {
        let _ = &self.mark;
    }

    /// The mark that the snapshot had.
    pub fn mark(&self) -> Mark<Note, J>
        ensures { result.kept ≡ self.now.kept }
    {
        self.mark.again()
    }

    /// Whether the snapshot had this mark. Then it is the mark's snapshot.
    pub fn is(&self, mark: &Mark<Note, J>) -> bool
        ensures { IsTrue result → self.now.kept ≡ mark.now.kept }
    {
        self.mark.is(mark)
    }
}
