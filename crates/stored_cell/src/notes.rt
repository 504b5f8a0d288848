// The history of what was viewed and of what was committed.
ghost use Rattle.std.specs.Prelude.{◌≡◌, IfSome};
ghost use Rattle.sqlite.specs.Held.{state};
ghost use Rattle.stored_cell.specs.Noted.{all_rows, is_shown};

use delivery_machine::Snapshot;
use marks::{Asks, Blank, Mark, Marker, Naming, Unnamed};
use sqlite::{Alter, Connection};
use std::marker::{Model, PhantomData};

/// What a mark names: what is kept of a topic, or the rows that a commit left. It is only spoken of: no
/// program makes one.
#[derive(Drop)]
pub struct Note {
    of: PhantomData<u64>,
}

impl Model for Note {
    ghost use Rattle.std.specs.Coded.{codes};
    ghost use Rattle.delivery_machine.specs.Codes.{coded_places, coded_counts};
    ghost use Rattle.stored_cell.specs.Noted.{Noted, nothing_kept};
    ghost use Rattle.row_forms.specs.Forms.{no_rows};
    ghost use Rattle.std.specs.Prelude.{false};

    ghost Value = { Noted };

    ghost coded = { Prim.hlevel (codes, coded_places, coded_counts) };

    ghost view = { λ n. record { kept = nothing_kept; rows = no_rows; clean = false } };
}

impl Blank for Note {
    ghost use Rattle.stored_cell.specs.Noted.{nothing_kept};
    ghost use Rattle.row_forms.specs.Forms.{no_rows};
    ghost use Rattle.std.specs.Prelude.{false};

    ghost blank = { record { kept = nothing_kept; rows = no_rows; clean = false } };
}

/// What a snapshot is noted as.
struct Viewed;

impl Asks<Snapshot, Note> for Viewed {
    ghost use Rattle.row_forms.specs.Forms.{no_rows};
    ghost use Rattle.std.specs.Prelude.{false};

    ghost ask = { λ snapshot. record { kept = snapshot; rows = no_rows; clean = false } };
}

/// What a database is noted as: what it has committed.
struct Committed;

impl<S: Alter> Asks<Connection<S>, Note> for Committed {
    ghost use Rattle.sqlite.specs.Held.{state};
    ghost use Rattle.stored_cell.specs.Noted.{nothing_kept, all_rows, is_shown};

    ghost ask = { λ conn. record { kept = nothing_kept; rows = all_rows (state S.Store conn).committed.trees; clean = is_shown (state S.Store conn) } };
}

/// Draws the marks of the history of `J`: of snapshots, and of what a database has committed. Nothing
/// else is noted in it.
pub struct Notes<J: Naming> {
    marker: Marker<Note, J>,
}

impl<J: Naming> Drop for Notes<J> {
    fn drop(self) {
        let Notes { marker: _ } = self;
    }
}

impl<J: Naming> Notes<J> {
    pub fn new(history: Unnamed<Note>) -> Notes<J>
        requires { history ≡ J.book }
    {
        Notes {
            marker: history.named::<J>(),
        }
    }

    /// A mark for the snapshot. There is none where 2^62 were drawn.
    pub fn view(&mut self, snapshot: &Snapshot) -> Option<Mark<Note, J>>
        ensures { IfSome result (λ mark. mark.kept ≡ snapshot.now) }
    {
        self.marker.mark::<Snapshot, Viewed>(snapshot)
    }

    /// A mark for the rows that the database has committed. There is none where 2^62 were drawn.
    pub fn commit<S: Alter>(&mut self, conn: &Connection<S>) -> Option<Mark<Note, J>>
        ensures rows { IfSome result (λ mark. mark.rows ≡ all_rows (state S.Store conn.now).committed.trees) }
        ensures clean { IfSome result (λ mark. mark.clean ≡ is_shown (state S.Store conn.now)) }
    {
        self.marker.mark::<Connection<S>, Committed>(conn)
    }
}
