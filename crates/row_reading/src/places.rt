// The messages at indexes of the log, and at places behind those that are gone.
ghost use Rattle.std.specs.Prelude.{◌≡◌, ◌+◌, ◌<◌, ◌≤◌, ℕ, length, pos, IfNone, IfSome, IsTrue};
ghost use Rattle.sqlite.specs.declared.types.Value.TheVariants.{Int};
ghost use Rattle.sqlite.specs.Order.{column};
ghost use Rattle.log_pieces.specs.Pieces.{joined};
ghost use Rattle.delivery_machine.specs.WellFormed.{has_message};
ghost use Rattle.row_forms.specs.Forms.{index_in};
ghost use Rattle.row_forms.specs.Parts.{IsRising};

use crate::cells::whole_at;
use log_pieces::Pieces;
use position_core::Position;
use sqlite::Row;

/// The messages of a log, and how many stood before them that are gone.
#[derive(Clone, Copy)]
pub(crate) struct Kept<'a> {
    pub(crate) gone: u64,
    pub(crate) log: &'a Pieces,
}

/// The index that a place in a row has, behind so many that are gone.
pub(crate) fn index_at(row: &Row, at: usize, gone: u64) -> Option<u64>
    ensures shown { IfSome result (λ n. column row.now at ≡ Int (pos (gone + n))) }
    ensures all_read { IfNone result ((n : ℕ) → column row.now at ≡ Int (pos (gone + n)) → ⊥) }
{
    whole_at(row, at)?.checked_sub(gone)
}

/// The position of the message at the index.
pub(crate) fn position_of(log: &Pieces, index: u64) -> Option<Position>
    requires { IsRising (joined log.now) }
    ensures index { IfSome result (λ p. index ≡ index_in (joined log.now) p) }
    ensures message { IfSome result (λ p. IsTrue (has_message (joined log.now) p)) }
    ensures within { IfSome result (λ _. index < length (joined log.now)) }
    ensures all_read { IfNone result (length (joined log.now) ≤ index) }
{
    let message = log.get(usize::try_from(index).ok()?)?;
    Some(message.position())
}
