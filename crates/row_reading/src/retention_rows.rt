// The row of what is gone, and of the topic's own rule of what is kept.
ghost use Rattle.std.specs.Prelude.{◌≡◌, ◌∷◌, ◌≤◌, ◌^◌, [], ℕ, List, Option, pos, IfNone, IfSome, IsTrue};
ghost use Rattle.sqlite.specs.declared.types.Value.TheVariants.{Int};
ghost use Rattle.sqlite.specs.Order.{Row};
ghost use Rattle.delivery_machine.specs.declared.retention.Retention.{Retention};
ghost use Rattle.row_forms.specs.Forms.{retention_row, rule_cells};
ghost use Rattle.row_reading.specs.declared.retention_rows.Front.{Front};
ghost use Rattle.row_reading.specs.Reading.{IsFrontIn, IsRowOfFront, IsRule, MayBeRule};

use crate::cells::whole_at;
use delivery_machine::{KeptAge, KeptMessages, Retention};
use sqlite::Row;

/// How many messages of a topic are gone at most.
const MOST_GONE: u64 = 4_611_686_018_427_387_904;

/// How many messages are gone before the log, and the topic's own rule.
#[derive(Clone, Copy)]
pub(crate) struct Front {
    pub(crate) gone: u64,
    pub(crate) retention: Option<Retention>,
}

/// The rule of a kind and an amount; an absent one has the kind 0.
fn rule_of(kind: u64, amount: u64) -> Option<Option<Retention>>
    ensures shown { IfSome result (λ rule. Int (pos kind) ∷ Int (pos amount) ∷ [] ≡ rule_cells rule) }
    ensures within { IfSome result (λ rule. IfSome rule IsRule) }
    ensures all_read { IfNone result ((rule : Option Retention) → MayBeRule rule → Int (pos kind) ∷ Int (pos amount) ∷ [] ≡ rule_cells rule → ⊥) }
{
    match kind {
        0 => if amount == 0 { Some(None) } else { None },
        1 => if amount == 0 {
            Some(Some(Retention::All))
        } else {
            None
        },
        2 => Some(Some(Retention::Messages(KeptMessages::new(u32::try_from(amount).ok()?)?))),
        3 => Some(Some(Retention::Age(KeptAge::new(amount)?))),
        _ => None,
    }
}

/// What the row says: none where it says neither that messages are gone nor a rule.
fn front_of(row: &Row) -> Option<Front>
    ensures shown { IfSome result (IsRowOfFront row.now) }
    ensures all_read { IfNone result ((front : Front) → IsRowOfFront row.now front → ⊥) }
{
    if row.column_count() != 3 {
        return None;
    }
    let gone = whole_at(row, 0)?;
    let retention = rule_of(whole_at(row, 1)?, whole_at(row, 2)?)?;
    if gone > MOST_GONE || (gone == 0 && retention.is_none()) {
        return None;
    }
    Some(Front { gone, retention })
}

/// What the row says, if there is one: without it nothing is gone, and the topic has no rule of its own.
pub(crate) fn front_in(rows: &[Row]) -> Option<Front>
    ensures shown { IfSome result (IsFrontIn rows.now) }
    ensures all_read { IfNone result ((front : Front) → IsFrontIn rows.now front → ⊥) }
{
    match rows {
        [] => Some(Front {
            gone: 0,
            retention: None,
        }),
        [row] => front_of(row),
        _ => None,
    }
}
