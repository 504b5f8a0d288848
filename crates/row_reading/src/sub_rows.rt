// The rows of subscriptions.
ghost use Rattle.std.specs.Prelude.{◌≡◌, ℕ, List, [], ◌∷◌, pos, IfNone, IfOk, IfSome, IsTrue, IsUtf8};
ghost use Rattle.sqlite.specs.declared.types.Value.TheVariants.{Int, Text as Words};
ghost use Rattle.position_core.specs.declared.kind.Kind.{Kind};
ghost use Rattle.position_core.specs.Name.{is_name};
ghost use Rattle.row_forms.specs.Forms.{kind_number};

use crate::cells::{text_at, whole_at};
use position_core::{Kind, Name, SubscriptionName};
use sqlite::Row;
use std::alloc::{AllocError, Global};

fn kind_of(number: u64) -> Option<Kind>
    ensures shown { IfSome result (λ kind. number ≡ kind_number kind) }
    ensures all_read { IfNone result ((kind : Kind) → number ≡ kind_number kind → ⊥) }
{
    match number {
        0 => Some(Kind::Exclusive),
        1 => Some(Kind::Failover),
        2 => Some(Kind::Shared),
        3 => Some(Kind::KeyShared),
        _ => None,
    }
}

/// A subscription's name and kind.
#[derive(Drop)]
pub(crate) struct Sub {
    pub(crate) name: SubscriptionName,
    pub(crate) kind: Kind,
}

pub(crate) fn sub_in(alloc: Global, row: &Row) -> Result<Option<Sub>, AllocError>
    ensures shown { IfOk result (λ found. IfSome found (λ sub. row.now ≡ Words sub.name ∷ Int (pos (kind_number sub.kind)) ∷ [])) }
    ensures all_read { IfOk result (λ found. IfNone found ((name : List ℕ) (kind : Kind) → IsUtf8 name → IsTrue (is_name name) → row.now ≡ Words name ∷ Int (pos (kind_number kind)) ∷ [] → ⊥)) }
{
    if row.column_count() != 2 {
        return Ok(None);
    }
    let Some(text) = text_at(row, 0) else {
        return Ok(None);
    };
    let Some(number) = whole_at(row, 1) else {
        return Ok(None);
    };
    let Some(kind) = kind_of(number) else {
        return Ok(None);
    };
    match Name::from_text(alloc, text)? {
        Some(name) => Ok(Some(Sub { name, kind })),
        None => Ok(None),
    }
}
