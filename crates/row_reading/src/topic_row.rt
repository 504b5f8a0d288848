// The topic's own row.
ghost use Rattle.std.specs.Prelude.{IfNone, IfSome};
ghost use Rattle.row_reading.specs.declared.topic_row.Head.{Head};
ghost use Rattle.row_reading.specs.Reading.{IsHead, IsLedgerSize};

use crate::cells::whole_at;
use position_core::{LedgerSize, Ordinal};
use sqlite::Row;

/// The greatest ordinal that a topic's next dead letter may have.
const LAST_ORDINAL: u64 = 4_611_686_018_427_387_904;

/// What the topic's own row says.
#[derive(Clone, Copy)]
pub(crate) struct Head {
    pub(crate) ledger_size: LedgerSize,
    pub(crate) ledger: u64,
    pub(crate) next_ordinal: Ordinal,
}

pub(crate) fn head_of(row: &Row) -> Option<Head>
    ensures shown { IfSome result (λ head. IsHead row.now head) }
    ensures all_read { IfNone result ((head : Head) → IsHead row.now head → IsLedgerSize head.ledger_size → ⊥) }
{
    if row.column_count() != 3 {
        return None;
    }
    let ledger_size = LedgerSize::new(u32::try_from(whole_at(row, 0)?).ok()?)?;
    let ledger = whole_at(row, 1)?;
    let next_ordinal = whole_at(row, 2)?;
    if ledger > LAST_ORDINAL + 1 || next_ordinal > LAST_ORDINAL {
        return None;
    }
    Some(Head {
        ledger_size,
        ledger,
        next_ordinal,
    })
}
