// The change from one snapshot of a topic to another.
ghost use Rattle.std.specs.Prelude.{◌≡◌, ◌++◌, ◌-◌, ◌+◌, ◌↔◌, IfOk, IsTrue, List, false, length, true};
ghost use Rattle.row_forms.specs.Forms.{span_of};
ghost use Rattle.row_forms.specs.Parts.{IsLater};

use crate::ack_difference::{Gone, ack_difference};
use crate::author_difference::author_difference;
use crate::change::Change;
use crate::count_difference::count_difference;
use crate::dead_difference::dead_difference;
use crate::places::{Logs, log_of};
use crate::retention_difference::{retention_difference, row_of};
use crate::sub_difference::sub_difference;
use delivery_machine::Snapshot;
use std::alloc::{AllocError, Global};

/// Whether both have one topic row, where they have one name.
fn has_same_row(base: &Snapshot, kept: &Snapshot) -> bool
    ensures { IsTrue result ↔ ((base.now.ledger_size ≡ kept.now.ledger_size) × (base.now.ledger ≡ kept.now.ledger) × (base.now.next_ordinal ≡ kept.now.next_ordinal)) }
{
    base.ledger_size().get() == kept.ledger_size().get()
        && base.ledger() == kept.ledger()
        && base.next_ordinal() == kept.next_ordinal()
}

/// How many messages went.
fn went(base: &Snapshot, kept: &Snapshot) -> u64
    requires { IsLater (span_of base.now) (span_of kept.now) }
    ensures { base.now.gone + result ≡ kept.now.gone }
{
    kept.gone() - base.gone()
}

/// How many messages of the log were there.
fn stayed(base: &Snapshot, kept: &Snapshot) -> usize
    requires { IsLater (span_of base.now) (span_of kept.now) }
    ensures { result ≡ length base.now.log - (kept.now.gone - base.now.gone) }
{
    base.log().count() - went(base, kept) as usize
}

impl Change {
    ghost use Rattle.std.specs.Prelude.{◌≡◌, ◌-◌, ◌↔◌, IfOk, false, length, true};
    ghost use Rattle.row_forms.specs.Changes.{Leads};
    ghost use Rattle.row_forms.specs.Forms.{AreRowsOf, TopicRows, no_rows, span_of};
    ghost use Rattle.row_forms.specs.Parts.{IsLater};

    /// From no rows to those of the snapshot.
    pub fn whole(alloc: Global, kept: &Snapshot) -> Result<Change, AllocError>
        ensures topic { IfOk result (λ change. change.topic ≡ true) }
        ensures went { IfOk result (λ change. change.went ≡ 0) }
        ensures from { IfOk result (λ change. change.from ≡ 0) }
        ensures leads { IfOk result (λ change. (rows : TopicRows) × AreRowsOf kept.now rows × Leads kept.now change no_rows rows) }
    {
        let log = log_of(kept);
        let logs = Logs { was: log, now: log };
        let gone = Gone {
            was: log.gone,
            now: log.gone,
        };
        Ok(Change {
            topic: true,
            went: 0,
            from: 0,
            subs: sub_difference(alloc, &[], kept.subscriptions())?,
            acks: ack_difference(alloc, gone, &[], kept.subscriptions())?,
            deads: dead_difference(alloc, logs, &[], kept.subscriptions())?,
            counts: count_difference(alloc, logs, &[], kept.subscriptions())?,
            authors: author_difference(alloc, &[], kept.authors())?,
            retentions: retention_difference(alloc, &None, &row_of(kept))?,
        })
    }

    /// From the rows of a snapshot to those of a later one. Goes over ranges, dead letters, counts,
    /// subscriptions and producers of messages that are gone, and not over the log; takes memory for rows that
    /// differ alone.
    pub fn between(alloc: Global, base: &Snapshot, kept: &Snapshot) -> Result<Change, AllocError>
        requires name { kept.now.name ≡ base.now.name }
        requires log { IsLater (span_of base.now) (span_of kept.now) }
        ensures topic { IfOk result (λ change. (change.topic ≡ false) ↔ ((base.now.ledger_size ≡ kept.now.ledger_size) × (base.now.ledger ≡ kept.now.ledger) × (base.now.next_ordinal ≡ kept.now.next_ordinal))) }
        ensures went { IfOk result (λ change. change.went ≡ kept.now.gone - base.now.gone) }
        ensures from { IfOk result (λ change. change.from ≡ length base.now.log - (kept.now.gone - base.now.gone)) }
        ensures leads { IfOk result (λ change. (olds : TopicRows) → AreRowsOf base.now olds → (news : TopicRows) × AreRowsOf kept.now news × Leads kept.now change olds news) }
    {
        let logs = Logs {
            was: log_of(base),
            now: log_of(kept),
        };
        let gone = Gone {
            was: logs.was.gone,
            now: logs.now.gone,
        };
        Ok(Change {
            topic: !has_same_row(base, kept),
            went: went(base, kept),
            from: stayed(base, kept),
            subs: sub_difference(alloc, base.subscriptions(), kept.subscriptions())?,
            acks: ack_difference(alloc, gone, base.subscriptions(), kept.subscriptions())?,
            deads: dead_difference(alloc, logs, base.subscriptions(), kept.subscriptions())?,
            counts: count_difference(alloc, logs, base.subscriptions(), kept.subscriptions())?,
            authors: author_difference(alloc, base.authors(), kept.authors())?,
            retentions: retention_difference(alloc, &row_of(base), &row_of(kept))?,
        })
    }
}
