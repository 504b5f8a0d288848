// The first messages of the hashes that are free, after a change.
ghost use Rattle.std.specs.Prelude.{◌≡◌, ◌≢◌, ℕ, ◌-◌, ◌^◌, ◌<◌, true, Some, None, IfSome};
ghost use Rattle.std.specs.FinMap as map_of;
ghost use Rattle.std.specs.FinSet as set;
ghost use Rattle.delivery_machine.specs.Shares.{owner_of};
ghost use Rattle.hash_rows.specs.Knowing.{KeeperIsRight, WaitBefore, IsFirstOf};
ghost use Rattle.dispatch_keyed.specs.Tables.{found_in, row_at, HasRow};

use crate::table::Rows;
use dispatch_core::View;
use hash_ranges::SplitTable;
use hash_rows::Row;
use number_sets::HashFirsts;
use position_core::{ConsumerNumber, LogIndex};

/// Messages are read up to this index. No log is as long.
pub(crate) const LIMIT: LogIndex = 4_294_967_295;

/// The first message of the row that waits, if all that are pending are at the owner.
fn first_of<V: View>(row: &Row, base: LogIndex, view: &V, owner: ConsumerNumber) -> Option<LogIndex>
    ensures small { IfSome result (λ n. n < 2 ^ 32 - 1) }
    ensures first { KeeperIsRight (found_in base (Some row.now)) (V.state view.now) (V.subscription view.now) → WaitBefore (found_in base (Some row.now)) (2 ^ 32 - 1)
        → IsFirstOf (found_in base (Some row.now)) result (Some owner) (V.state view.now) (V.subscription view.now) }
{
    if !row.is_free(view, base, owner) {
        return None;
    }
    match row.first(base) {
        Some(first) => { if first < LIMIT { Some(first) } else { None } }
        None => None,
    }
}

/// The first message of the hash that waits, if all that are pending are at the owner of the hash.
fn first_free<V: View>(rows: &Rows, shares: &SplitTable, view: &V, hash: u16) -> Option<LogIndex>
    ensures row { IfSome result (λ _. HasRow rows.now hash) }
    ensures small { IfSome result (λ n. n < 2 ^ 32 - 1) }
    ensures first { KeeperIsRight (row_at rows.now hash) (V.state view.now) (V.subscription view.now)
        → WaitBefore (row_at rows.now hash) (2 ^ 32 - 1)
        → IsFirstOf (row_at rows.now hash) result (owner_of shares.now hash) (V.state view.now) (V.subscription view.now) }
{
    match rows.rows.get(&hash) {
        Some(row) => match shares.owner(hash) {
            Some(owner) => first_of(row, rows.base, view, owner),
            None => None,
        },
        None => None,
    }
}

/// Keeps the first message of the hash, as it is now.
pub(crate) fn renew<V: View>(
    rows: &Rows,
    shares: &SplitTable,
    firsts: &mut HashFirsts,
    view: &V,
    hash: u16,
)
    requires { HasRow rows.now hash → set.contains firsts.old.room hash ≡ true }
    ensures room { firsts.new.room ≡ firsts.old.room }
    ensures others { (h : ℕ) → h ≢ hash → map_of.get firsts.new.numbers h ≡ map_of.get firsts.old.numbers h }
    ensures first { KeeperIsRight (row_at rows.now hash) (V.state view.now) (V.subscription view.now)
        → WaitBefore (row_at rows.now hash) (2 ^ 32 - 1)
        → IsFirstOf (row_at rows.now hash) (map_of.get firsts.new.numbers hash) (owner_of shares.now hash) (V.state view.now) (V.subscription view.now) }
{
    match first_free(rows, shares, view, hash) {
        Some(first) => firsts.put(hash, first),
        None => firsts.take_out(hash),
    }
}
