// The rows of the hashes that have messages.
ghost use Rattle.std.specs.Prelude.{◌≡◌, ◌≢◌, ℕ, ◌+◌, ◌^◌, ◌≤◌, ◌<◌, Some, None, is_some, OnOk, OnErr, IfSome, IfNone};
ghost use Rattle.hash_rows.specs.Standing.{AllPlacedBefore, Stands, Added, SameKnowledge};
ghost use Rattle.dispatch_keyed.specs.Tables.{found_in, row_at, HasRow};

use crate::table::Rows;
use hash_rows::Row;
use position_core::{ConsumerNumber, LogIndex};
use std::alloc::{AllocError, Global};

/// The message waits now or not, and is pending at the holder, if there is one.
fn stand_in(
    row: &mut Row,
    base: LogIndex,
    index: LogIndex,
    waits: bool,
    holder: Option<ConsumerNumber>,
)
    requires { base + index < 2 ^ 64 }
    ensures { Stands index waits holder (found_in base (Some row.old)) (found_in base (Some row.new)) }
{
    let place = base + index;
    match holder {
        Some(consumer) => {
            row.take_keeper(consumer);
            row.mark(place, waits, true);
        }
        None => row.mark(place, waits, false),
    }
}

/// The message of the hash waits now or not, and is pending at the holder, if there is one.
pub(crate) fn stand(
    rows: &mut Rows,
    hash: u16,
    index: LogIndex,
    waits: bool,
    holder: Option<ConsumerNumber>,
)
    requires { index < 2 ^ 63 }
    ensures others { (h : ℕ) → h ≢ hash → row_at rows.new h ≡ row_at rows.old h }
    ensures here { Stands index waits holder (row_at rows.old hash) (row_at rows.new hash) }
    ensures keys { (h : ℕ) → is_some (row_at rows.new h).row ≡ is_some (row_at rows.old h).row }
{
    let base = rows.base;
    match rows.rows.get_mut(&hash) {
        Some(row) => stand_in(row, base, index, waits, holder),
        None => (),
    }
}

/// Makes a row for the hash, if it has none.
pub(crate) fn make(rows: &mut Rows, alloc: Global, hash: u16) -> Result<(), AllocError>
    ensures others { (h : ℕ) → h ≢ hash → row_at rows.new h ≡ row_at rows.old h }
    ensures here { SameKnowledge (row_at rows.old hash) (row_at rows.new hash) }
    ensures ok { OnOk result (HasRow rows.new hash) }
    ensures err { OnErr result ((h : ℕ) → row_at rows.new h ≡ row_at rows.old h) }
{
    if rows.rows.contains_key(&hash) {
        return Ok(());
    }
    match rows.rows.insert(hash, Row::new(alloc)) {
        Ok(_) => Ok(()),
        Err(failed) => Err(failed.into()),
    }
}

/// Puts a message into the row, behind all others, and lets go what went from the log.
fn push_in(row: &mut Row, base: LogIndex, index: LogIndex) -> Result<(), AllocError>
    requires { base + index < 2 ^ 64 }
    ensures ok { OnOk result (AllPlacedBefore (found_in base (Some row.old)) index → Added index (found_in base (Some row.old)) (found_in base (Some row.new))) }
    ensures err { OnErr result (SameKnowledge (found_in base (Some row.old)) (found_in base (Some row.new))) }
{
    row.shed(base);
    row.push(base + index)
}

/// Puts a message into the row of its hash, behind all others.
pub(crate) fn push(rows: &mut Rows, hash: u16, index: LogIndex) -> Result<(), AllocError>
    requires row { HasRow rows.old hash }
    requires small { index < 2 ^ 63 }
    ensures others { (h : ℕ) → h ≢ hash → row_at rows.new h ≡ row_at rows.old h }
    ensures ok { OnOk result (AllPlacedBefore (row_at rows.old hash) index → Added index (row_at rows.old hash) (row_at rows.new hash)) }
    ensures err { OnErr result (SameKnowledge (row_at rows.old hash) (row_at rows.new hash)) }
    ensures keys { (h : ℕ) → is_some (row_at rows.new h).row ≡ is_some (row_at rows.old h).row }
{
    let base = rows.base;
    match rows.rows.get_mut(&hash) {
        Some(row) => push_in(row, base, index),
        None => Ok(()),
    }
}

/// The least hash from `from` on that has a row.
pub(crate) fn next_hash(rows: &Rows, from: u32) -> Option<u16>
    ensures some { IfSome result (λ hash. (from ≤ hash) × (hash < 2 ^ 16) × ((h : ℕ) → from ≤ h → h < hash → (row_at rows.now h).row ≡ None)) }
    ensures none { IfNone result ((h : ℕ) → from ≤ h → h < 2 ^ 16 → (row_at rows.now h).row ≡ None) }
{
    if from > 65_535 {
        return None;
    }
    match rows.rows.range(from as u16..).next() {
        Some((hash, _)) => Some(*hash),
        None => None,
    }
}

/// So, before `end`.
pub(crate) fn next_hash_before(rows: &Rows, from: u32, end: u32) -> Option<u16>
    ensures some { IfSome result (λ hash. (from ≤ hash) × (hash < end) × (hash < 2 ^ 16) × ((h : ℕ) → from ≤ h → h < hash → (row_at rows.now h).row ≡ None)) }
    ensures none { IfNone result ((h : ℕ) → from ≤ h → h < end → h < 2 ^ 16 → (row_at rows.now h).row ≡ None) }
{
    match next_hash(rows, from) {
        Some(hash) => {
            if u32::from(hash) < end {
                Some(hash)
            } else {
                None
            }
        }
        None => None,
    }
}
