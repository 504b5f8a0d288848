// The tables of the kind in which each hash has its owner.
ghost use Rattle.std.specs.Prelude.{◌≡◌, ℕ, ◌-◌, ◌^◌, ◌≤◌, true};
ghost use Rattle.std.specs.FinSet as set;
ghost use Rattle.dispatch_keyed.specs.Tables.{HasRow};

use crate::seats::Owners;
use crate::table::Rows;
use number_sets::HashFirsts;
use position_core::LogIndex;
use std::alloc::Global;

/// How many hashes there are.
pub(crate) const HASHES: u32 = 65_536;

/// Offers, of the messages that may be sent to the owners of their hashes, the first in topic order.
///
/// The messages before the read index that wait or are pending stand in the rows of their hashes, and
/// of each hash that is free for its owner the first that waits is at hand. So an offer takes time by
/// the shares whose owners have no room, and the logarithm of the messages, as long as `look` has read
/// what can be seen: it goes over the messages from the read index on one by one. Who joins or leaves
/// costs time by the shares, and by the hashes that get another owner, as far as they have rows.
///
/// Where the front of the log goes, no row is touched, but for each message that goes one row is looked
/// at, in turn: it lets go its messages that went, where they are half of it or more, and is taken out,
/// with its memory, where it has no other.
#[derive(Drop)]
pub struct Keyed {
    pub(crate) alloc: Global,
    pub(crate) owners: Owners,
    pub(crate) read: LogIndex,
    /// From here and the read index on nothing is pending. It stands behind the read index only where
    /// messages were sent that were not read.
    pub(crate) sent: LogIndex,
    pub(crate) rows: Rows,
    pub(crate) firsts: HashFirsts,
    /// The rows of the hashes below it were looked at last for what went from the log.
    pub(crate) swept: u32,
    ghost short: { read ≤ 2 ^ 32 - 1 },
    ghost room: { (h : ℕ) → HasRow rows h → set.contains firsts.room h ≡ true },
}
