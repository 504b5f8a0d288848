// Messages that went from the front of the log.
ghost use Rattle.std.specs.Prelude.{◌≡◌, ℕ, ◌+◌, ◌-◌, ◌^◌, ◌≤◌, ◌<◌, [], true, Some, length};
ghost use Rattle.std.specs.Option.{option_map};
ghost use Rattle.std.specs.FinMap as map_of;
ghost use Rattle.hash_rows.specs.Standing.{later};
ghost use Rattle.dispatch_keyed.specs.Tables.{row_at};

use crate::keyed::{HASHES, Keyed};
use dispatch_core::View;
use number_sets::HashFirsts;
use position_core::LogIndex;

/// At most so many messages go before the table of rows is begun anew.
const MOST_GONE: LogIndex = 1 << 62;

impl Keyed {
    /// Whether the tables can follow: the numbers of the rows do not run out, and no first message is
    /// among those that went.
    pub(crate) fn can_follow(&self, count: u64) -> bool
        ensures base { result ≡ true → self.now.rows.base + count ≤ 2 ^ 62 }
        ensures firsts { result ≡ true → (hash number : ℕ) → hash < 2 ^ 16 → map_of.get self.now.firsts.numbers hash ≡ Some number → count ≤ number }
    {
        count <= MOST_GONE.saturating_sub(self.rows.base) && none_before(&self.firsts, count)
    }

    /// The first messages went, so many: all others stand so much nearer to the front.
    pub(crate) fn follow(&mut self, count: u64)
        requires base { self.old.rows.base + count ≤ 2 ^ 62 }
        requires firsts { (hash number : ℕ) → hash < 2 ^ 16 → map_of.get self.old.firsts.numbers hash ≡ Some number → count ≤ number }
        ensures owners { self.new.owners ≡ self.old.owners }
        ensures read { self.new.read ≡ self.old.read - count }
        ensures sent { self.new.sent ≡ self.old.sent - count }
        ensures rows { (h : ℕ) → row_at self.new.rows h ≡ later count (row_at self.old.rows h) }
        ensures firsts_less { (h : ℕ) → map_of.get self.new.firsts.numbers h ≡ option_map (λ number. number - count) (map_of.get self.old.firsts.numbers h) }
    {
        self.rows.base += count;
        self.read = self.read.saturating_sub(count);
        self.sent = self.sent.saturating_sub(count);
        self.firsts.lower(count);
    }

    /// Forgets what was read.
    pub(crate) fn begin_anew<V: View>(&mut self, view: &V)
        ensures owners { self.new.owners ≡ self.old.owners }
        ensures read { self.new.read ≡ 0 }
        ensures sent { self.new.sent ≡ length (V.state view.now).log }
        ensures rows { self.new.rows.rows.entries ≡ [] }
        ensures firsts { self.new.firsts.numbers ≡ map_of.empty }
    {
        self.read = 0;
        self.sent = view.length();
        self.rows.clear();
        self.firsts.clear();
    }
}

/// Whether no hash has a number below `count`.
fn none_before(firsts: &HashFirsts, count: u64) -> bool
    ensures { result ≡ true → (hash number : ℕ) → hash < 2 ^ 16 → map_of.get firsts.now.numbers hash ≡ Some number → count ≤ number }
{
    match firsts.least(0, HASHES) {
        Some((least, _)) => count <= least,
        None => true,
    }
}
