// What a row is asked.
ghost use Rattle.std.specs.Prelude.{◌≡◌, ℕ, ◌+◌, ◌<◌, true, false, length, slice_index, IfSome, IfNone};
ghost use Rattle.number_sets.specs.Places.{IsNext, NoneFrom};
ghost use Rattle.hash_rows.specs.Ranks.{rank_of, IsStart};
ghost use Rattle.hash_rows.specs.Rows.{is_in, waits_in, holds_in, AllBefore, AreAllAt, KeepsAll};

use crate::row::Row;
use dispatch_core::View;
use position_core::{ConsumerNumber, LogIndex};

impl Row {
    /// How many messages of the row stand before `base`.
    pub(crate) fn start(&self, base: LogIndex) -> usize
        ensures { IsStart self.now.places.items base result }
    {
        match self.places.binary_search(&base) {
            Ok(rank) => rank,
            Err(rank) => rank,
        }
    }

    /// Of the messages from `base` on the first that waits, by how far it stands behind `base`.
    pub fn first(&self, base: LogIndex) -> Option<LogIndex>
        ensures some { IfSome result (IsNext (λ i. waits_in self.now (base + i)) 0) }
        ensures none { IfNone result (NoneFrom (λ i. waits_in self.now (base + i)) 0) }
    {
        let start = self.start(base);
        let rank = self.waiting.next_from(start as u64)?;
        Some(self.places[rank as usize] - base)
    }

    /// Whether all that are pending are so at the owner, of the messages from `base` on, which is where
    /// the log begins that the view shows.
    pub fn is_free<V: View>(&self, view: &V, base: LogIndex, owner: ConsumerNumber) -> bool
        ensures yes { KeepsAll self.now base (V.state view.now) (V.subscription view.now) → result ≡ true
            → AreAllAt self.now base (V.state view.now) (V.subscription view.now) owner }
        ensures no { KeepsAll self.now base (V.state view.now) (V.subscription view.now) → result ≡ false
            → AreAllAt self.now base (V.state view.now) (V.subscription view.now) owner → ⊥ }
    {
        match self.keeper {
            Some(keeper) => keeper == owner || !self.holds_from(base),
            None => self.are_all_at(view, base, owner),
        }
    }

    /// Whether a message from `base` on is pending.
    fn holds_from(&self, base: LogIndex) -> bool
        ensures yes { result ≡ true → (i : ℕ) × (holds_in self.now (base + i) ≡ true) }
        ensures no { result ≡ false → (i : ℕ) → holds_in self.now (base + i) ≡ false }
    {
        let start = self.start(base);
        self.held.next_from(start as u64).is_some()
    }

    /// The same as `is_free`, of each message by itself.
    fn are_all_at<V: View>(&self, view: &V, base: LogIndex, owner: ConsumerNumber) -> bool
        ensures yes { result ≡ true → AreAllAt self.now base (V.state view.now) (V.subscription view.now) owner }
        ensures no { result ≡ false → AreAllAt self.now base (V.state view.now) (V.subscription view.now) owner → ⊥ }
    {
        let mut from = self.start(base) as u64;
        while let Some(rank) = self.held.next_from(from) {
            if view.holder(self.places[rank as usize] - base) != Some(owner) {
                return false;
            }
            from = rank + 1;
        }
        true
    }

    /// Whether none of the row's messages stands at `base` or behind it.
    pub fn is_done(&self, base: LogIndex) -> bool
        ensures { result ≡ true → (i : ℕ) → is_in self.now (base + i) ≡ false }
    {
        !self.reaches(base)
    }

    pub(crate) fn rank(&self, index: LogIndex) -> Option<usize>
        ensures some { IfSome result (λ rank. (rank ≡ rank_of self.now.places.items index) × (rank < length self.now.places.items)) }
        ensures none { IfNone result (is_in self.now index ≡ false) }
    {
        match self.places.binary_search(&index) {
            Ok(rank) => Some(rank),
            Err(_) => None,
        }
    }

    /// Whether a message of the row stands at the index or behind it.
    pub(crate) fn reaches(&self, index: LogIndex) -> bool
        ensures yes { result ≡ true → AllBefore self.now index → ⊥ }
        ensures no { result ≡ false → (r : ℕ) → r < length self.now.places.items → slice_index self.now.places.items r < index }
    {
        match self.places.last() {
            Some(last) => *last >= index,
            None => false,
        }
    }
}
