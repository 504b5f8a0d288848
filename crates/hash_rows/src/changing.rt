// What changes a row.
ghost use Rattle.std.specs.Prelude.{◌≡◌, ◌==◌, ℕ, ◌<◌, ◌&&◌, true, false, Some, None, OnOk, OnErr, if◌then◌else◌};
ghost use Rattle.std.specs.FinSet as set;
ghost use Rattle.hash_rows.specs.Rows.{is_in, waits_in, holds_in, AllBefore, KnowsAsMuch, HasOneMore};

use crate::row::Row;
use number_sets::PlaceBits;
use position_core::{ConsumerNumber, LogIndex};
use std::alloc::{AllocError, Global};

impl Row {
    /// A row without messages.
    pub fn new(alloc: Global) -> Self
        ensures places { (i : ℕ) → is_in result i ≡ false }
        ensures waits { (i : ℕ) → waits_in result i ≡ false }
        ensures holds { (i : ℕ) → holds_in result i ≡ false }
        ensures keeper { result.keeper ≡ None }
    {
        Row {
            places: Vec::new(alloc),
            waiting: PlaceBits::new(alloc),
            held: PlaceBits::new(alloc),
            keeper: None,
        }
    }

    /// Puts a message in, which stands behind all others and waits.
    pub fn push(&mut self, index: LogIndex) -> Result<(), AllocError>
        ensures ok { OnOk result (AllBefore self.old index → HasOneMore index self.old self.new) }
        ensures err { OnErr result (KnowsAsMuch self.old self.new) }
    {
        if self.reaches(index) {
            return Ok(());
        }
        let rank = self.places.len() as u64;
        self.waiting.grow(rank + 1)?;
        self.held.grow(rank + 1)?;
        self.places.push(index)?;
        self.waiting.insert(rank);
        Ok(())
    }

    /// The message, if it is in the row, waits now or not, and is pending now or not.
    pub fn mark(&mut self, index: LogIndex, waits: bool, held: bool)
        ensures places { (i : ℕ) → is_in self.new i ≡ is_in self.old i }
        ensures waits { (i : ℕ) → waits_in self.new i ≡ (if i == index then is_in self.old i && waits else waits_in self.old i) }
        ensures holds { (i : ℕ) → holds_in self.new i ≡ (if i == index then is_in self.old i && held else holds_in self.old i) }
        ensures keeper { self.new.keeper ≡ self.old.keeper }
    {
        if let Some(rank) = self.rank(index) {
            put(&mut self.waiting, rank as u64, waits);
            put(&mut self.held, rank as u64, held);
        }
    }

    /// A message is about to be pending at the consumer.
    pub fn take_keeper(&mut self, consumer: ConsumerNumber)
        ensures same { KnowsAsMuch self.old (record self.new { keeper = self.old.keeper }) }
        ensures keeper { (c : ℕ) → self.new.keeper ≡ Some c → (c ≡ consumer) × ((i : ℕ) → holds_in self.old i ≡ true → self.old.keeper ≡ Some c) }
    {
        if self.held.first().is_none() {
            self.keeper = Some(consumer);
        } else if self.keeper != Some(consumer) {
            self.keeper = None;
        }
    }
}

/// Whether the rank is in the set is set.
fn put(ranks: &mut PlaceBits, rank: u64, there: bool)
    requires { rank < ranks.old.room }
    ensures ranks { (r : ℕ) → set.contains ranks.new.places r ≡ (if r == rank then there else set.contains ranks.old.places r) }
    ensures room { ranks.new.room ≡ ranks.old.room }
{
    if there {
        ranks.insert(rank);
    } else {
        ranks.remove(rank);
    }
}
