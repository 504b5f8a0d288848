// How a row lets go what went from the log.
ghost use Rattle.std.specs.Prelude.{◌≡◌, ◌==◌, ℕ, ◌+◌, ◌≤◌, ◌<◌, true, false, drop, length, if◌then◌else◌};
ghost use Rattle.std.specs.FinSet as set;
ghost use Rattle.hash_rows.specs.Rows.{KnowsFrom};

use crate::row::Row;
use number_sets::PlaceBits;
use position_core::LogIndex;

impl Row {
    /// Lets go the messages before `base`, where they are half of the row or more. So it takes a constant
    /// for each of them, and `push` after it no more memory than twice the messages from `base` on.
    pub fn shed(&mut self, base: LogIndex)
        ensures { KnowsFrom base self.old self.new }
    {
        let gone = self.start(base);
        if gone > 0 && gone >= self.places.len() - gone {
            self.drop_front(gone);
        }
    }

    /// Lets go the first messages, so many.
    fn drop_front(&mut self, gone: usize)
        requires { gone ≤ length self.old.places.items }
        ensures places { self.new.places.items ≡ drop gone self.old.places.items }
        ensures waits { (r : ℕ) → set.contains self.new.waiting.places r ≡ set.contains self.old.waiting.places (gone + r) }
        ensures holds { (r : ℕ) → set.contains self.new.held.places r ≡ set.contains self.old.held.places (gone + r) }
        ensures keeper { self.new.keeper ≡ self.old.keeper }
    {
        let end = self.places.len();
        lower(&mut self.waiting, gone as u64, end as u64);
        lower(&mut self.held, gone as u64, end as u64);
        self.places.rotate_left(gone);
        self.places.truncate(end - gone);
    }
}

/// Makes each rank less by `gone`, and takes out those that are less than that.
fn lower(ranks: &mut PlaceBits, gone: u64, end: u64)
    requires room { end ≤ ranks.old.room }
    requires within { (r : ℕ) → set.contains ranks.old.places r ≡ true → r < end }
    ensures ranks { (r : ℕ) → set.contains ranks.new.places r ≡ set.contains ranks.old.places (gone + r) }
    ensures room { ranks.new.room ≡ ranks.old.room }
{
    let mut from = 0;
    while let Some(rank) = ranks.next_from(from) {
        move_down(ranks, rank, gone);
        from = rank + 1;
    }
}

/// Makes the rank less by `gone`, or takes it out where it is less than that.
fn move_down(ranks: &mut PlaceBits, rank: u64, gone: u64)
    requires { rank < ranks.old.room }
    ensures ranks { (r : ℕ) → set.contains ranks.new.places r ≡ (if gone + r == rank then true else (if r == rank then false else set.contains ranks.old.places r)) }
    ensures room { ranks.new.room ≡ ranks.old.room }
{
    ranks.remove(rank);
    if gone <= rank {
        ranks.insert(rank - gone);
    }
}
