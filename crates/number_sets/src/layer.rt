// What a set of numbers does, whatever it stands on.
ghost use Rattle.std.specs.Prelude.{◌≡◌, ◌==◌, ℕ, ◌<◌, ◌≤◌, Bool, false, not, ◌&&◌, ◌||◌, OnOk, OnErr, IfSome, IfNone};
ghost use Rattle.number_sets.specs.Places.{IsNext, NoneFrom};

use std::alloc::{AllocError, Global};

/// A set of numbers. It grows by `grow` alone: nothing else takes memory.
pub(crate) trait Layer: Sized {
    ghost has: { Self → ℕ → Bool };

    /// Numbers below it may be put in.
    ghost room: { Self → ℕ };

    fn new(alloc: Global) -> Self
        ensures none { (i : ℕ) → has result i ≡ false }
        ensures room { room result ≡ 0 };

    /// Makes room for the numbers below `limit`.
    fn grow(&mut self, limit: u64) -> Result<(), AllocError>
        ensures ok { OnOk result (limit ≤ room self.new) }
        ensures err { OnErr result (room self.new ≡ room self.old) }
        ensures kept { room self.old ≤ room self.new }
        ensures same { (i : ℕ) → has self.new i ≡ has self.old i };

    fn insert(&mut self, number: u64)
        requires { number < room self.old }
        ensures has { (i : ℕ) → has self.new i ≡ (i == number || has self.old i) }
        ensures room { room self.new ≡ room self.old };

    fn remove(&mut self, number: u64)
        ensures has { (i : ℕ) → has self.new i ≡ (not (i == number) && has self.old i) }
        ensures room { room self.new ≡ room self.old };

    /// The least number from `from` on.
    fn next_from(&self, from: u64) -> Option<u64>
        ensures some { IfSome result (IsNext (has self.now) from) }
        ensures none { IfNone result (NoneFrom (has self.now) from) };

    /// Takes all numbers out. The room stays.
    fn empty(&mut self)
        ensures none { (i : ℕ) → has self.new i ≡ false }
        ensures room { room self.new ≡ room self.old };

    /// Takes all numbers out, and the room, but keeps the memory.
    fn clear(&mut self)
        ensures none { (i : ℕ) → has self.new i ≡ false }
        ensures room { room self.new ≡ 0 };
}
