// Positions, by which messages are named and put in order.

/// Where a message stands in its topic: the ledger, then the entry in it.
#[derive(Clone, Copy, Debug, PartialEq, Eq, PartialOrd, Ord)]
pub struct Position {
    pub ledger: u64,
    pub entry: u64,
}

impl Position {
    ghost use Rattle.std.specs.Prelude.{◌≡◌};
    ghost use Rattle.position_core.specs.Position.{same_position};

    /// Whether two positions are the same.
    pub fn is(self, other: Position) -> bool
        ensures { result ≡ same_position self other }
    {
        self.cmp(&other).is_eq()
    }
}
