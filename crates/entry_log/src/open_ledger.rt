// How far a ledger is filled.
ghost use Rattle.std.specs.Prelude.{◌≡◌, ◌+◌, ◌<◌, ◌≤◌, ◌^◌, min};
ghost use Rattle.entry_log.specs.Log.{position_after};

use position_core::{LedgerSize, Position};

/// The last ledger of a message is 2^62.
pub(crate) const LAST_LEDGER: u64 = 1 << 62;

/// The ledger that is written to, and how many messages it has had.
#[derive(Clone, Copy)]
pub(crate) struct OpenLedger {
    pub(crate) ledger: u64,
    pub(crate) used: u64,
}

impl OpenLedger {
    /// Where the next message goes.
    pub(crate) fn next(self, ledger_size: LedgerSize) -> Position
        requires { self.ledger + 1 < 2 ^ 64 }
        ensures value { result ≡ position_after self.ledger self.used ledger_size }
        ensures small { result.entry < 2 ^ 32 }
    {
        if self.used < u64::from(ledger_size.get()) {
            Position {
                ledger: self.ledger,
                entry: self.used,
            }
        } else {
            Position {
                ledger: self.ledger + 1,
                entry: 0,
            }
        }
    }

    /// The open ledger after a message at the position.
    pub(crate) fn after(position: Position) -> OpenLedger
        requires { position.entry + 1 < 2 ^ 64 }
        ensures ledger { result.ledger ≡ position.ledger }
        ensures used { result.used ≡ position.entry + 1 }
    {
        OpenLedger {
            ledger: position.ledger,
            used: position.entry + 1,
        }
    }

    /// The beginning of the next ledger, up to 2^62 + 1.
    pub(crate) fn rolled(self) -> OpenLedger
        requires { self.ledger ≤ 2 ^ 62 + 1 }
        ensures ledger { result.ledger ≡ min (self.ledger + 1) (2 ^ 62 + 1) }
        ensures next { self.ledger ≤ 2 ^ 62 → (result.ledger ≡ self.ledger + 1) × (result.used ≡ 0) }
        ensures last { 2 ^ 62 < self.ledger → (result.ledger ≡ self.ledger) × (result.used ≡ self.used) }
    {
        if self.ledger > LAST_LEDGER {
            return self;
        }
        OpenLedger {
            ledger: self.ledger + 1,
            used: 0,
        }
    }
}
