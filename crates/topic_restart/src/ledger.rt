// The ledger that a topic goes on with.
ghost use Rattle.std.specs.Prelude.{◌≡◌, ◌+◌, ◌^◌, min};

use delivery_machine::Snapshot;

/// The last ledger, into which no message goes any more.
const LAST_LEDGER: u64 = (1 << 62) + 1;

/// The ledger that messages go into after a restart from the snapshot.
pub fn ledger_after(snapshot: &Snapshot) -> u64
    ensures { result ≡ min (snapshot.now.ledger + 1) (2 ^ 62 + 1) }
{
    snapshot.ledger().saturating_add(1).min(LAST_LEDGER)
}
