// What a store keeps snapshots of, and the topics that go on from them.
ghost use Rattle.std.specs.Prelude.{◌≡◌, ◌⊎◌, IfOk, IfErr, IsOk, OnOk, Bool, true};
ghost use Rattle.position_core.specs.declared.fault.Fault.TheVariants.{JournalFull, NoMemory};
ghost use Rattle.delivery_machine.specs.State.{State, fresh};
ghost use Rattle.delivery_machine.specs.Snapshot.{snapshot_of, restarted};
ghost use Rattle.delivery_machine.specs.Places.{snapshot_in};
ghost use Rattle.delivery_machine.specs.Run.{Step};
ghost use Rattle.delivery_machine.specs.declared.event.Event.TheVariants.{Stored};

use crate::reply::Reply;
use crate::snapshot::Snapshot;
use crate::topic::Topic;
use position_core::{Fault, LedgerSize, TopicName};
use std::alloc::Global;

/// What a store keeps snapshots of: a topic, or a topic with what is written of it.
pub trait Saved {
    /// The machine's state that is saved.
    ghost saved: { Self → State };

    /// Both are the same, but for free room.
    ghost Same: { Self → Self → Type 0 };

    /// It has the room that `stored` needs.
    ghost has_room: { Self → Bool };

    /// Gets the room that `stored` needs. F15 where no line is left for it.
    fn ready(&mut self) -> Result<(), Fault>
        ensures room { OnOk result (has_room self.new ≡ true) }
        ensures same { Same self.old self.new }
        ensures state { saved self.new ≡ saved self.old }
        ensures err { IfErr result (λ fault. (fault ≡ NoMemory) ⊎ (fault ≡ JournalFull)) };

    /// The snapshot of the state.
    fn view(&self) -> Result<Snapshot, Fault>
        ensures ok { IfOk result (λ kept. snapshot_in kept ≡ snapshot_of (saved self.now)) }
        ensures err { IfErr result (λ fault. fault ≡ NoMemory) };

    /// All that a snapshot has now is stored.
    fn stored(&mut self) -> Reply
        requires { has_room self.old ≡ true }
        ensures { Step (saved self.old) Stored result (saved self.new) };
}

/// A topic that may be made anew, or from a snapshot.
pub trait Opened: Topic + Saved {
    /// With nothing in it.
    fn fresh(alloc: Global, name: TopicName, ledger_size: LedgerSize) -> Result<Self, Fault>
        ensures ok { IfOk result (λ topic. Self.state topic ≡ fresh name ledger_size) }
        ensures err { IfErr result (λ fault. fault ≡ NoMemory) };

    /// It goes on from the snapshot: nobody is there, and messages go into the next ledger.
    fn restart(alloc: Global, snapshot: &Snapshot) -> Result<Self, Fault>
        ensures ok { IfOk result (λ topic. Self.state topic ≡ restarted (snapshot_in snapshot.now)) }
        ensures err { IfErr result (λ fault. fault ≡ NoMemory) };

    /// What is saved is the state that it is in.
    ghost saves_state: { (topic : Self) → Self.saved topic ≡ Self.state topic };
}
