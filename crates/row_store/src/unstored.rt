// Why topics were not stored.
ghost use Rattle.std.specs.Prelude.{◌≡◌, ◌⊎◌, ◌↔◌};
ghost use Rattle.position_core.specs.declared.fault.Fault.TheVariants.{NoMemory, StoreFailed};

use delivery_machine::Fault;

/// A store that failed, now or before, or one that must not be (F16). It is neither copied nor dropped: whoever has it asks for
/// its fault, and so has seen it.
pub struct Failed(());

impl Failed {
    /// The refusal that it comes to.
    pub fn fault(self) -> Fault
        ensures { result ≡ StoreFailed }
    {
        let Failed(()) = self;
        Fault::StoreFailed
    }
}

/// Why topics were not stored.
pub enum Unstored {
    /// There was no memory (F1), and nothing changed: they may be stored later.
    NoMemory,
    Failed(Failed),
}

impl Unstored {
    /// That the store failed.
    pub(crate) fn failed() -> Unstored
        ensures { (result ≡ Unstored.NoMemory) → ⊥ }
    {
        Unstored::Failed(Failed(()))
    }

    /// What a refusal on the way to a store comes to. Only want of memory is no failure.
    pub fn of(fault: Fault) -> Unstored
        ensures { (result ≡ Unstored.NoMemory) ↔ (fault ≡ NoMemory) }
    {
        if fault == Fault::NoMemory {
            Unstored::NoMemory
        } else {
            Unstored::failed()
        }
    }

    /// The refusal that it comes to.
    pub fn fault(self) -> Fault
        ensures memory { (result ≡ NoMemory) ↔ (self ≡ Unstored.NoMemory) }
        ensures faults { (result ≡ NoMemory) ⊎ (result ≡ StoreFailed) }
    {
        match self {
            Unstored::NoMemory => Fault::NoMemory,
            Unstored::Failed(failed) => failed.fault(),
        }
    }
}

/// Why a round was not made.
pub enum Unmade {
    /// No line of the topic's journal was left for it (F15), and nothing was stored.
    JournalFull,
    Unstored(Unstored),
}

impl Unmade {
    /// What the refusal of a promise comes to.
    pub(crate) fn of(fault: Fault) -> Unmade
        ensures full { (result ≡ Unmade.JournalFull) ↔ (fault ≡ Fault.JournalFull) }
        ensures memory { (result ≡ Unmade.Unstored Unstored.NoMemory) ↔ (fault ≡ NoMemory) }
    {
        if fault == Fault::JournalFull {
            Unmade::JournalFull
        } else {
            Unmade::Unstored(Unstored::of(fault))
        }
    }

    /// The refusal that it comes to.
    pub fn fault(self) -> Fault
        ensures full { (result ≡ Fault.JournalFull) ↔ (self ≡ Unmade.JournalFull) }
        ensures memory { (result ≡ NoMemory) ↔ (self ≡ Unmade.Unstored Unstored.NoMemory) }
        ensures faults { (result ≡ Fault.JournalFull) ⊎ (result ≡ NoMemory) ⊎ (result ≡ StoreFailed) }
    {
        match self {
            Unmade::JournalFull => Fault::JournalFull,
            Unmade::Unstored(why) => why.fault(),
        }
    }
}
