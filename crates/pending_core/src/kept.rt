// The entries of the map of pending messages.
use crate::due::Slot;
use position_core::{DueMoment, Held, Position};

/// What is kept of a position: the number of its slot, who holds it, and how often it was redelivered.
#[derive(Clone, Copy)]
pub(crate) struct Kept {
    pub(crate) slot: usize,
    pub(crate) held: Option<Held>,
    pub(crate) count: u32,
}

impl Kept {
    ghost use Rattle.std.specs.Prelude.{◌≡◌};
    ghost use Rattle.pending_core.specs.Kept.{slot_of, held_until, counted_once_more};

    /// What stands in the slot.
    pub(crate) fn slot_of(self, position: Position) -> Slot
        ensures { result ≡ slot_of position self }
    {
        Slot {
            position,
            due: self.held.and_then(|held| held.due),
        }
    }

    /// The holder, with another due moment.
    pub(crate) fn held_until(self, due: DueMoment) -> Option<Held>
        ensures { result ≡ held_until due self }
    {
        let due = Some(due);
        self.held.map(|held| Held { due, ..held })
    }

    /// Counted once more, where it is held. A count stays at 2^31 - 1.
    pub(crate) fn counted_once_more(self) -> Kept
        ensures { result ≡ counted_once_more self }
    {
        if self.held.is_none() {
            return self;
        }
        Kept {
            count: self.count.saturating_add(1).min(2_147_483_647),
            ..self
        }
    }
}
