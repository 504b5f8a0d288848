// How often the messages of a subscription were redelivered, as a store keeps it.
ghost use Rattle.std.specs.Prelude.{◌≡◌, map, OnOk, OnErr, IsTrue};
ghost use Rattle.std.specs.List.Sorted.{IsStrictlySortedBy};
ghost use Rattle.std.specs.FinMap as map_of;
ghost use Rattle.position_core.specs.Position.{position_cmp};
ghost use Rattle.delivery_machine.specs.Counts.{IsAfterAll};

use position_core::{Bounded, Position};
use std::alloc::{AllocError, Global};
use std::marker::Model;

/// How often a message was redelivered. A count goes no further.
pub type Times = Bounded<1, 2_147_483_647>;

/// A message that was redelivered, and how often.
#[derive(Clone, Copy)]
pub struct Counted {
    pub position: Position,
    pub times: Times,
}

/// The counts of the messages that were redelivered, in the order of their positions.
#[derive(Drop)]
pub struct Counts {
    entries: Vec<Counted>,
}

impl Model for Counts {
    ghost use Rattle.std.specs.Prelude.{ℕ, map};
    ghost use Rattle.std.specs.FinMap as map_of;
    ghost use Rattle.std.specs.List.Sorted.{IsStrictlySortedBy};
    ghost use Rattle.position_core.specs.Position.{position_cmp};
    ghost use Rattle.delivery_machine.specs.Codes.{coded_counts};

    ghost Value = { map_of.FinMap position_cmp ℕ };

    ghost coded = { coded_counts };

    ghost view = { λ c. map_of.from_entries (map (λ e. (e.position, e.times)) c.entries.items) };

    ghost invariant = { λ c. IsStrictlySortedBy position_cmp (map (λ e. e.position) c.entries.items) };
}

impl Counts {
    /// Nothing was redelivered.
    pub fn new(alloc: Global) -> Self
        ensures { result ≡ map_of.empty }
    {
        Counts {
            entries: Vec::new(alloc),
        }
    }

    /// Whether the position comes after all that are counted.
    pub fn is_after_all(&self, position: Position) -> bool
        ensures yes { IsTrue result → IsAfterAll self.now position }
        ensures no { IsAfterAll self.now position → IsTrue result }
    {
        match self.entries.last() {
            Some(last) => last.position.cmp(&position).is_lt(),
            None => true,
        }
    }

    /// Adds a message that comes after all that are counted. Another one is left out.
    pub fn push(&mut self, counted: Counted) -> Result<(), AllocError>
        ensures after { IsAfterAll self.old counted.position → OnOk result (self.new ≡ map_of.insert self.old counted.position counted.times) }
        ensures other { (IsAfterAll self.old counted.position → ⊥) → OnOk result (self.new ≡ self.old) }
        ensures err { OnErr result (self.new ≡ self.old) }
    {
        if self.is_after_all(counted.position) {
            self.entries.push(counted)?;
        }
        Ok(())
    }

    /// In the order of the positions.
    pub fn as_slice(&self) -> &[Counted]
        ensures entries { map (λ c. (c.position, c.times)) result.now ≡ map_of.entries self.now }
        ensures rising { IsStrictlySortedBy position_cmp (map (λ c. c.position) result.now) }
    {
        self.entries.as_slice()
    }
}

impl Clone for Counts {
    ghost use Rattle.std.specs.Prelude.{◌≡◌};

    ghost is_clone = { λ counts copy. copy ≡ counts };

    fn clone(&self) -> Result<Self, AllocError> {
        let entries = self.entries.clone()?;
        Ok(Counts { entries })
    }
}
