// How often the messages of a subscription were redelivered.
ghost use Rattle.std.specs.Prelude.{◌≡◌, List, ◌+◌, ◌++◌, not, map, OnOk, OnErr, IfOk};
ghost use Rattle.std.specs.List.{filter};
ghost use Rattle.std.specs.List.Sorted.{IsStrictlySortedBy};
ghost use Rattle.std.specs.Option.{unwrap_or};
ghost use Rattle.std.specs.FinSet as set;
ghost use Rattle.std.specs.FinMap as map_of;
ghost use Rattle.position_core.specs.Position.{position_cmp};
ghost use Rattle.delivery_machine.specs.State.{DeadLetter};
ghost use Rattle.delivery_machine.specs.Acknowledging.{is_one_of};
ghost use Rattle.delivery_machine.specs.Ticking.{counted_again, recounted};
ghost use Rattle.delivery_machine.specs.WellFormed.{AreCountsOf};
ghost use Rattle.plain_lists.specs.Counted.{count_in, raised_entries};

use crate::table::{find_at, leave_out};
use delivery_machine::{Counted, Counts, Times, is_one_of};
use position_core::{Message, Position};
use std::alloc::{AllocError, Global};
use std::marker::Model;

/// A count is at most this.
const MOST: u32 = 2_147_483_647;

/// The counts of the messages that were redelivered: a list of entries.
#[derive(Drop)]
pub struct CountTable {
    entries: Vec<(Position, u32)>,
}

impl Model for CountTable {
    ghost use Rattle.std.specs.Prelude.{ℕ};
    ghost use Rattle.std.specs.FinMap as map_of;
    ghost use Rattle.position_core.specs.Position.{position_cmp};
    ghost use Rattle.delivery_machine.specs.Codes.{coded_counts};

    ghost Value = { map_of.FinMap position_cmp ℕ };

    ghost coded = { coded_counts };

    ghost view = { λ t. map_of.from_entries t.entries.items };
}

impl CountTable {
    pub fn new(alloc: Global) -> Self
        ensures { result ≡ map_of.empty }
    {
        CountTable {
            entries: Vec::new(alloc),
        }
    }

    /// The counts that a store kept.
    pub fn of(alloc: Global, counts: &Counts) -> Result<Self, AllocError>
        ensures { IfOk result (λ table. table ≡ counts.now) }
    {
        let entries = entries_of(alloc, counts.as_slice())?;
        Ok(CountTable { entries })
    }

    /// The counts as a store keeps them, where the log is the topic's.
    pub fn counts(&self, alloc: Global, log: &[Message]) -> Result<Counts, AllocError>
        ensures { (acknowledged : set.FinSet position_cmp) (dead : List DeadLetter) → IsStrictlySortedBy position_cmp (map (λ e. e.position) log.now) → AreCountsOf log.now acknowledged dead self.now → IfOk result (λ counts. counts ≡ self.now) }
    {
        let mut counts = Counts::new(alloc);
        for message in log {
            let position = message.position();
            if let Some(times) = Times::new(self.get(position)) {
                counts.push(Counted { position, times })?;
            }
        }
        Ok(counts)
    }

    pub fn get(&self, position: Position) -> u32
        ensures { result ≡ unwrap_or (map_of.get self.now position) 0 }
    {
        count_in(&self.entries, position)
    }

    pub fn leave_out(&mut self, positions: &[Position])
        ensures { self.new ≡ map_of.retain_keys self.old (λ p. not (is_one_of positions.now p)) }
    {
        leave_out(&mut self.entries, positions);
    }

    pub fn clear(&mut self)
        ensures { self.new ≡ map_of.empty }
    {
        self.entries.clear();
    }

    /// Counts each of the messages once more. Nothing changes where there is no memory.
    pub fn count_again(&mut self, alloc: Global, positions: &[Position]) -> Result<(), AllocError>
        ensures ok { OnOk result (self.new ≡ recounted positions.now self.old) }
        ensures err { OnErr result (self.new ≡ self.old) }
    {
        let mut entries = raised_entries(alloc, &self.entries, positions)?;
        add_others(&mut entries, &self.entries, positions)?;
        self.entries = entries;
        Ok(())
    }
}

fn entries_of(alloc: Global, counts: &[Counted]) -> Result<Vec<(Position, u32)>, AllocError>
    ensures { IfOk result (λ entries. entries.items ≡ map (λ c. (c.position, c.times)) counts.now) }
{
    counts
        .iter()
        .map(|c| (c.position, c.times.get()))
        .collect(alloc)
}

fn count_in(entries: &[(Position, u32)], position: Position) -> u32
    ensures { result ≡ count_in entries.now position }
{
    match find_at(entries, position) {
        Some(count) => count,
        None => 0,
    }
}

pub(crate) fn counted_again(count: u32) -> u32
    ensures { result ≡ counted_again count }
{
    if count < MOST { count + 1 } else { MOST }
}

/// The new counts of the messages.
fn raised_entries(
    alloc: Global,
    entries: &[(Position, u32)],
    positions: &[Position],
) -> Result<Vec<(Position, u32)>, AllocError>
    ensures { IfOk result (λ raised. raised.items ≡ raised_entries entries.now positions.now) }
{
    let mut raised = Vec::new(alloc);
    for position in positions {
        raised.push((*position, counted_again(count_in(entries, *position))))?;
    }
    Ok(raised)
}

/// Adds the entries of the other messages.
fn add_others(
    to: &mut Vec<(Position, u32)>,
    entries: &[(Position, u32)],
    positions: &[Position],
) -> Result<(), AllocError>
    ensures { OnOk result (to.new.items ≡ to.old.items ++ filter (λ e. not (is_one_of positions.now e.0)) entries.now) }
{
    for entry in entries {
        if !is_one_of(positions, entry.0) {
            to.push(*entry)?;
        }
    }
    Ok(())
}
