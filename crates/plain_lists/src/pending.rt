// At whom each message is pending, searched from the first entry on.
ghost use Rattle.std.specs.Prelude.{◌≡◌, ◌==◌, OnOk, OnErr, not, if◌then◌else◌, Some};
ghost use Rattle.std.specs.List.{filter};
ghost use Rattle.std.specs.Option.{option_map, option_and_then};
ghost use Rattle.std.specs.FinMap as map_of;
ghost use Rattle.delivery_machine.specs.Acknowledging.{is_one_of};
ghost use Rattle.position_core.specs.Position.{same_position};
ghost use Rattle.delivery_machine.specs.Words.{changed, is_held_by};
ghost use Rattle.delivery_machine.specs.Ticking.{is_due};

use crate::table::{find_at, leave_out, place_at};
use position_core::{ConsumerNumber, Held, Moment, Position};
use std::alloc::{AllocError, Global};
use std::marker::Model;

/// The pending messages: a list of entries, no position twice.
#[derive(Drop)]
pub struct PendingTable {
    entries: Vec<(Position, Held)>,
}

impl Model for PendingTable {
    ghost use Rattle.std.specs.Prelude.{◌≡◌, true};
    ghost use Rattle.std.specs.FinMap as map_of;
    ghost use Rattle.position_core.specs.Position.{position_cmp};
    ghost use Rattle.position_core.specs.declared.held.Held.{Held};
    ghost use Rattle.delivery_machine.specs.Codes.{coded_pending};
    ghost use Rattle.plain_lists.specs.Keyed.{is_keyed};

    ghost Value = { map_of.FinMap position_cmp Held };

    ghost coded = { coded_pending };

    ghost view = { λ t. map_of.from_entries t.entries.items };

    ghost invariant = { λ t. is_keyed t.entries.items ≡ true };
}

impl PendingTable {
    pub fn new(alloc: Global) -> Self
        ensures { result ≡ map_of.empty }
    {
        PendingTable {
            entries: Vec::new(alloc),
        }
    }

    fn get(&self, position: Position) -> Option<Held>
        ensures { result ≡ map_of.get self.now position }
    {
        find_at(&self.entries, position)
    }

    pub fn contains(&self, position: Position) -> bool
        ensures { result ≡ map_of.contains_key self.now position }
    {
        self.get(position).is_some()
    }

    pub fn holder(&self, position: Position) -> Option<u64>
        ensures { result ≡ option_map (λ h. h.consumer) (map_of.get self.now position) }
    {
        self.get(position).map(|held| held.consumer)
    }

    pub fn is_held_by(&self, position: Position, consumer: ConsumerNumber) -> bool
        ensures { result ≡ is_held_by consumer (map_of.get self.now position) }
    {
        match self.get(position) {
            Some(held) => held.consumer == consumer,
            None => false,
        }
    }

    pub fn insert(&mut self, position: Position, held: Held) -> Result<(), AllocError>
        ensures ok { OnOk result (self.new ≡ map_of.insert self.old position held) }
        ensures err { OnErr result (self.new ≡ self.old) }
    {
        self.entries.reserve(1)?;
        leave_out(&mut self.entries, &[position]);
        self.entries.push_reserved((position, held));
        Ok(())
    }

    /// From when on the message may be released.
    pub fn due(&self, position: Position) -> Option<u64>
        ensures { result ≡ option_and_then (λ h. h.due) (map_of.get self.now position) }
    {
        match self.get(position) {
            Some(held) => held.due,
            None => None,
        }
    }

    /// Changes what is held of a message that is pending.
    pub fn rehold(&mut self, position: Position, held: Held)
        ensures { self.new ≡ (if map_of.contains_key self.old position then map_of.insert self.old position held else self.old) }
    {
        rehold(&mut self.entries, position, held);
    }

    pub fn leave_out(&mut self, positions: &[Position])
        ensures { self.new ≡ map_of.retain_keys self.old (λ p. not (is_one_of positions.now p)) }
    {
        leave_out(&mut self.entries, positions);
    }

    /// Takes out what is pending at the consumer.
    pub fn release_held_by(&mut self, consumer: ConsumerNumber)
        ensures { self.new ≡ map_of.retain_keys self.old (λ p. not (is_held_by consumer (map_of.get self.old p))) }
    {
        release_held_by(&mut self.entries, consumer);
    }

    pub fn clear(&mut self)
        ensures { self.new ≡ map_of.empty }
    {
        self.entries.clear();
    }
}

fn rehold(entries: &mut Vec<(Position, Held)>, position: Position, held: Held)
    ensures { entries.new.items ≡ changed (λ e. same_position position e.0) (λ e. (e.0, held)) entries.old.items }
{
    match place_at(entries, position) {
        Some(place) => entries[place] = (entries[place].0, held),
        None => {}
    }
}

fn release_held_by(entries: &mut Vec<(Position, Held)>, consumer: ConsumerNumber)
    ensures { entries.new.items ≡ filter (λ e. not (e.1.consumer == consumer)) entries.old.items }
{
    entries.retain(|entry| entry.1.consumer != consumer);
}
