// Sets that are searched from their first element on.
ghost use Rattle.std.specs.Prelude.{◌≡◌, ◌++◌, not, OnOk, OnErr, IfOk, length, map};
ghost use Rattle.std.specs.List.{filter};
ghost use Rattle.std.specs.FinSet as set;
ghost use Rattle.delivery_machine.specs.Acknowledging.{is_one_of, positions_up_to};
ghost use Rattle.delivery_machine.specs.Places.{AreBelow, positions_at};
ghost use Rattle.delivery_machine.specs.WellFormed.{AreMessagesOf};
ghost use Rattle.plain_lists.specs.Places.{ArePlacesOf};

use crate::places::{places_of, positions_at};
use ack_ranges::AckSet;
use delivery_machine::is_one_of;
use position_core::{Message, Position};
use std::alloc::{AllocError, Global};
use std::marker::Model;

/// A set of positions: a list, which may have repeats.
#[derive(Drop)]
pub struct PositionSet {
    items: Vec<Position>,
}

impl Model for PositionSet {
    ghost use Rattle.std.specs.FinSet as set;
    ghost use Rattle.position_core.specs.Position.{position_cmp};
    ghost use Rattle.delivery_machine.specs.Codes.{coded_positions};

    ghost Value = { set.FinSet position_cmp };

    ghost coded = { coded_positions };

    ghost view = { λ s. set.from_list s.items.items };
}

impl PositionSet {
    pub fn new(alloc: Global) -> Self
        ensures { result ≡ set.empty }
    {
        PositionSet {
            items: Vec::new(alloc),
        }
    }

    /// The positions of the whole log.
    pub fn all_of(alloc: Global, log: &[Message]) -> Result<Self, AllocError>
        ensures { IfOk result (λ s. s ≡ set.from_list (map (λ e. e.position) log.now)) }
    {
        Ok(PositionSet {
            items: positions_of(alloc, log)?,
        })
    }

    pub fn contains(&self, position: Position) -> bool
        ensures { result ≡ set.contains self.now position }
    {
        is_one_of(&self.items, position)
    }

    /// The positions of the messages that stand at the places.
    pub fn at_places(alloc: Global, log: &[Message], places: &AckSet) -> Result<Self, AllocError>
        ensures { IfOk result (λ s. s ≡ positions_at log.now places.now) }
    {
        Ok(PositionSet {
            items: positions_at(alloc, log, places)?,
        })
    }

    /// The places in the log of the messages whose positions are in the set.
    #[tactic(auto, using(crate::proofs::Placed::positions_back, crate::proofs::Placed::places_below))]
    pub fn places(&self, alloc: Global, log: &[Message]) -> Result<AckSet, AllocError>
        ensures places { IfOk result (λ places. ArePlacesOf log.now self.now places) }
        ensures within { IfOk result (AreBelow (length log.now)) }
        ensures back { AreMessagesOf log.now self.now → IfOk result (λ places. positions_at log.now places ≡ self.now) }
    {
        places_of(alloc, log, self)
    }

    pub fn add(&mut self, positions: &[Position]) -> Result<(), AllocError>
        ensures ok { OnOk result (self.new ≡ set.union self.old (set.from_list positions.now)) }
        ensures err { OnErr result (self.new ≡ self.old) }
    {
        self.items.extend_from_slice(positions)?;
        Ok(())
    }

    pub fn leave_out(&mut self, positions: &[Position])
        ensures { self.new ≡ set.difference self.old (set.from_list positions.now) }
    {
        leave_out(&mut self.items, positions);
    }
}

fn leave_out(items: &mut Vec<Position>, positions: &[Position])
    ensures { items.new.items ≡ filter (λ p. not (is_one_of positions.now p)) items.old.items }
{
    items.retain(|position| !is_one_of(positions, *position));
}

/// The positions of the messages, in their order.
pub fn positions_of(alloc: Global, log: &[Message]) -> Result<Vec<Position>, AllocError>
    ensures { IfOk result (λ ps. ps.items ≡ map (λ e. e.position) log.now) }
{
    let mut positions = Vec::new(alloc);
    for message in log {
        positions.push(message.position())?;
    }
    Ok(positions)
}

/// The positions of the log up to the given one.
pub fn positions_up_to(
    alloc: Global,
    log: &[Message],
    position: Position,
) -> Result<Vec<Position>, AllocError>
    ensures { IfOk result (λ ps. ps.items ≡ positions_up_to position log.now) }
{
    let mut positions = Vec::new(alloc);
    for message in log {
        if message.position() <= position {
            positions.push(message.position())?;
        }
    }
    Ok(positions)
}
