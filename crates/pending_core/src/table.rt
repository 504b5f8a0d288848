// Changes of what is kept of a position, and of its slot.
ghost use Rattle.std.specs.Prelude.{◌≡◌, ◌==◌, ◌<◌, ◌≤◌, if◌then◌else◌, length, map, List, Some, None, IfOk, IfSome, OnOk, OnErr, slice_set};
ghost use Rattle.delivery_machine.specs.Ticking.{most_count};
ghost use Rattle.std.specs.List.Sorted.{IsStrictlySortedBy};
ghost use Rattle.std.specs.FinMap as map_of;
ghost use Rattle.position_core.specs.Position.{position_cmp};
ghost use Rattle.pending_core.specs.declared.due.Slot.{Slot};
ghost use Rattle.pending_core.specs.Pending.{counted, counted_before, nothing_pending, holding, without, released, due_again, redelivered};
ghost use Rattle.pending_core.specs.Kept.{kept_at, pending_in, slot_of, with_value, ChangesAt, AreTied};

use crate::kept::Kept;
use crate::tree::DueTree;
use delivery_machine::{Counted, Counts, Times};
use position_core::{DueMoment, Held, Position};
use std::alloc::{AllocError, Global};
use std::collections::BTreeMap;

pub(crate) type Table = BTreeMap<Position, Kept>;

pub(crate) fn find(table: &Table, position: Position) -> Option<Kept>
    ensures { result ≡ kept_at table.now.entries position }
{
    table.get(&position).copied()
}

pub(crate) fn held(table: &Table, position: Position) -> Option<Held>
    ensures { result ≡ map_of.get (pending_in table.now.entries).pending position }
{
    match find(table, position) {
        Some(kept) => kept.held,
        None => None,
    }
}

/// Gives a position another holder, or none.
fn set_held(kept: &mut Kept, slots: &mut DueTree, position: Position, held: Option<Held>)
    requires { kept.old.slot < length slots.old }
    ensures kept { kept.new ≡ record kept.old { held = held } }
    ensures slots { slots.new ≡ slice_set slots.old kept.old.slot (slot_of position kept.new) }
{
    kept.held = held;
    slots.set(kept.slot, kept.slot_of(position));
}

/// Keeps a position of which nothing is kept, with a count, or at a holder.
fn add(
    table: &mut Table,
    slots: &mut DueTree,
    position: Position,
    held: Option<Held>,
    count: u32,
) -> Result<(), AllocError>
    requires tied { AreTied table.old.entries slots.old }
    requires absent { kept_at table.old.entries position ≡ None }
    requires within { count ≤ most_count }
    ensures tied { AreTied table.new.entries slots.new }
    ensures held { OnOk result ((pending_in table.new.entries).pending ≡ with_value (pending_in table.old.entries).pending position held) }
    ensures counts { OnOk result ((pending_in table.new.entries).counts ≡ with_value (pending_in table.old.entries).counts position (if count == 0 then None else Some count)) }
    ensures err { OnErr result (pending_in table.new.entries ≡ pending_in table.old.entries) }
{
    let kept = Kept {
        slot: slots.len(),
        held,
        count,
    };
    slots.push(kept.slot_of(position))?;
    match table.insert(position, kept) {
        Ok(_) => Ok(()),
        Err(failed) => {
            slots.swap_remove(kept.slot);
            Err(failed.into())
        }
    }
}

pub(crate) fn hold(
    table: &mut Table,
    slots: &mut DueTree,
    position: Position,
    held: Held,
) -> Result<(), AllocError>
    requires { AreTied table.old.entries slots.old }
    ensures tied { AreTied table.new.entries slots.new }
    ensures ok { OnOk result (pending_in table.new.entries ≡ holding position held (pending_in table.old.entries)) }
    ensures err { OnErr result (pending_in table.new.entries ≡ pending_in table.old.entries) }
{
    match table.get_mut(&position) {
        Some(kept) => {
            set_held(kept, slots, position, Some(held));
            Ok(())
        }
        None => add(table, slots, position, Some(held), 0),
    }
}

pub(crate) fn release(table: &mut Table, slots: &mut DueTree, position: Position)
    requires { AreTied table.old.entries slots.old }
    ensures tied { AreTied table.new.entries slots.new }
    ensures seen { pending_in table.new.entries ≡ released position (pending_in table.old.entries) }
{
    match table.get_mut(&position) {
        Some(kept) => set_held(kept, slots, position, None),
        None => (),
    }
}

pub(crate) fn set_due(table: &mut Table, slots: &mut DueTree, position: Position, due: DueMoment)
    requires { AreTied table.old.entries slots.old }
    ensures tied { AreTied table.new.entries slots.new }
    ensures seen { pending_in table.new.entries ≡ due_again position due (pending_in table.old.entries) }
{
    match table.get_mut(&position) {
        Some(kept) => {
            let held = kept.held_until(due);
            set_held(kept, slots, position, held);
        }
        None => (),
    }
}

pub(crate) fn count(table: &mut Table, position: Position)
    ensures tied { (slots : List Slot) → AreTied table.old.entries slots → AreTied table.new.entries slots }
    ensures seen { pending_in table.new.entries ≡ redelivered position (pending_in table.old.entries) }
{
    match table.get_mut(&position) {
        Some(kept) => *kept = kept.counted_once_more(),
        None => (),
    }
}

/// Keeps another slot of a position.
fn move_to(table: &mut Table, position: Position, slot: usize)
    ensures { IfSome (kept_at table.old.entries position) (λ kept. ChangesAt position (Some (record kept { slot = slot })) table.old.entries table.new.entries) }
{
    match table.get_mut(&position) {
        Some(kept) => kept.slot = slot,
        None => (),
    }
}

pub(crate) fn remove(table: &mut Table, slots: &mut DueTree, position: Position)
    requires { AreTied table.old.entries slots.old }
    ensures tied { AreTied table.new.entries slots.new }
    ensures seen { pending_in table.new.entries ≡ without position (pending_in table.old.entries) }
{
    match table.remove(&position) {
        Some(gone) => {
            slots.swap_remove(gone.slot);
            match slots.get(gone.slot) {
                Some(moved) => move_to(table, moved.position, gone.slot),
                None => (),
            }
        }
        None => (),
    }
}

/// Counts a message so often, whatever its count was.
pub(crate) fn set_count(
    table: &mut Table,
    slots: &mut DueTree,
    position: Position,
    times: Times,
) -> Result<(), AllocError>
    requires { AreTied table.old.entries slots.old }
    ensures tied { AreTied table.new.entries slots.new }
    ensures ok { OnOk result (pending_in table.new.entries ≡ counted position times (pending_in table.old.entries)) }
    ensures err { OnErr result (pending_in table.new.entries ≡ pending_in table.old.entries) }
{
    let count = times.get();
    match table.get_mut(&position) {
        Some(kept) => {
            kept.count = count;
            Ok(())
        }
        None => add(table, slots, position, None, count),
    }
}

/// Counts each message as often as is said, where nothing was kept.
pub(crate) fn set_counts(
    table: &mut Table,
    slots: &mut DueTree,
    counts: &[Counted],
) -> Result<(), AllocError>
    requires tied { AreTied table.old.entries slots.old }
    requires nothing { pending_in table.old.entries ≡ nothing_pending }
    requires rising { IsStrictlySortedBy position_cmp (map (λ c. c.position) counts.now) }
    ensures tied { OnOk result (AreTied table.new.entries slots.new) }
    ensures ok { OnOk result (pending_in table.new.entries ≡ counted_before (map_of.from_entries (map (λ c. (c.position, c.times)) counts.now))) }
{
    for one in counts {
        set_count(table, slots, one.position, one.times)?;
    }
    Ok(())
}

/// The counts, in the order of the positions.
pub(crate) fn counts_of(alloc: Global, table: &Table) -> Result<Counts, AllocError>
    requires { (position : Position) (kept : Kept) → kept_at table.now.entries position ≡ Some kept → kept.count ≤ most_count }
    ensures { IfOk result (λ counts. counts ≡ (pending_in table.now.entries).counts) }
{
    let mut counts = Counts::new(alloc);
    for (position, kept) in table.iter() {
        match Times::new(kept.count) {
            Some(times) => counts.push(Counted {
                position: *position,
                times,
            })?,
            None => (),
        }
    }
    Ok(counts)
}
