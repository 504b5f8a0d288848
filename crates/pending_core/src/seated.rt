// Changes of what is kept of a position, with the seats that are taken.
ghost use Rattle.std.specs.Prelude.{◌≡◌, false, true, IfSome, IfNone, OnOk, OnErr};
ghost use Rattle.std.specs.Option.{option_map};
ghost use Rattle.std.specs.BTreeSet as tree_set;
ghost use Rattle.std.specs.FinMap as map_of;
ghost use Rattle.delivery_machine.specs.Words.{is_held_by};
ghost use Rattle.pending_core.specs.Pending.{holding, without, released};
ghost use Rattle.pending_core.specs.Kept.{pending_in, AreTied};
ghost use Rattle.pending_core.specs.Seats.{seat_cmp, seat_of, AreSeatsOf, SeatChanges};

use crate::seats::{Seat, Seats};
use crate::table::{self, Table};
use crate::tree::DueTree;
use position_core::{Held, Position};
use std::alloc::AllocError;

/// The seat that a message has.
fn seat_in(table: &Table, position: Position) -> Option<Seat>
    ensures { result ≡ option_map (λ held. seat_of held.consumer position) (map_of.get (pending_in table.now.entries).pending position) }
{
    match table::held(table, position) {
        Some(held) => Some(Seat {
            consumer: held.consumer,
            position,
        }),
        None => None,
    }
}

fn leave(seats: &mut Seats, seat: Option<Seat>)
    requires { IfSome seat (λ s. tree_set.contains seat_cmp seats.old s ≡ true) }
    ensures some { IfSome seat (λ s. SeatChanges s false seats.old seats.new) }
    ensures none { IfNone seat (seats.new ≡ seats.old) }
{
    match seat {
        Some(seat) => seats.leave(seat),
        None => (),
    }
}

/// Makes a message pending at a consumer that does not hold it. All room comes first.
fn hold_elsewhere(
    table: &mut Table,
    slots: &mut DueTree,
    seats: &mut Seats,
    position: Position,
    held: Held,
    before: Option<Seat>,
) -> Result<(), AllocError>
    requires tied { AreTied table.old.entries slots.old }
    requires seated { AreSeatsOf seats.old (pending_in table.old.entries).pending }
    requires before { before ≡ option_map (λ h. seat_of h.consumer position) (map_of.get (pending_in table.old.entries).pending position) }
    requires elsewhere { is_held_by held.consumer (map_of.get (pending_in table.old.entries).pending position) ≡ false }
    ensures tied { AreTied table.new.entries slots.new }
    ensures seated { AreSeatsOf seats.new (pending_in table.new.entries).pending }
    ensures ok { OnOk result (pending_in table.new.entries ≡ holding position held (pending_in table.old.entries)) }
    ensures err { OnErr result (pending_in table.new.entries ≡ pending_in table.old.entries) }
{
    let seat = Seat {
        consumer: held.consumer,
        position,
    };
    seats.take(seat)?;
    match table::hold(table, slots, position, held) {
        Ok(()) => {
            leave(seats, before);
            Ok(())
        }
        Err(e) => {
            seats.leave(seat);
            Err(e)
        }
    }
}

pub(crate) fn hold(
    table: &mut Table,
    slots: &mut DueTree,
    seats: &mut Seats,
    position: Position,
    held: Held,
) -> Result<(), AllocError>
    requires tied { AreTied table.old.entries slots.old }
    requires seated { AreSeatsOf seats.old (pending_in table.old.entries).pending }
    ensures tied { AreTied table.new.entries slots.new }
    ensures seated { AreSeatsOf seats.new (pending_in table.new.entries).pending }
    ensures ok { OnOk result (pending_in table.new.entries ≡ holding position held (pending_in table.old.entries)) }
    ensures err { OnErr result (pending_in table.new.entries ≡ pending_in table.old.entries) }
{
    match seat_in(table, position) {
        Some(before) => {
            if before.consumer == held.consumer {
                table::hold(table, slots, position, held)
            } else {
                hold_elsewhere(table, slots, seats, position, held, Some(before))
            }
        }
        None => hold_elsewhere(table, slots, seats, position, held, None),
    }
}

pub(crate) fn release(table: &mut Table, slots: &mut DueTree, seats: &mut Seats, position: Position)
    requires tied { AreTied table.old.entries slots.old }
    requires seated { AreSeatsOf seats.old (pending_in table.old.entries).pending }
    ensures tied { AreTied table.new.entries slots.new }
    ensures seated { AreSeatsOf seats.new (pending_in table.new.entries).pending }
    ensures seen { pending_in table.new.entries ≡ released position (pending_in table.old.entries) }
{
    let before = seat_in(table, position);
    table::release(table, slots, position);
    leave(seats, before);
}

pub(crate) fn remove(table: &mut Table, slots: &mut DueTree, seats: &mut Seats, position: Position)
    requires tied { AreTied table.old.entries slots.old }
    requires seated { AreSeatsOf seats.old (pending_in table.old.entries).pending }
    ensures tied { AreTied table.new.entries slots.new }
    ensures seated { AreSeatsOf seats.new (pending_in table.new.entries).pending }
    ensures seen { pending_in table.new.entries ≡ without position (pending_in table.old.entries) }
{
    let before = seat_in(table, position);
    table::remove(table, slots, position);
    leave(seats, before);
}
