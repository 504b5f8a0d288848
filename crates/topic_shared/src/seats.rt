// Seats, each by whether it is taken, from seat 1 on.
ghost use Rattle.std.specs.Prelude.{◌≡◌, ◌↔◌, ◌-◌, ◌≤◌, IfOk, IfErr, OnErr, IfSome, IfNone, All, Some, set, slice_get, replicate, true, false, Err};
ghost use Rattle.position_core.specs.declared.fault.Fault.TheVariants.{NoMemory, NoRoom};
ghost use Rattle.topic_shared.specs.Seats.{IsFree, without_seat};

use crate::limits::SeatCount;
use position_core::Fault;
use std::alloc::Global;

/// So many seats, of which none is taken.
pub fn free_seats(alloc: Global, seats: SeatCount) -> Result<Vec<bool>, Fault>
    ensures ok { IfOk result (λ taken. taken.items ≡ replicate seats false) }
    ensures err { IfErr result (λ fault. fault ≡ NoMemory) }
{
    match Vec::from_elem(alloc, false, seats.get() as usize) {
        Ok(taken) => Ok(taken),
        Err(_) => Err(Fault::NoMemory),
    }
}

fn first_free(taken: &[bool]) -> Option<usize>
    ensures some { IfSome result (λ place. slice_get taken.now place ≡ Some false) }
    ensures none { IfNone result (All (λ b. b ≡ true) taken.now) }
{
    taken.iter().position(|is_taken| !*is_taken)
}

/// Takes a free seat. Seats count from 1 on; refused (F21) where none is free.
pub fn enter(taken: &mut Vec<bool>) -> Result<u64, Fault>
    ensures ok { IfOk result (λ seat. IsFree taken.old.items seat × (taken.new.items ≡ set taken.old.items (seat - 1) true)) }
    ensures err { OnErr result (taken.new.items ≡ taken.old.items) }
    ensures none { (result ≡ Err NoRoom) ↔ All (λ b. b ≡ true) taken.old.items }
    ensures fault { IfErr result (λ fault. fault ≡ NoRoom) }
{
    match first_free(taken.as_slice()) {
        Some(place) => {
            taken[place] = true;
            Ok(place as u64 + 1)
        }
        None => Err(Fault::NoRoom),
    }
}

/// Frees the seat. All stays where there is no such seat, as 0.
pub fn exit(taken: &mut Vec<bool>, seat: u64)
    ensures { taken.new.items ≡ without_seat taken.old.items seat }
{
    if seat > 0 && seat <= taken.len() as u64 {
        taken[(seat - 1) as usize] = false;
    }
}
