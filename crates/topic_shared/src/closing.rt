// What is checked before a shared topic is closed: that all seats are here, and each has its lines.
ghost use Rattle.std.specs.Prelude.{◌≡◌, ◌↔◌, ◌+◌, ◌<◌, ◌≤◌, ◌||◌, ◌==◌, IsTrue, All, length, IfOk, IfErr, vec_len, vec_capacity, ◌^◌, true};
ghost use Rattle.position_core.specs.declared.fault.Fault.TheVariants.{NoMemory};
ghost use Rattle.topic_shared.specs.Accounts.{lines_of, AllCounted, NoOthers, is_listed, calls_of};

use crate::limits::SeatCount;
use crate::line::Line;
use crate::seat::{Opening, Seat, Spare};
use position_core::Fault;
use std::alloc::Global;
use std::sync::ledger::Share;

fn count(lines: &[Line], number: u64) -> usize
    ensures { result ≡ lines_of number lines.now }
{
    lines.iter().filter(|line| line.seat() == number).count()
}

fn is_counted<L: Opening>(lines: &[Line], seat: &Seat<L>) -> bool
    ensures { IsTrue result ↔ lines_of seat.now.number lines.now ≡ seat.now.calls }
{
    count(lines, seat.number()) as u64 == seat.calls()
}

pub fn are_counted<L: Opening>(lines: &[Line], seats: &[Seat<L>]) -> bool
    ensures { IsTrue result → AllCounted lines.now seats.now }
{
    seats.iter().all(|seat| is_counted(lines, seat))
}

fn is_counted_spare(lines: &[Line], spare: &Spare) -> bool
    ensures { IsTrue result ↔ lines_of spare.now.number lines.now ≡ spare.now.calls }
{
    count(lines, spare.number) as u64 == spare.calls
}

pub fn are_counted_spares(lines: &[Line], spares: &[Spare]) -> bool
    ensures { IsTrue result → AllCounted lines.now spares.now }
{
    spares.iter().all(|spare| is_counted_spare(lines, spare))
}

fn is_number<L: Opening>(seats: &[Seat<L>], number: u64) -> bool
    ensures { result ≡ is_listed number seats.now }
{
    seats.iter().any(|seat| seat.number() == number)
}

fn is_spare_number(spares: &[Spare], number: u64) -> bool
    ensures { result ≡ is_listed number spares.now }
{
    spares.iter().any(|spare| spare.number == number)
}

fn is_listed<L: Opening>(seats: &[Seat<L>], spares: &[Spare], number: u64) -> bool
    ensures { result ≡ (is_listed number seats.now || is_listed number spares.now) }
{
    is_number(seats, number) || is_spare_number(spares, number)
}

pub fn has_no_others<L: Opening>(lines: &[Line], seats: &[Seat<L>], spares: &[Spare]) -> bool
    ensures { IsTrue result ↔ NoOthers lines.now seats.now spares.now }
{
    lines.iter().all(|line| line.seat() == 0 || is_listed(seats, spares, line.seat()))
}

/// All their parts and calls together.
pub fn merge_all<L: Opening>(pool: &mut Share<L>, mut seats: Vec<Seat<L>>)
    ensures parts { pool.new.parts ≡ pool.old.parts + length seats.items }
    ensures amount { pool.new.amount ≡ pool.old.amount + calls_of seats.items }
{
    while let Some(seat) = seats.pop() {
        pool.merge(seat.into_share());
    }
}

/// So many seats, which no caller has yet.
pub fn spares(alloc: Global, seats: SeatCount) -> Result<Vec<Spare>, Fault>
    ensures len { IfOk result (λ v. length v.items ≡ seats) }
    ensures capacity { IfOk result (λ v. seats ≤ vec_capacity v) }
    ensures calls { IfOk result (λ v. calls_of v.items ≡ 0) }
    ensures numbered { IfOk result (λ v. All (λ s. 0 < s.number) v.items) }
    ensures err { IfErr result (λ e. e ≡ NoMemory) }
{
    let count = seats.get() as u64;
    let Ok(mut all) = Vec::with_capacity(alloc, count as usize) else {
        return Err(Fault::NoMemory);
    };
    for i in 0..count {
        all.push_reserved(Spare {
            number: i + 1,
            calls: 0,
        });
    }
    Ok(all)
}
