// Connections handed over: three takers beside the four that put, and asking without waiting.
ghost use Rattle.std.specs.Prelude.{◌≡◌, [], ◌∷◌, ◌++◌, ◌+◌, ◌<◌, ◌≤◌, ◌^◌, IfOk, IfSome};
ghost use Rattle.handover.specs.Passing.{Rises, TakenNext, last_of};

use crate::tests::expect_count;
use handover::{Handover, Taker};
use std::alloc::{AllocError, Global};
use std::process::Abort;
use std::sync::Wait;
use std::test::*;
use std::thread;
use std::thread::Threads;

/// The number that is taken next. None once the other end is gone.
fn next_number<R: Wait>(rt: &R, taker: &mut Taker<String>) -> Option<u64>
    ensures { IfSome result (λ n. (taker.new ≡ taker.old ++ n ∷ []) × TakenNext taker.old n) }
{
    match taker.take(rt) {
        Some(message) => Some(message.number),
        None => None,
    }
}

/// What it takes until the other end is gone, behind no number: numbers that rise.
#[tactic(auto, using(handover::proofs::Moves::taken_rises))]
fn take_into<R: Wait>(
    rt: &R,
    taker: &mut Taker<String>,
    numbers: &mut Vec<u64>,
) -> Result<(), AllocError>
    requires none { taker.old ≡ [] }
    requires empty { numbers.old.items ≡ [] }
    ensures { IfOk result (λ _. Rises 0 numbers.new.items) }
{
    'each: for _ in rt.forever() {
        let Some(number) = next_number(rt, taker) else {
            break;
        };
        numbers.push(number)?;
    }
    Ok(())
}

/// What it takes until the other end is gone: numbers that rise.
fn take_all<R: Wait>(
    rt: &R,
    alloc: Global,
    mut taker: Taker<String>,
) -> Result<Vec<u64>, AllocError>
    requires { taker ≡ [] }
    ensures { IfOk result (λ numbers. Rises 0 numbers.items) }
{
    let mut numbers = Vec::new(alloc);
    match take_into(rt, &mut taker, &mut numbers) {
        Ok(()) => Ok(numbers),
        Err(error) => Err(error),
    }
}

/// How many threads put, one after another.
const PUTTERS: u32 = 4;

/// Puts the numbers of one that puts, so many, behind those of the ones before it, and hands the end on.
#[tactic(auto, using(handover::proofs::Moves::last_of_snoc))]
fn put_part<R: Wait>(
    rt: &R,
    alloc: Global,
    mut handover: Handover<String>,
    before: u64,
    count: u32,
) -> Handover<String>
    requires after { last_of 0 handover ≤ before }
    requires few { before < 2 ^ 40 }
    ensures { last_of 0 result ≤ before + count }
{
    'each: for i in 0..count {
        let number = before + u64::from(i) + 1;
        if handover.put(rt, number, String::new(alloc)).is_err() {
            return handover;
        }
    }
    handover
}

/// Four threads put the numbers from 1 on, so many each.
fn put_all<R: Threads + Wait + Sync>(
    rt: &R,
    alloc: Global,
    mut handover: Handover<String>,
    count: u32,
)
    requires { handover ≡ [] }
{
    'parts: for part in 0..PUTTERS {
        let before = u64::from(part) * u64::from(count);
        (handover, ()) = thread::join(
            rt,
            move ||
                requires after { last_of 0 handover ≤ before }
                requires few { before < 2 ^ 40 }
                ensures { last_of 0 result ≤ before + count }
            { put_part(rt, alloc, handover, before, count) },
            || {},
        );
    }
}

/// The end that puts, and three that take.
#[derive(Drop)]
struct Ends {
    handover: Handover<String>,
    one: Taker<String>,
    two: Taker<String>,
    three: Taker<String>,
}

/// Three that take.
type Three = (Taker<String>, Taker<String>, Taker<String>);

fn takers(handover: &mut Handover<String>) -> Result<Three, AllocError>
    ensures same { handover.new ≡ handover.old }
    ensures new { IfOk result (λ t. (t.0 ≡ []) × (t.1 ≡ []) × (t.2 ≡ [])) }
{
    let one = handover.taker()?;
    let two = handover.taker()?;
    let three = handover.taker()?;
    Ok((one, two, three))
}

/// New ends, through which nothing has gone.
fn open(alloc: Global) -> Result<Ends, AllocError>
    ensures { IfOk result (λ ends. (ends.handover ≡ []) × (ends.one ≡ []) × (ends.two ≡ []) × (ends.three ≡ [])) }
{
    let mut handover = Handover::open(alloc, 4)?;
    match takers(&mut handover) {
        Ok((one, two, three)) => Ok(Ends {
            handover,
            one,
            two,
            three,
        }),
        Err(error) => {
            drop(handover);
            Err(error)
        }
    }
}

/// What a taker took.
type Taken = Result<Vec<u64>, AllocError>;

/// What three takers took.
fn hand_over<R: Threads + Wait + Sync>(
    rt: &R,
    alloc: Global,
    ends: Ends,
    count: u32,
) -> (Taken, Taken, Taken)
    requires { (ends.handover ≡ []) × (ends.one ≡ []) × (ends.two ≡ []) × (ends.three ≡ []) }
{
    let Ends {
        handover,
        one,
        two,
        three,
    } = ends;
    let ((_, one), (two, three)) = thread::join(
        rt,
        move ||
            requires { (handover ≡ []) × (one ≡ []) }
        {
            thread::join(
                rt,
                move ||
                    requires { handover ≡ [] }
                { put_all(rt, alloc, handover, count) },
                move ||
                    requires { one ≡ [] }
                { take_all(rt, alloc, one) },
            )
        },
        move ||
            requires { (two ≡ []) × (three ≡ []) }
        {
            thread::join(
                rt,
                move ||
                    requires { two ≡ [] }
                { take_all(rt, alloc, two) },
                move ||
                    requires { three ≡ [] }
                { take_all(rt, alloc, three) },
            )
        },
    );
    (one, two, three)
}

fn push_all(all: &mut Vec<u64>, numbers: &[u64]) -> Result<(), AllocError> {
    for number in numbers {
        all.push(*number)?;
    }
    Ok(())
}

fn push_taken(all: &mut Vec<u64>, taken: &Taken) -> Result<(), AllocError> {
    match taken {
        Ok(numbers) => push_all(all, numbers.as_slice()),
        Err(_) => Err(AllocError),
    }
}

/// Pushes what three takers take of so many numbers of each that puts, in order.
fn push_each<R: Threads + Wait + Sync>(
    rt: &R,
    alloc: Global,
    all: &mut Vec<u64>,
    count: u32,
) -> Result<(), AllocError> {
    let (one, two, three) = hand_over(rt, alloc, open(alloc)?, count);
    push_three(all, &one, &two, &three)
}

fn push_three(
    all: &mut Vec<u64>,
    one: &Taken,
    two: &Taken,
    three: &Taken,
) -> Result<(), AllocError> {
    push_taken(all, one)?;
    push_taken(all, two)?;
    push_taken(all, three)?;
    all.sort()
}

/// Whether these are the numbers from 1 on, each once.
fn are_each_once(all: &[u64]) -> bool {
    for i in 0..all.len() {
        if all[i] != i as u64 + 1 {
            return false;
        }
    }
    true
}

fn expect_each_once<R: Abort>(rt: &R, all: &[u64]) {
    expect_count(rt, all.len() as u64, 2000);
    assert!(rt; are_each_once(all));
}

#[test]
fn each_number_is_taken_once(rt: HostRuntime) -> Result<(), Fail> {
    let mut all = Vec::new(rt.alloc());
    push_each(&rt, rt.alloc(), &mut all, 500)?;
    expect_each_once(&rt, all.as_slice());
    Ok(())
}

/// The number that is there now, if any.
fn number_there<R: Wait>(rt: &R, taker: &mut Taker<String>) -> Option<u64> {
    match taker.try_take(rt) {
        Some(message) => Some(message.number),
        None => None,
    }
}

fn expect_there<R: Abort + Wait>(rt: &R, taker: &mut Taker<String>, number: Option<u64>) {
    assert!(rt; number_there(rt, taker) == number);
}

fn put<R: Abort + Wait>(rt: &R, handover: &mut Handover<String>, number: u64, connection: String)
    requires { last_of 0 handover.old < number }
{
    assert!(rt; handover.put(rt, number, connection).is_ok());
}

fn ask<R: Abort + Wait>(rt: &R, ends: &mut Ends, connection: String)
    requires { ends.old.handover ≡ [] }
{
    expect_there(rt, &mut ends.one, None);
    put(rt, &mut ends.handover, 7, connection);
    expect_there(rt, &mut ends.one, Some(7));
    expect_there(rt, &mut ends.one, None);
}

#[test]
fn asks_without_waiting(rt: HostRuntime) -> Result<(), Fail> {
    let mut ends = open(rt.alloc())?;
    ask(&rt, &mut ends, String::new(rt.alloc()));
    drop(ends);
    Ok(())
}
