// Room for lines: which lines an event needs, and whose lines are kept.
ghost use Rattle.std.specs.Prelude.{◌≡◌, ◌+◌, ◌≤◌, ◌<◌, ◌^◌, IfErr, OnOk, IsOk, ◌==◌, true, vec_len, vec_capacity};
ghost use Rattle.position_core.specs.declared.fault.Fault.TheVariants.{NoMemory};
ghost use Rattle.delivery_machine.specs.Journals.{producers_noted, consumers_noted};
ghost use Rattle.delivery_machine.specs.Words.{removed};
ghost use Rattle.std.specs.List.{position};
ghost use Rattle.topic_shared.specs.Attached.{is_among, detaches, asks_to_attach, attaches, needs};

use crate::line::Line;
use delivery_machine::{ConsumerNumber, Event, Fault, ProducerNumber, Reply};

fn is_among(numbers: &[u64], number: u64) -> bool
    ensures { result ≡ is_among numbers.now number }
{
    numbers.iter().any(|n| *n == number)
}

fn detaches(producers: &[ProducerNumber], consumers: &[ConsumerNumber], event: &Event) -> bool
    ensures { result ≡ detaches producers.now consumers.now event.now }
{
    match event {
        Event::DropProducer { producer } => is_among(producers, *producer),
        Event::Leave { consumer } => is_among(consumers, *consumer),
        _ => false,
    }
}

fn asks_to_attach(event: &Event) -> bool
    ensures { result ≡ asks_to_attach event.now }
{
    matches!(event, Event::AddProducer { .. } | Event::Subscribe { .. })
}

pub fn needs(producers: &[ProducerNumber], consumers: &[ConsumerNumber], event: &Event) -> u64
    ensures value { result ≡ needs producers.now consumers.now event.now }
    ensures few { result ≤ 2 }
{
    if detaches(producers, consumers, event) {
        0
    } else if asks_to_attach(event) {
        2
    } else {
        1
    }
}

fn reserve(
    lines: &mut Vec<Line>,
    producers: &mut Vec<ProducerNumber>,
    consumers: &mut Vec<ConsumerNumber>,
    more: u64,
) -> Result<(), Fault>
    requires { more < 2 ^ 32 }
    ensures lines { lines.new.items ≡ lines.old.items }
    ensures producers { producers.new.items ≡ producers.old.items }
    ensures consumers { consumers.new.items ≡ consumers.old.items }
    ensures capacity { vec_capacity lines.old ≤ vec_capacity lines.new }
    ensures ok { OnOk result (vec_len lines.new + more ≤ vec_capacity lines.new) }
    ensures numbers { OnOk result ((vec_len producers.new < vec_capacity producers.new) × (vec_len consumers.new < vec_capacity consumers.new)) }
    ensures err { IfErr result (λ fault. fault ≡ NoMemory) }
{
    let Ok(()) = lines.reserve(more as usize) else {
        return Err(Fault::NoMemory);
    };
    let Ok(()) = producers.reserve(1) else {
        return Err(Fault::NoMemory);
    };
    let Ok(()) = consumers.reserve(1) else {
        return Err(Fault::NoMemory);
    };
    Ok(())
}

/// Room for the lines that are kept and those that are needed, and for one number more in each list.
/// Where none is needed it takes no memory; where a growth is refused the lists have what they had.
pub fn make_room(
    lines: &mut Vec<Line>,
    producers: &mut Vec<ProducerNumber>,
    consumers: &mut Vec<ConsumerNumber>,
    kept: u64,
    needed: u64,
) -> Result<(), Fault>
    requires few { kept + needed < 2 ^ 32 }
    requires kept { vec_len lines.old + kept ≤ vec_capacity lines.old }
    ensures lines { lines.new.items ≡ lines.old.items }
    ensures producers { producers.new.items ≡ producers.old.items }
    ensures consumers { consumers.new.items ≡ consumers.old.items }
    ensures room { vec_len lines.new + kept ≤ vec_capacity lines.new }
    ensures ok { OnOk result (vec_len lines.new + kept + needed ≤ vec_capacity lines.new) }
    ensures numbers { OnOk result (0 < needed → (vec_len producers.new < vec_capacity producers.new) × (vec_len consumers.new < vec_capacity consumers.new)) }
    ensures err { IfErr result (λ fault. fault ≡ NoMemory) }
    ensures none { needed ≡ 0 → IsOk result }
{
    if needed == 0 {
        return Ok(());
    }
    reserve(lines, producers, consumers, kept + needed)
}

fn place_of(numbers: &[u64], number: u64) -> Option<usize>
    ensures { result ≡ position (λ n. n == number) numbers.now }
{
    numbers.iter().position(|n| *n == number)
}

fn remove(numbers: &mut Vec<u64>, number: u64)
    ensures { numbers.new.items ≡ removed (λ n. n == number) numbers.old.items }
{
    match place_of(numbers, number) {
        Some(place) => {
            numbers.remove(place);
        }
        None => {}
    }
}

/// Keeps the producers up with a reply.
pub fn note_producer(producers: &mut Vec<ProducerNumber>, event: &Event, reply: &Reply)
    requires { attaches reply.now ≡ true → vec_len producers.old < vec_capacity producers.old }
    ensures { producers.new.items ≡ producers_noted producers.old.items event.now reply.now }
{
    match (event, reply) {
        (_, Reply::ProducerAdded { producer, .. }) => producers.push_reserved(*producer),
        (Event::DropProducer { producer }, Reply::Done) => remove(producers, *producer),
        _ => {}
    }
}

/// Keeps the consumers up with a reply.
pub fn note_consumer(consumers: &mut Vec<ConsumerNumber>, event: &Event, reply: &Reply)
    requires { attaches reply.now ≡ true → vec_len consumers.old < vec_capacity consumers.old }
    ensures { consumers.new.items ≡ consumers_noted consumers.old.items event.now reply.now }
{
    match (event, reply) {
        (_, Reply::Subscribed { consumer }) => consumers.push_reserved(*consumer),
        (Event::Leave { consumer }, Reply::Done) => remove(consumers, *consumer),
        _ => {}
    }
}
