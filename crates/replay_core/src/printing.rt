// The line of each reply.
ghost use Rattle.std.specs.Prelude.{◌≡◌, ℕ, ◌++◌, ◌∷◌, [], ◌<◌, OnOk, codes, flat_map, string_bytes, length};
ghost use Rattle.std.specs.Fmt.{decimal, signed_decimal};
ghost use Rattle.value_texts.specs.Id.{text_of};
ghost use Rattle.replay_core.specs.Printing.{producer_name, copy_text, target_text, kind_text, position_text, subscription_text, counts_text, refused_text, reply_text, restarted_text};

use crate::names::{append_name, append_target};
use delivery_machine::{Delivery, Event, Reply};
use position_core::{
    ConsumerNumber, Fault, Kind, Message, Ordinal, Position, ProducerNumber, TopicName,
};
use replay_lines::append_payload;
use std::alloc::AllocError;
use value_texts::append_id;

fn append_number(out: &mut String, number: u64) -> Result<(), AllocError>
    ensures { OnOk result (string_bytes out.new ≡ string_bytes out.old ++ decimal number) }
{
    write!(out, "{number}")
}

fn append_signed(out: &mut String, number: i64) -> Result<(), AllocError>
    ensures { OnOk result (string_bytes out.new ≡ string_bytes out.old ++ signed_decimal number) }
{
    write!(out, "{number}")
}

fn append_auto(out: &mut String, number: u64) -> Result<(), AllocError>
    ensures { OnOk result (string_bytes out.new ≡ string_bytes out.old ++ (codes "auto-" ++ decimal number)) }
{
    out.push_str("auto-")?;
    append_number(out, number)
}

/// The name that the topic made, or else that of the event.
fn append_producer_name(
    out: &mut String,
    event: &Event,
    auto: Option<u64>,
) -> Result<(), AllocError>
    ensures { OnOk result (string_bytes out.new ≡ string_bytes out.old ++ producer_name event.now auto) }
{
    match (auto, event) {
        (Some(number), _) => append_auto(out, number),
        (
            None,
            Event::AddProducer {
                name: Some(name),
                ..
            },
        ) => append_name(out, name.as_str()),
        (None, _) => Ok(()),
    }
}

fn append_copy(out: &mut String, delivery: &Delivery) -> Result<(), AllocError>
    ensures { OnOk result (string_bytes out.new ≡ string_bytes out.old ++ copy_text delivery.now) }
{
    let entry = delivery.message.entry();
    out.push_str(" ")?;
    append_id(out, entry.position)?;
    out.push_str(":")?;
    append_number(out, u64::from(delivery.count))?;
    out.push_str(":")?;
    append_payload(out, entry.body.content().payload.as_slice())
}

fn append_copies(out: &mut String, copies: &[Delivery]) -> Result<(), AllocError>
    ensures { OnOk result (string_bytes out.new ≡ string_bytes out.old ++ flat_map copy_text copies.now) }
{
    for delivery in copies {
        append_copy(out, delivery)?;
    }
    Ok(())
}

/// Appends a word and a number.
fn append_counted(out: &mut String, word: &str, number: u64) -> Result<(), AllocError>
    ensures { OnOk result (string_bytes out.new ≡ string_bytes out.old ++ (word.now ++ decimal number)) }
{
    out.push_str(word)?;
    append_number(out, number)
}

fn append_added(
    out: &mut String,
    event: &Event,
    producer: ProducerNumber,
    auto: Option<u64>,
    last: i64,
) -> Result<(), AllocError>
    ensures { OnOk result (string_bytes out.new
        ≡ string_bytes out.old ++ (codes "producer " ++ decimal producer ++ codes " " ++ producer_name event.now auto ++ codes " " ++ signed_decimal last)) }
{
    append_counted(out, "producer ", producer)?;
    out.push_str(" ")?;
    append_producer_name(out, event, auto)?;
    out.push_str(" ")?;
    append_signed(out, last)
}

fn append_published(out: &mut String, position: Position, length: u64) -> Result<(), AllocError>
    ensures { OnOk result (string_bytes out.new
        ≡ string_bytes out.old ++ (codes "published " ++ text_of position ++ codes " " ++ decimal length)) }
{
    out.push_str("published ")?;
    append_id(out, position)?;
    append_counted(out, " ", length)
}

fn append_progress(out: &mut String, durable: u64, length: u64) -> Result<(), AllocError>
    ensures { OnOk result (string_bytes out.new
        ≡ string_bytes out.old ++ (codes "progress " ++ decimal durable ++ codes " " ++ decimal length)) }
{
    append_counted(out, "progress ", durable)?;
    append_counted(out, " ", length)
}

fn append_died(out: &mut String, position: Position, ordinal: Ordinal) -> Result<(), AllocError>
    ensures { OnOk result (string_bytes out.new
        ≡ string_bytes out.old ++ (codes "died " ++ text_of position ++ codes " " ++ decimal ordinal)) }
{
    out.push_str("died ")?;
    append_id(out, position)?;
    append_counted(out, " ", ordinal)
}

fn append_dead(
    out: &mut String,
    message: &Message,
    target: &TopicName,
    ordinal: Ordinal,
) -> Result<(), AllocError>
    ensures { OnOk result (string_bytes out.new
        ≡ string_bytes out.old ++ (codes "dead " ++ decimal ordinal ++ codes " " ++ text_of message.now.position ++ codes " " ++ target_text target.now)) }
{
    append_counted(out, "dead ", ordinal)?;
    out.push_str(" ")?;
    append_id(out, message.position())?;
    out.push_str(" ")?;
    append_target(out, target)
}

fn append_kind(out: &mut String, kind: Kind) -> Result<(), AllocError>
    ensures { OnOk result (string_bytes out.new ≡ string_bytes out.old ++ kind_text kind) }
{
    match kind {
        Kind::Exclusive => out.push_str("Exclusive"),
        Kind::Failover => out.push_str("Failover"),
        Kind::Shared => out.push_str("Shared"),
        Kind::KeyShared => out.push_str("Key_Shared"),
    }
}

fn append_position(out: &mut String, position: Option<Position>) -> Result<(), AllocError>
    ensures { OnOk result (string_bytes out.new ≡ string_bytes out.old ++ position_text position) }
{
    match position {
        Some(position) => append_id(out, position),
        None => out.push_str("-"),
    }
}

/// Appends what a subscription is, and how far it has come.
fn append_subscription(
    out: &mut String,
    kind: Kind,
    members: u64,
    mark_delete: Option<Position>,
) -> Result<(), AllocError>
    ensures { OnOk result (string_bytes out.new ≡ string_bytes out.old ++ subscription_text kind members mark_delete) }
{
    out.push_str("stats ")?;
    append_kind(out, kind)?;
    append_counted(out, " ", members)?;
    out.push_str(" ")?;
    append_position(out, mark_delete)
}

/// Appends how many of a subscription's messages are acknowledged, live, pending and dead.
fn append_counts(
    out: &mut String,
    acknowledged: u64,
    live: u64,
    pending: u64,
    dead: u64,
) -> Result<(), AllocError>
    ensures { OnOk result (string_bytes out.new ≡ string_bytes out.old ++ counts_text acknowledged live pending dead) }
{
    append_counted(out, " ", acknowledged)?;
    append_counted(out, " ", live)?;
    append_counted(out, " ", pending)?;
    append_counted(out, " ", dead)
}

/// Appends what a subscription is, how far it has come, and its counts.
fn append_stats(
    out: &mut String,
    kind: Kind,
    members: u64,
    mark_delete: Option<Position>,
    acknowledged: u64,
    live: u64,
    pending: u64,
    dead: u64,
) -> Result<(), AllocError>
    ensures { OnOk result (string_bytes out.new
        ≡ string_bytes out.old ++ (subscription_text kind members mark_delete ++ counts_text acknowledged live pending dead)) }
{
    append_subscription(out, kind, members, mark_delete)?;
    append_counts(out, acknowledged, live, pending, dead)
}

fn append_released(out: &mut String, position: Position) -> Result<(), AllocError>
    ensures { OnOk result (string_bytes out.new ≡ string_bytes out.old ++ (codes "released " ++ text_of position)) }
{
    out.push_str("released ")?;
    append_id(out, position)
}

fn append_sent(
    out: &mut String,
    consumer: ConsumerNumber,
    position: Position,
    count: u32,
) -> Result<(), AllocError>
    ensures { OnOk result (string_bytes out.new
        ≡ string_bytes out.old ++ (codes "sent " ++ decimal consumer ++ codes " " ++ text_of position ++ codes " " ++ decimal count)) }
{
    append_counted(out, "sent ", consumer)?;
    out.push_str(" ")?;
    append_id(out, position)?;
    append_counted(out, " ", u64::from(count))
}

fn append_collected(out: &mut String, copies: &[Delivery]) -> Result<(), AllocError>
    ensures { OnOk result (string_bytes out.new
        ≡ string_bytes out.old ++ (codes "copies " ++ decimal (length copies.now) ++ flat_map copy_text copies.now)) }
{
    append_counted(out, "copies ", copies.len() as u64)?;
    append_copies(out, copies)
}

/// Appends the line of a restart, without its end.
pub fn append_restarted(out: &mut String, ledger: u64) -> Result<(), AllocError>
    ensures { OnOk result (string_bytes out.new ≡ string_bytes out.old ++ restarted_text ledger) }
{
    append_counted(out, "restarted ", ledger)
}

/// Appends the line of a refusal, without its end.
pub fn append_refused(out: &mut String, fault: Fault) -> Result<(), AllocError>
    ensures { OnOk result (string_bytes out.new ≡ string_bytes out.old ++ refused_text fault) }
{
    append_counted(out, "refused F", u64::from(fault.number()))
}

/// Appends the line of the reply to the event, without its end.
pub fn append_reply(out: &mut String, event: &Event, reply: &Reply) -> Result<(), AllocError>
    ensures { OnOk result (string_bytes out.new ≡ string_bytes out.old ++ reply_text event.now reply.now) }
{
    match reply {
        Reply::ProducerAdded {
            producer,
            auto,
            last,
        } => append_added(out, event, *producer, *auto, *last),
        Reply::Published { position, length } => append_published(out, *position, *length),
        Reply::Duplicate { length } => append_counted(out, "duplicate ", *length),
        Reply::Durable(length) => append_counted(out, "durable ", *length),
        Reply::Progress { durable, length } => append_progress(out, *durable, *length),
        Reply::Subscribed { consumer } => append_counted(out, "consumer ", *consumer),
        Reply::Done => out.push_str("done"),
        Reply::Sent {
            consumer,
            position,
            count,
        } => append_sent(out, *consumer, *position, *count),
        Reply::Idle => out.push_str("idle"),
        Reply::Copies(copies) => append_collected(out, copies.as_slice()),
        Reply::Released { position } => append_released(out, *position),
        Reply::Died { position, ordinal } => append_died(out, *position, *ordinal),
        Reply::Rewound { count } => append_counted(out, "rewound ", *count),
        Reply::Quiet => out.push_str("quiet"),
        Reply::Stats {
            kind,
            members,
            mark_delete,
            acknowledged,
            live,
            pending,
            dead,
            gone: _,
            oldest: _,
        } => append_stats(
            out,
            *kind,
            *members,
            *mark_delete,
            *acknowledged,
            *live,
            *pending,
            *dead,
        ),
        Reply::Dead {
            message,
            target,
            ordinal,
        } => append_dead(out, message, target, *ordinal),
        Reply::NoDead => out.push_str("nodead"),
        Reply::Trimmed(gone) => append_counted(out, "trimmed ", *gone),
        Reply::Untrimmed => out.push_str("untrimmed"),
        Reply::Refused(fault) => append_refused(out, *fault),
    }
}
