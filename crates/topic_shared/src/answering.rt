// A topic's answer, twice: for the journal and for the caller. And what an answer changes.
ghost use Rattle.std.specs.Prelude.{◌≡◌, ◌||◌, List, IfOk, IfErr, OnErr, IsOk, Some, true, false};
ghost use Rattle.position_core.specs.declared.fault.Fault.TheVariants.{NoMemory};
ghost use Rattle.delivery_machine.specs.declared.event.Event.TheVariants.{Collect};
ghost use Rattle.delivery_machine.specs.declared.delivery.Delivery.{Delivery};
ghost use Rattle.delivery_machine.specs.Delivering.{out_of};
ghost use Rattle.delivery_machine.specs.Dying.{is_letter};
ghost use Rattle.delivery_machine.specs.Run.{Step};
ghost use Rattle.delivery_machine.specs.Journals.{changes_snapshot, is_kept_once_done};
ghost use Rattle.topic_shared.specs.Farewells.{is_farewell, is_no_memory};

use crate::line::Draft;
use delivery_machine::{Deliveries, Event, Fault, Reply, Topic};
use std::alloc::Global;

fn is_no_memory(reply: &Reply) -> bool
    ensures { result ≡ is_no_memory reply.now }
{
    matches!(reply, Reply::Refused(Fault::NoMemory))
}

/// A copy of what a `Collect` will answer, and of nothing for another event.
fn copies_for<T: Topic>(topic: &T, event: &Event) -> Result<Option<Deliveries>, Fault>
    ensures ok { IfOk result (λ copies. (consumer : _) → event.now ≡ Collect consumer → copies ≡ Some (out_of (T.state topic.now) consumer)) }
    ensures err { IfErr result (λ fault. fault ≡ NoMemory) }
    ensures ends { is_farewell event.now ≡ true → IsOk result }
{
    match event {
        Event::Collect { consumer } => match topic.out_copy(*consumer) {
            Ok(copies) => Ok(Some(copies)),
            Err(fault) => Err(fault),
        },
        _ => Ok(None),
    }
}

/// The reply, and the same again. Memory may be wanting for a letter alone.
fn doubled(reply: Reply, copies: Option<Deliveries>) -> Result<(Reply, Reply), Fault>
    requires copies { (handed : List Delivery) → reply ≡ Reply.Copies handed → copies ≡ Some handed }
    ensures reply { IfOk result (λ replies. replies.0 ≡ reply) }
    ensures twin { IfOk result (λ replies. replies.1 ≡ reply) }
    ensures fault { IfErr result (λ fault. fault ≡ NoMemory) }
    ensures given { is_letter reply ≡ false → IsOk result }
{
    match reply.twin(copies) {
        Ok(twin) => Ok((reply, twin)),
        Err(_) => Err(Fault::NoMemory),
    }
}

/// What the topic answers, and the same again, with copies of what a `Collect` will answer.
fn answer_with<T: Topic>(
    topic: &mut T,
    event: &Event,
    copies: Option<Deliveries>,
) -> Result<(Reply, Reply), Fault>
    requires copies { (consumer : _) → event.now ≡ Collect consumer → copies ≡ Some (out_of (T.state topic.old) consumer) }
    ensures step { IfOk result (λ replies. Step (T.state topic.old) event.now replies.0 (T.state topic.new)) }
    ensures twin { IfOk result (λ replies. replies.1 ≡ replies.0) }
    ensures err { OnErr result (T.state topic.new ≡ T.state topic.old) }
    ensures fault { IfErr result (λ fault. fault ≡ NoMemory) }
    ensures ends { is_farewell event.now ≡ true → IsOk result }
{
    let reply = topic.apply(event);
    if is_no_memory(&reply) {
        drop(reply);
        drop(copies);
        Err(Fault::NoMemory)
    } else {
        doubled(reply, copies)
    }
}

/// What the topic answers, and the same again. Only where memory is wanting for either is there none,
/// and the topic is then as it was. To go needs no memory.
fn answer<T: Topic>(topic: &mut T, event: &Event) -> Result<(Reply, Reply), Fault>
    ensures step { IfOk result (λ replies. Step (T.state topic.old) event.now replies.0 (T.state topic.new)) }
    ensures twin { IfOk result (λ replies. replies.1 ≡ replies.0) }
    ensures err { OnErr result (T.state topic.new ≡ T.state topic.old) }
    ensures fault { IfErr result (λ fault. fault ≡ NoMemory) }
    ensures ends { is_farewell event.now ≡ true → IsOk result }
{
    match copies_for(topic, event) {
        Ok(copies) => answer_with(topic, event, copies),
        Err(fault) => Err(fault),
    }
}

/// An event as a line's draft, and what the topic answered to it, twice.
#[derive(Drop)]
pub struct Answered {
    pub draft: Draft,
    pub reply: Reply,
    pub twin: Reply,
}

/// Answers the event, which goes into a draft first. Only where memory is wanting for that or for the
/// answer is there none, and the topic is then as it was. To go needs no memory.
pub fn answer_drafted<T: Topic>(
    alloc: Global,
    topic: &mut T,
    event: Event,
) -> Result<Answered, Fault>
    ensures draft { IfOk result (λ answered. answered.draft ≡ event) }
    ensures step { IfOk result (λ answered. Step (T.state topic.old) event answered.reply (T.state topic.new)) }
    ensures twin { IfOk result (λ answered. answered.twin ≡ answered.reply) }
    ensures err { OnErr result (T.state topic.new ≡ T.state topic.old) }
    ensures fault { IfErr result (λ fault. fault ≡ NoMemory) }
    ensures ends { is_farewell event ≡ true → IsOk result }
{
    match Draft::new(alloc, event) {
        Ok(draft) => answer_draft(topic, draft),
        Err(_) => Err(Fault::NoMemory),
    }
}

fn answer_draft<T: Topic>(topic: &mut T, draft: Draft) -> Result<Answered, Fault>
    ensures draft { IfOk result (λ answered. answered.draft ≡ draft) }
    ensures step { IfOk result (λ answered. Step (T.state topic.old) draft answered.reply (T.state topic.new)) }
    ensures twin { IfOk result (λ answered. answered.twin ≡ answered.reply) }
    ensures err { OnErr result (T.state topic.new ≡ T.state topic.old) }
    ensures fault { IfErr result (λ fault. fault ≡ NoMemory) }
    ensures ends { is_farewell draft ≡ true → IsOk result }
{
    match answer(topic, draft.event()) {
        Ok((reply, twin)) => Ok(Answered { draft, reply, twin }),
        Err(fault) => {
            drop(draft);
            Err(fault)
        }
    }
}

fn is_kept_once_done(event: &Event) -> bool
    ensures { result ≡ is_kept_once_done event.now }
{
    matches!(
        event,
        Event::Ack { .. }
            | Event::AckUpTo { .. }
            | Event::Seek { .. }
            | Event::SeekTime { .. }
            | Event::Skip { .. }
            | Event::DropSubscription { .. }
            | Event::SetRetention { .. }
            | Event::DeadDone { .. }
    )
}

fn changes_snapshot(event: &Event, reply: &Reply) -> bool
    ensures { result ≡ changes_snapshot event.now reply.now }
{
    match reply {
        Reply::Published { .. }
        | Reply::Subscribed { .. }
        | Reply::Released { .. }
        | Reply::Rewound { .. }
        | Reply::Died { .. }
        | Reply::Trimmed(_) => true,
        Reply::Done => is_kept_once_done(event),
        _ => false,
    }
}

/// Whether a snapshot of the topic may be another after the answer than the last one that was taken.
pub fn marked(unsaved: bool, event: &Event, reply: &Reply) -> bool
    ensures { result ≡ (unsaved || changes_snapshot event.now reply.now) }
{
    unsaved || changes_snapshot(event, reply)
}
