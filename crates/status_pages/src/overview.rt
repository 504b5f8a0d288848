// The overview, as one object of JSON (RFC 8259) whose keys are sorted.
use crate::histogram::Histogram;
use crate::seen::{
    BackupsSeen, BrokerSeen, FAULTS, Role, Rows, Rule, SessionSeen, SubscriptionSeen, TopicSeen,
};
use json_values::{push_decimal, push_quoted};
use position_core::Kind;
use std::alloc::{AllocError, Global};

pub(crate) fn kind_name(kind: Kind) -> &'static str {
    match kind {
        Kind::Exclusive => "Exclusive",
        Kind::Failover => "Failover",
        Kind::Shared => "Shared",
        Kind::KeyShared => "Key_Shared",
    }
}

fn role_name(role: Role) -> &'static str {
    match role {
        Role::Producer => "producer",
        Role::Consumer => "consumer",
        Role::Admin => "admin",
    }
}

fn push_key(out: &mut String, name: &str) -> Result<(), AllocError> {
    push_quoted(out, name)?;
    out.push_str(":")
}

/// Appends a number under its name, and a comma.
fn push_number(out: &mut String, name: &str, number: u64) -> Result<(), AllocError> {
    push_key(out, name)?;
    push_decimal(out, number)?;
    out.push_str(",")
}

/// The same, where there is one.
fn push_known(out: &mut String, name: &str, number: Option<u64>) -> Result<(), AllocError> {
    match number {
        Some(number) => push_number(out, name, number),
        None => Ok(()),
    }
}

/// Appends a text under its name, and a comma.
fn push_text(out: &mut String, name: &str, text: &str) -> Result<(), AllocError> {
    push_key(out, name)?;
    push_quoted(out, text)?;
    out.push_str(",")
}

/// The same, where there is one.
fn push_known_text(out: &mut String, name: &str, text: &Option<String>) -> Result<(), AllocError> {
    match text {
        Some(text) => push_text(out, name, text.as_str()),
        None => Ok(()),
    }
}

/// Appends whether something is so under its name, and a comma.
fn push_truth(out: &mut String, name: &str, is_so: bool) -> Result<(), AllocError> {
    push_key(out, name)?;
    out.push_str(if is_so { "true," } else { "false," })
}

/// The last number of an object.
fn push_last(out: &mut String, name: &str, number: u64) -> Result<(), AllocError> {
    push_key(out, name)?;
    push_decimal(out, number)?;
    out.push_str("}")
}

/// A comma, but before the first of a list.
fn push_comma(out: &mut String, place: usize) -> Result<(), AllocError> {
    if place > 0 { out.push_str(",") } else { Ok(()) }
}

fn push_session(out: &mut String, session: &SessionSeen) -> Result<(), AllocError> {
    out.push_str("{")?;
    push_known_text(out, "address", &session.address)?;
    push_number(out, "number", session.number)?;
    push_known(out, "pending", session.holds.map(|holds| holds.pending))?;
    push_known_text(out, "producerName", &session.producer)?;
    push_text(out, "role", role_name(session.role))?;
    push_known(out, "room", session.holds.map(|holds| holds.room))?;
    if let Some(subscription) = &session.subscription {
        push_number(out, "since", session.since)?;
        push_key(out, "subscription")?;
        push_quoted(out, subscription.as_str())?;
        return out.push_str("}");
    }
    push_last(out, "since", session.since)
}

fn push_sessions(out: &mut String, sessions: &[SessionSeen]) -> Result<(), AllocError> {
    out.push_str("\"sessions\":[")?;
    for (place, session) in sessions.iter().enumerate() {
        push_comma(out, place)?;
        push_session(out, session)?;
    }
    out.push_str("],")
}

fn push_subscription(out: &mut String, sub: &SubscriptionSeen) -> Result<(), AllocError> {
    out.push_str("{")?;
    push_number(out, "acknowledged", sub.acknowledged)?;
    push_number(out, "acknowledgements", sub.acks)?;
    push_number(out, "consumers", sub.consumers)?;
    push_number(out, "dead", sub.dead)?;
    push_number(out, "deaths", sub.deaths)?;
    push_number(out, "delivered", sub.delivered)?;
    push_text(out, "kind", kind_name(sub.kind))?;
    push_text(out, "name", sub.name.as_str())?;
    push_known(out, "oldest", sub.oldest)?;
    push_number(out, "pending", sub.pending)?;
    push_number(out, "redelivered", sub.redelivered)?;
    push_known(out, "unused", sub.unused)?;
    push_last(out, "waiting", sub.waiting)
}

fn push_subscriptions(out: &mut String, subs: &[SubscriptionSeen]) -> Result<(), AllocError> {
    out.push_str("\"subscriptions\":[")?;
    for (place, sub) in subs.iter().enumerate() {
        push_comma(out, place)?;
        push_subscription(out, sub)?;
    }
    out.push_str("]")
}

/// Appends a rule as the fields of the command that gives it to a topic.
fn push_rule(out: &mut String, rule: Rule) -> Result<(), AllocError> {
    out.push_str("\"rule\":{")?;
    match rule {
        Rule::All => out.push_str("\"keep\":\"all\"}")?,
        Rule::Messages(count) => push_last(out, "messages", count)?,
        Rule::Millis(age) => push_last(out, "millis", age)?,
    }
    out.push_str(",")
}

fn push_known_rule(out: &mut String, rule: Option<Rule>) -> Result<(), AllocError> {
    match rule {
        Some(rule) => push_rule(out, rule),
        None => Ok(()),
    }
}

fn push_topic(out: &mut String, topic: &TopicSeen) -> Result<(), AllocError> {
    out.push_str("{")?;
    push_known(out, "bytes", topic.bytes)?;
    push_number(out, "duplicates", topic.duplicates)?;
    push_number(out, "durable", topic.durable)?;
    push_number(out, "gone", topic.gone)?;
    push_number(out, "journal", topic.journal)?;
    push_number(out, "kept", topic.kept)?;
    push_text(out, "name", topic.name.as_str())?;
    push_known(out, "oldest", topic.oldest)?;
    push_number(out, "producers", topic.producers)?;
    push_number(out, "published", topic.published)?;
    push_number(out, "refused", topic.refused)?;
    push_truth(out, "resting", topic.is_resting)?;
    push_number(out, "room", topic.room())?;
    push_known_rule(out, topic.rule)?;
    push_sessions(out, topic.sessions.as_slice())?;
    push_subscriptions(out, topic.subscriptions.as_slice())?;
    out.push_str("}")
}

fn push_topics(out: &mut String, topics: &[TopicSeen]) -> Result<(), AllocError> {
    out.push_str("\"topics\":[")?;
    for (place, topic) in topics.iter().enumerate() {
        push_comma(out, place)?;
        push_topic(out, topic)?;
    }
    out.push_str("],")
}

fn push_rows(out: &mut String, rows: Rows) -> Result<(), AllocError> {
    out.push_str("\"rows\":{")?;
    push_number(out, "deleted", rows.deleted)?;
    push_number(out, "inserted", rows.inserted)?;
    push_last(out, "updated", rows.updated)?;
    out.push_str(",")
}

fn push_stores(out: &mut String, stores: &Histogram) -> Result<(), AllocError> {
    out.push_str("\"stores\":{")?;
    push_number(out, "count", stores.count())?;
    push_last(out, "micros", stores.sum)?;
    out.push_str(",")
}

fn push_backups(out: &mut String, backups: BackupsSeen) -> Result<(), AllocError> {
    out.push_str("\"backups\":{")?;
    push_number(out, "failed", backups.failed)?;
    push_known(out, "last", backups.last)?;
    push_last(out, "made", backups.made)?;
    out.push_str(",")
}

fn push_refusal(out: &mut String, fault: usize, count: u64) -> Result<(), AllocError> {
    out.push_str("{")?;
    push_number(out, "count", count)?;
    push_last(out, "fault", fault as u64)
}

/// Appends how often each fault came that came at all.
fn push_refusals(out: &mut String, refusals: &[u64; FAULTS]) -> Result<(), AllocError> {
    out.push_str("\"refusals\":[")?;
    let mut comma = "";
    for (fault, count) in refusals.iter().enumerate() {
        if *count > 0 {
            out.push_str(comma)?;
            push_refusal(out, fault, *count)?;
            comma = ",";
        }
    }
    out.push_str("],")
}

fn push_beginning(out: &mut String, seen: &BrokerSeen) -> Result<(), AllocError> {
    let program = &seen.program;
    out.push_str("{")?;
    push_backups(out, seen.backups)?;
    push_truth(out, "closed", seen.is_closed)?;
    push_number(out, "connections", program.connections)?;
    push_known(out, "cpu", program.cpu)?;
    push_known(out, "database", program.file)?;
    push_known(out, "descriptors", program.descriptors)?;
    push_truth(out, "full", program.is_full)?;
    push_number(out, "loads", seen.loads)?;
    push_known(out, "log", program.log)?;
    push_known(out, "memory", program.memory)?;
    push_known(out, "mostDescriptors", program.most_descriptors)?;
    push_number(out, "now", program.now)?;
    push_truth(out, "open", program.is_open)
}

fn push_counts(out: &mut String, seen: &BrokerSeen) -> Result<(), AllocError> {
    let program = &seen.program;
    push_number(out, "received", program.received)?;
    push_refusals(out, &program.refusals)?;
    push_rows(out, seen.rows)?;
    push_number(out, "sent", program.sent)?;
    push_number(out, "sessions", seen.sessions())?;
    push_number(out, "silenced", program.silenced)?;
    push_number(out, "started", program.started)?;
    push_stores(out, &seen.stores)
}

/// The overview. Only want of memory is a failure.
pub fn overview_text(alloc: Global, seen: &BrokerSeen) -> Result<String, AllocError> {
    let mut out = String::new(alloc);
    push_beginning(&mut out, seen)?;
    push_counts(&mut out, seen)?;
    push_topics(&mut out, seen.topics.as_slice())?;
    push_number(&mut out, "unloads", seen.unloads)?;
    push_key(&mut out, "version")?;
    push_quoted(&mut out, seen.program.version)?;
    out.push_str("}")?;
    Ok(out)
}
