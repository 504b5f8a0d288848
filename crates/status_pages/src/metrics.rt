// All numbers for Prometheus: those of the broker, and then those of topics and subscriptions.
use crate::histogram::{Histogram, MICROS};
use crate::of_subscription::push_subscriptions;
use crate::of_topic::push_topics;
use crate::process::push_process;
use crate::sample::{Family, Head, Kind, Value, push_end, push_label, push_seconds, push_single};
use crate::seen::{BackupsSeen, BrokerSeen, FAULTS, ProgramSeen, Rows};
use json_values::push_decimal;
use std::alloc::{AllocError, Global};

fn push_gauge(
    out: &mut String,
    name: &'static str,
    help: &'static str,
    count: u64,
) -> Result<(), AllocError> {
    push_single(out, &Head::gauge(name, help), Value::Count(count))
}

fn push_counter(
    out: &mut String,
    name: &'static str,
    help: &'static str,
    count: u64,
) -> Result<(), AllocError> {
    push_single(out, &Head::counter(name, help), Value::Count(count))
}

fn push_version(out: &mut String, version: &str) -> Result<(), AllocError> {
    let head = Head::gauge("info", "The version of the broker.");
    head.push(out)?;
    head.push_name(out)?;
    out.push_str("{version=\"")?;
    push_label(out, version)?;
    out.push_str("\"} 1\n")
}

fn push_started(out: &mut String, started: u64) -> Result<(), AllocError> {
    let help = "When the broker was started, in seconds since 1970.";
    let head = Head::gauge("start_time_seconds", help);
    push_single(out, &head, Value::Millis(started))
}

/// A gauge, where its number is known.
fn push_known(
    out: &mut String,
    name: &'static str,
    help: &'static str,
    count: Option<u64>,
) -> Result<(), AllocError> {
    match count {
        Some(count) => push_gauge(out, name, help, count),
        None => Ok(()),
    }
}

fn push_sizes(out: &mut String, program: &ProgramSeen) -> Result<(), AllocError> {
    push_known(
        out,
        "resident_memory_bytes",
        "How much of the broker is in memory.",
        program.memory,
    )?;
    push_known(
        out,
        "database_bytes",
        "The size of the database's file.",
        program.file,
    )?;
    push_known(
        out,
        "log_bytes",
        "The size of the log beside the database's file.",
        program.log,
    )
}

fn push_refusal(out: &mut String, head: &Head, fault: usize, count: u64) -> Result<(), AllocError> {
    head.push_name(out)?;
    out.push_str("{fault=\"F")?;
    push_decimal(out, fault as u64)?;
    out.push_str("\"")?;
    push_end(out, Value::Count(count))
}

/// Appends how often each fault came that came at all.
fn push_refusals(out: &mut String, refusals: &[u64; FAULTS]) -> Result<(), AllocError> {
    let help = "Sessions that were refused, or ended since they could not go on, by the fault.";
    let head = Head::counter("refusals_total", help);
    head.push(out)?;
    for (fault, count) in refusals.iter().enumerate() {
        if *count > 0 {
            push_refusal(out, &head, fault, *count)?;
        }
    }
    Ok(())
}

fn push_traffic(out: &mut String, program: &ProgramSeen) -> Result<(), AllocError> {
    push_gauge(
        out,
        "connections",
        "Connections that are open.",
        program.connections,
    )?;
    push_counter(
        out,
        "received_bytes_total",
        "Bytes that came from the clients of sessions.",
        program.received,
    )?;
    push_counter(
        out,
        "sent_bytes_total",
        "Bytes that went to the clients of sessions.",
        program.sent,
    )?;
    push_counter(
        out,
        "sessions_ended_by_silence_total",
        "Sessions that ended since nothing came from their clients.",
        program.silenced,
    )
}

fn push_program(out: &mut String, program: &ProgramSeen) -> Result<(), AllocError> {
    push_version(out, program.version)?;
    push_started(out, program.started)?;
    push_sizes(out, program)?;
    push_traffic(out, program)?;
    push_refusals(out, &program.refusals)?;
    push_process(out, program)
}

fn push_rows(out: &mut String, rows: Rows) -> Result<(), AllocError> {
    push_counter(
        out,
        "rows_inserted_total",
        "Rows that stores inserted.",
        rows.inserted,
    )?;
    push_counter(
        out,
        "rows_updated_total",
        "Rows that stores changed.",
        rows.updated,
    )?;
    push_counter(
        out,
        "rows_deleted_total",
        "Rows that stores deleted.",
        rows.deleted,
    )
}

fn push_buckets(out: &mut String, head: &Head, times: &Histogram) -> Result<(), AllocError> {
    let mut count: u64 = 0;
    for (most, here) in MICROS.iter().zip(times.counts.iter()) {
        count = count.saturating_add(*here);
        head.push_name(out)?;
        out.push_str("_bucket{le=\"")?;
        push_seconds(out, *most)?;
        out.push_str("\"} ")?;
        push_decimal(out, count)?;
        out.push_str("\n")?;
    }
    Ok(())
}

fn push_stores(out: &mut String, times: &Histogram) -> Result<(), AllocError> {
    let head = Head {
        family: Family::Broker,
        name: "store_duration_seconds",
        kind: Kind::Histogram,
        help: "How long each store took, from its first row to the disk's answer.",
    };
    head.push(out)?;
    push_buckets(out, &head, times)?;
    head.push_name(out)?;
    out.push_str("_bucket{le=\"+Inf\"} ")?;
    push_decimal(out, times.count())?;
    out.push_str("\n")?;
    head.push_name(out)?;
    out.push_str("_sum ")?;
    push_seconds(out, times.sum)?;
    out.push_str("\n")?;
    head.push_name(out)?;
    out.push_str("_count ")?;
    push_decimal(out, times.count())?;
    out.push_str("\n")
}

fn push_broker(out: &mut String, seen: &BrokerSeen) -> Result<(), AllocError> {
    push_gauge(
        out,
        "is_storing",
        "1 while what is published is stored, 0 once the store has failed.",
        u64::from(!seen.is_closed),
    )?;
    push_gauge(
        out,
        "is_full",
        "1 while the database takes as much of the disk as it may, and publishes are refused for it.",
        u64::from(seen.program.is_full),
    )?;
    push_gauge(
        out,
        "sessions",
        "Sessions that are at a topic.",
        seen.sessions(),
    )?;
    let in_memory = seen.in_memory();
    push_gauge(out, "open_topics", "Topics that are in memory.", in_memory)?;
    push_gauge(
        out,
        "resting_topics",
        "Topics that nobody uses, and that are out of memory.",
        (seen.topics.len() as u64).saturating_sub(in_memory),
    )?;
    push_counter(
        out,
        "topic_loads_total",
        "Topics that came into memory.",
        seen.loads,
    )?;
    push_counter(
        out,
        "topic_unloads_total",
        "Topics that left memory.",
        seen.unloads,
    )
}

fn push_backups(out: &mut String, backups: BackupsSeen) -> Result<(), AllocError> {
    push_counter(
        out,
        "backups_total",
        "Copies of the database that were made.",
        backups.made,
    )?;
    push_counter(
        out,
        "backup_failures_total",
        "Copies of the database that could not be made.",
        backups.failed,
    )?;
    match backups.last {
        Some(millis) => {
            let help = "When the last copy of the database was made, in seconds since 1970.";
            let head = Head::gauge("last_backup_time_seconds", help);
            push_single(out, &head, Value::Millis(millis))
        }
        None => Ok(()),
    }
}

/// All numbers. Only want of memory is a failure.
pub fn metrics_text(alloc: Global, seen: &BrokerSeen) -> Result<String, AllocError> {
    let mut out = String::new(alloc);
    let topics = seen.topics.as_slice();
    push_program(&mut out, &seen.program)?;
    push_broker(&mut out, seen)?;
    push_rows(&mut out, seen.rows)?;
    push_stores(&mut out, &seen.stores)?;
    push_backups(&mut out, seen.backups)?;
    push_topics(&mut out, topics)?;
    push_subscriptions(&mut out, topics, seen.program.now)?;
    Ok(out)
}
