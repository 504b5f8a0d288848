// Sessions where memory may be refused at any allocation: the first answer that differs is that of a want of memory, and what was
// refused has not changed the topic. Run with each allocation refused in turn (bench/memory), this shows what each refusal leads to.
use super::side::{Desk, Side, desk, filled_desk};
use super::stage::{Stage, does, expect, show, show_closes, words};
use crate::tests::{push, this_subscription};
use delivery_machine::{Event, Fault, Reply, Topic};
use std::process::Abort;

/// A line, what is sent after it, and how the topic stands then.
type Step = (&'static str, &'static str, &'static str);

fn is_refused_memory(reply: &Reply) -> bool {
    matches!(reply, Reply::Refused(Fault::NoMemory))
}

/// Asks once more where memory was refused.
fn ask(desk: &mut Desk, event: Event) -> Reply {
    let mut reply = desk.topic.apply(&event);
    if is_refused_memory(&reply) {
        reply = desk.topic.apply(&event);
    }
    drop(event);
    reply
}

fn length_in(reply: &Reply) -> u64 {
    match reply {
        Reply::Progress { durable: _, length } => *length,
        _ => 0,
    }
}

fn live_in(reply: &Reply) -> u64 {
    match reply {
        Reply::Stats { live, .. } => *live,
        _ => 0,
    }
}

/// How many messages there are, and how many of them the subscription `s` has to acknowledge.
fn stands<R: Abort + AllocGlobal>(rt: &R, desk: &mut Desk) -> String {
    let subscription = this_subscription(rt);
    let stats = ask(desk, Event::Stats { subscription });
    let progress = ask(desk, Event::Progress);
    let length = length_in(&progress);
    let live = live_in(&stats);
    drop(progress);
    drop(stats);
    format!(in rt.alloc(); "{length} messages, {live} live").expect(rt, "no memory")
}

/// What was sent since the last look, and how the connection was closed.
fn seen<R: Abort + AllocGlobal>(rt: &R, stage: &mut Stage) -> String {
    let mut out = String::new(rt.alloc());
    show(rt, stage, &mut out);
    show_closes(rt, stage, &mut out);
    out
}

/// Does what the line says, and serves the session until its answer is there.
fn plays<R: Abort + AllocGlobal>(rt: &R, stage: &mut Stage, line: &str) -> String {
    let (word, rest) = words(line);
    does(rt, stage, word, rest);
    assert!(rt;
        stage.side.session.is_some() || !stage.side.conn.is_open(),
        "no memory"
    );
    stage.side.serve(rt, &mut stage.desk, 64, 1_000);
    drop(ask(&mut stage.desk, Event::Stored));
    stage.side.serve(rt, &mut stage.desk, 64, 1_001);
    seen(rt, stage)
}

/// The same, and where it was not all, what another turn sends.
fn answer<R: Abort + AllocGlobal>(rt: &R, stage: &mut Stage, line: &str, want: &str) -> String {
    let mut got = plays(rt, stage, line);
    if want.starts_with(got.as_str()) && got.as_str() != want {
        stage.side.serve(rt, &mut stage.desk, 64, 1_002);
        push(rt, &mut got, seen(rt, stage).as_str());
    }
    got
}

/// The first line that is another one than with memory.
fn first_other<'a>(got: &'a str, want: &str) -> &'a str {
    let mut wanted = want.lines();
    for line in got.lines() {
        match wanted.next() {
            Some(other) if other == line => {}
            _ => return line,
        }
    }
    ""
}

fn is_close(line: &str) -> bool {
    matches!(line, "closed 4001 F1" | "closed 4002 F1" | "closed 4008 F1")
}

/// Whether it answers a text for whose request there was no memory.
fn is_refusal(line: &str) -> bool {
    line == "{\"fault\":1,\"result\":\"refused\"}"
        || line.ends_with("\"errorMsg\":\"Unknown error\",\"result\":\"send-error:8\"}")
}

/// The line tells of a want of memory. What was refused has not changed the topic; what was asked before a close may have.
fn check_refused<R: Abort>(rt: &R, line: &str, now: &str, before: &str, after: &str) {
    assert!(rt; is_close(line) || is_refusal(line), "{line}");
    assert!(rt;
        now == before || is_close(line) && now == after,
        "{line}: {now}"
    );
}

/// Whether the step went as it does with memory.
fn goes_on<R: Abort + AllocGlobal>(rt: &R, stage: &mut Stage, step: &Step, before: &str) -> bool {
    let (line, want, after) = *step;
    let got = answer(rt, stage, line, want);
    let now = stands(rt, &mut stage.desk);
    if got.as_str() == want {
        expect(rt, now.as_str(), after);
        return true;
    }
    let other = first_other(got.as_str(), want);
    check_refused(rt, other, now.as_str(), before, after);
    false
}

/// Each step, up to one for which memory was refused.
fn each_growth<R: Abort + AllocGlobal>(rt: &R, desk: Desk, steps: &[Step]) {
    let mut stage = Stage::new(rt, desk);
    let mut before = stands(rt, &mut stage.desk);
    for step in steps {
        if !goes_on(rt, &mut stage, step, before.as_str()) {
            return;
        }
        before = stands(rt, &mut stage.desk);
    }
}

const PRODUCER: &[Step] = &[
    (
        "open /ws/v2/producer/persistent/public/default/t?producerName=p",
        "",
        "0 messages, 0 live",
    ),
    (
        "text {\"payload\":\"aGk=\",\"context\":\"a\",\"key\":\"k\",\"properties\":{\"n\":3,\"b\":true}}",
        "{\"context\":\"a\",\"messageId\":\"CAAQAA==\",\"result\":\"ok\"}\n",
        "1 messages, 0 live",
    ),
    (
        "text {\"payload\":\"%%%\",\"context\":\"b\"}",
        "{\"context\":\"b\",\"errorMsg\":\"Invalid payload encoding\",\"result\":\"send-error:7\"}\n",
        "1 messages, 0 live",
    ),
    (
        "text {\"payload\":\"aGk=\",\"context\":\"c\"}",
        "{\"context\":\"c\",\"messageId\":\"CAAQAQ==\",\"result\":\"ok\"}\n",
        "2 messages, 0 live",
    ),
];

const CONSUMER: &[Step] = &[
    (
        "open /ws/v2/consumer/persistent/public/default/t/s?subscriptionInitialPosition=Earliest&subscriptionType=Shared",
        "{\"messageId\":\"CAAQAA==\",\"payload\":\"MA==\",\"properties\":{},\"publishTime\":\"1970-01-01T00:00:01.000Z\",\"redeliveryCount\":0}
{\"messageId\":\"CAAQAQ==\",\"payload\":\"MQ==\",\"properties\":{},\"publishTime\":\"1970-01-01T00:00:01.000Z\",\"redeliveryCount\":0}
",
        "2 messages, 2 live",
    ),
    (
        "text {\"messageId\":\"CAAQAA==\"}",
        "",
        "2 messages, 1 live",
    ),
    (
        "text {\"type\":\"negativeAcknowledge\",\"messageId\":\"CAAQAQ==\"}",
        "",
        "2 messages, 1 live",
    ),
    (
        "text {\"type\":\"isEndOfTopic\"}",
        "{\"endOfTopic\":\"false\"}\n",
        "2 messages, 1 live",
    ),
    (
        "text {\"messageId\":\"CAAQAQ==\"}",
        "",
        "2 messages, 0 live",
    ),
];

const ADMIN: &[Step] = &[
    (
        "open /ws/v2/admin/persistent/public/default/t",
        "",
        "2 messages, 2 live",
    ),
    (
        "text {\"type\":\"skip\",\"subscription\":\"s\",\"messages\":1}",
        "{\"result\":\"ok\"}\n",
        "2 messages, 1 live",
    ),
    (
        "text {\"type\":\"stats\",\"subscription\":\"s\"}",
        "{\"acknowledged\":1,\"dead\":0,\"kind\":\"Shared\",\"live\":1,\"markDelete\":\"CAAQAA==\",\"members\":1,\"pending\":1,\"result\":\"ok\"}\n",
        "2 messages, 1 live",
    ),
    (
        "text {\"type\":\"seek\",\"subscription\":\"s\",\"position\":\"earliest\"}",
        "{\"result\":\"ok\"}\n",
        "2 messages, 2 live",
    ),
    (
        "text {\"type\":\"deleteTopic\"}",
        "{\"result\":\"ok\"}\n",
        "2 messages, 2 live",
    ),
];

/// A topic with two messages, and a consumer of the subscription `s` that was sent them.
fn consumed_desk<R: Abort + AllocGlobal>(rt: &R) -> Desk {
    let (line, _, _) = CONSUMER.first().expect(rt, "a step");
    let mut desk = filled_desk(rt);
    let mut side = Side::new(rt);
    side.open(rt, &mut desk, words(line).1);
    side.serve(rt, &mut desk, 64, 1_000);
    side.serve(rt, &mut desk, 64, 1_001);
    let sent = side.conn.told().expect(rt, "no memory").sent.len();
    assert!(rt; side.session.is_some() && sent == 2, "no memory");
    drop(side);
    desk
}

#[test]
fn a_producers_session_for_want_of_memory(rt: HostRuntime) {
    each_growth(&rt, desk(&rt), PRODUCER);
}

#[test]
fn a_consumers_session_for_want_of_memory(rt: HostRuntime) {
    each_growth(&rt, filled_desk(&rt), CONSUMER);
}

#[test]
fn an_administrators_session_for_want_of_memory(rt: HostRuntime) {
    each_growth(&rt, consumed_desk(&rt), ADMIN);
}
