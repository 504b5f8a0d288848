// How sessions are closed.
use super::stage::{check, check_front};
use crate::tests::joined;
use std::process::Abort;

#[test]
fn a_refused_member_closes_with_4002(rt: HostRuntime) {
    check(
        &rt,
        "open /ws/v2/consumer/persistent/public/default/t/s
open /ws/v2/consumer/persistent/public/default/t/s",
        "closed 4002 F6\n",
    );
    check(
        &rt,
        "open /ws/v2/producer/persistent/public/default/t?producerName=p
open /ws/v2/producer/persistent/public/default/t?producerName=p",
        "closed 4001 F2\n",
    );
}

/// Commands, each with how it closes the session.
const COMMANDS: &[(&str, &str)] = &[
    ("{\"messageId\":\"CAAQAw\"}", "closed 4003 F17\n"),
    ("{\"messageId\":\"CAAQAB==\"}", "closed 4003 F17\n"),
    ("{\"messageId\":\"CIAAEAM=\"}", "closed 4003 F17\n"),
    ("{\"messageId\":5}", "closed 4003 F18\n"),
    ("{\"type\":\"other\"}", "closed 4003 F18\n"),
    (
        "{\"type\":\"permit\",\"permitMessages\":5.0}",
        "closed 4003 F18\n",
    ),
    ("nothing", "closed 4003 F18\n"),
    (
        "{\"type\":\"acknowledgeCumulative\",\"messageId\":\"CAAQAA==\"}",
        "open\n",
    ),
];

fn each_closes<R: Abort + AllocGlobal>(rt: &R, texts: &[(&str, &str)]) {
    for (text, want) in texts {
        closes(rt, text, want);
    }
}

#[test]
fn bad_commands_close_with_4003(rt: HostRuntime) {
    each_closes(&rt, COMMANDS);
}

fn closes<R: Abort + AllocGlobal>(rt: &R, text: &str, want: &str) {
    let start = "open /ws/v2/consumer/persistent/public/default/t/s\ntext ";
    let script = joined(rt, &[start, text, "\nturn 1000"]);
    check(rt, script.as_str(), want);
}

/// A session whose next call is refused.
fn refused<R: Abort + AllocGlobal>(rt: &R, head: &str, fault: &str, want: &str) {
    let end = "\nturn 1000\nrefuse none\nturn 1001";
    let script = joined(rt, &[head, "\nrefuse ", fault, end]);
    check(rt, script.as_str(), want);
}

const PRODUCER: &str = "open /ws/v2/producer/persistent/public/default/t";

const PUBLISH: &str =
    "open /ws/v2/producer/persistent/public/default/t\ntext {\"payload\":\"aGk=\"}";

const CONSUMER: &str = "open /ws/v2/consumer/persistent/public/default/t/s";

const ACK: &str =
    "open /ws/v2/consumer/persistent/public/default/t/s\ntext {\"messageId\":\"CAAQAA==\"}";

const ADMIN: &str =
    "open /ws/v2/admin/persistent/public/default/t\ntext {\"type\":\"stats\",\"subscription\":\"s\"}";

const DELETION: &str =
    "open /ws/v2/admin/persistent/public/default/t\ntext {\"type\":\"deleteTopic\"}";

const UNKNOWN: &str = "{\"errorMsg\":\"Unknown error\",\"result\":\"send-error:8\"}\nopen\n";

/// Sessions, each with the refusal of its next call, and how it ends.
const REFUSALS: &[(&str, &str, &str)] = &[
    (PRODUCER, "F15", "closed 4008 F15\n"),
    (PRODUCER, "F1", "open\n"),
    (PUBLISH, "F3", "closed 4008 F3\n"),
    (PUBLISH, "F15", "closed 4008 F15\n"),
    (PUBLISH, "F1", UNKNOWN),
    (CONSUMER, "F15", "closed 4008 F15\n"),
    (CONSUMER, "F1", "open\n"),
    (ACK, "F1", "closed 4008 F1\n"),
    (ACK, "F3", "closed 4008 F3\n"),
    (ACK, "F13", "closed 4008 F13\n"),
    (ADMIN, "F15", "closed 4008 F15\n"),
    (ADMIN, "F1", "{\"fault\":1,\"result\":\"refused\"}\nopen\n"),
    (DELETION, "F15", "closed 4008 F15\n"),
    (
        DELETION,
        "F1",
        "{\"fault\":1,\"result\":\"refused\"}\nopen\n",
    ),
];

fn each_refused<R: Abort + AllocGlobal>(rt: &R, cases: &[(&str, &str, &str)]) {
    for (head, fault, want) in cases {
        refused(rt, head, fault, want);
    }
}

#[test]
fn refusals_close_or_are_passed_over(rt: HostRuntime) {
    each_refused(&rt, REFUSALS);
}

#[test]
fn a_full_topic_is_answered_and_the_session_stays(rt: HostRuntime) {
    check(
        &rt,
        "open /ws/v2/producer/persistent/public/default/t
text {\"payload\":\"aGk=\",\"context\":\"c\"}
text {\"payload\":\"aGk=\",\"context\":\"d\"}
refuse F1
turn 1000
refuse none
turn 1001
stored
turn 1002",
        "{\"context\":\"c\",\"errorMsg\":\"Unknown error\",\"result\":\"send-error:8\"}
{\"context\":\"d\",\"messageId\":\"CAAQAA==\",\"result\":\"ok\"}
open
",
    );
}

#[test]
fn no_number_is_left_after_the_last(rt: HostRuntime) {
    check(
        &rt,
        "open /ws/v2/producer/persistent/public/default/t?producerName=p
last
open /ws/v2/producer/persistent/public/default/t?producerName=p
text {\"payload\":true}
text {\"payload\":\"aGk=\"}
turn 1000
turn 1000",
        "{\"errorMsg\":\"Failed to deserialize from JSON\",\"result\":\"send-error:3\"}
closed 4008 F7
",
    );
}

#[test]
fn a_session_without_its_client_ends_without_a_close(rt: HostRuntime) {
    check(
        &rt,
        "open /ws/v2/consumer/persistent/public/default/t/s
text {\"type\":\"isEndOfTopic\"}
gone
serve 1000
open /ws/v2/consumer/persistent/public/default/t/s",
        "open\n",
    );
}

const THREE_TEXTS: &str = "open /ws/v2/producer/persistent/public/default/t
text {\"context\":1}
text {\"context\":2}
text {\"context\":3}";

/// Some texts, with the connection failing after so many calls.
fn fails_after<R: Abort + AllocGlobal>(rt: &R, calls: u32, whole: &str) {
    let calls = format!(in rt.alloc(); "\nfail {calls}\n").expect(rt, "no memory");
    let end = "turn 1000\nserve 1000\nturn 1000";
    let script = joined(rt, &[THREE_TEXTS, calls.as_str(), end]);
    check_front(rt, script.as_str(), whole);
}

fn each_fails<R: Abort + AllocGlobal>(rt: &R, whole: &str) {
    for calls in 0..12 {
        fails_after(rt, calls, whole);
    }
}

#[test]
fn what_is_sent_before_a_failure_is_a_front_of_all(rt: HostRuntime) {
    let whole =
        "{\"context\":\"1\",\"errorMsg\":\"Failed to deserialize from JSON\",\"result\":\"send-error:3\"}
{\"context\":\"2\",\"errorMsg\":\"Failed to deserialize from JSON\",\"result\":\"send-error:3\"}
{\"context\":\"3\",\"errorMsg\":\"Failed to deserialize from JSON\",\"result\":\"send-error:3\"}
open
";
    each_fails(&rt, whole);
}

#[test]
fn a_connection_that_fails_ends_its_session(rt: HostRuntime) {
    check(
        &rt,
        "open /ws/v2/producer/persistent/public/default/t
text {\"payload\":true}
fail 1
turn 1000",
        "",
    );
}

#[test]
fn a_close_comes_after_the_answers_that_are_ready(rt: HostRuntime) {
    check(
        &rt,
        "open /ws/v2/producer/persistent/public/default/t
text {\"payload\":\"aGk=\"}
text {\"payload\":\"aGk=\"}
serve 1000
stored
open /ws/v2/consumer/persistent/public/default/t/s?subscriptionInitialPosition=Earliest
open /ws/v2/admin/persistent/public/default/t
text {\"type\":\"skip\",\"subscription\":\"s\",\"messages\":2}
text {\"type\":\"stats\",\"subscription\":\"s\"}
text {\"type\":\"seek\",\"subscription\":\"s\",\"position\":\"earliest\"}
text [
serve 1000",
        "{\"result\":\"ok\"}
{\"acknowledged\":2,\"dead\":0,\"kind\":\"Exclusive\",\"live\":0,\"markDelete\":\"CAAQAQ==\",\"members\":1,\"pending\":0,\"result\":\"ok\"}
{\"result\":\"ok\"}
closed 4003 F18
",
    );
}

/// A session whose first publish is answered once it has room, and whose last one is refused.
fn last_is_refused<R: Abort + AllocGlobal>(rt: &R, lines: &str, want: &str) {
    let start =
        "open /ws/v2/producer/persistent/public/default/t\nroom 0\ntext {\"payload\":\"aGk=\"}\n";
    let end = "\nrefuse F15\ntext {\"payload\":\"aGk=\"}\nserve 1002";
    check(rt, joined(rt, &[start, lines, end]).as_str(), want);
}

#[test]
fn what_was_seen_to_be_stored_is_answered_before_a_close(rt: HostRuntime) {
    let answer = "{\"messageId\":\"CAAQAA==\",\"result\":\"ok\"}\nclosed 4008 F15\n";
    last_is_refused(&rt, "turn 1000\nstored\nturn 1001\nroom 1", answer);
    // No session asks in its last turn how much is stored.
    last_is_refused(&rt, "turn 1000\nstored\nroom 1", "closed 4008 F15\n");
    // A connection without room is sent nothing.
    let no_room = "turn 1000\nstored\nturn 1001";
    last_is_refused(&rt, no_room, "closed 4008 F15\n");
}
