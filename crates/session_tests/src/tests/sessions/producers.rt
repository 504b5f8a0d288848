// Producers' sessions.
use super::stage::{check, count};
use crate::tests::{expect_count, joined, push};
use std::process::Abort;

#[test]
fn answers_wait_for_storing_and_for_their_turn(rt: HostRuntime) {
    check(
        &rt,
        "open /ws/v2/producer/persistent/public/default/t?producerName=p
text {\"payload\":\"aGk=\",\"context\":\"1\"}
text {\"payload\":\"%%%\",\"context\":\"2\"}
serve 1000",
        "open\n",
    );
    check(
        &rt,
        "open /ws/v2/producer/persistent/public/default/t?producerName=p
text {\"payload\":\"aGk=\",\"context\":\"1\"}
text {\"payload\":\"%%%\",\"context\":\"2\"}
turn 1000
turn 1000
stored
turn 1001",
        "{\"context\":\"1\",\"messageId\":\"CAAQAA==\",\"result\":\"ok\"}
{\"context\":\"2\",\"errorMsg\":\"Invalid payload encoding\",\"result\":\"send-error:7\"}
open
",
    );
}

#[test]
fn a_duplicate_has_the_id_of_no_message(rt: HostRuntime) {
    check(
        &rt,
        "open /ws/v2/producer/persistent/public/default/t?producerName=p&initialSequenceId=4
text {\"payload\":\"YQ==\"}
turn 1000
stored
turn 1000
gone
turn 1000
open /ws/v2/producer/persistent/public/default/t?producerName=p&initialSequenceId=4
text {\"payload\":\"YQ==\"}
turn 1001
text {\"payload\":\"YQ==\"}
turn 1002
stored
turn 1003",
        "{\"messageId\":\"CAAQAA==\",\"result\":\"ok\"}
{\"messageId\":\"CP///////////wEQ////////////AQ==\",\"result\":\"ok\"}
{\"messageId\":\"CAAQAQ==\",\"result\":\"ok\"}
open
",
    );
}

#[test]
fn numbers_go_on_from_the_last_and_refused_texts_take_none(rt: HostRuntime) {
    check(
        &rt,
        "open /ws/v2/producer/persistent/public/default/t?producerName=p
text {\"payload\":\"aGk=\"}
text {\"payload\":true}
text {\"payload\":\"aGk=\"}
serve 1000
stored
gone
turn 1000
open /ws/v2/producer/persistent/public/default/t?producerName=p
text {\"payload\":\"aGk=\"}
text {\"payload\":\"aGk=\",\"cont
serve 1000
stored
turn 1000",
        "{\"messageId\":\"CAAQAg==\",\"result\":\"ok\"}
{\"errorMsg\":\"Failed to deserialize from JSON\",\"result\":\"send-error:3\"}
open
",
    );
}

#[test]
fn texts_say_what_their_last_members_say(rt: HostRuntime) {
    check(
        &rt,
        "open /ws/v2/producer/persistent/public/default/t?producerName=p
text {\"payload\":\"%\",\"context\":\"a\",\"payload\":\"aGk=\"}
text {\"context\":\"b\",\"payload\":\"aGk=\",\"more\":{\"deep\":[1,{\"x\":null}]},\"more\":2}
text {\"context\":\"c\",\"payload\":\"aGk=\",\"more\":1e999}
text {\"context\":\"\\u0064\\n\",\"payload\":\"aGk\\u003d\"}
text {\"context\":null,\"payload\":\"aGk=\",\"key\":\"k\",\"properties\":{\"p\":[1],\"p\":\"q\",\"n\":1,\"t\":true,\"z\":null}}
text {\"context\":\"e\",\"payload\":\"aGk=\",\"properties\":{\"p\":\"q\",\"p\":[1]}}
text {\"context\":-7,\"payload\":\"aGk=\"}
text {\"context\":1.5,\"payload\":\"aGk=\"}
text {\"payload\":\"aGk=\"}{}
text [{\"payload\":\"aGk=\"}]
serve 1000
stored
serve 1001",
        "{\"context\":\"a\",\"messageId\":\"CAAQAA==\",\"result\":\"ok\"}
{\"context\":\"b\",\"messageId\":\"CAAQAQ==\",\"result\":\"ok\"}
{\"errorMsg\":\"Failed to deserialize from JSON\",\"result\":\"send-error:3\"}
{\"context\":\"d\\n\",\"messageId\":\"CAAQAg==\",\"result\":\"ok\"}
{\"messageId\":\"CAAQAw==\",\"result\":\"ok\"}
{\"context\":\"e\",\"errorMsg\":\"Failed to deserialize from JSON\",\"result\":\"send-error:3\"}
{\"context\":\"-7\",\"messageId\":\"CAAQBA==\",\"result\":\"ok\"}
{\"errorMsg\":\"Failed to deserialize from JSON\",\"result\":\"send-error:3\"}
{\"errorMsg\":\"Failed to deserialize from JSON\",\"result\":\"send-error:3\"}
{\"errorMsg\":\"Failed to deserialize from JSON\",\"result\":\"send-error:3\"}
open
",
    );
}

#[test]
fn a_connection_without_room_keeps_its_answers(rt: HostRuntime) {
    check(
        &rt,
        "open /ws/v2/producer/persistent/public/default/t?producerName=p
room 1
text {\"context\":1}
text {\"context\":2}
text {\"context\":3}
serve 1000
room 1
turn 1000",
        "{\"context\":\"1\",\"errorMsg\":\"Failed to deserialize from JSON\",\"result\":\"send-error:3\"}
{\"context\":\"2\",\"errorMsg\":\"Failed to deserialize from JSON\",\"result\":\"send-error:3\"}
open
",
    );
}

/// The part so many times.
fn repeat<R: Abort>(rt: &R, script: &mut String, part: &str, times: u32) {
    for _ in 0..times {
        push(rt, script, part);
    }
}

/// More texts than may be without answers, to a connection without room at first.
fn push_thousand<R: Abort>(rt: &R, script: &mut String) {
    let head = "open /ws/v2/producer/persistent/public/default/t\nroom 0\n";
    push(rt, script, head);
    repeat(rt, script, "text {}\n", 1_010);
    repeat(rt, script, "serve 1000\n", 20);
    push(rt, script, "room 3\nturn 1000\nroom 2000\nturn 1000");
}

fn check_count<R: Abort + AllocGlobal>(rt: &R, script: &str, want: u64) {
    expect_count(rt, count(rt, script) as u64, want);
}

#[test]
fn a_thousand_without_answers_stop_the_reading(rt: HostRuntime) {
    let mut script = String::new(rt.alloc());
    push_thousand(&rt, &mut script);
    check_count(&rt, script.as_str(), 1_002);
}

/// A publish of a payload of a mebibyte but one or two bytes, and its end.
fn push_mebibyte<R: Abort>(rt: &R, script: &mut String, end: &str) {
    push(rt, script, "text {\"payload\":\"");
    repeat(rt, script, "AAAA", 349_525);
    push(rt, script, end);
    push(rt, script, "\"}\n");
}

#[test]
fn a_payload_of_a_mebibyte_is_stored(rt: HostRuntime) {
    let mut script = joined(&rt, &["open /ws/v2/producer/persistent/public/default/t\n"]);
    push_mebibyte(&rt, &mut script, "AA==");
    push_mebibyte(&rt, &mut script, "AAA=");
    push(&rt, &mut script, "serve 1000\nstored\nserve 1001");
    check(
        &rt,
        script.as_str(),
        "{\"messageId\":\"CAAQAA==\",\"result\":\"ok\"}
{\"errorMsg\":\"Invalid payload encoding\",\"result\":\"send-error:7\"}
open
",
    );
}
