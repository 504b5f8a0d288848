// Administrators' sessions.
use super::stage::check;
use crate::tests::joined;

#[test]
fn commands_are_answered_at_once(rt: HostRuntime) {
    check(
        &rt,
        "open /ws/v2/producer/persistent/public/default/t
text {\"payload\":\"aGk=\"}
turn 1000
stored
open /ws/v2/consumer/persistent/public/default/t/s?subscriptionInitialPosition=Earliest&subscriptionType=Key_Shared
open /ws/v2/admin/persistent/public/default/t
text {\"type\":\"stats\",\"subscription\":\"s\"}
text {\"type\":\"skip\",\"subscription\":\"s\",\"messages\":1}
text {\"type\":\"stats\",\"subscription\":\"s\"}
text {\"type\":\"dropSubscription\",\"subscription\":\"s\"}
text {\"type\":\"seek\",\"subscription\":\"x\",\"position\":\"latest\"}
serve 1000
text {\"type\":\"seek\",\"subscription\":\"s\",\"position\":\"CAAQAw\"}
turn 1000",
        "{\"acknowledged\":0,\"dead\":0,\"kind\":\"Key_Shared\",\"live\":1,\"members\":1,\"pending\":0,\"result\":\"ok\"}
{\"result\":\"ok\"}
{\"acknowledged\":1,\"dead\":0,\"kind\":\"Key_Shared\",\"live\":0,\"markDelete\":\"CAAQAA==\",\"members\":1,\"pending\":0,\"result\":\"ok\"}
{\"fault\":12,\"result\":\"refused\"}
{\"fault\":11,\"result\":\"refused\"}
closed 4003 F17
",
    );
}

#[test]
fn a_deletion_is_answered_in_its_turn(rt: HostRuntime) {
    check(
        &rt,
        "open /ws/v2/admin/persistent/public/default/t
text {\"type\":\"deleteTopic\"}
text {\"type\":\"stats\",\"subscription\":\"s\"}
text {\"type\":\"deleteTopic\",\"subscription\":\"a/b\"}
serve 1000
refuse F12
text {\"type\":\"deleteTopic\"}
turn 1001
refuse none
text {\"type\":\"deleteTopics\"}
text {\"type\":\"deleteTopic\"}
serve 1002",
        "{\"result\":\"ok\"}
{\"fault\":11,\"result\":\"refused\"}
{\"result\":\"ok\"}
{\"fault\":12,\"result\":\"refused\"}
closed 4003 F18
",
    );
}

#[test]
fn a_subscription_is_made_and_looked_at(rt: HostRuntime) {
    check(
        &rt,
        "open /ws/v2/producer/persistent/public/default/t
text {\"payload\":\"MA==\"}
text {\"payload\":\"MQ==\",\"key\":\"k\"}
text {\"payload\":\"Mg==\"}
serve 1000
stored
open /ws/v2/admin/persistent/public/default/t
text {\"type\":\"peek\",\"subscription\":\"s\",\"messages\":1}
text {\"type\":\"createSubscription\",\"subscription\":\"s\",\"position\":\"CAAQBQ==\"}
text {\"type\":\"stats\",\"subscription\":\"s\"}
text {\"type\":\"createSubscription\",\"subscription\":\"s\",\"position\":\"CAAQAQ==\"}
text {\"type\":\"createSubscription\",\"subscription\":\"s\",\"position\":\"earliest\"}
text {\"type\":\"peek\",\"subscription\":\"s\",\"messages\":1}
text {\"type\":\"peek\",\"subscription\":\"s\",\"messages\":100}
text {\"type\":\"stats\",\"subscription\":\"s\"}
serve 1000",
        "{\"fault\":11,\"result\":\"refused\"}
{\"fault\":8,\"result\":\"refused\"}
{\"fault\":11,\"result\":\"refused\"}
{\"result\":\"ok\"}
{\"fault\":12,\"result\":\"refused\"}
{\"messages\":[{\"key\":\"k\",\"messageId\":\"CAAQAQ==\",\"payload\":\"MQ==\",\"properties\":{},\"publishTime\":\"1970-01-01T00:00:01.000Z\",\"redeliveryCount\":0,\"producerName\":\"auto-0\",\"sequenceId\":1}],\"result\":\"ok\"}
{\"messages\":[{\"key\":\"k\",\"messageId\":\"CAAQAQ==\",\"payload\":\"MQ==\",\"properties\":{},\"publishTime\":\"1970-01-01T00:00:01.000Z\",\"redeliveryCount\":0,\"producerName\":\"auto-0\",\"sequenceId\":1},{\"messageId\":\"CAAQAg==\",\"payload\":\"Mg==\",\"properties\":{},\"publishTime\":\"1970-01-01T00:00:01.000Z\",\"redeliveryCount\":0,\"producerName\":\"auto-0\",\"sequenceId\":2}],\"result\":\"ok\"}
{\"acknowledged\":1,\"dead\":0,\"kind\":\"Exclusive\",\"live\":2,\"markDelete\":\"CAAQAA==\",\"members\":0,\"pending\":0,\"result\":\"ok\"}
open
",
    );
}

#[test]
fn what_is_not_stored_yet_is_not_shown(rt: HostRuntime) {
    check(
        &rt,
        "open /ws/v2/producer/persistent/public/default/t
text {\"payload\":\"MA==\"}
serve 1000
open /ws/v2/admin/persistent/public/default/t
text {\"type\":\"createSubscription\",\"subscription\":\"s\",\"position\":\"earliest\"}
text {\"type\":\"peek\",\"subscription\":\"s\",\"messages\":5}
serve 1000",
        "{\"result\":\"ok\"}
{\"messages\":[],\"result\":\"ok\"}
open
",
    );
}

/// Of three messages two fit into one text.
#[test]
fn as_many_are_shown_as_fit(rt: HostRuntime) {
    let payload = "AAAA".repeat(rt.alloc(), 200_000).expect(&rt, "no memory");
    let payload = payload.as_str();
    let text = joined(&rt, &["text {\"payload\":\"", payload, "\"}\n"]);
    let text = text.as_str();
    let first = "open /ws/v2/producer/persistent/public/default/t\n";
    let later = "serve 1000
stored
open /ws/v2/admin/persistent/public/default/t
text {\"type\":\"createSubscription\",\"subscription\":\"s\",\"position\":\"earliest\"}
text {\"type\":\"peek\",\"subscription\":\"s\",\"messages\":3}
serve 1000";
    let script = joined(&rt, &[first, text, text, text, later]);
    let start = "{\"result\":\"ok\"}
{\"messages\":[{\"messageId\":\"CAAQAA==\",\"payload\":\"";
    let between =
        "\",\"properties\":{},\"publishTime\":\"1970-01-01T00:00:01.000Z\",\"redeliveryCount\":0,\"producerName\":\"auto-0\",\"sequenceId\":0},{\"messageId\":\"CAAQAQ==\",\"payload\":\"";
    let end =
        "\",\"properties\":{},\"publishTime\":\"1970-01-01T00:00:01.000Z\",\"redeliveryCount\":0,\"producerName\":\"auto-0\",\"sequenceId\":1}],\"result\":\"ok\"}
open
";
    let want = joined(&rt, &[start, payload, between, payload, end]);
    check(&rt, script.as_str(), want.as_str());
}

#[test]
fn nobody_else_is_there_to_be_ended(rt: HostRuntime) {
    check(
        &rt,
        "open /ws/v2/admin/persistent/public/default/t
text {\"type\":\"disconnect\",\"session\":1}
serve 1000",
        "{\"fault\":3,\"result\":\"refused\"}
open
",
    );
}

/// The topic stands alone, so its broker shows nothing.
#[test]
fn an_overview_is_answered_in_its_turn(rt: HostRuntime) {
    check(
        &rt,
        "open /ws/v2/admin/persistent/public/default/t
text {\"type\":\"stats\",\"subscription\":\"s\"}
text {\"type\":\"overview\"}
text {\"type\":\"deleteTopic\"}
serve 1000
text {\"type\":\"overview\",\"subscription\":\"s\"}
text {\"type\":\"overviews\"}
text {\"type\":\"overview\"}
serve 1001",
        "{\"fault\":11,\"result\":\"refused\"}
{}
{\"result\":\"ok\"}
{}
closed 4003 F18
",
    );
}

#[test]
fn there_is_no_database_to_be_copied(rt: HostRuntime) {
    check(
        &rt,
        "open /ws/v2/admin/persistent/public/default/t
text {\"type\":\"backup\"}
serve 1000",
        "{\"fault\":20,\"result\":\"refused\"}
open
",
    );
}
