// Consumers' sessions.
use super::stage::check;

#[test]
fn a_publish_of_the_python_form_is_delivered(rt: HostRuntime) {
    check(
        &rt,
        "open /ws/v2/producer/persistent/public/default/t
text {\"payload\": \"SGVsbG8gV29ybGQ=\", \"properties\": {\"key1\": \"value1\", \"key2\": \"value2\"}, \"context\": 5}
turn 1000
stored
turn 1000
open /ws/v2/consumer/persistent/public/default/t/s?subscriptionInitialPosition=Earliest
turn 1000",
        "{\"context\":\"5\",\"messageId\":\"CAAQAA==\",\"result\":\"ok\"}
{\"messageId\":\"CAAQAA==\",\"payload\":\"SGVsbG8gV29ybGQ=\",\"properties\":{\"key1\":\"value1\",\"key2\":\"value2\"},\"publishTime\":\"1970-01-01T00:00:01.000Z\",\"redeliveryCount\":0}
open
",
    );
}

#[test]
fn permits_let_a_consumer_that_pulls_be_sent_messages(rt: HostRuntime) {
    check(
        &rt,
        "open /ws/v2/producer/persistent/public/default/t
text {\"payload\":\"aGk=\"}
text {\"payload\":\"aGk=\"}
serve 1000
stored
open /ws/v2/consumer/persistent/public/default/t/s?subscriptionInitialPosition=Earliest&pullMode=true
turn 1000
text {\"type\":\"permit\",\"permitMessages\":1}
turn 1000
text {\"type\":\"isEndOfTopic\"}
turn 1000
text {\"type\":\"permit\",\"permitMessages\":1}
turn 1000",
        "{\"messageId\":\"CAAQAA==\",\"payload\":\"aGk=\",\"properties\":{},\"publishTime\":\"1970-01-01T00:00:01.000Z\",\"redeliveryCount\":0}
{\"endOfTopic\":\"false\"}
{\"messageId\":\"CAAQAQ==\",\"payload\":\"aGk=\",\"properties\":{},\"publishTime\":\"1970-01-01T00:00:01.000Z\",\"redeliveryCount\":0}
open
",
    );
}

#[test]
fn a_message_comes_again_after_its_delay_or_is_acknowledged(rt: HostRuntime) {
    check(
        &rt,
        "open /ws/v2/producer/persistent/public/default/t
text {\"payload\":\"aGk=\"}
turn 1000
stored
open /ws/v2/consumer/persistent/public/default/t/s?subscriptionInitialPosition=Earliest&subscriptionType=Shared
turn 1000
text {\"type\":\"negativeAcknowledge\",\"messageId\":\"CAAQAA==\"}
turn 2000
turn 61999
turn 62000
text {\"messageId\":\"CAAQAA==\"}
text {\"type\":\"negativeAcknowledge\",\"messageId\":\"CAAQAA==\"}
text {\"messageId\":\"CAAQBQ==\"}
text {\"type\":\"permit\",\"permitMessages\":1}
serve 62000
turn 200000",
        "{\"messageId\":\"CAAQAA==\",\"payload\":\"aGk=\",\"properties\":{},\"publishTime\":\"1970-01-01T00:00:01.000Z\",\"redeliveryCount\":0}
{\"messageId\":\"CAAQAA==\",\"payload\":\"aGk=\",\"properties\":{},\"publishTime\":\"1970-01-01T00:00:01.000Z\",\"redeliveryCount\":1}
open
",
    );
}

#[test]
fn a_consumer_that_does_not_read_is_sent_no_more(rt: HostRuntime) {
    check(
        &rt,
        "open /ws/v2/producer/persistent/public/default/t
text {\"payload\":\"MA==\"}
text {\"payload\":\"MQ==\"}
serve 1000
stored
open /ws/v2/consumer/persistent/public/default/t/s?subscriptionInitialPosition=Earliest
room 1
turn 1000
text {\"type\":\"isEndOfTopic\"}
turn 1000
room 5
turn 1000",
        "{\"messageId\":\"CAAQAA==\",\"payload\":\"MA==\",\"properties\":{},\"publishTime\":\"1970-01-01T00:00:01.000Z\",\"redeliveryCount\":0}
{\"messageId\":\"CAAQAQ==\",\"payload\":\"MQ==\",\"properties\":{},\"publishTime\":\"1970-01-01T00:00:01.000Z\",\"redeliveryCount\":0}
{\"endOfTopic\":\"false\"}
open
",
    );
}
