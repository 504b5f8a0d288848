// A session that is served only when what it waits for has come sends the same texts as one that is served all the time.
use super::side::{Desk, Side, asked, desk};
use super::stage::{expect, number, words};
use crate::tests::{expect_count, push, this_subscription};
use delivery_machine::{Event, Moment, Reply};
use session_core::Waits;
use std::process::Abort;

/// So many milliseconds are played.
const END: u64 = 600;

/// So often a session may be served in one of them.
const ROUNDS: u64 = 3;

/// A producer and a consumer of one topic.
#[derive(Drop)]
struct World {
    desk: Desk,
    producer: Side,
    consumer: Side,
    /// How many turns were served.
    turns: u64,
}

fn durable_in(reply: &Reply) -> u64 {
    match reply {
        Reply::Progress { durable, length: _ } => *durable,
        _ => 0,
    }
}

fn durable(desk: &mut Desk) -> u64 {
    let reply = asked(desk, Event::Progress);
    let durable = durable_in(&reply);
    drop(reply);
    durable
}

fn are_waiting(reply: &Reply) -> bool {
    match reply {
        Reply::Stats { live, pending, .. } => live > pending,
        _ => false,
    }
}

/// Whether a message waits in the subscription `s`.
fn has_waiting<R: Abort + AllocGlobal>(rt: &R, desk: &mut Desk) -> bool {
    let subscription = this_subscription(rt);
    let reply = asked(desk, Event::Stats { subscription });
    let waiting = are_waiting(&reply);
    drop(reply);
    waiting
}

fn is_over<R: Abort + AllocGlobal>(
    rt: &R,
    waits: Waits,
    has_room: bool,
    desk: &mut Desk,
    now: u64,
) -> bool {
    (waits.room && has_room)
        || waits.due.is_some_and(|due| due <= now)
        || waits.durable.is_some_and(|length| length <= durable(desk))
        || (waits.messages && has_waiting(rt, desk))
}

/// Whether a text came that the session takes, or what it waits for.
fn is_woken<R: Abort + AllocGlobal>(rt: &R, side: &Side, desk: &mut Desk, now: u64) -> bool {
    match &side.session {
        Some(session) => {
            let waits = session.waits();
            (waits.texts && !side.conn.incoming.is_empty())
                || is_over(rt, waits, side.conn.room > 0, desk, now)
        }
        None => false,
    }
}

fn publishes<R: Abort + AllocGlobal>(rt: &R, producer: &mut Side, count: u64) {
    for _ in 0..count {
        producer.comes(rt, "{\"payload\":\"aGk=\"}");
    }
}

/// Another consumer has a message sent to this one, and rings it.
fn is_sent<R: Abort + AllocGlobal>(rt: &R, world: &mut World, now: u64) {
    let dispatch = Event::Dispatch {
        subscription: this_subscription(rt),
        now: Moment::new(now).expect(rt, "a moment"),
    };
    drop(asked(&mut world.desk, dispatch));
    world.consumer.serve(rt, &mut world.desk, 64, now);
}

fn does<R: Abort + AllocGlobal>(rt: &R, world: &mut World, word: &str, rest: &str, now: u64) {
    match word {
        "sent" => is_sent(rt, world, now),
        "publishes" => publishes(rt, &mut world.producer, number(rt, rest)),
        "producer" => world.producer.comes(rt, rest),
        "consumer" => world.consumer.comes(rt, rest),
        "stored" => drop(asked(&mut world.desk, Event::Stored)),
        "producer_room" => world.producer.conn.room = number(rt, rest),
        "consumer_room" => world.consumer.conn.room = number(rt, rest),
        _ => None.expect(rt, "a line"),
    }
}

/// Does what the lines say of this moment.
fn comes<R: Abort + AllocGlobal>(rt: &R, world: &mut World, script: &str, now: u64) {
    for line in script.lines() {
        let (at, rest) = words(line);
        if number(rt, at) == now {
            let (word, rest) = words(rest);
            does(rt, world, word, rest, now);
        }
    }
}

fn serves<R: Abort + AllocGlobal>(rt: &R, world: &mut World, is_eager: bool, now: u64) {
    if is_eager || is_woken(rt, &world.producer, &mut world.desk, now) {
        world.producer.serve(rt, &mut world.desk, 64, now);
        world.turns = world.turns.saturating_add(1);
    }
    if is_eager || is_woken(rt, &world.consumer, &mut world.desk, now) {
        world.consumer.serve(rt, &mut world.desk, 64, now);
        world.turns = world.turns.saturating_add(1);
    }
}

/// Writes how the subscription `s` stands.
fn show_stats<R: Abort + AllocGlobal>(rt: &R, reply: &Reply, out: &mut String) {
    if let Reply::Stats { live, pending, .. } = reply {
        let line = format!(in rt.alloc(); "{live} live, {pending} pending\n");
        push(rt, out, line.expect(rt, "no memory").as_str());
    }
}

fn show_end<R: Abort + AllocGlobal>(rt: &R, desk: &mut Desk, out: &mut String) {
    let subscription = this_subscription(rt);
    let reply = asked(desk, Event::Stats { subscription });
    show_stats(rt, &reply, out);
    drop(reply);
}

/// Writes the texts that were sent.
fn show<R: Abort>(rt: &R, side: &Side, out: &mut String) {
    for text in side.conn.told().expect(rt, "no memory").sent.iter() {
        push(rt, out, text.as_str());
        push(rt, out, "\n");
    }
}

fn open<R: AllocGlobal>(rt: &R, world: &mut World, consumer: &str) {
    let producer = "/ws/v2/producer/persistent/public/default/t";
    world.producer.open(rt, &mut world.desk, producer);
    world.consumer.open(rt, &mut world.desk, consumer);
}

/// Plays the script, and writes what is sent, and how the subscription stands in the end.
fn play<R: Abort + AllocGlobal>(
    rt: &R,
    world: &mut World,
    out: &mut String,
    script: &str,
    is_eager: bool,
) {
    for now in 0..END {
        comes(rt, world, script, now);
        for _ in 0..ROUNDS {
            serves(rt, world, is_eager || now == 0, now);
        }
    }
    show(rt, &world.producer, out);
    show(rt, &world.consumer, out);
    show_end(rt, &mut world.desk, out);
}

/// What is sent, how the subscription stands in the end, and in how many turns.
fn played<R: Abort + AllocGlobal>(
    rt: &R,
    consumer: &str,
    script: &str,
    is_eager: bool,
) -> (String, u64) {
    let mut world = World {
        desk: desk(rt),
        producer: Side::new(rt),
        consumer: Side::new(rt),
        turns: 0,
    };
    let mut out = String::new(rt.alloc());
    open(rt, &mut world, consumer);
    play(rt, &mut world, &mut out, script, is_eager);
    let turns = world.turns;
    drop(world);
    (out, turns)
}

fn check_texts<R: Abort>(rt: &R, woken: &str, always: &str, texts: u64, end: &str) {
    expect(rt, woken, always);
    expect_count(rt, always.lines().count() as u64, texts.saturating_add(1));
    expect(rt, always.lines().last().unwrap_or(""), end);
}

fn check_turns<R: Abort>(rt: &R, turns: u64, most: u64) {
    assert!(rt; turns <= most, "{turns}");
}

/// The texts are the same, so many, the subscription stands so in the end, and a session that waits is served in at most
/// so many turns.
fn check<R: Abort + AllocGlobal>(
    rt: &R,
    consumer: &str,
    script: &str,
    texts: u64,
    end: &str,
    most: u64,
) {
    let (always, _) = played(rt, consumer, script, true);
    let (woken, turns) = played(rt, consumer, script, false);
    check_texts(rt, woken.as_str(), always.as_str(), texts, end);
    check_turns(rt, turns, most);
}

#[test]
fn answers_wait_for_the_store_and_for_room(rt: HostRuntime) {
    check(
        &rt,
        "/ws/v2/consumer/persistent/public/default/t/s",
        "3 publishes 2
5 producer {\"payload\":\"%%%\"}
9 publishes 1
50 stored
80 producer_room 1
90 publishes 3
91 stored
200 producer_room 9",
        13,
        "6 live, 6 pending",
        40,
    );
}

#[test]
fn messages_come_again_at_their_moments(rt: HostRuntime) {
    check(
        &rt,
        "/ws/v2/consumer/persistent/public/default/t/s?subscriptionType=Shared&receiverQueueSize=2&ackTimeoutMillis=100&negativeAckRedeliveryDelay=50",
        "0 publishes 3
10 stored
20 consumer {\"messageId\":\"CAAQAA==\"}
30 consumer {\"type\":\"negativeAcknowledge\",\"messageId\":\"CAAQAQ==\"}
300 consumer {\"messageId\":\"CAAQAQ==\"}
301 consumer {\"messageId\":\"CAAQAg==\"}",
        11,
        "0 live, 0 pending",
        80,
    );
}

#[test]
fn more_than_a_turn_sends_comes_in_several(rt: HostRuntime) {
    check(
        &rt,
        "/ws/v2/consumer/persistent/public/default/t/s",
        "0 publishes 150
20 stored
100 consumer_room 0
200 publishes 3
210 stored
300 consumer_room 500",
        306,
        "153 live, 153 pending",
        40,
    );
}

#[test]
fn a_consumer_that_pulls_waits_for_its_permits(rt: HostRuntime) {
    check(
        &rt,
        "/ws/v2/consumer/persistent/public/default/t/s?pullMode=true",
        "0 publishes 3
20 stored
40 consumer {\"type\":\"permit\",\"permitMessages\":2}
60 consumer {\"type\":\"isEndOfTopic\"}
400 consumer {\"type\":\"permit\",\"permitMessages\":2}
500 publishes 1
510 stored",
        9,
        "4 live, 4 pending",
        1_800,
    );
}

#[test]
fn a_producer_reads_on_once_its_publishes_are_answered(rt: HostRuntime) {
    check(
        &rt,
        "/ws/v2/consumer/persistent/public/default/t/s?receiverQueueSize=2000",
        "0 publishes 1100
100 stored
200 stored",
        2_200,
        "1100 live, 1100 pending",
        60,
    );
}

#[test]
fn many_messages_that_fall_due_together_are_all_free_again(rt: HostRuntime) {
    check(
        &rt,
        "/ws/v2/consumer/persistent/public/default/t/s?subscriptionType=Shared&ackTimeoutMillis=200",
        "0 publishes 150
10 stored
50 consumer_room 0",
        300,
        "150 live, 0 pending",
        40,
    );
}

#[test]
fn what_is_not_collected_falls_due_too(rt: HostRuntime) {
    check(
        &rt,
        "/ws/v2/consumer/persistent/public/default/t/s?subscriptionType=Shared&ackTimeoutMillis=100",
        "0 consumer_room 0
1 publishes 2
10 stored
15 sent
16 sent",
        2,
        "2 live, 0 pending",
        40,
    );
}
