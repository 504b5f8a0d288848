// The messages of a log.
ghost use Rattle.std.specs.Prelude.{◌≡◌};

use position_core::{
    Body, Content, Entry, Key, Message, Moment, Payload, Position, ProducerName, Properties,
};
use std::process::Abort;
use std::sync::ArcStr;

/// The position of the message in the first ledger.
pub(super) fn position_at(entry: u64) -> Position {
    Position { ledger: 0, entry }
}

fn content<R: Abort + AllocGlobal>(rt: &R, key: Option<&str>) -> Content {
    let payload = b"hi".to_vec(rt.alloc()).expect(rt, "no memory");
    let key = match key {
        Some(text) => Key::new(ArcStr::from_str(rt.alloc(), text).expect(rt, "no memory")),
        None => None,
    };
    Content {
        key,
        properties: Properties::none(rt.alloc()),
        payload: Payload::new(payload).expect(rt, "no payload"),
    }
}

/// A producer's message with the key.
pub(super) fn message_at<R: Abort + AllocGlobal>(
    rt: &R,
    position: Position,
    key: Option<&str>,
) -> Message
    ensures { result.position ≡ position }
{
    let producer = ArcStr::from_str(rt.alloc(), "p").expect(rt, "no memory");
    let entry = Entry {
        position,
        producer: ProducerName::new(producer).expect(rt, "no producer's name"),
        sequence: 9,
        time: Moment::new(1_700_000_000_000).expect(rt, "no moment"),
        body: Body::new(rt.alloc(), content(rt, key)).expect(rt, "no memory"),
    };
    Message::new(rt.alloc(), entry).expect(rt, "no memory")
}

pub(super) fn new_log<R: Abort + AllocGlobal>(rt: &R, keys: [Option<&str>; 3]) -> Vec<Message> {
    let [first, second, third] = keys;
    let log = vec![in rt.alloc();
        message_at(rt, position_at(0), first),
        message_at(rt, position_at(1), second),
        message_at(rt, position_at(2), third),
    ];
    log.expect(rt, "no memory")
}

fn check_key<R: Abort>(rt: &R, entry: &Entry) {
    let key = &entry.body.content().key;
    assert!(rt; key.as_ref().map(|key| key.as_str()) == Some("k"));
}

fn check_entry<R: Abort>(rt: &R, entry: &Entry) {
    assert!(rt; entry.producer.as_str() == "p");
    assert!(rt; entry.sequence == 9 && entry.time.millis() == 1_700_000_000_000);
    check_key(rt, entry);
}

#[test]
fn a_message_shows_its_entry(rt: HostRuntime) {
    let position = Position {
        ledger: 3,
        entry: 5,
    };
    let message = message_at(&rt, position, Some("k"));
    let message = message.clone().expect(&rt, "no memory");
    assert!(rt; message.position() == position);
    check_entry(&rt, message.entry());
}
