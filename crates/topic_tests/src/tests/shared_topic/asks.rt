// What the tests ask of a topic, and the events that say it.
use delivery_machine::{Event, Flow, Initial, Kind};
use position_core::{
    Base, Body, Content, LedgerSize, Level, Millis, Moment, Name, Payload, ProducerName,
    Properties, RedeliverLimit, SubscriptionName, TopicName, WindowSize,
};
use std::process::Abort;
use std::sync::ArcStr;
use topic_core::TopicCore;
use value_texts::read_topic_name;

/// What a caller asks for; its name is its producer's and its subscription's.
#[derive(Clone, Copy)]
pub(super) enum Ask {
    Connect,
    Join,
    Publish { producer: u64, sequence: i64 },
    Store,
    Progress,
    Dispatch,
    Collect { consumer: u64 },
    Disconnect { producer: u64 },
    Leave { consumer: u64 },
}

fn topic_name<R: Abort + AllocGlobal>(rt: &R, text: &str) -> TopicName {
    let name = read_topic_name(rt.alloc(), text);
    name.expect(rt, "no memory").expect(rt, "no name")
}

pub(super) fn size<R: Abort>(rt: &R) -> LedgerSize {
    LedgerSize::new(50_000).expect(rt, "no ledger size")
}

pub(super) fn name<R: Abort + AllocGlobal>(rt: &R) -> TopicName {
    topic_name(rt, "persistent://public/default/t")
}

fn subscription<R: Abort + AllocGlobal>(rt: &R, who: &str) -> SubscriptionName {
    let name = Name::from_text(rt.alloc(), who);
    name.expect(rt, "no memory").expect(rt, "no name")
}

fn producer_name<R: Abort + AllocGlobal>(rt: &R, who: &str) -> ProducerName {
    let name = ArcStr::from_str(rt.alloc(), who).expect(rt, "no memory");
    ProducerName::new(name).expect(rt, "no producer's name")
}

fn connecting<R: Abort + AllocGlobal>(rt: &R, who: &str) -> Event {
    let base = Base::new(-1).expect(rt, "no base");
    Event::AddProducer {
        name: Some(producer_name(rt, who)),
        base,
    }
}

fn body<R: Abort + AllocGlobal>(rt: &R, who: &str) -> Body {
    let payload = who.as_bytes().to_vec(rt.alloc()).expect(rt, "no memory");
    let content = Content {
        key: None,
        properties: Properties::none(rt.alloc()),
        payload: Payload::new(payload).expect(rt, "no payload"),
    };
    Body::new(rt.alloc(), content).expect(rt, "no memory")
}

fn publishing<R: Abort + AllocGlobal>(rt: &R, who: &str, producer: u64, sequence: i64) -> Event {
    let now = Moment::new(1000).expect(rt, "no moment");
    Event::Publish {
        producer,
        sequence,
        body: body(rt, who),
        now,
    }
}

fn joining<R: Abort + AllocGlobal>(rt: &R, who: &str) -> Event {
    let level = Level::new(0).expect(rt, "no level");
    let window = WindowSize::new(1000).expect(rt, "no window");
    let ack_timeout = Millis::new(0).expect(rt, "no timeout");
    let nack_delay = Millis::new(60_000).expect(rt, "no delay");
    let max_redeliver = RedeliverLimit::new(0).expect(rt, "no limit");
    Event::Subscribe {
        subscription: subscription(rt, who),
        kind: Kind::Exclusive,
        level,
        flow: Flow::Window(window),
        ack_timeout,
        nack_delay,
        max_redeliver,
        dead_topic: topic_name(rt, "persistent://public/default/t-DLQ"),
        initial: Initial::Earliest,
        ranges: None,
    }
}

fn dispatching<R: Abort + AllocGlobal>(rt: &R, who: &str) -> Event {
    let now = Moment::new(1000).expect(rt, "no moment");
    Event::Dispatch {
        subscription: subscription(rt, who),
        now,
    }
}

pub(super) fn event_of<R: Abort + AllocGlobal>(rt: &R, who: &str, ask: Ask) -> Event {
    match ask {
        Ask::Connect => connecting(rt, who),
        Ask::Join => joining(rt, who),
        Ask::Publish { producer, sequence } => publishing(rt, who, producer, sequence),
        Ask::Store => Event::Stored,
        Ask::Progress => Event::Progress,
        Ask::Dispatch => dispatching(rt, who),
        Ask::Collect { consumer } => Event::Collect { consumer },
        Ask::Disconnect { producer } => Event::DropProducer { producer },
        Ask::Leave { consumer } => Event::Leave { consumer },
    }
}
