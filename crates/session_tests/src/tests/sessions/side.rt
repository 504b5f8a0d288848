// One session of a plain topic, with its connection.
use crate::tests::this_topic;
use delivery_machine::{Event, Moment, Reply};
use endpoint_core::{Endpoint, Letters, route};
use json::Scratch;
use plain_topic::PlainTopic;
use position_core::LedgerSize;
use session_core::{Session, TextCount, open, serve};
use session_links::{Incoming, ListConn, TopicCaller};
use std::mem;
use std::process::Abort;

pub(crate) type Desk = TopicCaller<PlainTopic>;

/// A caller over a topic with nothing in it.
pub(crate) fn desk<R: Abort + AllocGlobal>(rt: &R) -> Desk {
    let name = this_topic(rt);
    let size = LedgerSize::new(10).expect(rt, "a size");
    TopicCaller::new(rt.alloc(), PlainTopic::new(rt.alloc(), name, size))
}

/// A caller over a topic with two messages, which are stored.
pub(super) fn filled_desk<R: Abort + AllocGlobal>(rt: &R) -> Desk {
    let mut desk = desk(rt);
    let mut side = Side::new(rt);
    side.open(rt, &mut desk, "/ws/v2/producer/persistent/public/default/t");
    side.comes(rt, "{\"payload\":\"MA==\"}");
    side.comes(rt, "{\"payload\":\"MQ==\"}");
    side.serve(rt, &mut desk, 64, 1_000);
    drop(side);
    let stored = asked(&mut desk, Event::Stored);
    assert!(rt; matches!(stored, Reply::Durable(2)), "no memory");
    drop(stored);
    desk
}

/// What the topic answers.
pub(crate) fn asked(desk: &mut Desk, event: Event) -> Reply {
    let reply = desk.topic.apply(&event);
    drop(event);
    reply
}

#[derive(Drop)]
pub(crate) struct Side {
    pub(crate) conn: ListConn,
    pub(crate) session: Option<Session>,
    scratch: Scratch,
}

impl Side {
    pub(crate) fn new<R: AllocGlobal>(rt: &R) -> Side {
        Side {
            conn: ListConn::new(rt.alloc()),
            session: None,
            scratch: Scratch::new(rt.alloc()),
        }
    }

    pub(crate) fn open<R: AllocGlobal>(&mut self, rt: &R, desk: &mut Desk, target: &str) {
        drop(mem::replace(&mut self.conn, ListConn::new(rt.alloc())));
        if let Ok(endpoint) = route(rt.alloc(), target, Letters::Anywhere) {
            self.begin(rt, desk, endpoint);
        }
    }

    fn begin<R: AllocGlobal>(&mut self, rt: &R, desk: &mut Desk, endpoint: Endpoint) {
        if self.conn.is_open() {
            let session = open(rt.alloc(), endpoint, &mut self.conn, desk);
            drop(mem::replace(&mut self.session, session));
        } else {
            drop(endpoint);
        }
    }

    pub(crate) fn serve<R: Abort>(&mut self, rt: &R, desk: &mut Desk, most: u64, now: u64) {
        let now = Moment::new(now).expect(rt, "a moment");
        let most = if most < 64 { most as u32 } else { 64 };
        let most = TextCount::new(most).expect(rt, "a count");
        if self.conn.is_open()
            && let Some(session) = self.session.take()
        {
            let session = serve(session, &mut self.scratch, &mut self.conn, desk, now, most);
            drop(mem::replace(&mut self.session, session));
        }
    }

    pub(crate) fn comes<R: Abort + AllocGlobal>(&mut self, rt: &R, text: &str) {
        let bytes = Vec::from_slice(rt.alloc(), text.as_bytes()).expect(rt, "no memory");
        let pushed: Result<(), _> = self.conn.incoming.push_back(Incoming::Text(bytes));
        assert!(rt; pushed.is_ok(), "no memory");
    }

    pub(crate) fn goes<R: Abort>(&mut self, rt: &R) {
        let pushed: Result<(), _> = self.conn.incoming.push_back(Incoming::Gone);
        assert!(rt; pushed.is_ok(), "no memory");
    }
}
