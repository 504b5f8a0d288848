// Sessions whose connection fails at one of its calls, at each in turn.
use super::side::{Desk, asked, filled_desk};
use super::stage::{number, words};
use super::watched::Watched;
use crate::tests::{expect_count, push};
use delivery_machine::{Event, Moment};
use endpoint_core::{Endpoint, Letters, route};
use json::Scratch;
use session_core::{Session, TextCount, open, serve};
use session_links::{Incoming, Line, Request};
use std::mem;
use std::process::Abort;

/// A session of a topic, whose connection is watched.
#[derive(Drop)]
struct Scene {
    desk: Desk,
    conn: Watched,
    session: Option<Session>,
    scratch: Scratch,
}

impl Scene {
    fn new<R: Abort + AllocGlobal>(rt: &R, at: u64, fails: bool) -> Scene {
        Scene {
            desk: filled_desk(rt),
            conn: Watched::new(rt.alloc(), at, fails),
            session: None,
            scratch: Scratch::new(rt.alloc()),
        }
    }

    fn open<R: AllocGlobal>(&mut self, rt: &R, target: &str) {
        if let Ok(endpoint) = route(rt.alloc(), target, Letters::Anywhere) {
            self.begin(rt, endpoint);
        }
    }

    fn begin<R: AllocGlobal>(&mut self, rt: &R, endpoint: Endpoint) {
        if self.conn.is_open() {
            let session = open(rt.alloc(), endpoint, &mut self.conn, &mut self.desk);
            drop(mem::replace(&mut self.session, session));
        } else {
            drop(endpoint);
        }
    }

    fn comes<R: Abort + AllocGlobal>(&mut self, rt: &R, text: &str) {
        let bytes = Vec::from_slice(rt.alloc(), text.as_bytes()).expect(rt, "no memory");
        let pushed: Result<(), _> = self.conn.conn.incoming.push_back(Incoming::Text(bytes));
        assert!(rt; pushed.is_ok(), "no memory");
    }

    fn serve<R: Abort>(&mut self, rt: &R, now: u64) {
        let now = Moment::new(now).expect(rt, "a moment");
        let most = TextCount::new(64).expect(rt, "a count");
        if self.conn.is_open()
            && let Some(session) = self.session.take()
        {
            let session = serve(
                session,
                &mut self.scratch,
                &mut self.conn,
                &mut self.desk,
                now,
                most,
            );
            drop(mem::replace(&mut self.session, session));
        }
    }

    fn does<R: Abort + AllocGlobal>(&mut self, rt: &R, word: &str, rest: &str) {
        match word {
            "open" => self.open(rt, rest),
            "text" => self.comes(rt, rest),
            "serve" => self.serve(rt, number(rt, rest)),
            "stored" => drop(asked(&mut self.desk, Event::Stored)),
            _ => None.expect(rt, "a line"),
        }
    }

    fn play<R: Abort + AllocGlobal>(&mut self, rt: &R, script: &str) {
        for line in script.lines() {
            let (word, rest) = words(line);
            self.does(rt, word, rest);
        }
    }
}

fn is_end(line: &Line) -> bool {
    matches!(
        line.request,
        Request::Event(Event::DropProducer { .. } | Event::Leave { .. })
    )
}

/// How many events with which a session ends were asked.
fn ends<R: Abort>(rt: &R, desk: &Desk) -> u64 {
    let lines = desk.lines().expect(rt, "no memory");
    let mut count: u64 = 0;
    for line in lines.items.iter() {
        if is_end(line) {
            count = count.saturating_add(1);
        }
    }
    count
}

/// What was seen of a session.
#[derive(Drop)]
struct Seen {
    /// The texts that were sent, one a line.
    texts: String,
    /// How many of them were sent before the call that was watched.
    sent_before: u64,
    /// How often the connection was called.
    calls: u64,
    ends: u64,
    is_open: bool,
}

/// The texts that were sent, one a line.
fn texts<R: Abort + AllocGlobal>(rt: &R, conn: &Watched) -> String {
    let mut out = String::new(rt.alloc());
    for text in conn.conn.told().expect(rt, "no memory").sent.iter() {
        push(rt, &mut out, text.as_str());
        push(rt, &mut out, "\n");
    }
    out
}

fn played<R: Abort + AllocGlobal>(rt: &R, script: &str, at: u64, fails: bool) -> Seen {
    let mut scene = Scene::new(rt, at, fails);
    scene.play(rt, script);
    let seen = Seen {
        texts: texts(rt, &scene.conn),
        sent_before: scene.conn.sent_before,
        calls: scene.conn.calls,
        ends: ends(rt, &scene.desk),
        is_open: scene.session.is_some(),
    };
    drop(scene);
    seen
}

/// All that was sent before the call is sent where it fails, and no more; the session ends once, and the connection is not
/// called again.
fn check_failure<R: Abort + AllocGlobal>(rt: &R, script: &str, at: u64, ends: u64) {
    let whole = played(rt, script, at, false);
    let part = played(rt, script, at, true);
    assert!(rt;
        whole.texts.as_str().starts_with(part.texts.as_str()),
        "at {at}"
    );
    expect_count(
        rt,
        part.texts.as_str().lines().count() as u64,
        whole.sent_before,
    );
    expect_count(rt, part.calls, at.saturating_add(1));
    expect_count(rt, part.ends, ends);
    assert!(rt; !part.is_open, "at {at}");
    drop(part);
    drop(whole);
}

/// Without a failure the session calls its connection so often, sends so many texts, and is open in the end.
fn check_whole<R: Abort + AllocGlobal>(rt: &R, script: &str, calls: u64, sent: u64) {
    let whole = played(rt, script, calls, true);
    expect_count(rt, whole.calls, calls);
    expect_count(rt, whole.texts.as_str().lines().count() as u64, sent);
    expect_count(rt, whole.ends, 0);
    assert!(rt; whole.is_open);
    drop(whole);
}

fn each_fails<R: Abort + AllocGlobal>(rt: &R, script: &str, calls: u64, ends: u64) {
    for at in 0..calls {
        check_failure(rt, script, at, ends);
    }
}

#[test]
fn a_producers_connection_fails(rt: HostRuntime) {
    let script = "open /ws/v2/producer/persistent/public/default/t
text {\"payload\":\"aGk=\",\"context\":1}
text {\"payload\":\"%%%\",\"context\":2}
text {\"payload\":\"aGk=\",\"context\":3}
serve 1000
stored
serve 1001
text {\"context\":4}
serve 1002";
    check_whole(&rt, script, 11, 4);
    each_fails(&rt, script, 11, 1);
}

#[test]
fn a_consumers_connection_fails(rt: HostRuntime) {
    let script =
        "open /ws/v2/consumer/persistent/public/default/t/s?subscriptionInitialPosition=Earliest
serve 1000
text {\"messageId\":\"CAAQAA==\"}
text {\"type\":\"isEndOfTopic\"}
serve 1001
text {\"type\":\"isEndOfTopic\"}
serve 1002";
    check_whole(&rt, script, 10, 4);
    each_fails(&rt, script, 10, 1);
}

#[test]
fn an_administrators_connection_fails(rt: HostRuntime) {
    let script = "open /ws/v2/admin/persistent/public/default/t
text {\"type\":\"stats\",\"subscription\":\"s\"}
text {\"type\":\"deleteTopic\"}
serve 1000
text {\"type\":\"skip\",\"subscription\":\"s\",\"messages\":1}
serve 1001";
    check_whole(&rt, script, 8, 3);
    each_fails(&rt, script, 8, 0);
}
