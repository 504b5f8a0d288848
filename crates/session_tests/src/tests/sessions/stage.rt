// Plays a session over lists and a plain topic, from a text of lines.
use super::side::{Desk, Side, asked, desk};
use crate::tests::push;
use delivery_machine::{Event, Moment};
use position_core::{Body, Content, Fault, Payload, Properties};
use session_links::Told;
use std::process::Abort;

#[derive(Drop)]
pub(super) struct Stage {
    pub(super) desk: Desk,
    pub(super) side: Side,
    /// How many texts were looked at.
    seen: usize,
}

/// The first word of a line, and the rest.
pub(super) fn words(line: &str) -> (&str, &str) {
    line.split_once(' ').unwrap_or((line, ""))
}

pub(super) fn number<R: Abort>(rt: &R, word: &str) -> u64 {
    let number: Result<u64, _> = word.parse();
    match number {
        Ok(number) => number,
        Err(_) => None.expect(rt, "a number"),
    }
}

fn refusal<R: Abort>(rt: &R, word: &str) -> Option<Fault> {
    match word {
        "F1" => Some(Fault::NoMemory),
        "F3" => Some(Fault::NoSession),
        "F4" => Some(Fault::TopicFull),
        "F8" => Some(Fault::NoSuchMessage),
        "F12" => Some(Fault::SubscriptionBusy),
        "F13" => Some(Fault::TooManyPermits),
        "F15" => Some(Fault::JournalFull),
        "none" => None,
        _ => None.expect(rt, "a refusal"),
    }
}

fn empty_body<R: Abort + AllocGlobal>(rt: &R) -> Body {
    let content = Content {
        key: None,
        properties: Properties::none(rt.alloc()),
        payload: Payload::new(Vec::new(rt.alloc())).expect(rt, "a payload"),
    };
    Body::new(rt.alloc(), content).expect(rt, "no memory")
}

/// The producer `p` publishes under the last number of 64 bits, and goes.
fn last_number<R: Abort + AllocGlobal>(rt: &R, stage: &mut Stage) {
    let now = Moment::new(0).expect(rt, "a moment");
    let publish = Event::Publish {
        producer: 1,
        sequence: i64::MAX,
        body: empty_body(rt),
        now,
    };
    drop(asked(&mut stage.desk, publish));
    drop(asked(&mut stage.desk, Event::DropProducer { producer: 1 }));
}

/// Does what a line says.
pub(super) fn does<R: Abort + AllocGlobal>(rt: &R, stage: &mut Stage, word: &str, rest: &str) {
    match word {
        "open" => {
            stage.seen = 0;
            stage.side.open(rt, &mut stage.desk, rest);
        }
        "text" => stage.side.comes(rt, rest),
        "gone" => stage.side.goes(rt),
        "turn" => stage.side.serve(rt, &mut stage.desk, 1, number(rt, rest)),
        "serve" => stage.side.serve(rt, &mut stage.desk, 64, number(rt, rest)),
        "stored" => drop(asked(&mut stage.desk, Event::Stored)),
        "room" => stage.side.conn.room = number(rt, rest),
        "fail" => stage.side.conn.calls = number(rt, rest),
        "refuse" => stage.desk.refusal = refusal(rt, rest),
        "last" => last_number(rt, stage),
        _ => None.expect(rt, "a line"),
    }
}

/// What was told of the connection.
fn told<'a, R: Abort>(rt: &R, stage: &'a Stage) -> &'a Told {
    stage.side.conn.told().expect(rt, "no memory")
}

/// Writes the texts that were sent since the last look, one a line.
pub(super) fn show<R: Abort>(rt: &R, stage: &mut Stage, out: &mut String) {
    for (i, text) in told(rt, stage).sent.iter().enumerate() {
        if i >= stage.seen {
            push(rt, out, text.as_str());
            push(rt, out, "\n");
        }
    }
    stage.seen = told(rt, stage).sent.len();
}

/// Writes how a connection is closed.
fn show_close<R: Abort + AllocGlobal>(rt: &R, code: u16, reason: &str, out: &mut String) {
    let line = format!(in rt.alloc(); "closed {code} {reason}\n").expect(rt, "no memory");
    push(rt, out, line.as_str());
}

/// Writes how the connection was closed.
pub(super) fn show_closes<R: Abort + AllocGlobal>(rt: &R, stage: &Stage, out: &mut String) {
    for closed in told(rt, stage).closes.iter() {
        show_close(rt, closed.code, closed.reason.as_str(), out);
    }
}

/// Does what the lines say, and writes what is sent, how the connection is closed, and whether the session is open.
fn play<R: Abort + AllocGlobal>(rt: &R, stage: &mut Stage, out: &mut String, script: &str) {
    for line in script.lines() {
        let (word, rest) = words(line);
        does(rt, stage, word, rest);
        show(rt, stage, out);
    }
    show_closes(rt, stage, out);
    if stage.side.session.is_some() {
        push(rt, out, "open\n");
    }
}

impl Stage {
    /// Of a session that has not begun.
    pub(super) fn new<R: AllocGlobal>(rt: &R, desk: Desk) -> Stage {
        Stage {
            desk,
            side: Side::new(rt),
            seen: 0,
        }
    }
}

fn played<R: Abort + AllocGlobal>(rt: &R, script: &str) -> String {
    let mut stage = Stage::new(rt, desk(rt));
    let mut out = String::new(rt.alloc());
    play(rt, &mut stage, &mut out, script);
    drop(stage);
    out
}

/// What is sent first is a front of what is sent in all.
pub(crate) fn check_front<R: Abort + AllocGlobal>(rt: &R, script: &str, whole: &str) {
    let got = played(rt, script);
    assert!(rt; whole.starts_with(got.as_str()), "{got}");
}

/// How many lines are sent and written.
pub(crate) fn count<R: Abort + AllocGlobal>(rt: &R, script: &str) -> usize {
    played(rt, script).as_str().lines().count()
}

pub(super) fn expect<R: Abort>(rt: &R, got: &str, want: &str) {
    assert_eq!(rt; got, want);
}

/// What is sent, how the connection is closed, and whether the session is open at the end.
pub(crate) fn check<R: Abort + AllocGlobal>(rt: &R, script: &str, want: &str) {
    expect(rt, played(rt, script).as_str(), want);
}
