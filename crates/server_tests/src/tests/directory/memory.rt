// Nobody sleeps for want of memory. Run with each allocation refused in turn (bench/memory), this shows that a message is
// stored and a letter is moved although nobody asks for anything meanwhile; only what comes before and after ends the run.
use super::broker::Broker;
use super::chime::{Chime, bell};
use super::letters::{BEFORE, DEATH, GRAVE, T};
use super::world::{Scene, asked, come, event_in, open, sit, topic_name, with_rows};
use delivery_machine::{Fault, Reply};
use session_bells::Rest;
use session_links::Request;
use std::process::Abort;
use std::rt::Clock;
use std::sync::{Arc, Wait};
use std::test::*;
use std::thread;
use std::time::Duration;

/// What the topic answers. A refusal for want of memory ends the run.
fn must<D: Broker, R: Abort + AllocGlobal + Wait>(
    rt: &R,
    topics: &D,
    seat: &D::Seat,
    line: &str,
) -> Reply {
    let reply = asked(rt, topics, seat, line);
    assert!(rt;
        !matches!(reply, Reply::Refused(Fault::NoMemory)),
        "no memory"
    );
    assert!(rt; !matches!(reply, Reply::Refused(_)), "{}", line);
    reply
}

fn must_all<D: Broker, R: Abort + AllocGlobal + Wait>(
    rt: &R,
    topics: &D,
    seat: &D::Seat,
    lines: &[&str],
) {
    for line in lines {
        drop(must(rt, topics, seat, line));
    }
}

/// A seat, and its bell.
fn sit_with<D: Broker, R: Abort + AllocGlobal + Wait>(
    rt: &R,
    topics: &D,
    chime: &Arc<Chime>,
) -> D::Seat {
    let chime = Arc::try_clone(chime).expect(rt, "no memory");
    let attached = come(rt, topics, &topic_name(rt, T), true, chime);
    attached.ok().expect(rt, "no memory for a seat")
}

/// The thread's tasks until it has none now.
fn do_all<D: Broker, R: Wait + Clock>(rt: &R, topics: &D, errands: &mut D::Tasks) {
    for _ in 0..100 {
        if !topics.keep_once(rt, errands) {
            return;
        }
    }
}

/// Whether the bell rings within a second, in which nobody asks for anything.
fn rings<D: Broker, R: Wait + Clock>(
    rt: &R,
    topics: &D,
    errands: &mut D::Tasks,
    chime: &Chime,
) -> bool {
    for _ in 0..50 {
        do_all(rt, topics, errands);
        if chime.is_rung() {
            return true;
        }
        thread::sleep(rt, Duration::from_millis(20));
    }
    false
}

/// Whether no letter is left. A look may be what memory is refused for; another comes.
fn has_moved<D: Broker, R: AllocGlobal + Wait>(rt: &R, topics: &D, seat: &D::Seat) -> bool {
    let Some(event) = event_in(rt, topics.topic_of(seat), "stats s") else {
        return false;
    };
    matches!(
        topics.call(rt, seat, Request::Event(event)),
        Ok(Reply::Stats { dead: 0, .. })
    )
}

/// Whether the letter is moved, or the store has failed, within a second, in which nobody asks for anything that changes a
/// topic.
fn moves<D: Broker, R: AllocGlobal + Wait + Clock>(
    rt: &R,
    topics: &D,
    errands: &mut D::Tasks,
    seat: &D::Seat,
) -> bool {
    for _ in 0..50 {
        do_all(rt, topics, errands);
        if topics.is_closed() || has_moved(rt, topics, seat) {
            return true;
        }
        thread::sleep(rt, Duration::from_millis(20));
    }
    false
}

/// A store that was refused memory in the midst of a statement has failed, of which all are told (F16): that ends the run.
fn check_open<D: Broker, R: Abort>(rt: &R, topics: &D) {
    assert!(rt; !topics.is_closed(), "no memory for the store");
}

/// The message is stored, and its publisher is rung.
fn check_stored<D: Broker, R: Abort + Wait + Clock>(
    rt: &R,
    topics: &D,
    errands: &mut D::Tasks,
    chime: &Chime,
) {
    let is_rung = rings(rt, topics, errands, chime);
    check_open(rt, topics);
    assert!(rt; is_rung, "the message is not stored");
}

/// The letter is moved.
fn check_moved<D: Broker, R: Abort + AllocGlobal + Wait + Clock>(
    rt: &R,
    topics: &D,
    errands: &mut D::Tasks,
    seat: &D::Seat,
) {
    let is_moved = moves(rt, topics, errands, seat);
    check_open(rt, topics);
    assert!(rt; is_moved, "the letter lies");
}

/// The dead-letter topic has the letter, once.
fn check_letter<D: Broker, R: Abort + AllocGlobal + Wait>(rt: &R, topics: &D) {
    let seat = sit(rt, topics, GRAVE);
    let lines = [
        "subscribe g Shared 0 push:10 0 0 0 - Earliest",
        "dispatch g 2000",
        "dispatch g 2000",
    ];
    must_all(rt, topics, &seat, &lines);
    let reply = must(rt, topics, &seat, "collect 1");
    assert!(rt; matches!(&reply, Reply::Copies(copies) if copies.as_slice().len() == 1));
    drop(reply);
    topics.detach(rt, seat);
}

#[derive(Drop)]
struct Wanting;

impl Scene for Wanting {
    fn play<D: Broker, R: Abort + AllocGlobal + Wait + Clock>(&self, rt: &R, keeper: D::Rows) {
        let topics: D = open(rt, keeper, 8);
        let chime = bell(rt);
        let seat = sit_with(rt, &topics, &chime);
        must_all(rt, &topics, &seat, &BEFORE);
        let rest = Rest {
            durable: Some(1),
            messages: false,
        };
        assert!(rt; topics.rest(rt, &seat, rest));
        let mut errands = D::tasks(rt);
        check_stored(rt, &topics, &mut errands, &chime);
        must_all(rt, &topics, &seat, &DEATH);
        check_moved(rt, &topics, &mut errands, &seat);
        check_letter(rt, &topics);
        topics.detach(rt, seat);
        drop(errands);
        drop(topics);
    }
}

#[test]
fn nobody_sleeps_for_want_of_memory(rt: HostRuntime) {
    with_rows(&rt, &Wanting);
}
