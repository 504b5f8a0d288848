// A broker over a database in memory, and topics that are asked by lines.
ghost use Rattle.std.specs.Prelude.{◌≡◌};

use super::broker::Broker;
use super::chime::{Chime, bell};
use crate::tests::base::{keeper_over, terms};
use broker_dir::{Directory, Terms};
use broker_parts::Coming;
use delivery_machine::{Event, Fault, Reply, Retention};
use marks::{Naming, Unnamed};
use position_core::TopicName;
use replay_lines::{Line, read_line};
use session_links::Request;
use sqlite::MemStore;
use std::marker::Brand;
use std::process::Abort;
use std::rt::Clock;
use std::sync::{Arc, Wait};
use stored_cell::Note;
use topic_core::TopicCore;
use value_texts::read_topic_name;

/// What is done over a database that has no rows.
pub(super) trait Scene {
    fn play<D: Broker, R: Abort + AllocGlobal + Wait + Clock>(&self, rt: &R, keeper: D::Rows);
}

fn run<J: Naming, X: Scene, R: Abort + AllocGlobal + Wait + Clock>(
    rt: &R,
    history: Unnamed<Note>,
    scene: &X,
)
    requires { history ≡ J.book }
{
    scene.play::<Directory<TopicCore, MemStore, J, Chime>, R>(rt, keeper_over(rt, history));
}

/// Plays the scene over a database that has no rows.
pub(super) fn with_rows<X: Scene, R: Abort + AllocGlobal + Wait + Clock>(rt: &R, scene: &X) {
    run::<Brand, X, R>(rt, Unnamed::new(), scene);
}

pub(super) fn open_with<D: Broker, R: AllocGlobal>(rt: &R, keeper: D::Rows, terms: Terms) -> D {
    D::open_over(rt, keeper, terms, Retention::All)
}

/// A topic that has no rule of its own keeps what this one says.
pub(super) fn open_keeping<D: Broker, R: Abort + AllocGlobal>(
    rt: &R,
    keeper: D::Rows,
    retention: Retention,
) -> D {
    D::open_over(rt, keeper, terms(rt, 8), retention)
}

/// So many may sit at a topic.
pub(super) fn open<D: Broker, R: Abort + AllocGlobal>(rt: &R, keeper: D::Rows, seats: u32) -> D {
    open_with(rt, keeper, terms(rt, seats))
}

pub(super) fn topic_name<R: Abort + AllocGlobal>(rt: &R, text: &str) -> TopicName {
    let name = read_topic_name(rt.alloc(), text);
    name.expect(rt, "no memory").expect(rt, "no name")
}

/// What an attach comes to, which leaves this bell. A topic that is to be opened first counts as one that is not there.
pub(super) fn come<D: Broker, R: Abort + AllocGlobal + Wait>(
    rt: &R,
    topics: &D,
    name: &TopicName,
    create: bool,
    chime: Arc<Chime>,
) -> Result<D::Seat, Fault> {
    match topics.attach(rt, name, create, chime) {
        Ok(Coming::Seated(seat)) => Ok(seat),
        Ok(Coming::Waits(waiter)) => {
            waiter.leave(rt);
            Err(Fault::NoSession)
        }
        Err(fault) => Err(fault),
    }
}

/// A seat at the topic, which is made where it is not known.
pub(super) fn sit<D: Broker, R: Abort + AllocGlobal + Wait>(
    rt: &R,
    topics: &D,
    name: &str,
) -> D::Seat {
    let attached = come(rt, topics, &topic_name(rt, name), true, bell(rt));
    attached.ok().expect(rt, "no seat, or no memory")
}

pub(super) fn event_in<R: AllocGlobal>(rt: &R, name: &TopicName, line: &str) -> Option<Event> {
    match read_line(rt.alloc(), name, line.as_bytes()) {
        Ok(Line::Event(event)) => Some(event),
        _ => None,
    }
}

pub(super) fn answer_to<D: Broker, R: Abort + AllocGlobal + Wait>(
    rt: &R,
    topics: &D,
    seat: &D::Seat,
    line: &str,
) -> Result<Reply, Fault> {
    let event = event_in(rt, topics.topic_of(seat), line);
    let event = event.expect(rt, "no event, or no memory");
    topics.call(rt, seat, Request::Event(event))
}

/// What the topic answers to the line.
pub(super) fn asked<D: Broker, R: Abort + AllocGlobal + Wait>(
    rt: &R,
    topics: &D,
    seat: &D::Seat,
    line: &str,
) -> Reply {
    let answer = answer_to(rt, topics, seat, line);
    answer.ok().expect(rt, "no answer, or no memory")
}

/// Whether nothing is left to do after a hundred tasks.
fn is_settled<D: Broker, R: Wait + Clock>(rt: &R, topics: &D, tasks: &mut D::Tasks) -> bool {
    for _ in 0..100 {
        if !topics.keep_once(rt, tasks) {
            return true;
        }
    }
    false
}

/// All that waits is stored, and all couriers go as far as they can.
pub(super) fn settle<D: Broker, R: Abort + AllocGlobal + Wait + Clock>(rt: &R, topics: &D) {
    let mut tasks = D::tasks(rt);
    let is_settled = is_settled(rt, topics, &mut tasks);
    drop(tasks);
    assert!(rt; is_settled);
}
