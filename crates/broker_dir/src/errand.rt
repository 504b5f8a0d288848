// What the thread that stores does besides: it goes on errands, and has them between its tasks.
use crate::directory::Directory;
use crate::topic::Shared;
use broker_parts::Tasks;
use delivery_machine::Opened;
use marks::Naming;
use session_bells::Bell;
use sqlite::Alter;
use std::alloc::Global;
use std::rt::Clock;
use std::sync::{Arc, Wait};

/// What the thread that stores has between its tasks: the couriers that are under way. One is made for as long as the
/// directory is used, since the couriers go with it.
#[derive(Drop)]
pub struct Errands<T: Opened + Drop, J: Naming, B: Bell + Drop> {
    pub(crate) tasks: Tasks<Shared<T, J, B>>,
}

impl<T: Opened + Drop, J: Naming, B: Bell + Drop> Errands<T, J, B> {
    /// None are under way.
    pub fn new(alloc: Global) -> Option<Self> {
        match Tasks::new(alloc) {
            Some(tasks) => Some(Errands { tasks }),
            None => None,
        }
    }
}

impl<T: Opened + Drop, S: Alter, J: Naming, B: Bell + Drop> Directory<T, S, J, B> {
    /// Couriers are sent to the subscriptions of the topic in which letters lie, and those are called that wait for more of
    /// it to be stored. Without memory for a courier the thread comes again after a pause.
    pub(crate) fn begin_errand<R: Wait + Clock>(
        &self,
        rt: &R,
        topic: Arc<Shared<T, J, B>>,
        tasks: &mut Tasks<Shared<T, J, B>>,
    ) {
        tasks.read_clocks(rt);
        if topic.signs.is_over() {
            tasks.call(&topic.name);
            self.see_out(rt, topic);
            return;
        }
        let is_sent = send_couriers(rt, self.alloc, &topic, tasks);
        tasks.call(&topic.name);
        if is_sent {
            drop(topic);
        } else {
            self.board.put_off_errand(rt, topic);
        }
    }
}

/// Sends a courier to each subscription that wants one. False for want of memory: the topic counts still as one that
/// the thread was told of.
fn send_couriers<T: Opened + Drop, J: Naming, B: Bell + Drop, R: Wait>(
    rt: &R,
    alloc: Global,
    topic: &Arc<Shared<T, J, B>>,
    tasks: &mut Tasks<Shared<T, J, B>>,
) -> bool {
    let mut guard = topic.inside.lock(rt);
    let inside = &mut *guard;
    inside.wanted.is_awaited = false;
    let are_sent = tasks.send(alloc, topic, &mut inside.hearers.graves);
    if are_sent {
        inside.wanted.is_called = false;
    }
    are_sent
}
