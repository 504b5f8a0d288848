// Who comes to a topic, and who goes.
ghost use Rattle.std.specs.Prelude.{◌≡◌, ◌<◌, ◌⊎◌, Err, IfErr, IfOk, false};
ghost use Rattle.position_core.specs.TopicName.{topic_text};
ghost use Rattle.broker_dir.specs.Coming.{HasSeat, IsComing};
ghost use Rattle.broker_dir.specs.Refusing.{IsRefusal};

use crate::attached::Attached;
use crate::directory::Directory;
use crate::opening::found_in;
use crate::topic::Shared;
use broker_parts::{Coming, Wants};
use delivery_machine::{Fault, Opened, TopicName};
use marks::Naming;
use row_forms::topic_text;
use session_bells::Bell;
use sqlite::Alter;
use std::sync::{Arc, Wait};

impl<T: Opened + Drop, S: Alter, J: Naming, B: Bell + Drop> Directory<T, S, J, B> {
    /// Takes a seat at the topic, which is opened where it is not open, and leaves the bell there. Refused in this order:
    /// (F16) where the directory is closed; (F15) where the topic leaves, since its journal is full; (F7) where it is not
    /// open, and 256 are of which each is in use, or 256 are being opened; (F16) where the store fails, or has rows of it that
    /// are none; (F11) where it has no rows and is not to be made; (F21) where no seat is free; and (F1) for want of memory, at
    /// any point. A refusal leaves the open topics as they were. Where 256 are open, the one that nobody has used for the
    /// longest leaves for it. One who comes to a topic of 256 messages or more that is not open waits: the bell rings
    /// once that has ended, and the waiter tells what it came to.
    pub fn attach<R: Wait>(
        &self,
        rt: &R,
        name: &TopicName,
        create: bool,
        bell: Arc<B>,
    ) -> Result<Coming<Attached<T, J, B>, B>, Fault>
        ensures at { IfOk result (IsComing (topic_text name.now)) }
        ensures seat { IfOk result HasSeat }
        ensures unknown { result ≡ Err Fault.NoSuchSubscription → create ≡ false }
        ensures faults { IfErr result (λ fault. (fault ≡ Fault.JournalFull) ⊎ IsRefusal fault) }
    {
        if self.closed.is_shut() {
            drop(bell);
            return Err(Fault::StoreFailed);
        }
        let Ok(text) = topic_text(self.alloc, name) else {
            drop(bell);
            return Err(Fault::NoMemory);
        };
        let mut guard = self.table.lock(rt);
        let table = &mut *guard;
        match found_in(table, text.as_str()) {
            Some(Ok(topic)) => {
                drop(text);
                match sit(rt, topic, bell, self.uses.next()) {
                    Ok(attached) => Ok(Coming::Seated(attached)),
                    Err(fault) => Err(fault),
                }
            }
            Some(Err(fault)) => {
                drop(text);
                drop(bell);
                Err(fault)
            }
            None => self.open_in(rt, table, text, name, create, Some(bell)),
        }
    }
}

/// A topic that somebody has left.
#[derive(Clone, Copy, Debug, PartialEq, Eq)]
pub(crate) enum Left {
    Stays,
    /// It has nothing in it, and nothing is stored of it.
    Blank,
    /// Its journal is full: it is to be seen out.
    Ends,
}

impl<T: Opened + Drop, J: Naming, B: Bell + Drop> Shared<T, J, B> {
    /// Nobody sits at the seat any more; a subscription may go with it, which is to be stored. The number is that of the topic's last
    /// use.
    pub(crate) fn leave<R: Wait>(&self, rt: &R, seat: u64, used: u64) -> (Left, Wants) {
        let mut inside = self.inside.lock(rt);
        inside.exit(rt, seat);
        let has_dropped = inside.drop_over();
        if self.signs.has_to_go() {
            self.signs.set_to_go(inside.hearers.visitors.any_to_go());
        }
        inside.used = used;
        let wants = Wants {
            store: has_dropped && inside.wants_storing(),
            thread: false,
        };
        let stage = inside.stage;
        let left = if inside.wanted.end(stage) {
            Left::Ends
        } else if inside.is_blank() {
            Left::Blank
        } else {
            Left::Stays
        };
        (left, wants)
    }
}

/// Takes a seat at the open topic, which is used now. The table's lock is held, so that the topic does not leave meanwhile.
fn sit<T: Opened + Drop, J: Naming, B: Bell + Drop, R: Wait>(
    rt: &R,
    topic: Arc<Shared<T, J, B>>,
    bell: Arc<B>,
    used: u64,
) -> Result<Attached<T, J, B>, Fault>
    ensures at { IfOk result (λ attached. attached.topic ≡ topic) }
    ensures seat { IfOk result (λ attached. 0 < attached.seat) }
    ensures faults { IfErr result (λ fault. (fault ≡ Fault.JournalFull) ⊎ (fault ≡ Fault.NoRoom) ⊎ (fault ≡ Fault.NoMemory)) }
{
    let mut inside = topic.inside.lock(rt);
    let entered = inside.enter(bell);
    inside.used = used;
    drop(inside);
    match entered {
        Ok(seat) => Ok(Attached { topic, seat }),
        Err(fault) => {
            drop(topic);
            Err(fault)
        }
    }
}
