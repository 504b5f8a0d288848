// The directory, as its broker's workers know it.
ghost use Rattle.std.specs.Prelude.{◌≡◌, All, IfOk};
ghost use Rattle.broker_dir.specs.Seeing.{IsSeen};

use crate::attached::Attached;
use crate::attaching::Left;
use crate::directory::Directory;
use crate::overview::all_seen;
use crate::settling::is_settled;
use crate::unloading::leave_blank;
use crate::why::{Why, why_by};
use broker_parts::{
    Broker, Coming, Copied, Did, Notice, OnDisk, Tasks, Visitor, backups_seen, want_backup,
};
use delivery_machine::{Fault, Moment, Reply, TopicName, Watched};
use marks::Naming;
use row_forms::topic_text;
use row_store::Cause;
use session_bells::{Bell, Rest};
use session_links::Request;
use sqlite::Alter;
use status_pages::{BrokerSeen, ProgramSeen};
use std::rt::{Clock, Files};
use std::sync::{Arc, Wait};

/// How many stores a worker makes in one turn where the thread that stores is not there.
const MOST_IN_TURN: u32 = 8;

impl<T: Watched + Drop, S: Alter + Drop, J: Naming, B: Bell + Drop> Broker<B>
    for Directory<T, S, J, B> {
    ghost use Rattle.broker_dir.specs.Answering.{AnswersAt};

    ghost answers = { AnswersAt T J B T.Topic T.Saved J.Naming };

    type Seat = Attached<T, J, B>;

    type Cause = Why;

    fn attach<R: Wait>(
        &self,
        rt: &R,
        name: &TopicName,
        create: bool,
        bell: Arc<B>,
    ) -> Result<Coming<Attached<T, J, B>, B>, Fault> {
        Directory::attach(self, rt, name, create, bell)
    }

    /// A subscription goes with its last consumer where none of them was durable. A topic with nothing in it, of which nothing is
    /// stored, leaves with the last one who sat there: so a name is made by what is done there, and by no attach. One whose journal is full is seen out once nobody sits there.
    fn detach<R: Wait>(&self, rt: &R, seat: Attached<T, J, B>) {
        let number = seat.seat;
        let topic = seat.into_topic();
        let (left, wants) = topic.leave(rt, number, self.uses.next());
        self.board.grant(rt, &topic, wants);
        match left {
            Left::Ends => self.board.send(rt, topic),
            Left::Blank => leave_blank(rt, &self.table, &self.counts, topic),
            Left::Stays => drop(topic),
        }
    }

    fn introduce<R: Wait>(&self, rt: &R, seat: &Attached<T, J, B>, visitor: Visitor) {
        seat.introduce(rt, visitor);
    }

    /// Each call is one hold of the topic's lock, and of no other; what an administrator changes is stored after it. Refused (F16)
    /// where the store failed.
    fn call<R: Wait>(
        &self,
        rt: &R,
        seat: &Attached<T, J, B>,
        request: Request,
    ) -> Result<Reply, Fault> {
        if self.closed.is_shut() {
            drop(request);
            return Err(Fault::StoreFailed);
        }
        match request {
            Request::Event(event) => {
                let settles = is_settled(&event);
                let answer = seat.ask(rt, &self.board, self.most_now(), event);
                self.settled(rt, seat, settles, answer)
            }
            Request::CreateSubscription {
                subscription,
                target,
            } => {
                let answer = seat.create(rt, &self.board, subscription, target);
                self.settled(rt, seat, true, answer)
            }
            Request::Peek {
                subscription,
                count,
            } => seat.peek(rt, self.alloc, subscription, count),
            Request::Disconnect { session } => Ok(seat.disconnect(rt, session)),
            Request::BackUp => Ok(want_backup(&self.backups, seat.is_near(rt))),
            Request::DeleteTopic => self.delete(rt, &seat.topic),
        }
    }

    /// The topic's journal is full (F15), or the topic was deleted (F11); or an administrator ended its session (F3).
    fn refusal<R: Wait>(&self, rt: &R, seat: &Attached<T, J, B>) -> Option<Fault> {
        seat.topic.refusal(rt, seat.seat)
    }

    fn rest<R: Wait>(&self, rt: &R, seat: &Attached<T, J, B>, rest: Rest) -> bool {
        !self.closed.is_shut() && seat.rest(rt, rest)
    }

    /// Topics are in the order in which they were opened; none is loaded by it. Each is looked at by itself, with the others
    /// free. Only want of memory is a refusal (F1).
    fn seen<R: Wait>(&self, rt: &R, program: ProgramSeen) -> Result<BrokerSeen, Fault>
        ensures looks { IfOk result (λ seen. All (IsSeen T J B T.Topic T.Saved J.Naming) seen.topics.items) }
        ensures program { IfOk result (λ seen. seen.program ≡ program) }
    {
        let topics = match all_seen(rt, self.alloc, &self.counts, &self.table) {
            Ok(topics) => topics,
            Err(fault) => return Err(fault),
        };
        let stores = self.counts.stores(rt);
        Ok(BrokerSeen {
            program,
            is_closed: self.closed.is_shut(),
            stores: stores.times,
            rows: stores.rows,
            loads: self.counts.loads(),
            unloads: self.counts.unloads(),
            backups: backups_seen(&self.backups),
            topics,
        })
    }

    fn on_disk<R: Wait>(&self, rt: &R) -> OnDisk {
        self.disk(rt)
    }

    fn count_resting<R: Wait>(&self, rt: &R) {
        self.count_all(rt);
    }

    fn notice<R: Wait>(&self, rt: &R) -> Option<Notice> {
        self.counts.notice(rt)
    }

    /// A file that was lost is the cause, where one was, and else what the keeper refused for.
    fn cause<R: Wait>(&self, rt: &R) -> Option<Why> {
        if let Some(lost) = self.lost(rt) {
            return Some(Why::Files(lost));
        }
        let keeper = self.keeper.lock(rt);
        why_by(keeper.refusal())
    }

    fn why_unopened<R: Wait>(&self, rt: &R, name: &TopicName) -> Option<Why> {
        let Ok(text) = topic_text(self.alloc, name) else {
            return None;
        };
        let keeper = self.keeper.lock(rt);
        match keeper.refusal() {
            Some(Cause::BadRows) if keeper.spoilt() != Some(text.as_str()) => None,
            cause => why_by(cause),
        }
    }

    fn is_closed(&self) -> bool {
        self.closed.is_shut()
    }

    /// It stores where nobody else has lately either. Else the thread does.
    fn help<R: Wait + Clock>(&self, rt: &R, made: u64) {
        let mut made = made;
        for _ in 0..MOST_IN_TURN {
            let Some(topics) = self.board.lead(rt, made) else {
                return;
            };
            self.store(rt, topics.as_slice());
            if !self.board.end(rt) {
                return;
            }
            made = 0;
        }
    }

    /// It sends the courier of dead letters too.
    fn keep<R: Wait + Clock>(&self, rt: &R) {
        let Some(mut tasks) = Tasks::new(self.alloc) else {
            return;
        };
        tasks.read_clocks(rt);
        for _ in rt.forever() {
            let task = self.board.next(rt, tasks.turn());
            let goes_on = self.begin_task(rt, task, &mut tasks);
            if tasks.did == Did::Other {
                tasks.walk(rt, self);
            }
            if !goes_on {
                return;
            }
        }
    }

    fn look_around<R: Wait + Clock + Files>(&self, rt: &R) {
        let _ = self.rules(rt);
        self.look_at_files(rt);
    }

    /// It is made under the database's name and the moment in milliseconds since 1970.
    fn back_up<R: Wait + Files>(&self, rt: &R, now: Moment) -> Option<Copied> {
        match &self.backups {
            Some(backups) => backups.back_up(rt, self.alloc, &self.keeper, now),
            None => None,
        }
    }

    fn finish<R: Wait>(&self, rt: &R) {
        self.board.finish(rt);
    }
}
