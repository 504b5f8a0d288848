// What the tests do with a directory beside what a broker's workers do. Nothing here says what it does either: so a test
// holds, hands on and drops a directory without its contracts, and is proved in little time.
use super::chime::Chime;
use crate::tests::base::read_again;
use broker_dir::{Attached, Directory, Errands, Terms};
use delivery_machine::Retention;
use marks::Naming;
use position_core::TopicName;
use row_store::Keeper;
use sqlite::MemStore;
use std::process::Abort;
use std::rt::Clock;
use std::sync::Wait;
use topic_core::TopicCore;

/// A directory of topics over a database in memory.
pub(super) trait Broker: broker_parts::Broker<Chime> {
    /// What keeps the topics.
    type Rows: Drop;
    /// What the thread that stores has between its tasks.
    type Tasks: Drop;

    fn open_over<R: AllocGlobal>(
        rt: &R,
        keeper: Self::Rows,
        terms: Terms,
        retention: Retention,
    ) -> Self;

    /// The broker stops: what is stored, read again, and how many messages have rows.
    fn stop<R: Abort + AllocGlobal>(self, rt: &R) -> (Self::Rows, u64);

    fn topic_of<'a>(&self, seat: &'a Self::Seat) -> &'a TopicName;

    fn close<R: Wait>(&self, rt: &R);

    fn tasks<R: Abort + AllocGlobal>(rt: &R) -> Self::Tasks;

    /// One task of the thread that stores, or one step of each courier. False where there is neither.
    fn keep_once<R: Wait + Clock>(&self, rt: &R, tasks: &mut Self::Tasks) -> bool;
}

impl<J: Naming> Broker for Directory<TopicCore, MemStore, J, Chime> {
    type Rows = Keeper<MemStore, J>;

    type Tasks = Errands<TopicCore, J, Chime>;

    fn open_over<R: AllocGlobal>(
        rt: &R,
        keeper: Keeper<MemStore, J>,
        terms: Terms,
        retention: Retention,
    ) -> Self {
        Directory::open(rt.alloc(), keeper, terms, retention)
    }

    fn stop<R: Abort + AllocGlobal>(self, rt: &R) -> (Keeper<MemStore, J>, u64) {
        let (mut conn, notes) = self.into_keeper().into_parts();
        let rows = conn.query_all("SELECT idx FROM entry", &[]).ok();
        let rows = rows.expect(rt, "no rows");
        let count = rows.len() as u64;
        drop(rows);
        let keeper = Keeper::adopt(rt.alloc(), read_again(rt, conn), notes);
        (keeper.ok().expect(rt, "no rows"), count)
    }

    fn topic_of<'a>(&self, seat: &'a Attached<TopicCore, J, Chime>) -> &'a TopicName {
        seat.topic()
    }

    fn close<R: Wait>(&self, rt: &R) {
        drop(Directory::close(self, rt));
    }

    fn tasks<R: Abort + AllocGlobal>(rt: &R) -> Errands<TopicCore, J, Chime> {
        Errands::new(rt.alloc()).expect(rt, "no moment")
    }

    fn keep_once<R: Wait + Clock>(&self, rt: &R, tasks: &mut Errands<TopicCore, J, Chime>) -> bool {
        Directory::keep_once(self, rt, tasks)
    }
}
