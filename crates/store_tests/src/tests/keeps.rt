// What the tests see of a keeper, of its topics and of what goes between them. No method says what it does, and each
// type may be any: so a test holds, hands on and drops them without their contracts, and is proved in little time.
use super::answers::Answer;
use delivery_machine::Event;
use position_core::{Fault, TopicName};
use row_store::{TopicCount, Written};
use std::process::Abort;

/// A snapshot that stands in rows, and the topic that goes on from it.
pub(super) type Resumed<K> = (<K as Keeps>::Snapshot, <K as Keeps>::Topic);

/// A keeper of topics.
pub(super) trait Keeps: Drop {
    /// A topic with what of it is stored.
    type Topic: Drop;
    /// What a topic has.
    type Snapshot: Drop;
    /// A snapshot that is to be stored.
    type Part: Drop;
    /// The proof that a snapshot is stored.
    type Kept: Drop;
    /// A database without its keeper.
    type Database: Drop;

    /// A topic with nothing in it.
    fn fresh<R: Abort + AllocGlobal>(rt: &R, name: &str) -> Self::Topic;

    /// What the topic answers to the line.
    fn ask<R: Abort + AllocGlobal>(rt: &R, topic: &mut Self::Topic, line: &str) -> Answer;

    /// What the topic answers to the event.
    fn call<R: Abort>(rt: &R, topic: &mut Self::Topic, event: Event) -> Answer;

    fn snapshot_of<R: Abort>(rt: &R, topic: &Self::Topic) -> Self::Snapshot;

    /// Whether what was stored is what was viewed last, and so is durable.
    fn confirm(topic: &mut Self::Topic, kept: Self::Kept) -> bool;

    fn needs_storing(topic: &Self::Topic) -> bool;

    /// Whether a snapshot of it was confirmed.
    fn is_stored(topic: &Self::Topic) -> bool;

    fn is_same(one: &Self::Snapshot, other: &Self::Snapshot) -> bool;

    /// How many messages the topic had, those that are gone among them.
    fn had(snapshot: &Self::Snapshot) -> u64;

    /// Whether nothing is in it: no message, no subscription, and no rule of its own.
    fn is_bare(snapshot: &Self::Snapshot) -> bool;

    /// The topic as it is, to be stored.
    fn view<R: Abort>(&mut self, rt: &R, topic: &mut Self::Topic) -> Self::Part;

    fn store(&mut self, parts: Vec<Self::Part>) -> Result<Vec<Self::Kept>, Fault>;

    /// Stores the topic as it is: how many of its messages are durable then.
    fn round(&mut self, topic: &mut Self::Topic) -> Result<u64, Fault>;

    /// What stands of the topic.
    fn show<R: Abort + AllocGlobal>(
        &mut self,
        rt: &R,
        name: &str,
    ) -> Result<Option<Self::Snapshot>, Fault>;

    /// Whether what stands of the snapshot's topic is the snapshot.
    fn stands(&mut self, snapshot: &Self::Snapshot) -> bool;

    /// What stands of the topic, which goes on from it.
    fn resume<R: Abort + AllocGlobal>(
        &mut self,
        rt: &R,
        name: &str,
    ) -> Result<Option<Resumed<Self>>, Fault>;

    fn forget<R: Abort + AllocGlobal>(&mut self, rt: &R, name: &str);

    /// Deletes the topic, which may be deleted: what is left of it is stored.
    fn delete<R: Abort + AllocGlobal>(&mut self, rt: &R, topic: &Self::Topic) -> Result<(), Fault>;

    /// The names of all topics that have rows.
    fn topics(&mut self) -> Result<Vec<TopicName>, Fault>;

    /// What is kept of the topic.
    fn count(&mut self, name: &str) -> Result<Option<TopicCount>, Fault>;

    /// What the last store wrote.
    fn written(&self) -> Written;

    fn has_failed(&self) -> bool;

    fn into_database(self) -> Self::Database;

    fn create<R: AllocGlobal>(rt: &R, database: Self::Database) -> Result<Self, Fault>;

    fn adopt<R: AllocGlobal>(rt: &R, database: Self::Database) -> Result<Self, Fault>;

    fn start<R: AllocGlobal>(rt: &R, database: Self::Database) -> Result<Self, Fault>;

    /// Whether the statements were run.
    fn execute(database: &mut Self::Database, sql: &str) -> bool;

    /// From now on each statement may visit so many rows.
    fn limit(database: &mut Self::Database, rows: u64);
}

/// What is done with a keeper whose database has no rows.
pub(super) trait Scene {
    fn play<K: Keeps, R: Abort + AllocGlobal>(&self, rt: &R, keeper: K);
}
