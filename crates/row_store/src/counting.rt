// What stands of each topic, counted without its messages being read: it is shown of topics that are not in memory. That the numbers
// are right is tested.
ghost use Rattle.std.specs.Prelude.{◌≡◌, ◌⊎◌, false, IsTrue, OnOk};
ghost use Rattle.position_core.specs.declared.fault.Fault.TheVariants.{NoMemory, StoreFailed};
ghost use Rattle.sqlite.specs.State.{HasCleanDisk, KeepsCommit, Survives};
ghost use Rattle.sqlite.specs.Held.{state};
ghost use Rattle.row_store.specs.Looking.{OnlyLooks};

use crate::cause::Cause;
use crate::keeper::Keeper;
use crate::reading::Stop;
use delivery_machine::{Fault, KeptAge, KeptMessages, Retention, TopicName};
use marks::Naming;
use position_core::Kind;
use row_rounds::read_sides;
use row_tables::SideRows;
use sqlite::types::ValueRef;
use sqlite::{Alter, Connection, Error, Row, Transaction, params};
use std::alloc::{AllocError, Global};
use value_texts::read_topic_name;

/// What is kept of a subscription.
#[derive(Drop)]
pub struct SubscriptionCount {
    pub name: String,
    pub kind: Kind,
    /// How many messages of the log it has acknowledged.
    pub acknowledged: u64,
    /// How many dead letters lie in it.
    pub dead: u64,
    /// When the first message was published that it has not acknowledged, in milliseconds since 1970.
    pub oldest: Option<u64>,
}

/// What is kept of a topic.
#[derive(Drop)]
pub struct TopicCount {
    /// How many messages are gone before the log.
    pub gone: u64,
    /// How many the log has.
    pub kept: u64,
    /// When the first of these was published.
    pub oldest: Option<u64>,
    /// The topic's own rule, where it has one.
    pub retention: Option<Retention>,
    pub subscriptions: Vec<SubscriptionCount>,
}

fn number_at(row: &Row, column: usize) -> u64 {
    match row.get_ref(column) {
        Ok(ValueRef::Int(number)) => u64::try_from(number).unwrap_or(0),
        _ => 0,
    }
}

fn text_at(row: &Row, column: usize) -> &str {
    match row.get_ref(column) {
        Ok(ValueRef::Text(bytes)) => std::str::from_utf8(bytes).unwrap_or(""),
        _ => "",
    }
}

fn kind_at(row: &Row, column: usize) -> Kind {
    match number_at(row, column) {
        0 => Kind::Exclusive,
        1 => Kind::Failover,
        2 => Kind::Shared,
        _ => Kind::KeyShared,
    }
}

/// How many messages the runs of acknowledged ones have together.
fn acknowledged_in(acks: &[Row], name: &str) -> u64 {
    let mut count: u64 = 0;
    for ack in acks {
        if text_at(ack, 0) == name {
            let run = number_at(ack, 2).saturating_sub(number_at(ack, 1));
            count = count.saturating_add(run.saturating_add(1));
        }
    }
    count
}

/// The place of the first message that is not acknowledged, where the log begins at this one: runs stand in their order.
fn first_missing(acks: &[Row], name: &str, from: u64) -> u64 {
    for ack in acks {
        if text_at(ack, 0) == name {
            return if number_at(ack, 1) <= from {
                number_at(ack, 2).saturating_add(1)
            } else {
                from
            };
        }
    }
    from
}

fn dead_in(deads: &[Row], name: &str) -> u64 {
    let mut count: u64 = 0;
    for dead in deads {
        if text_at(dead, 0) == name {
            count = count.saturating_add(1);
        }
    }
    count
}

/// The number in the only column of the first row.
fn first_number(rows: &[Row]) -> Option<u64> {
    match rows {
        [row, ..] => Some(number_at(row, 0)),
        [] => None,
    }
}

/// The rows that answer. No row changes.
fn asked<S: Alter>(
    tx: &mut Transaction<'_, S>,
    question: &str,
    params: &[ValueRef<'_>],
) -> Result<Vec<Row>, Error>
    ensures same_reference { tx.new.conn.ghost_name ≡ tx.old.conn.ghost_name }
    ensures survives { Survives (state S.Store tx.old.conn.now) (state S.Store tx.new.conn.now) (λ _. ⊥) }
    ensures kept { HasCleanDisk (state S.Store tx.new.conn.now) → IsTrue (state S.Store tx.old.conn.now).in_transaction → KeepsCommit (state S.Store tx.old.conn.now) (state S.Store tx.new.conn.now) }
    ensures running { HasCleanDisk (state S.Store tx.new.conn.now) → OnOk result (IsTrue (state S.Store tx.old.conn.now).in_transaction → IsTrue (state S.Store tx.new.conn.now).in_transaction) }
{
    tx.query_all(question, params)
}

/// The place of the last message.
fn last_place<S: Alter>(tx: &mut Transaction<'_, S>, topic: &str) -> Result<Option<u64>, Error>
    ensures same_reference { tx.new.conn.ghost_name ≡ tx.old.conn.ghost_name }
    ensures survives { Survives (state S.Store tx.old.conn.now) (state S.Store tx.new.conn.now) (λ _. ⊥) }
    ensures kept { HasCleanDisk (state S.Store tx.new.conn.now) → IsTrue (state S.Store tx.old.conn.now).in_transaction → KeepsCommit (state S.Store tx.old.conn.now) (state S.Store tx.new.conn.now) }
    ensures running { HasCleanDisk (state S.Store tx.new.conn.now) → OnOk result (IsTrue (state S.Store tx.old.conn.now).in_transaction → IsTrue (state S.Store tx.new.conn.now).in_transaction) }
{
    let rows = asked(
        tx,
        "SELECT idx FROM entry WHERE topic = ?1 ORDER BY idx DESC LIMIT 1",
        params![topic],
    )?;
    Ok(first_number(&rows))
}

/// When the message at the place was published.
fn time_at<S: Alter>(
    tx: &mut Transaction<'_, S>,
    topic: &str,
    place: u64,
) -> Result<Option<u64>, Error>
    ensures same_reference { tx.new.conn.ghost_name ≡ tx.old.conn.ghost_name }
    ensures survives { Survives (state S.Store tx.old.conn.now) (state S.Store tx.new.conn.now) (λ _. ⊥) }
    ensures kept { HasCleanDisk (state S.Store tx.new.conn.now) → IsTrue (state S.Store tx.old.conn.now).in_transaction → KeepsCommit (state S.Store tx.old.conn.now) (state S.Store tx.new.conn.now) }
    ensures running { HasCleanDisk (state S.Store tx.new.conn.now) → OnOk result (IsTrue (state S.Store tx.old.conn.now).in_transaction → IsTrue (state S.Store tx.new.conn.now).in_transaction) }
{
    let place = i64::try_from(place).unwrap_or(i64::MAX);
    let rows = asked(
        tx,
        "SELECT time FROM entry WHERE topic = ?1 AND idx = ?2",
        params![topic, place],
    )?;
    Ok(first_number(&rows))
}

/// The subscription of the row, which says its name and its kind, where the log begins at the place.
fn subscription_of<S: Alter>(
    alloc: Global,
    tx: &mut Transaction<'_, S>,
    topic: &str,
    sides: &SideRows,
    row: &Row,
    from: u64,
) -> Result<SubscriptionCount, Stop>
    ensures same_reference { tx.new.conn.ghost_name ≡ tx.old.conn.ghost_name }
    ensures survives { Survives (state S.Store tx.old.conn.now) (state S.Store tx.new.conn.now) (λ _. ⊥) }
    ensures kept { HasCleanDisk (state S.Store tx.new.conn.now) → IsTrue (state S.Store tx.old.conn.now).in_transaction → KeepsCommit (state S.Store tx.old.conn.now) (state S.Store tx.new.conn.now) }
    ensures running { HasCleanDisk (state S.Store tx.new.conn.now) → OnOk result (IsTrue (state S.Store tx.old.conn.now).in_transaction → IsTrue (state S.Store tx.new.conn.now).in_transaction) }
{
    let name = text_at(row, 0);
    let oldest = time_at(tx, topic, first_missing(&sides.acks, name, from))?;
    Ok(SubscriptionCount {
        name: String::from_str(alloc, name)?,
        kind: kind_at(row, 1),
        acknowledged: acknowledged_in(&sides.acks, name),
        dead: dead_in(&sides.deads, name),
        oldest,
    })
}

/// All subscriptions of the topic.
fn subscriptions_of<S: Alter>(
    alloc: Global,
    tx: &mut Transaction<'_, S>,
    topic: &str,
    sides: &SideRows,
    from: u64,
) -> Result<Vec<SubscriptionCount>, Stop>
    ensures same_reference { tx.new.conn.ghost_name ≡ tx.old.conn.ghost_name }
    ensures survives { Survives (state S.Store tx.old.conn.now) (state S.Store tx.new.conn.now) (λ _. ⊥) }
    ensures kept { HasCleanDisk (state S.Store tx.new.conn.now) → IsTrue (state S.Store tx.old.conn.now).in_transaction → KeepsCommit (state S.Store tx.old.conn.now) (state S.Store tx.new.conn.now) }
{
    let mut found = Vec::with_capacity(alloc, sides.subs.len())?;
    for row in sides.subs.iter() {
        let one = subscription_of(alloc, tx, topic, sides, row, from)?;
        let Ok(()) = found.push(one) else {
            return Err(Stop::NoMemory);
        };
    }
    Ok(found)
}

/// The rule of a kind and an amount.
fn rule_of(kind: u64, amount: u64) -> Option<Retention> {
    match kind {
        1 => Some(Retention::All),
        2 => Some(Retention::Messages(KeptMessages::new(u32::try_from(amount).ok()?)?)),
        3 => Some(Retention::Age(KeptAge::new(amount)?)),
        _ => None,
    }
}

/// The topic's own rule, which the row of what is gone says.
fn rule_in(retentions: &[Row]) -> Option<Retention> {
    match retentions {
        [row, ..] => rule_of(number_at(row, 1), number_at(row, 2)),
        [] => None,
    }
}

fn count_in<S: Alter>(
    alloc: Global,
    tx: &mut Transaction<'_, S>,
    topic: &str,
) -> Result<Option<TopicCount>, Stop>
    ensures same_reference { tx.new.conn.ghost_name ≡ tx.old.conn.ghost_name }
    ensures survives { Survives (state S.Store tx.old.conn.now) (state S.Store tx.new.conn.now) (λ _. ⊥) }
    ensures kept { HasCleanDisk (state S.Store tx.new.conn.now) → IsTrue (state S.Store tx.old.conn.now).in_transaction → KeepsCommit (state S.Store tx.old.conn.now) (state S.Store tx.new.conn.now) }
{
    let sides = read_sides(tx, topic)?;
    let gone = first_number(&sides.retentions).unwrap_or(0);
    let last = last_place(tx, topic)?;
    let retention = rule_in(&sides.retentions);
    if last.is_none() && sides.subs.is_empty() && retention.is_none() {
        return Ok(None);
    }
    let kept = match last {
        Some(last) => last.saturating_add(1).saturating_sub(gone),
        None => 0,
    };
    Ok(Some(TopicCount {
        gone,
        kept,
        oldest: time_at(tx, topic, gone)?,
        retention,
        subscriptions: subscriptions_of(alloc, tx, topic, &sides, gone)?,
    }))
}

/// What is kept of the topic; none where nothing is in it. No row changes.
fn count<S: Alter>(
    alloc: Global,
    conn: &mut Connection<S>,
    topic: &str,
) -> Result<Option<TopicCount>, Stop>
    requires autocommit { conn.old.in_transaction ≡ false }
    ensures autocommit { conn.new.in_transaction ≡ false }
    ensures crash { Survives (state S.Store conn.old) (state S.Store conn.new) (λ _. ⊥) }
    ensures kept { HasCleanDisk (state S.Store conn.new) → IsTrue (state S.Store conn.new).is_open → (state S.Store conn.new).now ≡ (state S.Store conn.old).now }
    ensures was_open { HasCleanDisk (state S.Store conn.new) → IsTrue (state S.Store conn.new).is_open → IsTrue (state S.Store conn.old).is_open }
{
    prove!(conn.is_autocommit());
    let mut tx = conn.transaction();
    let found = count_in(alloc, &mut tx, topic)?;
    tx.rollback();
    Ok(found)
}

fn names_of(alloc: Global, rows: &[Row]) -> Result<Vec<TopicName>, AllocError> {
    let mut names = Vec::with_capacity(alloc, rows.len())?;
    for row in rows {
        if let Some(name) = read_topic_name(alloc, text_at(row, 0))? {
            names.push(name)?;
        }
    }
    Ok(names)
}

fn names_in<S: Alter>(alloc: Global, tx: &mut Transaction<'_, S>) -> Result<Vec<TopicName>, Stop>
    ensures same_reference { tx.new.conn.ghost_name ≡ tx.old.conn.ghost_name }
    ensures survives { Survives (state S.Store tx.old.conn.now) (state S.Store tx.new.conn.now) (λ _. ⊥) }
    ensures kept { HasCleanDisk (state S.Store tx.new.conn.now) → IsTrue (state S.Store tx.old.conn.now).in_transaction → KeepsCommit (state S.Store tx.old.conn.now) (state S.Store tx.new.conn.now) }
{
    let rows = asked(tx, "SELECT name FROM topic ORDER BY name", params![])?;
    Ok(names_of(alloc, &rows)?)
}

/// The names of all topics that have rows. No row changes.
fn names<S: Alter>(alloc: Global, conn: &mut Connection<S>) -> Result<Vec<TopicName>, Stop>
    requires autocommit { conn.old.in_transaction ≡ false }
    ensures autocommit { conn.new.in_transaction ≡ false }
    ensures crash { Survives (state S.Store conn.old) (state S.Store conn.new) (λ _. ⊥) }
    ensures kept { HasCleanDisk (state S.Store conn.new) → IsTrue (state S.Store conn.new).is_open → (state S.Store conn.new).now ≡ (state S.Store conn.old).now }
    ensures was_open { HasCleanDisk (state S.Store conn.new) → IsTrue (state S.Store conn.new).is_open → IsTrue (state S.Store conn.old).is_open }
{
    prove!(conn.is_autocommit());
    let mut tx = conn.transaction();
    let found = names_in(alloc, &mut tx)?;
    tx.rollback();
    Ok(found)
}

impl<S: Alter, J: Naming> Keeper<S, J> {
    /// The names of all topics that have rows, those of deleted ones among them. Refused (F1) for want of memory, and (F16) where the
    /// store answers an error, now or before. No row changes.
    pub fn topics(&mut self) -> Result<Vec<TopicName>, Fault>
        ensures looks { OnlyLooks S.Store self.old self.new result }
    {
        if self.failed {
            return Err(Fault::StoreFailed);
        }
        match names(self.alloc, &mut self.conn) {
            Ok(names) => Ok(names),
            Err(stop) => Err(self.stopped(stop)),
        }
    }

    /// What is kept of the topic; none where nothing is in it. It takes some steps into each index, whatever the log holds. Refused as
    /// above. No row changes.
    pub fn count(&mut self, topic: &str) -> Result<Option<TopicCount>, Fault>
        ensures looks { OnlyLooks S.Store self.old self.new result }
    {
        if self.failed {
            return Err(Fault::StoreFailed);
        }
        match count(self.alloc, &mut self.conn, topic) {
            Ok(found) => Ok(found),
            Err(stop) => Err(self.stopped(stop)),
        }
    }

    /// The refusal that this is.
    fn stopped(&mut self, stop: Stop) -> Fault
        ensures same { self.new ≡ self.old }
        ensures faults { (result ≡ NoMemory) ⊎ (result ≡ StoreFailed) }
    {
        match stop {
            Stop::NoMemory => Fault::NoMemory,
            Stop::Store(error) => {
                self.refusal = Some(Cause::of(error, self.refusal));
                Fault::StoreFailed
            }
        }
    }
}
