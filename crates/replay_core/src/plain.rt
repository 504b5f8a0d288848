// The replay of the topic that the programs replay.
ghost use Rattle.std.specs.Prelude.{◌≡◌, IsTrue, IfOk, IfErr};
ghost use Rattle.position_core.specs.Name.{is_name};
ghost use Rattle.delivery_machine.specs.State.{fresh};
ghost use Rattle.replay_core.specs.declared.stop.Stop.TheVariants.{Memory};
ghost use Rattle.topic_restart.specs.Standing.{Standing, opening};
ghost use Rattle.replay_core.specs.Replay.{IsReplay, sides, this_topic};
ghost use Rattle.replay_core.specs.Stops.{EndsWith};

use crate::engine::replay_over;
use crate::stop::{Stop, status};
use delivery_machine::Opened;
use plain_topic::PlainTopic;
use position_core::{LedgerSize, Name, TopicName};
use std::alloc::{AllocError, Global};
use std::io::{Read, Write};
use std::sync::ArcStr;
use topic_restart::Restartable;

fn name_of(alloc: Global, text: &str) -> Result<Name, AllocError>
    requires { IsTrue (is_name text.now) }
    ensures { IfOk result (λ name. name ≡ text.now) }
{
    Ok(Name::new(ArcStr::from_str(alloc, text)?).unwrap())
}

/// The topic that is replayed: `persistent://public/default/t`.
fn this_topic(alloc: Global) -> Result<TopicName, AllocError>
    ensures { IfOk result (λ name. name ≡ this_topic) }
{
    Ok(TopicName {
        tenant: name_of(alloc, "public")?,
        namespace: name_of(alloc, "default")?,
        topic: name_of(alloc, "t")?,
    })
}

/// A topic with nothing in it, of which its snapshot is stored.
fn fresh_topic<T: Opened + Drop>(
    alloc: Global,
    name: TopicName,
    ledger_size: LedgerSize,
) -> Result<Restartable<T>, Stop>
    ensures ok { IfOk result (λ topic. topic ≡ opening (fresh name ledger_size)) }
    ensures err { IfErr result (λ stop. stop ≡ Memory) }
{
    let Ok(topic) = T::fresh(alloc, name, ledger_size) else {
        return Err(Stop::Memory);
    };
    match Restartable::new(topic) {
        Ok(topic) => Ok(topic),
        Err(_) => Err(Stop::Memory),
    }
}

/// A topic of the name with nothing in it.
fn begin<T: Opened + Drop>(
    alloc: Global,
    name: &TopicName,
    ledger_size: LedgerSize,
) -> Result<Restartable<T>, Stop>
    ensures ok { IfOk result (λ topic. topic ≡ opening (fresh name.now ledger_size)) }
    ensures err { IfErr result (λ stop. stop ≡ Memory) }
{
    match name.clone() {
        Ok(copy) => fresh_topic::<T>(alloc, copy, ledger_size),
        Err(_) => Err(Stop::Memory),
    }
}

fn replay_begun<T: Opened + Drop, R: Read, W: Write>(
    alloc: Global,
    name: TopicName,
    topic: Restartable<T>,
    reader: &mut R,
    writer: &mut W,
) -> Result<(), Stop>
    ensures { (last : Standing) × IsReplay name (sides (R.remaining reader.old) (W.contents writer.old) topic) result
        (sides (R.remaining reader.new) (W.contents writer.new) last) }
{
    let mut topic = topic;
    replay_over(alloc, name, &mut topic, reader, writer)
}

/// Replays a fresh topic of the name.
fn replay_named<T: Opened + Drop, R: Read, W: Write>(
    alloc: Global,
    name: TopicName,
    reader: &mut R,
    writer: &mut W,
    ledger_size: LedgerSize,
) -> Result<(), Stop>
    ensures { (last : Standing) × IsReplay name (sides (R.remaining reader.old) (W.contents writer.old) (opening (fresh name ledger_size))) result
        (sides (R.remaining reader.new) (W.contents writer.new) last) }
{
    match begin::<T>(alloc, &name, ledger_size) {
        Ok(topic) => replay_begun(alloc, name, topic, reader, writer),
        Err(stop) => Err(stop),
    }
}

/// Replays a fresh topic, however it is kept: answers each line of the input with a line of the output.
pub fn replay_fresh<T: Opened + Drop, R: Read, W: Write>(
    alloc: Global,
    reader: &mut R,
    writer: &mut W,
    ledger_size: LedgerSize,
) -> Result<(), Stop>
    ensures { (last : Standing) × IsReplay this_topic (sides (R.remaining reader.old) (W.contents writer.old) (opening (fresh this_topic ledger_size))) result
        (sides (R.remaining reader.new) (W.contents writer.new) last) }
{
    match this_topic(alloc) {
        Ok(name) => replay_named::<T, R, W>(alloc, name, reader, writer, ledger_size),
        Err(_) => Err(Stop::Memory),
    }
}

/// Replays a fresh topic, kept as a plain topic.
pub fn replay<R: Read, W: Write>(
    alloc: Global,
    reader: &mut R,
    writer: &mut W,
    ledger_size: LedgerSize,
) -> Result<(), Stop>
    ensures { (last : Standing) × IsReplay this_topic (sides (R.remaining reader.old) (W.contents writer.old) (opening (fresh this_topic ledger_size))) result
        (sides (R.remaining reader.new) (W.contents writer.new) last) }
{
    replay_fresh::<PlainTopic, R, W>(alloc, reader, writer, ledger_size)
}

/// Replays a fresh topic, however it is kept, and answers the status for a program to end with.
pub fn replay_to_status<T: Opened + Drop, R: Read, W: Write>(
    alloc: Global,
    reader: &mut R,
    writer: &mut W,
    ledger_size: LedgerSize,
) -> u8
    ensures { EndsWith (sides (R.remaining reader.old) (W.contents writer.old) (opening (fresh this_topic ledger_size))) result
        (R.remaining reader.new) (W.contents writer.new) }
{
    let outcome = replay_fresh::<T, R, W>(alloc, reader, writer, ledger_size);
    status(&outcome)
}
