// What is seen of all topics: of those that are in memory as they are, and of the others as they were.
ghost use Rattle.std.specs.Prelude.{◌≡◌, All, IfOk, IfSome, true};
ghost use Rattle.broker_dir.specs.Seeing.{IsLook, IsSeen};

use crate::table::Table;
use crate::topic::Shared;
use broker_parts::{Counts, Stage};
use delivery_machine::{Fault, Opened, Watched};
use marks::Naming;
use session_bells::Bell;
use status_pages::TopicSeen;
use std::alloc::{AllocError, Global};
use std::sync::{Arc, Mutex, Wait};

/// The names of the topics that are in memory, and what is seen of the others: each is among one of them.
fn known<T: Opened + Drop, J: Naming, B: Bell + Drop, R: Wait>(
    rt: &R,
    counts: &Counts,
    table: &Mutex<Table<T, J, B>>,
) -> Result<(Vec<String>, Vec<TopicSeen>), AllocError>
    ensures { IfOk result (λ known. All (λ seen. seen.is_resting ≡ true) known.1.items) }
{
    let table = table.lock(rt);
    let names = table.names(counts.resting.alloc())?;
    let others = counts.resting.others(rt, &names)?;
    Ok((names, others))
}

/// What is seen of all topics, those in memory first, one after another: each of these is a look at one open topic.
pub(crate) fn all_seen<T: Watched + Drop, J: Naming, B: Bell + Drop, R: Wait>(
    rt: &R,
    alloc: Global,
    counts: &Counts,
    table: &Mutex<Table<T, J, B>>,
) -> Result<Vec<TopicSeen>, Fault>
    ensures { IfOk result (λ seen. All (IsSeen T J B T.Topic T.Saved J.Naming) seen.items) }
{
    let Ok((names, mut others)) = known(rt, counts, table) else {
        return Err(Fault::NoMemory);
    };
    let mut topics = match topics_seen(rt, alloc, table, &names) {
        Ok(topics) => topics,
        Err(fault) => {
            drop(others);
            return Err(fault);
        }
    };
    match topics.append(&mut others) {
        Ok(()) => Ok(topics),
        Err(_) => {
            drop(topics);
            Err(Fault::NoMemory)
        }
    }
}

/// What is seen of the topics of the names that are in memory still, one after another. Each is a look at one open topic.
fn topics_seen<T: Watched + Drop, J: Naming, B: Bell + Drop, R: Wait>(
    rt: &R,
    alloc: Global,
    table: &Mutex<Table<T, J, B>>,
    names: &[String],
) -> Result<Vec<TopicSeen>, Fault>
    ensures looks { IfOk result (λ seen. All (IsLook T J B T.Topic T.Saved J.Naming) seen.items) }
{
    let Ok(mut topics) = Vec::with_capacity(alloc, names.len()) else {
        return Err(Fault::NoMemory);
    };
    for name in names {
        match see_one(rt, alloc, table, name.as_str(), &mut topics) {
            Ok(()) => {}
            Err(fault) => {
                drop(topics);
                return Err(fault);
            }
        }
    }
    Ok(topics)
}

/// Adds to what is seen the topic of the name, where it is in memory still.
fn see_one<T: Watched + Drop, J: Naming, B: Bell + Drop, R: Wait>(
    rt: &R,
    alloc: Global,
    table: &Mutex<Table<T, J, B>>,
    name: &str,
    topics: &mut Vec<TopicSeen>,
) -> Result<(), Fault>
    ensures looks { All (IsLook T J B T.Topic T.Saved J.Naming) topics.old.items → All (IsLook T J B T.Topic T.Saved J.Naming) topics.new.items }
{
    match topic_seen(rt, alloc, table, name) {
        Ok(Some(seen)) => match topics.push(seen) {
            Ok(()) => Ok(()),
            Err(_) => Err(Fault::NoMemory),
        },
        Ok(None) => Ok(()),
        Err(fault) => Err(fault),
    }
}

/// The topic of the name, where it is in memory still.
fn topic_there<T: Opened + Drop, J: Naming, B: Bell + Drop, R: Wait>(
    rt: &R,
    table: &Mutex<Table<T, J, B>>,
    name: &str,
) -> Option<Arc<Shared<T, J, B>>> {
    let table = table.lock(rt);
    match table.find(name) {
        Some(topic) => Arc::try_clone(topic).ok(),
        None => None,
    }
}

/// What is seen of the topic of the name; nothing where it has left memory, or is leaving. Only its own lock is held
/// while it is looked at, and it is in use for no longer.
fn topic_seen<T: Watched + Drop, J: Naming, B: Bell + Drop, R: Wait>(
    rt: &R,
    alloc: Global,
    table: &Mutex<Table<T, J, B>>,
    name: &str,
) -> Result<Option<TopicSeen>, Fault>
    ensures look { IfOk result (λ seen. IfSome seen (IsLook T J B T.Topic T.Saved J.Naming)) }
{
    match topic_there(rt, table, name) {
        Some(topic) => {
            let seen = seen_in(rt, alloc, &topic);
            drop(topic);
            seen
        }
        None => Ok(None),
    }
}

/// What is seen of the topic, under one hold of its lock.
fn seen_in<T: Watched + Drop, J: Naming, B: Bell + Drop, R: Wait>(
    rt: &R,
    alloc: Global,
    topic: &Shared<T, J, B>,
) -> Result<Option<TopicSeen>, Fault>
    ensures look { IfOk result (λ seen. IfSome seen (IsLook T J B T.Topic T.Saved J.Naming)) }
{
    let mut inside = topic.inside.lock(rt);
    if inside.stage != Stage::Open {
        return Ok(None);
    }
    match inside.seen(alloc) {
        Ok(seen) => Ok(Some(seen)),
        Err(Fault::JournalFull) => Ok(None),
        Err(fault) => Err(fault),
    }
}
