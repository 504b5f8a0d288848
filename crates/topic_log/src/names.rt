// The names that the topic makes for producers without one: `auto-0` and on.
ghost use Rattle.std.specs.Prelude.{◌≡◌, ◌≤◌, ◌<◌, ℕ, false, true, not, IfOk};
ghost use Rattle.std.specs.List.{filter, find};
ghost use Rattle.delivery_machine.specs.Producing.{auto_name};
ghost use Rattle.topic_log.specs.Names.{AreGaps, is_numbered, is_taken};

use crate::producer::{Producer, is_connected};
use dedup_core::Sequences;
use position_core::ProducerName;
use std::alloc::{AllocError, Global};
use std::sync::ArcStr;

/// The name that the topic makes of the number.
pub(crate) fn auto_name(alloc: Global, number: u64) -> Result<ProducerName, AllocError>
    ensures { IfOk result (λ name. name ≡ auto_name number) }
{
    let text = ArcStr::from_string(format!(in alloc; "auto-{number}")?)?;
    match ProducerName::new(text) {
        Some(name) => Ok(name),
        None => unreachable!(),
    }
}

fn is_numbered(alloc: Global, sequences: &Sequences, number: u64) -> Result<bool, AllocError>
    ensures { IfOk result (λ is. is ≡ is_numbered sequences.now number) }
{
    let name = auto_name(alloc, number)?;
    Ok(sequences.has(&name))
}

fn is_taken(
    alloc: Global,
    sequences: &Sequences,
    producers: &[Producer],
    number: u64,
) -> Result<bool, AllocError>
    ensures { IfOk result (λ is. is ≡ is_taken producers.now sequences.now number) }
{
    let name = auto_name(alloc, number)?;
    Ok(is_connected(producers, &name) || sequences.has(&name))
}

/// The gaps whose names still have no message.
pub(crate) fn left_of(
    alloc: Global,
    sequences: &Sequences,
    gaps: &[u64],
) -> Result<Vec<u64>, AllocError>
    ensures { IfOk result (λ left. left.items ≡ filter (λ g. not (is_numbered sequences.now g)) gaps.now) }
{
    let mut left = Vec::new(alloc);
    for gap in gaps {
        if !is_numbered(alloc, sequences, *gap)? {
            left.push(*gap)?;
        }
    }
    Ok(left)
}

/// The first gap whose name is not in use.
pub(crate) fn free_gap(
    alloc: Global,
    sequences: &Sequences,
    producers: &[Producer],
    gaps: &[u64],
) -> Result<Option<u64>, AllocError>
    ensures { IfOk result (λ found. found ≡ find (λ g. not (is_taken producers.now sequences.now g)) gaps.now) }
{
    for gap in gaps {
        if !is_taken(alloc, sequences, producers, *gap)? {
            return Ok(Some(*gap));
        }
    }
    Ok(None)
}

/// The first number from this one on whose name is not in use, and the gaps below it. There are more
/// numbers than names that may be in use.
pub(crate) fn free_from(
    alloc: Global,
    sequences: &Sequences,
    producers: &[Producer],
    first: u64,
    mut gaps: Vec<u64>,
) -> Result<(Vec<u64>, u64), AllocError>
    ensures gaps { IfOk result (λ r. AreGaps (is_numbered sequences.now) first gaps.items → AreGaps (is_numbered sequences.now) r.1 r.0.items) }
    ensures free { IfOk result (λ r. is_taken producers.now sequences.now r.1 ≡ false) }
    ensures taken { IfOk result (λ r. (k : ℕ) → first ≤ k → k < r.1 → is_taken producers.now sequences.now k ≡ true) }
{
    for number in first..u64::MAX {
        if !is_taken(alloc, sequences, producers, number)? {
            return Ok((gaps, number));
        }
        if !is_numbered(alloc, sequences, number)? {
            gaps.push(number)?;
        }
    }
    Err(AllocError)
}
