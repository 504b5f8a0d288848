// What has to be written for snapshots to stand, before anything is.
ghost use Rattle.std.specs.Prelude.{◌≡◌, ◌⊎◌, ◌<◌, ◌+◌, All, Contains, false, true, length, map, [], ◌∷◌, IfOk, IfErr, IfSome, IsTrue, OnOk, string_bytes};
ghost use Rattle.std.specs.List.{list_any};
ghost use Rattle.std.specs.Str.{bytes_eq};
ghost use Rattle.sqlite.specs.Tree.{Trees};
ghost use Rattle.position_core.specs.TopicName.{same_topic, topic_text};
ghost use Rattle.position_core.specs.declared.fault.Fault.TheVariants.{NoMemory};
ghost use Rattle.delivery_machine.specs.Places.{KeptTopic};
ghost use Rattle.stored_cell.specs.Noted.{GoesOn};
ghost use Rattle.row_forms.specs.Forms.{span_of};
ghost use Rattle.row_forms.specs.Parts.{IsLater};
ghost use Rattle.row_forms.specs.Standing.{Stands};
ghost use Rattle.row_rounds.specs.declared.saving.Write.{Write};
ghost use Rattle.row_rounds.specs.Rounds.{AreApart, Fits, IsNamed, name_of};
ghost use Rattle.row_store.specs.Keeping.{GoesForward, kepts};

use crate::cause::Cause;
use crate::known::Known;
use delivery_machine::{Fault, Snapshot};
use marks::Naming;
use position_core::TopicName;
use row_forms::{Change, topic_text};
use row_rounds::Write;
use std::alloc::Global;
use stored_cell::Part;

/// What is known to stand, and the part goes on from.
fn base_of<'a, J: Naming>(known: &'a [Known<J>], part: &Part<J>) -> Option<&'a Known<J>>
    ensures goes_on { IfSome result (λ base. GoesOn base.now part.now.kept) }
    ensures base { IfSome result (λ base. Contains known.now base.now × Contains part.now.bases base.now) }
    ensures known { IfSome result (λ base. (db : Trees) → All (λ kept. Stands kept db) known.now → Stands base.now db) }
{
    for base in known {
        if part.goes_on_from(base.mark()) {
            return Some(base);
        }
    }
    None
}

fn text_of(alloc: Global, snapshot: &Snapshot) -> Result<String, Fault>
    ensures ok { IfOk result (λ text. string_bytes text ≡ topic_text snapshot.now.name) }
    ensures err { IfErr result (λ fault. fault ≡ NoMemory) }
{
    match topic_text(alloc, snapshot.name()) {
        Ok(text) => Ok(text),
        Err(_) => Err(Fault::NoMemory),
    }
}

/// The snapshot's rows in place of whatever rows the topic has.
pub fn plan_whole(alloc: Global, snapshot: Snapshot) -> Result<Write, Fault>
    ensures snapshot { IfOk result (λ write. write.snapshot ≡ snapshot) }
    ensures named { IfOk result IsNamed }
    ensures fits { IfOk result (λ write. (db : Trees) → Fits db write) }
    ensures err { IfErr result (λ fault. fault ≡ NoMemory) }
{
    let topic = match text_of(alloc, &snapshot) {
        Ok(topic) => topic,
        Err(fault) => {
            drop(snapshot);
            return Err(fault);
        }
    };
    match Change::whole(alloc, &snapshot) {
        Ok(change) => Ok(Write {
            snapshot,
            topic,
            change,
            whole: true,
        }),
        Err(_) => {
            drop(topic);
            drop(snapshot);
            Err(Fault::NoMemory)
        }
    }
}

/// What differs from a snapshot that stands, where a message of that stays.
fn plan_between(alloc: Global, snapshot: Snapshot, base: &Snapshot) -> Result<Write, Fault>
    requires name { snapshot.name ≡ base.now.name }
    requires later { IsLater (span_of base.now) (span_of snapshot) }
    ensures snapshot { IfOk result (λ write. write.snapshot ≡ snapshot) }
    ensures named { IfOk result IsNamed }
    ensures fits { IfOk result (λ write. (db : Trees) → Stands base.now db → Fits db write) }
    ensures err { IfErr result (λ fault. fault ≡ NoMemory) }
{
    let topic = match text_of(alloc, &snapshot) {
        Ok(topic) => topic,
        Err(fault) => {
            drop(snapshot);
            return Err(fault);
        }
    };
    match Change::between(alloc, base, &snapshot) {
        Ok(change) => Ok(Write {
            snapshot,
            topic,
            change,
            whole: false,
        }),
        Err(_) => {
            drop(topic);
            drop(snapshot);
            Err(Fault::NoMemory)
        }
    }
}

/// Whether a message of the snapshot that stands stays, or none of them went. Where all went, a caller's word had made more
/// durable than was stored.
fn stays(base: &Snapshot, snapshot: &Snapshot) -> bool
    requires { GoesOn base.now snapshot.now }
    ensures later { IsTrue result → IsLater (span_of base.now) (span_of snapshot.now) }
    ensures all { (snapshot.now.gone ≡ base.now.gone) ⊎ (snapshot.now.gone < base.now.gone + length base.now.log) → IsTrue result }
{
    let went = snapshot.gone() - base.gone();
    went == 0 || went < base.log().count() as u64
}

/// What differs from the snapshot that stands; or all rows of the topic, where none of its messages stays.
fn plan_over(alloc: Global, snapshot: Snapshot, base: &Snapshot) -> Result<Write, Fault>
    requires { GoesOn base.now snapshot }
    ensures snapshot { IfOk result (λ write. write.snapshot ≡ snapshot) }
    ensures named { IfOk result IsNamed }
    ensures fits { IfOk result (λ write. (db : Trees) → Stands base.now db → Fits db write) }
    ensures err { IfErr result (λ fault. fault ≡ NoMemory) }
{
    if stays(base, &snapshot) {
        plan_between(alloc, snapshot, base)
    } else {
        plan_whole(alloc, snapshot)
    }
}

/// Whether nothing is known of the topic.
fn is_unknown<J: Naming>(known: &[Known<J>], name: &TopicName) -> bool
    ensures { IsTrue result → All (λ kept. same_topic kept.name name.now ≡ false) known.now }
{
    for one in known {
        if one.is_of(name) {
            return false;
        }
    }
    true
}

/// Whether the part may be the first that is stored of its topic: no store of that was confirmed, and nothing is known of it.
fn may_begin<J: Naming>(known: &[Known<J>], part: &Part<J>) -> bool
    ensures { IsTrue result → (part.now.is_first ≡ true) × All (λ kept. same_topic kept.name part.now.kept.name ≡ false) known.now }
{
    part.is_first() && is_unknown(known, part.snapshot().name())
}

/// All rows of a part whose base is not known to stand. None where it is not the first of its topic.
fn plan_anew<J: Naming>(
    alloc: Global,
    known: &[Known<J>],
    part: Part<J>,
) -> Result<Write, Option<Cause>>
    ensures snapshot { IfOk result (λ write. write.snapshot ≡ part.kept) }
    ensures named { IfOk result IsNamed }
    ensures fits { IfOk result (λ write. (db : Trees) → Fits db write) }
    ensures forward { OnOk result (GoesForward known.now part) }
{
    if !may_begin(known, &part) {
        drop(part);
        return Err(Some(Cause::Behind));
    }
    let (snapshot, _) = part.into_parts();
    match plan_whole(alloc, snapshot) {
        Ok(write) => Ok(write),
        Err(_) => Err(None),
    }
}

/// What has to be written for the part. Refused, with no cause for want of memory, and else where the part does not
/// go on from what is known of its topic.
fn plan<J: Naming>(alloc: Global, known: &[Known<J>], part: Part<J>) -> Result<Write, Option<Cause>>
    ensures snapshot { IfOk result (λ write. write.snapshot ≡ part.kept) }
    ensures named { IfOk result IsNamed }
    ensures fits { IfOk result (λ write. (db : Trees) → All (λ kept. Stands kept db) known.now → Fits db write) }
    ensures forward { OnOk result (GoesForward known.now part) }
{
    let Some(base) = base_of(known, &part) else {
        return plan_anew(alloc, known, part);
    };
    let (snapshot, _) = part.into_parts();
    match plan_over(alloc, snapshot, base.snapshot()) {
        Ok(write) => Ok(write),
        Err(_) => Err(None),
    }
}

/// A write of each part. Refused, with no cause for want of memory, and else where a part does not go on from what is
/// known of its topic.
fn plan_each<J: Naming>(
    alloc: Global,
    known: &[Known<J>],
    parts: Vec<Part<J>>,
) -> Result<Vec<Write>, Option<Cause>>
    ensures snapshots { IfOk result (λ writes. map (λ (w : Write). w.snapshot) writes.items ≡ kepts parts.items) }
    ensures named { IfOk result (λ writes. All IsNamed writes.items) }
    ensures fits { IfOk result (λ writes. (db : Trees) → All (λ kept. Stands kept db) known.now → All (Fits db) writes.items) }
    ensures forward { OnOk result (All (GoesForward known.now) parts.items) }
{
    let Ok(mut writes) = Vec::with_capacity(alloc, parts.len()) else {
        return Err(None);
    };
    for part in parts {
        match plan(alloc, known, part) {
            Ok(write) => {
                let Ok(()) = writes.push(write) else {
                    return Err(None);
                };
            }
            Err(cause) => return Err(cause),
        }
    }
    Ok(writes)
}

/// A write of each part, of no topic two. Refused, with no cause for want of memory.
pub fn plan_all<J: Naming>(
    alloc: Global,
    known: &[Known<J>],
    parts: Vec<Part<J>>,
) -> Result<Vec<Write>, Option<Cause>>
    ensures snapshots { IfOk result (λ writes. map (λ (w : Write). w.snapshot) writes.items ≡ kepts parts.items) }
    ensures named { IfOk result (λ writes. All IsNamed writes.items) }
    ensures fits { IfOk result (λ writes. (db : Trees) → All (λ kept. Stands kept db) known.now → All (Fits db) writes.items) }
    ensures forward { OnOk result (All (GoesForward known.now) parts.items) }
    ensures apart { IfOk result (λ writes. AreApart writes.items) }
{
    let writes = match plan_each(alloc, known, parts) {
        Ok(writes) => writes,
        Err(cause) => return Err(cause),
    };
    if !are_apart(&writes) {
        drop(writes);
        return Err(Some(Cause::Twice));
    }
    Ok(writes)
}

/// Whether one of these is of the topic.
pub fn is_among(writes: &[Write], topic: &str) -> bool
    ensures { result ≡ list_any (λ w. bytes_eq (string_bytes w.topic) topic.now) writes.now }
{
    writes.iter().any(|write| write.topic.as_str() == topic)
}

/// Whether no topic comes twice.
fn are_apart(writes: &[Write]) -> bool
    requires { All IsNamed writes.now }
    ensures { IsTrue result → AreApart writes.now }
{
    for place in 0..writes.len() {
        if is_among(&writes[..place], writes[place].topic.as_str()) {
            return false;
        }
    }
    true
}
