// What an administrator is answered.
ghost use Rattle.std.specs.Prelude.{◌≡◌, [], ◌∷◌, ◌++◌, codes, is_some, IfOk, IfSome, IfNone, OnOk, string_bytes};
ghost use Rattle.json_values.specs.Written.{field_text, leading, object_text};
ghost use Rattle.wire_json.specs.Statistics.{admin_text, done_fields, early_fields, gone_field, kind_field, kind_text, late_fields, mark_delete_field, number_field, oldest_field, refused_fields, result_field, statistics_fields};

use crate::answers::begin;
use delivery_machine::Reply;
use json_values::{push_decimal, push_quoted};
use position_core::{Fault, Kind, Moment, Position};
use std::alloc::AllocError;
use value_texts::append_id;

/// How many bytes an answer has at most.
const MOST_BYTES: usize = 256;

/// What answers the question whether no more messages will come: a topic has no end.
pub fn end_of_topic_text() -> &'static str
    ensures { result.now ≡ codes "{\"endOfTopic\":\"false\"}" }
{
    "{\"endOfTopic\":\"false\"}"
}

fn kind_text(kind: Kind) -> &'static str
    ensures { result.now ≡ kind_text kind }
{
    match kind {
        Kind::Exclusive => "Exclusive",
        Kind::Failover => "Failover",
        Kind::Shared => "Shared",
        Kind::KeyShared => "Key_Shared",
    }
}

/// Appends a number under its name, and a comma.
fn push_number(out: &mut String, name: &str, number: u64) -> Result<(), AllocError>
    ensures { OnOk result (string_bytes out.new ≡ string_bytes out.old ++ leading (number_field name.now number ∷ [])) }
{
    push_quoted(out, name)?;
    out.push_str(":")?;
    push_decimal(out, number)?;
    out.push_str(",")?;
    Ok(())
}

fn push_kind(out: &mut String, kind: Kind) -> Result<(), AllocError>
    ensures { OnOk result (string_bytes out.new ≡ string_bytes out.old ++ leading (kind_field kind ∷ [])) }
{
    out.push_str("\"kind\":")?;
    push_quoted(out, kind_text(kind))?;
    out.push_str(",")?;
    Ok(())
}

fn push_mark_delete(out: &mut String, position: Option<Position>) -> Result<(), AllocError>
    ensures { OnOk result (string_bytes out.new ≡ string_bytes out.old ++ leading (mark_delete_field position)) }
{
    let Some(position) = position else {
        return Ok(());
    };
    out.push_str("\"markDelete\":\"")?;
    append_id(out, position)?;
    out.push_str("\",")?;
    Ok(())
}

/// Appends how the command came out, and ends the object.
fn push_result(out: &mut String, outcome: &str) -> Result<(), AllocError>
    ensures { OnOk result (string_bytes out.new ≡ string_bytes out.old ++ (field_text (result_field outcome.now) ++ codes "}")) }
{
    out.push_str("\"result\":")?;
    push_quoted(out, outcome)?;
    out.push_str("}")?;
    Ok(())
}

fn push_brace(out: &mut String) -> Result<(), AllocError>
    ensures { OnOk result (string_bytes out.new ≡ codes "{") }
{
    begin(out, MOST_BYTES)?;
    out.push_str("{")?;
    Ok(())
}

fn done_text(out: &mut String) -> Result<(), AllocError>
    ensures { OnOk result (string_bytes out.new ≡ object_text done_fields) }
{
    push_brace(out)?;
    push_result(out, "ok")?;
    Ok(())
}

fn refused_text(out: &mut String, fault: Fault) -> Result<(), AllocError>
    ensures { OnOk result (string_bytes out.new ≡ object_text (refused_fields fault)) }
{
    push_brace(out)?;
    push_number(out, "fault", u64::from(fault.number()))?;
    push_result(out, "refused")?;
    Ok(())
}

/// How far a subscription is.
#[derive(Clone, Copy)]
struct Statistics {
    kind: Kind,
    members: u64,
    mark_delete: Option<Position>,
    acknowledged: u64,
    live: u64,
    pending: u64,
    dead: u64,
    gone: u64,
    /// In milliseconds.
    oldest: Option<u64>,
}

fn push_gone(out: &mut String, gone: u64) -> Result<(), AllocError>
    ensures { OnOk result (string_bytes out.new ≡ string_bytes out.old ++ leading (gone_field gone)) }
{
    if gone == 0 {
        return Ok(());
    }
    push_number(out, "gone", gone)
}

fn millis_of(moment: Option<Moment>) -> Option<u64>
    ensures { result ≡ moment }
{
    match moment {
        Some(moment) => Some(moment.millis()),
        None => None,
    }
}

fn push_oldest(out: &mut String, gone: u64, oldest: Option<u64>) -> Result<(), AllocError>
    ensures { OnOk result (string_bytes out.new ≡ string_bytes out.old ++ leading (oldest_field gone oldest)) }
{
    match oldest {
        Some(moment) if gone > 0 => push_number(out, "oldest", moment),
        _ => Ok(()),
    }
}

/// Appends what stands before `markDelete`.
fn push_early(out: &mut String, of: Statistics) -> Result<(), AllocError>
    ensures { OnOk result (string_bytes out.new ≡ string_bytes out.old ++ leading (early_fields of.kind of.acknowledged of.live of.dead of.gone)) }
{
    push_number(out, "acknowledged", of.acknowledged)?;
    push_number(out, "dead", of.dead)?;
    push_gone(out, of.gone)?;
    push_kind(out, of.kind)?;
    push_number(out, "live", of.live)?;
    Ok(())
}

/// Appends what stands after `markDelete`, but for the result.
fn push_late(out: &mut String, of: Statistics) -> Result<(), AllocError>
    ensures { OnOk result (string_bytes out.new ≡ string_bytes out.old ++ leading (late_fields of.members of.pending of.gone of.oldest)) }
{
    push_number(out, "members", of.members)?;
    push_oldest(out, of.gone, of.oldest)?;
    push_number(out, "pending", of.pending)?;
    Ok(())
}

fn statistics_text(out: &mut String, of: Statistics) -> Result<(), AllocError>
    ensures { OnOk result (string_bytes out.new ≡ object_text (statistics_fields of.kind of.members of.mark_delete of.acknowledged of.live of.pending of.dead of.gone of.oldest)) }
{
    push_brace(out)?;
    push_early(out, of)?;
    push_mark_delete(out, of.mark_delete)?;
    push_late(out, of)?;
    push_result(out, "ok")?;
    Ok(())
}

/// Writes what answers an administrator's command, in place of what `out` holds: `Done`, a refusal or statistics.
/// Another reply answers no administrator: `false`, and nothing is written.
pub fn admin_text(out: &mut String, reply: &Reply) -> Result<bool, AllocError>
    ensures written { IfOk result (λ written. written ≡ is_some (admin_text reply.now)) }
    ensures text { OnOk result (IfSome (admin_text reply.now) (λ text. string_bytes out.new ≡ text)) }
    ensures none { OnOk result (IfNone (admin_text reply.now) (out.new ≡ out.old)) }
{
    match reply {
        Reply::Done => done_text(out)?,
        Reply::Refused(fault) => refused_text(out, *fault)?,
        Reply::Stats {
            kind,
            members,
            mark_delete,
            acknowledged,
            live,
            pending,
            dead,
            gone,
            oldest,
        } => statistics_text(
            out,
            Statistics {
                kind: *kind,
                members: *members,
                mark_delete: *mark_delete,
                acknowledged: *acknowledged,
                live: *live,
                pending: *pending,
                dead: *dead,
                gone: *gone,
                oldest: millis_of(*oldest),
            },
        )?,
        _ => return Ok(false),
    }
    Ok(true)
}
