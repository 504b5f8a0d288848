// What a consumer's text stands for.
ghost use Rattle.std.specs.Prelude.{◌≡◌, IfOk, option_and_then, option_map};
ghost use Rattle.serde_json.specs.Find.{as_number, as_u64};
ghost use Rattle.json_values.specs.Fields.{ok_as};
ghost use Rattle.json_values.specs.Objects.{between};
ghost use Rattle.wire_json.specs.CommandFields.{command_seen, message_from, named, permits_from, seen_in};
ghost use Rattle.wire_json.specs.Commands.{command_of};
ghost use Rattle.json_glances.specs.Glances.{seen_as};
ghost use Rattle.wire_json.specs.Ids.{id_of};

use crate::command_fields::{CommandFields, command_fields};
use json::Scratch;
use json_glances::Glance;
use position_core::{Fault, Permits, Position};
use std::alloc::AllocError;
use value_texts::read_id;

/// What a consumer asks for.
#[derive(Clone, Copy, Debug, PartialEq, Eq)]
pub enum Command {
    /// It has done with the message.
    Acknowledge(Position),
    /// It has done with the message and all before it.
    AcknowledgeUpTo(Position),
    /// It wants the message again.
    NegativeAcknowledge(Position),
    /// It may be sent so many further messages.
    Permit(Permits),
    /// Whether no more messages will come.
    IsEndOfTopic,
}

/// The position that a text is the id of.
pub(crate) fn id_of(text: &str) -> Option<Position>
    ensures { result ≡ id_of text.now }
{
    match read_id(text.as_bytes()) {
        Ok(position) => Some(position),
        Err(_) => None,
    }
}

/// The position that a field says.
fn message_in(fields: &CommandFields<'_>) -> Result<Position, Fault>
    ensures { result ≡ message_from (seen_in fields.now) }
{
    match fields.message_id {
        Some(Glance::Text(text)) => id_of(text).ok_or(Fault::BadId),
        _ => Err(Fault::BadJson),
    }
}

fn permits_from(number: u64) -> Option<Permits>
    ensures { result ≡ between 1 2147483647 number }
{
    if number > 2_147_483_647 {
        return None;
    }
    Permits::new(number as u32)
}

fn whole_of(seen: Option<Glance<'_>>) -> Option<u64>
    ensures { result ≡ option_and_then as_u64 (option_and_then as_number (option_map seen_as seen.entry)) }
{
    match seen {
        Some(Glance::Number(number)) => number.as_u64(),
        _ => None,
    }
}

/// For how many messages a permit is.
fn permits_in(fields: &CommandFields<'_>) -> Result<Permits, Fault>
    ensures { result ≡ permits_from (seen_in fields.now) }
{
    match whole_of(fields.permit_messages) {
        Some(number) => permits_from(number).ok_or(Fault::BadJson),
        None => Err(Fault::BadJson),
    }
}

fn permit_in(fields: &CommandFields<'_>) -> Result<Command, Fault>
    ensures { result ≡ ok_as Command.Permit (permits_from (seen_in fields.now)) }
{
    match permits_in(fields) {
        Ok(permits) => Ok(Command::Permit(permits)),
        Err(fault) => Err(fault),
    }
}

fn acknowledge_in(fields: &CommandFields<'_>) -> Result<Command, Fault>
    ensures { result ≡ ok_as Command.Acknowledge (message_from (seen_in fields.now)) }
{
    match message_in(fields) {
        Ok(position) => Ok(Command::Acknowledge(position)),
        Err(fault) => Err(fault),
    }
}

fn acknowledge_up_to_in(fields: &CommandFields<'_>) -> Result<Command, Fault>
    ensures { result ≡ ok_as Command.AcknowledgeUpTo (message_from (seen_in fields.now)) }
{
    match message_in(fields) {
        Ok(position) => Ok(Command::AcknowledgeUpTo(position)),
        Err(fault) => Err(fault),
    }
}

fn negative_acknowledge_in(fields: &CommandFields<'_>) -> Result<Command, Fault>
    ensures { result ≡ ok_as Command.NegativeAcknowledge (message_from (seen_in fields.now)) }
{
    match message_in(fields) {
        Ok(position) => Ok(Command::NegativeAcknowledge(position)),
        Err(fault) => Err(fault),
    }
}

/// The command of the type.
fn command_named(name: &str, fields: &CommandFields<'_>) -> Result<Command, Fault>
    ensures { result ≡ named name.now (seen_in fields.now) }
{
    if name == "acknowledgeCumulative" {
        return acknowledge_up_to_in(fields);
    }
    if name == "negativeAcknowledge" {
        return negative_acknowledge_in(fields);
    }
    if name == "permit" {
        return permit_in(fields);
    }
    if name == "isEndOfTopic" {
        Ok(Command::IsEndOfTopic)
    } else {
        Err(Fault::BadJson)
    }
}

/// The command of an object. A type that is null is none.
fn command_in(fields: &CommandFields<'_>) -> Result<Command, Fault>
    ensures { result ≡ command_seen (seen_in fields.now) }
{
    match fields.kind {
        None | Some(Glance::Null) => acknowledge_in(fields),
        Some(Glance::Text(name)) => command_named(name, fields),
        Some(_) => Err(Fault::BadJson),
    }
}

/// Reads what a consumer sent. Texts with escapes are written to the scratch, which is kept from one reading to the next.
pub fn read_command(
    scratch: &mut Scratch,
    text: &[u8],
) -> Result<Result<Command, Fault>, AllocError>
    ensures { IfOk result (λ said. said ≡ command_of text.now) }
{
    match command_fields(scratch, text)? {
        Some(fields) => Ok(command_in(&fields)),
        None => Ok(Err(Fault::BadJson)),
    }
}
