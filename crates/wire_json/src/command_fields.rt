// The members of a consumer's command, as they pass.
ghost use Rattle.std.specs.Prelude.{◌≡◌, length, IfOk, None, Some, option_map};
ghost use Rattle.std.specs.Bool.{MatchBool};
ghost use Rattle.json.specs.Json.{members, value};
ghost use Rattle.serde_json.specs.Read.{converted};
ghost use Rattle.json_values.specs.Objects.{object_of};
ghost use Rattle.json_glances.specs.Glances.{seen_as, taking_all};
ghost use Rattle.json_glances.specs.Objects.{object_from};
ghost use Rattle.wire_json.specs.CommandFields.{fields_in, seen_in, with_glance, with_member};

use json::{Reader, Scratch};
use json_glances::{Glance, MOST_DEPTH, open_object, pass_value};
use std::alloc::AllocError;

/// What is seen of the members of a command.
#[derive(Clone, Copy, Drop)]
pub(crate) struct CommandFields<'a> {
    pub(crate) kind: Option<Glance<'a>>,
    pub(crate) message_id: Option<Glance<'a>>,
    pub(crate) permit_messages: Option<Glance<'a>>,
}

impl<'a> CommandFields<'a> {
    fn none() -> Self
        ensures { seen_in result ≡ record { type = None; message_id = None; permit_messages = None } }
    {
        CommandFields {
            kind: None,
            message_id: None,
            permit_messages: None,
        }
    }

    fn put(&mut self, name: &str, seen: Glance<'a>)
        ensures { seen_in self.new ≡ with_glance name.now (seen_as seen.entry) (seen_in self.old) }
    {
        if name == "messageId" {
            self.message_id = Some(seen);
        } else if name == "type" {
            self.kind = Some(seen);
        } else if name == "permitMessages" {
            self.permit_messages = Some(seen);
        }
    }
}

/// Takes all members of the object, and its end.
fn take_members<'a>(reader: &mut Reader<'a>, fields: &mut CommandFields<'a>) -> bool
    ensures { MatchBool result (converted (λ ms. taking_all with_member ms (seen_in fields.old)) (members (value 126) (length reader.old) reader.old) ≡ Some (seen_in fields.new, reader.new)) (converted (λ ms. taking_all with_member ms (seen_in fields.old)) (members (value 126) (length reader.old) reader.old) ≡ None) }
{
    'members: loop {
        match reader.next_key() {
            Ok(Some(name)) => match pass_value(reader, MOST_DEPTH) {
                Ok(seen) => fields.put(name, seen),
                Err(_) => return false,
            },
            Ok(None) => return true,
            Err(_) => return false,
        }
    }
}

/// What is seen of the members before which the reader stands, where nothing follows their object.
fn read_fields<'a>(reader: &mut Reader<'a>) -> Option<CommandFields<'a>>
    ensures { option_map seen_in result ≡ option_map fields_in (object_from reader.old) }
{
    let mut fields = CommandFields::none();
    let taken = take_members(reader, &mut fields);
    if !taken {
        return None;
    }
    match reader.next() {
        Some(_) => None,
        None => Some(fields),
    }
}

/// What is seen of the members of the object that the text is.
pub(crate) fn command_fields<'a>(
    scratch: &'a mut Scratch,
    text: &'a [u8],
) -> Result<Option<CommandFields<'a>>, AllocError>
    ensures { IfOk result (λ found. option_map seen_in found ≡ option_map fields_in (object_of text.now)) }
{
    match open_object(scratch, text) {
        Ok(Some(mut reader)) => Ok(read_fields(&mut reader)),
        Ok(None) => Ok(None),
        Err(AllocError) => Err(AllocError),
    }
}
