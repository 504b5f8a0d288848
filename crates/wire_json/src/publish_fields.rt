// The members of a publish, as they pass.
ghost use Rattle.std.specs.Prelude.{◌≡◌, ◌<◌, length, IfOk, IsTrue, None, Some, option_map};
ghost use Rattle.std.specs.Bool.{MatchBool};
ghost use Rattle.json.specs.Json.{members, value};
ghost use Rattle.serde_json.specs.Read.{converted, of_json};
ghost use Rattle.json_values.specs.Objects.{object_of};
ghost use Rattle.json_glances.specs.Glances.{read_as, seen_as, shallow, taking_all};
ghost use Rattle.json_glances.specs.Objects.{object_from};
ghost use Rattle.wire_json.specs.PublishFields.{fields_in, seen_in, with_glance, with_member, with_properties};

use json::{Reader, Scratch};
use json_glances::{Glance, MOST_DEPTH, open_object, pass_value, read_shallow};
use serde_json::Value;
use std::alloc::{AllocError, Global};

/// What is seen of the members of a publish.
#[derive(Drop)]
pub(crate) struct PublishFields<'a> {
    pub(crate) context: Option<Glance<'a>>,
    pub(crate) payload: Option<Glance<'a>>,
    pub(crate) key: Option<Glance<'a>>,
    pub(crate) properties: Option<Value>,
}

impl<'a> PublishFields<'a> {
    fn none() -> Self
        ensures { seen_in result ≡ record { context = None; payload = None; key = None; properties = None } }
    {
        PublishFields {
            context: None,
            payload: None,
            key: None,
            properties: None,
        }
    }

    fn put(&mut self, name: &str, seen: Glance<'a>)
        ensures { seen_in self.new ≡ with_glance name.now (seen_as seen.entry) (seen_in self.old) }
    {
        if name == "payload" {
            self.payload = Some(seen);
        } else if name == "context" {
            self.context = Some(seen);
        } else if name == "key" {
            self.key = Some(seen);
        }
    }
}

fn take_properties<'a>(
    alloc: Global,
    reader: &mut Reader<'a>,
    fields: &mut PublishFields<'a>,
) -> Result<bool, AllocError>
    ensures value { IfOk result (λ taken. MatchBool taken (converted (read_as (λ d. with_properties (shallow d) (seen_in fields.old))) (value 126 reader.old) ≡ Some (seen_in fields.new, reader.new)) (converted of_json (value 126 reader.old) ≡ None)) }
    ensures shorter { IfOk result (λ taken. IsTrue taken → length reader.new < length reader.old) }
{
    match read_shallow(alloc, reader, MOST_DEPTH) {
        Ok(Some(properties)) => {
            fields.properties = Some(properties);
            Ok(true)
        }
        Ok(None) => Ok(false),
        Err(AllocError) => Err(AllocError),
    }
}

/// Takes the value of a member, where it can be read.
fn take_member<'a>(
    alloc: Global,
    reader: &mut Reader<'a>,
    name: &str,
    fields: &mut PublishFields<'a>,
) -> Result<bool, AllocError>
    ensures value { IfOk result (λ taken. MatchBool taken (converted (read_as (λ d. with_member name.now d (seen_in fields.old))) (value 126 reader.old) ≡ Some (seen_in fields.new, reader.new)) (converted of_json (value 126 reader.old) ≡ None)) }
    ensures shorter { IfOk result (λ taken. IsTrue taken → length reader.new < length reader.old) }
{
    if name == "properties" {
        return take_properties(alloc, reader, fields);
    }
    match pass_value(reader, MOST_DEPTH) {
        Ok(seen) => {
            fields.put(name, seen);
            Ok(true)
        }
        Err(_) => Ok(false),
    }
}

/// Takes all members of the object, and its end.
fn take_members<'a>(
    alloc: Global,
    reader: &mut Reader<'a>,
    fields: &mut PublishFields<'a>,
) -> Result<bool, AllocError>
    ensures { IfOk result (λ taken. MatchBool taken (converted (λ ms. taking_all with_member ms (seen_in fields.old)) (members (value 126) (length reader.old) reader.old) ≡ Some (seen_in fields.new, reader.new)) (converted (λ ms. taking_all with_member ms (seen_in fields.old)) (members (value 126) (length reader.old) reader.old) ≡ None)) }
{
    'members: loop {
        match reader.next_key() {
            Ok(Some(name)) => {
                let taken = take_member(alloc, reader, name, fields)?;
                if !taken {
                    return Ok(false);
                }
            }
            Ok(None) => return Ok(true),
            Err(_) => return Ok(false),
        }
    }
}

/// What is seen of the members before which the reader stands, where nothing follows their object.
fn read_fields<'a>(
    alloc: Global,
    reader: &mut Reader<'a>,
) -> Result<Option<PublishFields<'a>>, AllocError>
    ensures { IfOk result (λ found. option_map seen_in found ≡ option_map fields_in (object_from reader.old)) }
{
    let mut fields = PublishFields::none();
    let taken = take_members(alloc, reader, &mut fields)?;
    if !taken {
        return Ok(None);
    }
    match reader.next() {
        Some(_) => Ok(None),
        None => Ok(Some(fields)),
    }
}

/// What is seen of the members of the object that the text is.
pub(crate) fn publish_fields<'a>(
    alloc: Global,
    scratch: &'a mut Scratch,
    text: &'a [u8],
) -> Result<Option<PublishFields<'a>>, AllocError>
    ensures { IfOk result (λ found. option_map seen_in found ≡ option_map fields_in (object_of text.now)) }
{
    match open_object(scratch, text) {
        Ok(Some(mut reader)) => read_fields(alloc, &mut reader),
        Ok(None) => Ok(None),
        Err(AllocError) => Err(AllocError),
    }
}
