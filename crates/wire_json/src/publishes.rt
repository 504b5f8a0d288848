// What a producer's text stands for.
ghost use Rattle.std.specs.Prelude.{◌≡◌, Some, None, Ok, Err, IfOk, option_and_then, option_map, string_bytes};
ghost use Rattle.serde_json.specs.Data.{string};
ghost use Rattle.serde_json.specs.Find.{as_str};
ghost use Rattle.serde_json.specs.View.{view};
ghost use Rattle.json_values.specs.Fields.{ok_as, word_of};
ghost use Rattle.json_glances.specs.Glances.{seen_as};
ghost use Rattle.wire_json.specs.PublishFields.{content_seen, context_from, key_from, properties_from, reading_seen, seen_in};
ghost use Rattle.wire_json.specs.Publishes.{content_from, payload_from, publish_of};

use crate::publish_fields::{PublishFields, publish_fields};
use json::Scratch;
use json_glances::Glance;
use json_values::{bytes_of, pairs_in, word};
use position_core::{Content, Fault, Key, Payload, Properties};
use serde_json::Value;
use std::alloc::{AllocError, Global};
use std::sync::ArcStr;

/// How many bytes a key may have.
const MOST_KEY_BYTES: usize = 1024;

/// What a producer's text says: its context, where it was read, and its content, or why it is refused: `BadJson`
/// or `BadPayload`.
#[derive(Debug, Drop)]
pub struct PublishReading {
    pub context: Option<String>,
    pub content: Result<Content, Fault>,
}

fn word_of(alloc: Global, seen: Glance<'_>) -> Result<Option<String>, AllocError>
    ensures { IfOk result (λ found. option_map string_bytes found ≡ word_of (seen_as seen.entry)) }
{
    match seen {
        Glance::Text(text) => Ok(Some(String::from_str(alloc, text)?)),
        Glance::Number(number) => word(alloc, &Value::Number(number)),
        Glance::Null | Glance::Truth(_) | Glance::Other => Ok(None),
    }
}

fn context_of(
    alloc: Global,
    context: Option<Glance<'_>>,
) -> Result<Result<Option<String>, Fault>, AllocError>
    ensures { IfOk result (λ said. ok_as (option_map string_bytes) said ≡ context_from (option_map seen_as context.entry)) }
{
    match context {
        None | Some(Glance::Null) => Ok(Ok(None)),
        Some(seen) => match word_of(alloc, seen)? {
            Some(context) => Ok(Ok(Some(context))),
            None => Ok(Err(Fault::BadJson)),
        },
    }
}

fn payload_from(alloc: Global, text: &str) -> Result<Result<Payload, Fault>, AllocError>
    ensures { IfOk result (λ said. said ≡ payload_from (Some text.now)) }
{
    match bytes_of(alloc, text)? {
        Some(bytes) => Ok(Payload::new(bytes).ok_or(Fault::BadPayload)),
        None => Ok(Err(Fault::BadPayload)),
    }
}

fn payload_of(
    alloc: Global,
    payload: Option<Glance<'_>>,
) -> Result<Result<Payload, Fault>, AllocError>
    ensures { IfOk result (λ said. said ≡ payload_from (option_and_then as_str (option_map seen_as payload.entry))) }
{
    match payload {
        Some(Glance::Text(text)) => payload_from(alloc, text),
        _ => Ok(Err(Fault::BadJson)),
    }
}

fn key_from(alloc: Global, text: &str) -> Result<Result<Option<Key>, Fault>, AllocError>
    ensures { IfOk result (λ said. said ≡ key_from (Some (string text.now))) }
{
    if text.len() > MOST_KEY_BYTES {
        return Ok(Err(Fault::BadJson));
    }
    match Key::new(ArcStr::from_str(alloc, text)?) {
        Some(key) => Ok(Ok(Some(key))),
        None => Ok(Err(Fault::BadJson)),
    }
}

fn key_of(alloc: Global, key: Option<Glance<'_>>) -> Result<Result<Option<Key>, Fault>, AllocError>
    ensures { IfOk result (λ said. said ≡ key_from (option_map seen_as key.entry)) }
{
    match key {
        None | Some(Glance::Null) => Ok(Ok(None)),
        Some(Glance::Text(text)) => key_from(alloc, text),
        Some(_) => Ok(Err(Fault::BadJson)),
    }
}

fn properties_of(
    alloc: Global,
    properties: Option<&Value>,
) -> Result<Result<Properties, Fault>, AllocError>
    ensures { IfOk result (λ said. said ≡ properties_from (option_map (λ value. view value.now) properties.entry)) }
{
    let Some(value) = properties else {
        return Ok(Ok(Properties::none(alloc)));
    };
    if value.is_null() {
        return Ok(Ok(Properties::none(alloc)));
    }
    let Some(fields) = value.as_object() else {
        return Ok(Err(Fault::BadJson));
    };
    match pairs_in(alloc, fields)? {
        Some(pairs) => Ok(Properties::new(pairs).ok_or(Fault::BadJson)),
        None => Ok(Err(Fault::BadJson)),
    }
}

fn content_with_key(
    alloc: Global,
    fields: &PublishFields<'_>,
    payload: Payload,
    key: Option<Key>,
) -> Result<Result<Content, Fault>, AllocError>
    ensures { IfOk result (λ said. said ≡ content_from (Ok payload) (Ok key) (properties_from (seen_in fields.now).properties)) }
{
    match properties_of(alloc, fields.properties.as_ref())? {
        Ok(properties) => Ok(Ok(Content {
            key,
            properties,
            payload,
        })),
        Err(fault) => Ok(Err(fault)),
    }
}

fn content_with_payload(
    alloc: Global,
    fields: &PublishFields<'_>,
    payload: Payload,
) -> Result<Result<Content, Fault>, AllocError>
    ensures { IfOk result (λ said. said ≡ content_from (Ok payload) (key_from (seen_in fields.now).key) (properties_from (seen_in fields.now).properties)) }
{
    match key_of(alloc, fields.key)? {
        Ok(key) => content_with_key(alloc, fields, payload, key),
        Err(fault) => Ok(Err(fault)),
    }
}

fn content_of(
    alloc: Global,
    fields: &PublishFields<'_>,
) -> Result<Result<Content, Fault>, AllocError>
    ensures { IfOk result (λ said. said ≡ content_seen (seen_in fields.now)) }
{
    match payload_of(alloc, fields.payload)? {
        Ok(payload) => content_with_payload(alloc, fields, payload),
        Err(fault) => Ok(Err(fault)),
    }
}

/// What cannot be answered with a context.
fn refused() -> PublishReading
    ensures context { result.context ≡ None }
    ensures content { result.content ≡ Err Fault.BadJson }
{
    PublishReading {
        context: None,
        content: Err(Fault::BadJson),
    }
}

fn reading_in(alloc: Global, fields: &PublishFields<'_>) -> Result<PublishReading, AllocError>
    ensures { IfOk result (λ said. reading_seen (seen_in fields.now) ≡ record { context = option_map string_bytes said.context; content = said.content }) }
{
    match context_of(alloc, fields.context)? {
        Ok(context) => Ok(PublishReading {
            context,
            content: content_of(alloc, fields)?,
        }),
        Err(_) => Ok(refused()),
    }
}

/// Reads what a producer sent. Texts with escapes are written to the scratch, which is kept from one reading to the next.
pub fn read_publish(
    alloc: Global,
    scratch: &mut Scratch,
    text: &[u8],
) -> Result<PublishReading, AllocError>
    ensures { IfOk result (λ said. publish_of text.now ≡ record { context = option_map string_bytes said.context; content = said.content }) }
{
    match publish_fields(alloc, scratch, text)? {
        Some(fields) => reading_in(alloc, &fields),
        None => Ok(refused()),
    }
}
