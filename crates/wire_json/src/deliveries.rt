// What a consumer is sent.
ghost use Rattle.std.specs.Prelude.{◌≡◌, ℕ, List, [], ◌∷◌, ◌++◌, OnOk, string_bytes};
ghost use Rattle.json_values.specs.Times.{IsTimeText};
ghost use Rattle.json_values.specs.Written.{field_text, leading};
ghost use Rattle.wire_json.specs.Deliveries.{BeginsDelivery, IsDelivery, count_field, key_field, payload_field, properties_field, time_field};

use crate::answers::{begin, push_id};
use base64::engine::general_purpose::STANDARD;
use json_values::{
    append_properties, push_decimal, push_quoted, push_time, room_for, room_for_properties,
};
use position_core::{Content, Entry, Key, Moment, Properties};
use std::alloc::AllocError;

/// How many bytes a delivery has beside its key, payload and properties at most.
const MOST_BESIDE_CONTENT: usize = 192;

fn room_for_delivery(content: &Content) -> usize {
    let key = match &content.key {
        Some(key) => room_for(key.as_str()),
        None => 0,
    };
    let payload = (content.payload.as_slice().len() / 3).saturating_mul(4);
    let properties = room_for_properties(&content.properties);
    key.saturating_add(payload)
        .saturating_add(properties)
        .saturating_add(MOST_BESIDE_CONTENT)
}

fn push_key(out: &mut String, key: &Option<Key>) -> Result<(), AllocError>
    ensures { OnOk result (string_bytes out.new ≡ string_bytes out.old ++ leading (key_field key.now)) }
{
    let Some(key) = key else {
        return Ok(());
    };
    out.push_str("\"key\":")?;
    push_quoted(out, key.as_str())?;
    out.push_str(",")?;
    Ok(())
}

fn push_properties(out: &mut String, properties: &Properties) -> Result<(), AllocError>
    ensures { OnOk result (string_bytes out.new ≡ string_bytes out.old ++ leading (properties_field properties.now ∷ [])) }
{
    out.push_str("\"properties\":")?;
    append_properties(out, properties)?;
    out.push_str(",")?;
    Ok(())
}

fn push_payload(out: &mut String, payload: &[u8]) -> Result<(), AllocError>
    ensures { OnOk result (string_bytes out.new ≡ string_bytes out.old ++ leading (payload_field payload.now ∷ [])) }
{
    out.push_str("\"payload\":\"")?;
    STANDARD.encode_string(payload, out)?;
    out.push_str("\",")?;
    Ok(())
}

fn push_publish_time(out: &mut String, moment: Moment) -> Result<(), AllocError>
    ensures { OnOk result ((time : List ℕ) × IsTimeText moment time × (string_bytes out.new ≡ string_bytes out.old ++ leading (time_field time ∷ []))) }
{
    out.push_str("\"publishTime\":\"")?;
    push_time(out, moment)?;
    out.push_str("\",")?;
    Ok(())
}

pub(crate) fn push_count(out: &mut String, count: u32) -> Result<(), AllocError>
    ensures { OnOk result (string_bytes out.new ≡ string_bytes out.old ++ field_text (count_field count)) }
{
    out.push_str("\"redeliveryCount\":")?;
    push_decimal(out, u64::from(count))?;
    Ok(())
}

/// Writes all that stands before the count, in place of what `out` holds.
pub(crate) fn begin_delivery(out: &mut String, message: &Entry) -> Result<(), AllocError>
    ensures { OnOk result (BeginsDelivery message.now (string_bytes out.new)) }
{
    let content = message.body.content();
    begin(out, room_for_delivery(content))?;
    out.push_str("{")?;
    push_key(out, &content.key)?;
    push_id(out, message.position)?;
    push_payload(out, content.payload.as_slice())?;
    push_properties(out, &content.properties)?;
    push_publish_time(out, message.time)?;
    Ok(())
}

/// Writes what a consumer is sent, the message and how often it was redelivered, in place of what `out` holds.
pub fn delivery_text(out: &mut String, message: &Entry, count: u32) -> Result<(), AllocError>
    ensures { OnOk result (IsDelivery message.now count (string_bytes out.new)) }
{
    begin_delivery(out, message)?;
    push_count(out, count)?;
    out.push_str("}")?;
    Ok(())
}
