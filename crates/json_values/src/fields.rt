// What a field of an object says.
ghost use Rattle.std.specs.Prelude.{◌≡◌, IfOk, OnOk, option_map, string_bytes};
ghost use Rattle.serde_json.specs.View.{view, members_view, number_view};
ghost use Rattle.std.specs.BTreeMap.{insert_entry};
ghost use Rattle.std.specs.Cmp.Lexicographic.{slice_cmp};
ghost use Rattle.std.specs.Ordering.{nat_cmp};
ghost use Rattle.position_core.specs.Properties.{pairs_of};
ghost use Rattle.json_values.specs.Fields.{optional, other_form, pairs_in, said_by, short_text, truth_text, value_of, whole_text, word_of};

use crate::numbers::{decimal_text, signed_text};
use serde_json::{Map, Number, Value};
use std::alloc::{AllocError, Global};
use std::collections::BTreeMap;

fn whole_text(alloc: Global, number: &Number) -> Result<Option<String>, AllocError>
    ensures { IfOk result (λ found. option_map string_bytes found ≡ whole_text (number_view number.now)) }
{
    if let Some(number) = number.as_u64() {
        return Ok(Some(decimal_text(alloc, number)?));
    }
    match number.as_i64() {
        Some(number) => Ok(Some(signed_text(alloc, number)?)),
        None => Ok(None),
    }
}

fn truth_text(truth: bool) -> &'static str
    ensures { result.now ≡ truth_text truth }
{
    if truth { "true" } else { "false" }
}

/// A text as it stands, or a whole number in decimal.
pub fn word(alloc: Global, value: &Value) -> Result<Option<String>, AllocError>
    ensures { IfOk result (λ found. option_map string_bytes found ≡ word_of (view value.now)) }
{
    if let Some(text) = value.as_str() {
        return Ok(Some(String::from_str(alloc, text)?));
    }
    match value.as_number() {
        Some(number) => whole_text(alloc, number),
        None => Ok(None),
    }
}

fn property_value(alloc: Global, value: &Value) -> Result<Option<String>, AllocError>
    ensures { IfOk result (λ found. option_map string_bytes found ≡ value_of (view value.now)) }
{
    if let Some(word) = word(alloc, value)? {
        return Ok(Some(word));
    }
    match value.as_bool() {
        Some(truth) => Ok(Some(String::from_str(alloc, truth_text(truth))?)),
        None => Ok(None),
    }
}

/// Adds a property whose name is above those of the others.
fn add_property(
    alloc: Global,
    properties: &mut BTreeMap<String, String>,
    name: &String,
    value: String,
) -> Result<(), AllocError>
    ensures { OnOk result (pairs_of properties.new ≡ insert_entry (slice_cmp nat_cmp) (pairs_of properties.old) (string_bytes name.now) (string_bytes value)) }
{
    let name = String::from_str(alloc, name.as_str())?;
    match properties.insert(name, value) {
        Ok(_) => Ok(()),
        Err(_) => Err(AllocError),
    }
}

/// Each field's name and value, but for those that are null; none where a value is no property's.
pub fn pairs_in(
    alloc: Global,
    fields: &Map<String, Value>,
) -> Result<Option<BTreeMap<String, String>>, AllocError>
    ensures { IfOk result (λ found. option_map pairs_of found ≡ pairs_in (members_view fields.now.entries)) }
{
    let mut properties = BTreeMap::new(alloc);
    for (name, value) in fields.iter() {
        if value.is_null() {
            continue;
        }
        match property_value(alloc, value)? {
            Some(text) => add_property(alloc, &mut properties, name, text)?,
            None => return Ok(None),
        }
    }
    Ok(Some(properties))
}
