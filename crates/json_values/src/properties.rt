// Properties, written as a compact object and read back.
ghost use Rattle.std.specs.Prelude.{◌≡◌, ◌↔◌, ℕ, List, [], ◌++◌, ◌+◌, ◌<◌, ◌≤◌, codes, if◌then◌else◌, length, IfNone, IfOk, IfSome, IsTrue, OnErr, OnOk, option_and_then, string_bytes, string_capacity, string_len};
ghost use Rattle.position_core.specs.Properties.{fits, pairs_of};
ghost use Rattle.json_values.specs.Fields.{properties_of};
ghost use Rattle.json_values.specs.Objects.{object_of};
ghost use Rattle.json_values.specs.Written.{AreProperties, field_text, fields_text, object_text, property_field, property_fields};

use crate::fields::pairs_in;
use crate::objects::object_of;
use crate::quoting::{push_quoted, room_for};
use position_core::Properties;
use std::alloc::{AllocError, Global};
use std::collections::BTreeMap;

fn push_comma(out: &mut String, is_first: bool) -> Result<(), AllocError>
    ensures bytes { OnOk result (string_bytes out.new ≡ string_bytes out.old ++ (if is_first then [] else codes ",")) }
    ensures len { OnOk result (string_len out.new ≡ string_len out.old + length (if is_first then [] else codes ",")) }
    ensures capacity { string_capacity out.old ≤ string_capacity out.new }
    ensures full { OnErr result (string_capacity out.old < string_len out.old + length (if is_first then [] else codes ",")) }
{
    if is_first { Ok(()) } else { out.push_str(",") }
}

#[tactic(auto, using(crate::proofs::Written::property_length))]
fn push_property(
    out: &mut String,
    is_first: bool,
    name: &str,
    value: &str,
) -> Result<(), AllocError>
    ensures bytes { OnOk result (string_bytes out.new ≡ string_bytes out.old ++ ((if is_first then [] else codes ",") ++ field_text (property_field (name.now, value.now)))) }
    ensures len { OnOk result (string_len out.new ≡ string_len out.old + length ((if is_first then [] else codes ",") ++ field_text (property_field (name.now, value.now)))) }
    ensures capacity { string_capacity out.old ≤ string_capacity out.new }
    ensures full { OnErr result (string_capacity out.old < string_len out.old + length ((if is_first then [] else codes ",") ++ field_text (property_field (name.now, value.now)))) }
{
    push_comma(out, is_first)?;
    push_quoted(out, name)?;
    out.push_str(":")?;
    push_quoted(out, value)?;
    Ok(())
}

fn push_property_list(out: &mut String, values: &BTreeMap<String, String>) -> Result<(), AllocError>
    ensures bytes { OnOk result (string_bytes out.new ≡ string_bytes out.old ++ fields_text (property_fields (pairs_of values.now))) }
    ensures len { OnOk result (string_len out.new ≡ string_len out.old + length (fields_text (property_fields (pairs_of values.now)))) }
    ensures capacity { string_capacity out.old ≤ string_capacity out.new }
    ensures full { OnErr result (string_capacity out.old < string_len out.old + length (fields_text (property_fields (pairs_of values.now)))) }
{
    let mut is_first = true;
    for (name, value) in values.iter() {
        push_property(out, is_first, name.as_str(), value.as_str())?;
        is_first = false;
    }
    Ok(())
}

#[tactic(auto, using(crate::proofs::Written::object_length))]
/// Appends the properties as an object. It fails only where the text had no room for them.
pub fn append_properties(out: &mut String, properties: &Properties) -> Result<(), AllocError>
    ensures bytes { OnOk result (string_bytes out.new ≡ string_bytes out.old ++ object_text (property_fields properties.now)) }
    ensures len { OnOk result (string_len out.new ≡ string_len out.old + length (object_text (property_fields properties.now))) }
    ensures capacity { string_capacity out.old ≤ string_capacity out.new }
    ensures full { OnErr result (string_capacity out.old < string_len out.old + length (object_text (property_fields properties.now))) }
{
    out.push_str("{")?;
    push_property_list(out, properties.as_map())?;
    out.push_str("}")?;
    Ok(())
}

fn room_for_property(name: &str, value: &str) -> usize
    ensures enough { IsTrue (fits (name.now, value.now)) → length (field_text (property_field (name.now, value.now))) + 1 ≤ result }
    ensures small { IsTrue (fits (name.now, value.now)) → result ≤ 7680 }
{
    let name_room = room_for(name);
    let value_room = room_for(value);
    name_room.saturating_add(value_room).saturating_add(2)
}

/// How many bytes of room the properties take as an object at most.
pub fn room_for_properties(properties: &Properties) -> usize
    ensures { length (object_text (property_fields properties.now)) ≤ result }
{
    let mut room = 2usize;
    for (name, value) in properties.as_map().iter() {
        room = room.saturating_add(room_for_property(name.as_str(), value.as_str()));
    }
    room
}

/// The properties of the object that the text is, however it is written.
fn said_by(alloc: Global, text: &str) -> Result<Option<Properties>, AllocError>
    ensures { IfOk result (λ found. found ≡ option_and_then properties_of (object_of text.now)) }
{
    let Some(object) = object_of(alloc, text.as_bytes())? else {
        return Ok(None);
    };
    let Some(fields) = object.as_object() else {
        return Ok(None);
    };
    match pairs_in(alloc, fields)? {
        Some(pairs) => Ok(Properties::new(pairs)),
        None => Ok(None),
    }
}

fn is_text_of(alloc: Global, text: &str, properties: &Properties) -> Result<bool, AllocError>
    ensures { IfOk result (λ same. IsTrue same ↔ text.now ≡ object_text (property_fields properties.now)) }
{
    let mut written = String::with_capacity(alloc, text.len())?;
    append_properties(&mut written, properties)?;
    Ok(written.as_str() == text)
}

/// The properties that `append_properties` writes as this text.
pub fn properties_in(alloc: Global, text: &str) -> Result<Option<Properties>, AllocError>
    ensures shown { IfOk result (λ found. IfSome found (λ properties. text.now ≡ object_text (property_fields properties))) }
    ensures all_read { IfOk result (λ found. IfNone found ((properties : List (List ℕ × List ℕ)) → AreProperties properties → text.now ≡ object_text (property_fields properties) → ⊥)) }
{
    if text == "{}" {
        return Ok(Some(Properties::none(alloc)));
    }
    let Some(properties) = said_by(alloc, text)? else {
        return Ok(None);
    };
    if is_text_of(alloc, text, &properties)? {
        Ok(Some(properties))
    } else {
        Ok(None)
    }
}
