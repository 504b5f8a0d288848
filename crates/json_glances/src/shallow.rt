// Properties as they pass: they alone are kept as values.
ghost use Rattle.std.specs.Prelude.{◌≡◌, ◌<◌, ◌≤◌, ◌∷◌, length, IfOk, IfSome, MatchOption, None, OnOk, Some};
ghost use Rattle.json.specs.Json.{members, value};
ghost use Rattle.json.specs.Reads.{token_of};
ghost use Rattle.json.specs.Token.{begin_object};
ghost use Rattle.serde_json.specs.Data.{no_members, put};
ghost use Rattle.serde_json.specs.Read.{converted, of_json};
ghost use Rattle.serde_json.specs.View.{members_view, view};
ghost use Rattle.json_glances.specs.Glances.{flat, flat_put, read_as, seen_as, shallow, taking_all};

use crate::glances::{Glance, pass_from, pass_value};
use json::{Reader, Token};
use serde_json::{Map, Value};
use std::alloc::{AllocError, Global};

fn value_of(alloc: Global, seen: Glance<'_>) -> Result<Value, AllocError>
    ensures { IfOk result (λ value. view value ≡ seen_as seen.entry) }
{
    match seen {
        Glance::Null => Ok(Value::Null),
        Glance::Truth(truth) => Ok(Value::Bool(truth)),
        Glance::Number(number) => Ok(Value::Number(number)),
        Glance::Text(text) => Ok(Value::String(String::from_str(alloc, text)?)),
        Glance::Other => Ok(Value::Array(Vec::new(alloc))),
    }
}

fn keep(
    alloc: Global,
    found: &mut Map<String, Value>,
    name: &str,
    seen: Glance<'_>,
) -> Result<(), AllocError>
    ensures { OnOk result (members_view found.new.entries ≡ put name.now (seen_as seen.entry) (members_view found.old.entries)) }
{
    let name = String::from_str(alloc, name)?;
    let value = value_of(alloc, seen)?;
    match found.insert(name, value) {
        Ok(before) => {
            drop(before);
            Ok(())
        }
        Err(_) => Err(AllocError),
    }
}

/// The values of the members at a glance, where they can be read.
fn read_members(
    alloc: Global,
    reader: &mut Reader<'_>,
    depth: usize,
) -> Result<Option<Map<String, Value>>, AllocError>
    ensures value { IfOk result (λ found. MatchOption found (converted (λ ms. taking_all flat_put ms no_members) (members (value depth) (length reader.old) reader.old) ≡ None) (λ values. converted (λ ms. taking_all flat_put ms no_members) (members (value depth) (length reader.old) reader.old) ≡ Some (members_view values.entries, reader.new))) }
    ensures shorter { IfOk result (λ found. IfSome found (λ _. length reader.new < length reader.old)) }
{
    let mut found = Map::new(alloc);
    'members: loop {
        match reader.next_key() {
            Ok(Some(name)) => match pass_value(reader, depth) {
                Ok(seen) => keep(alloc, &mut found, name, seen)?,
                Err(_) => return Ok(None),
            },
            Ok(None) => return Ok(Some(found)),
            Err(_) => return Ok(None),
        }
    }
}

fn read_object(
    alloc: Global,
    reader: &mut Reader<'_>,
    depth: usize,
) -> Result<Option<Value>, AllocError>
    ensures value { IfOk result (λ found. MatchOption found (converted of_json (value depth (begin_object ∷ reader.old)) ≡ None) (λ seen. converted (read_as shallow) (value depth (begin_object ∷ reader.old)) ≡ Some (view seen, reader.new))) }
    ensures no_longer { IfOk result (λ found. IfSome found (λ _. length reader.new ≤ length reader.old)) }
{
    if depth == 0 {
        return Ok(None);
    }
    match read_members(alloc, reader, depth - 1)? {
        Some(members) => Ok(Some(Value::Object(members))),
        None => Ok(None),
    }
}

fn read_from<'a>(
    alloc: Global,
    reader: &mut Reader<'a>,
    token: Token<'a>,
    depth: usize,
) -> Result<Option<Value>, AllocError>
    ensures value { IfOk result (λ found. MatchOption found (converted of_json (value depth (token_of token.entry ∷ reader.old)) ≡ None) (λ seen. converted (read_as shallow) (value depth (token_of token.entry ∷ reader.old)) ≡ Some (view seen, reader.new))) }
    ensures no_longer { IfOk result (λ found. IfSome found (λ _. length reader.new ≤ length reader.old)) }
{
    if let Token::BeginObject = token {
        return read_object(alloc, reader, depth);
    }
    match pass_from(reader, token, depth) {
        Ok(seen) => Ok(Some(value_of(alloc, seen)?)),
        Err(_) => Ok(None),
    }
}

/// A value whose members, where it is an object, are kept at a glance.
pub fn read_shallow(
    alloc: Global,
    reader: &mut Reader<'_>,
    depth: usize,
) -> Result<Option<Value>, AllocError>
    ensures value { IfOk result (λ found. MatchOption found (converted of_json (value depth reader.old) ≡ None) (λ seen. converted (read_as shallow) (value depth reader.old) ≡ Some (view seen, reader.new))) }
    ensures shorter { IfOk result (λ found. IfSome found (λ _. length reader.new < length reader.old)) }
{
    match reader.next() {
        Some(token) => read_from(alloc, reader, token, depth),
        None => Ok(None),
    }
}
