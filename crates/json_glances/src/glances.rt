// Values of a text that are looked at as they pass, and not kept.
ghost use Rattle.std.specs.Prelude.{◌≡◌, ◌<◌, ◌≤◌, ◌∷◌, length, IfErr, IfOk, MatchResult, None, OnOk, Some};
ghost use Rattle.json.specs.Json.{items, members, value};
ghost use Rattle.json.specs.Reads.{token_of};
ghost use Rattle.serde_json.specs.Read.{converted, of_items, of_json};
ghost use Rattle.json_glances.specs.Glances.{flat, passed, passing, read_as, seen_as, taking_all};

use crate::numbers::number_in;
use json::{Invalid, Reader, Token};
use serde_json::Number;

/// What a value is at a glance.
#[derive(Clone, Copy, Drop)]
pub enum Glance<'a> {
    Null,
    Truth(bool),
    Number(Number),
    Text(&'a str),
    /// A list or an object.
    Other,
}

/// Passes the value that begins with the token.
#[cycle(pass_value)]
pub(crate) fn pass_from<'a>(
    reader: &mut Reader<'a>,
    token: Token<'a>,
    depth: usize,
) -> Result<Glance<'a>, Invalid>
    ensures ok { IfOk result (λ seen. converted (read_as flat) (value depth (token_of token.entry ∷ reader.old)) ≡ Some (seen_as seen, reader.new)) }
    ensures no_longer { OnOk result (length reader.new ≤ length reader.old) }
    ensures err { IfErr result (λ _. converted of_json (value depth (token_of token.entry ∷ reader.old)) ≡ None) }
{
    match token {
        Token::String(text) => Ok(Glance::Text(text)),
        Token::Number(text) => match number_in(text) {
            Some(number) => Ok(Glance::Number(number)),
            None => Err(Invalid),
        },
        Token::Bool(truth) => Ok(Glance::Truth(truth)),
        Token::Null => Ok(Glance::Null),
        Token::EndObject | Token::EndArray | Token::Key(_) | Token::Bad => Err(Invalid),
        Token::BeginArray => {
            if depth == 0 {
                return Err(Invalid);
            }
            pass_items(reader, depth - 1)?;
            Ok(Glance::Other)
        }
        Token::BeginObject => {
            if depth == 0 {
                return Err(Invalid);
            }
            pass_members(reader, depth - 1)?;
            Ok(Glance::Other)
        }
    }
}

/// Passes a value.
#[cycle(pass_value)]
pub fn pass_value<'a>(reader: &mut Reader<'a>, depth: usize) -> Result<Glance<'a>, Invalid>
    ensures ok { IfOk result (λ seen. converted (read_as flat) (value depth reader.old) ≡ Some (seen_as seen, reader.new)) }
    ensures shorter { OnOk result (length reader.new < length reader.old) }
    ensures err { IfErr result (λ _. converted of_json (value depth reader.old) ≡ None) }
{
    match reader.next() {
        Some(token) => pass_from(reader, token, depth),
        None => Err(Invalid),
    }
}

/// Passes the items of a list, and its end.
#[cycle(pass_value)]
fn pass_items(reader: &mut Reader<'_>, depth: usize) -> Result<(), Invalid>
    ensures value { MatchResult result (λ _. passed of_items (items (value depth) (length reader.old) reader.old) ≡ Some reader.new) (λ _. passed of_items (items (value depth) (length reader.old) reader.old) ≡ None) }
    ensures shorter { OnOk result (length reader.new < length reader.old) }
{
    'items: while !reader.take_end_array() {
        let _ = pass_value(reader, depth)?;
    }
    Ok(())
}

/// Passes the members of an object, and its end.
#[cycle(pass_value)]
fn pass_members(reader: &mut Reader<'_>, depth: usize) -> Result<(), Invalid>
    ensures value { MatchResult result (λ _. converted (λ ms. taking_all passing ms tt) (members (value depth) (length reader.old) reader.old) ≡ Some (tt, reader.new)) (λ _. converted (λ ms. taking_all passing ms tt) (members (value depth) (length reader.old) reader.old) ≡ None) }
    ensures shorter { OnOk result (length reader.new < length reader.old) }
{
    'members: while let Some(_) = reader.next_key()? {
        let _ = pass_value(reader, depth)?;
    }
    Ok(())
}
