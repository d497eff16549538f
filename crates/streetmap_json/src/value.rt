//! Values read from tokens, one at a time.
ghost use Rattle.std.specs.Prelude.{◌≡◌, ◌∷◌, ◌<◌, ◌≤◌, length, OnOk};
ghost use Rattle.json.specs.Reads.{token_of};
ghost use Rattle.serde_json.specs.View.{view, items_view, members_view};
ghost use Rattle.streetmap_json.specs.Values.{value_at, items_at, members_at, Takes};

use crate::fault::ParseFault;
use crate::number::read_number;
use json::{Reader, Token};
use serde_json::{Map, Value};
use std::alloc::Global;

/// Reads the next value, nested no deeper than this.
///
/// # Errors
///
/// `NotJson` if no value comes next, it nests deeper, or it has a number too large for a float.
#[cycle(read_value)]
pub fn read_value(alloc: Global, reader: &mut Reader<'_>, depth: usize) -> Result<Value, ParseFault>
    ensures takes { Takes view result reader.new (value_at depth reader.old) }
    ensures shorter { OnOk result (length reader.new < length reader.old) }
{
    match reader.next() {
        Some(token) => read_token(alloc, token, reader, depth),
        None => Err(ParseFault::NotJson),
    }
}

/// Reads the value that begins with a token that was already read, nested no deeper than this.
///
/// # Errors
///
/// As [`read_value`].
#[cycle(read_value)]
pub fn read_token(
    alloc: Global,
    token: Token<'_>,
    reader: &mut Reader<'_>,
    depth: usize,
) -> Result<Value, ParseFault>
    ensures takes { Takes view result reader.new
        (value_at depth (token_of token.entry ∷ reader.old)) }
    ensures shorter { OnOk result (length reader.new ≤ length reader.old) }
{
    match token {
        Token::String(text) => Ok(Value::String(String::from_str(alloc, text)?)),
        Token::Number(text) => match read_number(text) {
            Some(number) => Ok(Value::Number(number)),
            None => Err(ParseFault::NotJson),
        },
        Token::Bool(truth) => Ok(Value::Bool(truth)),
        Token::Null => Ok(Value::Null),
        Token::BeginArray => {
            if depth == 0 {
                return Err(ParseFault::NotJson);
            }
            Ok(Value::Array(read_items(alloc, reader, depth - 1)?))
        }
        Token::BeginObject => {
            if depth == 0 {
                return Err(ParseFault::NotJson);
            }
            Ok(Value::Object(read_members(alloc, reader, depth - 1)?))
        }
        Token::EndObject | Token::EndArray | Token::Key(_) | Token::Bad => {
            Err(ParseFault::NotJson)
        }
    }
}

/// The elements of an array whose opening bracket was read.
#[cycle(read_value)]
fn read_items(
    alloc: Global,
    reader: &mut Reader<'_>,
    depth: usize,
) -> Result<Vec<Value>, ParseFault>
    ensures takes { Takes (λ v. items_view v.items) result reader.new (items_at depth reader.old) }
    ensures shorter { OnOk result (length reader.new < length reader.old) }
{
    let mut items = Vec::new(alloc);
    'items: while !reader.take_end_array() {
        let item = read_value(alloc, reader, depth)?;
        items.push(item)?;
    }
    Ok(items)
}

/// The members of an object whose opening brace was read. Of members with the same name the last is
/// kept.
#[cycle(read_value)]
fn read_members(
    alloc: Global,
    reader: &mut Reader<'_>,
    depth: usize,
) -> Result<Map<String, Value>, ParseFault>
    ensures takes { Takes (λ m. members_view m.entries) result reader.new
        (members_at depth reader.old) }
    ensures shorter { OnOk result (length reader.new < length reader.old) }
{
    let mut members = Map::new(alloc);
    'members: while let Some(name) = reader.next_key()? {
        let name = String::from_str(alloc, name)?;
        let member = read_value(alloc, reader, depth)?;
        drop(members.insert(name, member)?);
    }
    Ok(members)
}
