//! Ids: texts, and whole numbers as their decimal texts (RFC 7946, section 3.2).
ghost use Rattle.std.specs.Prelude.{◌≡◌, ◌↔◌, IfOk, IfErr, IsOk, IsTrue, ℤ, string_bytes};
ghost use Rattle.std.specs.Prelude.{option_map};
ghost use Rattle.std.specs.Fmt.{signed_decimal};
ghost use Rattle.std.specs.Str.{is_utf8};
ghost use Rattle.serde_json.specs.View.{view};
ghost use Rattle.streetmap_geojson.specs.Fault.{Gives};
ghost use Rattle.streetmap_geojson.specs.IdView.{id_value};
ghost use Rattle.streetmap_geojson.specs.Id as ids;

use crate::fault::{Fault, JsonFault};
use serde_json::Value;
use std::alloc::{AllocError, Global};
use std::marker::Model;

/// The id of a feature: 1 to 128 bytes of text without control characters. Clauses see its bytes.
#[derive(Drop)]
pub struct Id {
    text: String,
}

impl Model for Id {
    ghost use Rattle.std.specs.Prelude.{ℕ, List, IsTrue, string_bytes};
    ghost use Rattle.streetmap_geojson.specs.Id.{is_id};

    ghost Value = { List ℕ };

    ghost view = { λ i. string_bytes i.text };

    ghost invariant = { λ i. IsTrue (is_id (string_bytes i.text)) };
}

impl Id {
    /// The id of that text. Refused as `BadId` if it is not an id.
    pub fn new(text: String) -> Result<Id, Fault>
        ensures value { IfOk result (λ i. id_value i ≡ string_bytes text) }
        ensures taken { IsOk result ↔ IsTrue (ids.is_id (string_bytes text)) }
        ensures fault { IfErr result (λ f. f ≡ Fault.BadId) }
    {
        if is_id(&text) {
            Ok(Id { text })
        } else {
            Err(Fault::BadId)
        }
    }

    /// The text of the id.
    pub fn as_str(&self) -> &str
        ensures value { result.now ≡ self.now }
        ensures named { IsTrue (ids.is_id self.now) }
        ensures text { IsTrue (is_utf8 self.now) }
    {
        self.text.as_str()
    }

    /// An equal id.
    pub fn copy(&self) -> Result<Id, AllocError>
        ensures { IfOk result (λ i. i ≡ self.now) }
    {
        let text = self.text.clone()?;
        Ok(Id { text })
    }
}

/// Whether a text has no control characters (U+0000 to U+001F, U+007F to U+009F).
pub fn has_no_controls(text: &str) -> bool
    ensures { result ≡ ids.has_no_controls text.now }
{
    text.chars().all(|c| !c.is_control())
}

/// Whether a text is an id: 1 to 128 bytes without control characters.
pub fn is_id(text: &str) -> bool
    ensures { result ≡ ids.is_id text.now }
{
    !text.is_empty() && text.len() <= 128 && has_no_controls(text)
}

fn read_text(alloc: Global, text: &str) -> Result<Id, JsonFault>
    ensures reads { Gives id_value result (ids.text_id text.now) }
    ensures named { IfOk result (λ i. IsTrue (ids.is_id (id_value i))) }
{
    if is_id(text) {
        let text = String::from_str(alloc, text)?;
        Ok(Id { text })
    } else {
        Err(JsonFault::Fault(Fault::BadId))
    }
}

fn decimal_text(alloc: Global, number: i128) -> Result<String, AllocError>
    ensures { IfOk result (λ s. string_bytes s ≡ signed_decimal number) }
{
    number.to_string(alloc)
}

// The decimal text of a number, which is an id.
fn checked_text(alloc: Global, number: i128) -> Result<String, AllocError>
    ensures text { IfOk result (λ s. string_bytes s ≡ signed_decimal number) }
    ensures named { IfOk result (λ s. IsTrue (ids.is_id (string_bytes s))) }
{
    decimal_text(alloc, number)
}

// The id of a whole number.
fn decimal_id(alloc: Global, number: i128) -> Result<Id, AllocError>
    ensures text { IfOk result (λ i. id_value i ≡ signed_decimal number) }
    ensures named { IfOk result (λ i. IsTrue (ids.is_id (id_value i))) }
{
    let text = checked_text(alloc, number)?;
    Ok(Id { text })
}

fn read_number(alloc: Global, number: Option<i128>) -> Result<Id, JsonFault>
    ensures reads { Gives id_value result (ids.number_id number) }
    ensures named { IfOk result (λ i. IsTrue (ids.is_id (id_value i))) }
{
    match number {
        Some(number) => Ok(decimal_id(alloc, number)?),
        None => Err(JsonFault::Fault(Fault::Fraction)),
    }
}

/// The id that a value gives: text that is an id, or a whole number by its decimal text. Refused as
/// `Fraction` if it is another number, otherwise as `BadId`.
pub fn read_id(alloc: Global, value: &Value) -> Result<Id, JsonFault>
    ensures reads { Gives id_value result (ids.id_from (view value.now)) }
    ensures named { IfOk result (λ i. IsTrue (ids.is_id (id_value i))) }
{
    match value {
        Value::String(text) => read_text(alloc, text),
        Value::Number(number) => read_number(alloc, number.as_i128()),
        _ => Err(JsonFault::Fault(Fault::BadId)),
    }
}

fn read_place_id(alloc: Global, place: Option<u64>) -> Result<Id, JsonFault>
    ensures reads { Gives id_value result (ids.place_id place) }
    ensures named { IfOk result (λ i. IsTrue (ids.is_id (id_value i))) }
{
    match place {
        Some(place) => Ok(decimal_id(alloc, i128::from(place))?),
        None => Err(JsonFault::Fault(Fault::BadId)),
    }
}

// The id of a feature, by its member, or otherwise by its place in a collection.
pub(crate) fn read_member_id(
    alloc: Global,
    member: Option<&Value>,
    place: Option<u64>,
) -> Result<Id, JsonFault>
    ensures reads { Gives id_value result
        (ids.id_of place (option_map (λ v. view v.now) member.entry)) }
    ensures named { IfOk result (λ i. IsTrue (ids.is_id (id_value i))) }
{
    match member {
        Some(id) => read_id(alloc, id),
        None => read_place_id(alloc, place),
    }
}
