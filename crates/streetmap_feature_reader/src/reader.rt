//! Features read from texts.
ghost use Rattle.std.specs.Prelude.{◌≡◌, IfOk, IfSome, Ok, Some, option_map};
ghost use Rattle.serde_json.specs.Data.{Data};
ghost use Rattle.serde_json.specs.Read.{read};
ghost use Rattle.serde_json.specs.View.{view};
ghost use Rattle.streetmap_json.specs.JsonText.{utf8_value};
ghost use Rattle.streetmap_geojson.specs.Fault.{Gives};
ghost use Rattle.streetmap_geojson.specs.FeatureMembers.{feature_object, geometry_data};
ghost use Rattle.streetmap_geojson.specs.FeatureMeaning.{ReadsAs};
ghost use Rattle.streetmap_geojson.specs.ParsedFeatures.{feature};
ghost use Rattle.streetmap_geojson.specs.FeatureValue.{FeatureValue};
ghost use Rattle.streetmap_geojson.specs.FeatureView.{feature_value};
ghost use Rattle.streetmap_geojson.specs.JsonText.{json_of};
ghost use Rattle.streetmap_feature_reader.specs.UsualTexts.{feature_of_text, IsUsual, IsUsualValue};

use crate::usual_members::UsualMembers;
use json::{Reader, Scratch, Token};
use std::alloc::{AllocError, Global};
use streetmap_geojson::{Fault, Feature, FeatureMembers, JsonFault, read_feature, read_members};
use streetmap_json::{ParseFault, read_json_with, with_whole_numbers};

/// The members that the tokens of a text are, if they are those that a feature usually has.
fn members_of(
    alloc: Global,
    scratch: &mut Scratch,
    text: &str,
) -> Result<Option<FeatureMembers>, ParseFault>
    ensures { IfOk result (λ found. IfSome found (λ members. read text.now
        ≡ Some (feature_object (geometry_data members.geometry) (view members.id)
        (view members.properties)))) }
{
    let mut reader = Reader::new(text, scratch)?;
    let Some(Token::BeginObject) = reader.next() else {
        return Ok(None);
    };
    let Some(members) = UsualMembers::read(alloc, &mut reader)? else {
        return Ok(None);
    };
    if reader.next().is_some() {
        return Ok(None);
    }
    Ok(members.whole())
}

/// The feature of members, if they read as one.
fn feature_of(
    alloc: Global,
    members: FeatureMembers,
    time_property: Option<&str>,
) -> Result<Option<Feature>, AllocError>
    ensures { IfOk result (λ found. IfSome found (λ f.
        feature (option_map (λ s. s.now) time_property.entry)
        (feature_object (geometry_data members.geometry) (view members.id)
        (view members.properties))
        ≡ Ok (feature_value f))) }
{
    match read_members(alloc, members, time_property) {
        Ok(feature) => Ok(Some(feature)),
        Err(JsonFault::Memory) => Err(AllocError),
        Err(JsonFault::Fault(_)) => Ok(None),
    }
}

/// The feature of a text, if it is usual and reads as one.
fn read_usual_text(
    alloc: Global,
    scratch: &mut Scratch,
    text: &str,
    time_property: Option<&str>,
) -> Result<Option<Feature>, AllocError>
    ensures { IfOk result (λ found. IfSome found (λ f.
        IsUsualValue (option_map (λ s. s.now) time_property.entry) (read text.now)
        (feature_value f))) }
{
    match members_of(alloc, scratch, text) {
        Ok(Some(members)) => feature_of(alloc, members, time_property),
        Ok(None) | Err(ParseFault::NotJson) => Ok(None),
        Err(ParseFault::Memory) => Err(AllocError),
    }
}

/// The feature of bytes whose numbers are read as they are.
fn read_usual_bytes(
    alloc: Global,
    scratch: &mut Scratch,
    bytes: &[u8],
    time_property: Option<&str>,
) -> Result<Option<Feature>, AllocError>
    ensures { IfOk result (λ found. IfSome found (λ f.
        IsUsualValue (option_map (λ s. s.now) time_property.entry) (utf8_value bytes.now)
        (feature_value f))) }
{
    match simdutf8::basic::from_utf8(bytes) {
        Ok(text) => read_usual_text(alloc, scratch, text, time_property),
        Err(_) => Ok(None),
    }
}

/// The feature of a JSON text, its time read from the property of that name, or none without a
/// name, if the text is usual and reads as a feature. Otherwise nothing is claimed of the text. One
/// `scratch` serves any number of reads, one after the other.
///
/// # Errors
///
/// `AllocError` if memory runs out; the caller may try again.
pub fn read_usual(
    alloc: Global,
    scratch: &mut Scratch,
    bytes: &[u8],
    time_property: Option<&str>,
) -> Result<Option<Feature>, AllocError>
    ensures { IfOk result (λ found. IfSome found (λ f.
        IsUsual (option_map (λ s. s.now) time_property.entry) bytes.now (feature_value f))) }
{
    match with_whole_numbers(alloc, bytes)? {
        Some(plain) => read_usual_bytes(alloc, scratch, &plain, time_property),
        None => read_usual_bytes(alloc, scratch, bytes, time_property),
    }
}

/// The feature of a JSON text, by its value.
fn read_by_value(
    alloc: Global,
    scratch: &mut Scratch,
    bytes: &[u8],
    time_property: Option<&str>,
) -> Result<Feature, JsonFault>
    ensures { Gives feature_value result
        (feature_of_text (option_map (λ s. s.now) time_property.entry) bytes.now) }
{
    match read_json_with(alloc, scratch, bytes) {
        Ok(value) => read_feature(alloc, &value, time_property),
        Err(ParseFault::Memory) => Err(JsonFault::Memory),
        Err(ParseFault::NotJson) => Err(JsonFault::Fault(Fault::NotJson)),
    }
}

/// The feature of a JSON text, usual or not.
fn read_any(
    alloc: Global,
    scratch: &mut Scratch,
    bytes: &[u8],
    time_property: Option<&str>,
) -> Result<Feature, JsonFault>
    ensures { Gives feature_value result
        (feature_of_text (option_map (λ s. s.now) time_property.entry) bytes.now) }
{
    match read_usual(alloc, scratch, bytes, time_property)? {
        Some(feature) => Ok(feature),
        None => read_by_value(alloc, scratch, bytes, time_property),
    }
}

/// The feature that a JSON text is (RFC 7946, section 3.2), its time read from the property of that
/// name, or none without a name. One `scratch` serves any number of reads, one after the other.
///
/// # Errors
///
/// `Fault` with `NotJson` if the bytes have no value, as [`read_json_with`] has it, and otherwise
/// with the fault of [`read_feature`]. `Memory` if memory runs out; the caller may try again.
pub fn read_feature_text(
    alloc: Global,
    scratch: &mut Scratch,
    bytes: &[u8],
    time_property: Option<&str>,
) -> Result<Feature, JsonFault>
    // What is read is what the value of the text reads as.
    ensures found { IfOk result (λ f. (d : Data) × (json_of bytes.now ≡ Ok d)
        × ReadsAs (option_map (λ s. s.now) time_property.entry) d (feature_value f)) }
    // It reads what the value of the text reads as, unless memory runs out.
    ensures only { (d : Data) (f : FeatureValue) → json_of bytes.now ≡ Ok d
        → ReadsAs (option_map (λ s. s.now) time_property.entry) d f
        → Gives feature_value result (Ok f) }
    // Which fault it is.
    ensures exact { Gives feature_value result
        (feature_of_text (option_map (λ s. s.now) time_property.entry) bytes.now) }
{
    read_any(alloc, scratch, bytes, time_property)
}
