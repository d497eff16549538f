//! The properties of a feature (RFC 7946, section 3.2).
ghost use Rattle.std.specs.Prelude.{◌≡◌, ◌++◌, ◌∷◌, IfSome, IsTrue, option_map};
ghost use Rattle.std.specs.Cmp.Lexicographic.{slice_cmp};
ghost use Rattle.std.specs.Ordering.{is_lt, nat_cmp};
ghost use Rattle.std.specs.Str.{is_utf8};
ghost use Rattle.serde_json.specs.Data.{Members, member, string};
ghost use Rattle.serde_json.specs.Find.{get_member};
ghost use Rattle.serde_json.specs.Written.{compact_text};
ghost use Rattle.streetmap_json.specs.ExactData.{is_exact};
ghost use Rattle.streetmap_compact_reader.specs.Flat.{flat_data, found_or};
ghost use Rattle.streetmap_compact_reader.specs.Fronts.{AreMembers, AreProperties};

use crate::flat::{Flat, take_flat};
use crate::fronts::{after, after_byte};
use crate::texts::take_text;

/// A member of an object: its name and its value, and what follows it.
fn take_member(rest: &str) -> Option<((&str, Flat<'_>), &str)>
    ensures text { IfSome result (λ r. rest.now ≡ compact_text (string r.0.0.now)
        ++ 58 ∷ (compact_text (flat_data r.0.1) ++ r.1.now)) }
    ensures utf8 { IfSome result (λ r. IsTrue (is_utf8 r.0.0.now)) }
    ensures exact { IfSome result (λ r. IsTrue (is_exact (flat_data r.0.1))) }
{
    let (name, colon) = take_text(rest)?;
    let (value, following) = take_flat(after_byte(colon, b':')?)?;
    Some(((name, value), following))
}

/// The value of the property of that name, after one more member.
fn found_with<'a>(
    found: Option<Flat<'a>>,
    property: Option<&str>,
    name: &str,
    value: Flat<'a>,
) -> Option<Flat<'a>>
    ensures { IfSome (option_map (λ s. s.now) property.entry) (λ p. (more : Members)
        → found_or found.entry (get_member p (member name.now (flat_data value.entry) more))
        ≡ found_or result (get_member p more)) }
{
    let Some(property) = property else {
        return found;
    };
    match found {
        Some(_) => found,
        None => { if property == name { Some(value) } else { None } }
    }
}

/// Whether a name comes before another in the order of bytes.
fn comes_before(name: &str, other: &str) -> bool
    ensures { result ≡ is_lt (slice_cmp nat_cmp name.now other.now) }
{
    name < other
}

/// The value of the property of that name among the members of an object, one at least, with their
/// names in byte order, and what follows the object.
fn take_members<'a>(rest: &'a str, property: Option<&str>) -> Option<(Option<Flat<'a>>, &'a str)>
    ensures { IfSome result (λ r. AreMembers rest.now r.1.now
        (option_map (λ s. s.now) property.entry) r.0) }
{
    let ((name, value), following) = take_member(rest)?;
    let mut last = name;
    let mut found = found_with(None, property, name, value);
    let mut after = following;
    while let Some(apart) = after_byte(after, b',') {
        let ((name, value), following) = take_member(apart)?;
        if !comes_before(last, name) {
            return None;
        }
        found = found_with(found, property, name, value);
        last = name;
        after = following;
    }
    Some((found, after_byte(after, b'}')?))
}

/// The value of the property of that name, if it is one of the properties, and what follows them.
pub(crate) fn take_properties<'a>(
    rest: &'a str,
    property: Option<&str>,
) -> Option<(Option<Flat<'a>>, &'a str)>
    ensures { IfSome result (λ r. AreProperties rest.now r.1.now
        (option_map (λ s. s.now) property.entry) r.0) }
{
    let Some(opened) = after_byte(rest, b'{') else {
        return Some((None, after(rest, "null")?));
    };
    match after_byte(opened, b'}') {
        Some(following) => Some((None, following)),
        None => {
            let (found, following) = take_members(opened, property)?;
            Some((found, following))
        }
    }
}
