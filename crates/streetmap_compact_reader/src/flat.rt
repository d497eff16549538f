//! Values of properties.
ghost use Rattle.std.specs.Prelude.{◌≡◌, ◌++◌, IfSome, IsTrue};
ghost use Rattle.serde_json.specs.Written.{compact_text};
ghost use Rattle.streetmap_json.specs.ExactData.{is_exact};
ghost use Rattle.streetmap_compact_reader.specs.Flat.{flat_data};

use crate::fronts::after;
use crate::numbers::take_number;
use crate::texts::take_text;

/// A value that is neither an array nor an object, and has no fraction (RFC 8259, section 3).
#[derive(Clone, Copy)]
pub(crate) enum Flat<'a> {
    Null,
    Truth(bool),
    Whole(i64),
    Text(&'a str),
}

/// A value, and what follows it.
pub(crate) fn take_flat(rest: &str) -> Option<(Flat<'_>, &str)>
    ensures text { IfSome result (λ r. rest.now ≡ compact_text (flat_data r.0) ++ r.1.now) }
    ensures exact { IfSome result (λ r. IsTrue (is_exact (flat_data r.0))) }
{
    match *rest.as_bytes().first()? {
        b'"' => {
            let (text, following) = take_text(rest)?;
            Some((Flat::Text(text), following))
        }
        b't' => {
            let following = after(rest, "true")?;
            Some((Flat::Truth(true), following))
        }
        b'f' => {
            let following = after(rest, "false")?;
            Some((Flat::Truth(false), following))
        }
        b'n' => {
            let following = after(rest, "null")?;
            Some((Flat::Null, following))
        }
        _ => {
            let (number, following) = take_number(rest)?;
            Some((Flat::Whole(number), following))
        }
    }
}
