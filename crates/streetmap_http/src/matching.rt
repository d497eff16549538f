//! What conditions say of a tag.
ghost use Rattle.std.specs.Prelude.{◌≡◌};
ghost use Rattle.streetmap_http.specs.Preconditions as spec;

/// What the fields of one name say of a tag (RFC 9110, sections 13.1.1 and 13.1.2).
#[derive(Drop, Clone, Copy, PartialEq, Eq)]
pub enum Matching {
    /// No field has the name.
    Unstated,
    /// They are `*`, or list the tag.
    Matches,
    /// They list other tags, or none.
    Differs,
    /// They are neither `*` nor a list of tags.
    Unreadable,
}

/// Whether fields could be read.
pub(crate) fn is_read(matching: Matching) -> bool
    ensures { result ≡ spec.is_read matching }
{
    match matching {
        Matching::Unreadable => false,
        _ => true,
    }
}

/// What lists say, by whether they have the tag, if they can be read.
pub(crate) fn matching_of(found: Option<bool>) -> Matching
    ensures { result ≡ spec.matching_found found }
{
    match found {
        Some(true) => Matching::Matches,
        Some(false) => Matching::Differs,
        None => Matching::Unreadable,
    }
}
