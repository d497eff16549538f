//! What a request requires of the tag of what is there (RFC 9110, section 13.1).
ghost use Rattle.std.specs.Prelude.{length, All};
ghost use Rattle.httparse.specs.Spans.{IsHeaderWithin};

use crate::fields::{count_named, first_value, is_named};
use crate::matching::{Matching, is_read, matching_of};
use crate::tags::list_has;
use httparse::spans::HeaderSpan;

/// The conditions of a request: the fields of its head.
#[derive(Clone, Copy)]
pub struct Preconditions<'a> {
    head: &'a [u8],
    fields: &'a [HeaderSpan],
    ghost within: { All (IsHeaderWithin (length head.now)) fields.now },
}

impl<'a> Preconditions<'a> {
    ghost use Rattle.std.specs.Prelude.{◌≡◌, option_map};
    ghost use Rattle.std.specs.List.{list_any};
    ghost use Rattle.httparse.specs.Spans.{header_bytes};
    ghost use Rattle.streetmap_http.specs.Fields.{pairs, is_named};
    ghost use Rattle.streetmap_http.specs.Tags.{is_same_tag, strong_tag};
    ghost use Rattle.streetmap_http.specs.Preconditions as spec;
    ghost use Rattle.streetmap_http.specs.Preconditions.{said_of};
    ghost use Rattle.streetmap_http.specs.Preconditions.{tags_in, selection_in, matching};
    ghost use Rattle.streetmap_http.specs.PreconditionsView.{preconditions_value, fields_of};

    /// Those of a head with these fields.
    pub(crate) fn new(head: &'a [u8], fields: &'a [HeaderSpan]) -> Preconditions<'a>
        requires { All (IsHeaderWithin (length head.now)) fields.now }
        ensures { fields_of result ≡ pairs head.now fields.now }
    {
        Preconditions { head, fields }
    }

    /// Whether a field has a name and its list the strong tag with this text; `None` if it has the
    /// name and is no list of tags.
    fn field_has(&self, field: &HeaderSpan, name: &[u8], tag: &[u8], weakly: bool) -> Option<bool>
        requires { IsHeaderWithin (length self.now.head.now) field.now }
        ensures { result ≡ said_of weakly
            (is_named name.now (header_bytes self.now.head.now field.now)) tag.now
            (header_bytes self.now.head.now field.now) }
    {
        if !is_named(self.head, field, name) {
            return Some(false);
        }
        list_has(field.value.of(self.head), tag, weakly)
    }

    /// Whether the fields of a name, which are lists of tags, have the strong tag with this text;
    /// `None` if one is no list of tags.
    fn lists_have(&self, name: &[u8], tag: &[u8], weakly: bool) -> Option<bool>
        ensures { result ≡ option_map (list_any (is_same_tag weakly (strong_tag tag.now)))
            (tags_in name.now (fields_of self.now)) }
    {
        let mut found = false;
        for field in self.fields {
            let has = self.field_has(field, name, tag, weakly)?;
            found |= has;
        }
        Some(found)
    }

    /// Whether one field alone has a name, and its value is `*`.
    fn is_any(&self, name: &[u8]) -> bool
        ensures { result ≡ spec.is_any name.now (fields_of self.now) }
    {
        let Some(value) = first_value(self.head, self.fields, name) else {
            return false;
        };
        value == b"*".as_slice() && count_named(self.head, self.fields, name) == 1
    }

    /// What the fields of a name say of the tag of a number.
    #[tactic(auto, unfolding(crate::specs::Preconditions::selection_in))]
    fn matching(&self, name: &[u8], number: u64, weakly: bool) -> Matching
        ensures { result ≡ matching weakly number (selection_in name.now (fields_of self.now)) }
    {
        if count_named(self.head, self.fields, name) == 0 {
            return Matching::Unstated;
        }
        if self.is_any(name) {
            return Matching::Matches;
        }
        let mut digits = itoa::Buffer::new();
        let tag = digits.format(number);
        matching_of(self.lists_have(name, tag.as_bytes(), weakly))
    }

    /// What `If-Match` says of the tag of a number.
    pub fn if_match(&self, number: u64) -> Matching
        ensures { result ≡ spec.if_match_of number (preconditions_value self.now) }
    {
        self.matching(b"if-match", number, false)
    }

    /// What `If-None-Match` says of the tag of a number.
    pub fn if_none_match(&self, number: u64) -> Matching
        ensures { result ≡ spec.if_none_match_of number (preconditions_value self.now) }
    {
        self.matching(b"if-none-match", number, true)
    }

    /// Whether both are `*` or a list of tags, if they are there.
    pub fn are_readable(&self) -> bool
        ensures { result ≡ spec.are_readable (preconditions_value self.now) }
    {
        let one = is_read(self.if_match(0));
        let other = is_read(self.if_none_match(0));
        one && other
    }
}
