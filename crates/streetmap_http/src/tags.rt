//! Lists of entity tags (RFC 9110, sections 5.6.1 and 8.8.3).
ghost use Rattle.std.specs.Prelude.{◌≡◌, ◌≤◌, ◌<◌, ◌+◌, ◌==◌, ℕ, List, Some, None, IfSome};
ghost use Rattle.std.specs.Prelude.{option_map, length, slice_index, if◌then◌else◌};
ghost use Rattle.std.specs.List.{list_any};
ghost use Rattle.streetmap_http.specs.Tags as spec;
ghost use Rattle.streetmap_http.specs.Tags.{tags_of, is_same_tag, strong_tag, step, ended};
ghost use Rattle.streetmap_http.specs.TagPlaces.{place_value, HasBegun, is_ended_with};
ghost use Rattle.streetmap_http.specs.declared.tags.Place.TheVariants as Place;

/// Where a byte of a list is.
#[derive(Drop, Clone, Copy)]
enum Place {
    /// Between the tags.
    Between,
    /// After the letter of the mark `W/` of a weak tag.
    AfterLetter,
    /// After the slash of the mark.
    AfterSlash,
    /// Within a tag: whether it is weak, and where its first byte after the quote is.
    Within(bool, usize),
    /// After a tag, before the next comma.
    After,
}

/// Whether a tag may have a byte between its quotes.
fn is_tag_byte(byte: u8) -> bool
    ensures { result ≡ spec.is_tag_byte byte }
{
    byte > b' ' && byte != b'"' && byte != 127
}

/// Whether a byte is optional white space.
fn is_space(byte: u8) -> bool
    ensures { result ≡ spec.is_space byte }
{
    byte == b' ' || byte == b'\t'
}

/// The place after a byte between the tags.
#[tactic(auto, using(crate::proofs::TagLists::slice_nothing))]
fn from_between(list: &[u8], at: usize) -> Option<Place>
    requires { at < length list.now }
    ensures value { option_map (place_value list.now (at + 1)) result
        ≡ spec.from_between (slice_index list.now at) }
    ensures begun { IfSome result (HasBegun (at + 1)) }
{
    let byte = list[at];
    if is_space(byte) || byte == b',' {
        Some(Place::Between)
    } else if byte == b'"' {
        Some(Place::Within(false, at + 1))
    } else if byte == b'W' {
        Some(Place::AfterLetter)
    } else {
        None
    }
}

/// The place after a byte of the mark of a weak tag, if the byte is this one.
fn from_mark(list: &[u8], at: usize, expected: u8, next: Place) -> Option<Place>
    requires { at < length list.now }
    ensures value { option_map (place_value list.now (at + 1)) result
        ≡ (if slice_index list.now at == expected then Some (place_value list.now (at + 1) next)
        else None) }
    ensures begun { HasBegun (at + 1) next → IfSome result (HasBegun (at + 1)) }
{
    if list[at] == expected {
        Some(next)
    } else {
        None
    }
}

/// The place after a byte of a tag.
#[tactic(auto, using(crate::proofs::TagLists::slice_more))]
fn from_within(list: &[u8], at: usize, weak: bool, start: usize) -> Option<Place>
    requires inside { at < length list.now }
    requires begun { start ≤ at }
    ensures value { option_map (place_value list.now (at + 1)) result
        ≡ step (place_value list.now at (Place.Within weak start)) (slice_index list.now at) }
    ensures begun { IfSome result (HasBegun (at + 1)) }
{
    let byte = list[at];
    if byte == b'"' {
        Some(Place::After)
    } else if is_tag_byte(byte) {
        Some(Place::Within(weak, start))
    } else {
        None
    }
}

/// The place after a byte that follows a tag.
fn from_after(byte: u8) -> Option<Place>
    ensures value { (list : List ℕ) (at : ℕ) → option_map (place_value list at) result
        ≡ step spec.after byte }
    ensures begun { (at : ℕ) → IfSome result (HasBegun at) }
{
    if byte == b',' {
        Some(Place::Between)
    } else if is_space(byte) {
        Some(Place::After)
    } else {
        None
    }
}

/// The place after the byte at an index, if the byte may stand there.
#[tactic(auto, using(crate::proofs::TagLists::slice_nothing))]
fn next_place(list: &[u8], at: usize, place: Place) -> Option<Place>
    requires inside { at < length list.now }
    requires begun { HasBegun at place }
    ensures value { option_map (place_value list.now (at + 1)) result
        ≡ step (place_value list.now at place) (slice_index list.now at) }
    ensures begun { IfSome result (HasBegun (at + 1)) }
{
    match place {
        Place::Between => from_between(list, at),
        Place::AfterLetter => from_mark(list, at, b'/', Place::AfterSlash),
        Place::AfterSlash => from_mark(list, at, b'"', Place::Within(true, at + 1)),
        Place::Within(weak, start) => from_within(list, at, weak, start),
        Place::After => from_after(list[at]),
    }
}

/// Whether the byte at an index ends a tag that is this one.
fn ends_with(list: &[u8], at: usize, place: Place, tag: &[u8], weakly: bool) -> bool
    requires inside { at < length list.now }
    requires begun { HasBegun at place }
    ensures { result ≡ is_ended_with weakly tag.now
        (ended (place_value list.now at place) (slice_index list.now at)) }
{
    match place {
        Place::Within(weak, start) => {
            list[at] == b'"' && (weakly || !weak) && tag == &list[start..at]
        }
        _ => false,
    }
}

/// Whether a list may end at a place.
fn is_end(place: Place) -> bool
    ensures { (list : List ℕ) (at : ℕ) → result ≡ spec.is_end (place_value list at place) }
{
    match place {
        Place::Between | Place::After => true,
        _ => false,
    }
}

/// Whether a list has the strong tag with this text between its quotes, by a weak comparison or a
/// strong one; `None` if the text is no list of tags.
pub(crate) fn list_has(list: &[u8], tag: &[u8], weakly: bool) -> Option<bool>
    ensures { result ≡ option_map (list_any (is_same_tag weakly (strong_tag tag.now)))
        (tags_of list.now) }
{
    let mut place = Place::Between;
    let mut found = false;
    for at in 0..list.len() {
        let ends = ends_with(list, at, place, tag, weakly);
        let next = next_place(list, at, place)?;
        found |= ends;
        place = next;
    }
    if is_end(place) { Some(found) } else { None }
}
