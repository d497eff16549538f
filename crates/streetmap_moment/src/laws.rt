//! Laws of the definitions that the contracts cite, for proofs about plain values.
ghost use Rattle.std.specs.Prelude.{◌≡◌, ◌↔◌, ℕ, IsTrue, List, Ok};
ghost use Rattle.streetmap_moment.specs.IntervalText.{IsPropertyText};
ghost use Rattle.streetmap_moment.specs.Intervals.{property_of};
ghost use Rattle.streetmap_moment.specs.IntervalValue.{IntervalValue, IsInOrder, IsInterval};
ghost use Rattle.streetmap_moment.specs.Meeting.{Meets, meets, seconds_overlap};

/// The test of meeting is true exactly if neither interval ends before the other starts.
pub fn meeting_is_tested()
    ensures { (a b : IntervalValue) → IsTrue (meets a b) ↔ Meets a b }
{}

/// Intervals that meet have a second in common, so a search by seconds misses none of them.
pub fn meeting_shares_a_second()
    ensures { (a b : IntervalValue) → IsInterval a → IsInterval b → Meets a b
        → IsTrue (seconds_overlap a b) }
{}

/// If the text of a time property is read, the result is an interval and what the text says (RFC
/// 3339, section 5.6, and OGC 17-069, section 7.15.4); and a text is read if what it says does not
/// start after its end.
pub fn property_texts_are_read_as_they_say()
    ensures read { (text : List ℕ) (i : IntervalValue) → property_of text ≡ Ok i
        → IsPropertyText text i × IsInterval i }
    ensures said { (text : List ℕ) (i : IntervalValue) → IsPropertyText text i
        → IsInOrder i.start i.end → property_of text ≡ Ok i }
{}
